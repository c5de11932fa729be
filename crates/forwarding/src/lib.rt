// No code: document 01's forwarding rule, packet run, back-trace and verdict are in specs/, what follows from them in proofs/.
#![tactic(auto)]
