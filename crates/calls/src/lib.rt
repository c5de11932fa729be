// No functions: what document 01's calls answer on an accepted fabric is in specs/, what follows from it in proofs/.
#![tactic(auto)]
