// No code: document 01's "Checked examples" E1 to E10 as one table in specs/, computed by the rules in proofs/.
#![tactic(auto)]
