// Several actions one after the other, as one. What follows from it is in proofs/Coursing.antt; there is no code.
#![tactic(auto)]
