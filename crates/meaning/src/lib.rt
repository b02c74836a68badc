// A laid-out board means its case, as theorems (proofs/): who may do a step, which steps may be filled next, with whom the rules are kept; and every walk
// on it is the walk of the case. There is no code here.
#![tactic(auto)]
