// Theorems about the calls that read, judge and write files (proofs/). There is no code here.
#![tactic(auto)]
