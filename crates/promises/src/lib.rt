// The promises: theorems about what the public calls return, in the words of the customer's demands (docs/PROMISES.md). There is no code here.
#![tactic(auto)]
