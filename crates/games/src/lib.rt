// Walks, limits and games, as definitions (specs/) and theorems (proofs/). There is no code here: the searches stand in a crate above and are
// proved equal to these walks. Nothing here knows people's roles, rules, files or how a set is stored.
#![tactic(auto)]
