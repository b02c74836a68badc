// What the exported functions take and must leave, made from the second search's own numbers: positions in pairs of bytes, and replies. Nothing is
// promised here but safety.
#![tactic(auto)]

mod pairs;
mod replies;

pub use pairs::{Pairs, draw_pairs};
pub use replies::{REPLY, advice_reply, away_reply, judged_reply, plan_reply, verdict_reply};
