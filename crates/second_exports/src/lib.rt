// The exported functions compared with what the second search says they must leave in the caller's array. Nothing is promised here but safety.
#![tactic(auto)]

mod calls;
mod trying;

pub use trying::{draw_verdict, try_exported, try_refused_exported};
