// Counts of what was compared, and the first difference. Nothing is promised here but safety.
#![tactic(auto)]

mod counts;
mod differences;
mod printing;

pub use counts::{Asked, Count, Function, Kind, Tally};
pub use differences::{compare, expect, is_first};
