// Good case files, drawn by chance from a seed. Nothing is promised here but safety.
#![tactic(auto)]

mod chance;
mod drawing;

pub use chance::Chance;
pub use drawing::{Shape, draw};
