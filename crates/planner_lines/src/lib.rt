// The lines that `planner_test` reads, and the cases that they make. No part of the product.
#![tactic(auto)]

mod entries;
mod lines;
mod numbers;

pub use entries::Part;
pub use lines::{Change, Line, Question, Terms};
pub use numbers::Numbers;
