// Advice and away compared at positions by chance, valid ones and others, and in whole games.
#![tactic(auto)]

mod playing;
mod questions;

use cases::Case;
pub use playing::{play_away, play_desk};
pub use questions::{try_advice, try_away};
use second_files::File;

// What is asked about: a good file, its case in memory, and t. Printer, chance and tally stay parameters beside it, since each is lent for a time of its own.
#[derive(Clone, Copy)]
pub struct Held<'a> {
    pub file: &'a File,
    pub case: Case,
    pub t: usize,
}
