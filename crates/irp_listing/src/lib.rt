//! The text of a history: a block of lines for each entry, in the words of a driver writer.
#![tactic(auto)]

mod blocks;
mod choosing;
mod leaving;
mod lines;
mod listing;
mod outcome;
mod questions;
mod stacks;
mod word_lines;

pub use blocks::CallerWords;
pub use choosing::{Choice, is_chosen};
pub use lines::{put_line, put_row};
pub use listing::{put_chosen, put_word_line};
pub use outcome::{EndWords, Outcome, moves, outcome_of};
pub use questions::AskedWords;
pub use stacks::Stacks;
pub use word_lines::WordLineWords;
