//! What programs do at their edge: their words, the file that they read, and how they stop.
#![tactic(auto)]

mod opening;
mod stopping;
mod words;

pub use opening::{NoOpen, Unopened, open_input};
pub use stopping::stop;
pub use words::{Unasked, words_of};

/// One byte more than the text of a script may have, as JSON or in words (docs/FORMATS.md): as much is read of one.
pub const TOO_MANY_BYTES: usize = 1_048_577;
