//! The judge of transcripts: whether a recorded history is one that the sequential manager could have made, and what is
//! wrong with one that isn't.
#![tactic(auto)]

mod cause;
mod causes;
mod checker;
mod comparing;
mod difference;
mod judge;
mod recorded_answers;
mod replaying;
mod verdict;

pub use cause::Cause;
pub use checker::{check, explain};
pub use difference::{Closure, Difference, QuestionPart, ShownField};
pub use judge::Judge;
pub use verdict::{Verdict, Wrong};
