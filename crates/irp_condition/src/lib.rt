//! Conditions on what an order of a script's steps leaves: read from a text, and whether they hold.
#![tactic(auto)]

mod condition;
mod facts;
mod fault;
mod holding;
mod naming;
mod parsing;
mod reading;
mod scope;
mod tokens;
mod value;
mod words;
mod writing;

pub use condition::{Comparison, Condition, Fact, Term};
pub use facts::{Facts, Packet, Told};
pub use fault::{ConditionFault, Expected, Unread};
pub use holding::{holds, told_value};
pub use parsing::read_condition;
pub use scope::Scope;
pub use value::{Answer, Named, Value};
pub use writing::{text_of, word_of_answer};
