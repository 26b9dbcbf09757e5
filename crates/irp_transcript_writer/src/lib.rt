//! Transcripts as lines of JSON, and how they are written.
#![tactic(auto)]

mod call_lines;
mod form;
mod lines;
mod names;
mod parts;
mod rows;
mod word_lines;
mod write;

pub use form::{Written, line_of};
pub use write::{Cause, WriteFault, write_transcript};
