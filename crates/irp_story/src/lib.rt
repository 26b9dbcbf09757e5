//! The story of a history, from which a page is drawn: lines of JSON with the header, each entry and what the manager's
//! state is behind it, each step on a remove lock or a cancel slot, and the verdict. Source: this project's own format
//! (docs/FORMATS.md).
#![tactic(auto)]

mod causes;
mod form;
mod lines;
mod outcomes;
mod packets;
mod standing;
mod story;
mod wrongs;

pub use story::{Story, put_verdict};
