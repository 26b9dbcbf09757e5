//! The text of a transcript in an input, read block after block (this project's own format, docs/FORMATS.md).
//!
//! [`read_header`] reads the header, and [`feed_rest`] gives each line behind it to a [`LineSink`], which may send what
//! it has at the end of each block. Of the text a block is kept, and the beginning of a line that ends in the next one.
#![tactic(auto)]

mod feeding;
mod header;
mod input;
mod sink;
mod unfed;

pub use feeding::feed_rest;
pub use header::{Start, read_header};
pub use input::BLOCK;
pub use sink::LineSink;
pub use unfed::{RefusedLine, Unfed};
