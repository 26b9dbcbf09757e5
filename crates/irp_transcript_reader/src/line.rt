//! A line of a transcript, as it is read.

use irp_transcript::{Header, WordLine};
use irp_types::Entry;

/// A line of a transcript.
#[derive(Drop)]
pub enum Line {
    /// The header, which is the first line, and no other.
    Header(Header),
    /// An entry.
    Entry(Entry),
    /// A word line.
    Word(WordLine),
}
