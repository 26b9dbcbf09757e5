//! Why a text isn't read to its end.

ghost use Rattle.std.specs.Prelude.{◌≡◌};
ghost use Rattle.irp_feed.specs.Feeding.{refused_line, unfed_of};

use irp_transcript_reader::{MOST_BYTES, ReadFault};
use memchr::memchr;
use std::alloc::{AllocError, Global};

/// What a line is that is refused, as far as it was read.
#[derive(Drop)]
pub enum RefusedLine {
    /// One without a newline.
    NoNewline,
    /// One of more than 65,536 bytes.
    TooLong,
    /// This one, without its newline.
    Whole(Vec<u8>),
    /// One that isn't kept, for want of memory.
    NotKept,
}

/// Why a text isn't read to its end.
#[derive(Drop)]
pub enum Unfed {
    /// The input failed. One that is too long counts as failed.
    Input,
    /// This line, from 1, is the first that is refused, and what it is.
    Refused { line: u64, refused: RefusedLine },
    /// Memory ran out for reading a line.
    NoMemory,
    /// What takes the lines takes no more: memory ran out for it, or its output failed.
    NotTaken,
}

impl Unfed {
    /// Why a text isn't read on, where its next line is this one.
    pub fn of(fault: ReadFault, refused: RefusedLine) -> Unfed
        ensures { result ≡ unfed_of fault refused }
    {
        match fault {
            ReadFault::Line(line) => Unfed::Refused { line, refused },
            ReadFault::NoMemory => Unfed::NoMemory,
        }
    }

    /// The same where more of the text follows: a line that has a newline there is too long.
    pub fn behind(self, has_newline: bool) -> Unfed
        ensures { refused_line result ≡ refused_line self }
    {
        match self {
            Unfed::Refused {
                line,
                refused: RefusedLine::NoNewline,
            } if has_newline => Unfed::Refused {
                line,
                refused: RefusedLine::TooLong,
            },
            other => other,
        }
    }
}

/// These bytes, and then those.
fn joined(alloc: Global, first: &[u8], then: &[u8]) -> Result<Vec<u8>, AllocError> {
    let mut bytes = Vec::new(alloc);
    bytes.extend_from_slice(first)?;
    bytes.extend_from_slice(then)?;
    Ok(bytes)
}

/// What a line is that is refused, which begins like this, and goes on in this block.
pub fn refused_in(alloc: Global, beginning: &[u8], block: &[u8]) -> RefusedLine {
    let Some(place) = memchr(b'\n', block) else {
        return RefusedLine::NoNewline;
    };
    if beginning.len().saturating_add(place) > MOST_BYTES {
        return RefusedLine::TooLong;
    }
    match joined(alloc, beginning, &block[..place]) {
        Ok(line) => RefusedLine::Whole(line),
        Err(_) => RefusedLine::NotKept,
    }
}
