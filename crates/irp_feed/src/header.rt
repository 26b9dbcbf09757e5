//! The header of a text.

ghost use Rattle.std.specs.Prelude.{ℕ, ◌≡◌, ◌<◌, ◌≤◌, List, [], length};
ghost use Rattle.irp_fast_reader.specs.Fed.{HasRead};
ghost use Rattle.irp_transcript.specs.Transcripts.{no_lines};
ghost use Rattle.irp_feed.specs.Feeding.{IsStart};

use crate::feeding::{next_block, refuse, refused_next};
use crate::input::MOST_BYTES;
use crate::unfed::Unfed;
use irp_fast_reader::{Line, Reader};
use irp_transcript::Header;
use std::alloc::Global;
use std::io::Read;

/// A text whose header was read.
#[derive(Drop)]
pub struct Start {
    /// The header.
    pub header: Header,
    /// Where in the buffer what follows it begins.
    pub from: usize,
    /// Where in the buffer that ends.
    pub to: usize,
    /// How many bytes may follow in the input.
    pub left: usize,
}

/// Reads the header of an input's text, with a reader that was fed nothing yet. None where the text has no lines.
///
/// # Errors
///
/// `Refused` where the first line is refused, or has no newline; `Input` where the input failed, or has more than
/// 1,073,741,824 bytes; `NoMemory` where memory ran out. The input was taken to its end, unless it failed, and at most
/// 1,073,741,825 bytes of it.
pub fn read_header<R: Read>(
    alloc: Global,
    input: &mut R,
    buffer: &mut [u8],
    reader: &mut Reader,
) -> Result<Option<Start>, Unfed>
    requires room { 0 < length buffer.old }
    requires fresh { HasRead reader.old [] no_lines }
    ensures start { IsStart (R.remaining input.old) (R.remaining input.new) result reader.new
        buffer.new }
    ensures room { length buffer.new ≡ length buffer.old }
{
    let mut left = MOST_BYTES;
    loop {
        let to = match next_block(input, buffer, reader, left) {
            Ok(Some(to)) => to,
            Ok(None) => return Ok(None),
            Err(unfed) => return Err(unfed),
        };
        left -= to;
        let begun = reader.begun().len();
        let read = match reader.next(alloc, &buffer[..to]) {
            Ok(read) => read,
            Err(fault) => {
                let refused = refused_next(alloc, reader, begun, &buffer[..to]);
                return Err(refuse(input, buffer, left, Unfed::of(fault, refused)));
            }
        };
        let Some(taken) = read else {
            continue;
        };
        let (line, from) = taken;
        let Line::Header(header) = line else {
            unreachable!();
        };
        return Ok(Some(Start {
            header,
            from,
            to,
            left,
        }));
    }
}
