//! Transcripts from bytes. Source: this project's own format (docs/FORMATS.md).

ghost use Rattle.std.specs.Prelude.{◌≡◌, [], MatchOption};
ghost use Rattle.irp_transcript.specs.Transcripts.{no_lines};
ghost use Rattle.irp_transcript_reader.specs.Reading.{ReadsFrom, Splits, TakesLine, cut, so_far};

use crate::by_guess::ByGuess;
use irp_forms::Unread;
use irp_transcript::Transcript;
use irp_transcript_reader::{ReadFault, Reading};
use memchr::memchr;
use std::alloc::Global;

/// The first line and what follows its newline, or none where there is no newline.
fn split_line(bytes: &[u8]) -> Option<(&[u8], &[u8])>
    ensures { MatchOption result (cut bytes.now ≡ ([], bytes.now))
        (λ parts. Splits bytes.now parts.0.now parts.1.now) }
{
    match memchr(b'\n', bytes) {
        Some(place) => Some((&bytes[..place], &bytes[place + 1..])),
        None => None,
    }
}

/// Takes the next line, without its newline. After an error the reading is of no use.
fn take_line(
    alloc: Global,
    guesses: &mut ByGuess,
    reading: &mut Reading,
    line: &[u8],
) -> Result<(), Unread>
    ensures { TakesLine result (so_far reading.old) line.now (so_far reading.new) }
{
    let given = guesses.read_line(alloc, reading.seen(), line)?;
    reading.put(given)
}

/// Reads a transcript: the header's line, then a line for each entry, then the word lines, each in order; no lines are
/// the transcript without entries. A line that this project wrote of an entry that fits is read without its JSON value,
/// and any other line by it.
///
/// # Errors
///
/// `ReadFault::Line` with the number, from 1, of the first line that is refused. A line is refused where it is longer
/// than 65,536 bytes without its newline, isn't JSON, has none of the lines' forms (in form 1, also where it has one
/// that only form 2 has), is a header that the formats don't accept (`Header::is_accepted`), names a seat that the
/// header doesn't count, is an entry after a word line or past 1,000,000 entries, or ends without a newline.
/// `ReadFault::NoMemory` where memory ran out at a line behind lines that are all taken: never before the first line,
/// for a line that is empty or too long, or for one without its newline.
pub fn read_transcript(alloc: Global, bytes: &[u8]) -> Result<Transcript, ReadFault>
    ensures { ReadsFrom no_lines 0 result (cut bytes.now) }
{
    let mut guesses = ByGuess::new(alloc);
    let mut reading = Reading::new(alloc);
    let mut rest = bytes;
    let mut lines = 0u64;
    while !rest.is_empty() {
        let Some((line, more)) = split_line(rest) else {
            return Err(ReadFault::Line(lines + 1));
        };
        match take_line(alloc, &mut guesses, &mut reading, line) {
            Ok(()) => {}
            Err(Unread::Form) => return Err(ReadFault::Line(lines + 1)),
            Err(Unread::NoMemory) => return Err(ReadFault::NoMemory),
        }
        rest = more;
        lines += 1;
    }
    Ok(reading.into_transcript(alloc))
}
