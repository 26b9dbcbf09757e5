//! Laws of transcripts' lines and texts, and a reader that keeps to them. Each law is the contract of a function that
//! does nothing. Source: this project's own format (docs/FORMATS.md).

ghost use Rattle.irp_transcript.specs.Transcripts.{no_lines};
ghost use Rattle.irp_transcript_reader.specs.Reading.{ReadsFrom, cut};
ghost use Rattle.irp_fast_reader.specs.Laws as spec;

use crate::read::read_transcript;
use irp_transcript::Transcript;
use irp_transcript_reader::ReadFault;
use std::alloc::Global;

/// The line of an entry that fits is read as the entry.
pub(crate) fn entry_is_read()
    ensures { spec.EntryIsRead }
{}

/// The text of a transcript that fits is read as the transcript, and as nothing else: none of its lines is refused. So
/// two transcripts that fit and have one text are one.
pub fn written_is_read()
    ensures same { spec.WrittenIsRead }
    ensures only { spec.NothingElseIsRead }
    ensures tells { spec.TextTells }
{}

/// Reads a text as `read_transcript` does. Where it is the text of this transcript, and the transcript fits, the answer
/// is an equal transcript, or that memory ran out.
///
/// # Errors
///
/// `ReadFault::Line` with the number, from 1, of the first line that is refused: never for the text of a transcript
/// that fits. `ReadFault::NoMemory` where memory ran out.
pub fn read_again(
    alloc: Global,
    transcript: &Transcript,
    text: &[u8],
) -> Result<Transcript, ReadFault>
    ensures reads { ReadsFrom no_lines 0 result (cut text.now) }
    ensures own { spec.ReadsOwnText transcript.now text.now result }
{
    transcript.is_one();
    written_is_read();
    read_transcript(alloc, text)
}
