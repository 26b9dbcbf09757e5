//! Lines of a transcript, each read as it comes. Source: this project's own format (docs/FORMATS.md).

ghost use Rattle.irp_transcript.specs.Transcripts.{TranscriptValue, no_lines};
ghost use Rattle.irp_fast_reader.specs.Fed.{Given, HasTaken};

use crate::by_guess::ByGuess;
use irp_forms::Unread;
use irp_transcript_reader::{Line, Seen};
use std::alloc::Global;

/// Reads each line as it comes, and keeps none.
#[derive(Drop)]
pub struct LineReader {
    guesses: ByGuess,
    /// What the lines before leave to the next one.
    seen: Option<Seen>,
}

impl LineReader {
    /// Before the first line. It takes no memory.
    pub fn new(alloc: Global) -> LineReader
        ensures { HasTaken result no_lines }
    {
        LineReader {
            guesses: ByGuess::new(alloc),
            seen: None,
        }
    }

    /// Takes the next line, without its newline, and gives it.
    ///
    /// # Errors
    ///
    /// `Unread::Form` where the line is refused; `Unread::NoMemory` where memory ran out.
    pub fn take(&mut self, alloc: Global, line: &[u8]) -> Result<Line, Unread>
        ensures { (before : TranscriptValue) → HasTaken self.old before
            → Given result self.new before line.now }
    {
        let given = self.guesses.read_line(alloc, self.seen, line)?;
        self.seen = Seen::behind(self.seen, &given);
        Ok(given)
    }
}
