//! Lines that are guessed. Source: this project's own format (docs/FORMATS.md).

ghost use Rattle.std.specs.Prelude.{IfSome, IsTrue};
ghost use Rattle.irp_fast_reader.specs.Fits.{IsWritten};
ghost use Rattle.irp_transcript_reader.specs.Reading.{IsEntryLine, ReadsLine};

use crate::fits::fits;
use crate::guess::guess_entry;
use crate::round_trip::entry_is_read;
use irp_forms::Unread;
use irp_transcript_reader::{Line, MOST_BYTES, Seen, read_line};
use irp_transcript_writer::Written;
use irp_types::{Asked, Entry};
use std::alloc::Global;

/// How many lines are guessed in vain before no more is guessed: a text of another hand is read by its values alone.
const MOST_MISSES: u32 = 16;

/// Whether the line is read as the entry that it is written of: the entry fits, and the line isn't too long.
#[tactic(auto, using(crate::proofs::Lines::known))]
fn is_read(line: &[u8], entry: &Entry) -> bool
    requires { IsWritten line.now entry.now }
    ensures { IsTrue result → IsEntryLine line.now entry.now }
{
    entry_is_read();
    line.len() <= MOST_BYTES && fits(entry)
}

/// Each line is read by a guess where that is right, and else by its JSON value.
#[derive(Drop)]
pub struct ByGuess {
    /// How many lines were guessed in vain, or not at all.
    misses: u32,
    /// The room in which a guess is written.
    written: Vec<u8>,
    /// The room in which a guess's questions are gathered.
    asked: Vec<Asked>,
}

impl ByGuess {
    /// With no room yet. It takes no memory.
    pub fn new(alloc: Global) -> ByGuess {
        ByGuess {
            misses: 0,
            written: Vec::new(alloc),
            asked: Vec::new(alloc),
        }
    }

    /// An entry that this line is written of. None where the guess is wrong, and where memory ran out.
    fn written_entry(&mut self, alloc: Global, line: &[u8]) -> Option<Entry>
        ensures { IfSome result (IsWritten line.now) }
    {
        let entry = guess_entry(alloc, line, &mut self.asked)?;
        self.written.clear();
        entry.write(&mut self.written).ok()?;
        let written = self.written.as_slice();
        if written == line { Some(entry) } else { None }
    }

    /// An entry that this line is written of. None also where no more is guessed.
    fn guess(&mut self, alloc: Global, line: &[u8]) -> Option<Entry>
        ensures { IfSome result (IsWritten line.now) }
    {
        if self.misses >= MOST_MISSES {
            return None;
        }
        let entry = self.written_entry(alloc, line);
        if entry.is_none() {
            self.misses = self.misses.saturating_add(1);
        }
        entry
    }

    /// An entry that the line is read as. None where the guess is wrong, where no more is guessed, and where memory ran
    /// out.
    fn known_entry(&mut self, alloc: Global, line: &[u8]) -> Option<Entry>
        ensures { IfSome result (IsEntryLine line.now) }
    {
        let entry = self.guess(alloc, line)?;
        if is_read(line, &entry) {
            Some(entry)
        } else {
            None
        }
    }

    /// The line that these bytes are, without their newline, behind what was seen.
    ///
    /// # Errors
    ///
    /// As `irp_transcript_reader::read_line`.
    #[tactic(auto, using(crate::proofs::Lines::known_gives))]
    pub fn read_line(
        &mut self,
        alloc: Global,
        seen: Option<Seen>,
        line: &[u8],
    ) -> Result<Line, Unread>
        ensures { ReadsLine result seen line.now }
    {
        let Some(under) = seen else {
            return read_line(alloc, None, line);
        };
        match self.known_entry(alloc, line) {
            Some(entry) => under.entry_line(entry),
            None => read_line(alloc, seen, line),
        }
    }
}
