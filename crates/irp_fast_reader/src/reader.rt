//! A transcript's text, read block after block. Source: this project's own format (docs/FORMATS.md).

ghost use Rattle.std.specs.Prelude.{
  ℕ,
  ◌≡◌,
  ◌+◌,
  ◌<◌,
  ◌≤◌,
  ◌^◌,
  List,
  [],
  ◌++◌,
  length,
  IfErr,
  IfOk,
  IfSome,
  OnOk,
};
ghost use Rattle.irp_transcript.specs.Transcripts.{TranscriptValue, no_lines};
ghost use Rattle.irp_transcript_reader.specs.Reading.{ReadsFrom, cut};
ghost use Rattle.irp_fast_reader.specs.Fed.{Given, Gives, HasRead, HasTaken, IsLineFault, IsNextLine, Keeps, ended, fault_at};

use crate::line_reader::LineReader;
use irp_forms::Unread;
use irp_transcript_reader::{Line, MOST_BYTES, ReadFault};
use memchr::memchr;
use std::alloc::Global;

/// Reads a transcript whose text comes in blocks, whatever cuts these make, and gives each line as it ends. It keeps no
/// line but the beginning of one that didn't end yet. Fed the blocks of a text and then its end, it gives the lines of
/// the transcript that `read_transcript` reads of the text, or its first line that is refused.
#[derive(Drop)]
pub struct Reader {
    lines: LineReader,
    /// How many lines were given.
    count: u64,
    /// The beginning of a line that didn't end yet.
    kept: Vec<u8>,
}

impl Reader {
    /// A reader that was fed nothing yet. It takes no memory.
    pub fn new(alloc: Global) -> Reader
        ensures { HasRead result [] no_lines }
    {
        Reader {
            lines: LineReader::new(alloc),
            count: 0,
            kept: Vec::new(alloc),
        }
    }

    /// What is told where the next line wasn't read: its number, from 1, where it is refused.
    fn fault(&self, unread: Unread) -> ReadFault
        ensures { self.now.count + 1 < 2 ^ 64 → result ≡ fault_at (self.now.count + 1) unread }
    {
        match unread {
            Unread::Form => ReadFault::Line(self.count.saturating_add(1)),
            Unread::NoMemory => ReadFault::NoMemory,
        }
    }

    /// Keeps a piece of a line behind what is kept. `Unread::Form` where the line is too long.
    fn keep(&mut self, piece: &[u8]) -> Result<(), Unread>
        ensures kept { Keeps result self.old.kept.items piece.now self.new.kept.items }
        ensures lines { self.new.lines ≡ self.old.lines }
        ensures count { self.new.count ≡ self.old.count }
    {
        if self.kept.len().saturating_add(piece.len()) > MOST_BYTES {
            return Err(Unread::Form);
        }
        self.kept
            .extend_from_slice(piece)
            .map_err(|_| Unread::NoMemory)
    }

    /// Takes the line that ends with this piece, without its newline, and gives it.
    fn end_line(&mut self, alloc: Global, piece: &[u8]) -> Result<Line, Unread>
        ensures given { (before : TranscriptValue) → HasTaken self.old.lines before
            → Given result self.new.lines before (self.old.kept.items ++ piece.now) }
        ensures kept { OnOk result (self.new.kept.items ≡ []) }
        ensures count { self.new.count ≡ self.old.count }
    {
        if self.kept.is_empty() {
            return self.lines.take(alloc, piece);
        }
        self.keep(piece)?;
        let line = self.lines.take(alloc, self.kept.as_slice())?;
        self.kept.clear();
        Ok(line)
    }

    /// The beginning of a line that didn't end yet, as far as it was read.
    pub fn begun(&self) -> &[u8]
        ensures { result.now ≡ self.now.kept.items }
    {
        self.kept.as_slice()
    }

    /// Reads on in a block: gives the next line, and how many bytes of the block it ends with, its newline among them.
    /// What stands behind these is to be read next. None where the block ends before the line does; then another block
    /// is to be read next, or `finish` to be called. Numbers of lines are exact in texts of less than 2⁶⁴ - 1 bytes.
    ///
    /// # Errors
    ///
    /// `ReadFault::Line` with the number, from 1, of the next line, where that is refused, whatever follows the block
    /// (`read_transcript` tells which are); `ReadFault::NoMemory` where memory ran out, behind lines
    /// that are all taken. After an error the reader is of no use.
    pub fn next(&mut self, alloc: Global, block: &[u8]) -> Result<Option<(Line, usize)>, ReadFault>
        ensures within { IfOk result (λ read.
            IfSome read (λ given. (0 < given.1) × (given.1 ≤ length block.now))) }
        ensures gives { (text : List ℕ) (before : TranscriptValue) → HasRead self.old text before
            → length text + length block.now + 1 < 2 ^ 64
            → Gives result self.new text before block.now }
        ensures refused { (text : List ℕ) (before : TranscriptValue) → HasRead self.old text before
            → length text + length block.now + 1 < 2 ^ 64 → IfErr result (IsNextLine text) }
    {
        let Some(place) = memchr(b'\n', block) else {
            return match self.keep(block) {
                Ok(()) => Ok(None),
                Err(unread) => Err(self.fault(unread)),
            };
        };
        match self.end_line(alloc, &block[..place]) {
            Ok(line) => {
                self.count = self.count.saturating_add(1);
                Ok(Some((line, place + 1)))
            }
            Err(unread) => Err(self.fault(unread)),
        }
    }

    /// The end of the text.
    ///
    /// # Errors
    ///
    /// `ReadFault::Line`, the one error, with the number, from 1, of the last line, where it has no newline.
    pub fn finish(&self) -> Result<(), ReadFault>
        ensures ended { (text : List ℕ) (before : TranscriptValue) → HasRead self.now text before
            → length text < 2 ^ 64 → ReadsFrom no_lines 0 (ended before result) (cut text) }
        ensures line { IfErr result IsLineFault }
    {
        if self.kept.is_empty() {
            Ok(())
        } else {
            Err(ReadFault::Line(self.count.saturating_add(1)))
        }
    }
}
