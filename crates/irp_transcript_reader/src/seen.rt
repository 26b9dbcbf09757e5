//! What the next line of a transcript is. Source: this project's own format (docs/FORMATS.md).

ghost use Rattle.std.specs.Prelude.{◌≡◌, ◌+◌, ◌<◌, ◌^◌, None, Some, IfSome};
ghost use Rattle.serde_json.specs.View.{view};
ghost use Rattle.irp_transcript_reader.specs.Reading as spec;
ghost use Rattle.irp_transcript_reader.specs.Reading.{ReadsLine, SaysLine, seen_behind};

use crate::entries::entry_at;
use crate::forms::{has_entry, has_word};
use crate::headers::header_at;
use crate::line::Line;
use crate::word_lines::word_line_at;
use irp_forms::{Unread, form_of};
use irp_transcript::{Act, Form, WordLine};
use irp_types::Entry;
use irp_types::limits::MOST_ENTRIES;
use serde_json::Value;
use std::alloc::Global;

/// As many bytes as a line may have, without its newline.
pub const MOST_BYTES: usize = 65_536;

/// What the lines so far, of which the first is a header, leave to those behind them.
#[derive(Clone, Copy)]
pub struct Seen {
    /// The header's form.
    pub form: Form,
    /// How many seats the header counts.
    pub seats: u32,
    /// How many entries there were.
    pub entries: usize,
    /// Whether there was no word line.
    pub before_words: bool,
}

impl Seen {
    /// What is seen with one line more, which may stand there.
    pub fn behind(seen: Option<Seen>, line: &Line) -> Option<Seen>
        ensures { IfSome seen (λ it. it.entries + 1 < 2 ^ 64) → result ≡ seen_behind seen line.now }
    {
        match (line, seen) {
            (Line::Header(header), _) => Some(Seen {
                form: header.form,
                seats: header.seats,
                entries: 0,
                before_words: true,
            }),
            (Line::Entry(_), Some(seen)) => Some(Seen {
                entries: seen.entries.saturating_add(1),
                ..seen
            }),
            (Line::Word(_), Some(seen)) => Some(Seen {
                before_words: false,
                ..seen
            }),
            _ => None,
        }
    }

    /// The line of this entry.
    ///
    /// # Errors
    ///
    /// `Unread::Form` where it may not stand there: behind a word line, where there are 1,000,000 entries, of a seat that
    /// the header doesn't count, or where the form doesn't have it.
    pub fn entry_line(self, entry: Entry) -> Result<Line, Unread>
        ensures { result ≡ spec.entry_line self entry }
    {
        if !self.before_words || self.entries >= MOST_ENTRIES {
            return Err(Unread::Form);
        }
        if entry.seat >= self.seats || !has_entry(self.form, &entry) {
            return Err(Unread::Form);
        }
        Ok(Line::Entry(entry))
    }

    /// The line of this word line. `Unread::Form` where it may not stand there: of one of the seats, and to one of them if
    /// it hands over, where the form has it.
    fn word_line(self, word: WordLine) -> Result<Line, Unread>
        ensures { result ≡ spec.word_line self word }
    {
        let hands_beyond = matches!(word.act, Act::Hand(hand) if hand.to >= self.seats);
        if word.seat >= self.seats || hands_beyond || !has_word(self.form, word) {
            return Err(Unread::Form);
        }
        Ok(Line::Word(word))
    }

    /// The line that a value is behind a header.
    fn line_at(self, alloc: Global, value: &Value) -> Result<Line, Unread>
        ensures { SaysLine result (Some self) (view value.now) }
    {
        if value.get("call").is_some() {
            let entry = entry_at(alloc, value)?;
            self.entry_line(entry)
        } else {
            let word = form_of(word_line_at(value))?;
            self.word_line(word)
        }
    }
}

/// The header that a value is. `Unread::Form` where the formats don't accept it.
fn header_line_at(alloc: Global, value: &Value) -> Result<Line, Unread>
    ensures { SaysLine result None (view value.now) }
{
    let header = header_at(alloc, value)?;
    if header.is_accepted() {
        Ok(Line::Header(header))
    } else {
        Err(Unread::Form)
    }
}

/// The line that a value is: first a header that the formats accept, and then an entry or a word line that may stand
/// there. How long the line is isn't asked.
///
/// # Errors
///
/// `Unread::Form` where the value is refused; `Unread::NoMemory` where memory ran out.
pub fn line_at(alloc: Global, seen: Option<Seen>, value: &Value) -> Result<Line, Unread>
    ensures { SaysLine result seen (view value.now) }
{
    match seen {
        Some(seen) => seen.line_at(alloc, value),
        None => header_line_at(alloc, value),
    }
}

/// The line that these bytes are, without their newline, by their JSON value.
///
/// # Errors
///
/// `Unread::Form` where the line is refused; `Unread::NoMemory` where memory ran out, for a line that isn't empty and
/// isn't too long.
#[tactic(auto, using(crate::proofs::Said::line_gives))]
pub fn read_line(alloc: Global, seen: Option<Seen>, line: &[u8]) -> Result<Line, Unread>
    ensures { ReadsLine result seen line.now }
{
    if line.len() > MOST_BYTES {
        return Err(Unread::Form);
    }
    match Value::from_slice(alloc, line) {
        Ok(value) => line_at(alloc, seen, &value),
        Err(error) if error.is_memory() => Err(Unread::NoMemory),
        Err(_) => Err(Unread::Form),
    }
}
