//! What is read of a transcript so far.

ghost use Rattle.std.specs.Prelude.{◌≡◌, Err, OnErr, OnOk};
ghost use Rattle.serde_json.specs.View.{view};
ghost use Rattle.irp_forms.specs.declared.unread.Unread.TheVariants.{NoMemory};
ghost use Rattle.irp_transcript.specs.Transcripts.{IsTranscript, no_lines};
ghost use Rattle.irp_transcript_reader.specs.Reading.{TakesValue, seen_of, so_far, with_line};

use crate::line::Line;
use crate::seen::{Seen, line_at};
use irp_forms::Unread;
use irp_transcript::{Header, Transcript, WordLine};
use irp_types::{Entry, Row};
use serde_json::Value;
use std::alloc::Global;

/// What is read of a transcript so far. Contracts see it as the transcript `so_far`.
#[derive(Drop)]
pub struct Reading {
    /// The header, once its line is taken.
    pub header: Option<Header>,
    /// The entries, in order.
    pub entries: Vec<Entry>,
    /// The word lines, in order.
    pub words: Vec<WordLine>,
}

impl Reading {
    /// No lines. It takes no memory.
    pub fn new(alloc: Global) -> Reading
        ensures { so_far result ≡ no_lines }
    {
        Reading {
            header: None,
            entries: Vec::new(alloc),
            words: Vec::new(alloc),
        }
    }

    /// What the lines leave to those behind them.
    pub fn seen(&self) -> Option<Seen>
        ensures { result ≡ seen_of (so_far self.now) }
    {
        match &self.header {
            None => None,
            Some(header) => Some(Seen {
                form: header.form,
                seats: header.seats,
                entries: self.entries.len(),
                before_words: self.words.is_empty(),
            }),
        }
    }

    /// Puts a line behind the others.
    ///
    /// # Errors
    ///
    /// `Unread::NoMemory` where memory ran out. Nothing changes then.
    pub fn put(&mut self, line: Line) -> Result<(), Unread>
        ensures ok { OnOk result (so_far self.new ≡ with_line (so_far self.old) line) }
        ensures err { OnErr result (so_far self.new ≡ so_far self.old) }
        ensures fault { OnErr result (result ≡ Err NoMemory) }
    {
        match line {
            Line::Header(header) => {
                self.header = Some(header);
                Ok(())
            }
            Line::Entry(entry) => self.entries.push(entry).map_err(|_| Unread::NoMemory),
            Line::Word(word) => self.words.push(word).map_err(|_| Unread::NoMemory),
        }
    }

    /// Takes the next line by its JSON value, as `line_at` reads it.
    ///
    /// # Errors
    ///
    /// `Unread::Form` where the value is refused; `Unread::NoMemory` where memory ran out. Nothing changes then.
    pub fn take_value(&mut self, alloc: Global, value: &Value) -> Result<(), Unread>
        ensures takes { TakesValue result (so_far self.old) (view value.now) (so_far self.new) }
        ensures err { OnErr result (so_far self.new ≡ so_far self.old) }
    {
        let line = line_at(alloc, self.seen(), value)?;
        self.put(line)
    }

    /// The transcript of what was read. It takes no memory.
    pub fn into_transcript(self, alloc: Global) -> Transcript
        requires { IsTranscript (so_far self) }
        ensures { result ≡ so_far self }
    {
        let Reading {
            header,
            entries,
            words,
        } = self;
        match header {
            Some(header) => Transcript::new(header, Row::from_vec(entries), Row::from_vec(words)),
            None => Transcript::empty(alloc),
        }
    }
}
