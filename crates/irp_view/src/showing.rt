//! The words `text` and `packet`: what shows a transcript, gathered as its lines are read.

ghost use Rattle.std.specs.Prelude.{ℕ, ◌+◌, ◌<◌, ◌^◌, ◌↔◌, IsTrue, List, length, OnOk};
ghost use Rattle.irp_transcript.specs.Transcripts.{TranscriptValue};
ghost use Rattle.irp_fast_reader.specs.Fed.{IsInPlace};
ghost use Rattle.irp_transcript_reader.specs.Reading.{with_line};
ghost use Rattle.irp_transcript_reader.specs.declared.line.Line.TheVariants.{Entry as EntryLine, Word as WordOf};
ghost use Rattle.irp_view.specs.Listed.{IsFresh, IsGathered};
ghost use Rattle.irp_view.specs.Showing.{IsWithin};

use crate::orders::Span;
use irp_fast_reader::Line;
use irp_listing::{Choice, Stacks, put_chosen, put_word_line};
use irp_transcript::WordLine;
use irp_types::Entry;
use std::alloc::{AllocError, Global};

/// Which entries of a history are shown, and how.
#[derive(Clone, Copy)]
pub struct Wanted {
    /// Those of one use of a packet or of all, and whether seats are told.
    pub choice: Choice,
    /// Those of a span or of the whole history.
    pub span: Option<Span>,
}

/// What is gathered of a history, line after line.
#[derive(Drop)]
pub struct Shown {
    /// How many entries there were.
    entries: usize,
    /// Whether there was no word line.
    before_words: bool,
    /// What the entries lead to.
    stacks: Stacks,
    /// The text for the lines that wasn't sent yet.
    pub text: Vec<u8>,
    /// The words of one line.
    line: String,
}

/// Whether the entry at this place is one of a span's, or of all.
fn is_within(span: Option<Span>, place: usize) -> bool
    ensures { IsTrue result ↔ IsWithin span place }
{
    let Some(span) = span else {
        return true;
    };
    if place < span.from {
        return false;
    }
    place < span.to
}

impl Shown {
    /// Of a history of which no line was read yet. It takes no memory.
    pub fn new(alloc: Global) -> Shown
        ensures { IsFresh result }
    {
        Shown {
            entries: 0,
            before_words: true,
            stacks: Stacks::new(),
            text: Vec::new(alloc),
            line: String::new(alloc),
        }
    }

    /// How many entries there were.
    pub fn entries(&self) -> usize {
        self.entries
    }

    /// Whether there was a word line.
    pub fn has_words(&self) -> bool {
        !self.before_words
    }

    /// Gathers what stands for the next entry, where it is wanted. The one error is want of memory.
    fn entry(&mut self, wanted: Wanted, entry: &Entry) -> Result<(), AllocError>
        ensures { (before : TranscriptValue) (sent : List ℕ)
            → IsGathered wanted self.old sent before
            → IsInPlace before (EntryLine entry.now) → length before.entries + 1 < 2 ^ 64
            → OnOk result (IsGathered wanted self.new sent (with_line before (EntryLine entry.now))) }
    {
        let is_wanted = is_within(wanted.span, self.entries);
        self.entries = self.entries.saturating_add(1);
        self.stacks.follow(entry);
        if !is_wanted {
            return Ok(());
        }
        put_chosen(
            &mut self.text,
            &mut self.line,
            &self.stacks,
            wanted.choice,
            entry,
        )
    }

    /// Gathers what stands for the next word line, where all entries are shown. The one error is want of memory.
    fn word(&mut self, wanted: Wanted, word: WordLine) -> Result<(), AllocError>
        ensures { (before : TranscriptValue) (sent : List ℕ)
            → IsGathered wanted self.old sent before
            → OnOk result (IsGathered wanted self.new sent (with_line before (WordOf word))) }
    {
        let is_first = self.before_words;
        self.before_words = false;
        if wanted.choice.only.is_some() || wanted.span.is_some() {
            return Ok(());
        }
        put_word_line(&mut self.text, &mut self.line, is_first, word)
    }

    /// Gathers what stands for the next line. The one error is want of memory.
    pub fn line(&mut self, wanted: Wanted, line: Line) -> Result<(), AllocError>
        ensures { (before : TranscriptValue) (sent : List ℕ)
            → IsGathered wanted self.old sent before
            → IsInPlace before line → length before.entries + 1 < 2 ^ 64
            → OnOk result (IsGathered wanted self.new sent (with_line before line)) }
    {
        match line {
            Line::Entry(entry) => self.entry(wanted, &entry),
            Line::Word(word) => self.word(wanted, word),
            Line::Header(_) => Ok(()),
        }
    }
}
