//! The story of a history, told line after line. It is this project's own form (docs/FORMATS.md).

ghost use Rattle.std.specs.Prelude.{ℕ, ◌≡◌, ◌+◌, ◌<◌, ◌^◌, List, [], ◌++◌, length, IfOk, OnOk};
ghost use Rattle.irp_transcript.specs.Headers.{IsHeader};
ghost use Rattle.irp_transcript.specs.Transcripts.{TranscriptValue};
ghost use Rattle.irp_transcript_writer.specs.Json.{line_text};
ghost use Rattle.irp_story.specs.Lines.{verdict_line};
ghost use Rattle.irp_story.specs.Stories.{HasTold, IsStory, bare, with_entry, with_word};

use crate::form::put_line;
use crate::lines::{EntryLine, HeaderLine, StepLine, VerdictLine};
use irp_judge::{Judge, Verdict};
use irp_transcript::{Header, WordLine};
use irp_types::Entry;
use std::alloc::{AllocError, Global};

/// Tells the story of a history that it is given entry by entry. It keeps the judge of it, with the manager's state, and
/// no entry (this project's own rule).
#[derive(Drop)]
pub struct Story<'a> {
    judge: Judge<'a>,
}

/// Puts the line of a verdict on so many entries. The one error is want of memory.
pub fn put_verdict(out: &mut Vec<u8>, entries: u64, verdict: Verdict) -> Result<(), AllocError>
    ensures { OnOk result
        (out.new.items ≡ out.old.items ++ line_text (verdict_line entries verdict)) }
{
    put_line(out, &VerdictLine { entries, verdict })
}

impl<'a> Story<'a> {
    /// Begins the story of a history with this header, on condition that the formats accept it: puts the header's line.
    /// The one error is want of memory.
    pub fn begin(
        alloc: Global,
        out: &mut Vec<u8>,
        header: &'a Header,
    ) -> Result<Story<'a>, AllocError>
        requires accepted { IsHeader header.now }
        requires empty { out.old.items ≡ [] }
        ensures { IfOk result (λ story. HasTold story (bare header.now) out.new.items) }
    {
        put_line(out, &HeaderLine { header })?;
        let judge = Judge::new(alloc, header);
        Ok(Story { judge })
    }

    /// How many entries were told.
    pub fn entries(&self) -> u64 {
        self.judge.fed()
    }

    /// Tells the next entry: puts its line.
    ///
    /// # Errors
    ///
    /// `AllocError` where memory runs out. Then no more can be told.
    pub fn entry(&mut self, out: &mut Vec<u8>, entry: &Entry) -> Result<(), AllocError>
        ensures { (sent : List ℕ) (before : TranscriptValue)
            → HasTold self.old before (sent ++ out.old.items) → before.words ≡ []
            → length before.entries + 1 < 2 ^ 64
            → OnOk result (HasTold self.new (with_entry before entry.now) (sent ++ out.new.items)) }
    {
        let place = self.judge.fed();
        self.judge.feed(entry)?;
        let judge = &self.judge;
        put_line(
            out,
            &EntryLine {
                place,
                judge,
                entry,
            },
        )
    }

    /// Tells the next step on a remove lock or a cancel slot: puts its line. The one error is want of memory.
    pub fn step(&self, out: &mut Vec<u8>, word: WordLine) -> Result<(), AllocError>
        ensures { (sent : List ℕ) (before : TranscriptValue)
            → HasTold self.now before (sent ++ out.old.items)
            → OnOk result (HasTold self.now (with_word before word) (sent ++ out.new.items)) }
    {
        put_line(out, &StepLine { word })
    }

    /// Ends the story: puts the line of the verdict. The one error is want of memory.
    pub fn end(&self, out: &mut Vec<u8>) -> Result<(), AllocError>
        ensures { (sent : List ℕ) (transcript : TranscriptValue)
            → HasTold self.now transcript (sent ++ out.old.items)
            → OnOk result (IsStory transcript (sent ++ out.new.items)) }
    {
        put_verdict(out, self.judge.fed(), self.judge.verdict())
    }
}
