//! The transcript in an input, judged as it is read. Of what was judged the first entry is kept that isn't legal.

ghost use Rattle.std.specs.Prelude.{◌≡◌, ◌+◌, ◌<◌, ◌≤◌, ◌^◌, List, [], ◌∷◌, ◌++◌, length, Some, OnOk};
ghost use Rattle.irp_types.specs.declared.entry.Entry.{Entry};
ghost use Rattle.irp_judge.specs.Judges.{seen};
ghost use Rattle.irp_judge.specs.Judging.{HasJudged};
ghost use Rattle.irp_fast_reader.specs.Fed.{IsInPlace};
ghost use Rattle.irp_transcript_reader.specs.Reading.{with_line};
ghost use Rattle.irp_feed.specs.Feeding.{Starts};
ghost use Rattle.irp_feed.specs.Input.{Bytes, most_bytes};
ghost use Rattle.irp_transcript.specs.Headers.{IsHeader};
ghost use Rattle.irp_transcript.specs.Transcripts.{TranscriptValue, no_lines};
ghost use Rattle.irp_view.specs.Judging.{Ends, EndsWith, IsFound, IsJudged, IsKept};

use crate::reading::{Unread, unread_behind};
use crate::refusal::Before;
use crate::refused_calls::{RefusedCalls, note_line};
use irp_fast_reader::{Line, Reader};
use irp_feed::{BLOCK, LineSink, Start, feed_rest, read_header};
use irp_judge::{Judge, Wrong};
use irp_transcript::Header;
use irp_types::Entry;
use std::alloc::{AllocError, Global};
use std::io::Read;

/// What is kept of the lines that were judged.
#[derive(Drop)]
pub struct Kept {
    /// How many word lines there were.
    pub words: u64,
    /// The first entry that isn't legal; where there is none, the last one.
    pub entry: Option<Entry>,
    /// The calls that are refused.
    pub refused: RefusedCalls,
}

/// What was found in a transcript.
#[derive(Drop)]
pub struct Found {
    /// How many entries it has.
    pub entries: u64,
    /// How many word lines it has.
    pub words: u64,
    /// What is wrong with it, if anything is.
    pub wrong: Option<Wrong>,
    /// Then the entry that is wrong.
    pub entry: Option<Entry>,
    /// The calls that are refused.
    pub refused: RefusedCalls,
}

/// A transcript that was judged.
#[derive(Drop)]
pub struct Judged {
    /// Its header, where it has lines.
    pub header: Option<Header>,
    /// What was found in it.
    pub found: Found,
}

/// Has the judge judge an entry, and keeps the entry unless one before it is wrong.
fn judge_entry(judge: &mut Judge, kept: &mut Kept, entry: Entry) -> Result<(), AllocError>
    ensures header { (seen judge.new).header ≡ (seen judge.old).header }
    ensures words { kept.new.words ≡ kept.old.words }
    ensures refused { kept.new.refused ≡ kept.old.refused }
    ensures judged { (history : List Entry) → HasJudged (seen judge.old) history
        → IsKept history (seen judge.old).wrong kept.old.entry → length history + 1 < 2 ^ 64
        → OnOk result (HasJudged (seen judge.new) (history ++ entry ∷ [])
        × IsKept (history ++ entry ∷ []) (seen judge.new).wrong kept.new.entry) }
{
    let found = judge.wrong().is_some();
    judge.feed(&entry)?;
    if !found {
        kept.entry = Some(entry);
    }
    Ok(())
}

/// Has the judge judge a line, if it is an entry, and keeps what is kept of lines.
fn judge_line(judge: &mut Judge, kept: &mut Kept, line: Line) -> Result<(), AllocError>
    ensures header { (seen judge.new).header ≡ (seen judge.old).header }
    ensures refused { kept.new.refused ≡ kept.old.refused }
    ensures judged { (before : TranscriptValue) → IsInPlace before line
        → before.header ≡ Some (seen judge.old).header
        → HasJudged (seen judge.old) before.entries → length before.entries + 1 < 2 ^ 64
        → IsKept before.entries (seen judge.old).wrong kept.old.entry
        → kept.old.words ≡ length before.words → length before.words + 1 < 2 ^ 64
        → OnOk result (HasJudged (seen judge.new) (with_line before line).entries
        × IsKept (with_line before line).entries (seen judge.new).wrong kept.new.entry
        × (kept.new.words ≡ length (with_line before line).words)) }
{
    match line {
        Line::Entry(entry) => judge_entry(judge, kept, entry),
        Line::Word(_) => {
            kept.words = kept.words.saturating_add(1);
            Ok(())
        }
        Line::Header(_) => Ok(()),
    }
}

/// Takes the lines of a transcript: has the judge judge its entries, and keeps what is kept of lines.
#[derive(Drop)]
struct Judging<'a> {
    /// The judge of its history.
    judge: Judge<'a>,
    /// What is kept.
    kept: Kept,
}

impl LineSink<()> for Judging<'_> {
    ghost use Rattle.irp_judge.specs.Judges.{seen};
    ghost use Rattle.irp_view.specs.Judging.{IsJudged};

    ghost Fixed = { Unit {0} };

    ghost has_taken = { λ judging output fixed ended transcript.
        IsJudged (seen judging.judge) judging.kept transcript };

    ghost has_left = { λ judging output fixed transcript. Unit {0} };

    fn take(&mut self, line: Line) -> Result<(), AllocError> {
        note_line(&mut self.kept.refused, &line)?;
        judge_line(&mut self.judge, &mut self.kept, line)
    }

    fn end_block(&mut self, _output: &mut ()) -> bool {
        true
    }
}

/// What was found in a transcript, all of whose lines were taken.
fn found_in(judging: Judging<'_>) -> Found
    ensures { (transcript : TranscriptValue)
        → IsJudged (seen judging.entry.judge) judging.entry.kept transcript
        → IsFound transcript result }
{
    let Judging { judge, kept } = judging;
    Found {
        entries: judge.fed(),
        words: kept.words,
        wrong: judge.into_wrong(),
        entry: kept.entry,
        refused: kept.refused,
    }
}

/// Which lines were taken behind this header.
fn before_of(header: &Header, judging: &Judging<'_>) -> Before {
    let entries = usize::try_from(judging.judge.fed()).unwrap_or(usize::MAX);
    Before::behind(header, entries, judging.kept.words > 0)
}

/// Judges what follows the header of a text.
fn judge_rest<R: Read>(
    alloc: Global,
    input: &mut R,
    buffer: &mut [u8],
    reader: &mut Reader,
    start: &Start,
) -> Result<Found, Unread>
    requires room { 0 < length buffer.old }
    requires header { IsHeader start.now.header }
    requires order { start.now.from ≤ start.now.to }
    requires within { start.now.to ≤ length buffer.old }
    requires few { start.now.left ≤ most_bytes }
    ensures { (old : Bytes) → Starts old (R.remaining input.old) start.now reader.old buffer.old
        → Ends old (R.remaining input.new) result }
{
    let judge = Judge::new(alloc, &start.header);
    let kept = Kept {
        words: 0,
        entry: None,
        refused: RefusedCalls::new(alloc),
    };
    let mut judging = Judging { judge, kept };
    match feed_rest(alloc, input, &mut (), buffer, reader, start, &mut judging) {
        Ok(()) => Ok(found_in(judging)),
        Err(unfed) => Err(unread_behind(alloc, before_of(&start.header, &judging), unfed)),
    }
}

/// Judges what follows the header of a text, and keeps the header.
fn judge_behind<R: Read>(
    alloc: Global,
    input: &mut R,
    buffer: &mut [u8],
    reader: &mut Reader,
    start: Start,
) -> Result<Judged, Unread>
    requires room { 0 < length buffer.old }
    requires header { IsHeader start.header }
    requires order { start.from ≤ start.to }
    requires within { start.to ≤ length buffer.old }
    requires few { start.left ≤ most_bytes }
    ensures { (old : Bytes) → Starts old (R.remaining input.old) start reader.old buffer.old
        → EndsWith old (R.remaining input.new) result }
{
    match judge_rest(alloc, input, buffer, reader, &start) {
        Ok(found) => Ok(Judged {
            header: Some(start.header),
            found,
        }),
        Err(unread) => Err(unread),
    }
}

/// What is found in a transcript without lines.
#[tactic(auto, using(crate::proofs::Judged::finds_nothing))]
fn found_nothing(alloc: Global) -> Found
    ensures { IsFound no_lines result }
{
    Found {
        entries: 0,
        words: 0,
        wrong: None,
        entry: None,
        refused: RefusedCalls::new(alloc),
    }
}

/// Judges the transcript that the input holds, which is read up to its end: at most 1,073,741,825 bytes are taken, one
/// more than the text may have. Of the text a block is kept, and the beginning of a line that ends in the next one.
///
/// # Errors
///
/// `Refused` with the number of the first line that is refused, where the input isn't the text of a transcript; `Input`
/// where the input failed, or has more than 1,073,741,824 bytes; `NoMemory` where memory ran out.
pub fn judge_input<R: Read>(alloc: Global, input: &mut R) -> Result<Judged, Unread>
    ensures { EndsWith (R.remaining input.old) (R.remaining input.new) result }
{
    let mut buffer = [0u8; BLOCK];
    let mut reader = Reader::new(alloc);
    match read_header(alloc, input, &mut buffer, &mut reader) {
        Ok(Some(start)) => judge_behind(alloc, input, &mut buffer, &mut reader, start),
        Ok(None) => Ok(Judged {
            header: None,
            found: found_nothing(alloc),
        }),
        Err(unfed) => Err(unread_behind(alloc, Before::nothing(), unfed)),
    }
}
