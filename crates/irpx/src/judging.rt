//! The lines of a transcript, judged one after another. No line that was judged is kept.

ghost use Rattle.std.specs.Prelude.{◌≡◌, ◌<◌, ◌≤◌, length};
ghost use Rattle.irp_feed.specs.Feeding.{Starts};
ghost use Rattle.irp_feed.specs.Input.{most_bytes};
ghost use Rattle.irp_transcript.specs.Headers.{IsHeader};
ghost use Rattle.irpx.specs.Judging.{Ends, refusal_of};
ghost use Rattle.irp_streams.specs.Streams.{Bytes};

use crate::not_done::{NotDone, Phase};
use irp_fast_reader::{Line, Reader};
use irp_feed::{LineSink, Start, Unfed, feed_rest};
use irp_judge::{Judge, Verdict};
use std::alloc::{AllocError, Global};
use std::io::Read;

/// Has the judge judge the entries of a transcript.
#[derive(Drop)]
struct Judging<'a> {
    /// The judge of its history.
    judge: Judge<'a>,
}

impl LineSink<()> for Judging<'_> {
    ghost use Rattle.irp_judge.specs.Judges.{seen};
    ghost use Rattle.irpx.specs.Judging.{IsJudged};

    ghost Fixed = { Unit {0} };

    ghost has_taken = { λ judging output fixed ended transcript.
        IsJudged (seen judging.judge) transcript };

    ghost has_left = { λ judging output fixed transcript. Unit {0} };

    fn take(&mut self, line: Line) -> Result<(), AllocError> {
        match line {
            Line::Entry(entry) => self.judge.feed(&entry),
            Line::Header(_) | Line::Word(_) => Ok(()),
        }
    }

    fn end_block(&mut self, _output: &mut ()) -> bool {
        true
    }
}

/// Why a text that isn't read to its end has no verdict.
pub fn refusal(unfed: Unfed) -> NotDone
    ensures { result ≡ refusal_of unfed }
{
    match unfed {
        Unfed::Input => NotDone::Input,
        Unfed::Refused { line, .. } => NotDone::RefusedLine { line },
        Unfed::NoMemory | Unfed::NotTaken => NotDone::NoMemory(Phase::Reading),
    }
}

/// Judges what follows the header of a text.
pub fn judge_rest<R: Read>(
    alloc: Global,
    input: &mut R,
    buffer: &mut [u8],
    reader: &mut Reader,
    start: &Start,
) -> Result<Verdict, NotDone>
    requires room { 0 < length buffer.old }
    requires header { IsHeader start.now.header }
    requires order { start.now.from ≤ start.now.to }
    requires within { start.now.to ≤ length buffer.old }
    requires few { start.now.left ≤ most_bytes }
    ensures { (old : Bytes) → Starts old (R.remaining input.old) start.now reader.old buffer.old
        → Ends old (R.remaining input.new) result }
{
    let judge = Judge::new(alloc, &start.header);
    let mut judging = Judging { judge };
    match feed_rest(alloc, input, &mut (), buffer, reader, start, &mut judging) {
        Ok(()) => Ok(judging.judge.verdict()),
        Err(unfed) => Err(refusal(unfed)),
    }
}
