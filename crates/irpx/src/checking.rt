//! The word `check`: the verdict on a transcript is written.

ghost use Rattle.std.specs.Prelude.{IfErr, IfOk, OnOk, ◌≡◌};
ghost use Rattle.irp_feed.specs.Input.{most_taken};
ghost use Rattle.irpx.specs.Checking.{Checks, Told, Untold, verdict_line};
ghost use Rattle.irpx.specs.Judging.{Ends};
ghost use Rattle.irp_streams.specs.Streams.{TakesAtMost, output_of, streams_of};

use crate::judging::{judge_rest, refusal};
use crate::not_done::{NotDone, Phase};
use irp_fast_reader::Reader;
use irp_feed::{BLOCK, read_header};
use irp_judge::Verdict;
use irp_streams::{Out, put_all};
use std::alloc::{AllocError, Global};
use std::io::Read;

/// The verdict on the transcript that the input holds. The fault where there is none.
fn judged<R: Read>(alloc: Global, input: &mut R) -> Result<Verdict, NotDone>
    ensures { Ends (R.remaining input.old) (R.remaining input.new) result }
{
    let mut buffer = [0u8; BLOCK];
    let mut reader = Reader::new(alloc);
    match read_header(alloc, input, &mut buffer, &mut reader) {
        Ok(Some(start)) => judge_rest(alloc, input, &mut buffer, &mut reader, &start),
        Ok(None) => Ok(Verdict::Legal { entries: 0 }),
        Err(unfed) => Err(refusal(unfed)),
    }
}

/// The line that tells a verdict.
fn line_of(alloc: Global, verdict: Verdict) -> Result<String, AllocError>
    ensures { IfOk result (λ line. line.bytes.items ≡ verdict_line verdict) }
{
    match verdict {
        Verdict::Legal { entries } => format!(in alloc; "legal {entries}\n"),
        Verdict::Illegal { at } => format!(in alloc; "illegal {at}\n"),
    }
}

/// Tells the output a verdict.
fn tell<O: Out>(alloc: Global, output: &mut O, verdict: Verdict) -> Result<(), NotDone>
    ensures ok { OnOk result (Told verdict (output_of (O.gone output.old) (O.failures output.old))
        (output_of (O.gone output.new) (O.failures output.new))) }
    ensures err { IfErr result (Untold verdict
        (output_of (O.gone output.old) (O.failures output.old))
        (output_of (O.gone output.new) (O.failures output.new))) }
{
    let Ok(line) = line_of(alloc, verdict) else {
        return Err(NotDone::NoMemory(Phase::Writing));
    };
    match put_all(output, line.as_bytes()) {
        Ok(()) => Ok(()),
        Err(_) => Err(NotDone::Output),
    }
}

/// Reads a transcript from the input, up to its end, and puts a line into the output: `legal K` where the sequential
/// manager could have made its history, of K entries, and else `illegal I`, where entry I, from 0, is the first that
/// isn't legal (this project's own command line, README.md). The verdict that was written.
///
/// All that is left of the input is taken, and at most 1,073,741,825 bytes of it: one more than the text may have. Of
/// the text a block is kept, and the beginning of a line that ends in the next one.
///
/// # Errors
///
/// Where there is no verdict, and then nothing goes out: `RefusedLine` with the number of the first line that is
/// refused, where the input isn't the text of a transcript; `Input` where the input failed, or has more than
/// 1,073,741,824 bytes; `NoMemory` of `Reading` where memory ran out before that line. Where there is one: `Output`
/// where the output failed, which its count of failures tells, after a beginning of the line; `NoMemory` of `Writing`
/// before anything goes out.
pub fn check<R: Read, O: Out>(
    alloc: Global,
    input: &mut R,
    output: &mut O,
) -> Result<Verdict, NotDone>
    ensures checks { Checks
        (streams_of (R.remaining input.old) (O.gone output.old) (O.failures output.old))
        (streams_of (R.remaining input.new) (O.gone output.new) (O.failures output.new)) result }
    ensures took { TakesAtMost most_taken (R.remaining input.old) (R.remaining input.new) }
{
    let verdict = judged(alloc, input)?;
    tell(alloc, output, verdict)?;
    Ok(verdict)
}
