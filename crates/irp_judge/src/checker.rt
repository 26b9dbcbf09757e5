//! Whether a recorded history is legal, and what is wrong with one that is not. Source: this project's own rule, and of
//! texts its own format (docs/FORMATS.md).

ghost use Rattle.std.specs.Prelude.{IfOk, length};
ghost use Rattle.irp_transcript.specs.Headers.{IsHeader, fixed_of};
ghost use Rattle.irp_judge.specs.Checked.{IsExplained, IsFirstWrong, IsVerdictOn, verdict_of};

use crate::judge::Judge;
use crate::verdict::{Verdict, Wrong};
use irp_transcript::{Header, Transcript};
use irp_types::Entry;
use std::alloc::{AllocError, Global};

/// What is wrong with these entries, on condition that the formats accept the header.
fn first_wrong(
    alloc: Global,
    header: &Header,
    entries: &[Entry],
) -> Result<Option<Wrong>, AllocError>
    requires { IsHeader header.now }
    ensures { IfOk result (λ wrong. IsFirstWrong (fixed_of header.now) entries.now wrong) }
{
    let mut judge = Judge::new(alloc, header);
    for place in 0..entries.len() {
        judge.feed(&entries[place])?;
    }
    Ok(judge.into_wrong())
}

/// What is wrong with the history of a transcript, and none exactly where `check` answers `Legal`: the first entry
/// that isn't legal, what the manager makes of its call in its place, and the first part in which the two differ. The
/// closures answer what the entry says that they answered, where the header's tables allow that.
///
/// # Errors
///
/// `AllocError` where a growth was refused, which says nothing of the transcript.
pub fn explain(alloc: Global, transcript: &Transcript) -> Result<Option<Wrong>, AllocError>
    ensures wrong { IfOk result (λ wrong. IsExplained transcript.now wrong) }
    ensures verdict { IfOk result (λ wrong. IsVerdictOn transcript.now
        (verdict_of (length transcript.now.entries) wrong)) }
{
    transcript.is_one();
    match transcript.header() {
        None => Ok(None),
        Some(header) => first_wrong(alloc, header, transcript.entries()),
    }
}

/// Whether the sequential manager could have made the history of a transcript, with what its header fixes: `Legal`
/// exactly where it could, and else `Illegal` with the number of the first entry that isn't legal. An entry is legal
/// where its number is its place, and the manager, in the state that the entries before lead to, makes it of its
/// call: lock, `drained`, questions with what was shown and answers that the tables allow, and reply. Of a new
/// packet's slot it is asked only that it isn't live, and `drained` is taken as it stands where there is a lock. A
/// transcript without a header has no entries, and is legal.
///
/// # Errors
///
/// `AllocError` where a growth was refused, which says nothing of the transcript.
pub fn check(alloc: Global, transcript: &Transcript) -> Result<Verdict, AllocError>
    ensures { IfOk result (λ verdict. IsVerdictOn transcript.now verdict) }
{
    let entries = transcript.entries().len() as u64;
    match explain(alloc, transcript)? {
        None => Ok(Verdict::Legal { entries }),
        Some(wrong) => Ok(Verdict::Illegal { at: wrong.at }),
    }
}
