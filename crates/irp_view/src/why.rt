//! The word `why`: what is wrong with a transcript is told.

ghost use Rattle.std.specs.Prelude.{◌≡◌, ◌++◌, List, length, IfErr, IfOk, OnOk};
ghost use Rattle.irp_types.specs.declared.entry.Entry.{Entry};
ghost use Rattle.irp_transcript.specs.Transcripts.{TranscriptValue};
ghost use Rattle.irp_judge.specs.Checked.{verdict_of};
ghost use Rattle.irp_view.specs.Judging.{IsFound, IsKept};
ghost use Rattle.irp_view.specs.RefusedCalls.{HasNoted, refused_from, refused_line};
ghost use Rattle.irp_view.specs.Telling.{AddsText, IsText, Says, SaysNothing, entry_noun, legal_line, note_line};

use crate::block::put_why;
use crate::judging::{Found, Judged};
use crate::refused_calls::{RefusedCalls, put_refused};
use irp_judge::{Verdict, Wrong};
use irp_listing::put_line;
use irp_streams::{Out, StreamFault, send};
use irp_transcript::Header;
use std::alloc::{AllocError, Global};

/// The noun for so many entries.
fn entry_noun(count: u64) -> &'static str
    ensures { result.now ≡ entry_noun count }
{
    if count == 1 { "entry" } else { "entries" }
}

/// Puts the line that tells that nothing is wrong. The one error is want of memory.
fn put_legal(out: &mut Vec<u8>, words: &mut String, count: u64) -> Result<(), AllocError>
    ensures { OnOk result (out.new.items ≡ out.old.items ++ legal_line count) }
{
    words.clear();
    write!(
        words,
        "nothing is wrong: {} {}, legal",
        count,
        entry_noun(count)
    )?;
    put_line(out, words.as_str())
}

/// Puts what is told of a legal history of so many entries, of whose calls these are refused. The one error is want of
/// memory.
fn put_sound(
    out: &mut Vec<u8>,
    words: &mut String,
    count: u64,
    refused: &RefusedCalls,
) -> Result<(), AllocError>
    ensures { (entries : List Entry) → HasNoted refused.now entries
        → OnOk result (out.new.items ≡ (out.old.items ++ legal_line count) ++ refused_line (refused_from 0 entries)) }
{
    put_legal(out, words, count)?;
    put_refused(out, words, refused)
}

/// Puts the line that tells of word lines, where there are some. The one error is want of memory.
fn put_note(out: &mut Vec<u8>, words: &mut String, count: u64) -> Result<(), AllocError>
    ensures { OnOk result (out.new.items ≡ out.old.items ++ note_line count) }
{
    if count == 0 {
        return Ok(());
    }
    words.clear();
    write!(
        words,
        "word lines: {}, read for their form, not judged",
        count
    )?;
    put_line(out, words.as_str())
}

/// Puts what is told of a transcript with this header in which this was found. The one error is want of memory.
#[tactic(auto, using(crate::proofs::Said::says_legal, crate::proofs::Said::says_wrong, crate::proofs::Said::says_nowhere, crate::proofs::Said::says_nothing))]
fn put_answer(
    out: &mut Vec<u8>,
    words: &mut String,
    header: Option<&Header>,
    found: &Found,
) -> Result<(), AllocError>
    ensures { (entries : List Entry) → found.now.entries ≡ length entries
        → IsKept entries found.now.wrong found.now.entry → HasNoted found.now.refused entries
        → OnOk result (AddsText entries found.now.wrong out.old.items out.new.items) }
{
    let Some(wrong) = &found.wrong else {
        return put_sound(out, words, found.entries, &found.refused);
    };
    match &found.entry {
        Some(entry) => put_why(out, words, header, entry, wrong),
        None => Ok(()),
    }
}

/// What is told of a transcript that was judged.
#[tactic(auto, using(crate::proofs::Said::whole_text))]
fn text_of(alloc: Global, judged: &Judged) -> Result<Vec<u8>, AllocError>
    ensures { (transcript : TranscriptValue) → IsFound transcript judged.now.found
        → IfOk result (λ text. IsText transcript judged.now.found.wrong text.items) }
{
    let mut out = Vec::new(alloc);
    let mut words = String::new(alloc);
    put_answer(&mut out, &mut words, judged.header.as_ref(), &judged.found)?;
    put_note(&mut out, &mut words, judged.found.words)?;
    Ok(out)
}

/// The verdict that goes with what was found.
fn verdict_of(found: &Found) -> Verdict
    ensures { result ≡ verdict_of found.now.entries found.now.wrong }
{
    match &found.wrong {
        None => Verdict::Legal {
            entries: found.entries,
        },
        Some(wrong) => Verdict::Illegal { at: wrong.at },
    }
}

/// Tells what is wrong with a transcript that was judged, or that nothing is. The verdict on it (this project's own
/// form).
///
/// # Errors
///
/// `Failed` where the output failed, and exactly then its count of failures rose: a beginning of the text went out.
/// `NoMemory` where memory ran out, before anything goes out.
#[tactic(auto, using(crate::proofs::Said::tells, crate::proofs::Said::quiet))]
pub fn why<O: Out>(alloc: Global, output: &mut O, judged: &Judged) -> Result<Verdict, StreamFault>
    ensures ok { (transcript : TranscriptValue) → IsFound transcript judged.now.found
        → IfOk result (Says transcript (O.gone output.old) (O.gone output.new)
        (O.failures output.old) (O.failures output.new)) }
    ensures err { (transcript : TranscriptValue) → IsFound transcript judged.now.found
        → IfErr result (SaysNothing transcript (O.gone output.old) (O.gone output.new)
        (O.failures output.old) (O.failures output.new)) }
{
    let text = text_of(alloc, judged)?;
    send(output, text.as_slice())?;
    Ok(verdict_of(&judged.found))
}
