//! Which entries and word lines fit: their lines tell them whole.

ghost use Rattle.std.specs.Prelude.{◌≡◌, ◌<◌, ◌^◌, ◌↔◌, true};
ghost use Rattle.std.specs.List.{All};
ghost use Rattle.irp_fast_reader.specs.Fits as spec;
ghost use Rattle.irp_fast_reader.specs.Parts.{IrpFits};

use irp_transcript::WordLine;
use irp_types::{Asked, Call, Entry, IrpRef, LockNo, Reply, Shown};

/// Tells that an entry's numbers are within the ranges of their types.
fn in_range(number: u64, seat: u32)
    ensures number { number < 2 ^ 64 }
    ensures seat { seat < 2 ^ 32 }
{
    let _ = (number, seat);
}

/// Whether a packet's slot has 32 bits.
fn irp_fits(irp: IrpRef) -> bool
    ensures { result ≡ true ↔ IrpFits irp }
{
    irp.slot <= u32::MAX as usize
}

/// Whether what is shown fits.
fn shown_fits(shown: Shown) -> bool
    ensures { result ≡ true ↔ spec.ShownFits shown }
{
    shown.in_range();
    shown.irp.slot <= u32::MAX as usize
}

/// Whether a question fits.
fn question_fits(asked: Asked) -> bool
    ensures { result ≡ true ↔ spec.AskedFits asked }
{
    match asked {
        Asked::Dispatch { shown, .. } => shown_fits(shown),
        Asked::Completion { shown, .. } => shown_fits(shown),
        Asked::Cancel { shown, .. } => shown_fits(shown),
    }
}

/// Whether each question fits.
fn asked_fits(asked: &[Asked]) -> bool
    ensures { result ≡ true ↔ All spec.AskedFits asked.now }
{
    asked.iter().all(|question| question_fits(*question))
}

/// Whether a call fits.
fn call_fits(call: Call) -> bool
    ensures { result ≡ true ↔ spec.CallFits call }
{
    match call.packet() {
        Some(irp) => irp_fits(irp),
        None => true,
    }
}

/// Whether the entry of this call may have this lock, which may be known to be drained.
fn tells_lock(call: Call, lock: Option<LockNo>, drained: bool) -> bool
    ensures { result ≡ true ↔ spec.TellsLock call lock drained }
{
    match call {
        Call::Delete { .. } => true,
        _ => lock.is_none() && !drained,
    }
}

/// Whether a reply fits.
fn reply_fits(reply: Reply) -> bool
    ensures { result ≡ true ↔ spec.ReplyFits reply }
{
    match reply {
        Reply::Irp(irp) => irp_fits(irp),
        _ => true,
    }
}

/// Whether the entry fits: its line tells it whole.
pub fn fits(entry: &Entry) -> bool
    ensures { result ≡ true ↔ spec.EntryFits entry.now }
{
    in_range(entry.number, entry.seat);
    if !call_fits(entry.call) || !tells_lock(entry.call, entry.lock, entry.drained) {
        return false;
    }
    asked_fits(entry.asked.as_slice()) && reply_fits(entry.reply)
}

/// Tells that a word line fits: its numbers are within the ranges of their types.
pub fn word_fits(line: WordLine)
    ensures { spec.WordFits line }
{
    let _ = line;
}
