//! Marks: numbers by which places are sorted, so that equal ones stand side by side. Few places share one.

ghost use Rattle.std.specs.Prelude.{◌≡◌, ℕ};
ghost use Rattle.std.specs.List.{fold};
ghost use Rattle.irp_machine.specs.Endings as ends;
ghost use Rattle.irp_machine.specs.Marks as spec;

use crate::live_end::LiveEnd;
use crate::outcome::{End, LockEnd, Replies, SlotEnd};
use irp_plain::{Answered, SeatState, Slot, Stage, Told};
use irp_transcript::WordReply;
use irp_types::{IrpRef, Reply};

/// A number each of whose bits hangs on most bits of this one. The factor is 2^64 divided by the golden ratio.
fn stirred(number: u64) -> u64
    ensures { result ≡ spec.stirred number }
{
    let spread = number.wrapping_mul(0x9e37_79b9_7f4a_7c15);
    spread.wrapping_mul(spread >> 32)
}

/// The mark behind a number.
fn with_number(mark: u64, number: u64) -> u64
    ensures { result ≡ spec.with_number mark number }
{
    stirred(mark.wrapping_add(number))
}

/// Values that a mark hangs on.
pub trait Marked {
    // The mark behind a value.
    ghost marked: { ℕ → Self → ℕ };

    /// The mark behind this value.
    fn mark_behind(&self, mark: u64) -> u64
        ensures { result ≡ marked mark self.now };
}

/// The mark behind values, one after another.
pub fn mark_behind_all<T: Marked>(mark: u64, items: &[T]) -> u64
    ensures { result ≡ fold T.marked mark items.now }
{
    let mut after = mark;
    for item in items {
        after = item.mark_behind(after);
    }
    after
}

impl Marked for u64 {
    ghost marked = { spec.with_number };

    fn mark_behind(&self, mark: u64) -> u64 {
        with_number(mark, *self)
    }
}

impl Marked for usize {
    ghost marked = { spec.with_number };

    fn mark_behind(&self, mark: u64) -> u64 {
        with_number(mark, *self as u64)
    }
}

impl Marked for IrpRef {
    ghost marked = { spec.label_mark };

    fn mark_behind(&self, mark: u64) -> u64 {
        with_number(mark, self.use_no)
    }
}

impl Marked for Slot {
    ghost marked = { spec.slot_mark };

    fn mark_behind(&self, mark: u64) -> u64 {
        with_number(with_number(mark, u64::from(self.flag)), self.content)
    }
}

/// A number for a reply of the manager.
fn reply_number(reply: Reply) -> u64
    ensures { result ≡ spec.reply_number reply }
{
    match reply {
        Reply::Done => 100,
        Reply::Device(device) => u64::from(device.0),
        Reply::Irp(irp) => irp.use_no,
        Reply::Status(status) => u64::from(status.0),
        Reply::Previous(routine) => 200 + u64::from(routine.is_some()),
        Reply::Cancelled(asked) => 300 + u64::from(asked),
        Reply::Seen(seen) => with_number(u64::from(seen.status.0), u64::from(seen.current)),
        Reply::Refused(refusal) => 400 + u64::from(refusal.number()),
    }
}

/// A number for an answer of a lock or a slot.
fn word_number(reply: WordReply) -> u64
    ensures { result ≡ spec.word_number reply }
{
    match reply {
        WordReply::Busy { word } => word,
        WordReply::Taken { use_no } => use_no,
        WordReply::Acquired => 501,
        WordReply::DeletePending => 502,
        WordReply::Done => 503,
        WordReply::SeatFull => 504,
        WordReply::NotHeld => 505,
        WordReply::AlreadyRemoving => 506,
        WordReply::NoLock => 507,
        WordReply::Yes => 508,
        WordReply::Standing => 509,
        WordReply::Lost => 510,
        WordReply::Nothing => 511,
        WordReply::Used => 512,
        WordReply::NotStanding => 513,
        WordReply::NoSlot => 514,
        WordReply::NoToken => 515,
    }
}

/// A number for an answer.
fn answer_number(answer: Answered) -> u64
    ensures { result ≡ spec.answer_number answer }
{
    match answer {
        Answered::Reply(reply) => reply_number(reply),
        Answered::Word(reply) => word_number(reply),
    }
}

impl Marked for Told {
    ghost marked = { spec.told_mark };

    fn mark_behind(&self, mark: u64) -> u64 {
        with_number(
            with_number(mark, u64::from(self.step)),
            answer_number(self.answer),
        )
    }
}

/// A number for how far a seat is in an act.
fn stage_number(stage: Stage) -> u64
    ensures { result ≡ spec.stage_number stage }
{
    match stage {
        Stage::Between => 600,
        Stage::Read(irp) | Stage::Answered(irp) => irp.use_no,
        Stage::Tried => 601,
        Stage::Begun => 602,
        Stage::Published => 603,
        Stage::FoundSet => 604,
        Stage::Flagged => 605,
    }
}

impl Marked for SeatState {
    ghost marked = { spec.seat_mark };

    fn mark_behind(&self, mark: u64) -> u64 {
        let place = with_number(
            with_number(mark, self.made() as u64),
            stage_number(self.stage()),
        );
        mark_behind_all(place, self.told())
    }
}

impl Marked for Replies {
    ghost marked = { ends.replies_mark };

    fn mark_behind(&self, mark: u64) -> u64 {
        mark_behind_all(mark, self.told.as_slice())
    }
}

impl Marked for LiveEnd {
    ghost marked = { ends.packet_mark };

    fn mark_behind(&self, mark: u64) -> u64 {
        let place = with_number(with_number(mark, self.use_no), u64::from(self.current));
        with_number(place, u64::from(self.status.0))
    }
}

impl Marked for LockEnd {
    ghost marked = { ends.lock_mark };

    fn mark_behind(&self, mark: u64) -> u64 {
        with_number(mark, self.word)
    }
}

impl Marked for SlotEnd {
    ghost marked = { ends.slot_end_mark };

    fn mark_behind(&self, mark: u64) -> u64 {
        with_number(mark, self.content)
    }
}

/// The mark of an end.
pub fn end_mark(end: &End) -> u64
    ensures { result ≡ ends.end_mark end.now }
{
    let replies = mark_behind_all(0, end.replies.as_slice());
    let packets = mark_behind_all(replies, end.packets.as_slice());
    let labels = mark_behind_all(packets, end.labels.as_slice());
    let locks = mark_behind_all(labels, end.locks.as_slice());
    mark_behind_all(locks, end.slots.as_slice())
}
