//! Whether what an order leaves is right.

ghost use Rattle.std.specs.Prelude.{◌≡◌, ◌↔◌, All, IfOk, true};
ghost use Rattle.irp_orders.specs.Right as spec;
ghost use Rattle.irp_orders.specs.Right.{
  IsAccepted,
  IsBack,
  IsEmpty,
  IsReleased,
  IsRight,
  IsTaken,
  IsWithoutRoutine,
};

use crate::facts::answers_of;
use irp_machine::{Answered, End, LiveEnd, LockEnd, SlotEnd};
use irp_script_reader::{ExpectedAnswer, Step};
use irp_steps::expects_word;
use irp_types::{Entry, Owner, Reply};
use std::alloc::{AllocError, Global};

/// Whether a call was refused.
fn is_refused_reply(reply: Reply) -> bool
    ensures { result ≡ spec.is_refused_reply reply }
{
    matches!(reply, Reply::Refused(_))
}

/// Whether a step was refused, by the manager, by a remove lock or by a cancel slot. Right drivers may be answered that
/// removal has begun, that a lock is busy, that a use was lost or a slot is empty (this project's own rule).
pub fn is_refused(answer: Answered) -> bool
    ensures { result ≡ spec.is_refused answer }
{
    match answer {
        Answered::Reply(reply) => is_refused_reply(reply),
        Answered::Word(reply) => expects_word(ExpectedAnswer::AnyRefusal, reply),
    }
}

/// Whether a call of setup was taken.
pub fn is_taken(entry: &Entry) -> bool
    ensures { (result ≡ true) ↔ IsTaken entry.now }
{
    !is_refused_reply(entry.reply)
}

/// Whether a step wasn't refused.
fn is_accepted(answer: &Option<Answered>) -> bool
    ensures { (result ≡ true) ↔ IsAccepted answer.now }
{
    match *answer {
        Some(answer) => !is_refused(answer),
        None => true,
    }
}

/// Whether no device has a packet.
fn is_back(live: &LiveEnd) -> bool
    ensures { (result ≡ true) ↔ IsBack live.now }
{
    match live.owner {
        Owner::Device(_) => false,
        _ => true,
    }
}

/// Whether a packet has no cancel routine.
pub fn is_without_routine(live: &LiveEnd) -> bool
    ensures { (result ≡ true) ↔ IsWithoutRoutine live.now }
{
    live.cancel_routine.is_none()
}

/// Whether nobody holds a remove lock.
pub fn is_released(lock: &LockEnd) -> bool
    ensures { (result ≡ true) ↔ IsReleased lock.now }
{
    lock.word <= 1
}

/// Whether nothing stands in a cancel slot.
pub fn is_empty(slot: &SlotEnd) -> bool
    ensures { (result ≡ true) ↔ IsEmpty slot.now }
{
    slot.content == 0
}

/// Whether each call of setup was taken.
fn all_taken(setup: &[Entry]) -> bool
    ensures { (result ≡ true) ↔ All IsTaken setup.now }
{
    setup.iter().all(is_taken)
}

/// Whether no step was refused.
fn all_accepted(answers: &[Option<Answered>]) -> bool
    ensures { (result ≡ true) ↔ All IsAccepted answers.now }
{
    answers.iter().all(is_accepted)
}

/// Whether no device has a packet.
fn all_back(packets: &[LiveEnd]) -> bool
    ensures { (result ≡ true) ↔ All IsBack packets.now }
{
    packets.iter().all(is_back)
}

/// Whether no packet has a cancel routine.
fn all_without_routine(packets: &[LiveEnd]) -> bool
    ensures { (result ≡ true) ↔ All IsWithoutRoutine packets.now }
{
    packets.iter().all(is_without_routine)
}

/// Whether nobody holds a remove lock.
fn all_released(locks: &[LockEnd]) -> bool
    ensures { (result ≡ true) ↔ All IsReleased locks.now }
{
    locks.iter().all(is_released)
}

/// Whether nothing stands in a cancel slot.
fn all_empty(slots: &[SlotEnd]) -> bool
    ensures { (result ≡ true) ↔ All IsEmpty slots.now }
{
    slots.iter().all(is_empty)
}

/// Whether an end of a script with these steps is right, behind the setup that these entries tell (this project's own
/// rule). The one error is want of memory.
pub fn is_right(
    alloc: Global,
    steps: &[Step],
    setup: &[Entry],
    end: &End,
) -> Result<bool, AllocError>
    ensures { IfOk result (λ right.
        (right ≡ true) ↔ IsRight steps.now setup.now end.now) }
{
    let answers = answers_of(alloc, steps, end)?;
    let packets = end.packets.as_slice();
    Ok(
        all_taken(setup)
            && all_accepted(answers.as_slice())
            && all_back(packets)
            && all_released(end.locks.as_slice())
            && all_empty(end.slots.as_slice())
            && all_without_routine(packets),
    )
}
