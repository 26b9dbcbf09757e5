//! The condition of a step. Source: this project's own rule, and of texts its own format (docs/FORMATS.md).

use irp_types::{CancelId, Refusal, Status};

/// A word by which a word line tells what a step on a remove lock or on a cancel slot was answered. Those of an acquire
/// aren't here, since they are statuses, and `ok` isn't, which is the answer `Done` of a call too.
#[derive(Clone, Copy, PartialEq, Eq, Debug)]
pub enum AnswerWord {
    /// The lock is drained.
    Yes,
    /// The lock isn't drained, whatever its word was.
    Busy,
    /// The seat has no room for another reference.
    SeatFull,
    /// The seat has no reference with this tag.
    NotHeld,
    /// Removal had begun before.
    AlreadyRemoving,
    /// There is no such lock.
    NoLock,
    /// The use stands in the slot.
    Standing,
    /// The seat took a use out of the slot, whatever its number.
    Taken,
    /// A request took the use, or the use was 0.
    Lost,
    /// The slot was empty.
    Nothing,
    /// The slot's owner has published before.
    Used,
    /// Nothing of the slot's owner stands.
    NotStanding,
    /// There is no such slot.
    NoSlot,
    /// The seat has no token from the slot.
    NoToken,
}

/// An answer that a condition asks for.
#[derive(Clone, Copy, PartialEq, Eq, Debug)]
pub enum ExpectedAnswer {
    /// Any refusal: of the manager; of a remove lock, but that removal has begun; or of a cancel slot.
    AnyRefusal,
    /// This refusal of the manager.
    Refusal(Refusal),
    /// A status that is a success, or an acquired lock, whose status is STATUS_SUCCESS.
    Success,
    /// This status. An acquire is answered by one, too: STATUS_SUCCESS, or STATUS_DELETE_PENDING.
    Status(Status),
    /// A cancel routine that was set before, whichever.
    AnyRoutine,
    /// The cancel routine of this number was set before, or none was.
    Previous(Option<CancelId>),
    /// Whether the cancel routine was called.
    Cancelled(bool),
    /// It was done. A remove lock's `ok` is that, too.
    Done,
    /// This word of a word line, with any number.
    Word(AnswerWord),
}

/// What a step hangs on: how an earlier step of the same seat was answered. Where that one wasn't made, the condition
/// fails, whatever it asks for.
#[derive(Clone, Copy, PartialEq, Eq, Debug)]
pub struct Condition {
    /// The place of the earlier step in the script's `steps`, from 0.
    pub step: u32,
    /// Whether the answer is wanted. Else any other answer is.
    pub wanted: bool,
    /// The answer.
    pub answer: ExpectedAnswer,
}
