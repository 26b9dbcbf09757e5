//! Steps on remove locks and on cancel slots, as a transcript tells them. Source: this project's own format
//! (docs/FORMATS.md).

use irp_types::{Hand, LockAct, SlotAct};

/// What a step did on a remove lock or on a cancel slot.
#[derive(Clone, Copy, PartialEq, Eq, Debug)]
pub enum Act {
    /// A step on a remove lock that takes or gives a reference, begins removal, or asks whether the lock is drained.
    OnLock(LockAct),
    /// Hands a reference that the seat holds on a remove lock to another seat.
    Hand(Hand),
    /// A step on a cancel slot: its owner publishes a use or withdraws it, or any seat requests it.
    OnSlot(SlotAct),
    /// Finishes a packet with the token that the seat took from the slot, where it has none: with one, the call is an
    /// entry.
    FinishTaken { slot: u32 },
}

/// What a step on a remove lock or on a cancel slot was answered. A line may have any act with any answer; which go
/// together is up to whoever makes it.
#[derive(Clone, Copy, PartialEq, Eq, Debug)]
pub enum WordReply {
    /// The lock was acquired: STATUS_SUCCESS, 0.
    Acquired,
    /// Removal has begun: STATUS_DELETE_PENDING, 3221225558.
    DeletePending,
    /// It was done.
    Done,
    /// The seat has no room for another reference.
    SeatFull,
    /// The seat has no reference with this tag.
    NotHeld,
    /// Removal had begun before.
    AlreadyRemoving,
    /// There is no such lock.
    NoLock,
    /// The lock is drained.
    Yes,
    /// The lock isn't drained, and this was its word.
    Busy { word: u64 },
    /// The use stands in the slot.
    Standing,
    /// The seat took this use number out of the slot.
    Taken { use_no: u64 },
    /// A request took the use, perhaps one of the seat's own; or the use was 0, which nobody takes.
    Lost,
    /// The slot was empty.
    Nothing,
    /// The slot's owner has published before.
    Used,
    /// Nothing of the slot's owner stands.
    NotStanding,
    /// There is no such slot.
    NoSlot,
    /// The seat has no token from the slot, and nothing was called.
    NoToken,
}

/// One step on a remove lock or on a cancel slot.
#[derive(Clone, Copy, PartialEq, Eq, Debug)]
pub struct WordLine {
    /// The seat that made the step, from 0.
    pub seat: u32,
    /// The step's place among the steps, from 0.
    pub step: u32,
    pub act: Act,
    pub reply: WordReply,
}
