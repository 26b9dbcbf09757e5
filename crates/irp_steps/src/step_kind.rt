//! The kinds of steps. A file of its own, since definitions that clauses cite name this enum.

use irp_types::{Hand, LockAct, SlotAct, Status};

/// What kind a step is of.
#[derive(Clone, Copy)]
pub enum StepKind {
    /// A call of the manager that needs no token.
    Calls,
    /// An act on a remove lock, in the step's own seat alone.
    OnLock(LockAct),
    /// A hand to another seat.
    Hands(Hand),
    /// An act on a cancel slot. A publication is of the packet that the step names.
    OnSlot(SlotAct),
    /// Finishes the packet that the step names, with the token that the seat took from the slot.
    Finishes {
        slot: u32,
        status: Status,
        information: u64,
    },
}
