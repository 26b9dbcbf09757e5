//! Worked examples as data.

use irp_remove::{AcquireRefusal, BeginRefusal, DrainRefusal, HandRefusal, ReleaseRefusal};
use irp_types::{
    Call, CancelAnswer, CancelRule, DispatchId, IrpRef, Limit, LockNo, Plan, Reply, Rule,
};

/// The first packet, which examples speak of.
pub const IRP: IrpRef = IrpRef { slot: 0, use_no: 1 };

/// The one remove lock.
pub const LOCK: LockNo = LockNo(0);

/// What is done to the remove lock, and what it has to be answered.
#[derive(Clone, Copy)]
pub enum Act {
    /// Acquires it with this tag.
    Acquire(u32, Result<(), AcquireRefusal>),
    /// Gives back one reference with this tag.
    Release(u32, Result<(), ReleaseRefusal>),
    /// Begins the removal, and gives back one reference with this tag.
    BeginRemove(u32, Result<(), BeginRefusal>),
    /// Asks whether it is drained.
    Drained(Result<(), DrainRefusal>),
    /// The first seat's reference with this tag goes to the second.
    Hand(u32, Result<(), HandRefusal>),
}

/// What a step does, and what it has to be answered.
#[derive(Clone, Copy)]
pub enum Deed {
    /// Makes this call. It is answered so, and closures are called that note these digits.
    Call(Call, Reply, u32),
    /// Acts so on the remove lock.
    Act(Act),
    /// The seat is told that it has seen so many entries. Its call is behind, where the history has this length.
    Behind(u64, u64),
    /// The seat makes a call, of whose receipt the seat of this number learns. That one has seen so many entries then.
    Learn(u32, u64),
}

/// One who is asked: its number, and the digit that its closure notes.
#[derive(Clone, Copy)]
pub enum Asked {
    /// A completion routine of this rule. Its digit is that and its context.
    Routine(u32, Rule, u32),
    /// A cancel routine of this rule that answers so.
    Cancel(u32, CancelRule, CancelAnswer, u32),
    /// A dispatch that plans so.
    Dispatch(u32, Plan, u32),
    /// A driver that has these dispatches by major function code.
    Driver(u32, &'static [(u8, DispatchId)]),
}

/// An example: who is asked, and the steps.
pub struct Example {
    /// Those who are asked, in the order in which they are added.
    pub asked: &'static [Asked],
    /// How many seats there are.
    pub seats: u32,
    /// The limit on packets and stacks in a session.
    pub limit: Limit,
    /// The steps, each in a seat.
    pub steps: &'static [(u32, Deed)],
    /// What another thread does to a lock of its own while a dispatch runs, each in a seat. The first seat holds it.
    pub beside: &'static [(u32, Act)],
    /// What a look at the packet is answered at the end.
    pub last: Reply,
}
