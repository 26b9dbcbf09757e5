//! The steps of a script. Where no page of the WDK is named, the source is this project's own rule, and of texts its
//! own format (docs/FORMATS.md).

use crate::condition::Condition;
use irp_types::{Call, Hand, IrpRef, LockAct};

/// How a step names a packet.
#[derive(Clone, Copy, PartialEq, Eq, Debug)]
pub enum Named {
    /// By a label: its place among the script's labels, from 0, in the order in which the script first names them,
    /// those of `setup` before those of `steps`.
    Label(usize),
    /// By a reference.
    Irp(IrpRef),
}

/// What a step does: a call of the manager, or an act on a remove lock or on a cancel slot.
#[derive(Clone, Copy, PartialEq, Eq, Debug)]
pub enum StepAct {
    /// A call of the manager. It names its packet as a step does, and a token by the cancel slot from which the seat
    /// took it. What a call allocates is known by no label. Any size, any number of a routine and any status is read.
    /// Form 1 has no finish of a taken packet.
    Call(Call<Named, u32>),
    /// A new packet with so many locations, known from then on by the label that has this place among the script's
    /// labels (WDK: "IoAllocateIrp"). Any size is read.
    Allocate { size: u8, label: usize },
    /// An act on a remove lock, in the step's own seat alone.
    OnLock(LockAct),
    /// The step's own seat gives one of its references to a remove lock, by lock and tag, to another seat. Form 1
    /// has none. In a `Script` the other seat is there, and isn't the own.
    Hand(Hand),
    /// Puts the use of a packet into a cancel slot. Form 1 has none.
    Publish { slot: u32, irp: Named },
    /// Takes the seat's own use out of a cancel slot again. Form 1 has none.
    Withdraw { slot: u32 },
    /// Takes what stands in a cancel slot, to cancel it. Form 1 has none.
    Request { slot: u32 },
}

/// A step of a script, and the seat that makes it.
#[derive(Clone, Copy, PartialEq, Eq, Debug)]
pub struct Step {
    /// The seat, from 0. In a `Script` it is below the script's `seats`.
    pub seat: u32,
    /// What it does.
    pub act: StepAct,
    /// What it hangs on, in form 4 alone: in a `Script` it names an earlier step of the same seat. A step whose condition
    /// fails is passed over. None where it is made in any case.
    pub condition: Option<Condition>,
}
