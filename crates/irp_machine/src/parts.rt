//! What a seat does next. A file of its own, since definitions that clauses cite name these.

use irp_plain::{ActPlace, Change};
use irp_script_reader::{Condition, StepAct};
use irp_types::Call;

/// An act of a seat.
#[derive(Clone, Copy)]
pub struct Planned {
    /// Which one.
    pub place: ActPlace,
    pub act: StepAct,
    /// Where this fails, the act is passed over.
    pub condition: Option<Condition>,
    /// Whether reading the label that names its packet is a step of its own.
    pub reads_alone: bool,
    /// Whether binding its label is a step of its own.
    pub binds_alone: bool,
}

/// A call that a seat is to make, and the place of the taken use that it finishes, if it does.
#[derive(Clone, Copy)]
pub struct Calling {
    pub call: Call,
    pub spends: Option<usize>,
}

/// What a seat does next.
#[derive(Clone, Copy)]
pub enum Next {
    /// It changes this, whatever the manager's state.
    Changes(Change),
    /// It makes a call.
    Calls(Calling),
}
