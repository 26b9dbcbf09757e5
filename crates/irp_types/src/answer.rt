//! What closures answer.

use crate::names::CancelId;
use crate::routine::Setting;
use crate::status::Status;

/// A status and information that take the place of a packet's own.
#[derive(Clone, Copy, PartialEq, Eq, Debug)]
pub struct Replacement {
    pub status: Status,
    pub information: u64,
}

/// What a completion routine answers (WDK: "Implementing an IoCompletion Routine").
#[derive(Clone, Copy, PartialEq, Eq, Debug)]
pub struct Answer {
    /// STATUS_MORE_PROCESSING_REQUIRED: unwinding stops, and the packet belongs again to whoever set the routine.
    pub keep: bool,
    /// Whether the routine called IoMarkIrpPending.
    pub mark: bool,
    pub replacement: Option<Replacement>,
}

impl Answer {
    /// It continues, marks nothing, and replaces nothing.
    pub const CONTINUES: Answer = Answer {
        keep: false,
        mark: false,
        replacement: None,
    };
}

/// What a cancel routine answers (WDK: "Implementing a Cancel Routine").
#[derive(Clone, Copy, PartialEq, Eq, Debug)]
pub enum CancelAnswer {
    /// The packet is finished with CANCELLED and this information.
    Finish { information: u64 },
    /// The packet stays with its owner.
    Leave,
}

/// What a dispatch routine does with the packet (WDK: "Writing Dispatch Routines").
#[derive(Clone, Copy, PartialEq, Eq, Debug)]
pub enum Plan {
    /// Completes it with this status and information.
    Finish { status: Status, information: u64 },
    /// Marks it pending and keeps it, with this cancel routine.
    Hold { cancel: Option<CancelId> },
    /// Marks it pending and keeps it for a cancel slot: from then on `FinishTaken` alone completes it, with its use
    /// number as the token (this project's own plan). That the token came out of a slot, no manager looks at.
    HoldSlot,
    /// Passes it down in the dispatch's own location.
    Skip,
    /// Passes it down in the next lower location, with this completion routine.
    Forward { set: Option<Setting> },
    /// Marks it pending, and passes it down as Forward does.
    ForwardPend { set: Option<Setting> },
}

impl Plan {
    /// It completes the packet as an invalid request.
    pub const INVALID_REQUEST: Plan = Plan::Finish {
        status: Status::INVALID_DEVICE_REQUEST,
        information: 0,
    };
}
