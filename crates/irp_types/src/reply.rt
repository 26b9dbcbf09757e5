//! What a call is answered.

use crate::location::Owner;
use crate::names::{CancelId, DeviceId, IrpRef};
use crate::refusal::Refusal;
use crate::status::Status;

/// What Look shows of a packet.
#[derive(Clone, Copy, PartialEq, Eq, Debug)]
pub struct Seen {
    pub owner: Owner,
    /// The number of the current location; one above the size where the packet stands above its highest location, as at
    /// first and once it has ended.
    pub current: u32,
    pub status: Status,
    pub information: u64,
    pub cancel: bool,
    pub cancel_routine: Option<CancelId>,
    pub pending_returned: bool,
    /// The pending bit of the current location, false above the top.
    pub marked: bool,
}

/// What a call is answered. `docs/RULES.md` says which call gives which.
#[derive(Clone, Copy, PartialEq, Eq, Debug)]
pub enum Reply {
    Done,
    Device(DeviceId),
    Irp(IrpRef),
    Status(Status),
    Previous(Option<CancelId>),
    Cancelled(bool),
    Seen(Seen),
    Refused(Refusal),
}
