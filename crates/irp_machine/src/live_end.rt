//! A live packet and a device at the end. A file of its own, since definitions that clauses cite name these.

use irp_types::{CancelId, DeviceId, DriverId, Location, LockNo, Owner, Preparation, Row, Status};

/// A live packet at the end: all of it that a look, a send or another call could come to (this project's own rule).
#[derive(Drop)]
pub struct LiveEnd {
    pub slot: usize,
    pub use_no: u64,
    pub owner: Owner,
    /// The number of its current location.
    pub current: u32,
    pub status: Status,
    pub information: u64,
    pub pending_returned: bool,
    /// Whether it was cancelled.
    pub cancel: bool,
    /// Its cancel routine, if one is set.
    pub cancel_routine: Option<CancelId>,
    /// How far it is prepared for the next lower device.
    pub preparation: Preparation,
    /// Whether it stands in a cancel slot.
    pub slot_held: bool,
    /// Its locations from the lowest up that counts: the prepared one, or else the current one. None where it was
    /// completed.
    pub locations: Row<Location>,
}

/// A device at the end, live or deleted (this project's own rule).
#[derive(Clone, Copy, PartialEq, Eq, Debug)]
pub struct DeviceEnd {
    pub driver: DriverId,
    /// Its remove lock.
    pub lock: LockNo,
    /// Whether it wasn't deleted.
    pub live: bool,
    /// The device that it is attached to.
    pub lower: Option<DeviceId>,
}
