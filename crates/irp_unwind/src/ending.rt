//! How a packet's way down or up ends.

use irp_types::{DeviceId, Owner, Status};

/// How a descent or an unwinding ends (this project's own rule).
#[derive(Clone, Copy, PartialEq, Eq, Debug)]
pub enum Ending {
    /// A device that was sent the packet holds it. An unwinding never ends so.
    Held(DeviceId),
    /// A completion routine kept the packet (WDK: STATUS_MORE_PROCESSING_REQUIRED), and this is its owner: the device
    /// that set the routine, or the originator.
    Kept(Owner),
    /// No routine kept it: the packet was completed.
    Ended,
}

/// What became of a packet that was sent (WDK: "IoCallDriver").
#[derive(Clone, Copy, PartialEq, Eq, Debug)]
pub struct Sent {
    /// The status that the sender gets.
    pub status: Status,
    pub ending: Ending,
}
