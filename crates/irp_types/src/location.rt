//! The parts of a packet that are types of their own.

use crate::names::DeviceId;
use crate::routine::Setting;

/// Who owns a packet.
#[derive(Clone, Copy, PartialEq, Eq, Debug)]
pub enum Owner {
    /// Who allocated it: before it is sent, and when a routine kept it at the top.
    Originator,
    /// A device that holds it or kept it.
    Device(DeviceId),
    /// Nobody: it was completed, and no routine kept it.
    Ended,
}

/// What the owner did to get the packet ready for the next lower device.
#[derive(Clone, Copy, PartialEq, Eq, Debug)]
pub enum Preparation {
    Nothing,
    /// The next lower location has its content (WDK: "IoGetNextIrpStackLocation",
    /// "IoCopyCurrentIrpStackLocationToNext").
    Filled,
    /// The next lower device is to use the owner's own location (WDK: "IoSkipCurrentIrpStackLocation").
    Skipped,
}

/// An I/O stack location (WDK: "I/O Stack Locations"). The default is a cleared one. Large fields come first, since
/// fields lie in this order.
#[derive(Clone, Copy, PartialEq, Eq, Debug, Default)]
pub struct Location {
    /// One word of parameters.
    pub word: u64,
    /// The completion routine that the sender set here, with its context and flags.
    pub setting: Option<Setting>,
    /// Who was sent the packet in this location.
    pub device: Option<DeviceId>,
    /// The major function code.
    pub major: u8,
    /// The pending bit, SL_PENDING_RETURNED.
    pub pending: bool,
}
