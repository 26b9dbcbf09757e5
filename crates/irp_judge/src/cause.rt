//! What a refusal comes from.

use irp_types::{CancelId, DeviceId, LockNo, Owner};

/// What of the manager's state a refusal comes from. The refusal and its call settle which of these it is, and each
/// number is the state's own at that place (this project's own rule).
#[derive(Clone, Copy, PartialEq, Eq, Debug)]
pub enum Cause {
    /// The refusal and the call say all there is.
    Nothing,
    /// Stale: the slot's packet is of this use.
    Use(u64),
    /// NotOwner, SlotHeld, NotSlotHeld, and InFlight of a packet: who owns the packet.
    Owner(Owner),
    /// NoLocation, AfterSkip and NotPrepared: the packet's current location, from 1, and how many locations it has.
    Location {
        current: u32,
        size: u32,
    },
    /// TooShort: the same, and how many locations were needed below the current one: as many as the target has devices
    /// in its stack up to itself, else one.
    Room {
        current: u32,
        size: u32,
        needed: u32,
    },
    /// WrongTarget: the device just below the sender, if there is one.
    Lower(Option<DeviceId>),
    /// CancelRoutineSet: the packet's cancel routine.
    CancelRoutine(Option<CancelId>),
    /// NoDevice, and Full of a creation: how many devices were created.
    Devices(u32),
    /// StillAttached: the devices just below and just above.
    Neighbours {
        lower: Option<DeviceId>,
        upper: Option<DeviceId>,
    },
    /// TooDeep: how many devices the stack has that the call would lengthen.
    Stack(u32),
    /// NotDrained: the device's remove lock.
    Lock(LockNo),
    /// Full of an allocation or another use: how many packets are live, and the next use number.
    Packets {
        live: usize,
        next_use: u64,
    },
}
