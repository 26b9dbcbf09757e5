//! Calls of the manager. Where no page of the WDK is named, the source is this project's own rule.

ghost use Rattle.std.specs.Prelude.{◌≡◌, true, ⊤};
ghost use Rattle.irp_types.specs.Calls.{packet_named, party_named, names_party, call_with};

use crate::names::{CancelId, DeviceId, DriverId, IrpRef, LockNo};
use crate::routine::Setting;
use crate::status::Status;
use std::alloc::AllocError;

/// Who makes a call on a packet's content.
#[derive(Clone, Copy, PartialEq, Eq, Debug)]
pub enum Party {
    Originator,
    Device(DeviceId),
}

/// A call of the manager. `docs/RULES.md` has the checks of each, in order, and what it does.
///
/// `P` is what names a packet in it, `T` what names a token: a reference and the token's number where the manager makes
/// the call.
#[derive(Copy, PartialEq, Eq, Debug)]
pub enum Call<P = IrpRef, T = u64> {
    /// A new device of this driver, alone in its stack (WDK: "IoCreateDevice").
    CreateDevice {
        driver: DriverId,
        lock: LockNo,
    },
    /// Puts a device that stands alone on top of another's stack (WDK: "IoAttachDeviceToDeviceStack").
    Attach {
        device: DeviceId,
        to: DeviceId,
    },
    /// Cuts the stack above this device (WDK: "IoDetachDevice").
    Detach {
        lower: DeviceId,
    },
    /// Deletes a device that stands alone, has no packet, and whose remove lock is drained by what the caller knows
    /// (WDK: "IoDeleteDevice").
    Delete {
        device: DeviceId,
    },
    /// A new packet with this many locations, from 1 to the limit (WDK: "IoAllocateIrp").
    Allocate {
        size: u8,
    },
    /// Gives a packet back; its slot is not live any more (WDK: "IoFreeIrp").
    Free {
        irp: P,
    },
    /// Begins another use of a packet, which is as newly allocated, but for this status (WDK: "IoReuseIrp").
    Reuse {
        irp: P,
        status: Status,
    },
    /// Fills the next lower location with this major function code and word (WDK: "IoGetNextIrpStackLocation").
    SetNext {
        party: Party,
        irp: P,
        major: u8,
        word: u64,
    },
    /// Copies the current location's major function code and word to the next lower one
    /// (WDK: "IoCopyCurrentIrpStackLocationToNext").
    CopyToNext {
        party: Party,
        irp: P,
    },
    /// Gives the current location to the next lower device (WDK: "IoSkipCurrentIrpStackLocation").
    Skip {
        party: Party,
        irp: P,
    },
    /// Puts a completion routine, its context and its flags into the next lower location, in place of what was set
    /// there (WDK: "IoSetCompletionRoutine").
    SetRoutine {
        party: Party,
        irp: P,
        setting: Setting,
    },
    /// Marks the current location pending (WDK: "IoMarkIrpPending").
    MarkPending {
        party: Party,
        irp: P,
    },
    /// Sends the packet to the target (WDK: "IoCallDriver").
    CallDriver {
        party: Party,
        irp: P,
        target: DeviceId,
    },
    /// Completes the packet (WDK: "IoCompleteRequest").
    Complete {
        party: Party,
        irp: P,
        status: Status,
        information: u64,
    },
    /// Completes a packet that stands in a cancel slot, with the number of the token that was taken from the slot (this
    /// project's own call; WDK: "Canceling IRPs in Drivers That Queue IRPs").
    FinishTaken {
        irp: P,
        token: T,
        status: Status,
        information: u64,
    },
    /// Puts a cancel routine into the packet, or none, in place of what was there (WDK: "IoSetCancelRoutine").
    SetCancelRoutine {
        party: Party,
        irp: P,
        cancel: Option<CancelId>,
    },
    /// Sets the packet's cancel flag, and takes its cancel routine and asks it, where there is one (WDK:
    /// "IoCancelIrp").
    Cancel {
        irp: P,
    },
    /// Reads the packet and changes nothing.
    Look {
        irp: P,
    },
}

impl<P: Copy, T: Copy> Clone for Call<P, T> {
    ghost is_clone = { λ x y. y ≡ x };

    ghost is_infallible = { λ _. ⊤ };

    fn clone(&self) -> Result<Call<P, T>, AllocError> {
        Ok(*self)
    }
}

impl<P: Copy, T: Copy> Call<P, T> {
    /// The packet that the call names. None where it names none: where it creates, attaches, detaches or deletes a
    /// device, or allocates a packet.
    pub fn packet(self) -> Option<P>
        ensures { result ≡ packet_named self }
    {
        match self {
            Call::CreateDevice { .. }
            | Call::Attach { .. }
            | Call::Detach { .. }
            | Call::Delete { .. }
            | Call::Allocate { .. } => None,
            Call::Free { irp }
            | Call::Reuse { irp, .. }
            | Call::SetNext { irp, .. }
            | Call::CopyToNext { irp, .. }
            | Call::Skip { irp, .. }
            | Call::SetRoutine { irp, .. }
            | Call::MarkPending { irp, .. }
            | Call::CallDriver { irp, .. }
            | Call::Complete { irp, .. }
            | Call::FinishTaken { irp, .. }
            | Call::SetCancelRoutine { irp, .. }
            | Call::Cancel { irp }
            | Call::Look { irp } => Some(irp),
        }
    }

    /// The party that the call names. None where it names none (docs/RULES.md, Who may do what).
    pub fn party(self) -> Option<Party>
        ensures { result ≡ party_named self }
    {
        match self {
            Call::SetNext { party, .. }
            | Call::CopyToNext { party, .. }
            | Call::Skip { party, .. }
            | Call::SetRoutine { party, .. }
            | Call::MarkPending { party, .. }
            | Call::CallDriver { party, .. }
            | Call::Complete { party, .. }
            | Call::SetCancelRoutine { party, .. } => Some(party),
            _ => None,
        }
    }

    /// The same call with this packet and this token in the places of its own.
    pub fn with<Q: Copy, U: Copy>(self, packet: Q, token: U) -> Call<Q, U>
        ensures { result ≡ call_with self packet token }
    {
        match self {
            Call::CreateDevice { driver, lock } => Call::CreateDevice { driver, lock },
            Call::Attach { device, to } => Call::Attach { device, to },
            Call::Detach { lower } => Call::Detach { lower },
            Call::Delete { device } => Call::Delete { device },
            Call::Allocate { size } => Call::Allocate { size },
            Call::Free { .. } => Call::Free { irp: packet },
            Call::Reuse { status, .. } => Call::Reuse {
                irp: packet,
                status,
            },
            Call::FinishTaken {
                status,
                information,
                ..
            } => Call::FinishTaken {
                irp: packet,
                token,
                status,
                information,
            },
            Call::Cancel { .. } => Call::Cancel { irp: packet },
            Call::Look { .. } => Call::Look { irp: packet },
            _ => self.of_party_with(packet, token),
        }
    }

    /// The same for a call that names a party.
    fn of_party_with<Q: Copy, U: Copy>(self, irp: Q, token: U) -> Call<Q, U>
        requires named { names_party self ≡ true }
        ensures { result ≡ call_with self irp token }
    {
        match self {
            Call::SetNext {
                party,
                major,
                word,
                ..
            } => Call::SetNext {
                party,
                irp,
                major,
                word,
            },
            Call::CopyToNext { party, .. } => Call::CopyToNext { party, irp },
            Call::Skip { party, .. } => Call::Skip { party, irp },
            Call::SetRoutine { party, setting, .. } => Call::SetRoutine {
                party,
                irp,
                setting,
            },
            Call::MarkPending { party, .. } => Call::MarkPending { party, irp },
            Call::CallDriver { party, target, .. } => Call::CallDriver { party, irp, target },
            Call::Complete {
                party,
                status,
                information,
                ..
            } => Call::Complete {
                party,
                irp,
                status,
                information,
            },
            Call::SetCancelRoutine { party, cancel, .. } => {
                Call::SetCancelRoutine { party, irp, cancel }
            }
            _ => unreachable!(),
        }
    }
}
