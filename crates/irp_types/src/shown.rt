//! What closures are shown.

ghost use Rattle.std.specs.Prelude.{◌<◌, ◌^◌, IfSome};
ghost use Rattle.irp_types.specs.Rules.{CanShow};

use crate::names::{DeviceId, IrpRef};
use crate::status::Status;

/// What a dispatch, a completion routine or a cancel routine is shown of a packet. Large fields come first, since
/// fields lie in this order.
#[derive(Clone, Copy, PartialEq, Eq, Debug)]
pub struct Shown {
    /// The packet's own reference.
    pub irp: IrpRef,
    pub word: u64,
    pub information: u64,
    /// A completion routine's context; 0 for the others.
    pub context: u64,
    /// The dispatch's device; the device that set a completion routine, none for the originator; the owner of a
    /// packet that is cancelled.
    pub device: Option<DeviceId>,
    /// The location's number, from 1 at the bottom.
    pub location: u32,
    pub status: Status,
    pub major: u8,
    /// PendingReturned; false for a dispatch and a cancel routine.
    pub pending_returned: bool,
    /// The packet's cancel flag.
    pub cancel: bool,
    /// Whether a device stands below a dispatch's own; false for the others.
    pub has_lower: bool,
}

impl Shown {
    /// Tells of a value in hand that each number is within the range of its field's type, which is what the
    /// makers of closures may rest on. It changes nothing and answers nothing (this project's own rule).
    pub fn in_range(self)
        ensures { CanShow self }
    {
        in_u64(self.irp.slot as u64);
        in_u64(self.irp.use_no);
        in_u8(self.major);
        in_u32(self.location);
        in_u64(self.word);
        in_u32(self.status.0);
        in_u64(self.information);
        in_u64(self.context);
        device_in_range(self.device);
    }
}

fn in_u8(number: u8)
    ensures { number < 2 ^ 8 }
{
    let _ = number;
}

fn in_u32(number: u32)
    ensures { number < 2 ^ 32 }
{
    let _ = number;
}

fn in_u64(number: u64)
    ensures { number < 2 ^ 64 }
{
    let _ = number;
}

fn device_in_range(device: Option<DeviceId>)
    ensures { IfSome device (λ given. given.0 < 2 ^ 32) }
{
    if let Some(device) = device {
        in_u32(device.0);
    }
}
