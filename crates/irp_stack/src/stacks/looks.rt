//! What is read of the stacks, and which calls they would refuse. Nothing changes. Source: this project's own rule.

ghost use Rattle.std.specs.Prelude.{◌≡◌, length};
ghost use Rattle.std.specs.Option.{option_map};
ghost use Rattle.irp_types.specs.Checks.{first_failing};
ghost use Rattle.irp_types.specs.Stacks.{stack_of, upper_of, attach_checks, detach_checks};
ghost use Rattle.irp_stack.specs.Records.{id};

use super::Stacks;
use crate::device::{live_device, record_at};
use irp_types::{DeviceId, Refusal};

impl Stacks {
    /// How many devices were created, deleted ones among them, at most 64.
    pub fn len(&self) -> u32
        ensures { result ≡ length self.now.devices.facts }
    {
        self.devices.len() as u32
    }

    /// The device just above. `None` if nothing stands above, or if the device was never created. It takes constant
    /// time.
    pub fn upper(&self, device: DeviceId) -> Option<DeviceId>
        ensures { result ≡ option_map id (upper_of self.now.devices device.0) }
    {
        self.devices.get(device.0 as usize)?.upper
    }

    /// How many devices the stack of a device has, at most 32; 0 if the device was never created. It takes constant
    /// time.
    pub fn height(&self, device: DeviceId) -> u32
        ensures { result ≡ length (stack_of self.now.devices device.0) }
    {
        if device.0 as usize >= self.devices.len() {
            return 0;
        }
        let own = record_at(&self.devices, device);
        let base = record_at(&self.devices, own.bottom);
        record_at(&self.devices, base.top).size
    }

    /// Why [`attach`](Stacks::attach) refuses the two devices, or `None` where it would attach them.
    pub fn attach_refusal(&self, device: DeviceId, to: DeviceId) -> Option<Refusal>
        ensures { result
            ≡ first_failing (attach_checks self.now.limit self.now.devices device.0 to.0) }
    {
        let own = match live_device(&self.devices, device) {
            Ok(own) => own,
            Err(refusal) => return Some(refusal),
        };
        let target = match live_device(&self.devices, to) {
            Ok(target) => target,
            Err(refusal) => return Some(refusal),
        };
        if own.bottom.0 == target.bottom.0 {
            return Some(Refusal::SameStack);
        }
        if own.has_neighbour() {
            return Some(Refusal::StillAttached);
        }
        let top = record_at(&self.devices, target.bottom).top;
        if record_at(&self.devices, top).size >= self.limit.locations() {
            return Some(Refusal::TooDeep);
        }
        None
    }

    /// Why [`detach`](Stacks::detach) refuses the device, or `None` where it would cut the stack.
    pub fn detach_refusal(&self, lower: DeviceId) -> Option<Refusal>
        ensures { result ≡ first_failing (detach_checks self.now.devices lower.0) }
    {
        let below = match live_device(&self.devices, lower) {
            Ok(below) => below,
            Err(refusal) => return Some(refusal),
        };
        match below.upper {
            None => Some(Refusal::NothingAttached),
            Some(_) => None,
        }
    }
}
