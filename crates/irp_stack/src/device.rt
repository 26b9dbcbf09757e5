//! The record that is kept of a device, and the changes that calls make to records.

ghost use Rattle.std.specs.Prelude.{◌≡◌, ◌+◌, ◌-◌, ◌<◌, ◌≤◌, length};
ghost use Rattle.std.specs.List.{AllByRecursion};
ghost use Rattle.irp_types.specs.Limits.{most_locations};
ghost use Rattle.irp_stack.specs.Records.{FoundLive, walk, renumbered, put_above, cut_between, dead, edit, record_of};
ghost use Rattle.irp_stack.specs.Records.{names_neighbour};

use irp_types::{DeviceId, DriverId, LockNo, Refusal};

/// How many devices a stack may have, whatever the limit: a packet to its top needs a location for each.
pub const MOST_IN_STACK: u32 = 32;

/// A device and its neighbours.
#[derive(Clone, Copy)]
pub struct Device {
    pub driver: DriverId,
    pub lock: LockNo,
    pub live: bool,
    /// The device just below.
    pub lower: Option<DeviceId>,
    /// The device just above.
    pub upper: Option<DeviceId>,
    /// The lowest device of the stack. Two devices are in one stack if they have one bottom.
    pub bottom: DeviceId,
    /// The highest device of the stack. It is up to date at the bottom alone.
    pub top: DeviceId,
    /// The position in the stack, from 1 at the bottom.
    pub size: u32,
}

impl Device {
    /// Whether another device stands below or above.
    pub fn has_neighbour(self) -> bool
        ensures { result ≡ names_neighbour self }
    {
        self.lower.is_some() || self.upper.is_some()
    }
}

/// The record of a device that was created and is live.
pub fn live_device(devices: &Vec<Device>, device: DeviceId) -> Result<Device, Refusal>
    ensures { FoundLive devices.now.items device.0 result }
{
    let Some(found) = devices.get(device.0 as usize).copied() else {
        return Err(Refusal::NoDevice);
    };
    if !found.live {
        return Err(Refusal::DeviceGone);
    }
    Ok(found)
}

/// The record of a device that was created.
pub fn record_at(devices: &Vec<Device>, device: DeviceId) -> Device
    requires { device.0 < length devices.now.items }
    ensures { result ≡ record_of devices.now.items device.0 }
{
    devices[device.0 as usize]
}

/// Gives `device` a new bottom and this position, and answers the device above it.
fn set_place(
    devices: &mut Vec<Device>,
    device: DeviceId,
    bottom: DeviceId,
    size: u32,
) -> Option<DeviceId>
    requires { device.0 < length devices.old.items }
    ensures set { devices.new.items ≡ edit devices.old.items device.0
        (λ old. record old { bottom = bottom; size = size }) }
    ensures upper { result ≡ (record_of devices.old.items device.0).upper }
{
    let placed = &mut devices[device.0 as usize];
    placed.bottom = bottom;
    placed.size = size;
    placed.upper
}

/// Gives `device` and those above it a new bottom, and positions from `size` on.
pub fn renumber(devices: &mut Vec<Device>, device: DeviceId, bottom: DeviceId, size: u32)
    requires some { 1 ≤ size }
    requires few { size ≤ most_locations }
    requires known { AllByRecursion (λ member. member < length devices.old.items)
        (walk (most_locations + 1 - size) devices.old.items device.0) }
    ensures { devices.new.items ≡ renumbered bottom size
        (walk (most_locations + 1 - size) devices.old.items device.0) devices.old.items }
{
    let upper = set_place(devices, device, bottom, size);
    if size < MOST_IN_STACK {
        if let Some(next) = upper {
            renumber(devices, next, bottom, size + 1);
        }
    }
}

/// Puts `device` at this position above `top`, the top of the stack over `bottom`.
pub fn put_above(
    devices: &mut Vec<Device>,
    device: DeviceId,
    top: DeviceId,
    bottom: DeviceId,
    size: u32,
)
    requires device { device.0 < length devices.old.items }
    requires top { top.0 < length devices.old.items }
    requires bottom { bottom.0 < length devices.old.items }
    ensures { devices.new.items ≡ put_above devices.old.items device top bottom size }
{
    devices[top.0 as usize].upper = Some(device);
    devices[bottom.0 as usize].top = device;
    let own = &mut devices[device.0 as usize];
    own.lower = Some(top);
    own.bottom = bottom;
    own.size = size;
}

/// Cuts the stack over `bottom`, of which `top` is the top, between `lower` and `upper`.
pub fn cut_between(
    devices: &mut Vec<Device>,
    lower: DeviceId,
    upper: DeviceId,
    bottom: DeviceId,
    top: DeviceId,
)
    requires lower { lower.0 < length devices.old.items }
    requires upper { upper.0 < length devices.old.items }
    requires bottom { bottom.0 < length devices.old.items }
    ensures { devices.new.items ≡ cut_between devices.old.items lower upper bottom top }
{
    devices[lower.0 as usize].upper = None;
    devices[bottom.0 as usize].top = lower;
    let cut = &mut devices[upper.0 as usize];
    cut.lower = None;
    cut.top = top;
}

/// Marks a device as gone.
pub fn retire(devices: &mut Vec<Device>, device: DeviceId)
    requires { device.0 < length devices.old.items }
    ensures { devices.new.items ≡ edit devices.old.items device.0 dead }
{
    devices[device.0 as usize].live = false;
}
