//! The devices and their stacks. That refusals come in the order in which they are listed, that a device's driver and
//! lock are numbers which nothing checks here, and what names no page of the WDK, is this project's own rule.

mod looks;

ghost use Rattle.std.specs.Prelude.{◌≡◌, ◌+◌, ◌<◌, ◌≤◌, length, IfOk, IfErr, OnErr, Some, None, slice_get};
ghost use Rattle.std.specs.Option.{option_map};
ghost use Rattle.irp_types.specs.Limits.{most_locations};
ghost use Rattle.irp_types.specs.Checks.{first_failing, answer_unless, value_unless};
ghost use Rattle.irp_types.specs.Stacks.{no_devices, AreStacks, create_checks, attach_checks, detach_checks};
ghost use Rattle.irp_types.specs.Stacks.{delete_checks, after_create, after_attach, after_detach, after_delete, top_of};
ghost use Rattle.irp_types.specs.Stacks.{cut_off_by, lower_of, stack_size_of};
ghost use Rattle.irp_types.specs.declared.limit.Limit.TheVariants.{ThirtyTwo};
ghost use Rattle.irp_types.specs.declared.refusal.Refusal.TheVariants.{Full};
ghost use Rattle.irp_stack.specs.Records.{id, facts_shown};
ghost use Rattle.irp_stack.specs.declared.stacks.NotCreated.TheVariants.{Full as NotCreated_Full};
ghost use Rattle.irp_stack.specs.declared.stacks.NotCreated.TheVariants.{Memory as NotCreated_Memory};

use crate::device::{Device, cut_between, live_device, put_above, record_at, renumber, retire};
use irp_types::{DeviceId, DriverId, Limit, LockNo, Refusal};
use std::alloc::Global;
use std::marker::Model;

/// How many devices may ever be created.
const MOST_DEVICES: usize = 64;

/// Every device that was ever created, and the stacks in which they stand (WDK: "WDM Device Stacks").
///
/// Devices are numbered from 0 in the order of their creation, and no number comes again. Each stands in exactly one
/// stack, alone until it is attached; a stack has 1 to 32 devices, and the members of one with 2 or more are live.
/// `attach` keeps it within the limit.
///
/// Contracts see it as the record `StacksValue`: the facts of each device, beside it its whole stack, bottom first, and
/// the limit.
#[derive(Clone, Drop)]
pub struct Stacks {
    devices: Vec<Device>,
    limit: Limit,
}

impl Model for Stacks {
    ghost use Rattle.std.specs.Prelude.{◌≤◌, length};
    ghost use Rattle.irp_types.specs.Limits.{most_devices};
    ghost use Rattle.irp_stack.specs.Records.{StacksValue, value_of, IsTidy};

    ghost Value = { StacksValue };

    ghost view = { λ stacks. record {
      devices = value_of stacks.devices.items;
      limit = stacks.limit;
    } };

    ghost invariant = { λ stacks. (length stacks.devices.items ≤ most_devices)
        × IsTidy stacks.devices.items };
}

/// What is kept of a device beside its place in a stack.
#[derive(Clone, Copy, PartialEq, Eq, Debug)]
pub struct Facts {
    pub driver: DriverId,
    /// The device's remove lock. Several devices may name one.
    pub lock: LockNo,
    /// Whether the device was not deleted.
    pub live: bool,
}

/// Why no device was created.
#[derive(Clone, Copy, PartialEq, Eq, Debug)]
pub enum NotCreated {
    /// 64 devices were created before.
    Full,
    /// There is no memory for it.
    Memory,
}

impl Stacks {
    /// No devices, with stacks of 32 at most. It takes no memory until one is created.
    pub fn new(alloc: Global) -> Stacks
        ensures { result ≡ record { devices = no_devices; limit = ThirtyTwo } }
    {
        Stacks::with_limit(alloc, Limit::ThirtyTwo)
    }

    /// No devices, with stacks of as many as the limit allows. It takes no memory until one is created.
    pub fn with_limit(alloc: Global, limit: Limit) -> Stacks
        ensures { result ≡ record { devices = no_devices; limit = limit } }
    {
        Stacks {
            devices: Vec::new(alloc),
            limit,
        }
    }

    /// Creates a live device, alone in a stack of its own, and answers its number: how many there were (WDK:
    /// "IoCreateDevice").
    ///
    /// The error is `Full` exactly where 64 devices were created before, deleted ones among them. It is `Memory` only
    /// where fewer were created. Either changes nothing.
    pub fn create(&mut self, driver: DriverId, lock: LockNo) -> Result<DeviceId, NotCreated>
        ensures created { IfOk result (λ device. (device.0 ≡ length self.old.devices.facts)
            × (first_failing (create_checks self.old.devices) ≡ None)
            × (self.new ≡ record self.old {
              devices = after_create self.old.devices driver lock;
            })) }
        ensures refused { OnErr result (self.new ≡ self.old) }
        ensures full { IfErr result (λ error.
            (error ≡ NotCreated_Full → first_failing (create_checks self.old.devices) ≡ Some Full)
            × (error ≡ NotCreated_Memory → first_failing (create_checks self.old.devices) ≡ None)) }
    {
        let count = self.devices.len();
        if count >= MOST_DEVICES {
            return Err(NotCreated::Full);
        }
        let id = DeviceId(count as u32);
        let made = Device {
            driver,
            lock,
            live: true,
            lower: None,
            upper: None,
            bottom: id,
            top: id,
            size: 1,
        };
        let Ok(()) = self.devices.push(made) else {
            return Err(NotCreated::Memory);
        };
        Ok(id)
    }

    /// Puts `device`, which stands alone, on the present top of the stack of `to`, and answers that former top
    /// (WDK: "IoAttachDeviceToDeviceStack").
    ///
    /// It is refused, and changes nothing, with the first of these that holds: `NoDevice` if `device` was never
    /// created, `DeviceGone` if it was deleted; both likewise of `to`; `SameStack` if the two are in one stack, as a
    /// device is with itself; `StillAttached` if `device` has a neighbour; `TooDeep` if the stack of `to` has as many
    /// devices as the limit allows. It takes constant time.
    pub fn attach(&mut self, device: DeviceId, to: DeviceId) -> Result<DeviceId, Refusal>
        ensures answer { result ≡ answer_unless
            (first_failing (attach_checks self.old.limit self.old.devices device.0 to.0))
            (id (top_of self.old.devices to.0)) }
        ensures changed { self.new.devices ≡ value_unless
            (first_failing (attach_checks self.old.limit self.old.devices device.0 to.0))
            self.old.devices (after_attach self.old.devices device.0 to.0) }
        ensures limit { self.new.limit ≡ self.old.limit }
    {
        let own = live_device(&self.devices, device)?;
        let target = live_device(&self.devices, to)?;
        if own.bottom.0 == target.bottom.0 {
            return Err(Refusal::SameStack);
        }
        if own.has_neighbour() {
            return Err(Refusal::StillAttached);
        }
        let top = record_at(&self.devices, target.bottom).top;
        let depth = record_at(&self.devices, top).size;
        if depth >= self.limit.locations() {
            return Err(Refusal::TooDeep);
        }
        put_above(&mut self.devices, device, top, target.bottom, depth + 1);
        Ok(top)
    }

    /// Cuts the stack just above `lower`, and answers the device that stood there, the bottom of a stack of its own
    /// from now on (WDK: "IoDetachDevice"; that those above stay on it, with stack sizes from 1, is this project's own
    /// rule).
    ///
    /// It is refused, and changes nothing, with the first of these that holds: `NoDevice` if `lower` was never created,
    /// `DeviceGone` if it was deleted, `NothingAttached` if it is the top of its stack. It goes once over the devices
    /// above the cut.
    pub fn detach(&mut self, lower: DeviceId) -> Result<DeviceId, Refusal>
        ensures answer { result ≡ answer_unless
            (first_failing (detach_checks self.old.devices lower.0))
            (id (cut_off_by self.old.devices lower.0)) }
        ensures changed { self.new.devices ≡ value_unless
            (first_failing (detach_checks self.old.devices lower.0))
            self.old.devices (after_detach self.old.devices lower.0) }
        ensures limit { self.new.limit ≡ self.old.limit }
    {
        let below = live_device(&self.devices, lower)?;
        let Some(upper) = below.upper else {
            return Err(Refusal::NothingAttached);
        };
        let top = record_at(&self.devices, below.bottom).top;
        cut_between(&mut self.devices, lower, upper, below.bottom, top);
        renumber(&mut self.devices, upper, upper, 1);
        Ok(upper)
    }

    /// Marks a device that stands alone as gone, for ever (WDK: "IoDeleteDevice"). Its number stays its own.
    ///
    /// It is refused, and changes nothing, with the first of these that holds: `NoDevice` if the device was never
    /// created, `DeviceGone` if it was deleted before, `StillAttached` if it has a neighbour. It doesn't look at
    /// packets or remove locks.
    pub fn delete(&mut self, device: DeviceId) -> Result<(), Refusal>
        ensures answer { result ≡ answer_unless
            (first_failing (delete_checks self.old.devices device.0)) tt }
        ensures changed { self.new.devices ≡ value_unless
            (first_failing (delete_checks self.old.devices device.0))
            self.old.devices (after_delete self.old.devices device.0) }
        ensures limit { self.new.limit ≡ self.old.limit }
    {
        let found = live_device(&self.devices, device)?;
        if found.has_neighbour() {
            return Err(Refusal::StillAttached);
        }
        retire(&mut self.devices, device);
        Ok(())
    }

    /// Why [`delete`](Stacks::delete) refuses the device, or `None` where it would delete it.
    pub fn delete_refusal(&self, device: DeviceId) -> Option<Refusal>
        ensures { result ≡ first_failing (delete_checks self.now.devices device.0) }
    {
        let own = match live_device(&self.devices, device) {
            Ok(own) => own,
            Err(refusal) => return Some(refusal),
        };
        if own.has_neighbour() {
            return Some(Refusal::StillAttached);
        }
        None
    }

    /// The device just below (WDK: "IoGetLowerDeviceObject"). `None` if nothing stands below, or if the device was
    /// never created. It takes constant time.
    pub fn lower(&self, device: DeviceId) -> Option<DeviceId>
        ensures { result ≡ option_map id (lower_of self.now.devices device.0) }
    {
        self.devices.get(device.0 as usize)?.lower
    }

    /// The position in its stack of a device that was created, from 1 at the bottom to 32 at most: how many locations
    /// a packet that is sent to it needs (WDK: "IoAttachDeviceToDeviceStack"). It takes constant time.
    pub fn stack_size(&self, device: DeviceId) -> u32
        requires { device.0 < length self.now.devices.facts }
        ensures size { result ≡ stack_size_of self.now.devices device.0 }
        ensures some { 1 ≤ result }
        ensures few { result ≤ most_locations }
    {
        record_at(&self.devices, device).size
    }

    /// Driver and remove lock of a device, and whether it is live. `None` exactly if the device was never created.
    pub fn facts(&self, device: DeviceId) -> Option<Facts>
        ensures { result ≡ option_map facts_shown (slice_get self.now.devices.facts device.0) }
    {
        let found = self.devices.get(device.0 as usize)?;
        Some(Facts {
            driver: found.driver,
            lock: found.lock,
            live: found.live,
        })
    }

    /// The limit on stacks, as it was given.
    pub fn limit(&self) -> Limit
        ensures { result ≡ self.now.limit }
    {
        self.limit
    }

    /// Tells that each device is at one place of one stack, that no stack has more than 32 devices, and that the
    /// members of a stack of two or more are live. It changes nothing and answers nothing.
    pub fn are_stacks(&self)
        ensures { AreStacks self.now.devices }
    {
        let _ = &self.devices;
    }
}
