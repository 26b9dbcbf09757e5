//! The steps of which a descent, an unwinding and the manager's calls are made. Where no page of the WDK is named, the
//! source is this project's own rule.

ghost use Rattle.std.specs.Prelude.{◌≡◌, ◌+◌, ◌<◌, ◌≤◌, false};
ghost use Rattle.irp_types.specs.Limits.{most_locations};
ghost use Rattle.irp_types.specs.Packet.{size_of, cleared, with_location, with_status, new_packet, after_copy};
ghost use Rattle.irp_types.specs.Packet.{after_mark, after_enter, after_rise, after_reset};

use super::{CLEARED, Packet, put_cleared};
use irp_types::{CancelId, DeviceId, Location, Owner, Preparation, Setting, Status};

impl Packet {
    /// Lowers `current` by one, and writes into that location which device was sent the packet. The packet is not
    /// prepared then; the location keeps the rest (WDK: "IoCallDriver").
    #[inline]
    pub fn enter(&mut self, device: DeviceId)
        requires { 1 < self.old.current }
        ensures { self.new ≡ after_enter self.old device }
    {
        self.current -= 1;
        let here = self.current as usize - 1;
        self.locations[here].device = Some(device);
        self.preparation = Preparation::Nothing;
    }

    /// Copies the current location to the next lower one, without its pending bit and with this completion routine or
    /// none in place of its own, and makes the packet Filled (WDK: "IoCopyCurrentIrpStackLocationToNext").
    #[inline]
    pub fn copy(&mut self, setting: Option<Setting>)
        requires lower { 1 < self.old.current }
        requires within { self.old.current ≤ size_of self.old }
        ensures { self.new ≡ after_copy self.old setting }
    {
        let here = self.current as usize - 1;
        let Location { major, word, .. } = self.locations[here];
        self.locations[here - 1] = Location {
            major,
            word,
            setting,
            ..CLEARED
        };
        self.preparation = Preparation::Filled;
    }

    /// Marks location `number` pending (WDK: "IoMarkIrpPending").
    #[inline]
    pub fn mark(&mut self, number: u32)
        requires some { 1 ≤ number }
        requires within { number ≤ size_of self.old }
        ensures { self.new ≡ after_mark self.old number }
    {
        self.locations[number as usize - 1].pending = true;
    }

    /// Clears location `number`, as unwinding leaves each that it has done with (WDK: "IoCompleteRequest").
    #[inline]
    pub fn clear(&mut self, number: u32)
        requires some { 1 ≤ number }
        requires within { number ≤ size_of self.old }
        ensures { self.new ≡ with_location self.old number cleared }
    {
        self.locations[number as usize - 1] = CLEARED;
    }

    /// Raises `current` by one, to the next higher location or above the highest. The packet is not prepared then
    /// (WDK: "IoCompleteRequest").
    #[inline]
    pub fn rise(&mut self)
        requires { self.old.current ≤ size_of self.old }
        ensures { self.new ≡ after_rise self.old }
    {
        self.current += 1;
        self.preparation = Preparation::Nothing;
    }

    /// Writes the I/O status block (WDK: "IO_STATUS_BLOCK").
    #[inline]
    pub fn set_status(&mut self, status: Status, information: u64)
        ensures { self.new ≡ with_status self.old status information }
    {
        self.status = status;
        self.information = information;
    }

    /// Writes PendingReturned (WDK: "IRP").
    #[inline]
    pub fn set_returned(&mut self, pending: bool)
        ensures { self.new ≡ record self.old { pending_returned = pending } }
    {
        self.pending_returned = pending;
    }

    /// Writes who owns the packet.
    #[inline]
    pub fn set_owner(&mut self, owner: Owner)
        ensures { self.new ≡ record self.old { owner = owner } }
    {
        self.owner = owner;
    }

    /// Writes the cancel flag and the cancel routine, or none (WDK: "IoSetCancelRoutine", "IoCancelIrp").
    #[inline]
    pub fn set_cancel(&mut self, cancel: bool, routine: Option<CancelId>)
        ensures { self.new ≡ record self.old { cancel = cancel; cancel_routine = routine } }
    {
        self.cancel = cancel;
        self.cancel_routine = routine;
    }

    /// Writes whether the packet stands in a cancel slot.
    #[inline]
    pub fn set_slot_held(&mut self, slot_held: bool)
        ensures { self.new ≡ record self.old { slot_held = slot_held } }
    {
        self.slot_held = slot_held;
    }

    /// Makes the packet as newly allocated, of this size, from 1 to 32, where it lies (WDK: "IoAllocateIrp").
    #[inline]
    pub fn renew(&mut self, size: u8)
        requires some { 1 ≤ size }
        requires few { size ≤ most_locations }
        ensures { self.new ≡ new_packet size }
    {
        put_cleared(&mut self.locations, size);
        self.current = size as u32 + 1;
        self.preparation = Preparation::Nothing;
        self.begin(Status::SUCCESS);
    }

    /// Makes the packet as newly allocated, of the same size, with this status (WDK: "IoReuseIrp").
    pub fn reset(&mut self, status: Status)
        ensures { self.new ≡ after_reset self.old status }
    {
        self.locations.fill(CLEARED);
        self.begin(status);
    }

    // makes all but the locations as newly allocated, with this status
    #[inline]
    fn begin(&mut self, status: Status)
        ensures { self.new ≡ record (after_reset self.old status) {
          locations = self.old.locations;
        } }
    {
        self.current = self.locations.len() as u32 + 1;
        self.status = status;
        self.information = 0;
        self.pending_returned = false;
        self.cancel = false;
        self.cancel_routine = None;
        self.owner = Owner::Originator;
        self.preparation = Preparation::Nothing;
        self.slot_held = false;
    }
}
