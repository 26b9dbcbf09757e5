//! A packet, its readers, and the calls that a packet answers by itself. That refusals come in the order in which they
//! are listed, and what names no page of the WDK, is this project's own rule.

mod steps;

ghost use Rattle.std.specs.Prelude.{◌≡◌, ◌+◌, ◌<◌, ◌≤◌, ◌==◌, ◌||◌, if◌then◌else◌, nat_lt, false, replicate};
ghost use Rattle.irp_types.specs.Limits.{most_locations};
ghost use Rattle.irp_types.specs.Checks.{answer_unless, value_unless};
ghost use Rattle.irp_types.specs.Packet.{size_of, cleared, location_at, found_location, new_packet, is_nothing};
ghost use Rattle.irp_types.specs.Packet.{set_next_refusal, copy_to_next_refusal, skip_refusal, set_routine_refusal};
ghost use Rattle.irp_types.specs.Packet.{mark_pending_refusal, after_set_next, after_copy, after_skip};
ghost use Rattle.irp_types.specs.Packet.{after_set_routine, after_mark};
ghost use Rattle.irp_types.specs.Steps.{seen_of};
ghost use Rattle.irp_types.specs.declared.refusal.Refusal.TheVariants.{BadSize};

use arrayvec::ArrayVec;
use irp_types::limits::LAST_MAJOR;
use irp_types::{CancelId, Location, Owner, Preparation, Refusal, Seen, Setting, Status};
use std::alloc::Global;
use std::marker::Model;

/// How many locations a packet may have.
const MOST_LOCATIONS: usize = 32;

/// A location that nobody was sent a packet in.
const CLEARED: Location = Location {
    device: None,
    major: 0,
    word: 0,
    setting: None,
    pending: false,
};

/// An I/O request packet: 1 to 32 stack locations, numbered from 1 at the bottom, and what stands beside them
/// (WDK: "I/O Stack Locations"; owner and preparation are this project's own).
///
/// Contracts see it as the record `PacketValue` of `irp_types`, whatever it is stored as.
#[derive(Clone, Drop)]
pub struct Packet {
    locations: ArrayVec<Location, MOST_LOCATIONS>,
    current: u32,
    status: Status,
    information: u64,
    pending_returned: bool,
    cancel: bool,
    cancel_routine: Option<CancelId>,
    owner: Owner,
    preparation: Preparation,
    slot_held: bool,
}

impl Model for Packet {
    ghost use Rattle.std.specs.Prelude.{◌≡◌, ◌≤◌, ◌+◌, length, false};
    ghost use Rattle.irp_types.specs.Limits.{most_locations};
    ghost use Rattle.irp_types.specs.Packet.{PacketValue, is_nothing};

    ghost Value = { PacketValue };

    ghost view = { λ packet. record {
      locations = packet.locations.items;
      current = packet.current;
      status = packet.status;
      information = packet.information;
      pending_returned = packet.pending_returned;
      cancel = packet.cancel;
      cancel_routine = packet.cancel_routine;
      owner = packet.owner;
      preparation = packet.preparation;
      slot_held = packet.slot_held;
    } };

    // a prepared packet has a location below the owner's, which the next device is to use
    ghost invariant = { λ packet. record {
      some : 1 ≤ length packet.locations.items;
      few : length packet.locations.items ≤ most_locations;
      placed : 1 ≤ packet.current;
      within : packet.current ≤ length packet.locations.items + 1;
      prepared : is_nothing packet.preparation ≡ false → 2 ≤ packet.current;
    } };
}

/// Puts as many cleared locations as `size`, which is at most 32, in place of those that are there.
#[inline]
fn put_cleared(locations: &mut ArrayVec<Location, MOST_LOCATIONS>, size: u8)
    requires { size ≤ most_locations }
    ensures { locations.new.items ≡ replicate size cleared }
{
    locations.clear();
    for _number in 0..size {
        locations.push(CLEARED);
    }
}

impl Packet {
    /// A packet of `size` locations, as it is allocated: every location cleared, status and information 0, no flag
    /// and no cancel routine set, owned by the originator and not prepared. It stands above its highest location,
    /// so `current` is `size + 1`. It takes no memory (WDK: "IoAllocateIrp").
    ///
    /// # Errors
    ///
    /// `BadSize` exactly where `size` is 0 or above 32.
    #[inline(always)]
    pub fn new(alloc: Global, size: u8) -> Result<Packet, Refusal>
        ensures { result ≡ (if (size == 0) || nat_lt most_locations size
            then Err BadSize else Ok (new_packet size)) }
    {
        if size == 0 || size as usize > MOST_LOCATIONS {
            return Err(Refusal::BadSize);
        }
        Ok(Packet::of_size(size))
    }

    /// The same for a size from 1 to 32, which can't be refused (WDK: "IoAllocateIrp").
    #[inline(always)]
    pub fn of_size(size: u8) -> Packet
        requires some { 1 ≤ size }
        requires few { size ≤ most_locations }
        ensures { result ≡ new_packet size }
    {
        let mut locations = ArrayVec::new();
        put_cleared(&mut locations, size);
        Packet {
            locations,
            current: size as u32 + 1,
            status: Status::SUCCESS,
            information: 0,
            pending_returned: false,
            cancel: false,
            cancel_routine: None,
            owner: Owner::Originator,
            preparation: Preparation::Nothing,
            slot_held: false,
        }
    }

    /// How many locations it has, from 1 to 32.
    #[inline]
    pub fn size(&self) -> u32
        ensures size { result ≡ size_of self.now }
        ensures some { 1 ≤ result }
        ensures few { result ≤ 32 }
    {
        self.locations.len() as u32
    }

    /// The number of the location in use, from 1 to `size + 1`. At `size + 1` the packet stands above its highest
    /// location (WDK: "I/O Stack Locations").
    #[inline]
    pub fn current(&self) -> u32
        ensures current { result ≡ self.now.current }
        ensures placed { 1 ≤ result }
        ensures within { result ≤ size_of self.now + 1 }
        ensures few { result ≤ 33 }
    {
        self.current
    }

    /// The status in its I/O status block (WDK: "IO_STATUS_BLOCK").
    #[inline]
    pub fn status(&self) -> Status
        ensures { result ≡ self.now.status }
    {
        self.status
    }

    /// The information in its I/O status block, any number of 64 bits (WDK: "IO_STATUS_BLOCK").
    #[inline]
    pub fn information(&self) -> u64
        ensures { result ≡ self.now.information }
    {
        self.information
    }

    /// PendingReturned, which completion routines are shown (WDK: "IRP").
    #[inline]
    pub fn pending_returned(&self) -> bool
        ensures { result ≡ self.now.pending_returned }
    {
        self.pending_returned
    }

    /// Whether the packet was cancelled (WDK: "IRP").
    #[inline]
    pub fn cancel(&self) -> bool
        ensures { result ≡ self.now.cancel }
    {
        self.cancel
    }

    /// Its cancel routine, if one is set (WDK: "IoSetCancelRoutine").
    #[inline]
    pub fn cancel_routine(&self) -> Option<CancelId>
        ensures { result ≡ self.now.cancel_routine }
    {
        self.cancel_routine
    }

    /// Who owns it.
    #[inline]
    pub fn owner(&self) -> Owner
        ensures { result ≡ self.now.owner }
    {
        self.owner
    }

    /// How far it is prepared for the next lower device. A packet that is prepared at all has a `current` of 2 or
    /// more.
    #[inline]
    pub fn preparation(&self) -> Preparation
        ensures preparation { result ≡ self.now.preparation }
        ensures prepared { is_nothing result ≡ false → 2 ≤ self.now.current }
    {
        self.preparation
    }

    /// Whether it stands in a cancel slot, where FinishTaken alone completes it.
    #[inline]
    pub fn slot_held(&self) -> bool
        ensures { result ≡ self.now.slot_held }
    {
        self.slot_held
    }

    /// The content of location `number`, counted from 1 at the bottom: nothing where `number` is 0 or above `size`.
    pub fn location(&self, number: u32) -> Option<Location>
        ensures { result ≡ found_location self.now number }
    {
        if number == 0 {
            return None;
        }
        self.locations.get(number as usize - 1).copied()
    }

    /// The content of location `number`, which the packet has.
    #[inline]
    pub fn location_at(&self, number: u32) -> Location
        requires some { 1 ≤ number }
        requires within { number ≤ size_of self.now }
        ensures { result ≡ location_at self.now number }
    {
        self.locations[number as usize - 1]
    }

    /// What Look shows of it.
    pub fn seen(&self) -> Seen
        ensures { result ≡ seen_of self.now }
    {
        let current = self.current();
        Seen {
            owner: self.owner(),
            current,
            status: self.status(),
            information: self.information(),
            cancel: self.cancel(),
            cancel_routine: self.cancel_routine(),
            pending_returned: self.pending_returned(),
            marked: current <= self.size() && self.location_at(current).pending,
        }
    }
}

// The calls that a packet answers by itself. The first check that fails is the answer, and then nothing changes.
impl Packet {
    /// Clears the next lower location, puts a major function code, from 0x00 to 0x1b, and a word there, and makes the
    /// packet Filled (WDK: "IoGetNextIrpStackLocation").
    ///
    /// # Errors
    ///
    /// In this order, and then the packet stays as it was: `AfterSkip` where the owner gave its location away,
    /// `TooShort` where `current` is 1, `BadMajor` where `major` is above 0x1b.
    #[inline]
    pub fn set_next(&mut self, major: u8, word: u64) -> Result<(), Refusal>
        ensures answer { result ≡ answer_unless (set_next_refusal self.old major) tt }
        ensures changed { self.new
            ≡ value_unless (set_next_refusal self.old major) self.old
            (after_set_next self.old major word) }
    {
        if matches!(self.preparation, Preparation::Skipped) {
            return Err(Refusal::AfterSkip);
        }
        if self.current <= 1 {
            return Err(Refusal::TooShort);
        }
        if major > LAST_MAJOR {
            return Err(Refusal::BadMajor);
        }
        let next = self.current as usize - 2;
        self.locations[next] = Location {
            major,
            word,
            ..CLEARED
        };
        self.preparation = Preparation::Filled;
        Ok(())
    }

    /// Copies the current location to the next lower one, without its completion routine and its pending bit, and
    /// makes the packet Filled (WDK: "IoCopyCurrentIrpStackLocationToNext").
    ///
    /// # Errors
    ///
    /// In this order, and then the packet stays as it was: `NoLocation` where the packet stands above its highest
    /// location and nothing was skipped, `AfterSkip` where the owner gave its location away, `TooShort` where `current`
    /// is 1.
    pub fn copy_to_next(&mut self) -> Result<(), Refusal>
        ensures answer { result ≡ answer_unless (copy_to_next_refusal self.old) tt }
        ensures changed { self.new
            ≡ value_unless (copy_to_next_refusal self.old) self.old (after_copy self.old None) }
    {
        self.check_location()?;
        if self.current <= 1 {
            return Err(Refusal::TooShort);
        }
        self.copy(None);
        Ok(())
    }

    /// Gives the owner's location to the next lower device: `current` is raised by one, and the packet is Skipped.
    /// A next lower location that was filled is cleared (WDK: "IoSkipCurrentIrpStackLocation").
    ///
    /// # Errors
    ///
    /// In this order, and then the packet stays as it was: `NoLocation` where the packet stands above its highest
    /// location and nothing was skipped, `AfterSkip` where the owner gave its location away.
    pub fn skip(&mut self) -> Result<(), Refusal>
        ensures answer { result ≡ answer_unless (skip_refusal self.old) tt }
        ensures changed { self.new
            ≡ value_unless (skip_refusal self.old) self.old (after_skip self.old) }
    {
        self.check_location()?;
        if matches!(self.preparation, Preparation::Filled) {
            let next = self.current as usize - 2;
            self.locations[next] = CLEARED;
        }
        self.current += 1;
        self.preparation = Preparation::Skipped;
        Ok(())
    }

    /// Puts a completion routine, with its context and flags, into the next lower location, in place of what was set
    /// there (WDK: "IoSetCompletionRoutine").
    ///
    /// # Errors
    ///
    /// In this order, and then the packet stays as it was: `AfterSkip` where the owner gave its location away,
    /// `NotPrepared` where the next lower location wasn't filled.
    pub fn set_routine(&mut self, setting: Setting) -> Result<(), Refusal>
        ensures answer { result ≡ answer_unless (set_routine_refusal self.old) tt }
        ensures changed { self.new
            ≡ value_unless (set_routine_refusal self.old) self.old
            (after_set_routine self.old setting) }
    {
        match self.preparation {
            Preparation::Skipped => Err(Refusal::AfterSkip),
            Preparation::Nothing => Err(Refusal::NotPrepared),
            Preparation::Filled => {
                let next = self.current as usize - 2;
                self.locations[next].setting = Some(setting);
                Ok(())
            }
        }
    }

    /// Marks the current location pending (WDK: "IoMarkIrpPending").
    ///
    /// # Errors
    ///
    /// In this order, and then the packet stays as it was: `NoLocation` where the packet stands above its highest
    /// location and nothing was skipped, `AfterSkip` where the owner gave its location away.
    pub fn mark_pending(&mut self) -> Result<(), Refusal>
        ensures answer { result ≡ answer_unless (mark_pending_refusal self.old) tt }
        ensures changed { self.new
            ≡ value_unless (mark_pending_refusal self.old) self.old
            (after_mark self.old self.old.current) }
    {
        self.check_location()?;
        let current = self.current;
        self.mark(current);
        Ok(())
    }

    // whether the owner has a location of its own, which it did not give away
    #[inline]
    fn check_location(&self) -> Result<(), Refusal>
        ensures { result ≡ answer_unless (skip_refusal self.now) tt }
    {
        if matches!(self.preparation, Preparation::Skipped) {
            return Err(Refusal::AfterSkip);
        }
        if self.current as usize > self.locations.len() {
            return Err(Refusal::NoLocation);
        }
        Ok(())
    }
}
