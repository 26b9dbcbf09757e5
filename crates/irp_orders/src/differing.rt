//! What differs between the packets and devices of outcomes, beside what the table tells anyway.

use crate::found::Found;
use irp_machine::{DeviceEnd, LiveEnd};
use std::alloc::{AllocError, Global};

/// The facts of packets in which some two differ that are one use and have the same owner, current location and status.
#[derive(Clone, Copy, Default)]
pub struct PacketFacts {
    pub information: bool,
    pub pending_returned: bool,
    pub cancel: bool,
    pub cancel_routine: bool,
    pub preparation: bool,
    pub slot_held: bool,
    pub locations: bool,
}

impl PacketFacts {
    /// Notes in which facts two packets differ.
    fn note(&mut self, one: &LiveEnd, other: &LiveEnd) {
        self.information |= one.information != other.information;
        self.pending_returned |= one.pending_returned != other.pending_returned;
        self.cancel |= one.cancel != other.cancel;
        self.cancel_routine |= one.cancel_routine != other.cancel_routine;
        self.preparation |= one.preparation != other.preparation;
        self.slot_held |= one.slot_held != other.slot_held;
        self.locations |= one.locations.as_slice() != other.locations.as_slice();
    }
}

/// Whether two packets are one use, and have the same owner, current location and status.
fn look_alike(one: &LiveEnd, other: &LiveEnd) -> bool {
    one.slot == other.slot
        && one.use_no == other.use_no
        && one.owner == other.owner
        && one.current == other.current
        && one.status == other.status
}

/// Notes in which facts a packet differs from the first that looks like it, or that it is the first.
fn note_packet<'a>(
    facts: &mut PacketFacts,
    firsts: &mut Vec<&'a LiveEnd>,
    live: &'a LiveEnd,
) -> Result<(), AllocError> {
    for first in firsts.iter() {
        if look_alike(first, live) {
            facts.note(first, live);
            return Ok(());
        }
    }
    firsts.push(live)?;
    Ok(())
}

/// The facts in which packets of these outcomes differ that look alike. The one error is want of memory.
pub fn packet_facts(alloc: Global, founds: &[Found]) -> Result<PacketFacts, AllocError> {
    let mut facts = PacketFacts::default();
    let mut firsts = Vec::new(alloc);
    for found in founds {
        for live in found.outcome.end.packets.as_slice() {
            note_packet(&mut facts, &mut firsts, live)?;
        }
    }
    Ok(facts)
}

/// Whether a device is of another driver or has another remove lock than one of the same number.
fn has_other_driver(pair: (&DeviceEnd, &DeviceEnd)) -> bool {
    pair.0.driver != pair.1.driver || pair.0.lock != pair.1.lock
}

/// Whether a device of some outcome is of another driver or has another remove lock in another outcome.
pub fn drivers_differ(founds: &[Found]) -> bool {
    let Some(first) = founds.first() else {
        return false;
    };
    let first = first.outcome.end.devices.as_slice();
    let mut differ = false;
    for found in founds {
        let mut pairs = first
            .iter()
            .zip(found.outcome.end.devices.as_slice().iter());
        differ = differ || pairs.any(has_other_driver);
    }
    differ
}
