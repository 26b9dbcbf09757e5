//! How a script has ended.

ghost use Rattle.std.specs.Prelude.{◌≡◌, ◌<◌, ◌≤◌, IfOk, IfSome, OnOk, length, map, position};
ghost use Rattle.irp_manager.specs.ManagerStates.{state_of};
ghost use Rattle.irp_manager.specs.Slots.{live_of};
ghost use Rattle.irp_types.specs.Standing.{lowest_location};
ghost use Rattle.irp_plain.specs.Lists.{with_more};
ghost use Rattle.irp_machine.specs.Endings as spec;

use crate::live_end::{DeviceEnd, LiveEnd};
use crate::outcome::{End, Holder, LockEnd, Replies, SlotEnd};
use crate::standing::Standing;
use irp_manager::{Live, ManagerState};
use irp_packet::Packet;
use irp_plain::{Held, PlainKeep, SeatState, Slot, push_if};
use irp_stack::Stacks;
use irp_types::{DeviceId, Location, Owner, Preparation, Row};
use std::alloc::{AllocError, Global};

/// The number of the current location, or of the one below it that was prepared.
fn lowest_location(packet: &Packet) -> u32
    ensures lowest { result ≡ lowest_location packet.now }
    ensures few { result ≤ 33 }
{
    match packet.preparation() {
        Preparation::Nothing => packet.current(),
        Preparation::Filled | Preparation::Skipped => packet.current() - 1,
    }
}

/// The contents of so many locations of a packet, from this number up, as far as there are any.
fn locations_from(
    alloc: Global,
    packet: &Packet,
    number: u32,
    count: u32,
) -> Result<Vec<Location>, AllocError>
    requires low { number ≤ 33 }
    requires few { count ≤ 32 }
    ensures { IfOk result (λ locations.
        locations.items ≡ spec.locations_from packet.now number count) }
{
    let mut locations = Vec::new(alloc);
    for above in 0..count {
        push_if(&mut locations, packet.location(number + above))?;
    }
    Ok(locations)
}

/// The locations of a packet that a send, a completion or a look could come to.
fn locations_told(alloc: Global, packet: &Packet) -> Result<Vec<Location>, AllocError>
    ensures { IfOk result (λ locations. locations.items ≡ spec.locations_told packet.now) }
{
    let count = match packet.owner() {
        Owner::Ended => 0,
        Owner::Originator | Owner::Device(_) => packet.size(),
    };
    locations_from(alloc, packet, lowest_location(packet), count)
}

/// A live packet in its slot.
fn packet_end(alloc: Global, slot: usize, live: &Live) -> Result<LiveEnd, AllocError>
    ensures { IfOk result (λ end. end ≡ spec.packet_end slot live.now) }
{
    let packet = &live.packet;
    Ok(LiveEnd {
        slot,
        use_no: live.use_no,
        owner: packet.owner(),
        current: packet.current(),
        status: packet.status(),
        information: packet.information(),
        pending_returned: packet.pending_returned(),
        cancel: packet.cancel(),
        cancel_routine: packet.cancel_routine(),
        preparation: packet.preparation(),
        slot_held: packet.slot_held(),
        locations: Row::from_vec(locations_told(alloc, packet)?),
    })
}

/// Appends the live packet of a slot, if there is one.
fn add_packet(
    alloc: Global,
    packets: &mut Vec<LiveEnd>,
    manager: &ManagerState<PlainKeep>,
    slot: usize,
) -> Result<(), AllocError>
    ensures { OnOk result (packets.new.items
        ≡ with_more (spec.live_end (state_of live_of manager.now) slot) packets.old.items) }
{
    if let Some(live) = manager.live(slot) {
        packets.push(packet_end(alloc, slot, live)?)?;
    }
    Ok(())
}

/// The live packets of the slots below this one.
fn packets_below(
    alloc: Global,
    manager: &ManagerState<PlainKeep>,
    below: u64,
) -> Result<Vec<LiveEnd>, AllocError>
    ensures { IfOk result (λ packets.
        packets.items ≡ spec.packets_below (state_of live_of manager.now) below) }
{
    let mut packets = Vec::new(alloc);
    for slot in 0..below {
        add_packet(alloc, &mut packets, manager, slot as usize)?;
    }
    Ok(packets)
}

/// A device by its number, if it was created.
fn device_end(stacks: &Stacks, device: DeviceId) -> Option<DeviceEnd>
    ensures { result ≡ spec.device_end stacks.now.devices device.0 }
{
    let facts = stacks.facts(device)?;
    Some(DeviceEnd {
        driver: facts.driver,
        lock: facts.lock,
        live: facts.live,
        lower: stacks.lower(device),
    })
}

/// The devices, by their numbers.
fn devices_of(alloc: Global, stacks: &Stacks) -> Result<Vec<DeviceEnd>, AllocError>
    ensures { IfOk result (λ devices. devices.items
        ≡ spec.devices_below stacks.now.devices (length stacks.now.devices.facts)) }
{
    let mut devices = Vec::new(alloc);
    for device in 0..stacks.len() {
        push_if(&mut devices, device_end(stacks, DeviceId(device)))?;
    }
    Ok(devices)
}

/// The first place at which a holder of a higher tag stands.
fn first_above(own: &[Holder], tag: u32) -> Option<usize>
    ensures first { result ≡ position (spec.is_above tag) own.now }
    ensures within { IfSome result (λ place. place < length own.now) }
{
    own.iter().position(|other| tag < other.tag)
}

/// The first place at which a holder of a higher tag stands, or else the end.
fn place_of(own: &[Holder], tag: u32) -> usize
    ensures place { result ≡ spec.place_of tag own.now }
    ensures within { result ≤ length own.now }
{
    match first_above(own, tag) {
        Some(place) => place,
        None => own.len(),
    }
}

/// Puts a seat's reference among its others, if it is to this lock.
fn put_hold(own: &mut Vec<Holder>, held: Held, seat: usize, lock: usize) -> Result<(), AllocError>
    ensures { OnOk result (own.new.items ≡ spec.with_hold seat lock own.old.items held) }
{
    if held.lock as usize == lock {
        let place = place_of(own.as_slice(), held.tag);
        own.insert(
            place,
            Holder {
                seat,
                tag: held.tag,
            },
        )?;
    }
    Ok(())
}

/// A seat's references to a lock, by rising tag.
fn holds_of(
    alloc: Global,
    held: &[Held],
    seat: usize,
    lock: usize,
) -> Result<Vec<Holder>, AllocError>
    ensures { IfOk result (λ own. own.items ≡ spec.holds_of seat lock held.now) }
{
    let mut own = Vec::new(alloc);
    for one in held {
        put_hold(&mut own, *one, seat, lock)?;
    }
    Ok(own)
}

/// The references to a lock, by rising seat and then by rising tag.
fn holders_of(alloc: Global, seats: &[SeatState], lock: usize) -> Result<Vec<Holder>, AllocError>
    ensures { IfOk result (λ holders.
        holders.items ≡ spec.holders_below seats.now lock (length seats.now)) }
{
    let mut holders = Vec::new(alloc);
    for seat in 0..seats.len() {
        let mut own = holds_of(alloc, seats[seat].held(), seat, lock)?;
        holders.append(&mut own)?;
    }
    Ok(holders)
}

/// The remove locks at the end.
fn locks_of(alloc: Global, words: &[u64], seats: &[SeatState]) -> Result<Vec<LockEnd>, AllocError>
    ensures { IfOk result (λ locks.
        locks.items ≡ spec.locks_below words.now seats.now (length words.now)) }
{
    let mut locks = Vec::new(alloc);
    for lock in 0..words.len() {
        let holders = Row::from_vec(holders_of(alloc, seats, lock)?);
        let word = words[lock];
        locks.push(LockEnd { word, holders })?;
    }
    Ok(locks)
}

/// The cancel slots at the end.
fn slots_of(alloc: Global, slots: &[Slot]) -> Result<Vec<SlotEnd>, AllocError>
    ensures { IfOk result (λ ends. ends.items ≡ map spec.slot_end slots.now) }
{
    let mut ends = Vec::new(alloc);
    for slot in slots {
        let (flag, content) = (slot.flag, slot.content);
        ends.push(SlotEnd { flag, content })?;
    }
    Ok(ends)
}

/// What each seat was told.
fn replies_of(alloc: Global, seats: &[SeatState]) -> Result<Vec<Replies>, AllocError>
    ensures { IfOk result (λ replies. replies.items ≡ map spec.replies_of seats.now) }
{
    let mut replies = Vec::new(alloc);
    for seat in seats {
        let told = Row::from_vec(seat.told().to_vec(alloc)?);
        replies.push(Replies { told })?;
    }
    Ok(replies)
}

/// What is told of the end of a script that stands so: of the packets, those whose slot is below the number of the next
/// use. No theorem says that each live packet's is; tests have met no other.
pub fn end_of(alloc: Global, standing: &Standing) -> Result<End, AllocError>
    ensures { IfOk result (λ end. end ≡ spec.end_of standing.now) }
{
    let manager = standing.manager();
    let packets = packets_below(alloc, manager, manager.next_use())?;
    let (words, seats) = (standing.words(), standing.seats());
    Ok(End {
        replies: Row::from_vec(replies_of(alloc, seats)?),
        packets: Row::from_vec(packets),
        devices: Row::from_vec(devices_of(alloc, manager.stacks())?),
        labels: Row::from_vec(standing.labels().to_vec(alloc)?),
        locks: Row::from_vec(locks_of(alloc, words, seats)?),
        slots: Row::from_vec(slots_of(alloc, standing.slots())?),
    })
}
