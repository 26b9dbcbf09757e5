//! Whether two managers, or parts of them, are equal. Source: this project's own rule.

ghost use Rattle.std.specs.Prelude.{◌≡◌, ◌<◌, true, length, IfOk};
ghost use mathlib.Core.Logic.{◌↔◌};
ghost use Rattle.std.specs.Option.{option_copied};
ghost use Rattle.irp_manager.specs.Slots.{live_of};
ghost use Rattle.irp_manager.specs.ManagerStates.{state_of};
ghost use Rattle.irp_plain.specs.Alike.{IsAlike, IsSameBlock, IsSameUse};

use crate::keep::PlainKeep;
use irp_manager::{Keep, Live, ManagerState};
use irp_packet::Packet;
use irp_stack::Stacks;
use irp_types::{DeviceId, Location};
use std::alloc::AllocError;

/// Whether a device that was created in both has the same facts, and stands at the same place between the same
/// neighbours.
fn is_same_device(one: &Stacks, other: &Stacks, device: DeviceId) -> bool
    requires in_one { device.0 < length one.now.devices.facts }
    requires in_other { device.0 < length other.now.devices.facts }
    ensures { (result ≡ true) ↔ IsAlike one.now.devices other.now.devices device.0 }
{
    one.facts(device) == other.facts(device)
        && one.height(device) == other.height(device)
        && one.stack_size(device) == other.stack_size(device)
        && one.lower(device) == other.lower(device)
        && one.upper(device) == other.upper(device)
}

/// Whether two sets of stacks have equal devices, each in an equal stack. Their limits aren't compared (this project's
/// own rule).
fn are_same_stacks(one: &Stacks, other: &Stacks) -> bool
    ensures { (result ≡ true) ↔ (one.now.devices ≡ other.now.devices) }
{
    one.are_stacks();
    other.are_stacks();
    if one.len() != other.len() {
        return false;
    }
    for number in 0..one.len() {
        if !is_same_device(one, other, DeviceId(number)) {
            return false;
        }
    }
    true
}

/// Whether two locations are equal.
pub(crate) fn is_same_location(one: Location, other: Location) -> bool
    ensures { (result ≡ true) ↔ (one ≡ other) }
{
    one == other
}

/// Whether the locations of two packets are equal.
fn are_same_locations(one: &Packet, other: &Packet) -> bool
    ensures { (result ≡ true) ↔ (one.now.locations ≡ other.now.locations) }
{
    if one.size() != other.size() {
        return false;
    }
    for below in 0..one.size() {
        if !is_same_location(one.location_at(below + 1), other.location_at(below + 1)) {
            return false;
        }
    }
    true
}

/// Whether two packets have the same status block and the same cancel routine and flags.
fn is_same_block(one: &Packet, other: &Packet) -> bool
    ensures { (result ≡ true) ↔ IsSameBlock one.now other.now }
{
    one.status() == other.status()
        && one.information() == other.information()
        && one.pending_returned() == other.pending_returned()
        && one.cancel() == other.cancel()
        && one.cancel_routine() == other.cancel_routine()
}

/// Whether two packets stand at the same location, with the same owner and preparation, and both in a cancel slot or
/// neither.
fn is_same_use(one: &Packet, other: &Packet) -> bool
    ensures { (result ≡ true) ↔ IsSameUse one.now other.now }
{
    one.current() == other.current()
        && one.owner() == other.owner()
        && one.preparation() == other.preparation()
        && one.slot_held() == other.slot_held()
}

/// Whether two packets are equal: locations, status block, flags, owner and preparation.
fn is_same_packet(one: &Packet, other: &Packet) -> bool
    ensures { (result ≡ true) ↔ (one.now ≡ other.now) }
{
    is_same_use(one, other) && is_same_block(one, other) && are_same_locations(one, other)
}

/// Whether what two slots have is equal: a packet and the number of its use, or nothing.
fn is_same_live(one: Option<&Live>, other: Option<&Live>) -> bool
    ensures { (result ≡ true) ↔ (option_copied one.entry ≡ option_copied other.entry) }
{
    match (one, other) {
        (None, None) => true,
        (Some(one), Some(other)) => {
            one.use_no == other.use_no && is_same_packet(&one.packet, &other.packet)
        }
        _ => false,
    }
}

/// Whether two keeps have equal packets under equal use numbers in the same slots. Vacant places at the end don't
/// count.
fn is_same_keep(one: &PlainKeep, other: &PlainKeep) -> bool
    ensures { (result ≡ true) ↔ (live_of one.now ≡ live_of other.now) }
{
    for slot in 0..one.places().max(other.places()) {
        if !is_same_live(one.get(slot), other.get(slot)) {
            return false;
        }
    }
    true
}

/// Whether two managers are in the same state: equal packets in the same slots, equal devices and stacks, and the same
/// next use number. Locks and limits, which no call changes, aren't compared.
pub fn is_same_manager(one: &ManagerState<PlainKeep>, other: &ManagerState<PlainKeep>) -> bool
    ensures { (result ≡ true) ↔ (state_of live_of one.now ≡ state_of live_of other.now) }
{
    one.next_use() == other.next_use()
        && are_same_stacks(one.stacks(), other.stacks())
        && is_same_keep(one.keep(), other.keep())
}

/// A copy of a manager.
///
/// # Errors
///
/// `AllocError` where memory runs out.
pub fn copy_of_manager(
    manager: &ManagerState<PlainKeep>,
) -> Result<ManagerState<PlainKeep>, AllocError>
    ensures { IfOk result (λ copy. copy ≡ manager.now) }
{
    manager.clone()
}
