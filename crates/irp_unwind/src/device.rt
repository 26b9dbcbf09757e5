//! One device of a descent.

ghost use Rattle.std.specs.Prelude.{◌≡◌, ◌+◌, ◌<◌, ◌≤◌, true, false, is_some, Some, length, vec_len, vec_capacity};
ghost use Rattle.std.specs.Option.{option_map_or};
ghost use Rattle.irp_types.specs.Packet.{size_of};
ghost use Rattle.irp_types.specs.Stacks.{facts_of, lower_of};
ghost use Rattle.irp_types.specs.Descent.{is_passing, is_copying, marks_location, final_status};
ghost use Rattle.irp_routines.specs.Answers.{IsAnswered};
ghost use Rattle.irp_unwind.specs.Conditions.{HasDevices, HasRoutines};
ghost use Rattle.irp_types.specs.Status.{pending};
ghost use Rattle.irp_types.specs.declared.location.Owner.TheVariants.{Device as HeldBy};
ghost use Rattle.irp_unwind.specs.declared.ending.Ending.TheVariants.{Held};
ghost use Rattle.irp_unwind.specs.Endings.{can_ask_up};
ghost use Rattle.irp_unwind.specs.Devices.{frame_at, shown_here, marked_here, passed_on, IsPlannedHere, EndsHere};

use crate::ending::{Ending, Sent};
use crate::unwinding::unwind;
use irp_packet::Packet;
use irp_routines::Ask;
use irp_stack::Stacks;
use irp_types::{Asked, CancelId, DeviceId, DriverId, IrpRef, Owner, Plan, Shown, Status};

/// Whether a plan passes the packet down.
#[inline]
pub(crate) fn is_passing(plan: Option<Plan>) -> bool
    ensures { result ≡ option_map_or is_passing plan false }
{
    matches!(
        plan,
        Some(Plan::Skip | Plan::Forward { .. } | Plan::ForwardPend { .. })
    )
}

/// Whether a plan marks its location pending.
#[inline]
pub(crate) fn marks_location(plan: Option<Plan>) -> bool
    ensures { result ≡ option_map_or marks_location plan false }
{
    matches!(
        plan,
        Some(Plan::Hold { .. } | Plan::HoldSlot | Plan::ForwardPend { .. })
    )
}

/// What the dispatch of a device is shown in the current location.
#[inline]
fn shown_here(packet: &Packet, irp: IrpRef, stacks: &Stacks, device: DeviceId) -> Shown
    requires { packet.now.current ≤ size_of packet.now }
    ensures { result ≡ shown_here irp packet.now stacks.now.devices device.0 }
{
    let number = packet.current();
    let here = packet.location_at(number);
    Shown {
        device: Some(device),
        irp,
        major: here.major,
        location: number,
        word: here.word,
        status: packet.status(),
        information: packet.information(),
        pending_returned: false,
        cancel: packet.cancel(),
        context: 0,
        has_lower: stacks.lower(device).is_some(),
    }
}

/// The driver of a device that was created.
#[inline]
fn driver_of(stacks: &Stacks, device: DeviceId) -> DriverId
    requires { device.0 < length stacks.now.devices.facts }
    ensures { result ≡ (facts_of stacks.now.devices device.0).driver }
{
    match stacks.facts(device) {
        Some(facts) => facts.driver,
        None => DriverId(0),
    }
}

/// Asks the dispatch of a device's driver for the major function code of the current location, if the driver has one.
#[inline]
pub(crate) fn ask_plan<A: Ask>(
    packet: &Packet,
    irp: IrpRef,
    stacks: &Stacks,
    ask: &A,
    device: DeviceId,
    asked: &mut Vec<Asked>,
) -> Option<Plan>
    requires placed { packet.now.current ≤ size_of packet.now }
    requires created { device.0 < length stacks.now.devices.facts }
    requires room { vec_len asked.old < vec_capacity asked.old }
    ensures planned { IsPlannedHere
        (IsAnswered (A.may_plan ask.now) (A.may_answer ask.now) (A.may_cancel ask.now))
        (A.tables ask.now) irp stacks.now.devices packet.now (frame_at packet.now device.0 result)
        asked.old.items asked.new.items }
    ensures length { vec_len asked.new ≤ vec_len asked.old + 1 }
    ensures capacity { vec_capacity asked.new ≡ vec_capacity asked.old }
{
    let shown = shown_here(packet, irp, stacks, device);
    let id = ask.dispatch_of(driver_of(stacks, device), shown.major)?;
    let plan = ask.plan(id, shown);
    asked.push_reserved(Asked::Dispatch { id, shown, plan });
    Some(plan)
}

/// The device below, which is there.
#[inline]
pub(crate) fn device_below(stacks: &Stacks, device: DeviceId) -> DeviceId
    requires { is_some (lower_of stacks.now.devices device.0) ≡ true }
    ensures { lower_of stacks.now.devices device.0 ≡ Some result.0 }
{
    match stacks.lower(device) {
        Some(lower) => lower,
        None => device,
    }
}

/// Leaves the current location for the next lower device, as a plan says.
#[inline]
pub(crate) fn pass_on(packet: &mut Packet, plan: Option<Plan>)
    requires placed { packet.old.current ≤ size_of packet.old }
    requires lower { option_map_or is_copying plan false ≡ true → 1 < packet.old.current }
    ensures { packet.new ≡ passed_on packet.old plan }
{
    match plan {
        Some(Plan::Skip) => packet.rise(),
        Some(Plan::Forward { set }) => packet.copy(set),
        Some(Plan::ForwardPend { set }) => {
            let number = packet.current();
            packet.mark(number);
            packet.copy(set);
        }
        Some(Plan::Finish { .. } | Plan::Hold { .. } | Plan::HoldSlot) | None => {}
    }
}

/// The device marks the current location and owns the packet, with this cancel routine or none.
#[inline]
fn hold(packet: &mut Packet, device: DeviceId, cancel: Option<CancelId>) -> Sent
    requires { packet.old.current ≤ size_of packet.old }
    ensures held { packet.new
        ≡ record (marked_here packet.old) { owner = HeldBy device; cancel_routine = cancel } }
    ensures status { result.status ≡ pending }
    ensures ending { result.ending ≡ Held device }
{
    let held_at = packet.current();
    packet.mark(held_at);
    packet.set_owner(Owner::Device(device));
    packet.set_cancel(packet.cancel(), cancel);
    Sent {
        status: Status::PENDING,
        ending: Ending::Held(device),
    }
}

/// Ends a descent at a device whose plan doesn't pass the packet down: the device holds it, or it is finished and
/// unwound, as an invalid request where there is no plan.
#[inline]
pub(crate) fn end_at<A: Ask>(
    packet: &mut Packet,
    irp: IrpRef,
    ask: &A,
    device: DeviceId,
    plan: Option<Plan>,
    asked: &mut Vec<Asked>,
) -> Sent
    requires placed { packet.old.current ≤ size_of packet.old }
    requires devices { HasDevices packet.old (packet.old.current + 1) }
    requires routines { HasRoutines (A.tables ask.now).counts packet.old packet.old.current }
    requires room { vec_len asked.old + can_ask_up packet.old ≤ vec_capacity asked.old }
    requires stops { option_map_or is_passing plan false ≡ false }
    ensures ends { EndsHere (A.may_answer ask.now) irp packet.old device.0 plan packet.new
        asked.old.items asked.new.items result.ending }
    ensures status { result.status ≡ final_status plan }
    ensures capacity { vec_capacity asked.new ≡ vec_capacity asked.old }
{
    let (status, information) = match plan {
        Some(Plan::Hold { cancel }) => {
            return hold(packet, device, cancel);
        }
        Some(Plan::HoldSlot) => {
            let held = hold(packet, device, None);
            packet.set_slot_held(true);
            return held;
        }
        Some(
            Plan::Finish {
                status,
                information,
            },
        ) => (status, information),
        _ => (Status::INVALID_DEVICE_REQUEST, 0),
    };
    packet.set_status(status, information);
    let ending = unwind(packet, irp, ask, asked);
    Sent { status, ending }
}
