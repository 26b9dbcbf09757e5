//! A packet on its way down.

ghost use Rattle.std.specs.Prelude.{◌≡◌, ◌+◌, ◌-◌, ◌<◌, ◌≤◌, None, false, if◌then◌else◌, length, vec_len, vec_capacity};
ghost use Rattle.irp_types.specs.Packet.{size_of, is_nothing};
ghost use Rattle.irp_types.specs.Status.{pending};
ghost use Rattle.irp_types.specs.Stacks.{AreStacks, stack_size_of};
ghost use Rattle.irp_types.specs.Descent.{StaysUp};
ghost use Rattle.irp_types.specs.Standing.{IsSound};
ghost use Rattle.irp_routines.specs.Answers.{IsAnswered};
ghost use Rattle.irp_unwind.specs.Conditions.{HasDevices, HasRoutines};
ghost use Rattle.irp_unwind.specs.Descents.{Descends, can_ask_down};

use crate::device::{ask_plan, device_below, end_at, is_passing, marks_location, pass_on};
use crate::ending::Sent;
use irp_packet::Packet;
use irp_routines::Ask;
use irp_stack::Stacks;
use irp_types::{Asked, DeviceId, IrpRef, Status};

/// What the sender gets of what became of the packet further down: PENDING in place of the status where a device above
/// marked its location.
#[inline]
fn reply_above(is_marked: bool, sent: Sent) -> Sent
    ensures { result ≡ record sent { status = if is_marked then pending else sent.status } }
{
    if is_marked {
        return Sent {
            status: Status::PENDING,
            ..sent
        };
    }
    sent
}

/// Sends a packet to a device, in stacks that are in order: to this device, and then to those below, until one keeps it
/// or finishes it.
fn descend_from<A: Ask>(
    packet: &mut Packet,
    irp: IrpRef,
    stacks: &Stacks,
    ask: &A,
    target: DeviceId,
    asked: &mut Vec<Asked>,
) -> Sent
    requires stacked { AreStacks stacks.now.devices }
    requires created { target.0 < length stacks.now.devices.facts }
    requires deep { stack_size_of stacks.now.devices target.0 < packet.old.current }
    requires within { packet.old.current ≤ size_of packet.old + 1 }
    requires placed { HasDevices packet.old packet.old.current }
    requires routines { HasRoutines (A.tables ask.now).counts packet.old (packet.old.current - 1) }
    requires room { vec_len asked.old + can_ask_down stacks.now.devices packet.old target.0
        ≤ vec_capacity asked.old }
    ensures descends { Descends
        (IsAnswered (A.may_plan ask.now) (A.may_answer ask.now) (A.may_cancel ask.now))
        (A.tables ask.now) irp stacks.now.devices packet.old target.0 packet.new asked.old.items
        asked.new.items result }
    ensures capacity { vec_capacity asked.new ≡ vec_capacity asked.old }
{
    let mut device = target;
    let mut is_marked = false;
    loop {
        packet.enter(device);
        let plan = ask_plan(packet, irp, stacks, ask, device, asked);
        if !is_passing(plan) {
            let sent = end_at(packet, irp, ask, device, plan, asked);
            return reply_above(is_marked, sent);
        }
        pass_on(packet, plan);
        is_marked = is_marked || marks_location(plan);
        device = device_below(stacks, device);
    }
}

/// Sends a packet to a device, and answers the status that the sender gets, and how it ended.
///
/// The device is entered in the next lower location, and the dispatch of its driver for the major function code there
/// is asked what it plans. Finish: the packet gets the status and information, and is unwound. Hold: the device marks
/// its location pending and owns the packet, with the cancel routine if one is given. HoldSlot: the same without one,
/// and the packet stands in a cancel slot. Skip: the next lower device is entered in the same location. Forward: the
/// location is copied to the next lower one, which gets the completion routine if one is given, and the next lower
/// device is entered there. ForwardPend: the same, after the device marked its own location. A driver without a
/// dispatch for the major function code finishes the packet with INVALID_DEVICE_REQUEST and information 0. The sender
/// gets PENDING where one of these plans is Hold, HoldSlot or ForwardPend, else the status of the finish. A packet
/// whose sender gets another status stands no lower than before (WDK: "IoCallDriver", "IoSkipCurrentIrpStackLocation",
/// "IoCopyCurrentIrpStackLocationToNext", "IoMarkIrpPending"; the plans, and the information 0 of an unhandled major
/// function code, are this project's own rules).
///
/// `irp` is the packet's own reference, which the closures are shown. What is asked goes behind the other questions in
/// `asked`, into room that is there: it takes no memory of its own; a closure may. The device was created, the packet has
/// a location for each device from there down, each location in use has a device, and from the prepared one up each
/// routine is there. There is room for one question to each device from the target down, and one to each location that
/// the packet may come to: those from the lowest that it can reach. A prepared packet without a cancel routine keeps
/// the standing facts.
#[inline]
pub fn descend<A: Ask>(
    packet: &mut Packet,
    irp: IrpRef,
    stacks: &Stacks,
    ask: &A,
    target: DeviceId,
    asked: &mut Vec<Asked>,
) -> Sent
    requires created { target.0 < length stacks.now.devices.facts }
    requires deep { stack_size_of stacks.now.devices target.0 < packet.old.current }
    requires placed { HasDevices packet.old packet.old.current }
    requires routines { HasRoutines (A.tables ask.now).counts packet.old (packet.old.current - 1) }
    requires room { vec_len asked.old + can_ask_down stacks.now.devices packet.old target.0
        ≤ vec_capacity asked.old }
    ensures descends { Descends
        (IsAnswered (A.may_plan ask.now) (A.may_answer ask.now) (A.may_cancel ask.now))
        (A.tables ask.now) irp stacks.now.devices packet.old target.0 packet.new asked.old.items
        asked.new.items result }
    ensures capacity { vec_capacity asked.new ≡ vec_capacity asked.old }
    ensures stays { StaysUp packet.old packet.new result.status }
    ensures sound { packet.old.cancel_routine ≡ None → is_nothing packet.old.preparation ≡ false
        → IsSound (A.tables ask.now).counts packet.old
        → IsSound (A.tables ask.now).counts packet.new }
{
    // the two tell that the stacks are in order, and that `current` is at most one above the size
    stacks.are_stacks();
    let _current = packet.current();
    descend_from(packet, irp, stacks, ask, target, asked)
}
