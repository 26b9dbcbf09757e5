//! A packet on its way up.

ghost use Rattle.std.specs.Prelude.{◌≡◌, ◌+◌, ◌≤◌, None, false, vec_len, vec_capacity};
ghost use Rattle.irp_types.specs.Packet.{size_of};
ghost use Rattle.irp_types.specs.Standing.{IsSound};
ghost use Rattle.irp_types.specs.Unwinding.{owner_from};
ghost use Rattle.irp_unwind.specs.Conditions.{HasDevices, HasRoutines};
ghost use Rattle.irp_unwind.specs.Turns.{IsBare, bared};
ghost use Rattle.irp_unwind.specs.Endings.{can_ask_up, Unwinds};

use crate::ending::Ending;
use crate::turn::{consult, device_above, leave};
use irp_packet::Packet;
use irp_routines::Ask;
use irp_types::{Asked, DeviceId, IrpRef, Owner};

/// Clears the locations below the current one.
#[inline]
fn clear_below(packet: &mut Packet)
    requires { packet.old.current ≤ size_of packet.old }
    ensures bared { packet.new ≡ bared packet.old }
    ensures bare { IsBare packet.new }
{
    for number in 1..packet.current() {
        packet.clear(number);
    }
}

/// The owner of a packet that was kept: this device, or the originator where there is none.
#[inline]
fn owner_from(above: Option<DeviceId>) -> Owner
    ensures { result ≡ owner_from above }
{
    match above {
        Some(device) => Owner::Device(device),
        None => Owner::Originator,
    }
}

/// Unwinds a packet, below whose current location all is cleared: one location after another, until a routine keeps it
/// or it stands above the highest.
fn unwind_from<A: Ask>(packet: &mut Packet, irp: IrpRef, ask: &A, asked: &mut Vec<Asked>) -> Ending
    requires bare { IsBare packet.old }
    requires placed { packet.old.current ≤ size_of packet.old }
    requires devices { HasDevices packet.old (packet.old.current + 1) }
    requires routines { HasRoutines (A.tables ask.now).counts packet.old packet.old.current }
    requires room { vec_len asked.old + can_ask_up packet.old ≤ vec_capacity asked.old }
    ensures unwinds { Unwinds (A.may_answer ask.now) irp packet.old packet.new asked.old.items
        asked.new.items result }
    ensures capacity { vec_capacity asked.new ≡ vec_capacity asked.old }
{
    loop {
        let number = packet.current();
        let above = device_above(packet, number);
        let answer = consult(packet, irp, ask, asked);
        leave(packet, answer);
        let kept = answer.keep;
        if kept {
            let owner = owner_from(above);
            packet.set_owner(owner);
            return Ending::Kept(owner);
        }
        if number == packet.size() {
            packet.set_owner(Owner::Ended);
            return Ending::Ended;
        }
    }
}

/// Unwinds a packet from its current location up, and answers how that ended.
///
/// At each location PendingReturned becomes the pending bit, and the completion routine is asked if one is set and a
/// flag is met: on success or on error by the status in force, on cancel by the cancel flag. It is shown the device of
/// the next higher location, none at the top. Its answer may replace the status and information, which the locations
/// above see then, and may keep the packet: the packet stands in the next higher location then, and belongs to that
/// location's device, or to the originator at the top. Where nobody keeps it, it has ended and stands above its highest
/// location. Where the packet is not kept, a pending bit goes on to the next higher location, also if nobody was asked.
/// Each location that is left, and each below the current one, is cleared, and the packet is not prepared then (WDK:
/// "IoCompleteRequest", "Implementing an IoCompletion Routine"; the clearing, the passing on of a pending bit where
/// nobody is asked, and the test of flags against a replaced status are this project's own rules).
///
/// `irp` is the packet's own reference, which the routines are shown. What is asked goes behind the other questions in
/// `asked`, into room that is there: it takes no memory of its own; a closure may. The packet stands in a location, each
/// location above it has a device, and each routine from there up is there. There is room for one question for each
/// location from the current one up. A packet without a cancel routine, which stands in no cancel slot, keeps the
/// standing facts.
#[inline]
pub fn unwind<A: Ask>(packet: &mut Packet, irp: IrpRef, ask: &A, asked: &mut Vec<Asked>) -> Ending
    requires placed { packet.old.current ≤ size_of packet.old }
    requires devices { HasDevices packet.old (packet.old.current + 1) }
    requires routines { HasRoutines (A.tables ask.now).counts packet.old packet.old.current }
    requires room { vec_len asked.old + can_ask_up packet.old ≤ vec_capacity asked.old }
    ensures unwinds { Unwinds (A.may_answer ask.now) irp packet.old packet.new asked.old.items
        asked.new.items result }
    ensures sound { packet.old.cancel_routine ≡ None → packet.old.slot_held ≡ false
        → IsSound (A.tables ask.now).counts packet.old
        → IsSound (A.tables ask.now).counts packet.new }
    ensures capacity { vec_capacity asked.new ≡ vec_capacity asked.old }
{
    clear_below(packet);
    unwind_from(packet, irp, ask, asked)
}
