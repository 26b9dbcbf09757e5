//! The cancellation of one live packet.

ghost use Rattle.std.specs.Prelude.{◌≡◌, ◌+◌, ◌≤◌, false, None, Some, [], ◌∷◌, vec_capacity, vec_len};
ghost use Rattle.irp_types.specs.Checks.{first_failing, or_else};
ghost use Rattle.irp_types.specs.Packet.{size_of};
ghost use Rattle.irp_types.specs.Refusals.{ended_check};
ghost use Rattle.irp_types.specs.Standing.{IsSound};
ghost use Rattle.irp_types.specs.Steps.{owning_device, shown_to_cancel, Cancels};
ghost use Rattle.irp_routines.specs.Answers.{AreAnswered};
ghost use Rattle.irp_unwind.specs.Endings.{can_ask_up};
ghost use Rattle.irp_manager.specs.Calls.{packet_refusal_in, Goes, Followed, IsCancelled};

use crate::keep::Live;
use crate::packets::packet_refusal;
use irp_packet::Packet;
use irp_routines::Ask;
use irp_types::{Asked, CancelAnswer, DeviceId, IrpRef, Owner, Refusal, Reply, Shown, Status};
use irp_unwind::unwind;

/// Why a packet that ended is not cancelled.
fn ended_refusal(packet: &Packet) -> Option<Refusal>
    ensures { result ≡ first_failing (ended_check packet.now ∷ []) }
{
    if matches!(packet.owner(), Owner::Ended) {
        return Some(Refusal::Ended);
    }
    None
}

/// The device that owns a packet, if one does.
fn owning_device(owner: Owner) -> Option<DeviceId>
    ensures { result ≡ owning_device owner }
{
    match owner {
        Owner::Device(device) => Some(device),
        _ => None,
    }
}

/// What the cancel routine of a packet is shown.
fn shown_to_cancel(packet: &Packet, irp: IrpRef) -> Shown
    requires { packet.now.current ≤ size_of packet.now }
    ensures { result ≡ shown_to_cancel irp packet.now }
{
    let here = packet.location_at(packet.current());
    Shown {
        device: owning_device(packet.owner()),
        irp,
        major: here.major,
        location: packet.current(),
        word: here.word,
        status: packet.status(),
        information: packet.information(),
        pending_returned: false,
        cancel: true,
        context: 0,
        has_lower: false,
    }
}

/// Does what follows a cancel routine's answer. The room is for a question to each location from the current one up.
fn follow<A: Ask>(
    packet: &mut Packet,
    irp: IrpRef,
    ask: &A,
    answer: CancelAnswer,
    asked: &mut Vec<Asked>,
)
    requires sound { IsSound (A.tables ask.now).counts packet.old }
    requires taken { packet.old.cancel_routine ≡ None }
    requires unheld { packet.old.slot_held ≡ false }
    requires placed { packet.old.current ≤ size_of packet.old }
    requires room { vec_len asked.old + can_ask_up packet.old ≤ vec_capacity asked.old }
    ensures capacity { vec_capacity asked.new ≡ vec_capacity asked.old }
    ensures followed { Followed
        (AreAnswered (A.may_plan ask.now) (A.may_answer ask.now) (A.may_cancel ask.now))
        irp packet.old packet.new answer asked.old.items asked.new.items }
    ensures sound { IsSound (A.tables ask.now).counts packet.new }
{
    match answer {
        CancelAnswer::Finish { information } => {
            packet.set_status(Status::CANCELLED, information);
            let _ending = unwind(packet, irp, ask, asked);
        }
        CancelAnswer::Leave => {}
    }
}

/// Sets the cancel flag, takes the cancel routine, and asks it where there is one.
fn cancel_packet<A: Ask>(packet: &mut Packet, irp: IrpRef, ask: &A, asked: &mut Vec<Asked>) -> Reply
    requires sound { IsSound (A.tables ask.now).counts packet.old }
    requires empty { asked.old.items ≡ [] }
    requires room { vec_len asked.old + (1 + can_ask_up packet.old) ≤ vec_capacity asked.old }
    ensures capacity { vec_capacity asked.new ≡ vec_capacity asked.old }
    ensures cancelled { Cancels (A.tables ask.now) irp packet.old packet.old.cancel_routine
        asked.new.items result packet.new }
    ensures may { AreAnswered (A.may_plan ask.now) (A.may_answer ask.now) (A.may_cancel ask.now)
        asked.new.items }
    ensures sound { IsSound (A.tables ask.now).counts packet.new }
{
    let routine = packet.cancel_routine();
    packet.set_cancel(true, None);
    let Some(id) = routine else {
        return Reply::Cancelled(false);
    };
    let shown = shown_to_cancel(packet, irp);
    let answer = ask.cancel_answer(id, shown);
    asked.push_reserved(Asked::Cancel { id, shown, answer });
    follow(packet, irp, ask, answer, asked);
    Reply::Cancelled(true)
}

/// Cancels the packet, where the reference names its use. The room is for a question to its cancel
/// routine, and to each location from the current one up.
pub fn cancel<A: Ask>(live: &mut Live, irp: IrpRef, ask: &A, asked: &mut Vec<Asked>) -> Reply
    requires sound { IsSound (A.tables ask.now).counts live.old.packet }
    requires empty { asked.old.items ≡ [] }
    requires room { vec_len asked.old + (1 + can_ask_up live.old.packet) ≤ vec_capacity asked.old }
    ensures capacity { vec_capacity asked.new ≡ vec_capacity asked.old }
    ensures goes { Goes
        (or_else (packet_refusal_in (Some live.old) irp)
        (first_failing (ended_check live.old.packet ∷ [])))
        (IsCancelled (A.tables ask.now) irp asked.new.items result live.old.packet) live.old
        live.new asked.new.items result }
    ensures may { AreAnswered (A.may_plan ask.now) (A.may_answer ask.now) (A.may_cancel ask.now)
        asked.new.items }
    ensures sound { IsSound (A.tables ask.now).counts live.new.packet }
{
    if let Some(refusal) = packet_refusal(live, irp) {
        return Reply::Refused(refusal);
    }
    if let Some(refusal) = ended_refusal(&live.packet) {
        return Reply::Refused(refusal);
    }
    cancel_packet(&mut live.packet, irp, ask, asked)
}
