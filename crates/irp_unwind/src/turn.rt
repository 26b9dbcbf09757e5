//! One location of an unwinding.

ghost use Rattle.std.specs.Prelude.{◌≡◌, ◌+◌, ◌<◌, ◌≤◌, ◌++◌, ◌∷◌, [], true, vec_len, vec_capacity};
ghost use Rattle.irp_types.specs.Rules.{is_known};
ghost use Rattle.irp_types.specs.Packet.{size_of};
ghost use Rattle.irp_types.specs.Unwinding.{meets_flags, device_above};
ghost use Rattle.irp_types.specs.declared.asked.Asked.TheVariants.{Completion};
ghost use Rattle.irp_unwind.specs.Conditions.{HasRoutines};
ghost use Rattle.irp_unwind.specs.Turns.{shown_now, unasked, IsConsulted, IsMark, left_packet};

use irp_packet::Packet;
use irp_routines::Ask;
use irp_types::{Answer, Asked, DeviceId, IrpRef, Setting, Shown, Status};

/// Whether a status, or the cancel flag, meets the flags of a setting.
#[inline]
fn meets_flags(setting: Setting, cancel: bool, status: Status) -> bool
    ensures { result ≡ meets_flags setting cancel status }
{
    let success = status.is_success();
    (success && setting.on_success)
        || (!success && setting.on_error)
        || (cancel && setting.on_cancel)
}

/// The device of the next higher location, none at the top.
#[inline]
pub(crate) fn device_above(packet: &Packet, number: u32) -> Option<DeviceId>
    requires some { 1 ≤ number }
    requires within { number ≤ size_of packet.now }
    ensures { result ≡ device_above packet.now number }
{
    if number < packet.size() {
        packet.location_at(number + 1).device
    } else {
        None
    }
}

/// What the routine of the current location is shown.
#[inline]
fn shown_now(packet: &Packet, irp: IrpRef, setting: Setting) -> Shown
    requires { packet.now.current ≤ size_of packet.now }
    ensures { result ≡ shown_now irp packet.now setting }
{
    let number = packet.current();
    let here = packet.location_at(number);
    Shown {
        device: device_above(packet, number),
        irp,
        major: here.major,
        location: number,
        word: here.word,
        status: packet.status(),
        information: packet.information(),
        pending_returned: here.pending,
        cancel: packet.cancel(),
        context: setting.context,
        has_lower: false,
    }
}

/// The answer that stands for a routine's where nobody is asked: it continues, and the pending bit goes on.
#[inline]
fn unasked(packet: &Packet) -> Answer
    requires { packet.now.current ≤ size_of packet.now }
    ensures { result ≡ unasked packet.now }
{
    let number = packet.current();
    Answer {
        keep: false,
        mark: packet.location_at(number).pending && device_above(packet, number).is_some(),
        replacement: None,
    }
}

/// Asks a completion routine, and puts the question behind the others.
#[inline]
fn ask_routine<A: Ask>(ask: &A, setting: Setting, shown: Shown, asked: &mut Vec<Asked>) -> Answer
    requires known { is_known (A.tables ask.now).counts setting ≡ true }
    requires room { vec_len asked.old < vec_capacity asked.old }
    ensures given { A.may_answer ask.now setting.routine shown result }
    ensures listed { asked.new.items ≡ asked.old.items
        ++ Completion setting.routine shown result ∷ [] }
    ensures capacity { vec_capacity asked.new ≡ vec_capacity asked.old }
{
    let id = setting.routine;
    let answer = ask.answer(id, shown);
    asked.push_reserved(Asked::Completion { id, shown, answer });
    answer
}

/// Asks the routine of the current location if there is one and its flags are met, and answers how to go on.
#[inline]
pub(crate) fn consult<A: Ask>(
    packet: &Packet,
    irp: IrpRef,
    ask: &A,
    asked: &mut Vec<Asked>,
) -> Answer
    requires placed { packet.now.current ≤ size_of packet.now }
    requires routines { HasRoutines (A.tables ask.now).counts packet.now packet.now.current }
    requires room { vec_len asked.old < vec_capacity asked.old }
    ensures consulted { IsConsulted (A.may_answer ask.now) irp packet.now asked.old.items
        asked.new.items result }
    ensures mark { IsMark packet.now result }
    ensures length { vec_len asked.new ≤ vec_len asked.old + 1 }
    ensures capacity { vec_capacity asked.new ≡ vec_capacity asked.old }
{
    if let Some(setting) = packet.location_at(packet.current()).setting {
        let status = packet.status();
        if meets_flags(setting, packet.cancel(), status) {
            let shown = shown_now(packet, irp, setting);
            return ask_routine(ask, setting, shown, asked);
        }
    }
    unasked(packet)
}

/// Leaves the current location: PendingReturned becomes its pending bit, the answer's replacement is taken, the
/// location is cleared, the packet rises to the next higher one, and the mark goes there.
#[inline]
pub(crate) fn leave(packet: &mut Packet, answer: Answer)
    requires placed { packet.old.current ≤ size_of packet.old }
    requires above { answer.mark ≡ true → packet.old.current < size_of packet.old }
    ensures { packet.new ≡ left_packet packet.old answer }
{
    let number = packet.current();
    packet.set_returned(packet.location_at(number).pending);
    if let Some(replacement) = answer.replacement {
        packet.set_status(replacement.status, replacement.information);
    }
    packet.clear(number);
    packet.rise();
    if answer.mark {
        packet.mark(number + 1);
    }
}
