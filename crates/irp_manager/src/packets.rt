//! What a call does to one live packet.

ghost use Rattle.std.specs.Prelude.{◌≡◌, ◌+◌, ◌<◌, ◌≤◌, false, true, Option, Some, None, [], length, vec_capacity};
ghost use Rattle.std.specs.Prelude.{vec_len};
ghost use Rattle.irp_types.specs.Checks.{or_else};
ghost use Rattle.irp_types.specs.Packet.{size_of, is_nothing, set_next_refusal, copy_to_next_refusal};
ghost use Rattle.irp_types.specs.Packet.{mark_pending_refusal};
ghost use Rattle.irp_types.specs.Stacks.{stack_size_of};
ghost use Rattle.irp_types.specs.Refusals.{is_owner, is_wrong_target, leave_refusal, routine_refusal, cancel_refusal};
ghost use Rattle.irp_types.specs.Refusals.{send_refusal, complete_refusal, take_refusal};
ghost use Rattle.irp_types.specs.Descent.{StaysUp};
ghost use Rattle.irp_types.specs.Standing.{IsSound};
ghost use Rattle.irp_types.specs.declared.status.Status.{Status};
ghost use Rattle.irp_types.specs.declared.reply.Reply.TheVariants.{Status as StatusIs};
ghost use Rattle.irp_routines.specs.Answers.{AreAnswered};
ghost use Rattle.irp_unwind.specs.Endings.{can_ask_up};
ghost use Rattle.irp_unwind.specs.Descents.{can_ask_down};
ghost use Rattle.irp_manager.specs.Calls.{packet_refusal_in, party_refusal_in, flight_refusal_in, reuse_refusal_in};
ghost use Rattle.irp_manager.specs.Calls.{Renews, Goes, Fills, Copies, Leaves, Sets, Marks, Sends, Finishes, Takes};
ghost use Rattle.irp_manager.specs.Calls.{SetsCancel};

use crate::keep::Live;
use irp_packet::Packet;
use irp_routines::Ask;
use irp_stack::Stacks;
use irp_types::limits::LAST_MAJOR;
use irp_types::{
    Asked, CancelId, DeviceId, IrpRef, Known, Owner, Party, Preparation, Refusal, Reply, Setting,
    Status,
};
use irp_unwind::{descend, unwind};

/// Use numbers are below this.
pub(crate) const USE_LIMIT: u64 = 0x8000_0000_0000_0000;

/// Whether the party is the owner.
#[inline]
pub(crate) fn is_owner(party: Party, owner: Owner) -> bool
    ensures { result ≡ is_owner party owner }
{
    match party {
        Party::Originator => matches!(owner, Owner::Originator),
        Party::Device(device) => match owner {
            Owner::Device(own) => device.0 == own.0,
            _ => false,
        },
    }
}

/// The refusal of a call that names the packet by this reference; none where it names this use.
#[inline]
pub fn packet_refusal(live: &Live, irp: IrpRef) -> Option<Refusal>
    ensures { result ≡ packet_refusal_in (Some live.now) irp }
{
    if live.use_no != irp.use_no {
        return Some(Refusal::Stale);
    }
    None
}

/// The refusal of a call of this party on the packet; none where the party may make calls on it.
#[inline]
pub fn party_refusal(live: &Live, party: Party, irp: IrpRef) -> Option<Refusal>
    ensures refusal { result ≡ party_refusal_in (Some live.now) party irp }
    ensures unheld { result ≡ None → live.now.packet.slot_held ≡ false }
{
    if live.use_no != irp.use_no {
        return Some(Refusal::Stale);
    }
    let owner = live.packet.owner();
    if matches!(owner, Owner::Ended) {
        return Some(Refusal::Ended);
    }
    if !is_owner(party, owner) {
        return Some(Refusal::NotOwner);
    }
    if live.packet.slot_held() {
        return Some(Refusal::SlotHeld);
    }
    None
}

/// Fills the next lower location for the owner.
#[inline]
pub fn set_next(live: &mut Live, major: u8, word: u64) -> Reply
    ensures goes { Goes (set_next_refusal live.old.packet major)
        (Fills major word [] result live.old.packet) live.old live.new [] result }
{
    match live.packet.set_next(major, word) {
        Ok(()) => Reply::Done,
        Err(refusal) => Reply::Refused(refusal),
    }
}

/// Copies the owner's location to the next lower one.
pub fn copy_to_next(live: &mut Live) -> Reply
    ensures goes { Goes (copy_to_next_refusal live.old.packet)
        (Copies [] result live.old.packet) live.old live.new [] result }
{
    match live.packet.copy_to_next() {
        Ok(()) => Reply::Done,
        Err(refusal) => Reply::Refused(refusal),
    }
}

/// The refusal of an owner that has no location of its own to mark or to skip; none where it has one.
#[inline]
pub fn own_location_check(packet: &Packet) -> Option<Refusal>
    ensures { result ≡ mark_pending_refusal packet.now }
{
    let skipped = matches!(packet.preparation(), Preparation::Skipped);
    if packet.current() > packet.size() && !skipped {
        return Some(Refusal::NoLocation);
    }
    if skipped {
        return Some(Refusal::AfterSkip);
    }
    None
}

/// The refusal to fill the next lower location; none where it may be filled.
pub fn next_check(packet: &Packet, major: u8) -> Option<Refusal>
    ensures { result ≡ set_next_refusal packet.now major }
{
    if matches!(packet.preparation(), Preparation::Skipped) {
        return Some(Refusal::AfterSkip);
    }
    if packet.current() <= 1 {
        return Some(Refusal::TooShort);
    }
    if major > LAST_MAJOR {
        return Some(Refusal::BadMajor);
    }
    None
}

/// The refusal to copy the current location to the next lower one; none where it may be copied.
pub fn copy_check(packet: &Packet) -> Option<Refusal>
    ensures { result ≡ copy_to_next_refusal packet.now }
{
    if let Some(refusal) = own_location_check(packet) {
        return Some(refusal);
    }
    if packet.current() <= 1 {
        return Some(Refusal::TooShort);
    }
    None
}

/// The refusal of a skip; none where the owner may skip its location.
pub fn leave_check(packet: &Packet) -> Option<Refusal>
    ensures { result ≡ leave_refusal packet.now }
{
    if let Some(refusal) = own_location_check(packet) {
        return Some(refusal);
    }
    if packet.cancel_routine().is_some() {
        return Some(Refusal::CancelRoutineSet);
    }
    None
}

/// Gives the owner's location to the next lower device.
pub fn skip(live: &mut Live) -> Reply
    ensures goes { Goes (leave_refusal live.old.packet)
        (Leaves [] result live.old.packet) live.old live.new [] result }
{
    if let Some(refusal) = leave_check(&live.packet) {
        return Reply::Refused(refusal);
    }
    match live.packet.skip() {
        Ok(()) => Reply::Done,
        Err(refusal) => Reply::Refused(refusal),
    }
}

/// Marks the owner's location pending.
pub fn mark_pending(live: &mut Live) -> Reply
    ensures goes { Goes (mark_pending_refusal live.old.packet)
        (Marks [] result live.old.packet) live.old live.new [] result }
{
    match live.packet.mark_pending() {
        Ok(()) => Reply::Done,
        Err(refusal) => Reply::Refused(refusal),
    }
}

/// The refusal to set a cancel routine, or to take it out, where so many are there; none where it may be done.
pub fn cancel_check(packet: &Packet, counts: Known, cancel: Option<CancelId>) -> Option<Refusal>
    ensures { result ≡ cancel_refusal counts packet.now cancel }
{
    if let Some(refusal) = own_location_check(packet) {
        return Some(refusal);
    }
    if let Some(routine) = cancel {
        if routine.0 >= counts.cancel {
            return Some(Refusal::NoRoutine);
        }
        if packet.cancel() {
            return Some(Refusal::AlreadyCancelled);
        }
    }
    None
}

/// Puts the owner's cancel routine into the packet, or none, where so many are there.
pub fn set_cancel_routine(live: &mut Live, counts: Known, cancel: Option<CancelId>) -> Reply
    ensures goes { Goes (cancel_refusal counts live.old.packet cancel)
        (SetsCancel cancel [] result live.old.packet) live.old live.new [] result }
{
    if let Some(refusal) = cancel_check(&live.packet, counts, cancel) {
        return Reply::Refused(refusal);
    }
    let previous = live.packet.cancel_routine();
    live.packet.set_cancel(live.packet.cancel(), cancel);
    Reply::Previous(previous)
}

/// The refusal to give the packet of a reference back, or to use it again; none where it may be done.
#[inline]
pub fn flight_refusal(live: &Live, irp: IrpRef) -> Option<Refusal>
    ensures { result ≡ flight_refusal_in live.now irp }
{
    if live.use_no != irp.use_no {
        return Some(Refusal::Stale);
    }
    if matches!(live.packet.owner(), Owner::Device(_)) {
        return Some(Refusal::InFlight);
    }
    None
}

/// Gives the packet another use, of this number, where it may be used again; else it answers the refusal.
#[inline]
pub fn reuse(live: &mut Live, irp: IrpRef, status: Status, use_no: u64) -> Option<Refusal>
    ensures refusal { result ≡ reuse_refusal_in live.old irp use_no }
    ensures renews { Renews result status use_no live.old live.new }
{
    if let Some(refusal) = flight_refusal(live, irp) {
        return Some(refusal);
    }
    if use_no >= USE_LIMIT {
        return Some(Refusal::Full);
    }
    live.packet.reset(status);
    live.use_no = use_no;
    None
}

/// The refusal to set a completion routine where so many are there; none where it may be set.
pub fn routine_check(packet: &Packet, counts: Known, setting: Setting) -> Option<Refusal>
    ensures { result ≡ routine_refusal counts packet.now setting }
{
    match packet.preparation() {
        Preparation::Skipped => Some(Refusal::AfterSkip),
        Preparation::Nothing => Some(Refusal::NotPrepared),
        Preparation::Filled => {
            if counts.has(setting) {
                None
            } else {
                Some(Refusal::NoRoutine)
            }
        }
    }
}

/// Puts the owner's completion routine into the next lower location, where so many are there.
pub fn set_routine(live: &mut Live, counts: Known, setting: Setting) -> Reply
    ensures goes { Goes (routine_refusal counts live.old.packet setting)
        (Sets setting [] result live.old.packet) live.old live.new [] result }
{
    if let Some(refusal) = routine_check(&live.packet, counts, setting) {
        return Reply::Refused(refusal);
    }
    match live.packet.set_routine(setting) {
        Ok(()) => Reply::Done,
        Err(refusal) => Reply::Refused(refusal),
    }
}

/// The refusal to send the packet to a device; none where it may be sent.
#[inline]
pub fn send_check(
    packet: &Packet,
    stacks: &Stacks,
    party: Party,
    target: DeviceId,
) -> Option<Refusal>
    ensures refusal { result ≡ send_refusal stacks.now.devices party packet.now target.0 }
    ensures created { result ≡ None → target.0 < length stacks.now.devices.facts }
    ensures prepared { result ≡ None → is_nothing packet.now.preparation ≡ false }
    ensures deep { result ≡ None → stack_size_of stacks.now.devices target.0 < packet.now.current }
    ensures free { result ≡ None → packet.now.cancel_routine ≡ None }
{
    let Some(facts) = stacks.facts(target) else {
        return Some(Refusal::NoDevice);
    };
    if !facts.live {
        return Some(Refusal::DeviceGone);
    }
    if is_wrong_target(stacks, party, target) {
        return Some(Refusal::WrongTarget);
    }
    if matches!(packet.preparation(), Preparation::Nothing) {
        return Some(Refusal::NotPrepared);
    }
    if packet.current() - 1 < stacks.stack_size(target) {
        return Some(Refusal::TooShort);
    }
    if packet.cancel_routine().is_some() {
        return Some(Refusal::CancelRoutineSet);
    }
    None
}

/// Whether a device sends elsewhere than to the device below it.
#[inline]
fn is_wrong_target(stacks: &Stacks, party: Party, target: DeviceId) -> bool
    ensures { result ≡ is_wrong_target stacks.now.devices party target.0 }
{
    match party {
        Party::Originator => false,
        Party::Device(sender) => match stacks.lower(sender) {
            None => true,
            Some(lower) => lower.0 != target.0,
        },
    }
}

/// Sends the packet to a device for its owner, this party. The room is for a question to each device from there down, and to
/// each location that the packet may come to.
#[inline]
pub fn send<A: Ask>(
    live: &mut Live,
    irp: IrpRef,
    stacks: &Stacks,
    ask: &A,
    party: Party,
    target: DeviceId,
    asked: &mut Vec<Asked>,
) -> Reply
    requires sound { IsSound (A.tables ask.now).counts live.old.packet }
    requires empty { asked.old.items ≡ [] }
    requires unheld { live.old.packet.slot_held ≡ false }
    requires room { vec_len asked.old + can_ask_down stacks.now.devices live.old.packet target.0
        ≤ vec_capacity asked.old }
    ensures capacity { vec_capacity asked.new ≡ vec_capacity asked.old }
    ensures goes { Goes (send_refusal stacks.now.devices party live.old.packet target.0)
        (Sends (A.tables ask.now) irp stacks.now.devices target.0 asked.new.items result
        live.old.packet) live.old live.new asked.new.items result }
    ensures may { AreAnswered (A.may_plan ask.now) (A.may_answer ask.now) (A.may_cancel ask.now)
        asked.new.items }
    ensures stays { (status : Status) → result ≡ StatusIs status
        → StaysUp live.old.packet live.new.packet status }
    ensures sound { IsSound (A.tables ask.now).counts live.new.packet }
{
    if let Some(refusal) = send_check(&live.packet, stacks, party, target) {
        return Reply::Refused(refusal);
    }
    stacks.are_stacks();
    let sent = descend(&mut live.packet, irp, stacks, ask, target, asked);
    Reply::Status(sent.status)
}

/// The refusal to complete the packet; none where it may be completed.
#[inline]
pub fn complete_check(packet: &Packet, status: Status) -> Option<Refusal>
    ensures refusal { result ≡ complete_refusal packet.now status }
    ensures placed { result ≡ None → packet.now.current ≤ size_of packet.now }
    ensures free { result ≡ None → packet.now.cancel_routine ≡ None }
{
    if let Some(refusal) = own_location_check(packet) {
        return Some(refusal);
    }
    if !status.is_completable() {
        return Some(Refusal::BadStatus);
    }
    if packet.cancel_routine().is_some() {
        return Some(Refusal::CancelRoutineSet);
    }
    None
}

/// Completes the packet for its owner. The room is for a question to each location from the current one up.
#[inline]
pub fn complete<A: Ask>(
    live: &mut Live,
    irp: IrpRef,
    ask: &A,
    status: Status,
    information: u64,
    asked: &mut Vec<Asked>,
) -> Reply
    requires sound { IsSound (A.tables ask.now).counts live.old.packet }
    requires empty { asked.old.items ≡ [] }
    requires unheld { live.old.packet.slot_held ≡ false }
    requires room { vec_len asked.old + can_ask_up live.old.packet ≤ vec_capacity asked.old }
    ensures capacity { vec_capacity asked.new ≡ vec_capacity asked.old }
    ensures goes { Goes (complete_refusal live.old.packet status)
        (Finishes irp status information asked.new.items result live.old.packet) live.old live.new
        asked.new.items result }
    ensures may { AreAnswered (A.may_plan ask.now) (A.may_answer ask.now) (A.may_cancel ask.now)
        asked.new.items }
    ensures sound { IsSound (A.tables ask.now).counts live.new.packet }
{
    if let Some(refusal) = complete_check(&live.packet, status) {
        return Reply::Refused(refusal);
    }
    live.packet.set_status(status, information);
    let _ending = unwind(&mut live.packet, irp, ask, asked);
    Reply::Done
}

/// The refusal to complete a packet that was taken from its cancel slot; none where it may be completed.
pub fn take_check(packet: &Packet, use_no: u64, token: u64, status: Status) -> Option<Refusal>
    ensures refusal { result ≡ take_refusal packet.now use_no token status }
    ensures held { result ≡ None → packet.now.slot_held ≡ true }
{
    if token != use_no {
        return Some(Refusal::Stale);
    }
    if matches!(packet.owner(), Owner::Ended) {
        return Some(Refusal::Ended);
    }
    if !packet.slot_held() {
        return Some(Refusal::NotSlotHeld);
    }
    if !status.is_completable() {
        return Some(Refusal::BadStatus);
    }
    None
}

/// Completes the packet, which stands in a cancel slot, for who has the token that was taken from there. The room is
/// for a question to each location from the current one up.
pub fn finish_taken<A: Ask>(
    live: &mut Live,
    irp: IrpRef,
    ask: &A,
    token: u64,
    status: Status,
    information: u64,
    asked: &mut Vec<Asked>,
) -> Reply
    requires sound { IsSound (A.tables ask.now).counts live.old.packet }
    requires empty { asked.old.items ≡ [] }
    requires room { vec_len asked.old + can_ask_up live.old.packet ≤ vec_capacity asked.old }
    ensures capacity { vec_capacity asked.new ≡ vec_capacity asked.old }
    ensures goes { Goes (or_else (packet_refusal_in (Some live.old) irp)
        (take_refusal live.old.packet irp.use_no token status))
        (Takes irp status information asked.new.items result live.old.packet) live.old live.new
        asked.new.items result }
    ensures may { AreAnswered (A.may_plan ask.now) (A.may_answer ask.now) (A.may_cancel ask.now)
        asked.new.items }
    ensures sound { IsSound (A.tables ask.now).counts live.new.packet }
{
    if let Some(refusal) = packet_refusal(live, irp) {
        return Reply::Refused(refusal);
    }
    if let Some(refusal) = take_check(&live.packet, irp.use_no, token, status) {
        return Reply::Refused(refusal);
    }
    live.packet.set_slot_held(false);
    live.packet.set_status(status, information);
    let _ending = unwind(&mut live.packet, irp, ask, asked);
    Reply::Done
}
