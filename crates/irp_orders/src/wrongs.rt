//! What isn't right of an outcome, in lines.

ghost use Rattle.std.specs.Prelude.{◌≡◌};
ghost use Rattle.std.specs.List.{enumerate_from, flat_map};
ghost use Rattle.irp_names.specs.Sinks.{Says};
ghost use Rattle.irp_orders.specs.Wrongs as spec;

use crate::columns::Columns;
use crate::ends::{names, put_holders, reference_of};
use crate::facts::seen_of;
use crate::found::Found;
use crate::right::{is_empty, is_refused, is_released, is_taken, is_without_routine};
use crate::text::tell;
use irp_condition::{Value, told_value, word_of_answer};
use irp_machine::{Answered, LiveEnd, LockEnd, SlotEnd};
use irp_names::{PacketWords, Sink, refusal_name};
use irp_types::{Entry, IrpRef, Owner};

/// The name of a refusal.
fn reason_name(value: Value) -> &'static str
    ensures { result.now ≡ spec.reason_name value }
{
    match value {
        Value::Refused(refusal) => refusal_name(refusal),
        Value::Answer(answer) => word_of_answer(answer),
        _ => "",
    }
}

/// Why a step was refused, as conditions name it.
fn reason_of(answer: Answered) -> &'static str
    ensures { result.now ≡ spec.reason_of answer }
{
    reason_name(told_value(seen_of(answer)))
}

/// The place of the first of these references that names a live packet.
fn place_of(named: &[IrpRef], live: &LiveEnd) -> Option<usize>
    ensures { result ≡ spec.place_of named.now live.now }
{
    named.iter().position(|irp| names(irp, live))
}

/// Puts a live packet, by its first label, else by its slot and use.
fn put_name(out: &mut Sink, labels: &[String], named: &[IrpRef], live: &LiveEnd)
    ensures { Says (spec.packet_name labels.now named.now live.now) out.old out.new }
{
    let label = match place_of(named, live) {
        Some(place) => labels.get(place),
        None => None,
    };
    match label {
        Some(label) => out.put(label.as_str()),
        None => out.show(PacketWords(reference_of(live))),
    }
}

/// Puts why a step was refused, as conditions name it.
fn put_reason(out: &mut Sink, answer: Answered)
    ensures { Says (spec.reason_of answer) out.old out.new }
{
    out.put(reason_of(answer));
}

/// Puts the line of a step that was refused, by its place.
fn put_refusal(out: &mut Sink, place: usize, of: &str, answer: Answered)
    ensures { Says (spec.refusal_line place of.now answer) out.old out.new }
{
    tell(out, "wrong: step ", place);
    out.put(of);
    out.put(" was refused: ");
    put_reason(out, answer);
    out.put("\n");
}

/// Puts the line of a step of setup, if it was refused.
fn put_untaken(out: &mut Sink, place: usize, entry: &Entry)
    ensures { Says (spec.untaken_line (place, entry.now)) out.old out.new }
{
    if !is_taken(entry) {
        put_refusal(out, place, " of setup", Answered::Reply(entry.reply));
    }
}

/// Puts the steps of setup that were refused.
fn put_all_untaken(out: &mut Sink, setup: &[Entry])
    ensures { Says (flat_map spec.untaken_line (enumerate_from 0 setup.now)) out.old out.new }
{
    for (place, entry) in setup.iter().enumerate() {
        put_untaken(out, place, entry);
    }
}

/// Puts the line of a step, if it was refused.
fn put_refused(out: &mut Sink, place: usize, answer: Option<Answered>)
    ensures { Says (spec.refused_line (place, answer)) out.old out.new }
{
    if let Some(answer) = answer
        && is_refused(answer)
    {
        put_refusal(out, place, "", answer);
    }
}

/// Puts the steps that were refused.
fn put_all_refused(out: &mut Sink, answers: &[Option<Answered>])
    ensures { Says (flat_map spec.refused_line (enumerate_from 0 answers.now)) out.old out.new }
{
    for (place, answer) in answers.iter().enumerate() {
        put_refused(out, place, *answer);
    }
}

/// Puts a packet, if a device has it.
#[tactic(auto, using(irp_names::proofs::Saying::says_both))]
fn put_kept(out: &mut Sink, labels: &[String], named: &[IrpRef], live: &LiveEnd)
    ensures { Says (spec.kept_line labels.now named.now live.now) out.old out.new }
{
    if let Owner::Device(device) = live.owner {
        tell(out, "wrong: D", device.0);
        out.put(" has ");
        put_name(out, labels, named, live);
        out.put("\n");
    }
}

/// Puts the packets that devices have.
fn put_all_kept(out: &mut Sink, labels: &[String], named: &[IrpRef], packets: &[LiveEnd])
    ensures { Says (flat_map (spec.kept_line labels.now named.now) packets.now) out.old out.new }
{
    for live in packets {
        put_kept(out, labels, named, live);
    }
}

/// Puts the line of a remove lock that somebody holds.
#[tactic(auto, using(irp_names::proofs::Saying::says_both))]
fn put_held_line(out: &mut Sink, number: usize, lock: &LockEnd)
    ensures { Says (spec.held_by_line number lock.now) out.old out.new }
{
    tell(out, "wrong: remove lock ", number);
    out.put(" is held");
    put_holders(out, ", by seat ", lock);
    out.put("\n");
}

/// Puts a remove lock, if somebody holds it.
fn put_held(out: &mut Sink, number: usize, lock: &LockEnd)
    ensures { Says (spec.held_line (number, lock.now)) out.old out.new }
{
    if !is_released(lock) {
        put_held_line(out, number, lock);
    }
}

/// Puts the remove locks that are held.
fn put_all_held(out: &mut Sink, locks: &[LockEnd])
    ensures { Says (flat_map spec.held_line (enumerate_from 0 locks.now)) out.old out.new }
{
    for (number, lock) in locks.iter().enumerate() {
        put_held(out, number, lock);
    }
}

/// Puts the line of a cancel slot in which this use stands.
#[tactic(auto, using(irp_names::proofs::Saying::says_both))]
fn put_full_line(out: &mut Sink, number: usize, content: u64)
    ensures { Says (spec.content_line number content) out.old out.new }
{
    tell(out, "wrong: cancel slot ", number);
    tell(out, " is full: use ", content);
    out.put(" stands in it\n");
}

/// Puts a cancel slot, if a use stands in it.
fn put_full(out: &mut Sink, number: usize, slot: &SlotEnd)
    ensures { Says (spec.full_line (number, slot.now)) out.old out.new }
{
    if !is_empty(slot) {
        put_full_line(out, number, slot.content);
    }
}

/// Puts the cancel slots that are full.
fn put_all_full(out: &mut Sink, slots: &[SlotEnd])
    ensures { Says (flat_map spec.full_line (enumerate_from 0 slots.now)) out.old out.new }
{
    for (number, slot) in slots.iter().enumerate() {
        put_full(out, number, slot);
    }
}

/// Puts a packet, if it still has a cancel routine.
#[tactic(auto, using(irp_names::proofs::Saying::says_both))]
fn put_left(out: &mut Sink, labels: &[String], named: &[IrpRef], live: &LiveEnd)
    ensures { Says (spec.left_line labels.now named.now live.now) out.old out.new }
{
    if !is_without_routine(live) {
        out.put("wrong: ");
        put_name(out, labels, named, live);
        out.put(" still has a cancel routine\n");
    }
}

/// Puts the packets that still have a cancel routine.
fn put_all_left(out: &mut Sink, labels: &[String], named: &[IrpRef], packets: &[LiveEnd])
    ensures { Says (flat_map (spec.left_line labels.now named.now) packets.now) out.old out.new }
{
    for live in packets {
        put_left(out, labels, named, live);
    }
}

/// Puts a line for each thing that isn't right of an outcome, behind this setup.
pub fn put_wrongs(out: &mut Sink, columns: &Columns<'_>, setup: &[Entry], found: &Found)
    ensures { Says (spec.wrong_lines columns.now.labels.now setup.now found.now) out.old out.new }
{
    let (labels, end) = (columns.labels, &found.outcome.end);
    let (named, packets) = (end.labels.as_slice(), end.packets.as_slice());
    put_all_untaken(out, setup);
    put_all_refused(out, found.answers.as_slice());
    put_all_kept(out, labels, named, packets);
    put_all_held(out, end.locks.as_slice());
    put_all_full(out, end.slots.as_slice());
    put_all_left(out, labels, named, packets);
}
