//! The table of outcomes.

ghost use Rattle.std.specs.Prelude.{◌≡◌, IfErr, IfOk};
ghost use Rattle.std.specs.List.{enumerate_from, flat_map};
ghost use Rattle.irp_machine.specs.Replays.{StopsShort};
ghost use Rattle.irp_machine.specs.declared.limits.NotMade.TheVariants.{NoStep};
ghost use Rattle.irp_names.specs.Sinks.{Says};
ghost use Rattle.irp_orders.specs.Ends as ends;
ghost use Rattle.irp_orders.specs.Rows.{IsSomeStuck};
ghost use Rattle.irp_orders.specs.Table as spec;
ghost use Rattle.irp_orders.specs.Table.{IsTable, PutsRow};

use crate::columns::Columns;
use crate::ends::{names, put_device, put_label, put_lock, put_packet, put_slot};
use crate::found::Found;
use crate::steps::put_differing_in_order;
use crate::text::{put_orders, tell};
use irp_machine::{DeviceEnd, End, LiveEnd, LockEnd, NotMade, SlotEnd};
use irp_names::Sink;
use irp_types::IrpRef;
use std::alloc::Global;

/// Puts tenths of a percent.
#[tactic(auto, using(irp_names::proofs::Saying::says_both))]
fn put_tenths(out: &mut Sink, tenths: u128)
    ensures { Says (spec.tenths_text tenths) out.old out.new }
{
    tell(out, " (", tenths / 10);
    tell(out, ".", tenths % 10);
    out.put(" %)");
}

/// Puts a part of a whole, in tenths of a percent; nothing where the numbers are too large for that.
fn put_share(out: &mut Sink, part: u128, whole: u128)
    ensures { Says (spec.share_text part whole) out.old out.new }
{
    if whole == 0 {
        return;
    }
    if let Some(thousandfold) = part.checked_mul(1000) {
        put_tenths(out, thousandfold / whole);
    }
}

/// Puts how many outcomes are alike.
#[tactic(auto, using(irp_names::proofs::Saying::says_both))]
fn put_alike(out: &mut Sink, joined: usize)
    ensures { Says (spec.alike_text joined) out.old out.new }
{
    tell(out, ", ", joined);
    out.put(" outcomes alike");
}

/// Puts how many outcomes were joined in a row, where there are several.
fn put_joined(out: &mut Sink, joined: usize)
    ensures { Says (spec.joined_text joined) out.old out.new }
{
    if joined > 1 {
        put_alike(out, joined);
    }
}

/// Puts the first line of an outcome, which has this number: how many of so many orders lead to it.
pub fn put_head(out: &mut Sink, whole: u128, number: usize, found: &Found)
    ensures { Says (spec.head_line whole number found.now) out.old out.new }
{
    tell(out, "outcome ", number);
    tell(out, ": ", found.orders);
    out.put(" of ");
    put_orders(out, whole);
    put_share(out, found.orders, whole);
    put_joined(out, found.joined);
    out.put("\n");
}

/// Puts the live packets, where labels stand for these references.
fn put_packets(out: &mut Sink, columns: &Columns<'_>, named: &[IrpRef], packets: &[LiveEnd])
    ensures { Says (flat_map (ends.packet_lines columns.now.facts columns.now.labels.now named.now)
        packets.now) out.old out.new }
{
    for live in packets {
        put_packet(out, columns.facts, columns.labels, named, live);
    }
}

/// Whether a reference names one of these live packets.
fn is_live(packets: &[LiveEnd], irp: &IrpRef) -> bool
    ensures { result ≡ spec.is_live packets.now irp.now }
{
    packets.iter().any(|live| names(irp, live))
}

/// Puts the label at a place, where it stands for another packet in another outcome, and names no live one.
fn put_label_at(out: &mut Sink, columns: &Columns<'_>, end: &End, place: usize, label: &String)
    ensures { Says (spec.label_line columns.now end.now (place, label.now)) out.old out.new }
{
    if let Some(irp) = end.labels.as_slice().get(place)
        && columns.tells_label(place)
        && !is_live(end.packets.as_slice(), irp)
    {
        put_label(out, label.as_str(), *irp);
    }
}

/// Puts those of these labels that stand for other packets in other outcomes, where they name no live one.
fn put_labels(out: &mut Sink, columns: &Columns<'_>, end: &End, labels: &[String])
    ensures { Says (flat_map (spec.label_line columns.now end.now)
        (enumerate_from 0 labels.now)) out.old out.new }
{
    for (place, label) in labels.iter().enumerate() {
        put_label_at(out, columns, end, place, label);
    }
}

/// Puts a device, if other outcomes leave it in another state.
fn put_device_if(out: &mut Sink, columns: &Columns<'_>, number: usize, device: DeviceEnd)
    ensures { Says (spec.told_device_line columns.now (number, device)) out.old out.new }
{
    if columns.tells_device(number) {
        put_device(out, columns.tells_drivers, number, device);
    }
}

/// Puts the devices that other outcomes leave in another state.
fn put_devices(out: &mut Sink, columns: &Columns<'_>, devices: &[DeviceEnd])
    ensures { Says (flat_map (spec.told_device_line columns.now)
        (enumerate_from 0 devices.now)) out.old out.new }
{
    for (number, device) in devices.iter().enumerate() {
        put_device_if(out, columns, number, *device);
    }
}

/// Puts a remove lock, if some order leaves it with a word other than 0.
fn put_lock_if(out: &mut Sink, columns: &Columns<'_>, number: usize, lock: &LockEnd)
    ensures { Says (spec.told_lock_line columns.now (number, lock.now)) out.old out.new }
{
    if columns.tells_lock(number) {
        put_lock(out, number, lock);
    }
}

/// Puts the remove locks that some order leaves with a word other than 0.
fn put_locks(out: &mut Sink, columns: &Columns<'_>, locks: &[LockEnd])
    ensures { Says (flat_map (spec.told_lock_line columns.now)
        (enumerate_from 0 locks.now)) out.old out.new }
{
    for (number, lock) in locks.iter().enumerate() {
        put_lock_if(out, columns, number, lock);
    }
}

/// Puts a cancel slot, if some order leaves it otherwise than empty and not asked for.
fn put_slot_if(out: &mut Sink, columns: &Columns<'_>, number: usize, slot: SlotEnd)
    ensures { Says (spec.told_slot_line columns.now (number, slot)) out.old out.new }
{
    if columns.tells_slot(number) {
        put_slot(out, number, slot);
    }
}

/// Puts the cancel slots that some order leaves otherwise than empty and not asked for.
fn put_slots(out: &mut Sink, columns: &Columns<'_>, slots: &[SlotEnd])
    ensures { Says (flat_map (spec.told_slot_line columns.now)
        (enumerate_from 0 slots.now)) out.old out.new }
{
    for (number, slot) in slots.iter().enumerate() {
        put_slot_if(out, columns, number, *slot);
    }
}

/// Puts what an outcome leaves.
pub fn put_end(out: &mut Sink, columns: &Columns<'_>, end: &End)
    ensures { Says (spec.end_lines columns.now end.now) out.old out.new }
{
    let named = end.labels.as_slice();
    put_packets(out, columns, named, end.packets.as_slice());
    put_labels(out, columns, end, columns.labels);
    put_devices(out, columns, end.devices.as_slice());
    put_locks(out, columns, end.locks.as_slice());
    put_slots(out, columns, end.slots.as_slice());
}

/// Puts the lines of an outcome, which has this number.
///
/// # Errors
///
/// `NoStep` where its order can't be made again; `Memory` where memory ran out.
fn put_row(
    alloc: Global,
    out: &mut Sink,
    columns: &Columns<'_>,
    number: usize,
    row: &Found,
) -> Result<(), NotMade>
    ensures puts { IfOk result (λ done. PutsRow columns.now number row.now out.old out.new) }
    ensures no_step { IfErr result (λ refusal. refusal ≡ NoStep
        → StopsShort columns.now.script.now row.now.outcome.path.items) }
{
    put_head(out, columns.orders, number, row);
    put_differing_in_order(alloc, out, columns, row.outcome.path.as_slice())?;
    put_end(out, columns, &row.outcome.end);
    Ok(())
}

/// Puts the first line of the table: how many outcomes there are, of how many orders.
fn put_table_head(out: &mut Sink, outcomes: usize, orders: u128)
    ensures { Says (spec.table_head outcomes orders) out.old out.new }
{
    tell(out, "outcomes: ", outcomes);
    out.put(", of ");
    put_orders(out, orders);
    out.put("\n");
}

/// The table of these outcomes, in their order: how many there are of how many orders, and of each how many orders lead to
/// it, the answers that differ between outcomes, in the order in which they were given, and what it leaves.
///
/// # Errors
///
/// `NoStep` where the order of an outcome can't be made again; `Memory` where memory ran out.
pub fn table(alloc: Global, columns: &Columns<'_>, rows: &[Found]) -> Result<String, NotMade>
    ensures table { IfOk result (λ text. IsTable columns.now rows.now text.bytes.items) }
    ensures no_step { IfErr result (λ refusal. refusal ≡ NoStep
        → IsSomeStuck columns.now.script.now rows.now) }
{
    let mut out = Sink::new(alloc);
    put_table_head(&mut out, rows.len(), columns.orders);
    for place in 0..rows.len() {
        put_row(alloc, &mut out, columns, place + 1, &rows[place])?;
    }
    Ok(out.finish()?)
}
