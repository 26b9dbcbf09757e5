//! What the manager keeps of a packet.
#![tactic(auto, unfolding(json::specs::Print::escape_byte))]

ghost use Rattle.std.specs.Prelude.{◌≡◌, ◌+◌, ◌<◌, ◌++◌, map, nat_lt, slice_index_or, OnOk};
ghost use Rattle.serde_json.specs.Data.{boolean};
ghost use Rattle.serde_json.specs.Written.{comma_if, compact_text};
ghost use Rattle.irp_types.specs.Packet.{cleared, size_of};
ghost use Rattle.irp_types.specs.Steps.{seen_of};
ghost use Rattle.irp_transcript_writer.specs.Json.{list};
ghost use Rattle.irp_story.specs.Forms as spec;
ghost use Rattle.irp_story.specs.Forms.{location_json};

use crate::form::{put, put_one, put_text, put_two};
use irp_packet::Packet;
use irp_transcript_writer::Written;
use irp_types::{IrpRef, Location, Preparation, Seen};
use std::alloc::AllocError;

/// A stack location.
#[derive(Drop)]
struct Layer {
    location: Location,
}

impl Written for Layer {
    ghost json = { λ layer. spec.location_json layer.location };

    fn write(&self, out: &mut Vec<u8>) -> Result<(), AllocError> {
        let location = self.location;
        put(out, "{\"device\":", &location.device)?;
        put(out, ",\"major\":", &location.major)?;
        put(out, ",\"pending\":", &location.pending)?;
        put_two(
            out,
            ",\"routine\":",
            &location.setting,
            ",\"word\":",
            &location.word,
            "}",
        )
    }
}

/// A comma, where something stands before.
fn comma_if(later: bool) -> &'static str
    ensures { result.now ≡ comma_if later }
{
    if later { "," } else { "" }
}

/// Puts the location above so many others, behind a comma unless it is the lowest. The one error is want of memory.
fn put_location(out: &mut Vec<u8>, packet: &Packet, below: u32) -> Result<(), AllocError>
    requires there { below < size_of packet.now }
    requires few { below < 32 }
    ensures { OnOk result (out.new.items ≡ out.old.items ++ (comma_if (nat_lt 0 below)
        ++ compact_text (location_json (slice_index_or packet.now.locations below cleared)))) }
{
    let location = packet.location_at(below + 1);
    put(out, comma_if(0 < below), &Layer { location })
}

/// Puts the array of a packet's locations, location 1 first. The one error is want of memory.
fn put_locations(out: &mut Vec<u8>, packet: &Packet) -> Result<(), AllocError>
    ensures { OnOk result (out.new.items ≡ out.old.items
        ++ compact_text (list (map location_json packet.now.locations))) }
{
    put_text(out, "[")?;
    for below in 0..packet.size() {
        put_location(out, packet, below)?;
    }
    put_text(out, "]")
}

/// The locations of a packet.
#[derive(Drop)]
struct Layers<'a> {
    packet: &'a Packet,
}

impl Written for Layers<'_> {
    ghost json = { λ layers. list (map spec.location_json layers.packet.now.locations) };

    fn write(&self, out: &mut Vec<u8>) -> Result<(), AllocError> {
        put_locations(out, self.packet)
    }
}

/// What was prepared of a packet for the next lower device.
#[derive(Drop)]
struct Prepared<'a> {
    packet: &'a Packet,
}

impl Written for Prepared<'_> {
    ghost json = { λ prepared. spec.prepared_json prepared.packet.now.preparation };

    fn write(&self, out: &mut Vec<u8>) -> Result<(), AllocError> {
        match self.packet.preparation() {
            Preparation::Nothing => put_text(out, "\"nothing\""),
            Preparation::Filled => put_text(out, "\"filled\""),
            Preparation::Skipped => put_text(out, "\"skipped\""),
        }
    }
}

/// What Look shows of a packet, by names.
#[derive(Drop)]
struct ByName {
    seen: Seen,
}

impl Written for ByName {
    ghost json = { λ by_name. spec.seen_by_name by_name.seen };

    fn write(&self, out: &mut Vec<u8>) -> Result<(), AllocError> {
        put(out, "{\"cancel\":", &self.seen.cancel)?;
        put(out, ",\"cancel_routine\":", &self.seen.cancel_routine)?;
        put(out, ",\"current\":", &self.seen.current)?;
        put(out, ",\"information\":", &self.seen.information)?;
        put(out, ",\"marked\":", &self.seen.marked)?;
        put(out, ",\"owner\":", &self.seen.owner)?;
        put_two(
            out,
            ",\"pending_returned\":",
            &self.seen.pending_returned,
            ",\"status\":",
            &self.seen.status,
            "}",
        )
    }
}

/// What Look shows of this packet.
#[derive(Drop)]
struct Looked<'a> {
    packet: &'a Packet,
}

impl Written for Looked<'_> {
    ghost json = { λ looked. spec.seen_by_name (seen_of looked.packet.now) };

    fn write(&self, out: &mut Vec<u8>) -> Result<(), AllocError> {
        let seen = self.packet.seen();
        ByName { seen }.write(out)
    }
}

/// Whether a packet stands in a cancel slot.
#[derive(Drop)]
struct SlotHeld<'a> {
    packet: &'a Packet,
}

impl Written for SlotHeld<'_> {
    ghost json = { λ it. boolean it.packet.now.slot_held };

    fn write(&self, out: &mut Vec<u8>) -> Result<(), AllocError> {
        self.packet.slot_held().write(out)
    }
}

/// A packet in this use, as the manager keeps it.
#[derive(Drop)]
pub(crate) struct InUse<'a> {
    pub(crate) irp: IrpRef,
    pub(crate) packet: &'a Packet,
}

impl Written for InUse<'_> {
    ghost json = { λ it. spec.packet_json it.irp it.packet.now };

    fn write(&self, out: &mut Vec<u8>) -> Result<(), AllocError> {
        let packet = self.packet;
        put(out, "{\"irp\":", &self.irp)?;
        put(out, ",\"locations\":", &Layers { packet })?;
        put(out, ",\"prepared\":", &Prepared { packet })?;
        put(out, ",\"seen\":", &Looked { packet })?;
        put_one(out, ",\"slot_held\":", &SlotHeld { packet }, "}")
    }
}
