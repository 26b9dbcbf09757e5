//! Whether a device has a packet.

ghost use Rattle.std.specs.Prelude.{◌≡◌, ◌≤◌};
ghost use Rattle.std.specs.List.{list_any};
ghost use Rattle.irp_types.specs.Packet.{size_of};
ghost use Rattle.irp_types.specs.Unwinding.{from_to};
ghost use Rattle.irp_types.specs.Refusals.{stands_at, has_packet};

use crate::keep::Live;
use crate::packets::is_owner;
use irp_packet::Packet;
use irp_types::{DeviceId, Party};

/// Whether a device stands in a location of the packet.
fn stands_at(packet: &Packet, device: DeviceId, number: u32) -> bool
    requires some { 1 ≤ number }
    requires within { number ≤ size_of packet.now }
    ensures { result ≡ stands_at packet.now device.0 number }
{
    match packet.location_at(number).device {
        None => false,
        Some(there) => there.0 == device.0,
    }
}

/// Whether a device stands in a location of the packet, from the current one up.
fn stands_in(packet: &Packet, device: DeviceId) -> bool
    ensures { result
        ≡ list_any (stands_at packet.now device.0)
        (from_to packet.now.current (size_of packet.now)) }
{
    let start = packet.current();
    let size = packet.size();
    for number in start..size + 1 {
        if stands_at(packet, device, number) {
            return true;
        }
    }
    false
}

/// Whether a device owns the packet, or stands in a location of it from the current one up.
pub fn has_packet(live: &Live, device: DeviceId) -> bool
    ensures { result ≡ has_packet device.0 live.now.packet }
{
    is_owner(Party::Device(device), live.packet.owner()) || stands_in(&live.packet, device)
}
