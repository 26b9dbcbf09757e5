//! Which devices stand above which, and which of them found a cancel routine gone, as the entries so far tell.

ghost use Rattle.std.specs.Prelude.{◌≡◌, ◌≤◌, List, [], ◌∷◌, ◌++◌};
ghost use Rattle.irp_types.specs.declared.entry.Entry.{Entry};
ghost use Rattle.irp_listing.specs.Stacks as spec;
ghost use Rattle.irp_listing.specs.Stacks.{IsAfter, held};

use crate::leaving::{late_completion, taken_out};
use irp_types::{Call, DeviceId, Entry, IrpRef, Reply};

/// As many devices as there can be.
const MOST_DEVICES: usize = 64;

/// For each device the one just above it, and the packet whose cancel routine it took out last, where that was gone.
/// Entries of any transcript can be followed, also illegal ones.
#[derive(Clone, Copy)]
pub struct Stacks {
    above: [Option<DeviceId>; MOST_DEVICES],
    lost: [Option<IrpRef>; MOST_DEVICES],
}

/// What an entry tells of a device: which one stands just above it from then on, if any. None where it is no done
/// attach or detach.
fn above_set(entry: &Entry) -> Option<(DeviceId, Option<DeviceId>)>
    ensures { result ≡ spec.above_set entry.now.call entry.now.reply }
{
    match (entry.call, entry.reply) {
        (Call::Attach { device, .. }, Reply::Device(top)) => Some((top, Some(device))),
        (Call::Detach { lower }, Reply::Device(_)) => Some((lower, None)),
        _ => None,
    }
}

/// Whether it is this packet, in this use.
fn is_use(irp: IrpRef, other: Option<IrpRef>) -> bool
    ensures { result ≡ spec.is_use irp other }
{
    match other {
        Some(other) => irp.slot == other.slot && irp.use_no == other.use_no,
        None => false,
    }
}

/// What is kept of a device; none of one that can't be there.
fn kept<T: Copy>(list: &[Option<T>], device: DeviceId) -> Option<T>
    ensures { result ≡ held list.now device }
{
    match list.get(device.0 as usize) {
        Some(value) => *value,
        None => None,
    }
}

/// Keeps what was told of a device; nothing of one that can't be there.
#[tactic(auto, using(std::proofs::lemmas::List::set_past))]
fn keep<T: Copy>(list: &mut [Option<T>], told: Option<(DeviceId, Option<T>)>)
    ensures { list.new ≡ spec.with_told list.old told }
{
    if let Some((device, value)) = told {
        let place = device.0 as usize;
        if place < list.len() {
            list[place] = value;
        }
    }
}

impl Stacks {
    /// No device stands above another.
    pub fn new() -> Stacks
        ensures { IsAfter [] result }
    {
        Stacks {
            above: [None; MOST_DEVICES],
            lost: [None; MOST_DEVICES],
        }
    }

    /// Whether an entry is a completion of a packet that has ended, by a device that found its cancel routine gone.
    pub(crate) fn is_left_out(&self, entry: &Entry) -> bool
        ensures { result ≡ spec.is_left_out (held self.now.lost) entry.now }
    {
        match late_completion(entry) {
            Some((device, irp)) => is_use(irp, kept(&self.lost, device)),
            None => false,
        }
    }

    /// Follows an entry.
    pub fn follow(&mut self, entry: &Entry)
        ensures { (so_far : List Entry) → IsAfter so_far self.old
            → IsAfter (so_far ++ entry.now ∷ []) self.new }
    {
        keep(&mut self.above, above_set(entry));
        keep(&mut self.lost, taken_out(entry));
    }

    /// How many devices stand above this one, at most 64.
    fn count_above(&self, device: DeviceId) -> usize
        ensures few { result ≤ 64 }
        ensures exact { result ≡ spec.count_above (held self.now.above) 64 device }
    {
        let mut at = device;
        for count in 0..MOST_DEVICES {
            match kept(&self.above, at) {
                Some(next) => at = next,
                None => return count,
            }
        }
        MOST_DEVICES
    }

    /// How many steps the lines of a question are indented that is asked for this device: none for the originator, and
    /// else one more than devices stand above it. At most 65.
    pub(crate) fn depth_of(&self, device: Option<DeviceId>) -> usize
        ensures few { result ≤ 65 }
        ensures exact { result ≡ spec.depth_of (held self.now.above) device }
    {
        match device {
            Some(device) => self.count_above(device) + 1,
            None => 0,
        }
    }
}
