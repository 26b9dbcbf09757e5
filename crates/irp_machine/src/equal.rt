//! Whether ends are equal.

ghost use Rattle.std.specs.Prelude.{◌≡◌, true};
ghost use mathlib.Core.Logic.{◌↔◌};
ghost use Rattle.irp_machine.specs.Alike.{IsSameBlock, IsSameUse};

use crate::live_end::{DeviceEnd, LiveEnd};
use crate::outcome::{End, Holder, LockEnd, Replies, SlotEnd};
use irp_plain::{Same, are_labels, are_same};

/// Whether two packets stand in one slot under one use, at one location, with one owner and preparation, and both in a
/// cancel slot or neither.
fn is_same_use(one: &LiveEnd, other: &LiveEnd) -> bool
    ensures { (result ≡ true) ↔ IsSameUse one.now other.now }
{
    one.slot == other.slot
        && one.use_no == other.use_no
        && one.owner == other.owner
        && one.current == other.current
        && one.preparation == other.preparation
        && one.slot_held == other.slot_held
}

/// Whether two packets have the same status block and the same cancel routine and flags.
fn is_same_block(one: &LiveEnd, other: &LiveEnd) -> bool
    ensures { (result ≡ true) ↔ IsSameBlock one.now other.now }
{
    one.status == other.status
        && one.information == other.information
        && one.pending_returned == other.pending_returned
        && one.cancel == other.cancel
        && one.cancel_routine == other.cancel_routine
}

impl Same for LiveEnd {
    fn is_same(&self, other: &LiveEnd) -> bool {
        is_same_use(self, other)
            && is_same_block(self, other)
            && are_same(self.locations.as_slice(), other.locations.as_slice())
    }
}

impl Same for DeviceEnd {
    fn is_same(&self, other: &DeviceEnd) -> bool {
        *self == *other
    }
}

impl Same for Holder {
    fn is_same(&self, other: &Holder) -> bool {
        *self == *other
    }
}

impl Same for LockEnd {
    fn is_same(&self, other: &LockEnd) -> bool {
        self.word == other.word && are_same(self.holders.as_slice(), other.holders.as_slice())
    }
}

impl Same for SlotEnd {
    fn is_same(&self, other: &SlotEnd) -> bool {
        *self == *other
    }
}

impl Same for Replies {
    fn is_same(&self, other: &Replies) -> bool {
        are_same(self.told.as_slice(), other.told.as_slice())
    }
}

/// Whether two ends are equal.
pub fn is_end(one: &End, other: &End) -> bool
    ensures { (result ≡ true) ↔ (one.now ≡ other.now) }
{
    are_same(one.replies.as_slice(), other.replies.as_slice())
        && are_same(one.packets.as_slice(), other.packets.as_slice())
        && are_same(one.devices.as_slice(), other.devices.as_slice())
        && are_labels(one.labels.as_slice(), other.labels.as_slice())
        && are_same(one.locks.as_slice(), other.locks.as_slice())
        && are_same(one.slots.as_slice(), other.slots.as_slice())
}
