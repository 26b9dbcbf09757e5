//! Whether parts are equal.

ghost use Rattle.std.specs.Prelude.{◌≡◌, true};
ghost use mathlib.Core.Logic.{◌↔◌};

use crate::alike::is_same_location;
use crate::answered::{Answered, Told};
use crate::parts::{Held, Learned, Slot, Stage, Taken};
use crate::same::{Same, are_same};
use crate::seat_state::SeatState;
use irp_types::{IrpRef, Location, Reply};

/// Whether two lists of packets are equal.
pub fn are_labels(one: &[IrpRef], other: &[IrpRef]) -> bool
    ensures { (result ≡ true) ↔ (one.now ≡ other.now) }
{
    one == other
}

/// Whether two packets are equal.
fn is_packet(one: IrpRef, other: IrpRef) -> bool
    ensures { (result ≡ true) ↔ (one ≡ other) }
{
    one == other
}

/// Whether two replies are equal.
fn is_reply(one: Reply, other: Reply) -> bool
    ensures { (result ≡ true) ↔ (one ≡ other) }
{
    one == other
}

/// Whether two stages are equal.
fn is_stage(one: Stage, other: Stage) -> bool
    ensures { (result ≡ true) ↔ (one ≡ other) }
{
    match (one, other) {
        (Stage::Between, Stage::Between)
        | (Stage::Tried, Stage::Tried)
        | (Stage::Begun, Stage::Begun)
        | (Stage::Published, Stage::Published)
        | (Stage::FoundSet, Stage::FoundSet)
        | (Stage::Flagged, Stage::Flagged) => true,
        (Stage::Read(one), Stage::Read(other)) => is_packet(one, other),
        (Stage::Answered(one), Stage::Answered(other)) => is_packet(one, other),
        _ => false,
    }
}

/// Whether two answers are equal.
fn is_answer(one: Answered, other: Answered) -> bool
    ensures { (result ≡ true) ↔ (one ≡ other) }
{
    match (one, other) {
        (Answered::Reply(one), Answered::Reply(other)) => is_reply(one, other),
        (Answered::Word(one), Answered::Word(other)) => one == other,
        _ => false,
    }
}

impl Same for Location {
    fn is_same(&self, other: &Location) -> bool {
        is_same_location(*self, *other)
    }
}

impl Same for Held {
    fn is_same(&self, other: &Held) -> bool {
        *self == *other
    }
}

impl Same for Learned {
    fn is_same(&self, other: &Learned) -> bool {
        *self == *other
    }
}

impl Same for Taken {
    fn is_same(&self, other: &Taken) -> bool {
        *self == *other
    }
}

impl Same for Slot {
    fn is_same(&self, other: &Slot) -> bool {
        *self == *other
    }
}

impl Same for Told {
    fn is_same(&self, other: &Told) -> bool {
        self.step == other.step && is_answer(self.answer, other.answer)
    }
}

impl Same for SeatState {
    fn is_same(&self, other: &SeatState) -> bool {
        self.made() == other.made()
            && is_stage(self.stage(), other.stage())
            && are_same(self.held(), other.held())
            && are_same(self.learned(), other.learned())
            && are_same(self.taken(), other.taken())
            && are_same(self.told(), other.told())
            && are_same(self.heard(), other.heard())
    }
}
