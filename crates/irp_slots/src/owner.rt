//! The owner of a slot. Source: this project's own rule.
ghost use Rattle.std.specs.Prelude.{◌≡◌, ◌<◌};
ghost use Rattle.irp_types.specs.Limits.{most_slots};

use crate::views::View;
use atomic_table::Seat;
use std::marker::Model;

/// The one party that may publish a use in a slot, and withdraw it.
///
/// It can be moved to another thread. An owner that is dropped while its use stands leaves it to the cancellers.
///
/// Contracts see it as the record `Publisher` of this crate.
#[derive(Drop)]
pub struct SlotOwner {
    pub(crate) seat: Seat<(), View>,
    pub(crate) slot: usize,
    pub(crate) used: bool,
    pub(crate) stands: bool,
}

impl Model for SlotOwner {
    ghost use Rattle.irp_slots.specs.Models.{Publisher, IsOwner};
    ghost use Rattle.irp_slots.specs.Core.{owning_of};

    ghost Value = { Publisher };

    ghost view = { λ owner. record {
      table = owner.seat.table_id;
      owning = owning_of owner.seat.me.0;
    } };

    ghost invariant = { λ owner. IsOwner owner.seat owner.slot owner.used owner.stands };
}

impl SlotOwner {
    /// The number of its slot among those that were opened together, from 0.
    pub fn slot(&self) -> u32
        ensures slot { result ≡ self.now.owning.slot }
        ensures few { result < most_slots }
    {
        self.slot as u32
    }
}
