//! A party that asks for what stands in the slots.
use crate::views::View;
use atomic_table::Seat;
use std::marker::Model;

/// A party that may ask for the uses in all slots that it was opened with (this project's own rule). It can be moved
/// to another thread.
///
/// Contracts see it as the record `Asker` of this crate.
#[derive(Drop)]
pub struct Canceller {
    pub(crate) seat: Seat<(), View>,
}

impl Model for Canceller {
    ghost use Rattle.irp_slots.specs.Models.{Asker, IsAsker};
    ghost use Rattle.irp_slots.specs.Core.{asking_of};

    ghost Value = { Asker };

    ghost view = { λ canceller. record {
      table = canceller.seat.table_id;
      asking = asking_of canceller.seat.me.0;
    } };

    ghost invariant = { λ canceller. IsAsker canceller.seat };
}
