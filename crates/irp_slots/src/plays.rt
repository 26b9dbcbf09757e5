//! The rule of the table, and what each step tells. These types are for the proofs alone.
use crate::views::{Parties, View};
use atomic_table::{Play, Split, TableRule};

/// The rule of the table: what holds between any two steps.
pub struct Published;

impl TableRule<(), View, Parties> for Published {
    ghost use Rattle.irp_slots.specs.Core.{Kept, at_first};

    ghost holds = { Kept };

    ghost first = { at_first };
}

/// An owner swaps its use into its slot.
pub struct Publish;

impl Play<(), View> for Publish {
    ghost use Rattle.irp_slots.specs.Core.{publishes};

    ghost then = { publishes };
}

/// An owner that has published reads the flag.
pub struct Check;

impl Play<(), View> for Check {
    ghost use Rattle.irp_slots.specs.Core.{checks};

    ghost then = { checks };
}

/// An owner that has published swaps 0 into its slot.
pub struct TakeBack;

impl Play<(), View> for TakeBack {
    ghost use Rattle.irp_slots.specs.Core.{takes_back};

    ghost then = { takes_back };
}

/// A canceller sets the flag of a slot.
pub struct SetFlag;

impl Play<(), View> for SetFlag {
    ghost use Rattle.irp_slots.specs.Core.{flags};

    ghost then = { flags };
}

/// A canceller that has set the flag swaps 0 into the slot.
pub struct TakeOut;

impl Play<(), View> for TakeOut {
    ghost use Rattle.irp_slots.specs.Core.{takes_out};

    ghost then = { takes_out };
}

/// The first party makes the owner of the first slot in its list.
pub struct NewOwner;

impl Split<View> for NewOwner {
    ghost use Rattle.irp_slots.specs.Core.{one_owner_less, next_owner};

    ghost left = { one_owner_less };

    ghost right = { next_owner };
}

/// The first party makes a canceller.
pub struct NewCanceller;

impl Split<View> for NewCanceller {
    ghost use Rattle.irp_slots.specs.Core.{one_canceller_less, new_canceller};

    ghost left = { one_canceller_less };

    ghost right = { λ _. new_canceller };
}
