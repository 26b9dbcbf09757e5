//! The rule of the table, and what each step tells. These types are for the proofs alone.
use crate::views::{Parties, View};
use atomic_table::{Play, Split, TableRule};
use std::marker::{Brand, PhantomData};

/// The rule of the table: what holds between any two steps.
pub struct Counted;

impl TableRule<(), View, Parties> for Counted {
    ghost use Rattle.irp_remove.specs.Core.{Kept, at_first};

    ghost holds = { Kept };

    ghost first = { at_first };
}

/// The tag under which a reference is taken. Each call picks it.
pub trait Tagged {
    ghost use Rattle.std.specs.Prelude.{ℕ};

    ghost tag: { ℕ };
}

impl Tagged for Brand {
    ghost tag = { 0 };
}

/// A stake adds to a word.
pub struct Acquire<Label> {
    tagged: PhantomData<Label>,
}

impl<Label: Tagged> Play<(), View> for Acquire<Label> {
    ghost use Rattle.irp_remove.specs.Core.{acquires};

    ghost then = { acquires Label.tag };
}

/// A stake takes from a word what it added.
pub struct GiveBack;

impl Play<(), View> for GiveBack {
    ghost use Rattle.irp_remove.specs.Core.{gives_back};

    ghost then = { gives_back };
}

/// An observer sets the removed bit.
pub struct Begin;

impl Play<(), View> for Begin {
    ghost use Rattle.irp_remove.specs.Core.{begins};

    ghost then = { begins };
}

/// An observer reads a word.
pub struct Look;

impl Play<(), View> for Look {
    ghost use Rattle.irp_remove.specs.Core.{looks};

    ghost then = { looks };
}

/// The first party makes an observer.
pub struct NewObserver;

impl Split<View> for NewObserver {
    ghost use Rattle.irp_remove.specs.Core.{one_observer_less, new_observer};

    ghost left = { one_observer_less };

    ghost right = { λ _. new_observer };
}

/// The first party makes a stake.
pub struct NewStake;

impl Split<View> for NewStake {
    ghost use Rattle.irp_remove.specs.Core.{one_stake_less, new_stake};

    ghost left = { one_stake_less };

    ghost right = { λ _. new_stake };
}
