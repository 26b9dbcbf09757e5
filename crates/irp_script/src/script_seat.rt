//! A seat of a script.

ghost use Rattle.std.specs.Prelude.{◌≡◌, ◌++◌, ◌∷◌, [], IfOk, OnErr};
ghost use Rattle.irp_remove.specs.Pairing.{IsSeatOf, lock_count};

use crate::slot_parties::SlotParties;
use irp_remove::{Locks, RemoveSeat};
use irp_shared::{Seat, Session};
use irp_slots::SlotOwner;
use std::alloc::AllocError;

/// A seat of a script: the one in which it makes calls of the manager, the remove seat of the same place, at the
/// locks that this was opened with, which are as many as the session has, and what it has at the cancel slots. What
/// it knows of the locks is what its own remove seat knows.
#[derive(Drop)]
pub struct ScriptSeat<'a, L: Session> {
    pub(crate) locks: &'a Locks,
    pub(crate) seat: Seat<L>,
    pub(crate) remove: RemoveSeat,
    pub(crate) parties: SlotParties<'a>,
    ghost fits: { IsSeatOf locks.now remove },
    ghost count: { lock_count locks.now ≡ L.fixed.locks },
}

impl<'a, L: Session> ScriptSeat<'a, L> {
    /// A seat of these, on condition that the remove seat was opened with these locks, and that there are as many of
    /// them as the session has.
    pub fn new(
        locks: &'a Locks,
        seat: Seat<L>,
        remove: RemoveSeat,
        parties: SlotParties<'a>,
    ) -> ScriptSeat<'a, L>
        requires fits { IsSeatOf locks.now remove }
        requires count { lock_count locks.now ≡ L.fixed.locks }
        ensures seat { result.seat ≡ seat }
        ensures remove { result.remove ≡ remove }
        ensures parties { result.parties ≡ parties.entry }
    {
        ScriptSeat {
            locks,
            seat,
            remove,
            parties,
        }
    }

    /// Gives it an owner that was opened with its canceller.
    ///
    /// # Errors
    ///
    /// `AllocError` where a growth was refused. The owner is gone then.
    pub fn own(&mut self, owner: SlotOwner) -> Result<(), AllocError>
        requires { owner.table ≡ self.old.parties.canceller.table }
        ensures seat { self.new.seat ≡ self.old.seat }
        ensures remove { self.new.remove ≡ self.old.remove }
        ensures owns { IfOk result (λ _. self.new.parties ≡
            record self.old.parties { owners = self.old.parties.owners ++ owner ∷ [] }) }
        ensures err { OnErr result (self.new.parties ≡ self.old.parties) }
    {
        self.parties.own(owner)
    }

    /// The two apart: the seat in which it makes calls, and the remove seat, which fits the locks. What it has at the
    /// cancel slots is gone then.
    pub fn into_pair(self) -> (Seat<L>, RemoveSeat)
        ensures seat { result.0 ≡ self.entry.seat }
        ensures remove { result.1 ≡ self.entry.remove }
        ensures fits { IsSeatOf self.entry.locks.now result.1 }
    {
        (self.seat, self.remove)
    }

    /// Its number, that of the seat in which it makes calls.
    pub fn number(&self) -> u32
        ensures { result ≡ self.now.seat.number }
    {
        self.seat.number()
    }
}
