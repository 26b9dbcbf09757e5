//! A remove seat: one observer and 64 stakes. All of this is this project's own rule.
ghost use Rattle.std.specs.Prelude.{◌≡◌, ◌<◌, map};
ghost use Rattle.irp_remove.specs.Core.{flag};
ghost use Rattle.irp_remove.specs.Seats.{IsWhole};

use crate::reference::Reference;
use crate::views::View;
use arrayvec::ArrayVec;
use atomic_table::Seat;
use irp_types::{DrainNote, LockNo};
use std::marker::Model;

/// One user of the locks that it was opened with. It holds up to 64 references, and knows which locks it found drained.
///
/// It can be moved to another thread. A seat that is dropped while it holds a reference gives nothing back: the lock is
/// never drained from then on.
///
/// Contracts see it as the record `Holder` of this crate.
#[derive(Drop)]
pub struct RemoveSeat {
    pub(crate) number: u32,
    pub(crate) observer: Seat<(), View>,
    pub(crate) idle: ArrayVec<Reference, 64>,
    pub(crate) held: ArrayVec<Reference, 64>,
    pub(crate) began: [bool; 64],
    pub(crate) saw: [bool; 64],
    pub(crate) drained: [bool; 64],
}

impl Model for RemoveSeat {
    ghost use Rattle.std.specs.Prelude.{map};
    ghost use Rattle.irp_remove.specs.Seats.{Holder, IsSeated, watch_of, pair_of, view_of};

    ghost Value = { Holder };

    ghost view = { λ seat. record {
      table = seat.observer.table_id;
      number = seat.number;
      watch = watch_of seat.observer.me.0;
      held = map pair_of seat.held.items;
      held_views = map view_of seat.held.items;
      idle_views = map view_of seat.idle.items;
    } };

    ghost invariant = { λ seat.
        IsSeated seat.observer seat.idle.items seat.held.items seat.began seat.saw seat.drained };
}

impl RemoveSeat {
    /// Its number among the seats that were opened together, from 0.
    pub fn number(&self) -> u32
        ensures { result ≡ self.now.number }
    {
        self.number
    }

    /// Tells that the views of its stakes say what it holds: each of its references is a stake that holds that lock
    /// under that tag, its other stakes are idle, and there are 64 of them together. (That each is a party of the
    /// seat's own table is kept by this type.) It answers nothing.
    pub fn holds_what_it_lists(&self)
        ensures { IsWhole self.now }
    {
        let _ = &self.held;
    }
}

/// A seat is what its owner knows of the locks: those for which its own `drained` answered Yes. Once it knows a lock
/// drained it does for good; it knows nothing of a lock that there isn't.
impl DrainNote for RemoveSeat {
    ghost knows_drained = { λ seat lock. flag seat.watch.drained lock.0 };

    fn knows(&self, lock: LockNo) -> bool {
        (lock.0 as usize) < 64 && self.drained[lock.0 as usize]
    }
}
