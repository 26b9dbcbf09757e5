//! What a seat knows of locks, as a note.

ghost use Rattle.std.specs.Prelude.{◌≡◌};
ghost use Rattle.std.specs.List.{list_any};
ghost use Rattle.irp_plain.specs.Seats.{is_drained};

use irp_plain::{Learned, knows_drained};
use irp_types::{DrainNote, LockNo};

/// A note that knows what a seat has learned.
#[derive(Clone, Copy)]
pub struct SeatNote<'a> {
    pub learned: &'a [Learned],
}

impl DrainNote for SeatNote<'_> {
    ghost knows_drained = { λ note lock. list_any (is_drained lock.0) note.learned.now };

    fn knows(&self, lock: LockNo) -> bool {
        knows_drained(self.learned, lock.0)
    }
}
