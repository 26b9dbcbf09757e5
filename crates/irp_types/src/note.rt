//! What a caller knows of remove locks.

ghost use Rattle.std.specs.Prelude.{◌≡◌, Bool, false};
ghost use Rattle.irp_types.specs.declared.names.LockNo.{LockNo};

use crate::names::LockNo;

/// What a caller knows of remove locks, at the moment of a call.
pub trait DrainNote {
    /// Which locks it knows to be drained.
    ghost knows_drained: { Self → LockNo → Bool };

    /// Whether it knows this lock to be drained.
    fn knows(&self, lock: LockNo) -> bool
        ensures { result ≡ knows_drained self.now lock };
}

/// A note that knows of no lock.
#[derive(Clone, Copy, Debug, PartialEq, Eq)]
pub struct KnowsNothing;

impl DrainNote for KnowsNothing {
    ghost knows_drained = { λ note lock. false };

    fn knows(&self, lock: LockNo) -> bool {
        let _ = lock;
        false
    }
}
