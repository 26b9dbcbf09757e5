//! Why an exploration was given up.

ghost use Rattle.std.specs.Prelude.{◌≡◌};

use std::alloc::{AllocError, AllocFailed};

/// Why an exploration was given up: out of memory, or which bound was met (this project's own rule).
#[derive(Clone, Copy, Debug, PartialEq, Eq)]
pub enum NotExplored {
    /// Out of memory.
    Memory,
    /// More states than were allowed are reached by equally many steps, or are ends.
    States,
    /// Some order has as many steps as were allowed, or more.
    Steps,
    /// 2^128 orders or more lead to one state.
    Orders,
}

/// Why there is no next layer.
#[derive(Clone, Copy, PartialEq, Eq)]
pub(crate) enum LayerRefusal {
    Memory,
    States,
    Orders,
}

impl From<AllocError> for LayerRefusal {
    ghost use Rattle.irp_explore.specs.declared.refusal.LayerRefusal.TheVariants.{Memory};

    ghost from_gives = { λ _ refusal. refusal ≡ Memory };

    fn from(_error: AllocError) -> LayerRefusal {
        LayerRefusal::Memory
    }
}

impl<T: Drop> From<AllocFailed<T>> for LayerRefusal {
    ghost use Rattle.irp_explore.specs.declared.refusal.LayerRefusal.TheVariants.{Memory};

    ghost from_gives = { λ _ refusal. refusal ≡ Memory };

    fn from(_error: AllocFailed<T>) -> LayerRefusal {
        LayerRefusal::Memory
    }
}

impl<T: Drop> From<AllocFailed<T>> for NotExplored {
    ghost use Rattle.irp_explore.specs.declared.refusal.NotExplored.TheVariants.{Memory};

    ghost from_gives = { λ _ refusal. refusal ≡ Memory };

    fn from(_error: AllocFailed<T>) -> NotExplored {
        NotExplored::Memory
    }
}

impl From<LayerRefusal> for NotExplored {
    ghost use Rattle.irp_explore.specs.Refusals.{passed_on};

    ghost from_gives = { λ refusal given. given ≡ passed_on refusal };

    fn from(refusal: LayerRefusal) -> NotExplored {
        match refusal {
            LayerRefusal::Memory => NotExplored::Memory,
            LayerRefusal::States => NotExplored::States,
            LayerRefusal::Orders => NotExplored::Orders,
        }
    }
}
