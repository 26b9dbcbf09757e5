//! Questions that were asked of closures.

ghost use Rattle.std.specs.Prelude.{◌≡◌};
ghost use Rattle.irp_types.specs.Questions.{shown_of};

use crate::answer::{Answer, CancelAnswer, Plan};
use crate::names::{CancelId, DispatchId};
use crate::routine::RoutineId;
use crate::shown::Shown;

/// One question: which closure, what it was shown, and what it answered.
#[derive(Clone, Copy, PartialEq, Eq, Debug)]
pub enum Asked {
    Dispatch {
        id: DispatchId,
        shown: Shown,
        plan: Plan,
    },
    Completion {
        id: RoutineId,
        shown: Shown,
        answer: Answer,
    },
    Cancel {
        id: CancelId,
        shown: Shown,
        answer: CancelAnswer,
    },
}

impl Asked {
    /// What it showed.
    pub fn shown(self) -> Shown
        ensures { result ≡ shown_of self }
    {
        match self {
            Asked::Dispatch { shown, .. } => shown,
            Asked::Completion { shown, .. } => shown,
            Asked::Cancel { shown, .. } => shown,
        }
    }
}
