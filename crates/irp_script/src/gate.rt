//! What is called when workers begin and end a step. Source: this project's own rule.

ghost use Rattle.irp_steps.specs.Conditions.{IsDue};

use crate::due::Due;

/// Called when a step begins and when it was answered: only for a step that hangs on nothing, or whose condition holds.
/// It may wait, to order the steps of different workers. Both calls come outside the session's lock.
pub trait Gate {
    /// A step begins.
    fn enter(&self, due: Due)
        requires { IsDue due.condition due.answer };

    /// The step was answered, or wasn't recorded.
    fn answered(&self, due: Due)
        requires { IsDue due.condition due.answer };
}

/// A gate that lets each step begin at once.
#[derive(Clone, Copy, PartialEq, Eq, Debug)]
pub struct AlwaysOpen;

impl Gate for AlwaysOpen {
    fn enter(&self, due: Due) {
        let _ = due;
    }

    fn answered(&self, due: Due) {
        let _ = due;
    }
}
