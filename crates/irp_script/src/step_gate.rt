//! What workers tell of their steps. Source: this project's own rule.

ghost use Rattle.irp_steps.specs.Conditions.{IsDue};
ghost use Rattle.irp_script.specs.declared.due.Due.{Due};

use crate::due::Due;
use crate::gate::Gate;

/// What a worker tells of its steps. It may be told what it admits, and nothing else. A worker is given one that admits
/// each step that it makes, with the answer that it heard: whatever else that one may admit, it isn't told.
pub trait StepGate {
    /// What it may be told.
    ghost admits: { Self → Due → Type 0 };

    /// A step begins.
    fn begins(&self, due: Due)
        requires { admits self.now due };

    /// The step was answered, or wasn't recorded.
    fn ends(&self, due: Due)
        requires { admits self.now due };
}

/// A gate may be told each step that hangs on nothing, or whose condition holds.
impl<G: Gate> StepGate for G {
    ghost admits = { λ gate due. IsDue due.condition due.answer };

    fn begins(&self, due: Due) {
        self.enter(due);
    }

    fn ends(&self, due: Due) {
        self.answered(due);
    }
}
