//! A dispatch beside the routines that it may name.

ghost use Rattle.std.specs.Prelude.{◌≡◌, true};
ghost use Rattle.irp_types.specs.Rules.{CanShow, is_plan_allowed};
ghost use Rattle.irp_types.specs.declared.shown.Shown.{Shown};
ghost use Rattle.irp_types.specs.declared.answer.Plan.{Plan};

use irp_types::{Known, Plan, Shown};

/// The code of a dispatch: what it plans to do with what it is shown.
pub type DispatchClosure = Box<dyn Fn(Shown) -> Plan + Send>;

/// A dispatch: its code, and the counts of the routines that it may name (WDK: "Writing Dispatch Routines"; which plans
/// are allowed is this project's own rule).
#[derive(Drop)]
pub struct Dispatch {
    known: Known,
    run: DispatchClosure,
    ghost callable: { (shown : Shown) → CanShow shown → DispatchClosure.pre run shown },
    ghost keeps_rule: { (shown : Shown) (plan : Plan) → CanShow shown
        → DispatchClosure.post run shown plan → is_plan_allowed known shown plan ≡ true },
}

impl Dispatch {
    /// A dispatch that may name these routines, on condition that its code may be called on everything that can be
    /// shown, and that each plan which it may answer there is allowed. It takes no memory.
    pub fn new(known: Known, run: DispatchClosure) -> Dispatch
        requires callable { (shown : Shown) → CanShow shown → DispatchClosure.pre run shown }
        requires keeps_rule { (shown : Shown) (plan : Plan) → CanShow shown
            → DispatchClosure.post run shown plan → is_plan_allowed known shown plan ≡ true }
        ensures known { result.known ≡ known }
        ensures run { result.run ≡ run }
    {
        Dispatch { known, run }
    }

    /// The counts of the routines that it may name.
    pub fn known(&self) -> Known
        ensures { result ≡ self.now.known }
    {
        self.known
    }

    /// Asks it.
    pub(crate) fn ask(&self, shown: Shown) -> Plan
        ensures asked { DispatchClosure.post self.now.run shown result }
        ensures allowed { is_plan_allowed self.now.known shown result ≡ true }
    {
        shown.in_range();
        (self.run)(shown)
    }
}
