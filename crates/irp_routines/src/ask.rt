//! How the layers above ask.

ghost use Rattle.std.specs.Prelude.{◌≡◌, ◌<◌, length, slice_get, Some};
ghost use Rattle.irp_types.specs.Rules.{count_of_rule};
ghost use Rattle.irp_types.specs.State.{Tables, AreTables, dispatch_for, known_of};
ghost use Rattle.irp_types.specs.Allowed.{IsAnswerAllowed, IsPlanAllowed, IsCancelAllowed};
ghost use Rattle.irp_types.specs.declared.names.DispatchId.{DispatchId};
ghost use Rattle.irp_types.specs.declared.names.CancelId.{CancelId};
ghost use Rattle.irp_types.specs.declared.routine.RoutineId.{RoutineId};
ghost use Rattle.irp_types.specs.declared.shown.Shown.{Shown};
ghost use Rattle.irp_types.specs.declared.answer.Answer.{Answer};
ghost use Rattle.irp_types.specs.declared.answer.CancelAnswer.{CancelAnswer};
ghost use Rattle.irp_types.specs.declared.answer.Plan.{Plan};

use irp_types::{
    Answer, CancelAnswer, CancelId, CancelRule, DispatchId, DriverId, Known, Plan, RoutineId, Shown,
};

/// Who is asked what is done with a packet, by the tables in which its closures are named (this project's own rule).
///
/// The tables are fixed. What a closure may answer is a relation that contracts alone see, and by law it is within
/// what the tables allow: the rule beside a completion or cancel routine, the routines that a dispatch may name. No
/// call takes memory of its own; a closure may.
pub trait Ask {
    /// The counts of the routines, the drivers' dispatches by major function code, the routines that each dispatch may
    /// name, and the rules of the cancel routines.
    ghost tables: { Self → Tables };

    /// What a completion routine may answer to what it is shown.
    ghost may_answer: { Self → RoutineId → Shown → Answer → Type 0 };

    /// What a dispatch may plan.
    ghost may_plan: { Self → DispatchId → Shown → Plan → Type 0 };

    /// What a cancel routine may answer.
    ghost may_cancel: { Self → CancelId → Shown → CancelAnswer → Type 0 };

    /// How many completion routines of each rule there are, and how many cancel routines, each at most 256.
    fn counts(&self) -> Known
        ensures { result ≡ (tables self.now).counts };

    /// How many drivers there are, at most 64.
    fn drivers(&self) -> u32
        ensures { result ≡ length (tables self.now).drivers };

    /// How many dispatches there are, at most 256.
    fn dispatches(&self) -> u32
        ensures { result ≡ length (tables self.now).dispatches };

    /// Which routines a dispatch may name, on condition that the dispatch is there.
    fn known_of(&self, id: DispatchId) -> Known
        requires { id.0 < length (tables self.now).dispatches }
        ensures { known_of (tables self.now) id ≡ Some result };

    /// The rule of a cancel routine, on condition that the routine is there.
    fn cancel_rule(&self, id: CancelId) -> CancelRule
        requires { id.0 < (tables self.now).counts.cancel }
        ensures { slice_get (tables self.now).cancel_rules id.0 ≡ Some result };

    /// The dispatch of a driver for a major function code. None where the driver has none, or there is no such driver.
    fn dispatch_of(&self, driver: DriverId, major: u8) -> Option<DispatchId>
        ensures { result ≡ dispatch_for (tables self.now) driver major };

    /// Asks a dispatch what it plans, on condition that it is there.
    fn plan(&self, id: DispatchId, shown: Shown) -> Plan
        requires { id.0 < length (tables self.now).dispatches }
        ensures { may_plan self.now id shown result };

    /// Asks a completion routine, on condition that it is there.
    fn answer(&self, id: RoutineId, shown: Shown) -> Answer
        requires { id.no < count_of_rule (tables self.now).counts id.rule }
        ensures { may_answer self.now id shown result };

    /// Asks a cancel routine, on condition that it is there.
    fn cancel_answer(&self, id: CancelId, shown: Shown) -> CancelAnswer
        requires { id.0 < (tables self.now).counts.cancel }
        ensures { may_cancel self.now id shown result };

    /// What a completion routine may answer is allowed by its rule.
    ghost answers_allowed: { (asker : Self) (id : RoutineId) (shown : Shown) (answer : Answer)
        → may_answer asker id shown answer → IsAnswerAllowed (tables asker) id shown answer };

    /// What a dispatch may plan is allowed to it.
    ghost plans_allowed: { (asker : Self) (id : DispatchId) (shown : Shown) (plan : Plan)
        → may_plan asker id shown plan → IsPlanAllowed (tables asker) id shown plan };

    /// What a cancel routine may answer is allowed by its rule.
    ghost cancels_allowed: { (asker : Self) (id : CancelId) (shown : Shown) (answer : CancelAnswer)
        → may_cancel asker id shown answer → IsCancelAllowed (tables asker) id answer };

    /// The tables agree with each other, and are within the limits.
    ghost tables_agree: { (asker : Self) → AreTables (tables asker) };
}
