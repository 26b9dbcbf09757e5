//! The closures of a script, with what the script tells of them.

ghost use Rattle.std.specs.Prelude.{◌≡◌, true};
ghost use Rattle.irp_types.specs.Rules.{CanShow, is_allowed, is_plan_allowed};
ghost use Rattle.irp_types.specs.declared.answer.{Answer.Answer, CancelAnswer.CancelAnswer, Plan.Plan};
ghost use Rattle.irp_types.specs.declared.shown.Shown.{Shown};
ghost use Rattle.irp_steps.specs.Behaviours.{answer_of, cancel_rule_of, plan_of};
ghost use Rattle.irp_script.specs.Told.{AnswersAs, CancelsAs, PlansAs};

use irp_routines::{
    CancelClosure, CancelRoutine, CompletionClosure, Dispatch, DispatchClosure, Routine,
};
use irp_script_reader::CompletionRoutine;
use irp_steps::cancel_rule;
use irp_types::{CancelAnswer, Known, Plan};

/// A completion routine with this code, on condition that the code may be called on everything that can be shown,
/// answers nothing but what the script tells of the routine, and keeps its rule.
pub fn routine_told(told: CompletionRoutine, run: CompletionClosure) -> Routine
    requires callable { (shown : Shown) → CanShow shown → CompletionClosure.pre run shown }
    requires told { (shown : Shown) (answer : Answer)
        → CompletionClosure.post run shown answer → answer ≡ answer_of told shown }
    requires keeps_rule { (shown : Shown) (answer : Answer) → CanShow shown
        → CompletionClosure.post run shown answer → is_allowed told.rule shown answer ≡ true }
    ensures rule { result.rule ≡ told.rule }
    ensures told { AnswersAs result told }
{
    Routine::new(told.rule, run)
}

/// A cancel routine with this code, on condition that the code may be called on everything that can be shown, and
/// answers nothing but what the script tells of the routine. So it keeps the rule of that answer.
pub fn cancel_told(told: CancelAnswer, run: CancelClosure) -> CancelRoutine
    requires callable { (shown : Shown) → CanShow shown → CancelClosure.pre run shown }
    requires told { (shown : Shown) (answer : CancelAnswer)
        → CancelClosure.post run shown answer → answer ≡ told }
    ensures rule { result.rule ≡ cancel_rule_of told }
    ensures told { CancelsAs result told }
{
    CancelRoutine::new(cancel_rule(told), run)
}

/// A dispatch with this code, which may name these routines, on condition that the code may be called on everything
/// that can be shown, plans nothing but what the script tells of the dispatch, and plans what is allowed.
pub fn dispatch_told(known: Known, told: Plan, run: DispatchClosure) -> Dispatch
    requires callable { (shown : Shown) → CanShow shown → DispatchClosure.pre run shown }
    requires told { (shown : Shown) (plan : Plan)
        → DispatchClosure.post run shown plan → plan ≡ plan_of told shown }
    requires keeps_rule { (shown : Shown) (plan : Plan) → CanShow shown
        → DispatchClosure.post run shown plan → is_plan_allowed known shown plan ≡ true }
    ensures known { result.known ≡ known }
    ensures told { PlansAs result told }
{
    Dispatch::new(known, run)
}
