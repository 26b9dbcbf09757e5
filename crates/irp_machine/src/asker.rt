//! The closures of a script, as who is asked.

ghost use Rattle.std.specs.Prelude.{◌≡◌};
ghost use Rattle.std.proofs.Props.{props};
ghost use Rattle.irp_types.specs.State.{AreTables};
ghost use Rattle.irp_transcript.specs.Headers.{fixed_of};
ghost use Rattle.irp_machine.specs.Asking.{IsPlanTold, IsAnswerTold, IsCancelTold, routine_at, answer_at, plan_at, cancel_at};

use irp_routines::{Ask, guarded_answer, guarded_cancel, guarded_plan};
use irp_script_reader::{CompletionRoutine, ScriptParts};
use irp_steps::{table_answer, table_plan};
use irp_transcript::Header;
use irp_types::{
    Answer, CancelAnswer, CancelId, CancelRule, DispatchId, DriverId, Known, Plan, RoutineId, Rule,
    Shown,
};

/// The closures of a script: each answers what the script tells of it, where the header's tables allow that, and else
/// something fixed that they do (this project's own rule).
#[derive(Drop)]
pub struct ScriptAsker<'a> {
    header: &'a Header,
    script: &'a ScriptParts,
    ghost agree: { AreTables (fixed_of header.now).tables } by { Prim.hlevel props },
}

/// The completion routine of this number among those of a rule.
fn routine_at(routines: &[CompletionRoutine], rule: Rule, number: u32) -> Option<CompletionRoutine>
    ensures { result ≡ routine_at routines.now rule number }
{
    let mut left = number;
    for routine in routines {
        if routine.rule == rule {
            if left == 0 {
                return Some(*routine);
            }
            left -= 1;
        }
    }
    None
}

/// What the completion routine of this number among those of a rule answers.
fn answer_at(routines: &[CompletionRoutine], rule: Rule, number: u32, shown: Shown) -> Answer
    ensures { result ≡ answer_at routines.now rule number shown }
{
    match routine_at(routines, rule, number) {
        Some(routine) => table_answer(routine, shown),
        None => Answer::CONTINUES,
    }
}

/// What the script's dispatch of this number plans.
fn plan_at(plans: &[Plan], number: u32, shown: Shown) -> Plan
    ensures { result ≡ plan_at plans.now number shown }
{
    match plans.get(number as usize) {
        Some(plan) => table_plan(*plan, shown),
        None => Plan::INVALID_REQUEST,
    }
}

/// What the script's cancel routine of this number answers.
fn cancel_at(answers: &[CancelAnswer], number: u32) -> CancelAnswer
    ensures { result ≡ cancel_at answers.now number }
{
    match answers.get(number as usize) {
        Some(answer) => *answer,
        None => CancelAnswer::Leave,
    }
}

impl<'a> ScriptAsker<'a> {
    /// The closures of this script by this header, on condition that its tables agree with each other.
    pub fn new(header: &'a Header, script: &'a ScriptParts) -> ScriptAsker<'a>
        requires { AreTables (fixed_of header.now).tables }
        ensures { (result.header.now ≡ header.now) × (result.script.now ≡ script.now) }
    {
        ScriptAsker { header, script }
    }

    /// The header.
    pub fn header(&self) -> &Header
        ensures { result.now ≡ self.now.header.now }
    {
        self.header
    }
}

impl Ask for ScriptAsker<'_> {
    ghost tables = { λ own. (fixed_of own.header.now).tables };

    ghost may_answer = { λ own id shown answer.
        IsAnswerTold (fixed_of own.header.now).tables own.script.now id shown answer };

    ghost may_plan = { λ own id shown plan.
        IsPlanTold (fixed_of own.header.now).tables own.script.now id shown plan };

    ghost may_cancel = { λ own id shown answer.
        IsCancelTold (fixed_of own.header.now).tables own.script.now id shown answer };

    fn counts(&self) -> Known {
        self.header.completions
    }

    fn drivers(&self) -> u32 {
        self.header.drivers.as_slice().len() as u32
    }

    fn dispatches(&self) -> u32 {
        self.header.dispatches.as_slice().len() as u32
    }

    fn known_of(&self, id: DispatchId) -> Known {
        self.header.dispatches.as_slice()[id.0 as usize]
    }

    fn cancel_rule(&self, id: CancelId) -> CancelRule {
        self.header.cancels.as_slice()[id.0 as usize]
    }

    fn dispatch_of(&self, driver: DriverId, major: u8) -> Option<DispatchId> {
        let pairs = self.header.drivers.as_slice().get(driver.0 as usize)?;
        let found = pairs.as_slice().iter().find(|pair| pair.0 == major)?;
        Some(found.1)
    }

    fn plan(&self, id: DispatchId, shown: Shown) -> Plan {
        let known = self.known_of(id);
        let plan = plan_at(self.script.dispatches.as_slice(), id.0, shown);
        guarded_plan(known, shown, plan)
    }

    fn answer(&self, id: RoutineId, shown: Shown) -> Answer {
        let answer = answer_at(self.script.completions.as_slice(), id.rule, id.no, shown);
        guarded_answer(id.rule, shown, answer)
    }

    fn cancel_answer(&self, id: CancelId, shown: Shown) -> CancelAnswer {
        let rule = self.cancel_rule(id);
        guarded_cancel(rule, cancel_at(self.script.cancels.as_slice(), id.0))
    }

    ghost answers_allowed = { λ own id shown answer may. may.allowed };

    ghost plans_allowed = { λ own id shown plan may. may.allowed };

    ghost cancels_allowed = { λ own id shown answer may. may.allowed };

    ghost tables_agree = { λ own. own.agree };
}
