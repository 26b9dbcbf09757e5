//! The lists of a script, as far as they were read.

ghost use Rattle.std.specs.Prelude.{◌≡◌};
ghost use Rattle.std.specs.Option.{ok_or};
ghost use Rattle.serde_json.specs.View.{view};
ghost use Rattle.irp_forms.specs.Parts.{list_at};
ghost use Rattle.irp_forms.specs.Values.{handler_at};
ghost use Rattle.irp_script_reader.specs.Members as spec;
ghost use Rattle.irp_script_reader.specs.Taking.{Gives};
ghost use Rattle.irp_script_reader.specs.declared.refusal.MemberFault.TheVariants.{BadField};

use crate::act::Step;
use crate::acts::step_at;
use crate::labels::Labels;
use crate::plans::{is_driver, is_plan_sound, names_known};
use crate::refusal::MemberFault;
use crate::routines::{completion_at, counted, one_more};
use crate::script::{CompletionRoutine, ScriptForm};
use crate::taking::{Stop, Taking, or_fault, unless, with_item};
use irp_forms::{FromValue, Unread, list_at};
use irp_types::limits::{MOST_DISPATCHES, MOST_DRIVERS};
use irp_types::{CancelAnswer, DispatchId, Known, Plan, Row};
use serde_json::Value;
use std::alloc::Global;

/// The completion routines, and how many there are of each rule.
#[derive(Drop)]
pub struct Completions {
    pub routines: Row<CompletionRoutine>,
    pub counts: Known,
}

/// What the cancel routines answer, and how many routines there are of each kind.
#[derive(Drop)]
pub struct Cancels {
    pub answers: Row<CancelAnswer>,
    pub counts: Known,
}

/// What the dispatches of a script of this form plan, who may name so many routines.
#[derive(Drop)]
pub struct Dispatches {
    pub form: ScriptForm,
    pub known: Known,
    pub plans: Row<Plan>,
}

/// The drivers, who may name so many dispatches.
#[derive(Drop)]
pub struct Drivers {
    pub dispatches: usize,
    pub tables: Row<Row<(u8, DispatchId)>>,
}

/// The steps of `setup`, or else those of `steps`, in a script of this form with so many seats, and the labels that
/// were named so far.
#[derive(Drop)]
pub struct Steps {
    pub form: ScriptForm,
    pub seats: u32,
    pub in_setup: bool,
    pub labels: Labels,
    pub steps: Row<Step>,
}

impl Taking for Completions {
    ghost takes = { spec.takes_completion };

    /// `BadField` where it is no completion routine, `RuleBroken` where its behaviours aren't those of its rule,
    /// `TooMany` where there are as many of the rule as there may be.
    #[tactic(auto, unfolding(crate::specs::Members::takes_completion))]
    fn take(self, _alloc: Global, value: &Value) -> Result<Self, Stop> {
        let routine = or_fault(completion_at(value), MemberFault::BadField)?;
        unless(routine.obeys_its_rule(), MemberFault::RuleBroken)?;
        let counts = or_fault(counted(self.counts, routine.rule), MemberFault::TooMany)?;
        let routines = with_item(self.routines, routine)?;
        Ok(Completions { routines, counts })
    }
}

impl Taking for Cancels {
    ghost takes = { spec.takes_cancel };

    /// `BadField` where it is no cancel routine's answer, `TooMany` where there are as many as there may be.
    #[tactic(auto, unfolding(crate::specs::Members::takes_cancel))]
    fn take(self, _alloc: Global, value: &Value) -> Result<Self, Stop> {
        let answer = or_fault(CancelAnswer::from_value(value), MemberFault::BadField)?;
        let counts = self.counts;
        let cancel = or_fault(one_more(counts.cancel), MemberFault::TooMany)?;
        let answers = with_item(self.answers, answer)?;
        Ok(Cancels {
            answers,
            counts: Known { cancel, ..counts },
        })
    }
}

impl Taking for Dispatches {
    ghost takes = { spec.takes_dispatch };

    /// `BadField` where it is no plan or one that the form doesn't have, `RuleBroken` where the plan isn't sound,
    /// `NoRoutine` where it names a routine that isn't there, `TooMany` where there are as many as there may be.
    #[tactic(auto, unfolding(crate::specs::Members::takes_dispatch))]
    fn take(self, _alloc: Global, value: &Value) -> Result<Self, Stop> {
        let plan = or_fault(Plan::from_value(value), MemberFault::BadField)?;
        let Dispatches { form, known, plans } = self;
        unless(form.may_plan(plan), MemberFault::BadField)?;
        unless(is_plan_sound(plan), MemberFault::RuleBroken)?;
        unless(names_known(known, plan), MemberFault::NoRoutine)?;
        unless(
            plans.as_slice().len() < MOST_DISPATCHES,
            MemberFault::TooMany,
        )?;
        let plans = with_item(plans, plan)?;
        Ok(Dispatches { form, known, plans })
    }
}

/// A driver's table.
fn table_at(alloc: Global, value: &Value) -> Result<Row<(u8, DispatchId)>, Stop>
    ensures { Gives result (ok_or (list_at handler_at (view value.now)) BadField) }
{
    match list_at(alloc, value) {
        Ok(table) => Ok(table),
        Err(Unread::Form) => Err(Stop::MemberFault(MemberFault::BadField)),
        Err(Unread::NoMemory) => Err(Stop::NoMemory),
    }
}

impl Taking for Drivers {
    ghost takes = { spec.takes_driver };

    /// `BadField` where it is no driver's table, `BadDispatch` where it names a dispatch that isn't there, a major
    /// function code that there isn't or one twice, `TooMany` where there are as many as there may be.
    #[tactic(auto, unfolding(crate::specs::Members::takes_driver))]
    fn take(self, alloc: Global, value: &Value) -> Result<Self, Stop> {
        let table = table_at(alloc, value)?;
        let dispatches = self.dispatches;
        unless(
            is_driver(dispatches, table.as_slice()),
            MemberFault::BadDispatch,
        )?;
        unless(
            self.tables.as_slice().len() < MOST_DRIVERS,
            MemberFault::TooMany,
        )?;
        let tables = with_item(self.tables, table)?;
        Ok(Drivers { dispatches, tables })
    }
}

impl Steps {
    /// Whether it may have the step: its seat is there, `setup` may have it, which has no conditions, and the seat may do
    /// it, and hang it on what it hangs on.
    fn may_have(&self, step: Step) -> bool
        ensures { result ≡ spec.may_have self.now step }
    {
        step.seat < self.seats
            && (!self.in_setup || (step.act.suits_setup() && step.condition.is_none()))
            && self.form.may_do(self.seats, step.seat, step.act)
            && self
                .form
                .may_hang(self.steps.as_slice(), step.seat, step.condition)
    }
}

impl Taking for Steps {
    ghost takes = { spec.takes_step };

    /// `BadField` where it is no step or one that the list may not have, `TooMany` where it names the first label too
    /// many.
    #[tactic(auto, unfolding(crate::specs::Members::takes_step))]
    fn take(self, alloc: Global, value: &Value) -> Result<Self, Stop> {
        let step = or_fault(
            step_at(self.labels.place_in(value), value),
            MemberFault::BadField,
        )?;
        unless(self.may_have(step), MemberFault::BadField)?;
        let labels = self.labels.with_label_in(alloc, value)?;
        let steps = with_item(self.steps, step)?;
        Ok(Steps {
            labels,
            steps,
            ..self
        })
    }
}
