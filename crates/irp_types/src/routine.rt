//! Completion routines and cancel routines by their rules, and what a store has of them. What names no page of the WDK
//! is this project's own rule.

ghost use Rattle.std.specs.Prelude.{◌≡◌, ◌↔◌, true};
ghost use Rattle.irp_types.specs.Rules.{is_allowed, is_cancel_allowed, is_plan_allowed, is_known, count_of_rule};
ghost use Rattle.irp_types.specs.Rules.{right_mark, obeys, IsWithin};

use crate::answer::{Answer, CancelAnswer, Plan};
use crate::shown::Shown;

/// What a completion routine promised of its answers.
#[derive(Clone, Copy, PartialEq, Eq, Debug)]
pub enum Rule {
    /// Continues, and replaces nothing.
    Watch,
    /// Continues, and may replace status and information.
    Change,
    /// Keeps the packet, and replaces nothing.
    Keeper,
    /// Keeps the packet exactly where the status that it is shown isn't a success, and replaces nothing.
    KeepOnError,
    /// Continues or keeps, and may replace.
    Free,
}

impl Rule {
    /// The one mark that an answer may have: a routine that continues marks the location above its own exactly where it
    /// is shown PendingReturned and a device.
    pub fn right_mark(shown: Shown, keep: bool) -> bool
        ensures { result ≡ right_mark shown keep }
    {
        !keep && shown.pending_returned && shown.device.is_some()
    }

    /// Whether a completion routine of this rule may give this answer to what it is shown.
    pub fn allows(self, shown: Shown, answer: Answer) -> bool
        ensures { result ≡ is_allowed self shown answer }
    {
        let completable = match answer.replacement {
            Some(replacement) => replacement.status.is_completable(),
            None => true,
        };
        answer.mark == Rule::right_mark(shown, answer.keep)
            && completable
            && self.is_obeyed(shown, answer)
    }

    /// Whether the answer keeps or continues, and replaces, as the rule lets it.
    fn is_obeyed(self, shown: Shown, answer: Answer) -> bool
        ensures { result ≡ obeys self shown answer }
    {
        let replaces = answer.replacement.is_some();
        match self {
            Rule::Watch => !answer.keep && !replaces,
            Rule::Change => !answer.keep,
            Rule::Keeper => answer.keep && !replaces,
            Rule::KeepOnError => answer.keep == !shown.status.is_success() && !replaces,
            Rule::Free => true,
        }
    }
}

/// What a cancel routine promised of its answers.
#[derive(Clone, Copy, PartialEq, Eq, Debug)]
pub enum CancelRule {
    /// Finishes the packet.
    MustFinish,
    /// Leaves the packet as it is.
    MustLeave,
    /// Either of these.
    Either,
}

impl CancelRule {
    /// Whether a cancel routine of this rule may give this answer.
    pub fn allows(self, answer: CancelAnswer) -> bool
        ensures { result ≡ is_cancel_allowed self answer }
    {
        match self {
            CancelRule::MustFinish => matches!(answer, CancelAnswer::Finish { .. }),
            CancelRule::MustLeave => matches!(answer, CancelAnswer::Leave),
            CancelRule::Either => true,
        }
    }
}

/// A completion routine: its rule, and its number within the rule, from 0.
#[derive(Clone, Copy, PartialEq, Eq, Debug)]
pub struct RoutineId {
    pub rule: Rule,
    pub no: u32,
}

/// What IoSetCompletionRoutine puts into a location (WDK: "IoSetCompletionRoutine").
#[derive(Clone, Copy, PartialEq, Eq, Debug)]
pub struct Setting {
    pub routine: RoutineId,
    /// What the routine is shown as its context.
    pub context: u64,
    /// SL_INVOKE_ON_SUCCESS.
    pub on_success: bool,
    /// SL_INVOKE_ON_ERROR.
    pub on_error: bool,
    /// SL_INVOKE_ON_CANCEL.
    pub on_cancel: bool,
}

/// How many completion routines of each rule, and how many cancel routines: those that a store has, or those
/// that a dispatch may name.
#[derive(Clone, Copy, PartialEq, Eq, Debug)]
pub struct Known {
    pub watch: u32,
    pub change: u32,
    pub keeper: u32,
    pub keep_on_error: u32,
    pub free: u32,
    pub cancel: u32,
}

impl Known {
    /// No routines of any kind.
    pub const NONE: Known = Known {
        watch: 0,
        change: 0,
        keeper: 0,
        keep_on_error: 0,
        free: 0,
        cancel: 0,
    };

    /// How many completion routines of a rule.
    pub fn count_of(self, rule: Rule) -> u32
        ensures { result ≡ count_of_rule self rule }
    {
        match rule {
            Rule::Watch => self.watch,
            Rule::Change => self.change,
            Rule::Keeper => self.keeper,
            Rule::KeepOnError => self.keep_on_error,
            Rule::Free => self.free,
        }
    }

    /// Whether there are at most as many of each kind as in `counts`.
    pub fn is_within(self, counts: Known) -> bool
        ensures { result ≡ true ↔ IsWithin self counts }
    {
        self.watch <= counts.watch
            && self.change <= counts.change
            && self.keeper <= counts.keeper
            && self.keep_on_error <= counts.keep_on_error
            && self.free <= counts.free
            && self.cancel <= counts.cancel
    }

    /// Whether the routine of a setting is one of these: its number is below the count of its rule.
    pub fn has(self, setting: Setting) -> bool
        ensures { result ≡ is_known self setting }
    {
        setting.routine.no < self.count_of(setting.routine.rule)
    }

    /// Whether a dispatch that may name these routines may plan so when it is shown this: it finishes with a status
    /// that can complete a packet; holds a packet for a cancel slot always; passes down only where a device stands
    /// below; names a cancel routine only for a packet that isn't cancelled; sets only a routine of rule Watch where it
    /// doesn't mark its location; and names only routines within these counts.
    pub fn allows(self, shown: Shown, plan: Plan) -> bool
        ensures { result ≡ is_plan_allowed self shown plan }
    {
        match plan {
            Plan::Finish { status, .. } => status.is_completable(),
            Plan::Hold { cancel: None } => true,
            Plan::Hold { cancel: Some(id) } => !shown.cancel && id.0 < self.cancel,
            Plan::HoldSlot => true,
            Plan::Skip => shown.has_lower,
            Plan::Forward { set: None } | Plan::ForwardPend { set: None } => shown.has_lower,
            Plan::Forward { set: Some(set) } => {
                shown.has_lower && matches!(set.routine.rule, Rule::Watch) && self.has(set)
            }
            Plan::ForwardPend { set: Some(set) } => shown.has_lower && self.has(set),
        }
    }
}
