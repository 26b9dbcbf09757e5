//! What the closures of a script answer. Source: this project's own format (docs/FORMATS.md).

ghost use Rattle.std.specs.Prelude.{◌≡◌, true};
ghost use Rattle.irp_types.specs.Rules.{is_allowed, is_cancel_allowed, is_plan_allowed};
ghost use Rattle.irp_types.specs.declared.routine.Known.{Known};
ghost use Rattle.irp_script_reader.specs.Plans.{is_plan_sound, names_known};
ghost use Rattle.irp_script_reader.specs.Routines.{obeys_its_rule};
ghost use Rattle.irp_steps.specs.Behaviours.{answer_of, behaves_so, cancel_rule_of, plan_of};

use irp_script_reader::{Behaviour, CompletionRoutine};
use irp_types::{Answer, CancelAnswer, CancelRule, Plan, Rule, Shown, Status};

/// What a completion routine answers that behaves so.
fn behaves_so(behaviour: Behaviour, shown: Shown) -> Answer
    ensures { result ≡ behaves_so behaviour shown }
{
    let (keep, replacement) = match behaviour {
        Behaviour::Continue => (false, None),
        Behaviour::Keep => (true, None),
        Behaviour::Replace(replacement) => (false, Some(replacement)),
    };
    Answer {
        keep,
        mark: Rule::right_mark(shown, keep),
        replacement,
    }
}

/// What a completion routine of a script answers to what it is shown: it behaves by `on_ok` where the shown status is
/// a success, else by `on_err`, and makes the one mark that any answer may have. A routine whose behaviours are those
/// of its rule answers what its rule allows. It takes no memory.
pub fn table_answer(routine: CompletionRoutine, shown: Shown) -> Answer
    ensures answer { result ≡ answer_of routine shown }
    ensures allowed { obeys_its_rule routine ≡ true → is_allowed routine.rule shown result ≡ true }
{
    let behaviour = if shown.status.is_success() {
        routine.on_ok
    } else {
        routine.on_err
    };
    behaves_so(behaviour, shown)
}

/// What a dispatch of a script with this plan answers to what it is shown: its plan, but a finish with
/// INVALID_DEVICE_REQUEST and information 0 where the plan passes down and no device stands below, and a finish with
/// CANCELLED and information 0 where the plan holds with a cancel routine a packet that is cancelled. A sound plan
/// whose routine is among those that the dispatch may name is answered by what is allowed to it. It takes no memory.
pub fn table_plan(plan: Plan, shown: Shown) -> Plan
    ensures plan { result ≡ plan_of plan shown }
    ensures allowed { (known : Known) → is_plan_sound plan ≡ true → names_known known plan ≡ true
        → is_plan_allowed known shown result ≡ true }
{
    match plan {
        Plan::Skip | Plan::Forward { .. } | Plan::ForwardPend { .. } if !shown.has_lower => {
            Plan::INVALID_REQUEST
        }
        Plan::Hold { cancel: Some(_) } if shown.cancel => Plan::Finish {
            status: Status::CANCELLED,
            information: 0,
        },
        _ => plan,
    }
}

/// The rule of a cancel routine of a script that answers this: one that finishes must finish, and one that leaves
/// must leave. It takes no memory.
pub fn cancel_rule(answer: CancelAnswer) -> CancelRule
    ensures { result ≡ cancel_rule_of answer }
{
    match answer {
        CancelAnswer::Finish { .. } => CancelRule::MustFinish,
        CancelAnswer::Leave => CancelRule::MustLeave,
    }
}

/// What a cancel routine of a script with this answer answers, whatever it is shown. Its rule allows it. It takes no
/// memory.
pub fn table_cancel(answer: CancelAnswer, shown: Shown) -> CancelAnswer
    ensures answer { result ≡ answer }
    ensures allowed { is_cancel_allowed (cancel_rule_of answer) result ≡ true }
{
    let _ = shown;
    answer
}
