//! What closures answered, and which rule an answer breaks (docs/RULES.md, Rules of closures).

ghost use Rattle.std.specs.Prelude.{◌≡◌, ◌++◌, OnOk};
ghost use Rattle.irp_view.specs.Questions.{answer_text, completion_text, keep_text, mark_text};

use irp_names::{PlanWords, ResultWords};
use irp_transcript::Header;
use irp_types::{Answer, Asked, CancelAnswer, CancelId, CancelRule, Plan, RoutineId, Rule, Shown};
use std::alloc::AllocError;

/// Puts an answer by its parts. The one error is want of memory.
pub fn put_answer(words: &mut String, question: Asked) -> Result<(), AllocError>
    ensures { OnOk result (words.new.bytes.items ≡ words.old.bytes.items ++ answer_text question) }
{
    match question {
        Asked::Dispatch { plan, .. } => write!(words, "{}", PlanWords(plan)),
        Asked::Completion { answer, .. } => put_completion(words, answer),
        Asked::Cancel { answer, .. } => match answer {
            CancelAnswer::Finish { information } => {
                write!(words, "finish, information 0x{:x}", information)
            }
            CancelAnswer::Leave => words.push_str("leave"),
        },
    }
}

/// Puts a completion routine's answer by its parts. The one error is want of memory.
fn put_completion(words: &mut String, answer: Answer) -> Result<(), AllocError>
    ensures { OnOk result
        (words.new.bytes.items ≡ words.old.bytes.items ++ completion_text answer) }
{
    let Answer {
        keep,
        mark,
        replacement,
    } = answer;
    let (kept, marked) = (keep_text(keep), mark_text(mark));
    match replacement {
        Some(put) => {
            let result = ResultWords(put.status, put.information);
            write!(words, "{}{}, sets {}", kept, marked, result)
        }
        None => write!(words, "{}{}", kept, marked),
    }
}

/// Whether a completion routine keeps the packet.
fn keep_text(keep: bool) -> &'static str
    ensures { result.now ≡ keep_text keep }
{
    if keep { "keep" } else { "continue" }
}

/// Whether it marks the packet pending.
fn mark_text(mark: bool) -> &'static str
    ensures { result.now ≡ mark_text mark }
{
    if mark { ", mark" } else { ", no mark" }
}

/// The rule of dispatches that a plan breaks, on condition that it breaks one.
fn plan_rule(shown: Shown, plan: Plan) -> &'static str {
    match plan {
        Plan::Finish { .. } => "Dispatches: Finish has a completable status",
        Plan::Skip | Plan::Forward { .. } | Plan::ForwardPend { .. } if !shown.has_lower => {
            "Dispatches: Skip, Forward and ForwardPend come only where has_lower is shown"
        }
        Plan::Hold { .. } if shown.cancel => {
            "Dispatches: Hold names a cancel routine only where cancel is not shown"
        }
        Plan::Forward { set: Some(set) } if !matches!(set.routine.rule, Rule::Watch) => {
            "Dispatches: Forward sets only a routine of rule Watch"
        }
        _ => "Dispatches: each routine named is within the dispatch's counts",
    }
}

/// What a rule allows.
fn rule_words(rule: Rule) -> &'static str {
    match rule {
        Rule::Watch => "rule Watch: Continue, no replacement",
        Rule::Change => "rule Change: Continue, with or without a replacement",
        Rule::Keeper => "rule Keeper: Keep, no replacement",
        Rule::KeepOnError => {
            "rule KeepOnError: Keep exactly where the shown status is not a success, else Continue; no replacement"
        }
        Rule::Free => "rule Free: Continue or Keep, with or without a replacement",
    }
}

/// The rule of completion routines that an answer breaks, on condition that it breaks one.
fn completion_rule(id: RoutineId, shown: Shown, answer: Answer) -> &'static str {
    if answer.mark != Rule::right_mark(shown, answer.keep) {
        return "Completion routines: mark is true exactly where the routine continues, PendingReturned is shown and a device is shown";
    }
    match answer.replacement {
        Some(put) if !put.status.is_completable() => {
            "Completion routines: a replacement has a completable status"
        }
        _ => rule_words(id.rule),
    }
}

/// The rule of a cancel routine.
fn cancel_rule(header: Option<&Header>, id: CancelId) -> &'static str {
    let rules = match header {
        Some(header) => header.cancels.as_slice(),
        None => &[],
    };
    match rules.get(id.0 as usize) {
        Some(CancelRule::MustFinish) => "rule MustFinish: answers Finish",
        Some(CancelRule::MustLeave) => "rule MustLeave: answers Leave",
        Some(CancelRule::Either) => "rule Either: answers either",
        None => "Cancel routines: there is no such routine",
    }
}

/// The rule that an answer breaks, the first of docs/RULES.md, on condition that it breaks one.
pub fn broken_rule(header: Option<&Header>, question: Asked) -> &'static str {
    match question {
        Asked::Dispatch { shown, plan, .. } => plan_rule(shown, plan),
        Asked::Completion { id, shown, answer } => completion_rule(id, shown, answer),
        Asked::Cancel { id, .. } => cancel_rule(header, id),
    }
}
