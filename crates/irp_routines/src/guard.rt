//! Answers that are allowed, whoever gave them: an answer that isn't is replaced by a fixed one that always is. Source:
//! this project's own rule.

ghost use Rattle.std.specs.Prelude.{◌≡◌};
ghost use Rattle.irp_routines.specs.Guarded.{fixed_keep, fixed_answer, guarded_answer, guarded_plan, guarded_cancel};

use irp_types::{Answer, CancelAnswer, CancelRule, Known, Plan, Rule, Shown};

/// Whether a completion routine keeps the packet where its rule leaves it no choice; it continues where it has one.
fn fixed_keep(rule: Rule, shown: Shown) -> bool
    ensures { result ≡ fixed_keep rule shown }
{
    match rule {
        Rule::Watch | Rule::Change | Rule::Free => false,
        Rule::Keeper => true,
        Rule::KeepOnError => !shown.status.is_success(),
    }
}

/// An answer that the rule of a completion routine always allows: it replaces nothing, and keeps only where the rule
/// asks for it.
pub(crate) fn fixed_answer(rule: Rule, shown: Shown) -> Answer
    ensures { result ≡ fixed_answer rule shown }
{
    let keep = fixed_keep(rule, shown);
    Answer {
        keep,
        mark: Rule::right_mark(shown, keep),
        replacement: None,
    }
}

/// The answer of a completion routine where its rule allows it, else one that replaces nothing, and that keeps only
/// where the rule asks for it.
pub fn guarded_answer(rule: Rule, shown: Shown, answer: Answer) -> Answer
    ensures { result ≡ guarded_answer rule shown answer }
{
    if rule.allows(shown, answer) {
        return answer;
    }
    fixed_answer(rule, shown)
}

/// The plan of a dispatch where it is allowed to it, else a finish with INVALID_DEVICE_REQUEST and information 0.
pub fn guarded_plan(known: Known, shown: Shown, plan: Plan) -> Plan
    ensures { result ≡ guarded_plan known shown plan }
{
    if known.allows(shown, plan) {
        return plan;
    }
    Plan::INVALID_REQUEST
}

/// The answer of a cancel routine where its rule allows it, else Leave, and a finish with information 0 where the
/// rule asks for one.
pub fn guarded_cancel(rule: CancelRule, answer: CancelAnswer) -> CancelAnswer
    ensures { result ≡ guarded_cancel rule answer }
{
    if rule.allows(answer) {
        return answer;
    }
    match rule {
        CancelRule::MustFinish => CancelAnswer::Finish { information: 0 },
        CancelRule::MustLeave | CancelRule::Either => CancelAnswer::Leave,
    }
}
