//! Whether a script is what lines say.

ghost use Rattle.std.specs.Prelude.{◌≡◌, ◌↔◌, map, string_bytes, true};
ghost use Rattle.irp_grammar.specs.Saying.{Says, form_of, have_conditions, labels_of, line_of, plan_line};

use crate::said::Said;
use crate::step_line::{PlanLine, StepLine, line_of, plan_line};
use irp_script_reader::{CompletionRoutine, ScriptForm, ScriptParts, Step};
use irp_types::{CancelAnswer, DispatchId, Plan, Row};

/// Whether two forms are equal.
fn is_form(one: ScriptForm, other: ScriptForm) -> bool
    ensures { (result ≡ true) ↔ (one ≡ other) }
{
    one == other
}

/// Whether two lists have equal completion routines in the same order.
fn are_completions(one: &[CompletionRoutine], other: &[CompletionRoutine]) -> bool
    ensures { (result ≡ true) ↔ (one.now ≡ other.now) }
{
    one == other
}

/// Whether two lists have equal answers of cancel routines in the same order.
fn are_cancels(one: &[CancelAnswer], other: &[CancelAnswer]) -> bool
    ensures { (result ≡ true) ↔ (one.now ≡ other.now) }
{
    one == other
}

/// Whether two tables of drivers are equal.
fn is_table(one: &[(u8, DispatchId)], other: &[(u8, DispatchId)]) -> bool
    ensures { (result ≡ true) ↔ (one.now ≡ other.now) }
{
    one == other
}

/// Whether two lists have equal drivers in the same order.
fn are_drivers(one: &[Row<(u8, DispatchId)>], other: &[Row<(u8, DispatchId)>]) -> bool
    ensures { (result ≡ true) ↔ (one.now ≡ other.now) }
{
    if one.len() != other.len() {
        return false;
    }
    for place in 0..one.len() {
        if !is_table(one[place].as_slice(), other[place].as_slice()) {
            return false;
        }
    }
    true
}

/// Whether two lines of plans are equal.
fn is_plan(one: PlanLine, other: PlanLine) -> bool
    ensures { (result ≡ true) ↔ (one ≡ other) }
{
    one == other
}

/// Whether the plans are those of the lines, in order.
fn are_plans(lines: &[PlanLine], plans: &[Plan]) -> bool
    ensures { (result ≡ true) ↔ (lines.now ≡ map plan_line plans.now) }
{
    if lines.len() != plans.len() {
        return false;
    }
    for place in 0..lines.len() {
        if !is_plan(lines[place], plan_line(plans[place])) {
            return false;
        }
    }
    true
}

/// Whether two lines of steps are equal.
fn is_step(one: StepLine, other: StepLine) -> bool
    ensures { (result ≡ true) ↔ (one ≡ other) }
{
    one == other
}

/// Whether the steps are those of the lines, in order.
fn are_steps(lines: &[StepLine], steps: &[Step]) -> bool
    ensures { (result ≡ true) ↔ (lines.now ≡ map line_of steps.now) }
{
    if lines.len() != steps.len() {
        return false;
    }
    for place in 0..lines.len() {
        if !is_step(lines[place], line_of(steps[place])) {
            return false;
        }
    }
    true
}

/// Whether two texts are equal.
fn is_text(one: &str, other: &str) -> bool
    ensures { (result ≡ true) ↔ (other.now ≡ one.now) }
{
    other == one
}

/// Whether labels have these texts, in the same order.
fn are_labels(labels: &[&str], texts: &[String]) -> bool
    ensures { (result ≡ true)
        ↔ (map string_bytes texts.now ≡ map (λ label. label.now) labels.now) }
{
    if labels.len() != texts.len() {
        return false;
    }
    for place in 0..labels.len() {
        if !is_text(labels[place], texts[place].as_str()) {
            return false;
        }
    }
    true
}

/// The form that lines say.
fn form_said(said: &Said<'_>) -> ScriptForm
    ensures { result ≡ form_of said.now.form said.now.slots (have_conditions said.now.steps.items) }
{
    let slots = said.slots.unwrap_or(0);
    match said.form_number() {
        4 => ScriptForm::Four { slots },
        2 => ScriptForm::Two { slots },
        _ => ScriptForm::One,
    }
}

/// Whether a script's labels are those that the lines name.
fn has_labels(parts: &ScriptParts, said: &Said<'_>) -> bool
    ensures { (result ≡ true) ↔ (parts.now.labels ≡ labels_of said.now) }
{
    are_labels(said.names.labels(), parts.labels.as_slice())
}

/// Whether a script's steps are what the lines say, and its labels.
fn says_steps(said: &Said<'_>, parts: &ScriptParts) -> bool
    ensures { (result ≡ true) ↔ ((said.now.setup.items ≡ map line_of parts.now.setup)
        × (said.now.steps.items ≡ map line_of parts.now.steps)
        × (parts.now.labels ≡ labels_of said.now)) }
{
    are_steps(said.setup.as_slice(), parts.setup.as_slice())
        && are_steps(said.steps.as_slice(), parts.steps.as_slice())
        && has_labels(parts, said)
}

/// Whether a script's counts and lists are what the lines say, member by member in order.
pub fn says(said: &Said<'_>, parts: &ScriptParts) -> bool
    ensures { (result ≡ true) ↔ Says said.now parts.now }
{
    is_form(parts.form, form_said(said))
        && parts.seats == said.seats.unwrap_or(1)
        && parts.locks == said.locks.unwrap_or(1)
        && are_completions(parts.completions.as_slice(), said.completions.as_slice())
        && are_cancels(parts.cancels.as_slice(), said.cancels.as_slice())
        && are_plans(said.dispatches.as_slice(), parts.dispatches.as_slice())
        && are_drivers(parts.drivers.as_slice(), said.drivers.as_slice())
        && says_steps(said, parts)
}
