//! What a worker's steps were answered, by their places.

ghost use Rattle.std.specs.Prelude.{◌≡◌, IfOk, is_some};
ghost use Rattle.std.specs.List.{list_any};
ghost use Rattle.irp_script_reader.specs.declared.act.Step.{Step};
ghost use Rattle.irp_steps.specs.Conditions.{none_heard, with_answer};

use irp_script_reader::Step;
use irp_steps::Answered;
use std::alloc::{AllocError, Global};

/// Whether one of these steps has a condition.
fn has_conditions(steps: &[Step]) -> bool
    ensures { result ≡ list_any (λ (step : Step). is_some step.condition) steps.now }
{
    steps.iter().any(|step| step.condition.is_some())
}

/// Room for the answers of these steps, of which nothing was heard yet. Where none has a condition it takes no memory.
///
/// # Errors
///
/// `AllocError` where a growth was refused.
pub fn none_heard(alloc: Global, steps: &[Step]) -> Result<Vec<Option<Answered>>, AllocError>
    ensures { IfOk result (λ heard. heard.items ≡ none_heard steps.now) }
{
    if !has_conditions(steps) {
        return Ok(Vec::new(alloc));
    }
    Ok(vec![in alloc; None; steps.len()]?)
}

/// Keeps what the step of this place was answered, where answers are kept. It takes no memory.
pub fn keep(heard: &mut Vec<Option<Answered>>, step: u32, answer: Answered)
    ensures { heard.new.items ≡ with_answer heard.old.items step answer }
{
    let place = step as usize;
    if place < heard.len() {
        heard[place] = Some(answer);
    }
}
