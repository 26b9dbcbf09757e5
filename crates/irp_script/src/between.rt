//! References that are handed over between workers.

ghost use Rattle.std.specs.Prelude.{◌≡◌, ◌<◌, position};
ghost use Rattle.irp_script.specs.Between.{hands_between};

use irp_script_reader::{ScriptParts, Step, StepAct};

/// Whether a step hands a reference to a seat that falls to another of so many workers.
fn hands_between(step: Step, workers: u32) -> bool
    requires { 0 < workers }
    ensures { result ≡ hands_between workers step }
{
    match step.act {
        StepAct::Hand(hand) => step.seat % workers != hand.to % workers,
        _ => false,
    }
}

/// The place in the script's `steps`, from 0, of the first step that hands a reference between seats that fall to
/// different workers; None where there is no such step. Of so many workers, at least 1, seat s falls to worker s modulo
/// their number. Such a step can't be run, since a worker has only its own seats at hand (this project's own rule,
/// docs/FORMATS.md).
pub fn hand_between(script: &ScriptParts, workers: u32) -> Option<usize>
    requires { 0 < workers }
    ensures { result ≡ position (hands_between workers) script.now.steps }
{
    for (place, step) in script.steps.as_slice().iter().enumerate() {
        if hands_between(*step, workers) {
            return Some(place);
        }
    }
    None
}
