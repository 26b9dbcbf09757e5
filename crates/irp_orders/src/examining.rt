//! Whether every order of a script ends right.

ghost use Rattle.std.specs.Prelude.{◌≡◌, [], IfErr, IfOk};
ghost use Rattle.irp_machine.specs.Replays.{IsReplay};
ghost use Rattle.irp_orders.specs.Judging.{IsExamined};
ghost use Rattle.irp_orders.specs.Program as spec;
ghost use Rattle.irp_orders.specs.Program.{Examines, IsUnexamined, IsUnsaid, IsUntold, TellsExamined, TellsRight};

use crate::asked::Order;
use crate::ending::Ending;
use crate::exploring::founds_of;
use crate::found::Found;
use crate::judging::{Question, answered};
use irp_machine::{paths_can_be_made, replay};
use irp_script_reader::Script;
use irp_transcript::Transcript;
use std::alloc::Global;

/// What tells the setup of a script: the transcript of the order that has no step.
///
/// # Errors
///
/// `NoMemory` where memory ran out.
fn setup_of(alloc: Global, script: &Script) -> Result<Transcript, Ending>
    ensures setup { IfOk result (λ transcript. IsReplay script.now [] transcript) }
    ensures unmade { IfErr result IsUnexamined }
{
    match replay(alloc, script, &[]) {
        Ok(transcript) => Ok(transcript),
        Err(refusal) => Err(Ending::from(refusal)),
    }
}

/// Whether the outcomes of a script's orders are right: the text that tells it, and how the program ends then.
///
/// # Errors
///
/// `NoMemory` where memory ran out; `NoOrder` where the order of an outcome can't be made again.
#[tactic(auto, using(crate::proofs::Showing::unmade_untold, crate::proofs::Showing::unexamined_untold))]
fn examined(alloc: Global, script: &Script, founds: &[Found]) -> Result<(Vec<u8>, Ending), Ending>
    ensures told { IfOk result (λ told. IsExamined script.now founds.now told.1) }
    ensures tells { IfOk result (λ told. TellsExamined script.now founds.now told.0.items told.1) }
    ensures untold { IfErr result (IsUntold script.now founds.now) }
{
    let setup = setup_of(alloc, script)?;
    match answered(alloc, script, founds, Question::Right(setup.entries())) {
        Ok(told) => Ok(told),
        Err(refusal) => Err(Ending::from(refusal)),
    }
}

/// The same order, and answers of steps tell outcomes apart.
fn with_replies<'a>(order: &Order<'a>) -> Order<'a>
    ensures { result ≡ spec.with_replies order.now }
{
    let mut order = *order;
    order.by_ends = false;
    order
}

/// Whether every order of a script ends right: the text that tells it, and how the program ends then (this project's own
/// rule).
///
/// # Errors
///
/// `Met` where a bound is met; `NoMemory` where memory ran out.
pub fn explore_and_examine(
    alloc: Global,
    script: &Script,
    order: &Order<'_>,
) -> Result<(Vec<u8>, Ending), Ending>
    ensures told { IfOk result (λ told. Examines script.now order.now told.1) }
    ensures tells { IfOk result (λ told. TellsRight script.now told.0.items told.1) }
    ensures untold { IfErr result (Examines script.now order.now) }
    ensures unsaid { IfErr result IsUnsaid }
{
    let order = with_replies(order);
    paths_can_be_made();
    match founds_of(alloc, script, &order) {
        Ok(founds) => examined(alloc, script, founds.as_slice()),
        Err(ending) => Err(ending),
    }
}
