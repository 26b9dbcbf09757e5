//! What the steps of one order are answered, one after another.

ghost use Rattle.std.specs.Prelude.{◌≡◌, ◌++◌, IfErr, IfOk, None, Some, true};
ghost use Rattle.irp_script_reader.specs.Sound.{IsSound};
ghost use Rattle.irp_machine.specs.Answering as spec;
ghost use Rattle.irp_machine.specs.Answering.{IsToldAlong, IsToldOf};
ghost use Rattle.irp_machine.specs.Headers.{IsHeaderOf};
ghost use Rattle.irp_machine.specs.Machine.{StepsTo, act_of, seat_at};
ghost use Rattle.irp_machine.specs.Openings.{IsStuck, rules_of};
ghost use Rattle.irp_machine.specs.Replays.{StopsShort};
ghost use Rattle.irp_machine.specs.declared.limits.NotMade.TheVariants.{NoStep};

use crate::header::header_of;
use crate::limits::NotMade;
use crate::machine::ScriptMachine;
use crate::opening::machine_of;
use crate::replaying::opening;
use crate::standing::Standing;
use irp_plain::Told;
use irp_script_reader::{Script, ScriptParts};
use irp_transcript::Header;
use std::alloc::{AllocError, Global};

/// What a seat was told so far.
fn told_so_far(standing: &Standing, seat: u32) -> &[Told]
    ensures { result.now ≡ (seat_at standing.now seat).told }
{
    match standing.seats().get(seat as usize) {
        Some(own) => own.told(),
        None => &[],
    }
}

/// Appends what a seat was told by a step that led from there to here.
fn add_news(
    told: &mut Vec<Told>,
    before: &Standing,
    after: &Standing,
    seat: u32,
) -> Result<(), AllocError>
    ensures { IfOk result (λ done. told.new.items
        ≡ told.old.items ++ spec.news (seat_at before.now seat) (seat_at after.now seat)) }
{
    let known = told_so_far(before, seat).len();
    if let Some(news) = told_so_far(after, seat).get(known..) {
        told.extend_from_slice(news)?;
    }
    Ok(())
}

/// Makes the next step of a seat, and appends what it was told by it.
///
/// # Errors
///
/// `NoStep` where the seat isn't there, or has no step left; `Memory` where memory runs out.
fn step(
    machine: &ScriptMachine,
    standing: &Standing,
    seat: u32,
    told: &mut Vec<Told>,
) -> Result<Standing, NotMade>
    ensures steps { IfOk result (λ after.
        StepsTo machine.now standing.now seat (act_of machine.now standing.now seat) (Some after)) }
    ensures told { IfOk result (λ after. told.new.items
        ≡ told.old.items ++ spec.news (seat_at standing.now seat) (seat_at after seat)) }
    ensures no_step { IfErr result (λ refusal. refusal ≡ NoStep
        → act_of machine.now standing.now seat ≡ None) }
{
    let Some(after) = machine.step_of(standing, seat as usize)? else {
        return Err(NotMade::NoStep);
    };
    add_news(told, standing, &after, seat)?;
    Ok(after)
}

/// Makes the next steps of these seats, one after another. Returns what they were told.
///
/// # Errors
///
/// `NoStep` where a seat isn't there at its turn, or has no step left; `Memory` where memory runs out.
fn told_along(
    alloc: Global,
    machine: &ScriptMachine,
    start: Standing,
    path: &[u32],
) -> Result<Vec<Told>, NotMade>
    ensures told { IfOk result (λ told. IsToldAlong machine.now start path.now told.items) }
    ensures no_step { IfErr result (λ refusal. refusal ≡ NoStep
        → IsStuck machine.now start path.now) }
{
    let mut told = Vec::new(alloc);
    let mut standing = start;
    for seat in path {
        standing = step(machine, &standing, *seat, &mut told)?;
    }
    Ok(told)
}

/// The same, from where a script stands behind its setup.
fn told_behind(
    alloc: Global,
    header: &Header,
    script: &ScriptParts,
    path: &[u32],
) -> Result<Vec<Told>, NotMade>
    requires headed { IsHeaderOf script.now header.now }
    requires sound { IsSound script.now }
    ensures told { IfOk result (λ told. IsToldOf script.now path.now told.items) }
    ensures no_step { IfErr result (λ refusal. refusal ≡ NoStep
        → StopsShort script.now path.now) }
{
    let start = opening(alloc, header, script)?;
    let steps = script.steps.as_slice();
    let machine = machine_of(alloc, header, script, steps, steps, true)?;
    let told = told_along(alloc, &machine, start, path)?;
    Ok(told)
}

/// What the steps of a script are answered along a path of seats, each with its place, in the order in which they are
/// answered: nothing of a step that is passed over, or isn't answered yet.
///
/// # Errors
///
/// `NoStep` where a seat of the path isn't there at its turn, or has no step left; `Memory` where memory runs out, or
/// the setup or the steps of the script are 2^32 or more.
pub fn answers_along(alloc: Global, script: &Script, path: &[u32]) -> Result<Vec<Told>, NotMade>
    ensures told { IfOk result (λ told. IsToldOf script.now path.now told.items) }
    ensures no_step { IfErr result (λ refusal. refusal ≡ NoStep
        → StopsShort script.now path.now) }
{
    let script = script.parts();
    let header = header_of(alloc, script)?;
    let told = told_behind(alloc, &header, script, path)?;
    Ok(told)
}
