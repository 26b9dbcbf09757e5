//! The header of a script's transcripts.

ghost use Rattle.std.specs.Prelude.{◌≡◌, All, IfOk, map};
ghost use Rattle.irp_types.specs.Rules.{IsWithin};
ghost use Rattle.irp_types.specs.State.{most_known, no_routines};
ghost use Rattle.irp_steps.specs.Behaviours.{cancel_rule_of};
ghost use Rattle.irp_script_reader.specs.Sound.{IsSound, with_one, with_all};
ghost use Rattle.irp_machine.specs.Headers.{AreMajorsApart, AreSorted, IsHeaderOf, IsSorted};

use irp_script_reader::{CompletionRoutine, ScriptParts};
use irp_steps::{cancel_rule, form_of};
use irp_transcript::Header;
use irp_types::{CancelAnswer, CancelRule, DispatchId, Known, Row, Rule};
use std::alloc::{AllocError, Global};

/// The counts with one more completion routine of a rule, where they are within the limits.
fn one_more(known: Known, rule: Rule) -> Known
    requires { IsWithin (with_one known rule) most_known }
    ensures { result ≡ with_one known rule }
{
    match rule {
        Rule::Watch => Known {
            watch: known.watch + 1,
            ..known
        },
        Rule::Change => Known {
            change: known.change + 1,
            ..known
        },
        Rule::Keeper => Known {
            keeper: known.keeper + 1,
            ..known
        },
        Rule::KeepOnError => Known {
            keep_on_error: known.keep_on_error + 1,
            ..known
        },
        Rule::Free => Known {
            free: known.free + 1,
            ..known
        },
    }
}

/// How many routines of each kind there are, where they are within the limits.
fn known_of(routines: &[CompletionRoutine], cancels: usize) -> Known
    requires { IsWithin (record (with_all no_routines routines.now) { cancel = cancels })
        most_known }
    ensures { result ≡ record (with_all no_routines routines.now) { cancel = cancels } }
{
    let mut known = Known::NONE;
    for routine in routines {
        known = one_more(known, routine.rule);
    }
    Known {
        cancel: cancels as u32,
        ..known
    }
}

/// The rules of cancel routines that answer so.
fn rules_of(alloc: Global, answers: &[CancelAnswer]) -> Result<Vec<CancelRule>, AllocError>
    ensures { IfOk result (λ rules. rules.items ≡ map cancel_rule_of answers.now) }
{
    let mut rules = Vec::new(alloc);
    for answer in answers {
        rules.push(cancel_rule(*answer))?;
    }
    Ok(rules)
}

/// A driver's pairs by rising major function code.
fn driver_of(
    alloc: Global,
    driver: &[(u8, DispatchId)],
) -> Result<Row<(u8, DispatchId)>, AllocError>
    requires { AreMajorsApart driver.now }
    ensures { IfOk result (IsSorted driver.now) }
{
    let mut pairs = driver.to_vec(alloc)?;
    pairs.sort_by_key(|pair: &(u8, DispatchId)| pair.0)?;
    Ok(Row::from_vec(pairs))
}

/// The drivers, each by rising major function code.
fn drivers_of(
    alloc: Global,
    drivers: &[Row<(u8, DispatchId)>],
) -> Result<Vec<Row<(u8, DispatchId)>>, AllocError>
    requires { All AreMajorsApart drivers.now }
    ensures { IfOk result (λ sorted. AreSorted drivers.now sorted.items) }
{
    let mut sorted = Vec::new(alloc);
    for driver in drivers {
        sorted.push(driver_of(alloc, driver.as_slice())?)?;
    }
    Ok(sorted)
}

/// The header of a script's transcripts.
pub fn header_of(alloc: Global, script: &ScriptParts) -> Result<Header, AllocError>
    requires { IsSound script.now }
    ensures { IfOk result (IsHeaderOf script.now) }
{
    let cancels = script.cancels.as_slice();
    let known = known_of(script.completions.as_slice(), cancels.len());
    let dispatches = Vec::from_elem(alloc, known, script.dispatches.as_slice().len())?;
    Ok(Header {
        cancels: Row::from_vec(rules_of(alloc, cancels)?),
        completions: known,
        dispatches: Row::from_vec(dispatches),
        drivers: Row::from_vec(drivers_of(alloc, script.drivers.as_slice())?),
        form: form_of(script.form),
        locks: script.locks,
        seats: script.seats,
    })
}
