//! Every order of a script.

ghost use Rattle.std.specs.Prelude.{◌≡◌, ◌<◌, ◌≤◌, ◌+◌, All, IfErr, IfOk, length, vec_len};
ghost use Rattle.irp_explore.specs.Counted.{HasManyOrders};
ghost use Rattle.irp_explore.specs.Nodes.{HasMoreStates, HasOrderOf};
ghost use Rattle.irp_machine.specs.Machine.{PlaceSteps, place_mark};
ghost use Rattle.irp_machine.specs.declared.place.Place.TheVariants.{Running};
ghost use Rattle.irp_machine.specs.Limits.{tells_replies};
ghost use Rattle.irp_machine.specs.Orders.{AllTell, AreOrders, AreOutcomesOf, HasMoreEnds, IsClosed, IsMet, IsOpened, Tells};
ghost use Rattle.irp_machine.specs.declared.limits.NotFound.TheVariants.{Orders, Outcomes, States, Steps};

use crate::header::header_of;
use crate::limits::{Compared, Limits, NotFound};
use crate::machine::ScriptMachine;
use crate::opening::machine_of;
use crate::outcome::Outcome;
use crate::place::Place;
use crate::replaying::opening;
use crate::standing::Standing;
use irp_explore::{Node, Path, explore, fewest_changes};
use irp_script_reader::Script;
use std::alloc::{AllocError, Global};

/// Of these orders the one that changes its seat least often, without its last step, which closes it.
fn opened_path(fewest: Vec<Path>) -> Vec<u32>
    requires some { 0 < length fewest.items }
    requires closed { All (λ path. 0 < length path) fewest.items }
    ensures { IsOpened fewest.items result.items }
{
    let Some(fewest) = fewest_changes(fewest) else {
        unreachable!();
    };
    let mut path = fewest.into_vec();
    path.pop();
    path
}

/// What a state tells in which an order has ended.
fn outcome_of(node: Node<Place>) -> Outcome
    requires { IsClosed node }
    ensures { Tells node result }
{
    let (state, orders, fewest) = (node.state, node.orders, node.fewest);
    let Place::Over(end) = state else {
        unreachable!();
    };
    let path = opened_path(fewest);
    Outcome { orders, path, end }
}

/// The outcomes of what was found, in its order.
fn outcomes_of(alloc: Global, mut found: Vec<Node<Place>>) -> Result<Vec<Outcome>, AllocError>
    requires { All IsClosed found.items }
    ensures { IfOk result (λ outcomes. AllTell found.items outcomes.items) }
{
    let mut outcomes = Vec::new(alloc);
    while let Some(node) = found.pop() {
        outcomes.push(outcome_of(node))?;
    }
    outcomes.reverse();
    Ok(outcomes)
}

/// Explores each order of the atomic steps of a script's seats, from where it stands. Each place that is found tells
/// how the script has ended.
///
/// # Errors
///
/// Those of `explore`, and `Outcomes` where more places are found than there may be outcomes.
fn explored(
    alloc: Global,
    machine: &ScriptMachine,
    standing: Standing,
    limits: Limits,
) -> Result<Vec<Node<Place>>, NotFound>
    ensures orders { IfOk result (λ found.
        AreOrders (PlaceSteps machine.now) (length machine.now.acts + 1) (Running standing)
        found.items) }
    ensures few { IfOk result (λ found. vec_len found ≤ limits.outcomes) }
    ensures too_long { IfErr result (λ refusal. refusal ≡ Steps
        → HasOrderOf (PlaceSteps machine.now) (length machine.now.acts + 1) (Running standing)
        limits.steps) }
    ensures too_many { IfErr result (λ refusal. refusal ≡ States
        → HasMoreStates (PlaceSteps machine.now) (length machine.now.acts + 1) place_mark
        (Running standing) limits.states) }
    ensures too_many_orders { IfErr result (λ refusal. refusal ≡ Orders
        → HasManyOrders (PlaceSteps machine.now) (length machine.now.acts + 1)
        (Running standing)) }
    ensures too_many_ends { IfErr result (λ refusal. refusal ≡ Outcomes
        → HasMoreEnds (PlaceSteps machine.now) (length machine.now.acts + 1) (Running standing)
        limits.outcomes) }
{
    let start = Place::Running(standing);
    let found = explore(alloc, machine, start, limits.steps, limits.states)?;
    if found.len() > limits.outcomes {
        return Err(NotFound::Outcomes);
    }
    Ok(found)
}

/// Each way in which the orders of a script's atomic steps end, behind its setup, with how many orders do and one of
/// them (this project's own rule). Each order has a legal history (`orders_have_histories`).
///
/// # Errors
///
/// Those of `NotFound`: a bound that is told is one that the orders meet.
pub fn orders(
    alloc: Global,
    script: &Script,
    limits: Limits,
    compared: Compared,
) -> Result<Vec<Outcome>, NotFound>
    ensures outcomes { IfOk result (λ outcomes.
        AreOutcomesOf script.now (tells_replies compared) outcomes.items) }
    ensures few { IfOk result (λ outcomes. vec_len outcomes ≤ limits.outcomes) }
    ensures too_long { IfErr result (λ refusal. refusal ≡ Steps
        → IsMet script.now (tells_replies compared)
        (λ moves seats start. HasOrderOf moves seats start limits.steps)) }
    ensures too_many { IfErr result (λ refusal. refusal ≡ States
        → IsMet script.now (tells_replies compared)
        (λ moves seats start. HasMoreStates moves seats place_mark start limits.states)) }
    ensures too_many_orders { IfErr result (λ refusal. refusal ≡ Orders
        → IsMet script.now (tells_replies compared)
        (λ moves seats start. HasManyOrders moves seats start)) }
    ensures too_many_ends { IfErr result (λ refusal. refusal ≡ Outcomes
        → IsMet script.now (tells_replies compared)
        (λ moves seats start. HasMoreEnds moves seats start limits.outcomes)) }
{
    let script = script.parts();
    let header = header_of(alloc, script)?;
    let standing = opening(alloc, &header, script)?;
    let steps = script.steps.as_slice();
    let machine = machine_of(alloc, &header, script, steps, steps, compared.tells())?;
    let found = explored(alloc, &machine, standing, limits)?;
    let outcomes = outcomes_of(alloc, found)?;
    Ok(outcomes)
}
