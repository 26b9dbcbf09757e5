//! Exploring the orders of a script.

ghost use Rattle.std.specs.Prelude.{◌≡◌, All, IfErr, IfOk, not};
ghost use Rattle.irp_machine.specs.Limits.{tells_replies};
ghost use Rattle.irp_machine.specs.Orders.{AreOutcomesOf};
ghost use Rattle.irp_orders.specs.Founds.{outcomes_of};
ghost use Rattle.irp_orders.specs.Rows.{IsAnswered, IsOwn};
ghost use Rattle.irp_orders.specs.Exploring.{IsUnexplored, tells};

use crate::asked::Order;
use crate::ending::Ending;
use crate::found::{Found, found_of, ranked};
use irp_machine::{Compared, Limits, Outcome, orders};
use irp_script_reader::Script;
use std::alloc::Global;

/// No order of a script that was read has so many atomic steps, with the one that closes it.
const MOST_STEPS: u32 = 1_000_000;

/// What tells two outcomes apart: the replies and the end, or the end alone.
fn compared_by(ends_alone: bool) -> Compared
    ensures { tells_replies result ≡ not ends_alone }
{
    if ends_alone {
        Compared::Ends
    } else {
        Compared::Replies
    }
}

/// The outcomes of a script's orders.
///
/// # Errors
///
/// `Met` where a bound is met; `NoMemory` where memory ran out.
fn explored(alloc: Global, script: &Script, order: &Order<'_>) -> Result<Vec<Outcome>, Ending>
    ensures outcomes { IfOk result (λ outcomes.
        AreOutcomesOf script.now (tells order.now) outcomes.items) }
    ensures met { IfErr result (IsUnexplored script.now order.now) }
{
    let limits = Limits {
        states: order.states,
        outcomes: order.outcomes,
        steps: MOST_STEPS,
    };
    match orders(alloc, script, limits, compared_by(order.by_ends)) {
        Ok(outcomes) => Ok(outcomes),
        Err(refusal) => Err(Ending::from(refusal)),
    }
}

/// The outcomes of a script's orders, those first to which most orders lead, each beside what the steps were answered.
///
/// # Errors
///
/// `Met` where a bound is met; `NoMemory` where memory ran out.
pub fn founds_of(alloc: Global, script: &Script, order: &Order<'_>) -> Result<Vec<Found>, Ending>
    ensures outcomes { IfOk result (λ founds.
        AreOutcomesOf script.now (tells order.now) (outcomes_of founds.items)) }
    ensures own { IfOk result (λ founds. All IsOwn founds.items) }
    ensures answered { IfOk result (λ founds. All (IsAnswered script.now.steps) founds.items) }
    ensures met { IfErr result (IsUnexplored script.now order.now) }
{
    let outcomes = explored(alloc, script, order)?;
    let outcomes = ranked(outcomes)?;
    let steps = script.parts().steps.as_slice();
    let founds = found_of(alloc, steps, outcomes)?;
    Ok(founds)
}
