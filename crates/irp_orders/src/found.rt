//! The outcomes that were found, in the order in which they are told.

ghost use Rattle.std.specs.Prelude.{◌≡◌, All, IfOk};
ghost use Rattle.std.specs.List.Sorted.{IsPermutation};
ghost use Rattle.irp_orders.specs.Founds.{outcomes_of};
ghost use Rattle.irp_orders.specs.Rows.{IsAnswered, IsOwn};

use crate::facts::answers_of;
use irp_machine::{Answered, Outcome};
use irp_script_reader::Step;
use std::alloc::{AllocError, Global};

/// An outcome, and what each of the script's steps was answered, by place; none where replies were left out.
#[derive(Drop)]
pub struct Found {
    pub outcome: Outcome,
    pub answers: Vec<Option<Answered>>,
    /// How many orders end so.
    pub orders: u128,
    /// How many outcomes were joined in it.
    pub joined: usize,
}

/// So many seats of a path tell its rank.
const RANKED: usize = 21;

/// A number by which paths stand in the order of their first seats, each below 64.
fn rank_of(path: &[u32]) -> u128 {
    let mut rank = 0u128;
    for place in 0..RANKED {
        let seat = path.get(place).copied().unwrap_or(0) & 63;
        rank = (rank << 6) | seat as u128;
    }
    rank
}

/// The outcomes, those first to which most orders lead; of equally frequent ones those whose paths begin with the lowest
/// seats. The one error is want of memory.
pub fn ranked(mut outcomes: Vec<Outcome>) -> Result<Vec<Outcome>, AllocError>
    ensures { IfOk result (λ ranked. IsPermutation outcomes.items ranked.items) }
{
    outcomes.sort_by_key(|outcome: &Outcome| rank_of(outcome.path.as_slice()))?;
    outcomes.sort_by_key(|outcome: &Outcome| u128::MAX - outcome.orders)?;
    Ok(outcomes)
}

/// Puts outcomes beside what their steps were answered, in the same order. The one error is want of memory.
pub fn found_of(
    alloc: Global,
    steps: &[Step],
    mut outcomes: Vec<Outcome>,
) -> Result<Vec<Found>, AllocError>
    ensures outcomes { IfOk result (λ founds. outcomes_of founds.items ≡ outcomes.items) }
    ensures own { IfOk result (λ founds. All IsOwn founds.items) }
    ensures answered { IfOk result (λ founds. All (IsAnswered steps.now) founds.items) }
{
    let mut founds = Vec::new(alloc);
    while let Some(outcome) = outcomes.pop() {
        let answers = answers_of(alloc, steps, &outcome.end)?;
        let orders = outcome.orders;
        founds.push(Found {
            outcome,
            answers,
            orders,
            joined: 1,
        })?;
    }
    founds.reverse();
    Ok(founds)
}
