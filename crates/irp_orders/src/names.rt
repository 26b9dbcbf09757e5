//! The names of statuses and refusals, for conditions that are read.

ghost use Rattle.std.specs.Prelude.{◌≡◌, IfOk, map};
ghost use Rattle.irp_orders.specs.Conditions.{refusal_words, status_words, word_of};

use irp_condition::{Named, Value};
use irp_forms::HasName;
use irp_names::refusal_name;
use irp_types::Refusal;
use std::alloc::{AllocError, Global};

/// The names that values have in conditions.
#[derive(Drop)]
pub struct Names {
    pub statuses: Vec<Named>,
    pub refusals: Vec<Named>,
}

/// The names of the statuses, each with its number.
fn status_names(alloc: Global) -> Result<Vec<Named>, AllocError>
    ensures { IfOk result (λ names. map word_of names.items ≡ status_words) }
{
    let mut names = Vec::new(alloc);
    let rows = irp_names::status_names();
    for row in rows {
        let (name, value) = (row.1, Value::Number(row.0 as u64));
        names.push(Named { name, value })?;
    }
    Ok(names)
}

/// The names of the refusals.
fn refusal_names(alloc: Global) -> Result<Vec<Named>, AllocError>
    ensures { IfOk result (λ names. map word_of names.items ≡ refusal_words) }
{
    let mut names = Vec::new(alloc);
    let refusals = Refusal::all();
    for refusal in refusals {
        let (name, value) = (refusal_name(*refusal), Value::Refused(*refusal));
        names.push(Named { name, value })?;
    }
    Ok(names)
}

/// The names of all statuses and refusals that have one. The one error is want of memory.
pub fn value_names(alloc: Global) -> Result<Names, AllocError>
    ensures statuses { IfOk result (λ names. map word_of names.statuses.items ≡ status_words) }
    ensures refusals { IfOk result (λ names. map word_of names.refusals.items ≡ refusal_words) }
{
    Ok(Names {
        statuses: status_names(alloc)?,
        refusals: refusal_names(alloc)?,
    })
}
