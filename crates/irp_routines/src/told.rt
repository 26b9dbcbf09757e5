//! The tables of whoever is asked, read by its answers.

ghost use Rattle.std.specs.Prelude.{◌≡◌, slice_index_or, [], IfOk};

use crate::ask::Ask;
use irp_types::limits::LAST_MAJOR;
use irp_types::{CancelId, CancelRule, DispatchId, DriverId, Known, Row};
use std::alloc::{AllocError, Global};

/// The rules of the cancel routines, by number.
pub fn told_rules<A: Ask>(alloc: Global, ask: &A) -> Result<Vec<CancelRule>, AllocError>
    ensures { IfOk result (λ rules. rules.items ≡ (A.tables ask.now).cancel_rules) }
{
    let mut rules = Vec::new(alloc);
    for number in 0..ask.counts().cancel {
        rules.push(ask.cancel_rule(CancelId(number)))?;
    }
    Ok(rules)
}

/// The routines that each dispatch may name, by the dispatch's number.
pub fn told_dispatches<A: Ask>(alloc: Global, ask: &A) -> Result<Vec<Known>, AllocError>
    ensures { IfOk result (λ dispatches. dispatches.items ≡ (A.tables ask.now).dispatches) }
{
    let mut dispatches = Vec::new(alloc);
    for number in 0..ask.dispatches() {
        dispatches.push(ask.known_of(DispatchId(number)))?;
    }
    Ok(dispatches)
}

/// A driver's major function codes, rising, with their dispatches. None where there is no such driver.
fn told_driver<A: Ask>(
    alloc: Global,
    ask: &A,
    driver: DriverId,
) -> Result<Vec<(u8, DispatchId)>, AllocError>
    ensures { IfOk result (λ pairs.
        pairs.items ≡ slice_index_or (A.tables ask.now).drivers driver.0 []) }
{
    let mut pairs = Vec::new(alloc);
    for major in 0..LAST_MAJOR + 1 {
        if let Some(dispatch) = ask.dispatch_of(driver, major) {
            pairs.push((major, dispatch))?;
        }
    }
    Ok(pairs)
}

/// The drivers by number: each one's major function codes, rising, with their dispatches.
pub fn told_drivers<A: Ask>(
    alloc: Global,
    ask: &A,
) -> Result<Vec<Row<(u8, DispatchId)>>, AllocError>
    ensures { IfOk result (λ drivers. drivers.items ≡ (A.tables ask.now).drivers) }
{
    let mut drivers = Vec::new(alloc);
    for number in 0..ask.drivers() {
        let pairs = told_driver(alloc, ask, DriverId(number))?;
        drivers.push(Row::from_vec(pairs))?;
    }
    Ok(drivers)
}
