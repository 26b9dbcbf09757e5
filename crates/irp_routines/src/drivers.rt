//! The table of one driver: the pairs of major function codes and dispatches from which it is made.

ghost use Rattle.std.specs.Prelude.{◌≡◌, ◌==◌, IfOk};
ghost use Rattle.std.specs.List.{list_any};
ghost use Rattle.irp_types.specs.State.{Entrance, dispatch_in};
ghost use Rattle.irp_routines.specs.Tables.{pair_refusal, pairs_refusal, by_major};

use crate::not_added::Reason;
use irp_types::limits::LAST_MAJOR;
use irp_types::{DispatchId, Row};
use std::alloc::{AllocError, Global};

/// Whether one of these pairs names this major function code.
fn is_named(pairs: &[(u8, DispatchId)], major: u8) -> bool
    ensures { result ≡ list_any (λ (entrance : Entrance). entrance.0 == major) pairs.now }
{
    pairs.iter().any(|pair| pair.0 == major)
}

/// Why a pair can't be in a driver's table beside those before it, if it can't.
fn pair_refusal(
    dispatches: u32,
    before: &[(u8, DispatchId)],
    pair: (u8, DispatchId),
) -> Option<Reason>
    ensures { result ≡ pair_refusal dispatches before.now pair }
{
    if pair.0 > LAST_MAJOR || is_named(before, pair.0) {
        return Some(Reason::BadMajor);
    }
    if pair.1.0 >= dispatches {
        return Some(Reason::NoRoutine);
    }
    None
}

/// Why these pairs can't be a driver's table where there are so many dispatches, if they can't: the reason of the first
/// pair that has one.
pub fn pairs_refusal(dispatches: u32, pairs: &[(u8, DispatchId)]) -> Option<Reason>
    ensures { result ≡ pairs_refusal dispatches pairs.now }
{
    for place in 0..pairs.len() {
        if let Some(reason) = pair_refusal(dispatches, &pairs[..place], pairs[place]) {
            return Some(reason);
        }
    }
    None
}

/// The dispatch for a major function code, where one of these pairs names it.
pub fn dispatch_in(pairs: &[(u8, DispatchId)], major: u8) -> Option<DispatchId>
    ensures { result ≡ dispatch_in pairs.now major }
{
    for pair in pairs {
        if pair.0 == major {
            return Some(pair.1);
        }
    }
    None
}

/// The pairs by rising major function code. Of pairs that a driver is refused for, those of no major function code and
/// the later of one that is named twice are left out.
pub fn by_major(
    alloc: Global,
    pairs: &[(u8, DispatchId)],
) -> Result<Vec<(u8, DispatchId)>, AllocError>
    ensures { IfOk result (λ sorted. sorted.items ≡ by_major pairs.now) }
{
    let mut sorted = Vec::new(alloc);
    for major in 0..LAST_MAJOR + 1 {
        if let Some(dispatch) = dispatch_in(pairs, major) {
            sorted.push((major, dispatch))?;
        }
    }
    Ok(sorted)
}

/// A copy of drivers' tables.
pub fn copied_drivers(
    alloc: Global,
    drivers: &[Row<(u8, DispatchId)>],
) -> Result<Vec<Row<(u8, DispatchId)>>, AllocError>
    ensures { IfOk result (λ copy. copy.items ≡ drivers.now) }
{
    let mut copy = Vec::new(alloc);
    for driver in drivers {
        let pairs = driver.as_slice().to_vec(alloc)?;
        copy.push(Row::from_vec(pairs))?;
    }
    Ok(copy)
}
