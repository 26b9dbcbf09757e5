//! Outcomes that differ in the numbers of uses and slots of packets alone.

ghost use Rattle.std.specs.Prelude.{All, IfOk, IfSome, OnOk, slice_get, true};
ghost use Rattle.std.specs.Option.{IsSomeAnd};
ghost use Rattle.irp_orders.specs.Alike.{AreAlike};
ghost use Rattle.irp_orders.specs.Rows.{AreGrouped, AreMadeOf, IsOwn, Joins};

use crate::alike::are_alike;
use crate::found::Found;
use std::alloc::{AllocError, Global};

/// The place of the first of these that is alike.
fn place_of(alloc: Global, groups: &[Found], found: &Found) -> Result<Option<usize>, AllocError>
    ensures { IfOk result (λ place. IfSome place (λ number.
        IsSomeAnd (slice_get groups.now number) (λ group. AreAlike group found.now))) }
{
    for place in 0..groups.len() {
        if are_alike(alloc, &groups[place], found)? {
            return Ok(Some(place));
        }
    }
    Ok(None)
}

/// Joins an outcome with one that is alike, or puts it behind the others.
fn join(alloc: Global, groups: &mut Vec<Found>, found: Found) -> Result<(), AllocError>
    ensures { OnOk result (Joins groups.old.items found groups.new.items) }
{
    if let Some(place) = place_of(alloc, groups.as_slice(), &found)?
        && let Some(group) = groups.get_mut(place)
    {
        group.orders = group.orders.saturating_add(found.orders);
        group.joined = group.joined.saturating_add(1);
        return Ok(());
    }
    groups.push(found)?;
    Ok(())
}

/// The outcomes, in order, each joined with the first of those before it that is alike, if one is.
fn joined(alloc: Global, mut founds: Vec<Found>) -> Result<Vec<Found>, AllocError>
    requires { All IsOwn founds.items }
    ensures { IfOk result (λ rows. AreGrouped founds.items rows.items) }
{
    founds.reverse();
    let mut groups = Vec::new(alloc);
    while let Some(found) = founds.pop() {
        join(alloc, &mut groups, found)?;
    }
    Ok(groups)
}

/// The outcomes, those joined that differ in the numbers of uses and slots of packets alone. Of these the most frequent
/// one stays.
pub fn groups_of(alloc: Global, founds: Vec<Found>) -> Result<Vec<Found>, AllocError>
    requires { All IsOwn founds.items }
    ensures { IfOk result (λ rows. AreMadeOf true founds.items rows.items) }
{
    let mut groups = joined(alloc, founds)?;
    groups.sort_by_key(|group: &Found| u128::MAX - group.orders)?;
    Ok(groups)
}
