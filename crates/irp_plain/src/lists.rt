//! Changes of lists.

ghost use Rattle.std.specs.Prelude.{◌≡◌, IfOk, OnOk};
ghost use Rattle.irp_plain.specs.Lists.{with_more, without, with_item};

use std::alloc::{AllocError, Global};

/// Appends an item, if there is one.
pub fn push_if<T: Copy>(items: &mut Vec<T>, item: Option<T>) -> Result<(), AllocError>
    ensures { OnOk result (items.new.items ≡ with_more item items.old.items) }
{
    if let Some(item) = item {
        items.push(item)?;
    }
    Ok(())
}

/// Takes the item of a place out, if one is named and is there.
fn remove_if<T: Copy>(items: &mut Vec<T>, place: Option<usize>)
    ensures { items.new.items ≡ without place items.old.items }
{
    if let Some(place) = place {
        if place < items.len() {
            let _gone = items.remove(place);
        }
    }
}

/// A copy of items without that of a place, if one is named and is there, and with one more, if there is one. It has no
/// room to spare.
pub fn changed<T: Copy>(
    alloc: Global,
    items: &[T],
    gone: Option<usize>,
    more: Option<T>,
) -> Result<Vec<T>, AllocError>
    ensures { IfOk result (λ changed. changed.items ≡ with_more more (without gone items.now)) }
{
    let room = items.len().saturating_add(usize::from(more.is_some()));
    let mut changed = Vec::with_capacity(alloc, room)?;
    changed.extend_from_slice(items)?;
    remove_if(&mut changed, gone);
    push_if(&mut changed, more)?;
    Ok(changed)
}

/// Puts an item at a place, if it is there.
pub fn put_at<T: Copy>(items: &mut Vec<T>, place: usize, item: T)
    ensures { items.new.items ≡ with_item place item items.old.items }
{
    if place < items.len() {
        items[place] = item;
    }
}
