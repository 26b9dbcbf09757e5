//! Which slot a new packet gets. Source: this project's own rule.

ghost use Rattle.std.specs.Prelude.{◌≡◌, OnOk};
ghost use Rattle.irp_plain.specs.Keeps as spec;

use irp_types::{Call, Reply};
use std::alloc::AllocError;

/// The slot of the next packet, where these slots were freed and have no packet since, the one that was freed last at
/// the end, and so many packets are live: the slot that was freed last, or else the first that never had a packet.
pub fn next_slot(freed: &[usize], live: usize) -> usize
    ensures { result ≡ spec.next_slot freed.now live }
{
    match freed.last() {
        Some(slot) => *slot,
        None => live,
    }
}

/// Notes which slots are freed behind a call that was answered so; none where no packet is allocated any more.
pub fn note_freed(
    freed: &mut Vec<usize>,
    allocates: bool,
    call: Call,
    reply: Reply,
) -> Result<(), AllocError>
    ensures { OnOk result
        (freed.new.items ≡ spec.freed_if allocates call reply freed.old.items) }
{
    if !allocates {
        freed.clear();
        return Ok(());
    }
    match (call, reply) {
        (Call::Allocate { .. }, Reply::Irp(_)) => {
            let _given = freed.pop();
        }
        (Call::Free { irp }, Reply::Done) => freed.push(irp.slot)?,
        _ => {}
    }
    Ok(())
}
