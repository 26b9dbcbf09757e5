//! Calls of the manager of a script.

ghost use Rattle.std.specs.Prelude.{◌≡◌, IfOk};
ghost use Rattle.irp_types.specs.State.{opening_state};
ghost use Rattle.irp_types.specs.Standing.{StandingFacts};
ghost use Rattle.irp_transcript.specs.Headers.{fixed_of};
ghost use Rattle.irp_manager.specs.ManagerStates.{Agrees, state_of};
ghost use Rattle.irp_manager.specs.Slots.{live_of};
ghost use Rattle.irp_machine.specs.Calling as calls;
ghost use Rattle.irp_machine.specs.Calling.{IsApplied};
ghost use Rattle.irp_machine.specs.Standings as spec;
ghost use Rattle.irp_machine.specs.Standings.{managed};

use crate::asker::ScriptAsker;
use crate::terms::Terms;
use irp_manager::{Applied, ManagerState};
use irp_plain::{PlainKeep, next_slot, note_freed};
use irp_transcript::Header;
use irp_types::{Call, DrainNote};
use std::alloc::{AllocError, Global};

/// What a header tells a manager.
pub fn terms_of(header: &Header) -> Terms
    ensures { result ≡ spec.terms_of (fixed_of header.now) }
{
    Terms {
        counts: header.completions,
        locks: header.locks,
        limit: header.form.limit(),
    }
}

/// A manager that nobody has called.
pub fn new_manager(alloc: Global, header: &Header) -> ManagerState<PlainKeep>
    ensures state { state_of live_of result ≡ opening_state }
    ensures stands { StandingFacts (fixed_of header.now).tables.counts opening_state }
    ensures agrees { Agrees (fixed_of header.now) result }
{
    let keep = PlainKeep::new(alloc);
    ManagerState::with_limit(alloc, keep, header.locks, header.form.limit())
}

/// Whether a call is to get this slot, and it has a packet.
fn is_taken(manager: &ManagerState<PlainKeep>, slot: usize, call: Call) -> bool
    ensures { result ≡ calls.is_taken (state_of live_of manager.now) slot call }
{
    match call {
        Call::Allocate { .. } => manager.live(slot).is_some(),
        _ => false,
    }
}

/// Makes a call with what the note knows, where these slots were freed and have no packet since, and notes which are then,
/// where packets are allocated.
///
/// # Errors
///
/// `AllocError` where memory runs out. It would also be the answer where a new packet were to get a slot that is live. No
/// theorem says that no script comes to that: tests have met none that does.
pub fn call<N: DrainNote>(
    asker: &ScriptAsker,
    manager: &mut ManagerState<PlainKeep>,
    freed: &mut Vec<usize>,
    allocates: bool,
    call: Call,
    note: &N,
) -> Result<Applied, AllocError>
    requires stands { StandingFacts (fixed_of asker.now.header.now).tables.counts
        (state_of live_of manager.old) }
    requires agrees { Agrees (fixed_of asker.now.header.now) manager.old }
    ensures applied { IfOk result (λ applied.
        IsApplied (fixed_of asker.now.header.now) asker.now.script.now allocates
        (N.knows_drained note.now) (managed manager.old freed.old.items) call applied
        (managed manager.new freed.new.items)) }
    ensures stands { StandingFacts (fixed_of asker.now.header.now).tables.counts
        (state_of live_of manager.new) }
    ensures agrees { Agrees (fixed_of asker.now.header.now) manager.new }
{
    let slot = next_slot(freed, manager.packets());
    if is_taken(manager, slot, call) {
        return Err(AllocError);
    }
    let applied = manager.apply(asker, call, note, Some(slot))?;
    note_freed(freed, allocates, call, applied.reply)?;
    Ok(applied)
}
