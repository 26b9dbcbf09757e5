//! An entry that is made again.

ghost use Rattle.std.specs.Prelude.{◌≡◌, IfOk, OnErr};
ghost use Rattle.irp_types.specs.State.{AreTables};
ghost use Rattle.irp_types.specs.Standing.{StandingFacts};
ghost use Rattle.irp_manager.specs.ManagerStates.{state_of, Agrees};
ghost use Rattle.irp_manager.specs.Keeps.{mapped};
ghost use Rattle.irp_transcript.specs.Headers.{fixed_of};
ghost use Rattle.irp_judge.specs.Replayed.{IsMadeOf, slot_named};

use crate::recorded_answers::RecordedAnswers;
use irp_manager::{ManagerState, MapKeep, step_is_settled};
use irp_transcript::Header;
use irp_types::{DrainNote, Entry, LockNo, Questions, Reply};
use std::alloc::AllocError;

/// A note that answers the same of each lock, as an entry says.
#[derive(Clone, Copy)]
struct SaysDrained(bool);

impl SaysDrained {
    /// The note of an entry.
    fn of(entry: &Entry) -> SaysDrained
        ensures { result.0 ≡ entry.now.drained }
    {
        SaysDrained(entry.drained)
    }
}

impl DrainNote for SaysDrained {
    ghost knows_drained = { λ note lock. note.0 };

    fn knows(&self, lock: LockNo) -> bool {
        let _ = lock;
        self.0
    }
}

/// The slot of the packet that a reply names.
fn slot_named(reply: Reply) -> Option<usize>
    ensures { result ≡ slot_named reply }
{
    match reply {
        Reply::Irp(irp) => Some(irp.slot),
        _ => None,
    }
}

/// What the manager makes of an entry's call at this place, answered as the entry says where that is allowed. Where
/// that is another entry, no step of the manager makes the recorded one.
///
/// # Errors
///
/// `AllocError` where a growth was refused. The state stays as it was.
pub fn made_of(
    core: &mut ManagerState<MapKeep>,
    header: &Header,
    entry: &Entry,
    place: u64,
) -> Result<Entry, AllocError>
    requires tables { AreTables (fixed_of header.now).tables }
    requires stands { StandingFacts header.now.completions (state_of mapped core.old) }
    requires agrees { Agrees (fixed_of header.now) core.old }
    ensures made { IfOk result (λ made.
        IsMadeOf (fixed_of header.now) place (state_of mapped core.old) entry.now made
        (state_of mapped core.new)) }
    ensures err { OnErr result (state_of mapped core.new ≡ state_of mapped core.old) }
    ensures stands { StandingFacts header.now.completions (state_of mapped core.new) }
    ensures agrees { Agrees (fixed_of header.now) core.new }
{
    let answers = RecordedAnswers::new(header, entry.asked.as_slice());
    let note = SaysDrained::of(entry);
    let wish = slot_named(entry.reply);
    let applied = core.apply(&answers, entry.call, &note, wish)?;
    step_is_settled();
    Ok(Entry {
        number: place,
        seat: entry.seat,
        call: entry.call,
        lock: applied.lock,
        drained: applied.drained,
        asked: Questions::from_vec(applied.asked),
        reply: applied.reply,
    })
}
