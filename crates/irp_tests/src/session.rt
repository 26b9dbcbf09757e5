//! Examples in a session.

ghost use Rattle.std.specs.Prelude.{◌≡◌};
ghost use Rattle.irp_shared.specs.Answered.{AnswersSo};

use crate::example::{Act, Example};
use crate::notes::Notes;
use crate::removes::Removes;
use crate::room::Room;
use crate::slots::taken;
use crate::texts::put_transcript;
use crate::tried::{Halt, Tried, carried, made_or, wanted};
use irp_routines::{Ask, Store};
use irp_shared::{Seat, Session, Shared, Transcript, open_with_limit};
use std::alloc::Global;
use std::marker::Brand;
use std::sync::Wait;
use std::sync::ledger::Blank;
use std::thread;
use std::thread::Threads;

/// Plays an example in a room, while other seats of a remove lock act in another thread. How many entries there are.
fn played_beside<A: Ask + Send, L: Session + Send + Sync, R: Threads + Wait + Sync>(
    rt: &R,
    mut room: Room<'_, R, A, L>,
    mut removes: Removes,
    example: &Example,
) -> Result<u64, Halt> {
    let notes = room.notes;
    let is_begun = removes.act(0, Act::Acquire(1, Ok(())));
    let playing = move || room.play(example);
    let acting = move || removes.act_beside(notes, example.beside);
    let (played, is_so) = thread::join(rt, playing, acting);
    wanted(
        is_begun && is_so,
        "the other thread was answered otherwise, or the dispatch didn't run",
    )
    .and(played)
}

/// Plays an example in a session with these seats. How many entries there are then.
fn played<A: Ask + Send, L: Session + Send + Sync, R: Threads + Wait + Sync>(
    rt: &R,
    alloc: Global,
    shared: &Shared<A, L>,
    seats: &mut [Seat<L>],
    notes: &Notes,
    example: &Example,
    tried: &mut Tried,
) -> Result<u64, Halt> {
    let token = taken(alloc, tried)?;
    let removes = Removes::open(alloc, tried)?;
    let others = if example.beside.is_empty() {
        None
    } else {
        Some(Removes::open(alloc, tried)?)
    };
    let mut room = Room {
        rt,
        shared,
        seats,
        removes,
        token: Some(token),
        entries: 0,
        notes,
        tried,
    };
    match others {
        Some(others) => played_beside(rt, room, others, example),
        None => room.play(example),
    }
}

/// The transcript of a session with one lock and one seat more than the example has, which looks on while the others
/// make the steps. Where the session can't be opened, who would have been asked is gone.
fn session<A: Ask + Send + Drop, L: Session + Send + Sync, R: Threads + Wait + Sync>(
    rt: &R,
    alloc: Global,
    blank: Blank,
    ask: A,
    seats: u32,
    notes: &Notes,
    example: &Example,
    tried: &mut Tried,
) -> Result<Transcript, Halt>
    requires blank { (blank.name ≡ L.name) × (blank.parts ≡ L.parts) }
    requires seats { (L.parts ≡ seats) × (L.seats ≡ seats) }
    requires fixed { L.fixed
        ≡ record { locks = 1; tables = A.tables ask; limit = example.now.limit } }
    requires may { AnswersSo (A.may_plan ask) (A.may_answer ask) (A.may_cancel ask) L.may }
{
    let opened = open_with_limit::<A, L>(alloc, blank, ask, 1, seats, example.limit);
    let Ok((shared, mut places)) = opened else {
        return Err(tried.lost("irp_shared::open_with_limit"));
    };
    let own = places.as_mut_slice();
    let done = played(rt, alloc, &shared, own, notes, example, tried);
    let (count, (shared, places)) = carried(done, (shared, places))?;
    let closed = shared.close(places);
    let transcript = made_or(closed, "the seats kept other entries than the history has")?;
    let is_whole = transcript.entries().len() as u64 == count;
    let (_, transcript) = carried(wanted(is_whole, "entries are missing"), transcript)?;
    Ok(transcript)
}

/// Plays an example in a session of this store, and puts the lines of its transcript.
pub fn play_in_session<R: Threads + Wait + Sync>(
    rt: &R,
    alloc: Global,
    store: Store,
    notes: &Notes,
    example: &Example,
    tried: &mut Tried,
    out: &mut Vec<u8>,
) -> Result<(), Halt> {
    let seats = example.seats.wrapping_add(1);
    let blank = Blank::new(u64::from(seats));
    let transcript = session::<Store, Brand, R>(
        rt, alloc, blank, store, seats, notes, example, tried,
    )?;
    put_transcript(alloc, out, transcript, example.seats, tried)
}
