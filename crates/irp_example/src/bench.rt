//! The session: who calls, and what is left of it.

ghost use Rattle.std.specs.Prelude.{◌≡◌, All, IfSome};
ghost use Rattle.irp_types.specs.declared.limit.Limit.TheVariants.{ThirtyTwo};
ghost use Rattle.irp_remove.specs.Pairing.{IsSeatOf};
ghost use Rattle.irp_routines.specs.Answers.{IsAnswered};
ghost use Rattle.irp_shared.specs.Answered.{AnswersSo, EachAnswered};
ghost use Rattle.irp_example.specs.Bench.{HasLegalHistory};

use crate::caller::Caller;
use irp_remove::{Locks, RemoveSeat};
use irp_routines::Ask;
use irp_shared::{Seat, Session, Shared, Transcript, open};
use std::alloc::{AllocError, Global};
use std::marker::Brand;
use std::sync::Wait;
use std::sync::ledger::Blank;
use std::thread;
use std::thread::Threads;

/// A caller for each seat, on condition that the remove seats were opened with these locks.
fn callers_of<'a, L: Session>(
    alloc: Global,
    locks: &'a Locks,
    mut seats: Vec<Seat<L>>,
    mut removes: Vec<RemoveSeat>,
) -> Result<Vec<Caller<'a, L>>, AllocError>
    requires { All (IsSeatOf locks.now) removes.items }
{
    let mut callers = Vec::new(alloc);
    while let Some(seat) = seats.pop() {
        let Some(remove) = removes.pop() else {
            return Ok(callers);
        };
        callers.push(Caller::new(seat, remove, locks))?;
    }
    Ok(callers)
}

/// Two threads send their reads, each in a seat of its own. Before that the stack is built, and then it is taken away.
fn call_all<'a, A: Ask + Send, L: Session + Send + Sync, R: Threads + Wait + Sync>(
    rt: &R,
    shared: &Shared<A, L>,
    mut callers: Vec<Caller<'a, L>>,
) -> Result<Vec<Caller<'a, L>>, AllocError> {
    if let Some(builder) = callers.last_mut() {
        builder.build(rt, shared);
    }
    let mut callers = thread::map_vec(rt, callers, &|caller| caller.read_all(rt, shared))?;
    if let Some(remover) = callers.last_mut() {
        remover.take_away(rt, shared);
    }
    Ok(callers)
}

/// All calls of the session, in these seats, which come back. None where memory ran out.
fn work<A: Ask + Send, L: Session + Send + Sync, R: Threads + Wait + Sync>(
    rt: &R,
    alloc: Global,
    shared: &Shared<A, L>,
    seats: Vec<Seat<L>>,
) -> Option<Vec<Seat<L>>> {
    let (locks, removes) = irp_remove::open(alloc, 1, 2).ok()?;
    let callers = callers_of(alloc, &locks, seats, removes).ok()?;
    let mut seats = Vec::new(alloc);
    for caller in call_all(rt, shared, callers).ok()? {
        seats.push(caller.into_seat()).ok()?;
    }
    Some(seats)
}

/// The transcript of a session with one remove lock and two seats. None where memory ran out, or the seats' entries
/// aren't the history's.
fn session<A: Ask + Send + Drop, L: Session + Send + Sync, R: Threads + Wait + Sync>(
    rt: &R,
    alloc: Global,
    blank: Blank,
    ask: A,
) -> Option<Transcript>
    requires blank { (blank.name ≡ L.name) × (blank.parts ≡ L.parts) }
    requires seats { (L.parts ≡ 2) × (L.seats ≡ 2) }
    requires fixed { L.fixed ≡ record { locks = 1; tables = A.tables ask; limit = ThirtyTwo } }
    requires may { AnswersSo (A.may_plan ask) (A.may_answer ask) (A.may_cancel ask) L.may }
    ensures legal { IfSome result HasLegalHistory }
    ensures answered { IfSome result (λ transcript. EachAnswered L.may transcript.entries) }
{
    let Ok((shared, seats)) = open::<A, L>(alloc, blank, ask, 1, 2) else {
        return None;
    };
    let seats = work(rt, alloc, &shared, seats)?;
    match shared.close(seats) {
        Ok(transcript) => Some(transcript),
        Err(_) => None,
    }
}

/// Runs the bench, where this one is asked. The transcript: its history is legal, and each answer in it is one that the
/// asked may give. None where memory ran out, or the seats' entries aren't the history's; that it comes only there, no
/// clause says.
pub fn run<A: Ask + Send + Drop, R: Threads + Wait + Sync>(
    rt: &R,
    alloc: Global,
    ask: A,
) -> Option<Transcript>
    ensures legal { IfSome result HasLegalHistory }
    ensures answered { IfSome result (λ transcript. EachAnswered
        (IsAnswered (A.may_plan ask) (A.may_answer ask) (A.may_cancel ask)) transcript.entries) }
{
    session::<A, Brand, R>(rt, alloc, Blank::new(2), ask)
}
