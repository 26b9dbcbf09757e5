//! One remove lock, and its seats: two that act as examples say, one that is dropped, and nine in threads of their own.

ghost use Rattle.irp_remove.specs.Calls.{IsSameSeat};
ghost use Rattle.irp_remove.specs.Pairing.{IsSeatOf};

use crate::example::{Act, LOCK};
use crate::notes::{Notes, TURNS, waits};
use crate::tried::{Halt, Tried, wanted};
use irp_remove::{AcquireRefusal, DrainRefusal, Locks, RemoveSeat};
use irp_types::DrainNote;
use std::alloc::Global;
use std::sync::Wait;
use std::sync::atomic::Ordering;
use std::thread;
use std::thread::Threads;

/// One remove lock and two seats of it.
#[derive(Drop)]
pub struct Removes {
    locks: Locks,
    pub first: RemoveSeat,
    pub second: RemoveSeat,
    ghost first_fits: { IsSeatOf locks first },
    ghost second_fits: { IsSeatOf locks second },
}

/// Acts on the lock in a seat, and answers whether it was answered as it has to be.
fn acted(locks: &Locks, seat: &mut RemoveSeat, act: Act) -> bool
    requires { IsSeatOf locks.now seat.old }
    ensures { IsSameSeat seat.old seat.new }
{
    match act {
        Act::Acquire(tag, answer) => locks.acquire(seat, LOCK, tag) == answer,
        Act::Release(tag, answer) => locks.release(seat, LOCK, tag) == answer,
        Act::BeginRemove(tag, answer) => locks.begin_remove(seat, LOCK, tag) == answer,
        Act::Drained(answer) => locks.drained(seat, LOCK) == answer,
        Act::Hand(_, _) => false,
    }
}

impl Removes {
    /// Opens one remove lock with two seats.
    pub fn open(alloc: Global, tried: &mut Tried) -> Result<Removes, Halt> {
        let Ok((locks, mut seats)) = irp_remove::open(alloc, 1, 2) else {
            return Err(tried.lost("irp_remove::open"));
        };
        let second = seats.pop();
        let first = seats.pop();
        let (Some(first), Some(second)) = (first, second) else {
            return Err(Halt::Wrong("two remove seats were asked for"));
        };
        Ok(Removes {
            locks,
            first,
            second,
        })
    }

    /// Acts on the lock in a seat, and answers whether it was answered as it has to be.
    pub fn act(&mut self, seat: u32, act: Act) -> bool {
        if let Act::Hand(tag, answer) = act {
            return self
                .locks
                .hand(&mut self.first, &mut self.second, LOCK, tag)
                == answer;
        }
        if seat == 0 {
            acted(&self.locks, &mut self.first, act)
        } else {
            acted(&self.locks, &mut self.second, act)
        }
    }

    /// Acts beside another thread, each in a seat, once a dispatch runs there; and tells that it was answered. Whether
    /// all was answered as it has to be.
    pub fn act_beside(&mut self, notes: &Notes, acts: &[(u32, Act)]) -> bool {
        let mut is_so = waits(&notes.runs, 1);
        for (seat, act) in acts {
            let is_answered = self.act(*seat, *act);
            is_so = is_so && is_answered;
        }
        notes.answers.fetch_add(1, Ordering::SeqCst);
        is_so
    }
}

/// Where a seat is dropped that holds a reference, the lock is busy: 3, the removed bit and one reference.
pub fn drop_holder(alloc: Global, tried: &mut Tried) -> Result<(), Halt> {
    let mut removes = Removes::open(alloc, tried)?;
    let is_held = removes.act(0, Act::Acquire(1, Ok(())))
        && removes.act(1, Act::Acquire(2, Ok(())));
    let Removes {
        locks,
        mut first,
        second,
    } = removes;
    drop(second);
    let busy = Act::Drained(Err(DrainRefusal::Busy(3)));
    let is_busy = acted(&locks, &mut first, Act::BeginRemove(1, Ok(())))
        && acted(&locks, &mut first, busy)
        && acted(&locks, &mut first, busy);
    wanted(
        is_held && is_busy && !first.knows(LOCK),
        "the lock isn't busy for good",
    )
}

/// A seat of the lock, with the locks that it was opened with.
#[derive(Drop)]
struct Holder<'a> {
    locks: &'a Locks,
    seat: RemoveSeat,
    ghost fits: { IsSeatOf locks.now seat },
}

impl Holder<'_> {
    /// Takes a reference and gives it back, until it is refused one since the removal of the lock has begun. Whether it
    /// was, within so many turns.
    fn is_refused_within(&mut self, turns: u32) -> bool {
        for tag in 0..turns {
            match self.locks.acquire(&mut self.seat, LOCK, tag) {
                Ok(()) => {
                    let _ = self.locks.release(&mut self.seat, LOCK, tag);
                }
                Err(refusal) => return refusal == AcquireRefusal::DeletePending,
            }
        }
        false
    }

    /// Waits until the lock is drained. Whether it was, within the turns.
    fn waits(&mut self) -> bool {
        for _ in 0..TURNS {
            if self.locks.drained(&mut self.seat, LOCK).is_ok() {
                return true;
            }
        }
        false
    }

    /// What a seat does in its thread. The first takes turns, begins the removal, finds the lock drained, and is
    /// refused a reference afterwards; each other one takes turns until it is refused. Whether all was so.
    fn plays(mut self) -> bool {
        if self.seat.number() != 0 {
            return self.is_refused_within(TURNS);
        }
        !self.is_refused_within(10_000)
            && acted(self.locks, &mut self.seat, Act::Acquire(1, Ok(())))
            && acted(self.locks, &mut self.seat, Act::BeginRemove(1, Ok(())))
            && self.waits()
            && self.is_refused_within(1)
    }
}

/// Eight seats acquire and release in threads of their own, until a ninth removes the lock.
pub fn remove_under_load<R: Threads + Wait + Sync>(rt: &R, alloc: Global) -> Result<(), Halt> {
    let Ok((locks, seats)) = irp_remove::open(alloc, 1, 9) else {
        return Err(Halt::Memory);
    };
    let locks = &locks;
    let played = thread::map_vec(
        rt,
        seats,
        &|seat: RemoveSeat| -> bool
            requires { IsSeatOf locks.now seat }
        { Holder { locks, seat }.plays() },
    )?;
    wanted(
        played.as_slice() == [true; 9].as_slice(),
        "a seat didn't do all that it has to",
    )
}
