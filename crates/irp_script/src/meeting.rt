//! Where workers meet before their first steps.

use std::sync::atomic::{AtomicU32, Ordering};
use std::thread;

/// Before how many of its steps each worker meets the others, at most.
const ROUNDS: u32 = 32;

/// How many turns of a loop all workers together wait, at most, in all rounds. A worker gives its processor away in
/// each turn, which takes about a microsecond where nobody else wants it.
const TURNS: u32 = 20_000;

/// Where workers meet before each of their first steps, so that the calls of a short script mix. Else the first worker
/// would be done before the second begins, and one that sleeps at the session's lock would wake when the other has made
/// all its calls.
///
/// Nobody waits without end: a wait is a loop of a fixed number of turns, which takes no lock, and all waits share one
/// supply of turns. Once it is used up nobody waits any more. Nobody waits for a worker that has left.
#[derive(Drop)]
pub struct Meeting {
    here: AtomicU32,
    waiting: AtomicU32,
    rounds: AtomicU32,
    turns: AtomicU32,
}

impl Meeting {
    /// A meeting of so many workers.
    pub fn new(workers: u32) -> Meeting {
        Meeting {
            here: AtomicU32::new(workers),
            waiting: AtomicU32::new(0),
            rounds: AtomicU32::new(0),
            turns: AtomicU32::new(0),
        }
    }

    /// Waits until all workers that haven't left have come to this round, or all turns are used up. A worker that comes
    /// while a round ends may be counted in the next one, which then ends early: it is never waited for longer.
    pub fn meet(&self) {
        let round = self.rounds.load(Ordering::SeqCst);
        if round >= ROUNDS {
            return;
        }
        let before = self.waiting.fetch_add(1, Ordering::SeqCst);
        if before.saturating_add(1) >= self.here.load(Ordering::SeqCst) {
            return self.go_on();
        }
        for _ in 0..TURNS {
            if self.rounds.load(Ordering::SeqCst) != round {
                return;
            }
            if self.turns.fetch_add(1, Ordering::SeqCst) >= TURNS {
                break;
            }
            thread::yield_now();
        }
        self.rounds.store(ROUNDS, Ordering::SeqCst);
    }

    /// Leaves: the others don't wait for this worker.
    pub fn leave(&self) {
        let before = self.here.fetch_sub(1, Ordering::SeqCst);
        if self.waiting.load(Ordering::SeqCst) >= before.saturating_sub(1) {
            self.go_on();
        }
    }

    /// Ends a round.
    fn go_on(&self) {
        self.waiting.store(0, Ordering::SeqCst);
        self.rounds.fetch_add(1, Ordering::SeqCst);
    }
}
