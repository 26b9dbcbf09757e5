//! How a thread gets its turn. Source: this project's own rules.

use std::hint::spin_loop;
use std::sync::{Mutex, MutexGuard, Wait};

/// How often a thread tries to take a lock before it waits in the system.
const TRIES: u32 = 24;

/// How many pauses a thread makes after the first try that fails.
const FIRST_PAUSES: u32 = 4;

/// How many pauses at most a thread makes between two tries. While it makes them, others take several turns each, one
/// after another, and what a turn reads and writes stays with one processor meanwhile.
const MOST_PAUSES: u32 = 4096;

/// Makes so many pauses of the processor.
fn pause(count: u32) {
    for _ in 0..count {
        spin_loop();
    }
}

/// Takes a lock, as `Mutex::lock` does. Where another thread has it, it tries again after pauses that grow, since a
/// turn is short beside a sleep; after the last try it waits in the system until it is woken.
pub fn take_turn<'a, T>(lock: &'a Mutex<T>, rt: &impl Wait) -> MutexGuard<'a, T> {
    let mut pauses = FIRST_PAUSES;
    for _ in 0..TRIES {
        if let Some(guard) = lock.try_lock() {
            return guard;
        }
        pause(pauses);
        pauses = pauses.saturating_mul(2).min(MOST_PAUSES);
    }
    lock.lock(rt)
}
