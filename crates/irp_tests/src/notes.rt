//! What closures note of their calls, and two threads that tell each other how far they are.

use std::sync::atomic::{AtomicU32, AtomicU64, Ordering};

/// How often one thread tries what another one has to make true.
pub const TURNS: u32 = 100_000_000;

/// The order in which closures were called, a digit each; whether a dispatch meets another thread; how often a dispatch
/// ran, and how often the other thread was answered.
#[derive(Drop)]
pub struct Notes {
    order: AtomicU32,
    pub meets: bool,
    pub runs: AtomicU64,
    pub answers: AtomicU64,
}

/// Waits until this count has come so far. Whether it has, within the turns.
pub fn waits(count: &AtomicU64, until: u64) -> bool {
    for _ in 0..TURNS {
        if count.load(Ordering::SeqCst) >= until {
            return true;
        }
    }
    false
}

impl Notes {
    /// Notes of nothing, where a dispatch meets another thread or doesn't.
    pub fn new(meets: bool) -> Notes {
        Notes {
            order: AtomicU32::new(0),
            meets,
            runs: AtomicU64::new(0),
            answers: AtomicU64::new(0),
        }
    }

    /// Notes a digit behind those that were noted before.
    pub fn note(&self, digit: u32) {
        let before = self.order.load(Ordering::SeqCst);
        let digits = before.wrapping_mul(10).wrapping_add(digit);
        self.order.store(digits, Ordering::SeqCst);
    }

    /// The digits that were noted.
    pub fn order(&self) -> u32 {
        self.order.load(Ordering::SeqCst)
    }

    /// Lets the digits go.
    pub fn clear(&self) {
        self.order.store(0, Ordering::SeqCst);
    }
}
