//! What a seat does on a remove lock, as scripts and transcripts tell it, or on a cancel slot, as transcripts do. What
//! names no page of the WDK is this project's own rule.

use crate::names::LockNo;

/// What a seat does on a remove lock, alone (WDK: "Using Remove Locks").
#[derive(Clone, Copy, PartialEq, Eq, Debug)]
pub enum LockAct {
    /// Acquires the lock with this tag (WDK: "IoAcquireRemoveLock").
    Acquire { lock: LockNo, tag: u32 },
    /// Gives back one reference with this tag (WDK: "IoReleaseRemoveLock").
    Release { lock: LockNo, tag: u32 },
    /// Begins the removal, and gives back one reference with this tag; it doesn't wait
    /// (WDK: "IoReleaseRemoveLockAndWait").
    BeginRemove { lock: LockNo, tag: u32 },
    /// Asks whether removal has begun and nobody holds the lock.
    Drained { lock: LockNo },
}

/// One reference to a remove lock with this tag, handed to another seat.
#[derive(Clone, Copy, PartialEq, Eq, Debug)]
pub struct Hand {
    pub lock: LockNo,
    pub tag: u32,
    /// The seat that takes it, from 0.
    pub to: u32,
}

/// What a seat does on a cancel slot.
#[derive(Clone, Copy, PartialEq, Eq, Debug)]
pub enum SlotAct {
    /// Puts a use of a packet into the slot.
    Publish { slot: u32 },
    /// Takes the seat's own use out of the slot again.
    Withdraw { slot: u32 },
    /// Takes what stands in the slot, to cancel it.
    Request { slot: u32 },
}
