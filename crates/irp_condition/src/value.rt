//! What a fact is, and which of these values there are. Source: this project's own rules.

use irp_types::{Owner, Refusal};

/// A reply that is told in one word.
#[derive(Clone, Copy, PartialEq, Eq)]
pub enum Answer {
    Done,
    SeatFull,
    NotHeld,
    AlreadyRemoving,
    NoLock,
    Yes,
    Busy,
    Standing,
    Taken,
    Lost,
    Nothing,
    Used,
    NotStanding,
    NoSlot,
    NoToken,
}

/// What a fact is.
#[derive(Clone, Copy, PartialEq, Eq)]
pub enum Value {
    /// There is no such thing, as the owner of a packet that isn't live.
    Missing,
    /// Yes or no.
    Truth(bool),
    /// A number; a status is its number.
    Number(u64),
    /// Who owns a packet; a reply that names a device is this device.
    Owner(Owner),
    /// The manager refused the call.
    Refused(Refusal),
    /// A reply in one word.
    Answer(Answer),
}

/// A word, and the value that it writes.
#[derive(Clone, Copy)]
pub struct Named {
    pub name: &'static str,
    pub value: Value,
}
