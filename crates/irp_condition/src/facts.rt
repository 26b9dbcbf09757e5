//! What an order of a script's steps leaves, as far as conditions speak of it. Source: this project's own rules.

use irp_transcript::WordReply;
use irp_types::{Owner, Reply, Row, Status};

/// What a step was answered: a call of the manager, or a step on a remove lock or on a cancel slot.
#[derive(Clone, Copy)]
pub enum Told {
    Call(Reply),
    Word(WordReply),
}

/// A live packet.
#[derive(Clone, Copy)]
pub struct Packet {
    pub owner: Owner,
    pub status: Status,
    pub information: u64,
    /// The number of its current location.
    pub current: u32,
    /// Whether it was cancelled.
    pub cancel: bool,
}

/// What an order leaves.
#[derive(Drop)]
pub struct Facts {
    /// What each of the script's `steps` was answered, by place; none where it was passed over, or that isn't known.
    pub replies: Row<Option<Told>>,
    /// For each label of the script, by place, the live packet that it names; none where it names none.
    pub labels: Row<Option<Packet>>,
    /// The word of each remove lock: the removed bit, which is 1, plus twice the number of references.
    pub locks: Row<u64>,
    /// For each device that was created, by number, whether it was deleted.
    pub deleted: Row<bool>,
}
