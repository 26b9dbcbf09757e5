//! The parts of where a script stands, and what an atomic step changes. A file of its own, since definitions that
//! clauses cite name these.

use crate::answered::Answered;
use irp_types::IrpRef;

/// Which act it is.
#[derive(Clone, Copy)]
pub struct ActPlace {
    /// Its place among the script's steps.
    pub step: u32,
    /// Its place among its seat's acts.
    pub at: usize,
    /// Whether a condition names its step.
    pub is_read: bool,
}

/// How far a seat is in its present act.
#[derive(Clone, Copy, PartialEq, Eq)]
pub enum Stage {
    /// It has made no step of the act.
    Between,
    /// It has read that its label stands for this packet.
    Read(IrpRef),
    /// Its call was answered by this packet, which the label doesn't stand for yet.
    Answered(IrpRef),
    /// It has added to the word of a lock, and found its removal begun.
    Tried,
    /// It has begun the removal of a lock, and holds its reference still.
    Begun,
    /// It has put its use into a slot.
    Published,
    /// It has then found the flag of the slot set.
    FoundSet,
    /// It has set the flag of a slot.
    Flagged,
}

/// A reference to a remove lock.
#[derive(Clone, Copy, PartialEq, Eq)]
pub struct Held {
    pub lock: u32,
    pub tag: u32,
}

/// A use that a seat took out of a cancel slot, and hasn't finished.
#[derive(Clone, Copy, PartialEq, Eq)]
pub struct Taken {
    pub slot: u32,
    pub use_no: u64,
}

/// What a seat knows of a remove lock for good.
#[derive(Clone, Copy, PartialEq, Eq)]
pub enum Learned {
    /// Its removal has begun.
    Removed(u32),
    /// It is drained.
    Drained(u32),
}

/// A cancel slot.
#[derive(Clone, Copy, PartialEq, Eq)]
pub struct Slot {
    /// Its flag: whether somebody asked.
    pub flag: bool,
    /// The use that stands in it, 0 where none does.
    pub content: u64,
    /// Whether its owner has published.
    pub used: bool,
    /// Whether its owner's publication was answered `Standing`, and nothing was withdrawn since.
    pub stands: bool,
}

/// Where the seat of an atomic step is behind it.
#[derive(Clone, Copy)]
pub enum After {
    /// In the same act.
    In(Stage),
    /// Behind the act, which was answered so.
    Told(Answered),
    /// In the same act, which was answered so: a label is to be bound to this packet.
    Binds(Answered, IrpRef),
    /// Behind the act, which was answered before.
    Bound,
}

/// A lock's new word.
#[derive(Clone, Copy)]
pub struct NewWord {
    pub lock: u32,
    pub word: u64,
}

/// A slot's new state.
#[derive(Clone, Copy)]
pub struct NewSlot {
    pub number: u32,
    pub slot: Slot,
}

/// What a label stands for from now on.
#[derive(Clone, Copy)]
pub struct NewLabel {
    pub label: usize,
    pub irp: IrpRef,
}

/// A reference that another seat is given.
#[derive(Clone, Copy)]
pub struct Given {
    pub seat: u32,
    pub held: Held,
}

/// What an atomic step changes, the manager's state aside.
#[derive(Clone, Copy)]
pub struct Change {
    pub after: After,
    pub word: Option<NewWord>,
    pub slot: Option<NewSlot>,
    pub label: Option<NewLabel>,
    /// The place of the reference that the seat holds no more.
    pub drops: Option<usize>,
    /// A reference that the seat holds from now on.
    pub holds: Option<Held>,
    pub gives: Option<Given>,
    pub learns: Option<Learned>,
    /// The place of the taken use that the seat has finished.
    pub spends: Option<usize>,
    /// A use that the seat took.
    pub takes: Option<Taken>,
}
