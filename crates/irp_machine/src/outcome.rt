//! How orders end, as it is told: this project's own rule. A file of its own, since definitions that clauses cite name
//! these.

use crate::live_end::{DeviceEnd, LiveEnd};
use irp_plain::Told;
use irp_types::{IrpRef, Row};

/// What a seat was told, in the order of its steps.
#[derive(Drop)]
pub struct Replies {
    pub told: Row<Told>,
}

/// Who holds a reference to a remove lock.
#[derive(Clone, Copy, PartialEq, Eq, Debug)]
pub struct Holder {
    pub seat: usize,
    pub tag: u32,
}

/// A remove lock at the end.
#[derive(Drop)]
pub struct LockEnd {
    /// Its word: the removed bit, and twice the number of references.
    pub word: u64,
    /// Who holds it, by rising seat.
    pub holders: Row<Holder>,
}

/// A cancel slot at the end.
#[derive(Clone, Copy, PartialEq, Eq, Debug)]
pub struct SlotEnd {
    /// Whether somebody asked.
    pub flag: bool,
    /// The use that stands in it, 0 where none does.
    pub content: u64,
}

/// How orders end.
#[derive(Drop)]
pub struct End {
    /// What each seat was told; nothing where replies are left out.
    pub replies: Row<Replies>,
    /// The live packets by rising slot.
    pub packets: Row<LiveEnd>,
    /// The devices that were created, by their numbers.
    pub devices: Row<DeviceEnd>,
    /// What each label stands for: a reference that is never live where it isn't bound.
    pub labels: Row<IrpRef>,
    pub locks: Row<LockEnd>,
    pub slots: Row<SlotEnd>,
}

/// One way in which orders end, how many do, and one of them that changes its seat least often.
#[derive(Drop)]
pub struct Outcome {
    pub orders: u128,
    /// The seats of the atomic steps of one order, one after another. None that ends so changes its seat less often.
    pub path: Vec<u32>,
    pub end: End,
}
