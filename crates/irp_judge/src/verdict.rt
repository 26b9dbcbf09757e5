//! What a judge answers.

use crate::cause::Cause;
use crate::difference::Difference;
use irp_types::Entry;

/// Whether the sequential manager could have made a history.
#[derive(Clone, Copy, PartialEq, Eq, Debug)]
pub enum Verdict {
    /// It could: the history has this many entries.
    Legal { entries: u64 },
    /// It couldn't: the entry of this number, from 0, is the first that isn't legal.
    Illegal { at: u64 },
}

/// What is wrong with a history.
#[derive(Drop)]
pub struct Wrong {
    /// The number of the first entry that isn't legal, from 0.
    pub at: u64,
    /// The first part in which it differs from what the manager makes there.
    pub difference: Difference,
    /// Where the manager refuses the call there: what of its state that comes from.
    pub cause: Option<Cause>,
    /// What the manager makes there of the same call.
    pub made: Entry,
}
