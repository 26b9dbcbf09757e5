//! What a store refuses.

/// Why something was not added to a store (this project's own rule).
#[derive(Clone, Copy, PartialEq, Eq, Debug)]
pub enum Reason {
    /// There is no memory for it.
    Memory,
    /// There are as many of its kind as there may be.
    Full,
    /// It names a routine or a dispatch that the store doesn't have.
    NoRoutine,
    /// A driver names a number that is no major function code, or one major function code twice.
    BadMajor,
}

/// What was not added, handed back, and why.
#[derive(Drop)]
pub struct NotAdded<T> {
    pub reason: Reason,
    pub item: T,
}
