//! What each party of the table knows. These types are for the proofs alone: no value of them is made but of
//! `Parties`. A clause reads an array as a list, of any length.

/// How far an owner is.
pub enum Stage {
    Idle,
    /// It has put its use into its slot.
    Published,
    /// It has then found the flag clear.
    Standing,
    /// It has taken out what was in its slot.
    Done,
}

/// What the owner of a slot knows.
pub struct Owning {
    pub slot: u64,
    pub stage: Stage,
    /// The use that it published, unless it is idle.
    pub published: u64,
    /// Whether it found the flag clear after it had published.
    pub stood: bool,
    /// Whether it found the flag set after it had published.
    pub found_set: bool,
    /// The uses that it took out of its slot.
    pub taken: [u64; 0],
}

/// What a canceller knows, by a flag for each slot.
pub struct Asking {
    /// The slots whose flag it set.
    pub flagged: [bool; 0],
    /// The slots on which it ended a request.
    pub ended: [bool; 0],
    /// The slots, each with the use that it took out of it.
    pub taken: [(u64, u64); 0],
}

/// What one party of the table knows.
pub enum View {
    /// The party that makes the others: the slots whose owners are not yet made, and how many cancellers are not.
    First([u64; 0], u64),
    Owner(Owning),
    Canceller(Asking),
}

/// How many slots a table has, each with one owner, and how many cancellers.
#[derive(Drop)]
pub struct Parties {
    pub slots: u64,
    pub cancellers: u64,
}
