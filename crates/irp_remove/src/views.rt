//! What each party of the table knows. These types are for the proofs alone: no value of them is made but of `Parties`.
//! A clause reads an array as a list, of any length.

/// What a stake does.
pub enum Stage {
    Idle,
    /// It has added to the word of this lock, and found its removal begun.
    Trying(u32),
    /// It holds a reference to this lock under this tag.
    Held(u32, u32),
}

/// What an observer knows, by a flag for each lock, and its last look.
pub struct Watch {
    /// The locks whose removal it began.
    pub began: [bool; 0],
    /// The locks whose removal it found begun.
    pub saw: [bool; 0],
    /// The locks that it knows drained.
    pub drained: [bool; 0],
    /// How often it looked whether a lock is drained, modulo 2^64.
    pub looks: u64,
    /// The lock that it looked at last.
    pub lock: u32,
    /// The word that it found there.
    pub word: u64,
}

/// What one party of the table knows.
pub enum View {
    /// The party that makes the others: how many observers and how many stakes are not yet made.
    First(u64, u64),
    Observer(Watch),
    /// What the stake does, and the locks whose removal it found begun.
    Stake(Stage, [u32; 0]),
}

/// How many locks a table has, and how many observers and stakes may be made for it.
#[derive(Drop)]
pub struct Parties {
    pub locks: u64,
    pub observers: u64,
    pub stakes: u64,
}
