//! What the calls answer. All of this is this project's own rule.
ghost use Rattle.std.specs.Prelude.{◌≡◌};

/// The right to finish one use: whoever has it took that use out of a slot. It can't be copied, and only `publish`,
/// `withdraw` and `request` make one. That it is ever used is not promised.
#[derive(PartialEq, Eq, Debug, Drop)]
pub struct Token {
    pub(crate) use_no: u64,
}

impl Token {
    /// The use number that came out of the slot. One that was made by a call isn't 0.
    pub fn use_no(&self) -> u64
        ensures { result ≡ self.now.use_no }
    {
        self.use_no
    }
}

/// How a publication went.
#[derive(PartialEq, Eq, Debug, Drop)]
pub enum Publication {
    /// The owner has published before.
    Used,
    /// The use stands in the slot, where a canceller may take it.
    Standing,
    /// A canceller had asked, and the owner has taken its use out again.
    Taken(Token),
    /// A canceller had asked, and has taken the use. (A use 0 is nothing that anybody could take.)
    Lost,
}

/// How a withdrawal went.
#[derive(PartialEq, Eq, Debug, Drop)]
pub enum Withdrawal {
    /// Nothing of the owner stands, by what it knows.
    NotStanding,
    /// The owner has taken its use out.
    Taken(Token),
    /// A canceller has taken the use. (A use 0 is nothing that anybody could take.)
    Lost,
}

/// How a request went.
#[derive(PartialEq, Eq, Debug, Drop)]
pub enum Request {
    /// There is no such slot.
    NoSlot,
    /// The canceller has taken a use out.
    Taken(Token),
    /// The slot was empty.
    Nothing,
}

/// Why nothing was opened.
#[derive(Clone, Copy, PartialEq, Eq, Debug)]
pub enum OpenRefusal {
    /// More than 64 slots, or none or more than 64 cancellers were asked for.
    BadCount,
    /// There is no memory for them.
    Memory,
}
