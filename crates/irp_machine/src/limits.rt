//! What an exploration may take, and why it was given up. Source: this project's own rule.

ghost use Rattle.std.specs.Prelude.{◌≡◌};
ghost use Rattle.irp_machine.specs.Limits.{tells_replies};

use irp_explore::NotExplored;
use std::alloc::AllocError;

/// How much an exploration may take.
#[derive(Clone, Copy, PartialEq, Eq, Debug)]
pub struct Limits {
    /// How many states orders of equally many steps may lead to, and in how many orders may end.
    pub states: usize,
    /// How many outcomes there may be.
    pub outcomes: usize,
    /// Two more than how many atomic steps an order may have, since the step that closes it counts too.
    pub steps: u32,
}

/// What tells two outcomes apart.
#[derive(Clone, Copy, PartialEq, Eq, Debug)]
pub enum Compared {
    /// The replies and the end.
    Replies,
    /// The end alone: no reply is kept.
    Ends,
}

impl Compared {
    /// Whether replies are kept.
    pub(crate) fn tells(self) -> bool
        ensures { result ≡ tells_replies self }
    {
        matches!(self, Compared::Replies)
    }
}

/// Why an order isn't made.
#[derive(Clone, Copy, PartialEq, Eq, Debug)]
pub enum NotMade {
    /// Out of memory, or the setup or the steps are 2^32 or more.
    Memory,
    /// A seat isn't there at its turn, or has no step left.
    NoStep,
}

impl From<AllocError> for NotMade {
    ghost use Rattle.irp_machine.specs.declared.limits.NotMade.TheVariants.{Memory};

    ghost from_gives = { λ _ refusal. refusal ≡ Memory };

    fn from(_error: AllocError) -> NotMade {
        NotMade::Memory
    }
}

/// Why an exploration was given up: out of memory, or which bound was met.
#[derive(Clone, Copy, PartialEq, Eq, Debug)]
pub enum NotFound {
    /// Out of memory, or the setup or the steps are 2^32 or more.
    Memory,
    /// More states than were allowed are reached by equally many steps, or are ends.
    States,
    /// More outcomes than were allowed.
    Outcomes,
    /// Some order, with the step that closes it, has `Limits::steps` atomic steps or more.
    Steps,
    /// 2^128 orders or more lead to one state.
    Orders,
}

impl From<AllocError> for NotFound {
    ghost use Rattle.irp_machine.specs.declared.limits.NotFound.TheVariants.{Memory};

    ghost from_gives = { λ _ refusal. refusal ≡ Memory };

    fn from(_error: AllocError) -> NotFound {
        NotFound::Memory
    }
}

impl From<NotExplored> for NotFound {
    ghost use Rattle.irp_machine.specs.Limits.{not_explored};

    ghost from_gives = { λ given refusal. refusal ≡ not_explored given };

    fn from(refusal: NotExplored) -> NotFound {
        match refusal {
            NotExplored::Memory => NotFound::Memory,
            NotExplored::States => NotFound::States,
            NotExplored::Steps => NotFound::Steps,
            NotExplored::Orders => NotFound::Orders,
        }
    }
}
