//! Why a worker stops. A file of its own, since definitions that clauses cite name these types. All of it is this
//! project's own rule.

ghost use Rattle.std.specs.Prelude.{◌≡◌};

use irp_manager::NotRecorded;
use std::alloc::AllocError;

/// Why a step isn't made.
#[derive(Clone, Copy, PartialEq, Eq, Debug)]
pub enum StopReason {
    /// Memory ran out: for a word line, for what may come out of a slot, or for the entry of a call.
    Memory,
    /// The call isn't recorded: the seat has seen more entries than the history has, which is so long.
    Behind { length: u64 },
    /// The call isn't recorded: the history has 1,000,000 entries.
    HistoryFull,
    /// The worker has no seat of the step's number.
    NoSeat,
    /// A hand to a seat that the worker doesn't have.
    NoTaker,
    /// A hand from a seat to itself.
    SameSeat,
    /// A publish or a withdraw in a slot that isn't the seat's own.
    NotOwner,
    /// The step's place is 2^32 or above.
    TooManySteps,
}

impl From<AllocError> for StopReason {
    ghost use Rattle.irp_script.specs.declared.stop.StopReason.TheVariants.{Memory};

    ghost from_gives = { λ _ reason. reason ≡ Memory };

    fn from(_error: AllocError) -> StopReason {
        StopReason::Memory
    }
}

impl From<NotRecorded> for StopReason {
    ghost use Rattle.irp_script.specs.Stops.{unrecorded};

    ghost from_gives = { λ error reason. reason ≡ unrecorded error };

    fn from(error: NotRecorded) -> StopReason {
        match error {
            NotRecorded::Memory => StopReason::Memory,
            NotRecorded::Behind { length } => StopReason::Behind { length },
            NotRecorded::HistoryFull => StopReason::HistoryFull,
        }
    }
}

/// Where a worker stopped: in front of a step of this seat, for this reason.
#[derive(Clone, Copy, PartialEq, Eq, Debug)]
pub struct Stop {
    pub seat: u32,
    pub reason: StopReason,
}
