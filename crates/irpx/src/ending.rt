//! How the program ends.

ghost use Rattle.std.specs.Prelude.{◌≡◌};
ghost use Rattle.irpx.specs.Ending.{done, ending_of, of_verdict, status_of};

use crate::not_done::NotDone;
use irp_judge::Verdict;

/// How the program ends (this project's own command line, README.md).
#[derive(Clone, Copy)]
pub enum Ending {
    /// All was done, and a transcript that was checked is legal: status 0.
    Done,
    /// The transcript that was checked isn't legal: status 2.
    Illegal,
    /// Something wasn't done: the fault's status, and its line for standard error.
    Faulty(NotDone),
}

impl Ending {
    /// How the demonstration or a run ends.
    pub fn of(outcome: Result<(), NotDone>) -> Ending
        ensures { result ≡ ending_of done outcome }
    {
        match outcome {
            Ok(()) => Ending::Done,
            Err(fault) => Ending::Faulty(fault),
        }
    }

    /// How a check ends.
    pub fn of_check(outcome: Result<Verdict, NotDone>) -> Ending
        ensures { result ≡ ending_of of_verdict outcome }
    {
        match outcome {
            Ok(Verdict::Legal { .. }) => Ending::Done,
            Ok(Verdict::Illegal { .. }) => Ending::Illegal,
            Err(fault) => Ending::Faulty(fault),
        }
    }

    /// The exit status.
    pub fn status(self) -> u8
        ensures { result ≡ status_of self }
    {
        match self {
            Ending::Done => 0,
            Ending::Illegal => 2,
            Ending::Faulty(fault) => fault.status(),
        }
    }
}
