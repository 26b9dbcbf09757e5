//! How the program ends.

ghost use Rattle.std.specs.Prelude.{◌≡◌};
ghost use Rattle.irp_words.specs.Ending.{has_line, of_unopened, of_unread, of_words, status_of};

use irp_program::{NoOpen, Unasked, Unopened};
use irp_streams::StreamFault;
use std::fmt;

/// How the program ends: its exit status, and the line for standard error (this project's own command line).
#[derive(Drop)]
pub enum Ending {
    /// All was done, and nothing is wrong: status 0, and no line.
    Done,
    /// The script has faults, which were told: status 1, and no line.
    Faulty,
    /// The script has no faults, and what is hardly meant was told, where that was to count: status 2, and no line.
    Warned,
    /// The JSON isn't read as what the words say; no text is known that brings this about: status 1.
    Differs,
    /// Memory ran out: status 3.
    NoMemory,
    /// The words are none that the program takes: status 4.
    OtherWords,
    /// The file of this name can't be opened, for this reason: status 5.
    NoFile { name: String, reason: NoOpen },
    /// The input or the output failed: status 5.
    Failed,
}

impl Ending {
    /// The exit status.
    pub fn status(&self) -> u8
        ensures { result ≡ status_of self.now }
    {
        match self {
            Ending::Done => 0,
            Ending::Faulty | Ending::Differs => 1,
            Ending::Warned => 2,
            Ending::NoMemory => 3,
            Ending::OtherWords => 4,
            Ending::NoFile { .. } | Ending::Failed => 5,
        }
    }

    /// Whether there is a line for standard error.
    pub fn has_line(&self) -> bool
        ensures { result ≡ has_line self.now }
    {
        !matches!(self, Ending::Done | Ending::Faulty | Ending::Warned)
    }
}

/// The line for standard error, without its newline; no text where there is none.
impl fmt::Display for Ending {
    ghost use Rattle.irp_words.specs.Ending.{complaint_of};

    ghost output = { λ ending. complaint_of ending };

    fn fmt<W: fmt::Write>(&self, f: &mut fmt::Formatter<W>) -> fmt::Result {
        match self {
            Ending::Done | Ending::Faulty | Ending::Warned => Ok(()),
            Ending::Differs => f.write_str(
                "irp: a fault of this program: the JSON isn't read as what the words say",
            ),
            Ending::NoMemory => f.write_str("irp: out of memory"),
            Ending::OtherWords => f.write_str(
                "irp: usage: irp words json, words or faults [FILE], or tables; see irp words --help",
            ),
            Ending::NoFile { name, reason } => {
                write!(f, "irp: {name}: can't be opened: {reason}")
            }
            Ending::Failed => f.write_str("irp: input or output failed"),
        }
    }
}

impl From<Unasked> for Ending {
    ghost from_gives = { λ given ending. ending ≡ of_words given };

    fn from(given: Unasked) -> Ending {
        match given {
            Unasked::Usage => Ending::OtherWords,
            Unasked::NoMemory => Ending::NoMemory,
        }
    }
}

impl From<Unopened> for Ending {
    ghost from_gives = { λ given ending. ending ≡ of_unopened given };

    fn from(given: Unopened) -> Ending {
        match given {
            Unopened::NoFile { name, reason } => Ending::NoFile { name, reason },
            Unopened::NoMemory => Ending::NoMemory,
        }
    }
}

impl From<StreamFault> for Ending {
    ghost from_gives = { λ given ending. ending ≡ of_unread given };

    fn from(given: StreamFault) -> Ending {
        match given {
            StreamFault::Failed => Ending::Failed,
            StreamFault::NoMemory => Ending::NoMemory,
        }
    }
}
