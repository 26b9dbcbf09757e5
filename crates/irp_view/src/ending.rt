//! How the program ends.

ghost use Rattle.std.specs.Prelude.{◌≡◌};
ghost use Rattle.irp_view.specs.Ending.{has_line, of_unopened, of_unread, of_unshown, of_unwritten, of_verdict, of_words, plain_line, status_of};

use crate::listing::Unshown;
use crate::reading::Unread;
use crate::refusal::Expected;
use irp_judge::Verdict;
use irp_program::{NoOpen, Unasked, Unopened};
use irp_streams::StreamFault;
use std::fmt;

/// How the program ends: its exit status, and the line for standard error (this project's own command line).
#[derive(Drop)]
pub enum Ending {
    /// All was done, and nothing is wrong where that was asked: status 0, and no line.
    Done,
    /// The transcript is refused at this line, from 1, where this was expected: status 1.
    Refused { line: u64, expected: Expected },
    /// An entry is wrong, and was told: status 2, and no line.
    Wrong,
    /// Memory ran out: status 3.
    NoMemory,
    /// The words are none that the program takes: status 4.
    OtherWords,
    /// The file of this name can't be opened: status 5.
    NoFile { name: String, reason: NoOpen },
    /// The input or the output failed: status 5.
    Failed,
}

impl Ending {
    /// The exit status.
    pub fn status(&self) -> u8
        ensures { result ≡ status_of self.now }
    {
        match self {
            Ending::Done => 0,
            Ending::Refused { .. } => 1,
            Ending::Wrong => 2,
            Ending::NoMemory => 3,
            Ending::OtherWords => 4,
            Ending::NoFile { .. } | Ending::Failed => 5,
        }
    }

    /// Whether there is a line for standard error.
    pub fn has_line(&self) -> bool
        ensures { result ≡ has_line self.now }
    {
        !matches!(self, Ending::Done | Ending::Wrong)
    }
}

/// The line for standard error, without its newline; no text where there is none.
impl fmt::Display for Ending {
    ghost use Rattle.irp_view.specs.Ending.{complaint_of};

    ghost output = { λ ending. complaint_of ending };

    fn fmt<W: fmt::Write>(&self, f: &mut fmt::Formatter<W>) -> fmt::Result {
        match self {
            Ending::Refused { line, expected } => {
                write!(f, "irp: transcript refused: line {line}{expected}")
            }
            Ending::NoFile { name, reason } => {
                write!(f, "irp: {name}: can't be opened: {reason}")
            }
            other => f.write_str(plain_line(other)),
        }
    }
}

/// The line, where it tells of no part of the ending.
fn plain_line(ending: &Ending) -> &'static str
    ensures { result.now ≡ plain_line ending.now }
{
    match ending {
        Ending::NoMemory => "irp: out of memory",
        Ending::OtherWords => {
            "irp: usage: irp why, text, story or packet SLOT USE, then [FILE]; see irp --help"
        }
        Ending::Failed => "irp: input or output failed",
        Ending::Done | Ending::Refused { .. } | Ending::Wrong | Ending::NoFile { .. } => "",
    }
}

impl From<Unasked> for Ending {
    ghost from_gives = { λ given ending. ending ≡ of_words given };

    fn from(given: Unasked) -> Ending {
        match given {
            Unasked::Usage => Ending::OtherWords,
            Unasked::NoMemory => Ending::NoMemory,
        }
    }
}

impl From<Unopened> for Ending {
    ghost from_gives = { λ given ending. ending ≡ of_unopened given };

    fn from(given: Unopened) -> Ending {
        match given {
            Unopened::NoFile { name, reason } => Ending::NoFile { name, reason },
            Unopened::NoMemory => Ending::NoMemory,
        }
    }
}

impl From<Unread> for Ending {
    ghost from_gives = { λ given ending. ending ≡ of_unread given };

    fn from(given: Unread) -> Ending {
        match given {
            Unread::Input => Ending::Failed,
            Unread::Refused { line, expected } => Ending::Refused { line, expected },
            Unread::NoMemory => Ending::NoMemory,
        }
    }
}

impl From<Unshown> for Ending {
    ghost from_gives = { λ given ending. ending ≡ of_unshown given };

    fn from(given: Unshown) -> Ending {
        match given {
            Unshown::Unread(unread) => Ending::from(unread),
            Unshown::Unwritten(fault) => Ending::from(fault),
        }
    }
}

impl From<StreamFault> for Ending {
    ghost from_gives = { λ given ending. ending ≡ of_unwritten given };

    fn from(given: StreamFault) -> Ending {
        match given {
            StreamFault::Failed => Ending::Failed,
            StreamFault::NoMemory => Ending::NoMemory,
        }
    }
}

impl From<Verdict> for Ending {
    ghost from_gives = { λ given ending. ending ≡ of_verdict given };

    fn from(given: Verdict) -> Ending {
        match given {
            Verdict::Legal { .. } => Ending::Done,
            Verdict::Illegal { .. } => Ending::Wrong,
        }
    }
}
