//! How the program ends.

ghost use Rattle.std.specs.Prelude.{◌≡◌};
ghost use Rattle.irp_orders.specs.Ending.{
  has_line,
  of_refused,
  of_unfound,
  of_unheard,
  of_unmade,
  of_unopened,
  of_unread,
  of_words,
  status_of,
};
ghost use Rattle.irp_orders.specs.declared.ending.Ending.TheVariants.{NoMemory};

use irp_condition::{ConditionFault, Unread};
use irp_machine::{NotFound, NotMade};
use irp_program::{NoOpen, Unasked, Unopened};
use irp_script_reader::{ScriptFault, ScriptRefusal};
use irp_streams::StreamFault;
use std::alloc::{AllocError, AllocFailed};
use std::fmt;

/// How the program ends: its exit status, and the line for standard error (this project's own command line).
#[derive(Drop)]
pub enum Ending {
    /// All was done; the condition never holds where one was asked, and every order is right where that was asked: status 0,
    /// and no line.
    Done,
    /// The script is refused: status 1.
    RefusedScript(ScriptRefusal),
    /// The script in words has faults, with a line for each: status 1.
    FaultyWords(String),
    /// The JSON isn't read as what the words say; no text is known that brings this about: status 1.
    Differs,
    /// An order makes the condition hold, or isn't right, and was told: status 2, and no line.
    Broken,
    /// Memory ran out: status 3.
    NoMemory,
    /// A bound was met: status 3.
    Met(NotFound),
    /// An order can't be made again: status 3. It never comes: the path of an outcome can be made again
    /// (`paths_can_be_made` of `irp_machine`), and one without steps too.
    NoOrder,
    /// The words are none that the program takes: status 4.
    OtherWords,
    /// `--right` stands beside a word that asks for something else: status 4.
    NotBesideRight,
    /// The condition isn't one: status 4.
    RefusedCondition(ConditionFault),
    /// There are only so many outcomes: status 4.
    NoOutcome(u64),
    /// The file of this name can't be opened: status 5.
    NoFile { name: String, reason: NoOpen },
    /// The input or the output failed: status 5.
    Failed,
}

impl Ending {
    /// The exit status.
    pub fn status(&self) -> u8
        ensures { result ≡ status_of self.now }
    {
        match self {
            Ending::Done => 0,
            Ending::RefusedScript(_) | Ending::FaultyWords(_) | Ending::Differs => 1,
            Ending::Broken => 2,
            Ending::NoMemory | Ending::Met(_) | Ending::NoOrder => 3,
            Ending::OtherWords
            | Ending::NotBesideRight
            | Ending::RefusedCondition(_)
            | Ending::NoOutcome(_) => 4,
            Ending::NoFile { .. } | Ending::Failed => 5,
        }
    }

    /// Whether there is a line for standard error.
    pub fn has_line(&self) -> bool
        ensures { result ≡ has_line self.now }
    {
        !matches!(self, Ending::Done | Ending::Broken)
    }
}

/// Which bound was met, and how it is raised.
fn bound_words(met: NotFound) -> &'static str {
    match met {
        NotFound::Memory => "out of memory",
        NotFound::States =>
            "more states than may be side by side; --states N allows more, --ends (not beside --right) needs fewer",
        NotFound::Outcomes =>
            "more outcomes than there may be; --outcomes N allows more, --ends (not beside --right) has fewer",
        NotFound::Steps => "an order has 999,999 steps or more; make the script shorter",
        NotFound::Orders => "2^128 orders or more lead to one state; make the script shorter",
    }
}

/// Lines without the newline of the last one.
fn without_last_newline(lines: &str) -> &str {
    lines.strip_suffix("\n").unwrap_or(lines)
}

/// The line for standard error, without its newline; no text where there is none. Faulty words have several.
impl fmt::Display for Ending {
    fn fmt<W: fmt::Write>(&self, f: &mut fmt::Formatter<W>) -> fmt::Result {
        match self {
            Ending::Done | Ending::Broken => Ok(()),
            Ending::RefusedScript(refusal) => write!(f, "irp: script refused: {refusal}"),
            Ending::FaultyWords(lines) => f.write_str(without_last_newline(lines.as_str())),
            Ending::Differs => f.write_str(
                "irp: a fault of this program: the JSON isn't read as what the words say",
            ),
            Ending::NoMemory => f.write_str("irp: out of memory"),
            Ending::Met(met) => write!(f, "irp: {}", bound_words(*met)),
            Ending::NoOrder => f.write_str("irp: an order can't be made again"),
            Ending::OtherWords => f.write_str(
                "irp: usage: irp orders [--show K or --never CONDITION or --right] [FILE]; see irp orders --help",
            ),
            Ending::NotBesideRight => f.write_str(
                "irp: --right stands without --show, --never and --ends; leave out the other word",
            ),
            Ending::RefusedCondition(fault) => write!(f, "irp: condition refused: {fault}"),
            Ending::NoOutcome(count) => write!(f, "irp: outcomes are numbered 1 to {count}"),
            Ending::NoFile { name, reason } => {
                write!(f, "irp: {name}: can't be opened: {reason}")
            }
            Ending::Failed => f.write_str("irp: input or output failed"),
        }
    }
}

impl From<Unasked> for Ending {
    ghost from_gives = { λ given ending. ending ≡ of_words given };

    fn from(given: Unasked) -> Ending {
        match given {
            Unasked::Usage => Ending::OtherWords,
            Unasked::NoMemory => Ending::NoMemory,
        }
    }
}

impl From<Unopened> for Ending {
    ghost from_gives = { λ given ending. ending ≡ of_unopened given };

    fn from(given: Unopened) -> Ending {
        match given {
            Unopened::NoFile { name, reason } => Ending::NoFile { name, reason },
            Unopened::NoMemory => Ending::NoMemory,
        }
    }
}

impl From<StreamFault> for Ending {
    ghost from_gives = { λ given ending. ending ≡ of_unheard given };

    fn from(given: StreamFault) -> Ending {
        match given {
            StreamFault::Failed => Ending::Failed,
            StreamFault::NoMemory => Ending::NoMemory,
        }
    }
}

impl From<ScriptFault> for Ending {
    ghost from_gives = { λ given ending. ending ≡ of_refused given };

    fn from(given: ScriptFault) -> Ending {
        match given {
            ScriptFault::Refused(refusal) => Ending::RefusedScript(refusal),
            ScriptFault::NoMemory => Ending::NoMemory,
        }
    }
}

impl From<Unread> for Ending {
    ghost from_gives = { λ given ending. ending ≡ of_unread given };

    fn from(given: Unread) -> Ending {
        match given {
            Unread::Fault(fault) => Ending::RefusedCondition(fault),
            Unread::NoMemory => Ending::NoMemory,
        }
    }
}

impl From<NotFound> for Ending {
    ghost from_gives = { λ given ending. ending ≡ of_unfound given };

    fn from(given: NotFound) -> Ending {
        match given {
            NotFound::Memory => Ending::NoMemory,
            met => Ending::Met(met),
        }
    }
}

impl From<NotMade> for Ending {
    ghost from_gives = { λ given ending. ending ≡ of_unmade given };

    fn from(given: NotMade) -> Ending {
        match given {
            NotMade::Memory => Ending::NoMemory,
            NotMade::NoStep => Ending::NoOrder,
        }
    }
}

impl From<AllocError> for Ending {
    ghost from_gives = { λ _ ending. ending ≡ NoMemory };

    fn from(_given: AllocError) -> Ending {
        Ending::NoMemory
    }
}

impl<T: Drop> From<AllocFailed<T>> for Ending {
    ghost from_gives = { λ _ ending. ending ≡ NoMemory };

    fn from(_given: AllocFailed<T>) -> Ending {
        Ending::NoMemory
    }
}
