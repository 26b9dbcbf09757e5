//! How the program ends.

ghost use Rattle.std.specs.Prelude.{◌≡◌};
ghost use Rattle.irp_live.specs.Ending.{complaint_of, ending_of, status_of};

use crate::talking::LiveFault;
use irp_judge::Verdict;
use irp_streams::StreamFault;

/// How the program ends, as `irpx check` does (README.md).
#[derive(Clone, Copy, PartialEq, Eq)]
pub enum Ending {
    /// The entries are legal, or help was asked for: status 0.
    Done,
    /// The first line is no header: status 1.
    RefusedHeader,
    /// An entry wasn't legal: status 2.
    Illegal,
    /// Memory ran out: status 3.
    NoMemory,
    /// The words are none that the program takes: status 4.
    OtherWords,
    /// Standard input or output failed: status 5.
    Failed,
}

impl Ending {
    /// The exit status.
    pub fn status(self) -> u8
        ensures { result ≡ status_of self }
    {
        match self {
            Ending::Done => 0,
            Ending::RefusedHeader => 1,
            Ending::Illegal => 2,
            Ending::NoMemory => 3,
            Ending::OtherWords => 4,
            Ending::Failed => 5,
        }
    }

    /// The line for standard error, without its newline; no text where there is none.
    pub fn complaint(self) -> &'static str
        ensures { result.now ≡ complaint_of self }
    {
        match self {
            Ending::Done | Ending::Illegal => "",
            Ending::RefusedHeader => "irp: transcript refused: line 1",
            Ending::NoMemory => "irp: out of memory",
            Ending::OtherWords => "irp: usage: irp live, or irp live --help",
            Ending::Failed => "irp: input or output failed",
        }
    }
}

/// What a result ends with.
pub fn ending_of(lived: Result<Verdict, LiveFault>) -> Ending
    ensures { result ≡ ending_of lived }
{
    match lived {
        Ok(Verdict::Legal { .. }) => Ending::Done,
        Ok(Verdict::Illegal { .. }) => Ending::Illegal,
        Err(LiveFault::RefusedHeader) => Ending::RefusedHeader,
        Err(LiveFault::Stream(StreamFault::Failed)) => Ending::Failed,
        Err(LiveFault::Stream(StreamFault::NoMemory)) => Ending::NoMemory,
    }
}
