//! Why the program doesn't do what it is asked. All of it is this project's own command line, README.md.

ghost use Rattle.std.specs.Prelude.{◌≡◌};
ghost use Rattle.irpx.specs.Ending.{fault_status};

use irp_fast_reader::Unfit;
use irp_program::Unasked;
use irp_script::Stop;
use irp_script_reader::{MemberFault, ScriptRefusal, Section};
use irp_streams::StreamFault;
use std::fmt;

/// What the program is at.
#[derive(Clone, Copy, PartialEq, Eq)]
pub enum Phase {
    /// Its words are taken.
    Starting,
    /// A script is read, or a transcript is read and judged.
    Reading,
    /// Calls are made, up to their transcript.
    Running,
    /// A transcript or a verdict is written.
    Writing,
}

/// Why the program doesn't do what it is asked, or not to its end.
#[derive(Clone, Copy)]
pub enum NotDone {
    /// The words are none that the program takes; a request for help is one of these.
    Usage,
    /// Memory ran out in this phase.
    NoMemory(Phase),
    /// The input failed. An interrupted read is a failed one, and so is an input with too many bytes.
    Input,
    /// The output failed.
    Output,
    /// The input's text is no script.
    RefusedScript { refusal: ScriptRefusal },
    /// The script's first step that hands a reference between seats of different workers.
    HandsBetween { step: usize },
    /// The input's text is no transcript: this line, from 1, is the first that is refused.
    RefusedLine { line: u64 },
    /// The seats kept other entries than the history has.
    ReceiptsDiffer,
    /// A step read this label, of this number, for another packet than it was bound to.
    LabelsDiffer { label: usize },
    /// A worker stopped, here and for this reason. The transcript of what was recorded is written.
    Stopped { stop: Stop },
    /// This is the first part of the transcript that doesn't fit: it would not be read again as the same.
    Unfit { unfit: Unfit },
}

impl NotDone {
    /// The exit status.
    pub fn status(self) -> u8
        ensures { result ≡ fault_status self }
    {
        match self {
            NotDone::RefusedScript { .. }
            | NotDone::HandsBetween { .. }
            | NotDone::RefusedLine { .. } => 1,
            NotDone::ReceiptsDiffer | NotDone::LabelsDiffer { .. } => 2,
            NotDone::NoMemory(_) | NotDone::Stopped { .. } | NotDone::Unfit { .. } => 3,
            NotDone::Usage => 4,
            NotDone::Input | NotDone::Output => 5,
        }
    }
}

/// The line for standard error, without its newline.
impl fmt::Display for NotDone {
    ghost use Rattle.irpx.specs.Ending.{complaint_of};

    ghost output = { λ fault. complaint_of fault };

    fn fmt<W: fmt::Write>(&self, f: &mut fmt::Formatter<W>) -> fmt::Result {
        match self {
            NotDone::RefusedScript { refusal } => write!(f, "irpx: script refused: {refusal}"),
            NotDone::HandsBetween { step } => {
                let refusal = ScriptRefusal::At {
                    fault: MemberFault::BadField,
                    section: Section::Steps,
                    index: *step,
                };
                write!(f, "irpx: script refused: {refusal}")
            }
            NotDone::RefusedLine { line } => write!(f, "irpx: transcript refused: line {line}"),
            NotDone::ReceiptsDiffer => f.write_str("irpx: receipts differ"),
            NotDone::LabelsDiffer { label } => write!(f, "irpx: labels differ: label {label}"),
            NotDone::NoMemory(_) | NotDone::Stopped { .. } => f.write_str("irpx: out of memory"),
            NotDone::Unfit { unfit } => write!(f, "irpx: can't be read again: {unfit}"),
            NotDone::Usage => f.write_str("irpx: usage: irpx demo, run [--workers N] or check"),
            NotDone::Input | NotDone::Output => f.write_str("irpx: input or output failed"),
        }
    }
}

impl From<Unasked> for NotDone {
    ghost use Rattle.irpx.specs.CommandLine.{IsStartingFault};

    ghost from_gives = { λ _ fault. IsStartingFault fault };

    fn from(given: Unasked) -> NotDone {
        match given {
            Unasked::Usage => NotDone::Usage,
            Unasked::NoMemory => NotDone::NoMemory(Phase::Starting),
        }
    }
}

/// An input that isn't read.
impl From<StreamFault> for NotDone {
    ghost use Rattle.irpx.specs.Ending.{IsReadingFault};

    ghost from_gives = { λ _ fault. IsReadingFault fault };

    fn from(given: StreamFault) -> NotDone {
        match given {
            StreamFault::Failed => NotDone::Input,
            StreamFault::NoMemory => NotDone::NoMemory(Phase::Reading),
        }
    }
}
