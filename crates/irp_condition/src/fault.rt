//! Why a text is no condition.

ghost use Rattle.std.specs.Prelude.{◌≡◌};
ghost use Rattle.irp_condition.specs.declared.fault.Unread.TheVariants.{NoMemory};

use std::alloc::{AllocError, AllocFailed};
use std::fmt;

/// What was expected in a condition's text (this project's own rule).
#[derive(Clone, Copy, PartialEq, Eq)]
pub enum Expected {
    /// A fact, `not` or an opening parenthesis.
    Condition,
    Open,
    Close,
    Step,
    Label,
    Lock,
    Device,
    Comparison,
    Number,
    Truth,
    Owner,
    Reply,
    /// A fact that doesn't hang on what steps were answered.
    End,
    /// `and`, `or` or the end of the text.
    Joint,
    /// The end of the text, since conditions stand within each other 32 deep already.
    Shallower,
}

impl fmt::Display for Expected {
    fn fmt<W: fmt::Write>(&self, f: &mut fmt::Formatter<W>) -> fmt::Result {
        f.write_str(match self {
            Expected::Condition => {
                "not, a parenthesis, or reply, made, owner, status, information, current, live, cancel, deleted, held or removing"
            }
            Expected::Open => "an opening parenthesis, as in owner(a)",
            Expected::Close => "a closing parenthesis",
            Expected::Step => "the place of one of the script's steps, from 0, as in reply(7)",
            Expected::Label => "a label of the script, as in owner(a)",
            Expected::Lock => "the number of a remove lock, as in held(lock 0)",
            Expected::Device => "the number of a device, as in deleted(0)",
            Expected::Comparison => "==, !=, <, <=, > or >=",
            Expected::Number => "a number as 5 or 0x103, or a status as STATUS_PENDING",
            Expected::Truth => "true or false",
            Expected::Owner => "originator, ended, D2 or none",
            Expected::Reply => {
                "a refusal as Ended, a number, a status, done, an answer as standing, D2, true, false or none"
            }
            Expected::End => "no reply, made or deleted beside --ends, which leaves replies out",
            Expected::Joint => "and, or, or the end",
            Expected::Shallower => "at most 32 parentheses and nots within each other",
        })
    }
}

/// Where a text stops being a condition: the column of a byte, from 1, and what was expected there.
#[derive(Clone, Copy)]
pub struct ConditionFault {
    pub column: usize,
    pub expected: Expected,
}

impl fmt::Display for ConditionFault {
    fn fmt<W: fmt::Write>(&self, f: &mut fmt::Formatter<W>) -> fmt::Result {
        write!(f, "column {}: expected {}", self.column, self.expected)
    }
}

/// Why no condition was read.
#[derive(Clone, Copy)]
pub enum Unread {
    Fault(ConditionFault),
    NoMemory,
}

impl From<AllocError> for Unread {
    ghost from_gives = { λ _ unread. unread ≡ NoMemory };

    fn from(_error: AllocError) -> Unread {
        Unread::NoMemory
    }
}

impl<T: Drop> From<AllocFailed<T>> for Unread {
    ghost from_gives = { λ _ unread. unread ≡ NoMemory };

    fn from(_error: AllocFailed<T>) -> Unread {
        Unread::NoMemory
    }
}
