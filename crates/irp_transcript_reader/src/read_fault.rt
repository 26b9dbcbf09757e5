//! Why a transcript wasn't read. Source: this project's own rules.

use thiserror::Error;

/// Why a transcript wasn't read.
#[derive(Clone, Copy, Debug, PartialEq, Eq, Error)]
pub enum ReadFault {
    /// The first line that is refused, counted from 1.
    #[error("line {0} is refused")]
    Line(u64),
    /// Memory ran out.
    #[error("memory ran out")]
    NoMemory,
}
