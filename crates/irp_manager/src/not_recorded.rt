//! Why a call was not recorded.

/// Why a call was not recorded. It was not made either, and nothing changed (this project's own rule).
#[derive(Clone, Copy, PartialEq, Eq, Debug)]
pub enum NotRecorded {
    /// A growth was refused.
    Memory,
    /// The seat has seen more entries than the history's length.
    Behind { length: u64 },
    /// The history has 1,000,000 entries.
    HistoryFull,
}
