//! Why a script isn't read. Source: this project's own rule, and of texts its own format (docs/FORMATS.md).

use thiserror::Error;

/// What is wrong with a part of a script, with its number in the formats.
#[derive(Clone, Copy, PartialEq, Eq, Debug, Error)]
pub enum MemberFault {
    /// A key is missing, unknown or of a wrong shape or range; a seat is not below `seats`; a step on a remove lock or
    /// on a cancel slot stands in `setup`; or what form 1 doesn't have stands there. From form 2 on also a hand to the
    /// step's own seat, and a publish in a slot, or a withdraw from one, that isn't there or isn't the seat's own. A
    /// condition before form 4, or in `setup`, or one that names no earlier step of the step's own seat.
    #[error("S4")]
    BadField,
    /// A behaviour, the status of a finish or the setting of a forward is against its rule.
    #[error("S5")]
    RuleBroken,
    /// A plan names a completion or cancel routine that the script lacks.
    #[error("S6")]
    NoRoutine,
    /// A driver names a dispatch that the script lacks, a major function code that there isn't, or one twice.
    #[error("S7")]
    BadDispatch,
    /// A list is longer than its limit, or there are too many labels.
    #[error("S8")]
    TooMany,
}

/// A part of a script.
#[derive(Clone, Copy, PartialEq, Eq, Debug, Error)]
pub enum Section {
    /// The keys of the object.
    #[error("top")]
    Top,
    /// The number of seats.
    #[error("seats")]
    Seats,
    /// The number of remove locks.
    #[error("locks")]
    Locks,
    /// The number of cancel slots, from form 2 on.
    #[error("slots")]
    Slots,
    /// The completion routines.
    #[error("completions")]
    Completions,
    /// The cancel routines.
    #[error("cancels")]
    Cancels,
    /// The plans of the dispatches.
    #[error("dispatches")]
    Dispatches,
    /// The tables of the drivers.
    #[error("drivers")]
    Drivers,
    /// The steps before the workers.
    #[error("setup")]
    Setup,
    /// The steps of the workers.
    #[error("steps")]
    Steps,
}

/// Why a script is refused: its first fault. It is displayed as `S4 steps 3`.
#[derive(Clone, Copy, PartialEq, Eq, Debug, Error)]
pub enum ScriptRefusal {
    /// The text has more than 1,048,576 bytes.
    #[error("S1")]
    TooLong,
    /// The text is no JSON value, or one that nests too deep.
    #[error("S2")]
    NotJson,
    /// The value is no object, or its `form` is missing or not known.
    #[error("S3")]
    BadForm,
    /// A part has a fault: which member of which list, or 0 of what is no list.
    #[error("{fault} {section} {index}")]
    At {
        /// What is wrong.
        fault: MemberFault,
        /// In which part.
        section: Section,
        /// In which member of the list, from 0.
        index: usize,
    },
}

/// Why a script wasn't read.
#[derive(Clone, Copy, PartialEq, Eq, Debug, Error)]
pub enum ScriptFault {
    /// It is refused.
    #[error("{0}")]
    Refused(ScriptRefusal),
    /// Memory ran out.
    #[error("memory ran out")]
    NoMemory,
}
