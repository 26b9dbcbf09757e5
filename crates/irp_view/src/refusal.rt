//! What was expected of a line that is refused.

ghost use Rattle.std.specs.Prelude.{◌≡◌};
ghost use Rattle.irp_view.specs.Refusals.{plain_text};

use irp_feed::RefusedLine;
use irp_text_faults::{Before as Bounds, line_fault};
use irp_transcript::{Form, Header};
use irp_types::limits::MOST_ENTRIES;
use serde_json::Value;
use std::alloc::Global;
use std::fmt;

/// What was expected of a line that is refused, as far as it is told.
#[derive(Drop)]
pub enum Expected {
    /// A newline behind it.
    Newline,
    /// At most 65,536 bytes.
    Shorter,
    /// JSON, which the text isn't at this column.
    Json { column: usize },
    /// Something else in the part at this column; the words tell which part it is, and what was expected.
    Part { column: usize, words: String },
    /// No entry, since a word line stands before it.
    NoEntry,
    /// No entry, since there are as many as there may be.
    NoMore,
    /// Another line; nothing more is known of it.
    Other,
    /// It isn't known, for want of memory.
    Fitting,
}

impl fmt::Display for Expected {
    ghost use Rattle.std.specs.Prelude.{Some};
    ghost use Rattle.irp_view.specs.Refusals.{expected_text};

    ghost output = { λ expected. Some (expected_text expected) };

    fn fmt<W: fmt::Write>(&self, f: &mut fmt::Formatter<W>) -> fmt::Result {
        match self {
            Expected::Json { column } => write!(f, ", column {column}: this isn't JSON"),
            Expected::Part { column, words } => write!(f, ", column {column}{words}"),
            other => f.write_str(plain_text(other)),
        }
    }
}

/// What was expected, where that has no number.
fn plain_text(expected: &Expected) -> &'static str
    ensures { result.now ≡ plain_text expected.now }
{
    match expected {
        Expected::Newline => ": the last line has no newline",
        Expected::Shorter => ": a line has at most 65536 bytes",
        Expected::NoEntry => ": an entry stands behind a word line",
        Expected::NoMore => ": a transcript has at most 1000000 entries",
        Expected::Other => ": the line has none of the forms of docs/FORMATS.md",
        Expected::Json { .. } | Expected::Part { .. } | Expected::Fitting => "",
    }
}

/// What stands before a line, as far as it tells what is expected of the line.
#[derive(Clone, Copy)]
pub struct Before {
    /// What the header settles, where there is a header.
    pub bounds: Bounds,
    /// How many entries there are.
    pub entries: usize,
    /// Whether there is a word line.
    pub words: bool,
}

impl Before {
    /// Before the first line.
    pub fn nothing() -> Before {
        Before {
            bounds: Bounds::Nothing,
            entries: 0,
            words: false,
        }
    }

    /// Behind this header, and so many entries, with or without word lines.
    pub fn behind(header: &Header, entries: usize, words: bool) -> Before {
        Before {
            bounds: bounds_of(header),
            entries,
            words,
        }
    }
}

/// What a header settles for the lines behind it.
fn bounds_of(header: &Header) -> Bounds {
    Bounds::Header {
        two: matches!(header.form, Form::Two { .. }),
        seats: header.seats,
    }
}

/// What was expected of a line in which nothing is wrong by itself, behind these lines.
fn expected_next(before: Before, is_entry: bool) -> Expected {
    if is_entry && before.entries >= MOST_ENTRIES {
        Expected::NoMore
    } else {
        Expected::Other
    }
}

/// What was expected of this line, which is an entry or not, behind these lines.
fn expected_behind(alloc: Global, before: Before, line: &[u8], is_entry: bool) -> Expected {
    if is_entry && before.words {
        return Expected::NoEntry;
    }
    match line_fault(alloc, before.bounds, line) {
        Ok(Some(fault)) => Expected::Part {
            column: fault.column,
            words: fault.words,
        },
        Ok(None) => expected_next(before, is_entry),
        Err(_) => Expected::Fitting,
    }
}

/// Whether this line is an entry; or what was expected of it where it isn't JSON.
fn is_entry(alloc: Global, line: &[u8]) -> Result<bool, Expected> {
    match Value::from_slice(alloc, line) {
        Ok(value) => Ok(value.get("call").is_some()),
        Err(error) if error.is_memory() => Err(Expected::Fitting),
        Err(error) => Err(Expected::Json {
            column: error.column().max(1),
        }),
    }
}

/// What was expected of this line behind these lines.
fn expected_in(alloc: Global, before: Before, line: &[u8]) -> Expected {
    match is_entry(alloc, line) {
        Ok(is_entry) => expected_behind(alloc, before, line, is_entry),
        Err(expected) => expected,
    }
}

/// What was expected of this line, on condition that it is the first that is refused.
pub fn expected_of(alloc: Global, before: Before, refused: RefusedLine) -> Expected {
    match refused {
        RefusedLine::NoNewline => Expected::Newline,
        RefusedLine::TooLong => Expected::Shorter,
        RefusedLine::NotKept => Expected::Fitting,
        RefusedLine::Whole(line) => expected_in(alloc, before, line.as_slice()),
    }
}
