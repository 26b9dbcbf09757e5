//! Why a transcript isn't written to its end. Source: this project's own rules.

use std::fmt;

/// The first part of a transcript that doesn't fit, so that it would not be read again as the same.
#[derive(Clone, Copy, Debug, PartialEq, Eq)]
pub enum Unfit {
    /// The entries: there are more than 1,000,000.
    TooMany,
    /// The header, whose line has more than 65,536 bytes.
    Header,
    /// The entry at this place, from 0.
    Entry { place: usize },
    /// The word line at this place, from 0.
    Word { place: usize },
}

/// The part, as it stands in a message.
impl fmt::Display for Unfit {
    ghost use Rattle.std.specs.Prelude.{Some};
    ghost use Rattle.irp_fast_reader.specs.Fitting.{name_of};

    ghost output = { λ part. Some (name_of part) };

    fn fmt<W: fmt::Write>(&self, f: &mut fmt::Formatter<W>) -> fmt::Result {
        match self {
            Unfit::TooMany => f.write_str("more than 1000000 entries"),
            Unfit::Header => f.write_str("header"),
            Unfit::Entry { place } => write!(f, "entry {place}"),
            Unfit::Word { place } => write!(f, "word line {place}"),
        }
    }
}

/// Why a transcript isn't written to its end.
#[derive(Clone, Copy, Debug, PartialEq, Eq)]
pub enum Unwritten {
    /// This part of it doesn't fit.
    Unfit(Unfit),
    /// The output failed.
    Output,
    /// Memory ran out.
    NoMemory,
}
