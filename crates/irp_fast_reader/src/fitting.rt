//! Which lines fit under a header.

ghost use Rattle.std.specs.Prelude.{ℕ, ◌≡◌, ◌↔◌, true};
ghost use Rattle.irp_transcript.specs.declared.header.Header.{Header};
ghost use Rattle.irp_transcript_reader.specs.Reading.{hands_within};
ghost use Rattle.irp_fast_reader.specs.declared.unfit.Unfit.{Unfit};
ghost use Rattle.irp_fast_reader.specs.declared.unfit.Unfit.TheVariants as part;
ghost use Rattle.irp_fast_reader.specs.Fits.{EntryUnder, WordUnder};
ghost use Rattle.irp_fast_reader.specs.Fitting.{AnyHeader};

use crate::fits::{fits, word_fits};
use crate::unfit::Unfit;
use irp_transcript::{Act, Header, WordLine};
use irp_transcript_reader::{has_entry, has_word};
use irp_transcript_writer::Written;
use irp_types::Entry;

/// What a line of a transcript is written of.
pub trait Fitting: Written {
    /// What must hold of the value under the header, so that it fits, beside that its line is short.
    ghost told: { Header → Self → Type 0 };

    /// The part of a transcript that doesn't fit where the value at this place doesn't.
    ghost unfit: { ℕ → Unfit };

    /// Whether that holds.
    fn is_told(&self, header: &Header) -> bool
        ensures { result ≡ true ↔ told header.now self.now };

    /// The part of a transcript that doesn't fit where the value at this place doesn't.
    fn unfit(place: usize) -> Unfit
        ensures { result ≡ unfit place };
}

impl Fitting for Header {
    ghost told = { AnyHeader };

    ghost unfit = { λ place. part.Header };

    fn unfit(_place: usize) -> Unfit {
        Unfit::Header
    }

    fn is_told(&self, _header: &Header) -> bool {
        true
    }
}

impl Fitting for Entry {
    ghost told = { EntryUnder };

    ghost unfit = { λ place. part.Entry place };

    fn unfit(place: usize) -> Unfit {
        Unfit::Entry { place }
    }

    fn is_told(&self, header: &Header) -> bool {
        self.seat < header.seats && has_entry(header.form, self) && fits(self)
    }
}

/// Whether an act hands over to one of so many seats, if it hands over.
fn hands_within(seats: u32, act: Act) -> bool
    ensures { result ≡ hands_within seats act }
{
    match act {
        Act::Hand(hand) => hand.to < seats,
        _ => true,
    }
}

impl Fitting for WordLine {
    ghost told = { WordUnder };

    ghost unfit = { λ place. part.Word place };

    fn unfit(place: usize) -> Unfit {
        Unfit::Word { place }
    }

    fn is_told(&self, header: &Header) -> bool {
        word_fits(*self);
        self.seat < header.seats
            && hands_within(header.seats, self.act)
            && has_word(header.form, *self)
    }
}
