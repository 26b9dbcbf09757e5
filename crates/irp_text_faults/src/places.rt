//! Lines and columns.

ghost use Rattle.std.specs.Prelude.{◌≡◌};
ghost use Rattle.irp_text_faults.specs.Places.{place_of};

use crate::tokens::cut;

/// A place in a text: its line and its column, both from 1. A column counts bytes.
#[derive(Clone, Copy, PartialEq, Eq, Debug)]
pub struct Place {
    pub line: usize,
    pub column: usize,
}

/// The place of a byte of a text, or of its end.
pub fn place_of(text: &[u8], offset: usize) -> Place
    ensures { result ≡ place_of text.now offset }
{
    let mut place = Place { line: 1, column: 1 };
    for byte in cut(text, 0, offset.min(text.len())) {
        if *byte == b'\n' {
            place.line = place.line.saturating_add(1);
            place.column = 1;
        } else {
            place.column = place.column.saturating_add(1);
        }
    }
    place
}
