//! Why an input holds no transcript.

ghost use Rattle.std.specs.Prelude.{◌≡◌};
ghost use Rattle.irp_feed.specs.Feeding.{refused_line};
ghost use Rattle.irp_view.specs.Reading.{line_of};

use crate::refusal::{Before, Expected, expected_of};
use irp_feed::Unfed;
use std::alloc::Global;

/// Why the input holds no transcript.
#[derive(Drop)]
pub enum Unread {
    /// The input failed. One that is too long counts as failed.
    Input,
    /// The text isn't a transcript's: this line, from 1, is the first that is refused, and what was expected there.
    Refused { line: u64, expected: Expected },
    /// Memory ran out.
    NoMemory,
}

/// Why the input holds no transcript, whose text isn't read on behind these lines.
pub fn unread_behind(alloc: Global, before: Before, unfed: Unfed) -> Unread
    ensures { line_of result ≡ refused_line unfed }
{
    match unfed {
        Unfed::Input => Unread::Input,
        Unfed::Refused { line, refused } => Unread::Refused {
            line,
            expected: expected_of(alloc, before, refused),
        },
        Unfed::NoMemory | Unfed::NotTaken => Unread::NoMemory,
    }
}
