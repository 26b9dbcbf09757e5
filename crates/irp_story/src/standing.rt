//! How an entry stands.
#![tactic(auto, unfolding(json::specs::Print::escape_byte))]

ghost use Rattle.std.specs.Prelude.{◌≡◌};
ghost use Rattle.irp_judge.specs.Judges.{seen};
ghost use Rattle.irp_story.specs.Lines.{standing_json, standing_of};

use crate::form::put_text;
use irp_judge::Judge;
use irp_transcript_writer::Written;
use std::alloc::AllocError;

/// How an entry stands.
#[derive(Clone, Copy, PartialEq, Eq, Debug)]
pub enum Standing {
    /// Those up to it are a history that the manager could have made.
    Legal,
    /// It is the first that isn't legal.
    Illegal,
    /// It stands behind one that isn't legal.
    Unjudged,
}

impl Written for Standing {
    ghost json = { standing_json };

    fn write(&self, out: &mut Vec<u8>) -> Result<(), AllocError> {
        match self {
            Standing::Legal => put_text(out, "\"legal\""),
            Standing::Illegal => put_text(out, "\"illegal\""),
            Standing::Unjudged => put_text(out, "\"unjudged\""),
        }
    }
}

/// How the entry at this place stands, by a judge that was fed the entries up to it.
pub(crate) fn standing_of(place: u64, judge: &Judge<'_>) -> Standing
    ensures { result ≡ standing_of place (seen judge.now).wrong }
{
    match judge.wrong() {
        None => Standing::Legal,
        Some(wrong) => {
            if wrong.at == place {
                Standing::Illegal
            } else {
                Standing::Unjudged
            }
        }
    }
}
