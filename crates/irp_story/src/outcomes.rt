//! Where a packet is after a call that moved it.
#![tactic(auto, unfolding(json::specs::Print::escape_byte))]

ghost use Rattle.irp_story.specs.Forms as spec;

use crate::form::{put, put_one, put_text, put_two};
use irp_listing::{Outcome, moves, outcome_of};
use irp_transcript_writer::Written;
use irp_types::Entry;
use std::alloc::AllocError;

/// Where a packet is after a call that moved it.
#[derive(Drop)]
struct Place {
    outcome: Outcome,
}

impl Written for Place {
    ghost json = { λ place. spec.outcome_json place.outcome };

    fn write(&self, out: &mut Vec<u8>) -> Result<(), AllocError> {
        match self.outcome {
            Outcome::Held(device) => put_one(out, "[\"held\",", &device, "]"),
            Outcome::Kept(device, status, information) => {
                put(out, "[\"kept\",", &device)?;
                put_two(out, ",", &status, ",", &information, "]")
            }
            Outcome::Stays => put_text(out, "[\"stays\"]"),
            Outcome::Completed(status, information) => {
                put_two(out, "[\"completed\",", &status, ",", &information, "]")
            }
        }
    }
}

/// Where the packet is that an entry's call moved; null where it moved none.
#[derive(Drop)]
pub(crate) struct Moved<'a> {
    pub(crate) entry: &'a Entry,
}

impl Written for Moved<'_> {
    ghost json = { λ moved. spec.moved_json moved.entry.now };

    fn write(&self, out: &mut Vec<u8>) -> Result<(), AllocError> {
        if !moves(self.entry) {
            return put_text(out, "null");
        }
        let outcome = outcome_of(self.entry);
        Place { outcome }.write(out)
    }
}
