//! What of the manager's state a refusal comes from.
#![tactic(auto, unfolding(json::specs::Print::escape_byte))]

ghost use Rattle.irp_story.specs.Wrongs as spec;

use crate::form::{put, put_one, put_text, put_two};
use irp_judge::Cause;
use irp_transcript_writer::Written;
use std::alloc::AllocError;

/// What a refusal comes from.
#[derive(Drop)]
pub(crate) struct ComesFrom {
    pub(crate) cause: Cause,
}

impl Written for ComesFrom {
    ghost json = { λ it. spec.cause_json it.cause };

    fn write(&self, out: &mut Vec<u8>) -> Result<(), AllocError> {
        match self.cause {
            Cause::Nothing => put_text(out, "[\"nothing\"]"),
            Cause::Use(number) => put_one(out, "[\"use\",", &number, "]"),
            Cause::Owner(owner) => put_one(out, "[\"owner\",", &owner, "]"),
            Cause::Location { current, size } => {
                put_two(out, "[\"location\",", &current, ",", &size, "]")
            }
            Cause::Room {
                current,
                size,
                needed,
            } => {
                put(out, "[\"room\",", &current)?;
                put_two(out, ",", &size, ",", &needed, "]")
            }
            Cause::Lower(device) => put_one(out, "[\"lower\",", &device, "]"),
            Cause::CancelRoutine(id) => put_one(out, "[\"cancel_routine\",", &id, "]"),
            Cause::Devices(count) => put_one(out, "[\"devices\",", &count, "]"),
            Cause::Neighbours { lower, upper } => {
                put_two(out, "[\"neighbours\",", &lower, ",", &upper, "]")
            }
            Cause::Stack(count) => put_one(out, "[\"stack\",", &count, "]"),
            Cause::Lock(lock) => put_one(out, "[\"lock\",", &lock, "]"),
            Cause::Packets { live, next_use } => {
                put_two(out, "[\"packets\",", &live, ",", &next_use, "]")
            }
        }
    }
}
