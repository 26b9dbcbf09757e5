//! The forms of word lines.
#![tactic(auto, unfolding(json::specs::Print::escape_byte))]

ghost use Rattle.irp_transcript_writer.specs.Lines.{word_json, word_reply_json};

use crate::form::{Written, put_one, put_text};
use crate::rows::{Part, put_row};
use irp_transcript::{Act, WordLine, WordReply};
use irp_types::LockAct::{Acquire, BeginRemove, Drained, Release};
use irp_types::SlotAct::{Publish, Request, Withdraw};
use irp_types::Status;
use std::alloc::AllocError;

impl Written for WordReply {
    ghost json = { word_reply_json };

    fn write(&self, out: &mut Vec<u8>) -> Result<(), AllocError> {
        match *self {
            WordReply::Acquired => put_one(out, "{\"status\":", &Status::SUCCESS, "}"),
            WordReply::DeletePending => put_one(out, "{\"status\":", &Status::DELETE_PENDING, "}"),
            WordReply::Done => put_text(out, "\"ok\""),
            WordReply::SeatFull => put_text(out, "\"seat_full\""),
            WordReply::NotHeld => put_text(out, "\"not_held\""),
            WordReply::AlreadyRemoving => put_text(out, "\"already_removing\""),
            WordReply::NoLock => put_text(out, "\"no_lock\""),
            WordReply::Yes => put_text(out, "\"yes\""),
            WordReply::Busy { word } => put_one(out, "{\"busy\":", &word, "}"),
            WordReply::Standing => put_text(out, "\"standing\""),
            WordReply::Taken { use_no } => put_one(out, "{\"taken\":", &use_no, "}"),
            WordReply::Lost => put_text(out, "\"lost\""),
            WordReply::Nothing => put_text(out, "\"nothing\""),
            WordReply::Used => put_text(out, "\"used\""),
            WordReply::NotStanding => put_text(out, "\"not_standing\""),
            WordReply::NoSlot => put_text(out, "\"no_slot\""),
            WordReply::NoToken => put_text(out, "\"no_token\""),
        }
    }
}

/// Writes the line of a step on a remove lock: its name and the lock, what it was answered, its seat, its place and
/// these numbers.
macro_rules! on_lock {
    ($out:ident $line:ident $name:literal $lock:expr $(, $key:literal $number:expr)*) => {
        put_row($out, &[
            (concat!("{\"do\":\"", $name, "\",\"lock\":"), Part::Lock(Some($lock))),
            (",\"reply\":", Part::Reply($line.reply)),
            (",\"seat\":", Part::Number($line.seat as u64)),
            (",\"step\":", Part::Number($line.step as u64))
            $(, (concat!(",\"", $key, "\":"), Part::Number($number as u64)))*
        ])
    };
}

/// Writes the line of a step on a cancel slot, by its name.
macro_rules! on_slot {
    ($out:ident $line:ident $name:literal $slot:expr) => {
        put_row($out, &[
            (concat!("{\"do\":\"", $name, "\",\"reply\":"), Part::Reply($line.reply)),
            (",\"seat\":", Part::Number($line.seat as u64)),
            (",\"slot\":", Part::Number($slot as u64)),
            (",\"step\":", Part::Number($line.step as u64)),
        ])
    };
}

impl Written for WordLine {
    ghost json = { word_json };

    fn write(&self, out: &mut Vec<u8>) -> Result<(), AllocError> {
        let line = *self;
        match line.act {
            Act::OnLock(Acquire { lock, tag }) => on_lock!(out line "acquire" lock, "tag" tag),
            Act::OnLock(Release { lock, tag }) => on_lock!(out line "release" lock, "tag" tag),
            Act::OnLock(BeginRemove { lock, tag }) =>
                on_lock!(out line "begin_remove" lock, "tag" tag),
            Act::OnLock(Drained { lock }) => on_lock!(out line "drained" lock),
            Act::Hand(on) => on_lock!(out line "hand" on.lock, "tag" on.tag, "to" on.to),
            Act::OnSlot(Publish { slot }) => on_slot!(out line "publish" slot),
            Act::OnSlot(Withdraw { slot }) => on_slot!(out line "withdraw" slot),
            Act::OnSlot(Request { slot }) => on_slot!(out line "request" slot),
            Act::FinishTaken { slot } => on_slot!(out line "finish_taken" slot),
        }
    }
}
