//! The lines' own forms: questions, replies, entries and the header.
#![tactic(auto, unfolding(json::specs::Print::escape_byte))]

ghost use Rattle.std.specs.Prelude.{◌≡◌, ◌++◌, map, OnOk};
ghost use Rattle.serde_json.specs.Written.{compact_text};
ghost use Rattle.irp_transcript_writer.specs.Json.{list};
ghost use Rattle.irp_transcript_writer.specs.Lines.{asked_json, completions_json, entry_json, header_json, reply_json};

use crate::call_lines::put_call;
use crate::form::{Written, put, put_list, put_one, put_text, put_two};
use irp_transcript::{Form, Header};
use irp_types::{Asked, Entry, Known, Questions, Reply};
use std::alloc::AllocError;

impl Written for Asked {
    ghost json = { asked_json };

    fn write(&self, out: &mut Vec<u8>) -> Result<(), AllocError> {
        match *self {
            Asked::Dispatch { id, shown, plan } => {
                put(out, "{\"dispatch\":", &id.0)?;
                put_two(out, ",\"plan\":", &plan, ",\"shown\":", &shown, "}")
            }
            Asked::Completion { id, shown, answer } => {
                put(out, "{\"answer\":", &answer)?;
                put_two(out, ",\"completion\":", &id, ",\"shown\":", &shown, "}")
            }
            Asked::Cancel { id, shown, answer } => {
                put(out, "{\"answer\":", &answer)?;
                put_two(out, ",\"cancel\":", &id, ",\"shown\":", &shown, "}")
            }
        }
    }
}

impl Written for Questions {
    ghost json = { λ questions. list (map asked_json questions) };

    fn write(&self, out: &mut Vec<u8>) -> Result<(), AllocError> {
        put_list(out, self.as_slice())
    }
}

impl Written for Reply {
    ghost json = { reply_json };

    fn write(&self, out: &mut Vec<u8>) -> Result<(), AllocError> {
        match *self {
            Reply::Done => put_text(out, "\"done\""),
            Reply::Device(device) => put_one(out, "{\"device\":", &device, "}"),
            Reply::Irp(irp) => put_one(out, "{\"irp\":", &irp, "}"),
            Reply::Status(status) => put_one(out, "{\"status\":", &status, "}"),
            Reply::Previous(cancel) => put_one(out, "{\"previous\":", &cancel, "}"),
            Reply::Cancelled(cancelled) => put_one(out, "{\"cancelled\":", &cancelled, "}"),
            Reply::Seen(seen) => put_one(out, "{\"seen\":", &seen, "}"),
            Reply::Refused(refusal) => put_one(out, "{\"refused\":", &refusal, "}"),
        }
    }
}

impl Written for Entry {
    ghost json = { entry_json };

    fn write(&self, out: &mut Vec<u8>) -> Result<(), AllocError> {
        put(out, "{\"asked\":", &self.asked)?;
        put_text(out, ",\"call\":")?;
        put_call(out, self.call, self.lock, self.drained)?;
        put(out, ",\"n\":", &self.number)?;
        put(out, ",\"reply\":", &self.reply)?;
        put_one(out, ",\"seat\":", &self.seat, "}")
    }
}

/// Writes how many completion routines of each rule there are.
fn put_completions(out: &mut Vec<u8>, known: Known) -> Result<(), AllocError>
    ensures { OnOk result (out.new.items ≡ out.old.items ++ compact_text (completions_json known)) }
{
    let Known {
        watch,
        change,
        keeper,
        keep_on_error,
        free,
        ..
    } = known;
    put_list(out, &[watch, change, keeper, keep_on_error, free])
}

impl Written for Header {
    ghost json = { header_json };

    fn write(&self, out: &mut Vec<u8>) -> Result<(), AllocError> {
        put(out, "{\"cancels\":", &self.cancels)?;
        put_text(out, ",\"completions\":")?;
        put_completions(out, self.completions)?;
        put(out, ",\"dispatches\":", &self.dispatches)?;
        put(out, ",\"drivers\":", &self.drivers)?;
        match self.form {
            Form::One => {
                put(out, ",\"form\":", &1u8)?;
                put(out, ",\"locks\":", &self.locks)?;
                put_one(out, ",\"seats\":", &self.seats, "}")
            }
            Form::Two { slots } => {
                put(out, ",\"form\":", &2u8)?;
                put(out, ",\"locks\":", &self.locks)?;
                put(out, ",\"seats\":", &self.seats)?;
                put_one(out, ",\"slots\":", &slots, "}")
            }
        }
    }
}
