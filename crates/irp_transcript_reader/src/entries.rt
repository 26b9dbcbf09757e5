//! Entries.

ghost use Rattle.serde_json.specs.View.{view};
ghost use Rattle.irp_forms.specs.Parts.{Gives};
ghost use Rattle.irp_transcript_reader.specs.Lines as spec;

use crate::entry_calls::entry_call_at;
use crate::headers::list_under;
use crate::replies::reply_at;
use irp_forms::{Unread, form_of, only_keys, under};
use irp_types::{Asked, Entry, Questions, Row};
use serde_json::Value;
use std::alloc::Global;

/// An entry: what was asked, the call, the entry's number, the reply and the seat.
///
/// # Errors
///
/// `Unread::Form` where the value is no entry; `Unread::NoMemory` where memory runs out.
#[tactic(auto, unfolding(crate::specs::Lines::entry_at))]
pub fn entry_at(alloc: Global, value: &Value) -> Result<Entry, Unread>
    ensures { Gives result (spec.entry_at (view value.now)) }
{
    form_of(only_keys(value, &["asked", "call", "n", "reply", "seat"], &[]))?;
    let called = form_of(value.get("call").and_then(entry_call_at))?;
    let asked: Row<Asked> = list_under(alloc, "asked", value)?;
    Ok(Entry {
        number: form_of(under("n", value))?,
        seat: form_of(under("seat", value))?,
        call: called.call,
        lock: called.lock,
        drained: called.drained,
        asked: Questions::from_vec(asked.into_vec()),
        reply: form_of(value.get("reply").and_then(reply_at))?,
    })
}
