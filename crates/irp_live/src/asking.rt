//! What a line asks. Source: this project's own format (docs/FORMATS.md).

ghost use Rattle.std.specs.Prelude.{◌≡◌, IfErr, IfOk};
ghost use Rattle.serde_json.specs.View.{view};
ghost use Rattle.irp_transcript_reader.specs.Reading.{IsLine};
ghost use Rattle.irp_live.specs.Asking as spec;

use irp_forms::{only_keys, under};
use irp_transcript_reader::{EntryCall, MOST_BYTES, entry_call_at};
use irp_types::IrpRef;
use serde_json::Value;
use std::alloc::Global;

/// Why a line isn't taken.
#[derive(Clone, Copy)]
pub enum LineFault {
    /// It has more than 65,536 bytes without its newline.
    TooLong,
    /// It isn't JSON.
    NotJson,
    /// It is no question, and no line that the formats take here.
    NoForm,
}

/// What a line asks that is no line of a transcript.
#[derive(Clone, Copy)]
pub enum Question {
    /// What a call would be refused with now.
    Would(EntryCall),
    /// What a Look of this packet would be replied with now.
    Look(IrpRef),
    /// The verdict.
    End,
}

/// Why a line wasn't read.
#[derive(Clone, Copy)]
pub enum Unheard {
    /// The line has a fault.
    Fault(LineFault),
    /// Memory ran out.
    NoMemory,
}

/// A question for what a call would be refused with.
#[tactic(auto, unfolding(crate::specs::Asking::would_at))]
fn would_at(value: &Value) -> Option<Question>
    ensures { result ≡ spec.would_at (view value.now) }
{
    only_keys(value, &["would"], &[])?;
    let called = entry_call_at(value.get("would")?)?;
    Some(Question::Would(called))
}

/// A question for what a Look would be replied with.
#[tactic(auto, unfolding(crate::specs::Asking::look_at))]
fn look_at(value: &Value) -> Option<Question>
    ensures { result ≡ spec.look_at (view value.now) }
{
    only_keys(value, &["look"], &[])?;
    let irp = under("look", value)?;
    Some(Question::Look(irp))
}

/// The question for the verdict.
#[tactic(auto, unfolding(crate::specs::Asking::end_at))]
fn end_at(value: &Value) -> Option<Question>
    ensures { result ≡ spec.end_at (view value.now) }
{
    only_keys(value, &["end"], &[])?;
    let ends: bool = under("end", value)?;
    if ends { Some(Question::End) } else { None }
}

/// What a line's value asks; none where it is no question.
pub fn question_at(value: &Value) -> Option<Question>
    ensures { result ≡ spec.question_at (view value.now) }
{
    if let Some(question) = would_at(value) {
        return Some(question);
    }
    if let Some(question) = look_at(value) {
        return Some(question);
    }
    end_at(value)
}

/// The JSON value of a line, which stands without its newline.
///
/// # Errors
///
/// `Fault` with `TooLong` or `NotJson`; `NoMemory` where memory ran out.
pub fn value_of(alloc: Global, line: &[u8]) -> Result<Value, Unheard>
    ensures ok { IfOk result (λ value. IsLine line.now (view value)) }
    ensures err { IfErr result (spec.IsUnheard line.now) }
{
    if line.len() > MOST_BYTES {
        return Err(Unheard::Fault(LineFault::TooLong));
    }
    match Value::from_slice(alloc, line) {
        Ok(value) => Ok(value),
        Err(error) if error.is_memory() => Err(Unheard::NoMemory),
        Err(_) => Err(Unheard::Fault(LineFault::NotJson)),
    }
}
