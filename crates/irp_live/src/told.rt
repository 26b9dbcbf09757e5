//! The answers. Source: this project's own format (docs/FORMATS.md).
#![tactic(auto, unfolding(json::specs::Print::escape_byte))]

ghost use Rattle.std.specs.Prelude.{◌≡◌, ◌++◌, IfOk, OnOk};
ghost use Rattle.std.specs.Option.{option_copied};
ghost use Rattle.serde_json.specs.Data.{string};
ghost use Rattle.serde_json.specs.Written.{compact_text};
ghost use Rattle.irp_transcript_writer.specs.Json.{line_text};
ghost use Rattle.irp_live.specs.Told as spec;

use crate::asking::LineFault;
use irp_judge::{Difference, QuestionPart, ShownField, Wrong};
use irp_transcript_writer::{Written, line_of};
use irp_types::{Refusal, Reply};
use std::alloc::{AllocError, Global};

/// Writes a text as it stands. The one error is want of memory.
fn put_text(out: &mut Vec<u8>, text: &str) -> Result<(), AllocError>
    ensures { OnOk result (out.new.items ≡ out.old.items ++ text.now) }
{
    out.extend_from_slice(text.as_bytes())
}

/// Writes a text, and then a value. The one error is want of memory.
fn put<T: Written>(out: &mut Vec<u8>, before: &str, value: &T) -> Result<(), AllocError>
    ensures { OnOk result (out.new.items ≡ out.old.items
        ++ (before.now ++ compact_text (T.json value.now))) }
{
    put_text(out, before)?;
    value.write(out)
}

/// What a Look would be replied with.
#[derive(Drop)]
pub struct Looked {
    pub reply: Reply,
}

impl Written for Looked {
    ghost json = { λ looked. spec.looked_json looked.reply };

    fn write(&self, out: &mut Vec<u8>) -> Result<(), AllocError> {
        match self.reply {
            Reply::Refused(refusal) => refusal.write(out),
            reply => reply.write(out),
        }
    }
}

/// The name of a fault, in quotes.
fn fault_text(fault: LineFault) -> &'static str
    ensures { result.now ≡ compact_text (string (spec.fault_name fault)) }
{
    match fault {
        LineFault::TooLong => "\"too_long\"",
        LineFault::NotJson => "\"not_json\"",
        LineFault::NoForm => "\"no_form\"",
    }
}

/// A line that isn't taken, by its number from 1.
#[derive(Drop)]
pub struct Faulty {
    pub fault: LineFault,
    pub line: u64,
}

impl Written for Faulty {
    ghost json = { λ faulty. spec.fault_json faulty.fault faulty.line };

    fn write(&self, out: &mut Vec<u8>) -> Result<(), AllocError> {
        put_text(out, "{\"fault\":")?;
        put_text(out, fault_text(self.fault))?;
        put(out, ",\"line\":", &self.line)?;
        put_text(out, "}")
    }
}

/// The text that says what differs.
fn difference_text(difference: Difference) -> &'static str
    ensures { result.now ≡ compact_text (spec.difference_json difference) }
{
    match difference {
        Difference::Number => "\"number\"",
        Difference::Lock => "\"lock\"",
        Difference::Drained => "\"drained\"",
        Difference::Refusal => "\"refusal\"",
        Difference::Question { .. } => "\"question\"",
        Difference::Reply => "\"reply\"",
    }
}

/// The text that says which part of a question differs, or null.
fn part_text(difference: Difference) -> &'static str
    ensures { result.now ≡ compact_text (spec.part_json difference) }
{
    let Difference::Question { part, .. } = difference else {
        return "null";
    };
    match part {
        QuestionPart::TooMany => "\"too_many\"",
        QuestionPart::TooFew => "\"too_few\"",
        QuestionPart::Closure => "\"closure\"",
        QuestionPart::Shown(_) => "\"shown\"",
        QuestionPart::Answer => "\"answer\"",
    }
}

/// The name of a place of what is shown, in quotes.
fn field_text(field: ShownField) -> &'static str
    ensures { result.now ≡ compact_text (string (spec.field_name field)) }
{
    match field {
        ShownField::Device => "\"device\"",
        ShownField::Slot => "\"slot\"",
        ShownField::Use => "\"use\"",
        ShownField::Major => "\"major\"",
        ShownField::Location => "\"location\"",
        ShownField::Word => "\"word\"",
        ShownField::Status => "\"status\"",
        ShownField::Information => "\"information\"",
        ShownField::PendingReturned => "\"pending_returned\"",
        ShownField::Cancel => "\"cancel\"",
        ShownField::Context => "\"context\"",
        ShownField::HasLower => "\"has_lower\"",
    }
}

/// The text that says which place of what is shown differs, or null.
fn shown_text(difference: Difference) -> &'static str
    ensures { result.now ≡ compact_text (spec.shown_json difference) }
{
    match difference {
        Difference::Question {
            part: QuestionPart::Shown(field),
            ..
        } => field_text(field),
        _ => "null",
    }
}

/// The place of the question that differs.
fn question_of(difference: Difference) -> Option<usize>
    ensures { result ≡ spec.question_of difference }
{
    match difference {
        Difference::Question { at, .. } => Some(at),
        _ => None,
    }
}

/// The refusal that a reply is.
fn refusal_in(reply: Reply) -> Option<Refusal>
    ensures { result ≡ spec.refusal_in reply }
{
    match reply {
        Reply::Refused(refusal) => Some(refusal),
        _ => None,
    }
}

/// What differs.
#[derive(Drop)]
struct Differs {
    difference: Difference,
}

impl Written for Differs {
    ghost json = { λ it. spec.difference_json it.difference };

    fn write(&self, out: &mut Vec<u8>) -> Result<(), AllocError> {
        put_text(out, difference_text(self.difference))
    }
}

/// Which part of a question differs, or null.
#[derive(Drop)]
struct Part {
    difference: Difference,
}

impl Written for Part {
    ghost json = { λ it. spec.part_json it.difference };

    fn write(&self, out: &mut Vec<u8>) -> Result<(), AllocError> {
        put_text(out, part_text(self.difference))
    }
}

/// Which place of what is shown differs, or null.
#[derive(Drop)]
struct ShownPlace {
    difference: Difference,
}

impl Written for ShownPlace {
    ghost json = { λ it. spec.shown_json it.difference };

    fn write(&self, out: &mut Vec<u8>) -> Result<(), AllocError> {
        put_text(out, shown_text(self.difference))
    }
}

/// What is wrong with an entry.
#[derive(Drop)]
pub struct WrongEntry<'a> {
    pub wrong: &'a Wrong,
}

impl<'a> Written for WrongEntry<'a> {
    ghost json = { λ entry. spec.wrong_json entry.wrong.now };

    fn write(&self, out: &mut Vec<u8>) -> Result<(), AllocError> {
        let wrong = self.wrong;
        let difference = wrong.difference;
        put(out, "{\"differs\":", &Differs { difference })?;
        put(out, ",\"made\":", &wrong.made)?;
        put(out, ",\"part\":", &Part { difference })?;
        put(out, ",\"question\":", &question_of(difference))?;
        put(out, ",\"refused\":", &refusal_in(wrong.made.reply))?;
        put(out, ",\"shown\":", &ShownPlace { difference })?;
        put(out, ",\"wrong_at\":", &wrong.at)?;
        put_text(out, "}")
    }
}

/// The number of an entry that wasn't legal.
#[derive(Drop)]
pub struct Since {
    pub at: u64,
}

impl Written for Since {
    ghost json = { λ since. spec.since_json since.at };

    fn write(&self, out: &mut Vec<u8>) -> Result<(), AllocError> {
        put(out, "{\"wrong_at\":", &self.at)?;
        put_text(out, "}")
    }
}

/// The line that answers the next line of a transcript: by the number of an entry before it that wasn't legal, or by
/// what is wrong with it, or by null. The one error is want of memory.
pub fn next_line(
    alloc: Global,
    before: Option<u64>,
    wrong: Option<&Wrong>,
) -> Result<Vec<u8>, AllocError>
    ensures { IfOk result (λ line. line.items
        ≡ line_text (spec.next_json before (option_copied wrong.entry))) }
{
    match (before, wrong) {
        (Some(at), _) => line_of(alloc, &Since { at }),
        (None, Some(wrong)) => line_of(alloc, &WrongEntry { wrong }),
        (None, None) => line_of(alloc, &None::<Refusal>),
    }
}
