//! What is wrong with an entry.
#![tactic(auto, unfolding(json::specs::Print::escape_byte))]

ghost use Rattle.std.specs.Prelude.{◌≡◌};
ghost use Rattle.serde_json.specs.Written.{compact_text};
ghost use Rattle.irp_judge.specs.Judges.{seen};
ghost use Rattle.irp_story.specs.Lines.{wrong_at};
ghost use Rattle.irp_story.specs.Wrongs as spec;

use crate::causes::ComesFrom;
use crate::form::{put, put_one, put_text};
use irp_judge::{Cause, Difference, Judge, QuestionPart, ShownField, Wrong};
use irp_transcript_writer::Written;
use irp_types::Reply;
use std::alloc::AllocError;

/// The text that says what differs.
fn difference_text(difference: Difference) -> &'static str
    ensures { result.now ≡ compact_text (spec.difference_json difference) }
{
    match difference {
        Difference::Number => "\"number\"",
        Difference::Lock => "\"lock\"",
        Difference::Drained => "\"drained\"",
        Difference::Refusal => "\"refusal\"",
        Difference::Question { .. } => "\"question\"",
        Difference::Reply => "\"reply\"",
    }
}

/// The text that says which part of a question differs, or null.
fn part_text(difference: Difference) -> &'static str
    ensures { result.now ≡ compact_text (spec.part_json difference) }
{
    let Difference::Question { part, .. } = difference else {
        return "null";
    };
    match part {
        QuestionPart::TooMany => "\"too_many\"",
        QuestionPart::TooFew => "\"too_few\"",
        QuestionPart::Closure => "\"closure\"",
        QuestionPart::Shown(_) => "\"shown\"",
        QuestionPart::Answer => "\"answer\"",
    }
}

/// The name of a place of what is shown, in quotes.
fn field_text(field: ShownField) -> &'static str
    ensures { result.now ≡ compact_text (spec.field_json field) }
{
    match field {
        ShownField::Device => "\"device\"",
        ShownField::Slot => "\"slot\"",
        ShownField::Use => "\"use\"",
        ShownField::Major => "\"major\"",
        ShownField::Location => "\"location\"",
        ShownField::Word => "\"word\"",
        ShownField::Status => "\"status\"",
        ShownField::Information => "\"information\"",
        ShownField::PendingReturned => "\"pending_returned\"",
        ShownField::Cancel => "\"cancel\"",
        ShownField::Context => "\"context\"",
        ShownField::HasLower => "\"has_lower\"",
    }
}

/// The text that says which place of what is shown differs, or null.
fn shown_text(difference: Difference) -> &'static str
    ensures { result.now ≡ compact_text (spec.shown_json difference) }
{
    match difference {
        Difference::Question {
            part: QuestionPart::Shown(field),
            ..
        } => field_text(field),
        _ => "null",
    }
}

/// What differs.
#[derive(Drop)]
struct Differs {
    difference: Difference,
}

impl Written for Differs {
    ghost json = { λ it. spec.difference_json it.difference };

    fn write(&self, out: &mut Vec<u8>) -> Result<(), AllocError> {
        put_text(out, difference_text(self.difference))
    }
}

/// Which part of a question differs, or null.
#[derive(Drop)]
struct Part {
    difference: Difference,
}

impl Written for Part {
    ghost json = { λ it. spec.part_json it.difference };

    fn write(&self, out: &mut Vec<u8>) -> Result<(), AllocError> {
        put_text(out, part_text(self.difference))
    }
}

/// Which place of what is shown differs, or null.
#[derive(Drop)]
struct Shown {
    difference: Difference,
}

impl Written for Shown {
    ghost json = { λ it. spec.shown_json it.difference };

    fn write(&self, out: &mut Vec<u8>) -> Result<(), AllocError> {
        put_text(out, shown_text(self.difference))
    }
}

/// The place of the question that differs, or null.
#[derive(Drop)]
struct Question {
    difference: Difference,
}

impl Written for Question {
    ghost json = { λ it. spec.question_json it.difference };

    fn write(&self, out: &mut Vec<u8>) -> Result<(), AllocError> {
        match self.difference {
            Difference::Question { at, .. } => at.write(out),
            _ => put_text(out, "null"),
        }
    }
}

/// The refusal that a reply is, or null.
#[derive(Drop)]
struct Refused {
    reply: Reply,
}

impl Written for Refused {
    ghost json = { λ it. spec.refused_json it.reply };

    fn write(&self, out: &mut Vec<u8>) -> Result<(), AllocError> {
        match self.reply {
            Reply::Refused(refusal) => refusal.write(out),
            _ => put_text(out, "null"),
        }
    }
}

/// What a refusal comes from, or null.
#[derive(Drop)]
struct Source {
    cause: Option<Cause>,
}

impl Written for Source {
    ghost json = { λ it. spec.source_json it.cause };

    fn write(&self, out: &mut Vec<u8>) -> Result<(), AllocError> {
        match self.cause {
            Some(cause) => ComesFrom { cause }.write(out),
            None => put_text(out, "null"),
        }
    }
}

/// What is wrong with an entry.
#[derive(Drop)]
struct Told<'a> {
    wrong: &'a Wrong,
}

impl Written for Told<'_> {
    ghost json = { λ told. spec.wrong_json told.wrong.now };

    fn write(&self, out: &mut Vec<u8>) -> Result<(), AllocError> {
        let wrong = self.wrong;
        let difference = wrong.difference;
        let cause = wrong.cause;
        let reply = wrong.made.reply;
        put(out, "{\"cause\":", &Source { cause })?;
        put(out, ",\"differs\":", &Differs { difference })?;
        put(out, ",\"made\":", &wrong.made)?;
        put(out, ",\"part\":", &Part { difference })?;
        put(out, ",\"question\":", &Question { difference })?;
        put(out, ",\"refused\":", &Refused { reply })?;
        put_one(out, ",\"shown\":", &Shown { difference }, "}")
    }
}

/// What is wrong with the entry at this place, by a judge that was fed the entries up to it; null where it isn't the one
/// that isn't legal.
#[derive(Drop)]
pub(crate) struct WrongAt<'a, 'b> {
    pub(crate) place: u64,
    pub(crate) judge: &'a Judge<'b>,
}

impl Written for WrongAt<'_, '_> {
    ghost json = { λ it. wrong_at it.place (seen it.judge.now).wrong };

    fn write(&self, out: &mut Vec<u8>) -> Result<(), AllocError> {
        match self.judge.wrong() {
            Some(wrong) => {
                if wrong.at == self.place {
                    Told { wrong }.write(out)
                } else {
                    put_text(out, "null")
                }
            }
            None => put_text(out, "null"),
        }
    }
}
