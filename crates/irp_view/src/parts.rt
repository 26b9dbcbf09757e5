//! The part of an entry that differs, and what stands there.

ghost use Rattle.std.specs.Prelude.{◌≡◌, ◌++◌, OnOk, slice_get};
ghost use Rattle.irp_view.specs.Parts.{answer_part, lock_text, part_text, refusal_told, value_text};
ghost use Rattle.irp_view.specs.Questions.{answer_lead, nobody_text, question_value, told_of, who_text};

use crate::answers::put_answer;
use crate::fields::{bool_text, field_name, field_place, put_field, put_number, put_numbered};
use irp_judge::{Difference, QuestionPart};
use irp_names::{DeviceWords, ReplyWords, RoutineWords};
use irp_types::{Asked, Call, Entry, LockNo, Reply};
use std::alloc::AllocError;

/// Puts the part in which an entry differs. The one error is want of memory.
pub fn put_part(words: &mut String, entry: &Entry, difference: Difference) -> Result<(), AllocError>
    ensures { OnOk result
        (words.new.bytes.items ≡ words.old.bytes.items ++ part_text difference entry.now) }
{
    match difference {
        Difference::Number => words.push_str("n"),
        Difference::Lock => words.push_str("lock"),
        Difference::Drained => words.push_str("drained"),
        Difference::Refusal | Difference::Reply => words.push_str("reply"),
        Difference::Question { at, part } => match part {
            QuestionPart::TooMany | QuestionPart::TooFew | QuestionPart::Closure => {
                put_numbered(words, "asked ", at as u64)
            }
            QuestionPart::Shown(field) => write!(
                words,
                "asked {}, shown: {} (place {})",
                at,
                field_name(field),
                field_place(field)
            ),
            QuestionPart::Answer => put_answer_part(words, at, question_at(entry, at)),
        },
    }
}

/// The question at this place of an entry, if there is one.
pub fn question_at(entry: &Entry, at: usize) -> Option<Asked>
    ensures { result ≡ slice_get entry.now.asked at }
{
    entry.asked.as_slice().get(at).copied()
}

/// Puts a question's answer, as a part of an entry. The one error is want of memory.
fn put_answer_part(words: &mut String, at: usize, question: Option<Asked>) -> Result<(), AllocError>
    ensures { OnOk result
        (words.new.bytes.items ≡ words.old.bytes.items ++ answer_part at question) }
{
    match question {
        Some(question) => {
            write!(words, "asked {}, answer of ", at)?;
            put_who(words, question)
        }
        None => write!(words, "asked {}, answer", at),
    }
}

/// Puts a closure and the device that it is asked for. The one error is want of memory.
fn put_who(words: &mut String, question: Asked) -> Result<(), AllocError>
    ensures { OnOk result (words.new.bytes.items ≡ words.old.bytes.items ++ who_text question) }
{
    match question {
        Asked::Dispatch { id, shown, .. } => {
            write!(words, "dispatch {} for {}", id.0, DeviceWords(shown.device))
        }
        Asked::Completion { id, shown, .. } => {
            write!(
                words,
                "{} for {}",
                RoutineWords(id),
                DeviceWords(shown.device)
            )
        }
        Asked::Cancel { id, shown, .. } => {
            write!(
                words,
                "cancel routine {} for {}",
                id.0,
                DeviceWords(shown.device)
            )
        }
    }
}

/// Puts a remove lock, or that there is none. The one error is want of memory.
fn put_lock(words: &mut String, lock: Option<LockNo>) -> Result<(), AllocError>
    ensures { OnOk result (words.new.bytes.items ≡ words.old.bytes.items ++ lock_text lock) }
{
    match lock {
        Some(lock) => write!(words, "remove lock {}", lock.0),
        None => words.push_str("none"),
    }
}

/// Puts whether a call is refused, and how: of the manager's own reply no more than that. The one error is want of
/// memory.
fn put_refusal(
    words: &mut String,
    is_made: bool,
    call: Call,
    reply: Reply,
) -> Result<(), AllocError>
    ensures { OnOk result
        (words.new.bytes.items ≡ words.old.bytes.items ++ refusal_told is_made call reply) }
{
    match reply {
        Reply::Refused(_) => write!(words, "{}", ReplyWords { call, reply }),
        _ if is_made => words.push_str("doesn't refuse it"),
        _ => write!(words, "{}", ReplyWords { call, reply }),
    }
}

/// Puts what stands in the part of an entry that differs, which the manager made or not. Of an answer, those of the
/// manager are told as such: any that is allowed could stand there. Of a call that it doesn't refuse its reply isn't
/// told: it may come of answers that nobody gave. The one error is want of memory.
pub fn put_value(
    words: &mut String,
    entry: &Entry,
    difference: Difference,
    is_made: bool,
) -> Result<(), AllocError>
    ensures { OnOk result (words.new.bytes.items
        ≡ words.old.bytes.items ++ value_text difference is_made entry.now) }
{
    let Entry {
        number,
        call,
        reply,
        lock,
        drained,
        ..
    } = *entry;
    match difference {
        Difference::Number => put_number(words, number),
        Difference::Lock => put_lock(words, lock),
        Difference::Drained => words.push_str(bool_text(drained)),
        Difference::Refusal => put_refusal(words, is_made, call, reply),
        Difference::Reply => write!(words, "{}", ReplyWords { call, reply }),
        Difference::Question { at, part } => put_question(words, entry, at, part, is_made),
    }
}

/// Puts what stands in the part of a question that differs. The one error is want of memory.
fn put_question(
    words: &mut String,
    entry: &Entry,
    at: usize,
    part: QuestionPart,
    is_made: bool,
) -> Result<(), AllocError>
    ensures { OnOk result (words.new.bytes.items
        ≡ words.old.bytes.items ++ question_value at part is_made (slice_get entry.now.asked at)) }
{
    match question_at(entry, at) {
        None => words.push_str(nobody_text(at)),
        Some(question) => put_told(words, question, part, is_made),
    }
}

/// Puts what a question says in the part that differs. The one error is want of memory.
fn put_told(
    words: &mut String,
    question: Asked,
    part: QuestionPart,
    is_made: bool,
) -> Result<(), AllocError>
    ensures { OnOk result
        (words.new.bytes.items ≡ words.old.bytes.items ++ told_of part is_made question) }
{
    match part {
        QuestionPart::Shown(field) => put_field(words, field, question.shown()),
        QuestionPart::Answer => {
            words.push_str(answer_lead(is_made))?;
            put_answer(words, question)
        }
        _ => {
            words.push_str("asks ")?;
            put_who(words, question)
        }
    }
}

/// That no closure is asked at this place.
fn nobody_text(at: usize) -> &'static str
    ensures { result.now ≡ nobody_text at }
{
    if at == 0 {
        "asks nobody"
    } else {
        "asks nobody any more"
    }
}

/// What stands before an answer: that others may be allowed, where the manager made it.
fn answer_lead(is_made: bool) -> &'static str
    ensures { result.now ≡ answer_lead is_made }
{
    if is_made {
        "an answer that is allowed, such as: "
    } else {
        ""
    }
}
