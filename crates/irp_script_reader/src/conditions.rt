//! Conditions of steps from their texts. Source: this project's own format (docs/FORMATS.md).

ghost use Rattle.std.specs.Prelude.{◌≡◌};
ghost use Rattle.serde_json.specs.View.{view};
ghost use Rattle.irp_script_reader.specs.Conditions as spec;

use crate::condition::{AnswerWord, Condition, ExpectedAnswer};
use irp_forms::{FromValue, has_keys, nth, of_items, under};
use serde_json::Value;

/// An answer of a remove lock or of a cancel slot, by its word.
#[tactic(auto, unfolding(crate::specs::Conditions::word_named))]
fn word_named(name: &str) -> Option<ExpectedAnswer>
    ensures { result ≡ spec.word_named name.now }
{
    let word = match name {
        "yes" => AnswerWord::Yes,
        "busy" => AnswerWord::Busy,
        "seat_full" => AnswerWord::SeatFull,
        "not_held" => AnswerWord::NotHeld,
        "already_removing" => AnswerWord::AlreadyRemoving,
        "no_lock" => AnswerWord::NoLock,
        "standing" => AnswerWord::Standing,
        "taken" => AnswerWord::Taken,
        "lost" => AnswerWord::Lost,
        "nothing" => AnswerWord::Nothing,
        "used" => AnswerWord::Used,
        "not_standing" => AnswerWord::NotStanding,
        "no_slot" => AnswerWord::NoSlot,
        "no_token" => AnswerWord::NoToken,
        _ => return None,
    };
    Some(ExpectedAnswer::Word(word))
}

/// An answer by its name.
#[tactic(auto, unfolding(crate::specs::Conditions::answer_named))]
fn answer_named(name: &str) -> Option<ExpectedAnswer>
    ensures { result ≡ spec.answer_named name.now }
{
    match name {
        "refused" => Some(ExpectedAnswer::AnyRefusal),
        "success" => Some(ExpectedAnswer::Success),
        "routine" => Some(ExpectedAnswer::AnyRoutine),
        "done" => Some(ExpectedAnswer::Done),
        _ => word_named(name),
    }
}

/// An answer that has a value, which stands under its name.
#[tactic(auto, unfolding(crate::specs::Conditions::valued_answer_at))]
fn valued_answer_at(value: &Value) -> Option<ExpectedAnswer>
    ensures { result ≡ spec.valued_answer_at (view value.now) }
{
    if has_keys(value, &["refused"]) {
        Some(ExpectedAnswer::Refusal(under("refused", value)?))
    } else if has_keys(value, &["status"]) {
        Some(ExpectedAnswer::Status(under("status", value)?))
    } else if has_keys(value, &["previous"]) {
        Some(ExpectedAnswer::Previous(under("previous", value)?))
    } else if has_keys(value, &["cancelled"]) {
        Some(ExpectedAnswer::Cancelled(under("cancelled", value)?))
    } else {
        None
    }
}

/// An answer: its name, or its one value under its name. None for another form.
impl FromValue for ExpectedAnswer {
    ghost form = { spec.answer_at };

    #[tactic(auto, unfolding(crate::specs::Conditions::answer_at))]
    fn from_value(value: &Value) -> Option<Self> {
        match value {
            Value::String(name) => answer_named(name.as_str()),
            _ => valued_answer_at(value),
        }
    }
}

/// Whether an answer is wanted, by the word of a condition.
#[tactic(auto, unfolding(crate::specs::Conditions::wanted_named))]
fn wanted_named(name: &str) -> Option<bool>
    ensures { result ≡ spec.wanted_named name.now }
{
    match name {
        "is" => Some(true),
        "is_not" => Some(false),
        _ => None,
    }
}

/// A condition: whether the answer is wanted, the place of the step, and the answer. None for another form.
impl FromValue for Condition {
    ghost form = { spec.condition_at };

    #[tactic(auto, unfolding(crate::specs::Conditions::condition_at))]
    fn from_value(value: &Value) -> Option<Self> {
        of_items(value, 3)?;
        let wanted = wanted_named(value.get(0)?.as_str()?)?;
        let step = nth(1, value)?;
        let answer = nth(2, value)?;
        Some(Condition {
            step,
            wanted,
            answer,
        })
    }
}
