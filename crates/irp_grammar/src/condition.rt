//! What a step hangs on, as its line says it and as JSON has it. Source: this project's own format (docs/WORDS.md,
//! docs/FORMATS.md).

ghost use Rattle.std.specs.Prelude.{◌≡◌, IfSome, map};
ghost use Rattle.irp_grammar.specs.Heads as spec;
ghost use Rattle.irp_grammar.specs.Lines.{ahead};
ghost use Rattle.irp_grammar.specs.Reading.{given_of};

use crate::cursor::Cursor;
use crate::said::Said;
use crate::wanted::Wanted;
use irp_forms::{ActKind, HasName, Part, named};
use irp_names::Sink;
use irp_script_reader::{AnswerWord, Condition, ExpectedAnswer};
use irp_types::{CancelId, Refusal, Status};

/// An answer that has no value, behind its word.
pub type AnswerRow = (&'static str, ExpectedAnswer);

/// The words of the answers that have no value.
static ANSWERS: [AnswerRow; 20] = [
    ("success", ExpectedAnswer::Success),
    ("refused", ExpectedAnswer::AnyRefusal),
    ("none", ExpectedAnswer::Previous(None)),
    ("true", ExpectedAnswer::Cancelled(true)),
    ("false", ExpectedAnswer::Cancelled(false)),
    ("done", ExpectedAnswer::Done),
    ("yes", ExpectedAnswer::Word(AnswerWord::Yes)),
    ("busy", ExpectedAnswer::Word(AnswerWord::Busy)),
    ("seat_full", ExpectedAnswer::Word(AnswerWord::SeatFull)),
    ("not_held", ExpectedAnswer::Word(AnswerWord::NotHeld)),
    (
        "already_removing",
        ExpectedAnswer::Word(AnswerWord::AlreadyRemoving),
    ),
    ("no_lock", ExpectedAnswer::Word(AnswerWord::NoLock)),
    ("standing", ExpectedAnswer::Word(AnswerWord::Standing)),
    ("taken", ExpectedAnswer::Word(AnswerWord::Taken)),
    ("lost", ExpectedAnswer::Word(AnswerWord::Lost)),
    ("nothing", ExpectedAnswer::Word(AnswerWord::Nothing)),
    ("used", ExpectedAnswer::Word(AnswerWord::Used)),
    (
        "not_standing",
        ExpectedAnswer::Word(AnswerWord::NotStanding),
    ),
    ("no_slot", ExpectedAnswer::Word(AnswerWord::NoSlot)),
    ("no_token", ExpectedAnswer::Word(AnswerWord::NoToken)),
];

/// Every row. No other function names the table, since a check reads it whole at each that does.
#[tactic(auto, unfolding(crate::specs::Heads::answer_rows))]
pub fn answers() -> &'static [AnswerRow]
    ensures { map (λ row. (row.0.now, row.1)) result.now ≡ spec.answer_rows }
{
    &ANSWERS
}

/// The answer of the first of these rows that has this word.
fn answer_among(rows: &[AnswerRow], word: &str) -> Option<ExpectedAnswer>
    ensures { result ≡ spec.answer_under word.now (map (λ row. (row.0.now, row.1)) rows.now) }
{
    for row in rows {
        if row.0 == word {
            return Some(row.1);
        }
    }
    None
}

/// The answer that a word names, or the refusal.
fn answer_named(word: &str) -> Option<ExpectedAnswer>
    ensures { result ≡ spec.answer_named word.now }
{
    if let Some(answer) = answer_among(answers(), word) {
        return Some(answer);
    }
    match named::<Refusal>(word) {
        Some(refusal) => Some(ExpectedAnswer::Refusal(refusal)),
        None => None,
    }
}

/// The word of an answer; an empty text for a status, and for a cancel routine with its number.
pub fn answer_word(answer: ExpectedAnswer) -> &'static str {
    match answer {
        ExpectedAnswer::AnyRoutine => return "routine",
        ExpectedAnswer::Refusal(refusal) => return refusal.name(),
        _ => {}
    }
    for row in answers() {
        if row.1 == answer {
            return row.0;
        }
    }
    ""
}

/// Whether a word begins a step, or a stack.
fn begins_act(text: &str) -> bool
    ensures { result ≡ spec.begins_act text.now }
{
    ActKind::named(text).is_some() || text == "stack"
}

/// Whether the next words are `is`, and not `is not`.
fn take_is(words: &mut Cursor<'_, '_>) -> Option<bool>
    ensures { IfSome result (spec.TakesIs (ahead words.old) (ahead words.new)) }
{
    if !words.takes("is") {
        return words.fails(Wanted::Is);
    }
    Some(!words.takes("not"))
}

impl<'a> Said<'a> {
    /// The cancel routine that the next word is, behind `routine`, or whichever: what may begin a step begins that.
    fn take_routine_or_any(&self, words: &mut Cursor<'_, '_>) -> ExpectedAnswer
        ensures { spec.TakesPrevious (given_of self.now).names (ahead words.old) (ahead words.new)
            result }
    {
        let text = words.text();
        if begins_act(text) {
            return ExpectedAnswer::AnyRoutine;
        }
        match self.names.short(Part::Cancel, text) {
            Some(number) => {
                words.pass();
                ExpectedAnswer::Previous(Some(CancelId(number)))
            }
            None => ExpectedAnswer::AnyRoutine,
        }
    }

    /// The answer without a value, the refusal or the status that the next word is.
    fn take_named(&self, words: &mut Cursor<'_, '_>) -> Option<ExpectedAnswer>
        ensures { IfSome result
            (spec.TakesNamed (given_of self.now).names (ahead words.old) (ahead words.new)) }
    {
        if let Some(answer) = answer_named(words.text()) {
            words.pass();
            return Some(answer);
        }
        match self.short(Part::Status, words) {
            Some(status) => Some(ExpectedAnswer::Status(Status(status))),
            None => words.fails(Wanted::Answer),
        }
    }

    /// The answer that the next words are.
    fn take_expected(&self, words: &mut Cursor<'_, '_>) -> Option<ExpectedAnswer>
        ensures { IfSome result
            (spec.TakesAnswer (given_of self.now).names (ahead words.old) (ahead words.new)) }
    {
        if words.takes("routine") {
            Some(self.take_routine_or_any(words))
        } else {
            self.take_named(words)
        }
    }

    /// What a step hangs on, behind `if`: an earlier one, and what its answer is expected to be or not to be.
    fn take_test(&self, words: &mut Cursor<'_, '_>) -> Option<Condition>
        ensures { IfSome result
            (spec.TakesTest (given_of self.now).names (ahead words.old) (ahead words.new)) }
    {
        let step = self.short(Part::Step, words)?;
        let wanted = take_is(words)?;
        let answer = self.take_expected(words)?;
        Some(Condition {
            step,
            wanted,
            answer,
        })
    }

    /// What a step hangs on, where the next words say that it hangs on anything.
    pub fn take_condition(&self, words: &mut Cursor<'_, '_>) -> Option<Option<Condition>>
        ensures { IfSome result
            (spec.TakesCondition (given_of self.now).names (ahead words.old) (ahead words.new)) }
    {
        if words.takes("if") {
            Some(Some(self.take_test(words)?))
        } else {
            Some(None)
        }
    }
}

/// Writes an answer as JSON has it.
fn put_answer(text: &mut Sink, answer: ExpectedAnswer) {
    match answer {
        ExpectedAnswer::AnyRefusal => text.quoted("refused"),
        ExpectedAnswer::Refusal(refusal) => {
            text.put("{\"refused\":");
            text.quoted(refusal.name());
            text.put("}");
        }
        ExpectedAnswer::Status(status) => {
            text.put("{\"status\":");
            text.number(u64::from(status.0));
            text.put("}");
        }
        ExpectedAnswer::Previous(Some(id)) => {
            text.put("{\"previous\":");
            text.number(u64::from(id.0));
            text.put("}");
        }
        ExpectedAnswer::Previous(None) => text.put("{\"previous\":null}"),
        ExpectedAnswer::Cancelled(true) => text.put("{\"cancelled\":true}"),
        ExpectedAnswer::Cancelled(false) => text.put("{\"cancelled\":false}"),
        other => text.quoted(answer_word(other)),
    }
}

/// Writes the key `if` of a step, behind a comma, where it hangs on anything.
pub fn put_condition(text: &mut Sink, condition: Option<Condition>) {
    if let Some(condition) = condition {
        let word = if condition.wanted { "is" } else { "is_not" };
        text.put(",\"if\":[");
        text.quoted(word);
        text.put(",");
        text.number(u64::from(condition.step));
        text.put(",");
        put_answer(text, condition.answer);
        text.put("]");
    }
}
