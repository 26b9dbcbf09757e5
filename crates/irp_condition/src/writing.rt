//! Writing the text of a condition. Source: this project's own rules.

ghost use Rattle.std.specs.Prelude.{◌≡◌, ◌↔◌, ◌++◌, [], All, Contains, IfOk, IfSome, IsTrue, None, OnOk, codes, if◌then◌else◌, slice_get, string_bytes};
ghost use Rattle.irp_condition.specs.declared.condition.Term.TheVariants as term;
ghost use Rattle.irp_condition.specs.Formulas.{compares, formula_of, true_of};
ghost use Rattle.irp_condition.specs.Grammar.{Level};
ghost use Rattle.irp_condition.specs.Writing as spec;
ghost use Rattle.irp_condition.specs.Writing.{
  Puts,
  ReadsAs,
  TellsBack,
  WritesValue,
  bytes_of,
  fact_pieces,
  level_of,
};

use crate::condition::{Comparison, Condition, Fact, Term};
use crate::naming::{Joint, Name, Sort, sort_of};
use crate::scope::Scope;
use crate::tokens::{Kind, goes_on, kind_of};
use crate::value::{Answer, Named, Value};
use crate::words::{is, value_named};
use irp_types::Owner;
use std::alloc::{AllocError, Global};

/// The name of a fact.
fn name_of_fact(fact: Fact) -> Name
    ensures { result ≡ spec.name_of_fact fact }
{
    match fact {
        Fact::Reply(_) => Name::Reply,
        Fact::Made(_) => Name::Made,
        Fact::Owner(_) => Name::Owner,
        Fact::Status(_) => Name::Status,
        Fact::Information(_) => Name::Information,
        Fact::Current(_) => Name::Current,
        Fact::Cancel(_) => Name::Cancel,
        Fact::Live(_) => Name::Live,
        Fact::Deleted(_) => Name::Deleted,
        Fact::Held(_) => Name::Held,
        Fact::Removing(_) => Name::Removing,
    }
}

/// The word of a name.
fn word_of_name(name: Name) -> &'static str
    ensures { result.now ≡ spec.word_of_name name }
{
    match name {
        Name::Reply => "reply",
        Name::Made => "made",
        Name::Owner => "owner",
        Name::Status => "status",
        Name::Information => "information",
        Name::Current => "current",
        Name::Live => "live",
        Name::Cancel => "cancel",
        Name::Deleted => "deleted",
        Name::Held => "held",
        Name::Removing => "removing",
    }
}

/// The sign of a comparison.
fn sign_of(comparison: Comparison) -> &'static str
    ensures { result.now ≡ spec.sign_of comparison }
{
    match comparison {
        Comparison::Equal => "==",
        Comparison::Other => "!=",
        Comparison::Below => "<",
        Comparison::AtMost => "<=",
        Comparison::Above => ">",
        Comparison::AtLeast => ">=",
    }
}

/// The text of the label in a place; none where there is none.
fn label_text(labels: &[String], place: u32) -> &str
    ensures { result.now ≡ spec.label_text (slice_get labels.now place) }
{
    match labels.get(place as usize) {
        Some(label) => label.as_str(),
        None => "",
    }
}

/// Puts what a fact is of: the text of a label, or a number. The one error is want of memory.
fn put_subject(text: &mut String, scope: Scope<'_>, fact: Fact) -> Result<(), AllocError>
    ensures { OnOk result (string_bytes text.new
        ≡ string_bytes text.old ++ spec.subject_text scope.entry fact) }
{
    match fact {
        Fact::Reply(place)
        | Fact::Made(place)
        | Fact::Deleted(place)
        | Fact::Held(place)
        | Fact::Removing(place) => write!(text, "{place}"),
        Fact::Owner(label)
        | Fact::Status(label)
        | Fact::Information(label)
        | Fact::Current(label)
        | Fact::Cancel(label)
        | Fact::Live(label) => text.push_str(label_text(scope.labels, label)),
    }
}

/// Puts a fact, as `owner(a)`. The one error is want of memory.
fn put_fact(text: &mut String, scope: Scope<'_>, fact: Fact) -> Result<(), AllocError>
    ensures { OnOk result (string_bytes text.new
        ≡ string_bytes text.old ++ bytes_of (fact_pieces scope.entry fact [])) }
{
    text.push_str(word_of_name(name_of_fact(fact)))?;
    text.push_str("(")?;
    put_subject(text, scope, fact)?;
    text.push_str(")")
}

/// The word that an answer is written by.
pub fn word_of_answer(answer: Answer) -> &'static str
    ensures { result.now ≡ spec.word_of_answer answer }
{
    match answer {
        Answer::Done => "done",
        Answer::SeatFull => "seat_full",
        Answer::NotHeld => "not_held",
        Answer::AlreadyRemoving => "already_removing",
        Answer::NoLock => "no_lock",
        Answer::Yes => "yes",
        Answer::Busy => "busy",
        Answer::Standing => "standing",
        Answer::Taken => "taken",
        Answer::Lost => "lost",
        Answer::Nothing => "nothing",
        Answer::Used => "used",
        Answer::NotStanding => "not_standing",
        Answer::NoSlot => "no_slot",
        Answer::NoToken => "no_token",
    }
}

/// Puts the word that a value is written by without the names of statuses and refusals. The one error is want of
/// memory.
fn put_own_word(text: &mut String, value: Value) -> Result<(), AllocError>
    ensures { OnOk result (string_bytes text.new
        ≡ string_bytes text.old ++ spec.own_word value) }
{
    match value {
        Value::Missing => text.push_str("none"),
        Value::Truth(true) => text.push_str("true"),
        Value::Truth(false) => text.push_str("false"),
        Value::Number(number) => write!(text, "{number}"),
        Value::Owner(Owner::Originator) => text.push_str("originator"),
        Value::Owner(Owner::Ended) => text.push_str("ended"),
        Value::Owner(Owner::Device(device)) => write!(text, "D{}", device.0),
        Value::Refused(_) => Ok(()),
        Value::Answer(answer) => text.push_str(word_of_answer(answer)),
    }
}

/// Whether all bytes are of words.
fn all_of_word(bytes: &[u8]) -> bool
    ensures { result ≡ spec.all_of_word bytes.now }
{
    for byte in bytes {
        if !goes_on(Kind::Word, kind_of(*byte)) {
            return false;
        }
    }
    true
}

/// Whether these bytes are a word.
fn is_word_text(bytes: &[u8]) -> bool
    ensures { result ≡ spec.is_word_text bytes.now }
{
    !bytes.is_empty() && all_of_word(bytes)
}

/// Whether a word is the noun of a device, where a value of a sort may be one.
fn is_noun(sort: Sort, word: &[u8]) -> bool
    ensures { result ≡ spec.is_noun sort word.now }
{
    match sort {
        Sort::Reply | Sort::Owner => is(word, "device"),
        Sort::Number | Sort::Truth => false,
    }
}

/// Whether a word alone is read as this value, where one of a sort stands.
fn reads_as(scope: Scope<'_>, sort: Sort, word: &[u8], value: Value) -> bool
    ensures { IsTrue result ↔ ReadsAs scope.entry sort word.now value }
{
    if !is_word_text(word) || is_noun(sort, word) {
        return false;
    }
    match value_named(scope, sort, word) {
        Some(read) => read == value,
        None => false,
    }
}

/// The first name of a table that is read as this value, where one of a sort stands.
fn name_in(scope: Scope<'_>, sort: Sort, value: Value, table: &[Named]) -> Option<&'static str>
    ensures read { IfSome result (λ name. ReadsAs scope.entry sort name.now value) }
    ensures none { result ≡ None
        → All (λ (one : Named). ReadsAs scope.entry sort one.name.now value → ⊥) table.now }
{
    for one in table {
        if reads_as(scope, sort, one.name.as_bytes(), value) {
            return Some(one.name);
        }
    }
    None
}

/// The other word that a value may be written by: `ok`, or the name of a status or of a refusal.
fn other_word(scope: Scope<'_>, sort: Sort, value: Value) -> &'static str
    ensures ok { ReadsAs scope.entry sort (codes "ok") value
        → ReadsAs scope.entry sort result.now value }
    ensures status { (one : Named) → Contains scope.entry.statuses.now one
        → ReadsAs scope.entry sort one.name.now value
        → ReadsAs scope.entry sort result.now value }
    ensures refusal { (one : Named) → Contains scope.entry.refusals.now one
        → ReadsAs scope.entry sort one.name.now value
        → ReadsAs scope.entry sort result.now value }
{
    if reads_as(scope, sort, "ok".as_bytes(), value) {
        return "ok";
    }
    if let Some(name) = name_in(scope, sort, value, scope.statuses) {
        return name;
    }
    name_in(scope, sort, value, scope.refusals).unwrap_or("")
}

/// The word that writes a value, if any word does. The one error is want of memory.
fn word_for(alloc: Global, scope: Scope<'_>, sort: Sort, value: Value) -> Result<String, AllocError>
    ensures { IfOk result (λ word. WritesValue scope.entry sort value (string_bytes word)) }
{
    let mut word = String::new(alloc);
    put_own_word(&mut word, value)?;
    if reads_as(scope, sort, word.as_bytes(), value) {
        return Ok(word);
    }
    let mut other = String::new(alloc);
    other.push_str(other_word(scope, sort, value))?;
    Ok(other)
}

/// Puts a fact, a sign and a value. The one error is want of memory.
fn put_compared(
    alloc: Global,
    text: &mut String,
    scope: Scope<'_>,
    fact: Fact,
    comparison: Comparison,
    value: Value,
) -> Result<(), AllocError>
    ensures { OnOk result (spec.PutsCompared scope.entry fact comparison value
        (string_bytes text.old) (string_bytes text.new)) }
{
    let word = word_for(alloc, scope, sort_of(name_of_fact(fact)), value)?;
    put_fact(text, scope, fact)?;
    text.push_str(" ")?;
    text.push_str(sign_of(comparison))?;
    text.push_str(" ")?;
    text.push_str(word.as_str())
}

/// Puts a fact that is true; nothing for a value. The one error is want of memory.
fn put_truth(text: &mut String, scope: Scope<'_>, term: Term) -> Result<(), AllocError>
    ensures { (level : Level) → OnOk result (Puts scope.entry level (true_of term)
        (string_bytes text.old) (string_bytes text.new)) }
{
    match term {
        Term::Fact(fact) => put_fact(text, scope, fact),
        Term::Constant(_) => Ok(()),
    }
}

/// Puts a fact, a sign and a value; nothing where the right term is a fact. The one error is want of memory.
fn put_against(
    alloc: Global,
    text: &mut String,
    scope: Scope<'_>,
    fact: Fact,
    comparison: Comparison,
    right: Term,
) -> Result<(), AllocError>
    ensures { (level : Level) → OnOk result (Puts scope.entry level
        (compares (term.Fact fact) comparison right)
        (string_bytes text.old) (string_bytes text.new)) }
{
    match right {
        Term::Constant(value) => put_compared(alloc, text, scope, fact, comparison, value),
        Term::Fact(_) => Ok(()),
    }
}

/// Puts a comparison of a fact with a value; nothing for another. The one error is want of memory.
fn put_comparison(
    alloc: Global,
    text: &mut String,
    scope: Scope<'_>,
    left: Term,
    comparison: Comparison,
    right: Term,
) -> Result<(), AllocError>
    ensures { (level : Level) → OnOk result (Puts scope.entry level
        (compares left comparison right) (string_bytes text.old) (string_bytes text.new)) }
{
    match left {
        Term::Fact(fact) => put_against(alloc, text, scope, fact, comparison, right),
        Term::Constant(_) => Ok(()),
    }
}

/// The parentheses around what a joint joins: none where that may stand bare. No joint stands for a single condition.
fn parentheses(level: Option<Joint>, joint: Joint) -> (&'static str, &'static str)
    ensures open { result.0.now
        ≡ (if spec.stands (level_of level) joint then codes "" else codes "(") }
    ensures close { result.1.now
        ≡ (if spec.stands (level_of level) joint then codes "" else codes ")") }
{
    match (level, joint) {
        (None, _) | (Some(Joint::And), Joint::Or) => ("(", ")"),
        (Some(Joint::Or), _) | (Some(Joint::And), Joint::And) => ("", ""),
    }
}

/// Puts a condition, with parentheses where it may not stand bare beside this joint. The one error is want of memory.
fn put_condition(
    alloc: Global,
    text: &mut String,
    scope: Scope<'_>,
    level: Option<Joint>,
    condition: &Condition,
) -> Result<(), AllocError>
    ensures { OnOk result (Puts scope.entry (level_of level) (formula_of condition.now)
        (string_bytes text.old) (string_bytes text.new)) }
{
    match condition {
        Condition::Or(left, right) => {
            let around = parentheses(level, Joint::Or);
            text.push_str(around.0)?;
            put_condition(alloc, text, scope, Some(Joint::Or), left)?;
            text.push_str(" or ")?;
            put_condition(alloc, text, scope, Some(Joint::And), right)?;
            text.push_str(around.1)
        }
        Condition::And(left, right) => {
            let around = parentheses(level, Joint::And);
            text.push_str(around.0)?;
            put_condition(alloc, text, scope, Some(Joint::And), left)?;
            text.push_str(" and ")?;
            put_condition(alloc, text, scope, None, right)?;
            text.push_str(around.1)
        }
        Condition::Not(inner) => {
            text.push_str("not ")?;
            put_condition(alloc, text, scope, None, inner)
        }
        Condition::Is(term) => put_truth(text, scope, *term),
        Condition::Compare(left, comparison, right) => {
            put_comparison(alloc, text, scope, *left, *comparison, *right)
        }
    }
}

/// Writes the text of a condition, with no more parentheses than it needs: where any text says the condition in this
/// scope, this one does, so that `read_condition` gives the condition back.
///
/// # Errors
///
/// `AllocError` where memory runs out.
pub fn text_of(alloc: Global, condition: &Condition, scope: Scope<'_>) -> Result<String, AllocError>
    ensures { IfOk result (λ text.
        TellsBack scope.entry (formula_of condition.now) (string_bytes text)) }
{
    let mut text = String::new(alloc);
    put_condition(alloc, &mut text, scope, Some(Joint::Or), condition)?;
    Ok(text)
}
