//! Facts, values and comparisons at the front of a condition's tokens. Source: this project's own rules.

ghost use Rattle.std.specs.Prelude.{◌≡◌, ◌<◌, IfOk, IfSome, length, option_map, position, string_bytes};
ghost use Rattle.std.proofs.Common.{bytes_eq};
ghost use Rattle.irp_condition.specs.Parsing.{seen};
ghost use Rattle.irp_condition.specs.Reading as spec;
ghost use Rattle.irp_condition.specs.Faults.{Gives, fault_at as spec_fault_at};
ghost use Rattle.irp_condition.specs.Reading.{with_rest};

use crate::condition::{Comparison, Condition, Fact, Term};
use crate::fault::{ConditionFault, Expected, Unread};
use crate::naming::{Name, Sort, comparison_of, name_of, needs_replies, sort_of};
use crate::scope::Scope;
use crate::tokens::{Kind, Token};
use crate::value::Value;
use crate::words::{device_named, is, number_of, value_named};
use irp_types::{DeviceId, Owner};

/// A script has at most so many labels.
const MOST_LABELS: usize = 4096;

/// There are at most so many devices.
const MOST_DEVICES: u32 = 64;

/// What a condition may speak of, and the column behind its text's end.
#[derive(Clone, Copy)]
pub struct Reader<'a> {
    pub scope: Scope<'a>,
    pub end: usize,
}

/// The fault that something else was expected where these tokens begin.
pub fn fault_at(reader: Reader<'_>, tokens: &[Token], expected: Expected) -> Unread
    ensures { result ≡ Unread.Fault (spec_fault_at reader.entry expected tokens.now) }
{
    let column = match tokens.first() {
        Some(token) => token.column,
        None => reader.end,
    };
    Unread::Fault(ConditionFault { column, expected })
}

/// A word, and what stands behind it.
pub fn word_at(tokens: &[Token]) -> Option<(&[u8], &[Token])>
    ensures reads { option_map (λ read. (read.0.now, read.1.now)) result ≡ spec.word_at tokens.now }
    ensures shorter { IfSome result (λ read. length read.1.now < length tokens.now) }
{
    let (token, rest) = tokens.split_first()?;
    match token.kind {
        Kind::Word => Some((token.text.as_slice(), rest)),
        _ => None,
    }
}

/// What stands behind this word.
pub fn behind_word<'a>(word: &str, tokens: &'a [Token]) -> Option<&'a [Token]>
    ensures reads { option_map (λ rest. rest.now) result ≡ spec.behind_word word.now tokens.now }
    ensures shorter { IfSome result (λ rest. length rest.now < length tokens.now) }
{
    let (found, rest) = word_at(tokens)?;
    if is(found, word) { Some(rest) } else { None }
}

/// What stands behind an opening parenthesis.
pub fn behind_open(tokens: &[Token]) -> Option<&[Token]>
    ensures reads { option_map (λ rest. rest.now) result ≡ spec.behind_open tokens.now }
    ensures shorter { IfSome result (λ rest. length rest.now < length tokens.now) }
{
    let (token, rest) = tokens.split_first()?;
    match token.kind {
        Kind::Open => Some(rest),
        _ => None,
    }
}

/// What stands behind a closing parenthesis.
pub fn behind_close(tokens: &[Token]) -> Option<&[Token]>
    ensures reads { option_map (λ rest. rest.now) result ≡ spec.behind_close tokens.now }
    ensures shorter { IfSome result (λ rest. length rest.now < length tokens.now) }
{
    let (token, rest) = tokens.split_first()?;
    match token.kind {
        Kind::Close => Some(rest),
        _ => None,
    }
}

/// A number below a bound.
fn number_at<'a>(
    reader: Reader<'_>,
    tokens: &'a [Token],
    bound: u32,
    expected: Expected,
) -> Result<(u32, &'a [Token]), Unread>
    ensures reads { Gives with_rest result (spec.number_at reader.entry bound expected tokens.now) }
    ensures shorter { IfOk result (λ read. length read.1.now < length tokens.now) }
{
    let Some((word, rest)) = word_at(tokens) else {
        return Err(fault_at(reader, tokens, expected));
    };
    match number_of(word) {
        Some(number) if number < bound as u64 => Ok((number as u32, rest)),
        _ => Err(fault_at(reader, tokens, expected)),
    }
}

/// A number below a bound, with a noun before it or without.
fn number_below<'a>(
    reader: Reader<'_>,
    tokens: &'a [Token],
    noun: &str,
    bound: u32,
    expected: Expected,
) -> Result<(u32, &'a [Token]), Unread>
    ensures reads { Gives with_rest result (spec.number_below reader.entry noun.now bound expected tokens.now) }
    ensures shorter { IfOk result (λ read. length read.1.now < length tokens.now) }
{
    let tokens = behind_word(noun, tokens).unwrap_or(tokens);
    number_at(reader, tokens, bound, expected)
}

/// A device, as `D2`, `device 2` or `2`.
fn device_at<'a>(reader: Reader<'_>, tokens: &'a [Token]) -> Result<(u32, &'a [Token]), Unread>
    ensures reads { Gives with_rest result (spec.device_at reader.entry tokens.now) }
    ensures shorter { IfOk result (λ read. length read.1.now < length tokens.now) }
{
    if let Some((word, rest)) = word_at(tokens)
        && let Some(device) = device_named(word)
    {
        return Ok((device, rest));
    }
    number_below(reader, tokens, "device", MOST_DEVICES, Expected::Device)
}

/// Whether a label is this word.
fn is_label(label: &String, word: &[u8]) -> bool
    ensures { result ≡ bytes_eq (string_bytes label.now) word.now }
{
    label.as_bytes() == word
}

/// The place of the first label that is this word.
fn first_place(labels: &[String], word: &[u8]) -> Option<usize>
    ensures { result ≡ position (λ label. bytes_eq (string_bytes label) word.now) labels.now }
{
    labels.iter().position(|label| is_label(label, word))
}

/// The place of a label.
fn place_of(labels: &[String], word: &[u8]) -> Option<u32>
    ensures { result ≡ spec.place_of labels.now word.now }
{
    match first_place(labels, word) {
        Some(place) if place < MOST_LABELS => Some(place as u32),
        _ => None,
    }
}

/// A label of the script: its place.
fn label_at<'a>(reader: Reader<'_>, tokens: &'a [Token]) -> Result<(u32, &'a [Token]), Unread>
    ensures reads { Gives with_rest result (spec.label_at reader.entry tokens.now) }
    ensures shorter { IfOk result (λ read. length read.1.now < length tokens.now) }
{
    if let Some((word, rest)) = word_at(tokens)
        && let Some(place) = place_of(reader.scope.labels, word)
    {
        return Ok((place, rest));
    }
    Err(fault_at(reader, tokens, Expected::Label))
}

/// What a fact of a name is of: the place of a step, a label, a device or a lock.
fn place_at<'a>(
    reader: Reader<'_>,
    name: Name,
    tokens: &'a [Token],
) -> Result<(u32, &'a [Token]), Unread>
    ensures reads { Gives with_rest result (spec.subject_at reader.entry name tokens.now) }
    ensures shorter { IfOk result (λ read. length read.1.now < length tokens.now) }
{
    let Scope { steps, locks, .. } = reader.scope;
    match name {
        Name::Reply | Name::Made => { number_below(reader, tokens, "step", steps, Expected::Step) }
        Name::Held | Name::Removing => {
            number_below(reader, tokens, "lock", locks, Expected::Lock)
        }
        Name::Deleted => device_at(reader, tokens),
        _ => label_at(reader, tokens),
    }
}

/// The fact of a name.
fn fact_of(name: Name, place: u32) -> Fact
    ensures { result ≡ spec.fact_of name place }
{
    match name {
        Name::Reply => Fact::Reply(place),
        Name::Made => Fact::Made(place),
        Name::Owner => Fact::Owner(place),
        Name::Status => Fact::Status(place),
        Name::Information => Fact::Information(place),
        Name::Current => Fact::Current(place),
        Name::Live => Fact::Live(place),
        Name::Cancel => Fact::Cancel(place),
        Name::Deleted => Fact::Deleted(place),
        Name::Held => Fact::Held(place),
        Name::Removing => Fact::Removing(place),
    }
}

/// The name that a fact begins with.
fn name_at<'a>(reader: Reader<'_>, tokens: &'a [Token]) -> Result<(Name, &'a [Token]), Unread>
    ensures reads { Gives with_rest result (spec.name_at reader.entry tokens.now) }
    ensures shorter { IfOk result (λ read. length read.1.now < length tokens.now) }
{
    let Some((word, rest)) = word_at(tokens) else {
        return Err(fault_at(reader, tokens, Expected::Condition));
    };
    let Some(name) = name_of(word) else {
        return Err(fault_at(reader, tokens, Expected::Condition));
    };
    if needs_replies(name) && !reader.scope.knows_replies {
        return Err(fault_at(reader, tokens, Expected::End));
    }
    Ok((name, rest))
}

/// A fact with its name, as `owner(a)`.
fn fact_at<'a>(
    reader: Reader<'_>,
    tokens: &'a [Token],
) -> Result<((Name, Fact), &'a [Token]), Unread>
    ensures reads { Gives with_rest result (spec.fact_at reader.entry tokens.now) }
    ensures shorter { IfOk result (λ read. length read.1.now < length tokens.now) }
{
    let (name, tokens) = name_at(reader, tokens)?;
    let Some(inside) = behind_open(tokens) else {
        return Err(fault_at(reader, tokens, Expected::Open));
    };
    let (place, tokens) = place_at(reader, name, inside)?;
    match behind_close(tokens) {
        Some(rest) => Ok(((name, fact_of(name, place)), rest)),
        None => Err(fault_at(reader, tokens, Expected::Close)),
    }
}

/// What was expected where no value of a sort stands.
fn expected_of(sort: Sort) -> Expected
    ensures { result ≡ spec.expected_of sort }
{
    match sort {
        Sort::Reply => Expected::Reply,
        Sort::Owner => Expected::Owner,
        Sort::Number => Expected::Number,
        Sort::Truth => Expected::Truth,
    }
}

/// What stands behind the noun of a device, where a value of a sort may be one.
fn behind_noun(sort: Sort, tokens: &[Token]) -> Option<&[Token]>
    ensures reads { option_map (λ rest. rest.now) result ≡ spec.behind_noun sort tokens.now }
    ensures shorter { IfSome result (λ rest. length rest.now < length tokens.now) }
{
    match sort {
        Sort::Reply | Sort::Owner => behind_word("device", tokens),
        Sort::Number | Sort::Truth => None,
    }
}

/// A value of a sort: a word, or a device behind its noun.
fn value_at<'a>(
    reader: Reader<'_>,
    sort: Sort,
    tokens: &'a [Token],
) -> Result<(Value, &'a [Token]), Unread>
    ensures reads { Gives with_rest result (spec.value_at reader.entry sort tokens.now) }
    ensures shorter { IfOk result (λ read. length read.1.now < length tokens.now) }
{
    if let Some(number) = behind_noun(sort, tokens) {
        let (device, rest) = number_at(reader, number, MOST_DEVICES, Expected::Device)?;
        return Ok((Value::Owner(Owner::Device(DeviceId(device))), rest));
    }
    if let Some((word, rest)) = word_at(tokens)
        && let Some(value) = value_named(reader.scope, sort, word)
    {
        return Ok((value, rest));
    }
    Err(fault_at(reader, tokens, expected_of(sort)))
}

/// The sign of a comparison.
fn sign_at(tokens: &[Token]) -> Option<(Comparison, &[Token])>
    ensures reads { option_map with_rest result ≡ spec.sign_at tokens.now }
    ensures shorter { IfSome result (λ read. length read.1.now < length tokens.now) }
{
    let (token, rest) = tokens.split_first()?;
    match token.kind {
        Kind::Sign => Some((comparison_of(token.text.as_slice())?, rest)),
        _ => None,
    }
}

/// A fact that is true or false alone, or one with what it is compared with.
pub fn compared_at<'a>(
    reader: Reader<'_>,
    tokens: &'a [Token],
) -> Result<(Condition, &'a [Token]), Unread>
    ensures reads { Gives seen result (spec.compared_at reader.entry tokens.now) }
    ensures shorter { IfOk result (λ read. length read.1.now < length tokens.now) }
{
    let ((name, fact), tokens) = fact_at(reader, tokens)?;
    let sort = sort_of(name);
    let Some((by, rest)) = sign_at(tokens) else {
        return match sort {
            Sort::Truth => Ok((Condition::Is(Term::Fact(fact)), tokens)),
            _ => Err(fault_at(reader, tokens, Expected::Comparison)),
        };
    };
    let (value, rest) = value_at(reader, sort, rest)?;
    Ok((
        Condition::Compare(Term::Fact(fact), by, Term::Constant(value)),
        rest,
    ))
}
