//! The words and numbers that values are written by. Source: this project's own rules.

ghost use Rattle.std.specs.Prelude.{◌≡◌, ◌<◌};
ghost use Rattle.std.proofs.Common.{bytes_eq};
ghost use Rattle.irp_condition.specs.Words as spec;

use crate::naming::Sort;
use crate::scope::Scope;
use crate::value::{Answer, Named, Value};
use irp_types::{DeviceId, Owner};

/// There are at most so many devices.
const MOST_DEVICES: u64 = 64;

/// Whether a word is this one.
pub fn is(word: &[u8], name: &str) -> bool
    ensures { result ≡ bytes_eq word.now name.now }
{
    word == name.as_bytes()
}

/// The value of the first of these words that is the given one.
fn value_in(table: &[Named], word: &[u8]) -> Option<Value>
    ensures { result ≡ spec.value_in table.now word.now }
{
    match table.iter().find(|one| is(word, one.name)) {
        Some(one) => Some(one.value),
        None => None,
    }
}

/// The truth that a word writes.
fn truth_value(word: &[u8]) -> Option<Value>
    ensures { result ≡ spec.truth_value word.now }
{
    if is(word, "true") {
        return Some(Value::Truth(true));
    }
    if is(word, "false") {
        return Some(Value::Truth(false));
    }
    None
}

/// The answer that a word writes, as transcripts have it.
fn answer_named(word: &[u8]) -> Option<Answer>
    ensures { result ≡ spec.answer_named word.now }
{
    Some(if is(word, "done") || is(word, "ok") {
        Answer::Done
    } else if is(word, "seat_full") {
        Answer::SeatFull
    } else if is(word, "not_held") {
        Answer::NotHeld
    } else if is(word, "already_removing") {
        Answer::AlreadyRemoving
    } else if is(word, "no_lock") {
        Answer::NoLock
    } else if is(word, "yes") {
        Answer::Yes
    } else if is(word, "busy") {
        Answer::Busy
    } else if is(word, "standing") {
        Answer::Standing
    } else if is(word, "taken") {
        Answer::Taken
    } else if is(word, "lost") {
        Answer::Lost
    } else if is(word, "nothing") {
        Answer::Nothing
    } else if is(word, "used") {
        Answer::Used
    } else if is(word, "not_standing") {
        Answer::NotStanding
    } else if is(word, "no_slot") {
        Answer::NoSlot
    } else if is(word, "no_token") {
        Answer::NoToken
    } else {
        return None;
    })
}

/// The value of a digit, which is 16 for what is none.
fn digit_of(byte: u8) -> u64
    ensures { result ≡ spec.digit_of byte }
{
    match byte {
        b'0'..=b'9' => (byte - b'0') as u64,
        b'a'..=b'f' => (byte - b'a') as u64 + 10,
        b'A'..=b'F' => (byte - b'A') as u64 + 10,
        _ => 16,
    }
}

/// The number that these digits write in this base, of 16 at most; none where it is 2^64 or more.
fn number_in(base: u64, digits: &[u8]) -> Option<u64>
    requires { base < 17 }
    ensures { result ≡ spec.number_in base digits.now }
{
    if digits.is_empty() {
        return None;
    }
    let mut number = 0u64;
    for byte in digits {
        let digit = digit_of(*byte);
        if digit >= base {
            return None;
        }
        number = number.checked_mul(base)?.checked_add(digit)?;
    }
    Some(number)
}

/// The number that a word writes: decimal, or hexadecimal behind `0x`.
pub fn number_of(word: &[u8]) -> Option<u64>
    ensures { result ≡ spec.number_of word.now }
{
    if word.len() >= 2 && word[0] == b'0' && word[1] == b'x' {
        return number_in(16, &word[2..]);
    }
    number_in(10, word)
}

/// The device that a word names: `D` and its number, below 64.
pub fn device_named(word: &[u8]) -> Option<u32>
    ensures { result ≡ spec.device_named word.now }
{
    if word.is_empty() || word[0] != b'D' {
        return None;
    }
    match number_in(10, &word[1..]) {
        Some(number) if number < MOST_DEVICES => Some(number as u32),
        _ => None,
    }
}

/// The owner that a word writes, or that there is none.
fn owner_value(word: &[u8]) -> Option<Value>
    ensures { result ≡ spec.owner_value word.now }
{
    if is(word, "originator") {
        return Some(Value::Owner(Owner::Originator));
    }
    if is(word, "ended") {
        return Some(Value::Owner(Owner::Ended));
    }
    if is(word, "none") {
        return Some(Value::Missing);
    }
    match device_named(word) {
        Some(device) => Some(Value::Owner(Owner::Device(DeviceId(device)))),
        None => None,
    }
}

/// The number or status that a word writes.
fn number_value(statuses: &[Named], word: &[u8]) -> Option<Value>
    ensures { result ≡ spec.number_value statuses.now word.now }
{
    match number_of(word) {
        Some(number) => Some(Value::Number(number)),
        None => value_in(statuses, word),
    }
}

/// The refusal or the answer that a word writes.
fn answer_value(refusals: &[Named], word: &[u8]) -> Option<Value>
    ensures { result ≡ spec.answer_value refusals.now word.now }
{
    if let Some(value) = value_in(refusals, word) {
        return Some(value);
    }
    match answer_named(word) {
        Some(answer) => Some(Value::Answer(answer)),
        None => None,
    }
}

/// What a word writes that a step can be answered.
fn reply_value(scope: Scope<'_>, word: &[u8]) -> Option<Value>
    ensures { result ≡ spec.reply_value scope.entry word.now }
{
    if let Some(value) = owner_value(word) {
        return Some(value);
    }
    if let Some(value) = number_value(scope.statuses, word) {
        return Some(value);
    }
    match truth_value(word) {
        Some(value) => Some(value),
        None => answer_value(scope.refusals, word),
    }
}

/// The value of this sort that a word writes.
pub fn value_named(scope: Scope<'_>, sort: Sort, word: &[u8]) -> Option<Value>
    ensures { result ≡ spec.value_named scope.entry sort word.now }
{
    match sort {
        Sort::Reply => reply_value(scope, word),
        Sort::Owner => owner_value(word),
        Sort::Number => number_value(scope.statuses, word),
        Sort::Truth => truth_value(word),
    }
}
