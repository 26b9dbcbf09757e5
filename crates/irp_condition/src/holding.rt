//! Whether a condition holds.

ghost use Rattle.std.specs.Prelude.{◌≡◌, ◌↔◌, IsTrue, slice_get};
ghost use Rattle.irp_condition.specs.Holding.{
  Compares,
  Holds,
  IsAtMost,
  IsBelow,
  answer_of,
  held_value,
  is_live,
  is_made,
  is_true,
  label_value,
  packet_value,
  removing_value,
  reply_value,
  told_value,
  value_of,
  term_value,
};

use crate::condition::{Comparison, Condition, Fact, Term};
use crate::facts::{Facts, Packet, Told};
use crate::value::{Answer, Value};
use irp_transcript::WordReply;
use irp_types::{Owner, Reply};

/// The answer of a step on a remove lock or on a cancel slot. An acquire is answered by a status.
fn answer_of(reply: WordReply) -> Value
    ensures { result ≡ answer_of reply }
{
    Value::Answer(match reply {
        WordReply::Acquired => return Value::Number(0),
        WordReply::DeletePending => return Value::Number(0xC000_0056),
        WordReply::Done => Answer::Done,
        WordReply::SeatFull => Answer::SeatFull,
        WordReply::NotHeld => Answer::NotHeld,
        WordReply::AlreadyRemoving => Answer::AlreadyRemoving,
        WordReply::NoLock => Answer::NoLock,
        WordReply::Yes => Answer::Yes,
        WordReply::Busy { .. } => Answer::Busy,
        WordReply::Standing => Answer::Standing,
        WordReply::Taken { .. } => Answer::Taken,
        WordReply::Lost => Answer::Lost,
        WordReply::Nothing => Answer::Nothing,
        WordReply::Used => Answer::Used,
        WordReply::NotStanding => Answer::NotStanding,
        WordReply::NoSlot => Answer::NoSlot,
        WordReply::NoToken => Answer::NoToken,
    })
}

/// What a step was answered, as a value. A new packet is the number of its use, a cancel routine its number, and what a
/// Look sees is the packet's owner.
pub fn told_value(told: Told) -> Value
    ensures { result ≡ told_value told }
{
    match told {
        Told::Word(reply) => answer_of(reply),
        Told::Call(Reply::Done) => Value::Answer(Answer::Done),
        Told::Call(Reply::Device(device)) => Value::Owner(Owner::Device(device)),
        Told::Call(Reply::Irp(irp)) => Value::Number(irp.use_no),
        Told::Call(Reply::Status(status)) => Value::Number(status.0 as u64),
        Told::Call(Reply::Previous(None)) => Value::Missing,
        Told::Call(Reply::Previous(Some(cancel))) => Value::Number(cancel.0 as u64),
        Told::Call(Reply::Cancelled(was_set)) => Value::Truth(was_set),
        Told::Call(Reply::Seen(seen)) => Value::Owner(seen.owner),
        Told::Call(Reply::Refused(refusal)) => Value::Refused(refusal),
    }
}

/// A fact of a live packet.
fn packet_value(fact: Fact, packet: Packet) -> Value
    ensures { result ≡ packet_value fact packet }
{
    match fact {
        Fact::Owner(_) => Value::Owner(packet.owner),
        Fact::Status(_) => Value::Number(packet.status.0 as u64),
        Fact::Information(_) => Value::Number(packet.information),
        Fact::Current(_) => Value::Number(packet.current as u64),
        Fact::Cancel(_) => Value::Truth(packet.cancel),
        _ => Value::Missing,
    }
}

/// A fact of the packet that a label names: missing where it names no live packet.
fn label_value(fact: Fact, label: u32, labels: &[Option<Packet>]) -> Value
    ensures { result ≡ label_value fact (slice_get labels.now label) }
{
    match labels.get(label as usize).copied() {
        Some(Some(packet)) => packet_value(fact, packet),
        _ => Value::Missing,
    }
}

/// Whether a label names a live packet.
fn is_live(label: u32, labels: &[Option<Packet>]) -> bool
    ensures { result ≡ is_live (slice_get labels.now label) }
{
    matches!(labels.get(label as usize).copied(), Some(Some(_)))
}

/// How many references the word of a lock counts.
fn held_value(lock: u32, words: &[u64]) -> Value
    ensures { result ≡ held_value (slice_get words.now lock) }
{
    match words.get(lock as usize).copied() {
        Some(word) => Value::Number(word / 2),
        None => Value::Missing,
    }
}

/// Whether the word of a lock has the removed bit.
fn removing_value(lock: u32, words: &[u64]) -> Value
    ensures { result ≡ removing_value (slice_get words.now lock) }
{
    match words.get(lock as usize).copied() {
        Some(word) => Value::Truth(word % 2 == 1),
        None => Value::Missing,
    }
}

/// What a step was answered.
fn reply_value(step: u32, replies: &[Option<Told>]) -> Value
    ensures { result ≡ reply_value (slice_get replies.now step) }
{
    match replies.get(step as usize).copied() {
        Some(Some(told)) => told_value(told),
        _ => Value::Missing,
    }
}

/// Whether a step was made.
fn is_made(step: u32, replies: &[Option<Told>]) -> bool
    ensures { result ≡ is_made (slice_get replies.now step) }
{
    matches!(replies.get(step as usize).copied(), Some(Some(_)))
}

/// Whether a device was deleted; one that was never created wasn't.
fn is_deleted(device: u32, deleted: &[bool]) -> bool
    ensures { result ≡ is_true (slice_get deleted.now device) }
{
    matches!(deleted.get(device as usize).copied(), Some(true))
}

/// What a fact is.
fn value_of(fact: Fact, facts: &Facts) -> Value
    ensures { result ≡ value_of facts.now fact }
{
    match fact {
        Fact::Reply(step) => reply_value(step, facts.replies.as_slice()),
        Fact::Made(step) => Value::Truth(is_made(step, facts.replies.as_slice())),
        Fact::Owner(label)
        | Fact::Status(label)
        | Fact::Information(label)
        | Fact::Current(label)
        | Fact::Cancel(label) => label_value(fact, label, facts.labels.as_slice()),
        Fact::Live(label) => Value::Truth(is_live(label, facts.labels.as_slice())),
        Fact::Deleted(device) => Value::Truth(is_deleted(device, facts.deleted.as_slice())),
        Fact::Held(lock) => held_value(lock, facts.locks.as_slice()),
        Fact::Removing(lock) => removing_value(lock, facts.locks.as_slice()),
    }
}

/// What a term is.
fn term_value(term: Term, facts: &Facts) -> Value
    ensures { result ≡ term_value facts.now term }
{
    match term {
        Term::Fact(fact) => value_of(fact, facts),
        Term::Constant(value) => value,
    }
}

/// Whether the left value is a number below the right one.
fn is_below(left: Value, right: Value) -> bool
    ensures { IsTrue result ↔ IsBelow left right }
{
    match (left, right) {
        (Value::Number(left), Value::Number(right)) => left < right,
        _ => false,
    }
}

/// Whether the left value is a number that isn't above the right one.
fn is_at_most(left: Value, right: Value) -> bool
    ensures { IsTrue result ↔ IsAtMost left right }
{
    match (left, right) {
        (Value::Number(left), Value::Number(right)) => left <= right,
        _ => false,
    }
}

/// Whether the left value compares so with the right one.
fn compares(left: Value, by: Comparison, right: Value) -> bool
    ensures { IsTrue result ↔ Compares left by right }
{
    match by {
        Comparison::Equal => left == right,
        Comparison::Other => left != right,
        Comparison::Below => is_below(left, right),
        Comparison::AtMost => is_at_most(left, right),
        Comparison::Above => is_below(right, left),
        Comparison::AtLeast => is_at_most(right, left),
    }
}

/// Whether a condition holds of what an order leaves (this project's own rule).
pub fn holds(facts: &Facts, condition: &Condition) -> bool
    ensures { IsTrue result ↔ Holds facts.now condition.now }
{
    match condition {
        Condition::Or(left, right) => holds(facts, left) || holds(facts, right),
        Condition::And(left, right) => holds(facts, left) && holds(facts, right),
        Condition::Not(inner) => !holds(facts, inner),
        Condition::Is(term) => term_value(*term, facts) == Value::Truth(true),
        Condition::Compare(left, by, right) => {
            compares(term_value(*left, facts), *by, term_value(*right, facts))
        }
    }
}
