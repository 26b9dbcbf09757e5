//! A condition that tells an order that isn't right from every right one.

ghost use Rattle.std.specs.Prelude.{◌≡◌, ◌≤◌, ◌↔◌, ℕ, IfOk, IfSome, List, None, OnOk, false, string_bytes, true};
ghost use Rattle.irp_condition.specs.Formulas.{formula_of};
ghost use Rattle.irp_condition.specs.Grammar.{TextSays};
ghost use Rattle.irp_condition.specs.Holding.{value_of};
ghost use Rattle.irp_condition.specs.declared.value.Value.TheVariants.{Missing};
ghost use Rattle.irp_orders.specs.Such as spec;
ghost use Rattle.irp_orders.specs.Such.{
  HasNoSuch,
  HasNoWrong,
  IsOfWrong,
  IsRightAt,
  IsSaid,
  IsSuch,
  PutsSuch,
  fact_of,
};

use crate::conditions::scope_of;
use crate::facts::facts_of;
use crate::names::value_names;
use irp_condition::{
    Answer, Comparison, Condition, Fact, Facts, Scope, Term, Unread, Value, holds, read_condition,
    text_of, told_value,
};
use irp_listing::put_line;
use irp_machine::End;
use irp_script_reader::Script;
use irp_types::Owner;
use std::alloc::{AllocError, Global};

/// What may be wrong of an end: what a step was answered, who has the packet of a label, how often a remove lock is
/// held.
#[derive(Clone, Copy)]
pub enum Topic {
    Reply,
    Owner,
    Held,
}

/// The fact of this topic at a place.
fn fact_at(topic: Topic, place: u32) -> Fact
    ensures { result ≡ fact_of topic place }
{
    match topic {
        Topic::Reply => Fact::Reply(place),
        Topic::Owner => Fact::Owner(place),
        Topic::Held => Fact::Held(place),
    }
}

/// What that fact is; none where there is no such place.
fn value_at(facts: &Facts, topic: Topic, place: u32) -> Option<Value>
    ensures some { IfSome result (λ value. value_of facts.now (fact_of topic place) ≡ value) }
    ensures none { result ≡ None → (later : ℕ) → place ≤ later
        → value_of facts.now (fact_of topic later) ≡ Missing }
{
    let place = place as usize;
    match topic {
        Topic::Reply => match *facts.replies.as_slice().get(place)? {
            Some(told) => Some(told_value(told)),
            None => Some(Value::Missing),
        },
        Topic::Owner => match *facts.labels.as_slice().get(place)? {
            Some(packet) => Some(Value::Owner(packet.owner)),
            None => Some(Value::Missing),
        },
        Topic::Held => Some(Value::Number(*facts.locks.as_slice().get(place)? / 2)),
    }
}

/// Whether a remove lock or a cancel slot refuses a step by this answer.
fn is_refusal(answer: Answer) -> bool
    ensures { result ≡ spec.is_refusal answer }
{
    match answer {
        Answer::SeatFull
        | Answer::NotHeld
        | Answer::AlreadyRemoving
        | Answer::NoLock
        | Answer::Used
        | Answer::NotStanding
        | Answer::NoSlot
        | Answer::NoToken => true,
        _ => false,
    }
}

/// Whether no right end has this fact.
fn is_wrong(fact: Fact, value: Value) -> bool
    ensures { result ≡ spec.is_wrong fact value }
{
    match (fact, value) {
        (Fact::Reply(_), Value::Refused(_)) => true,
        (Fact::Reply(_), Value::Answer(answer)) => is_refusal(answer),
        (Fact::Owner(_), Value::Owner(Owner::Device(_))) => true,
        (Fact::Held(_), Value::Number(count)) => 0 < count,
        _ => false,
    }
}

/// The first fact of this topic that no right end has, as a condition: it is what it is. None where there is none. The
/// one error is want of memory; it comes too where there are 2^32 places.
fn first_wrong(facts: &Facts, topic: Topic) -> Result<Option<Condition>, AllocError>
    ensures some { IfOk result (λ found. IfSome found (λ condition.
        IsOfWrong facts.now (formula_of condition))) }
    ensures none { IfOk result (λ found. found ≡ None
        → (place : ℕ) → IsRightAt facts.now topic place) }
{
    for place in 0..u32::MAX {
        let Some(value) = value_at(facts, topic, place) else {
            return Ok(None);
        };
        let fact = fact_at(topic, place);
        if is_wrong(fact, value) {
            let (fact, value) = (Term::Fact(fact), Term::Constant(value));
            return Ok(Some(Condition::Compare(fact, Comparison::Equal, value)));
        }
    }
    Err(AllocError)
}

/// The same of all topics, one after another.
fn wrong_of(facts: &Facts) -> Result<Option<Condition>, AllocError>
    ensures some { IfOk result (λ found. IfSome found (λ condition.
        IsOfWrong facts.now (formula_of condition))) }
    ensures none { IfOk result (λ found. found ≡ None → HasNoWrong facts.now) }
{
    if let Some(refused) = first_wrong(facts, Topic::Reply)? {
        return Ok(Some(refused));
    }
    if let Some(kept) = first_wrong(facts, Topic::Owner)? {
        return Ok(Some(kept));
    }
    first_wrong(facts, Topic::Held)
}

/// Whether a condition says what one fact is, which is so here, and at no right end.
fn tells_wrong(facts: &Facts, condition: &Condition) -> bool
    ensures { (result ≡ true) ↔ IsOfWrong facts.now (formula_of condition.now) }
{
    match condition {
        Condition::Compare(Term::Fact(fact), Comparison::Equal, Term::Constant(value)) => {
            is_wrong(*fact, *value) && holds(facts, condition)
        }
        _ => false,
    }
}

/// The text of such a condition, where it is read as one. The one error is want of memory.
fn said(
    alloc: Global,
    facts: &Facts,
    condition: &Condition,
    scope: Scope<'_>,
) -> Result<Option<String>, AllocError>
    ensures some { IfOk result (λ told. IfSome told (λ text.
        IsSaid scope.entry facts.now (string_bytes text))) }
    ensures none { IfOk result (λ told. told ≡ None
        → IsOfWrong facts.now (formula_of condition.now)
        → (text : List ℕ) → TextSays scope.entry text (formula_of condition.now) → ⊥) }
{
    let text = text_of(alloc, condition, scope)?;
    match read_condition(alloc, text.as_str(), scope) {
        Ok(read) => Ok(if tells_wrong(facts, &read) {
            Some(text)
        } else {
            None
        }),
        Err(Unread::NoMemory) => Err(AllocError),
        Err(Unread::Fault(_)) => Ok(None),
    }
}

/// The text of a condition, as `--never` reads it, that this end of a script's steps meets, and no right end does. None
/// where no step was refused, no device has the packet of a label, and no remove lock is held; or where no text says it.
fn such(alloc: Global, script: &Script, end: &End) -> Result<Option<String>, AllocError>
    ensures some { IfOk result (λ told. IfSome told (λ text.
        IsSuch script.now end.now (string_bytes text))) }
    ensures none { IfOk result (λ told. told ≡ None → HasNoSuch script.now end.now) }
{
    let facts = facts_of(alloc, script.parts().steps.as_slice(), end)?;
    let Some(condition) = wrong_of(&facts)? else {
        return Ok(None);
    };
    let names = value_names(alloc)?;
    match scope_of(script, &names, true) {
        Some(scope) => said(alloc, &facts, &condition, scope),
        None => Err(AllocError),
    }
}

/// Puts the line of such a condition, where there is one (this project's own rule). The one error is want of memory.
pub fn put_such(
    alloc: Global,
    out: &mut Vec<u8>,
    script: &Script,
    end: &End,
) -> Result<(), AllocError>
    ensures { OnOk result (PutsSuch script.now end.now out.old.items out.new.items) }
{
    let Some(text) = such(alloc, script, end)? else {
        return Ok(());
    };
    let mut line = String::from_str(alloc, "such orders: --never '")?;
    line.push_str(text.as_str())?;
    line.push_str("'")?;
    put_line(out, line.as_str())
}
