//! The names of facts, the signs of comparisons, and which values each fact can have. Source: this project's own rules.

ghost use Rattle.std.specs.Prelude.{◌≡◌};
ghost use Rattle.irp_condition.specs.Naming as spec;

use crate::condition::Comparison;
use crate::words::is;

/// The name of a fact.
#[derive(Clone, Copy)]
pub enum Name {
    Reply,
    Made,
    Owner,
    Status,
    Information,
    Current,
    Live,
    Cancel,
    Deleted,
    Held,
    Removing,
}

/// Which values a fact can have.
#[derive(Clone, Copy)]
pub enum Sort {
    /// What a step can be answered.
    Reply,
    /// An owner, or none.
    Owner,
    /// A number; a status is one.
    Number,
    /// Yes or no.
    Truth,
}

/// What joins two conditions.
#[derive(Clone, Copy)]
pub enum Joint {
    And,
    Or,
}

/// The word of a joint.
pub fn word_of(joint: Joint) -> &'static str
    ensures { result.now ≡ spec.word_of joint }
{
    match joint {
        Joint::And => "and",
        Joint::Or => "or",
    }
}

/// The name of a fact that a word is.
pub fn name_of(word: &[u8]) -> Option<Name>
    ensures { result ≡ spec.name_of word.now }
{
    Some(if is(word, "reply") {
        Name::Reply
    } else if is(word, "made") {
        Name::Made
    } else if is(word, "owner") {
        Name::Owner
    } else if is(word, "status") {
        Name::Status
    } else if is(word, "information") {
        Name::Information
    } else if is(word, "current") {
        Name::Current
    } else if is(word, "live") {
        Name::Live
    } else if is(word, "cancel") {
        Name::Cancel
    } else if is(word, "deleted") {
        Name::Deleted
    } else if is(word, "held") {
        Name::Held
    } else if is(word, "removing") {
        Name::Removing
    } else {
        return None;
    })
}

/// The comparison that a sign is.
pub fn comparison_of(sign: &[u8]) -> Option<Comparison>
    ensures { result ≡ spec.comparison_of sign.now }
{
    Some(if is(sign, "==") {
        Comparison::Equal
    } else if is(sign, "!=") {
        Comparison::Other
    } else if is(sign, "<") {
        Comparison::Below
    } else if is(sign, "<=") {
        Comparison::AtMost
    } else if is(sign, ">") {
        Comparison::Above
    } else if is(sign, ">=") {
        Comparison::AtLeast
    } else {
        return None;
    })
}

/// Which values a fact of this name can have.
pub fn sort_of(name: Name) -> Sort
    ensures { result ≡ spec.sort_of name }
{
    match name {
        Name::Reply => Sort::Reply,
        Name::Owner => Sort::Owner,
        Name::Status | Name::Information | Name::Current | Name::Held => Sort::Number,
        Name::Made | Name::Live | Name::Cancel | Name::Deleted | Name::Removing => Sort::Truth,
    }
}

/// Whether only what steps were answered tells a fact of this name.
pub fn needs_replies(name: Name) -> bool
    ensures { result ≡ spec.needs_replies name }
{
    matches!(name, Name::Reply | Name::Made | Name::Deleted)
}
