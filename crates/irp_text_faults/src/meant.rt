//! What was meant by a value of a script that isn't as it should be.

use crate::acts::acts_of;
use crate::fits::{MOST, is_one_of, texts_of};
use crate::kinds::{has_kind, kinds};
use crate::near::{edits, nearest};
use crate::nodes::{Node, hexadecimal_of, number_of};
use crate::part::{Body, Key, Part, Shape};
use crate::parts::{shape_for, shape_of};
use crate::tokens::cut;
use crate::words::Remedy;
use irp_forms::ActKind;
use irp_names::{major_name, status_name, status_names};
use irp_types::Status;
use irp_types::limits::LAST_MAJOR;

/// A name, its number where it has one, and how many letters lead to the name.
type Meant = (u64, &'static str, u32);

/// What is nearer: this name, to which so many letters lead, if any do, or what was found before.
fn nearer(
    before: Option<Meant>,
    number: u64,
    name: &'static str,
    count: Option<u32>,
) -> Option<Meant> {
    match (count, before) {
        (None, _) => before,
        (Some(count), Some((_, _, least))) if least <= count => before,
        (Some(count), _) => Some((number, name, count)),
    }
}

/// The number with a name that is meant, where one was found.
fn named_of(found: Option<Meant>) -> Option<(u64, &'static str)> {
    let (number, name, _) = found?;
    Some((number, name))
}

/// The word that is meant, where one was found.
fn word_of(found: Option<Meant>) -> Remedy {
    match found {
        Some((_, name, _)) => Remedy::Word(name),
        None => Remedy::Unknown,
    }
}

/// The status that a name means.
pub fn status_meant(word: &[u8]) -> Option<(u64, &'static str)> {
    let mut found = None;
    for (number, name) in status_names() {
        found = nearer(found, u64::from(*number), *name, edits(word, *name));
    }
    named_of(found)
}

/// The major function code that a name means.
pub fn major_meant(word: &[u8]) -> Option<(u64, &'static str)> {
    let mut found = None;
    for number in 0..=LAST_MAJOR {
        if let Some(name) = major_name(number) {
            found = nearer(found, u64::from(number), name, edits(word, name));
        }
    }
    named_of(found)
}

/// The number that is written as `0x10`.
pub fn hexadecimal(word: &[u8]) -> Option<u64> {
    match word {
        [b'0', b'x' | b'X', digits @ ..] if !digits.is_empty() && digits.len() <= 16 =>
            hexadecimal_of(digits),
        _ => None,
    }
}

/// The number that is meant by a text of digits, or by a number with the fraction 0.
fn number_meant(node: Node) -> Option<u64> {
    let raw = node.raw();
    match node.word() {
        Some(word) => match number_of(word) {
            Some(number) => Some(number),
            None => hexadecimal(word),
        },
        None => match cut(raw, raw.len().saturating_sub(2), raw.len()) {
            b".0" => number_of(cut(raw, 0, raw.len().saturating_sub(2))),
            _ => None,
        },
    }
}

/// The status that is meant by a negative number, as C shows it.
fn signed_status(node: Node) -> Option<u64> {
    let raw = node.raw();
    if raw.get(0) != Some(&b'-') {
        return None;
    }
    0x1_0000_0000u64.checked_sub(number_of(cut(raw, 1, raw.len()))?)
}

/// A remedy with the name that a status has.
fn status_remedy(number: u64) -> Remedy {
    match u32::try_from(number) {
        Ok(status) => match status_name(Status(status)) {
            Some(name) => Remedy::Named(number, name),
            None => Remedy::Number(number),
        },
        Err(_) => Remedy::Unknown,
    }
}

/// What was meant by a value that is no status.
fn meant_status(node: Node) -> Remedy {
    if let Some((number, name)) = status_meant(node.word().unwrap_or(&[])) {
        return Remedy::Named(number, name);
    }
    match (signed_status(node), number_meant(node)) {
        (Some(number), _) | (None, Some(number)) => status_remedy(number),
        (None, None) => Remedy::Unknown,
    }
}

/// What was meant by a value that is no major function code.
fn meant_major(node: Node) -> Remedy {
    match major_meant(node.word().unwrap_or(&[])) {
        Some((number, name)) => Remedy::Named(number, name),
        None => meant_number(node, 255),
    }
}

/// What was meant by a value that is no number up to this one.
fn meant_number(node: Node, most: u64) -> Remedy {
    match number_meant(node) {
        Some(number) if number <= most => Remedy::Number(number),
        _ => Remedy::Unknown,
    }
}

/// What is written where the originator is meant.
static ORIGINATORS: &[&str] = &["O", "0o", "originator", "Originator"];

/// What was meant by a value that is no party.
fn meant_party(node: Node) -> Remedy {
    if is_one_of(node, ORIGINATORS) {
        Remedy::Word("o")
    } else {
        meant_number(node, MOST)
    }
}

/// What was meant by a word that is none of these.
fn meant_text(node: Node, texts: &[&'static str]) -> Remedy {
    match nearest(node.word().unwrap_or(&[]), texts) {
        Some(text) => Remedy::Word(text),
        None => Remedy::Unknown,
    }
}

/// What was meant by a value that isn't what a part may be.
pub fn meant(node: Node, part: Part) -> Remedy {
    match (part, shape_for(part, false)) {
        (Part::Status | Part::AnswerStatus, _) => meant_status(node),
        (Part::Major | Part::HandledMajor, _) => meant_major(node),
        (Part::Party, _) => meant_party(node),
        (_, Shape::Short | Shape::Seat) => meant_number(node, MOST),
        (_, Shape::Long) => meant_number(node, u64::MAX),
        (_, Shape::Within(_, most)) => meant_number(node, most),
        (_, Shape::Text(_) | Shape::Rule) => meant_text(node, texts_of(shape_of(part))),
        _ => Remedy::Unknown,
    }
}

/// The kind of a part that is meant by a text, or by the first item of a list.
pub fn meant_kind(node: Node, part: Part, in_list: bool) -> Remedy {
    let word = node.word().unwrap_or(&[]);
    let mut found = None;
    for kind in kinds() {
        let is_list = matches!(kind.body, Body::Items(..));
        let is_text = matches!(kind.body, Body::Text);
        if has_kind(part, *kind) && ((in_list && is_list) || (!in_list && is_text)) {
            found = nearer(found, 0, kind.name, edits(word, kind.name));
        }
    }
    word_of(found)
}

/// How many letters lead from a word to the name of a step, its own or that of Windows.
fn far_from(word: &[u8], act: ActKind) -> Option<u32> {
    match edits(word, act.word()) {
        Some(count) => Some(count),
        None if act == ActKind::Look => None,
        None => edits(word, act.windows_name()),
    }
}

/// The step that is meant by a word.
pub fn meant_act(word: &[u8]) -> Remedy {
    let mut found = None;
    for form in acts_of(Part::ScriptStep) {
        found = nearer(found, 0, form.act.word(), far_from(word, form.act));
    }
    word_of(found)
}

/// The key that is meant by another one, among those that an object lacks.
pub fn meant_key(object: Node, key: Node, keys: &'static [Key]) -> Remedy {
    let word = key.word().unwrap_or(&[]);
    let mut found = None;
    for (name, _) in keys {
        if object.get(*name).is_none() {
            found = nearer(found, 0, *name, edits(word, *name));
        }
    }
    word_of(found)
}
