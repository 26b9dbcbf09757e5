//! Whether a value without parts is as it should be.

use crate::nodes::Node;
use crate::part::Shape;
use crate::search::{Bounds, Text};
use crate::tokens::Kind;
use irp_forms::HasName;
use irp_names::rule_names;
use irp_types::Refusal;

/// The greatest number below 2^32.
pub const MOST: u64 = 0xFFFF_FFFF;

/// The flags of a setting.
static FLAGS: &[&str] = &["", "s", "e", "c", "se", "sc", "ec", "sec"];

/// Whether it is a number within these bounds.
fn is_within(node: Node, least: u64, most: u64) -> bool {
    match node.number() {
        Some(number) => least <= number && number <= most,
        None => false,
    }
}

/// Whether it is one of these texts.
pub fn is_one_of(node: Node, names: &[&str]) -> bool {
    for name in names {
        if node.is_word(*name) {
            return true;
        }
    }
    false
}

/// Whether it is one of these numbers.
fn is_number_of(node: Node, numbers: &[u64]) -> bool {
    match node.number() {
        Some(number) => numbers.contains(&number),
        None => false,
    }
}

/// Whether it is the name of a refusal.
fn is_refusal(node: Node) -> bool {
    for refusal in Refusal::all() {
        if node.is_word(refusal.name()) {
            return true;
        }
    }
    false
}

/// Whether it is a label.
fn is_label(node: Node) -> bool {
    let Some(word) = node.word() else {
        return false;
    };
    for byte in word {
        if !byte.is_ascii_alphanumeric() && *byte != b'_' {
            return false;
        }
    }
    !word.is_empty() && word.len() <= 32
}

/// Whether it is a label, or a slot and a use number.
fn is_label_or_pair(node: Node) -> bool {
    match (node.count(), node.nth(0), node.nth(1)) {
        (Some(2), Some(slot), Some(using)) => {
            is_within(slot, 0, MOST) && is_within(using, 0, u64::MAX)
        }
        _ => is_label(node),
    }
}

/// The least and the greatest number of a shape; none where it isn't one of numbers.
fn ends_of(shape: Shape, bounds: Bounds) -> Option<(u64, u64)> {
    match shape {
        Shape::Seat if bounds.text == Text::Line => {
            Some((0, u64::from(bounds.seats).checked_sub(1)?))
        }
        Shape::Short | Shape::Seat | Shape::TextOrShort(_) => Some((0, MOST)),
        Shape::Long | Shape::UseNumber => Some((0, u64::MAX)),
        Shape::Within(least, most) => Some((least, most)),
        _ => None,
    }
}

/// The texts of a shape; none where it isn't one of texts.
pub fn texts_of(shape: Shape) -> &'static [&'static str] {
    match shape {
        Shape::Text(texts) | Shape::TextOrShort(texts) => texts,
        Shape::Rule => rule_names(),
        Shape::Flags => FLAGS,
        _ => &[],
    }
}

/// Whether a value without parts is as it should be.
pub fn fits(node: Node, shape: Shape, bounds: Bounds) -> bool {
    if let Some((least, most)) = ends_of(shape, bounds) {
        if is_within(node, least, most) {
            return true;
        }
    }
    match shape {
        Shape::OneOf(numbers) => is_number_of(node, numbers),
        Shape::Truth => node.kind() == Kind::Word
            && (node.raw() == b"true".as_slice() || node.raw() == b"false".as_slice()),
        Shape::Refusal => is_refusal(node),
        Shape::Label => is_label(node),
        Shape::LabelOrPair => is_label_or_pair(node),
        Shape::Any => true,
        texts => is_one_of(node, texts_of(texts)),
    }
}
