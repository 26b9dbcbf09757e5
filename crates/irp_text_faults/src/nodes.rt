//! The values of a JSON text, each with its place.

use crate::spelling::says;
use crate::tokens::{Kind, Token, cut};
use crate::words::Span;

/// A value of a JSON text, or a key.
#[derive(Clone, Copy)]
pub struct Node<'t> {
    pub text: &'t [u8],
    pub tokens: &'t [Token],
    /// The place of its first token.
    pub at: usize,
}

/// The number that decimal digits are. None where there are others or none, or from 2^64 on.
pub fn number_of(digits: &[u8]) -> Option<u64> {
    let mut number = 0u64;
    for digit in digits {
        if !digit.is_ascii_digit() {
            return None;
        }
        number = number
            .checked_mul(10)?
            .checked_add(u64::from(digit.wrapping_sub(b'0')))?;
    }
    if digits.is_empty() {
        None
    } else {
        Some(number)
    }
}

/// The value of a hexadecimal digit.
fn digit_of(byte: u8) -> Option<u64> {
    match byte {
        b'0'..=b'9' => Some(u64::from(byte.wrapping_sub(b'0'))),
        b'a'..=b'f' => Some(u64::from(byte.wrapping_sub(b'a')).saturating_add(10)),
        b'A'..=b'F' => Some(u64::from(byte.wrapping_sub(b'A')).saturating_add(10)),
        _ => None,
    }
}

/// The number that hexadecimal digits are. None where there are others, or from 2^64 on.
pub fn hexadecimal_of(digits: &[u8]) -> Option<u64> {
    let mut number = 0u64;
    for digit in digits {
        number = number.checked_mul(16)?.checked_add(digit_of(*digit)?)?;
    }
    Some(number)
}

impl<'t> Node<'t> {
    /// The value that begins with this token.
    fn moved(self, at: usize) -> Node<'t> {
        Node { at, ..self }
    }

    /// The token at this place.
    fn token(self, at: usize) -> Option<Token> {
        self.tokens.get(at).copied()
    }

    /// What its first token is.
    pub fn kind(self) -> Kind {
        match self.token(self.at) {
            Some(token) => token.kind,
            None => Kind::End,
        }
    }

    /// Where it begins in the text.
    pub fn start(self) -> usize {
        match self.token(self.at) {
            Some(token) => token.start,
            None => self.text.len(),
        }
    }

    /// The place of the token behind it.
    fn behind(self) -> usize {
        match self.token(self.at) {
            Some(token) => token.behind,
            None => self.at,
        }
    }

    /// From where to where it stands in the text.
    pub fn span(self) -> Span {
        let start = self.start();
        match self.token(self.behind().saturating_sub(1)) {
            Some(last) => Span {
                start,
                end: last.end,
            },
            None => Span { start, end: start },
        }
    }

    /// Its bytes in the text.
    pub fn raw(self) -> &'t [u8] {
        let span = self.span();
        cut(self.text, span.start, span.end)
    }

    /// What stands between its quotation marks, as it is written. None where it is no text.
    pub fn word(self) -> Option<&'t [u8]> {
        let raw = self.raw();
        match self.kind() {
            Kind::Text => Some(cut(raw, 1, raw.len().saturating_sub(1))),
            _ => None,
        }
    }

    /// The number that it is, where that is whole, without a sign and below 2^64.
    pub fn number(self) -> Option<u64> {
        match self.kind() {
            Kind::Word => number_of(self.raw()),
            _ => None,
        }
    }

    /// Whether it is null.
    pub fn is_null(self) -> bool {
        self.kind() == Kind::Word && self.raw() == b"null".as_slice()
    }

    /// The first item of a list, or the first key of an object.
    pub fn first(self) -> Option<Node<'t>> {
        let inside = self.moved(self.at.saturating_add(1));
        match (self.kind(), inside.kind()) {
            (Kind::List | Kind::Object, Kind::ListEnd | Kind::ObjectEnd | Kind::End) => None,
            (Kind::List | Kind::Object, _) => Some(inside),
            _ => None,
        }
    }

    /// The item, or the key, behind a comma behind it.
    pub fn next(self) -> Option<Node<'t>> {
        let comma = self.moved(self.behind());
        match comma.kind() {
            Kind::Comma => Some(comma.moved(comma.behind())),
            _ => None,
        }
    }

    /// The value of a key.
    pub fn value(self) -> Node<'t> {
        self.moved(self.behind().saturating_add(1))
    }

    /// Whether it is a text of this word, of letters of ASCII: each may be written as it stands, or as `\u0061`.
    pub fn is_word(self, name: &str) -> bool {
        match self.word() {
            Some(word) => says(name.as_bytes(), word),
            None => false,
        }
    }

    /// The key under which it stands. None where it stands in a list, or is the whole text.
    pub fn key(self) -> Option<Node<'t>> {
        let colon = self.moved(self.at.checked_sub(1)?);
        match colon.kind() {
            Kind::Colon => Some(self.moved(self.at.checked_sub(2)?)),
            _ => None,
        }
    }

    /// The item of a list, or the key of an object, in which a token stands or under which it does, with its place from
    /// 0. None where it stands in none.
    pub fn child_with(self, at: usize) -> Option<(usize, Node<'t>)> {
        let is_object = self.kind() == Kind::Object;
        let mut next = self.first();
        for place in 0..self.tokens.len() {
            let item = next?;
            let value = if is_object { item.value() } else { item };
            if value.at <= at && at < value.behind() {
                return Some((place, item));
            }
            next = value.next();
        }
        None
    }

    /// Whether it is an object with one key.
    pub fn has_one_key(self) -> bool {
        match self.first() {
            Some(key) => self.kind() == Kind::Object && key.value().next().is_none(),
            None => false,
        }
    }

    /// The value of the last key of this name. None where it is no object.
    pub fn get(self, name: &str) -> Option<Node<'t>> {
        if self.kind() != Kind::Object {
            return None;
        }
        let mut found = None;
        let mut next = self.first();
        for _ in 0..self.tokens.len() {
            let Some(key) = next else {
                return found;
            };
            if key.is_word(name) {
                found = Some(key.value());
            }
            next = key.value().next();
        }
        found
    }

    /// The item of a list at this place, from 0.
    pub fn nth(self, index: usize) -> Option<Node<'t>> {
        if self.kind() != Kind::List {
            return None;
        }
        let mut next = self.first();
        for _ in 0..index {
            next = next?.next();
        }
        next
    }

    /// The number at a place of a list, where there is one.
    pub fn number_at(self, index: usize) -> Option<u64> {
        self.nth(index)?.number()
    }

    /// How many items the list under a key has; 0 where there is none.
    pub fn count_under(self, key: &str) -> u64 {
        match self.get(key) {
            Some(list) => list.count().unwrap_or(0) as u64,
            None => 0,
        }
    }

    /// How many items a list has. None where it is no list.
    pub fn count(self) -> Option<usize> {
        if self.kind() != Kind::List {
            return None;
        }
        let mut next = self.first();
        for count in 0..self.tokens.len() {
            match next {
                Some(item) => next = item.next(),
                None => return Some(count),
            }
        }
        Some(self.tokens.len())
    }

    /// Whether it is a list that begins with this word.
    pub fn begins_with(self, name: &str) -> bool {
        match self.nth(0) {
            Some(first) => first.is_word(name),
            None => false,
        }
    }
}
