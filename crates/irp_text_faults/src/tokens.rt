//! The tokens of a JSON text, each with its place.

ghost use Rattle.std.specs.Prelude.{◌≡◌};
ghost use Rattle.irp_text_faults.specs.Places.{cut};

use std::alloc::{AllocError, Global};

/// What a token is.
#[derive(Clone, Copy, PartialEq, Eq)]
pub enum Kind {
    /// `[`
    List,
    /// `{`
    Object,
    /// `]`
    ListEnd,
    /// `}`
    ObjectEnd,
    /// `,`
    Comma,
    /// `:`
    Colon,
    /// What stands in quotation marks. One that isn't closed ends with its line.
    Text,
    /// Anything else up to white space or a mark of JSON.
    Word,
    /// The end of the text.
    End,
}

/// A token, from this byte of the text up to that one, which isn't its own.
#[derive(Clone, Copy)]
pub struct Token {
    pub kind: Kind,
    pub start: usize,
    pub end: usize,
    /// The place of the token behind the value that begins with this one.
    pub behind: usize,
}

/// The bytes of a text from one place up to another. None where there are no such.
pub fn cut(text: &[u8], start: usize, end: usize) -> &[u8]
    ensures { result.now ≡ cut text.now start end }
{
    if start <= end && end <= text.len() {
        &text[start..end]
    } else {
        &[]
    }
}

/// Whether it is white space of JSON.
fn is_space(byte: u8) -> bool {
    matches!(byte, b' ' | b'\t' | b'\n' | b'\r')
}

/// Whether a word ends before it.
fn ends_word(byte: u8) -> bool {
    is_space(byte) || matches!(byte, b'[' | b']' | b'{' | b'}' | b',' | b':' | b'"')
}

/// The place of the first byte that isn't white space.
fn behind_space(text: &[u8], from: usize) -> usize {
    for place in from..text.len() {
        if !is_space(text[place]) {
            return place;
        }
    }
    text.len()
}

/// The place behind a text whose quotation mark stands before this place; that of the line's end where none closes it.
fn behind_text(text: &[u8], from: usize) -> usize {
    let mut escaped = false;
    for place in from..text.len() {
        match text[place] {
            b'\n' => return place,
            _ if escaped => escaped = false,
            b'\\' => escaped = true,
            b'"' => return place + 1,
            _ => {}
        }
    }
    text.len()
}

/// The place behind a word.
fn behind_word(text: &[u8], from: usize) -> usize {
    for place in from..text.len() {
        if ends_word(text[place]) {
            return place;
        }
    }
    text.len()
}

/// What a mark of JSON is.
fn mark(byte: u8) -> Option<Kind> {
    match byte {
        b'[' => Some(Kind::List),
        b']' => Some(Kind::ListEnd),
        b'{' => Some(Kind::Object),
        b'}' => Some(Kind::ObjectEnd),
        b',' => Some(Kind::Comma),
        b':' => Some(Kind::Colon),
        _ => None,
    }
}

/// The first token from a place on, which has this place among the tokens.
fn token_at(text: &[u8], from: usize, place: usize) -> Token {
    let start = behind_space(text, from);
    let (kind, end) = match text.get(start) {
        None => (Kind::End, start),
        Some(b'"') => (Kind::Text, behind_text(text, start.saturating_add(1))),
        Some(byte) => match mark(*byte) {
            Some(kind) => (kind, start.saturating_add(1)),
            None => (Kind::Word, behind_word(text, start)),
        },
    };
    Token {
        kind,
        start,
        end,
        behind: place.saturating_add(1),
    }
}

/// Says of the opening token where its value ends, which is behind this closing one.
fn close(tokens: &mut Vec<Token>, opened: Option<usize>, behind: usize) {
    if let Some(place) = opened {
        if let Some(token) = tokens.get_mut(place) {
            token.behind = behind;
        }
    }
}

/// The tokens of a text, in order, without its end. The one error is want of memory.
pub fn tokens_of(alloc: Global, text: &[u8]) -> Result<Vec<Token>, AllocError> {
    let mut tokens = Vec::new(alloc);
    let mut opened = Vec::new(alloc);
    let mut from = 0;
    for place in 0..text.len() {
        let token = token_at(text, from, place);
        from = token.end;
        match token.kind {
            Kind::End => return Ok(tokens),
            Kind::List | Kind::Object => opened.push(place)?,
            Kind::ListEnd | Kind::ObjectEnd => close(&mut tokens, opened.pop(), token.behind),
            _ => {}
        }
        tokens.push(token)?;
    }
    Ok(tokens)
}
