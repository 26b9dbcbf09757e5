//! The words and signs of a condition's text. Source: this project's own rules.

ghost use Rattle.std.specs.Prelude.{◌≡◌, ◌<◌, ◌≤◌, ◌+◌, if◌then◌else◌, IfOk, OnOk, length};
ghost use Rattle.irp_condition.specs.Tokens as spec;

use irp_types::Row;
use std::alloc::{AllocError, Global};

/// What a run of bytes is.
#[derive(Clone, Copy, PartialEq, Eq)]
pub enum Kind {
    /// Letters, digits and underscores.
    Word,
    /// `=`, `!`, `<` and `>`.
    Sign,
    /// `(`.
    Open,
    /// `)`.
    Close,
    /// Space, tab or newline.
    Blank,
    /// Any other byte.
    Other,
}

/// A run of bytes of one kind; parentheses stand alone.
#[derive(Drop)]
pub struct Token {
    pub kind: Kind,
    pub text: Row<u8>,
    /// Where it begins, from 1.
    pub column: usize,
}

/// What a byte is.
pub fn kind_of(byte: u8) -> Kind
    ensures { result ≡ spec.kind_of byte }
{
    match byte {
        b'(' => Kind::Open,
        b')' => Kind::Close,
        b'=' | b'!' | b'<' | b'>' => Kind::Sign,
        b' ' | b'\t' | b'\n' | b'\r' => Kind::Blank,
        b'0'..=b'9' | b'A'..=b'Z' | b'a'..=b'z' | b'_' => Kind::Word,
        _ => Kind::Other,
    }
}

/// Whether a byte of a kind goes on with the token of a byte of another.
pub fn goes_on(before: Kind, behind: Kind) -> bool
    ensures { result ≡ spec.goes_on before behind }
{
    matches!(
        (before, behind),
        (Kind::Word, Kind::Word)
            | (Kind::Sign, Kind::Sign)
            | (Kind::Blank, Kind::Blank)
            | (Kind::Other, Kind::Other)
    )
}

/// Whether a token ends behind the byte of this place.
fn ends_behind(text: &[u8], place: usize) -> bool
    requires { place < length text.now }
    ensures { result ≡ spec.ends_behind text.now place }
{
    if place + 1 == text.len() {
        return true;
    }
    !goes_on(kind_of(text[place]), kind_of(text[place + 1]))
}

/// Puts the token from one place to another behind others, where it is no blank.
fn put_token(
    alloc: Global,
    tokens: &mut Vec<Token>,
    text: &[u8],
    begin: usize,
    end: usize,
) -> Result<(), AllocError>
    requires some { begin < end }
    requires within { end ≤ length text.now }
    ensures { OnOk result (tokens.new.items
        ≡ spec.with_token (spec.token_of text.now begin end) tokens.old.items) }
{
    let kind = kind_of(text[begin]);
    if kind == Kind::Blank {
        return Ok(());
    }
    let column = begin + 1;
    let text = Row::from_vec(text[begin..end].to_vec(alloc)?);
    tokens.push(Token { kind, text, column })?;
    Ok(())
}

/// Puts the token that began at a place behind others, where it ends behind the byte of another. Returns where the token
/// begins that has the next byte.
fn put_ended(
    alloc: Global,
    tokens: &mut Vec<Token>,
    text: &[u8],
    begin: usize,
    place: usize,
) -> Result<usize, AllocError>
    requires some { begin ≤ place }
    requires within { place < length text.now }
    ensures tokens { OnOk result (tokens.new.items
        ≡ (if spec.ends_behind text.now place
        then spec.with_token (spec.token_of text.now begin (place + 1)) tokens.old.items
        else tokens.old.items)) }
    ensures begin { IfOk result (λ next.
        next ≡ (if spec.ends_behind text.now place then place + 1 else begin)) }
    ensures low { IfOk result (λ next. next ≤ place + 1) }
{
    if !ends_behind(text, place) {
        return Ok(begin);
    }
    put_token(alloc, tokens, text, begin, place + 1)?;
    Ok(place + 1)
}

/// The tokens of a text, in order, without the blanks. The one error is want of memory.
pub fn tokens_of(alloc: Global, text: &[u8]) -> Result<Vec<Token>, AllocError>
    ensures { IfOk result (λ tokens.
        tokens.items ≡ spec.tokens_below text.now (length text.now)) }
{
    let mut tokens = Vec::new(alloc);
    let mut begin = 0;
    for place in 0..text.len() {
        begin = put_ended(alloc, &mut tokens, text, begin, place)?;
    }
    Ok(tokens)
}
