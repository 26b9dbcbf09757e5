//! What is wrong with a text that is no JSON.

use crate::meant::{hexadecimal, major_meant, status_meant};
use crate::nodes::Node;
use crate::tokens::{Kind, Token, cut};
use crate::words::{Finding, Piece, Remedy, Span};
use Piece::{Say, Show};
use serde_json::Value;
use std::alloc::Global;

/// What may come next.
#[derive(Clone, Copy, PartialEq, Eq)]
enum Wants {
    /// A value.
    Value,
    /// A value, or the end of the list.
    Item,
    /// A key.
    Key,
    /// A key, or the end of the object.
    Member,
    /// A colon behind a key.
    Colon,
    /// A comma, or the end of the list.
    ListMore,
    /// A comma, or the end of the object.
    ObjectMore,
    /// Nothing.
    Nothing,
}

impl Wants {
    /// What was expected, in words.
    fn words(self) -> &'static str {
        match self {
            Wants::Value => "a value was expected",
            Wants::Item => "a value or \"]\" was expected",
            Wants::Key => "a key in quotation marks was expected",
            Wants::Member => "a key in quotation marks, or \"}\", was expected",
            Wants::Colon => "\":\" was expected behind a key",
            Wants::ListMore => "\",\" or \"]\" was expected",
            Wants::ObjectMore => "\",\" or \"}\" was expected",
            Wants::Nothing => "nothing was expected behind the script",
        }
    }
}

/// What may come behind a value, in the innermost of what is open.
fn behind_value(opened: &[Kind]) -> Wants {
    match opened.last() {
        Some(Kind::List) => Wants::ListMore,
        Some(_) => Wants::ObjectMore,
        None => Wants::Nothing,
    }
}

/// What a token does that may stand where it stands.
#[derive(Clone, Copy)]
enum Effect {
    /// It opens a list or an object, in which this may come.
    Opens(Wants),
    /// It ends what is open.
    Closes,
    /// It is a value.
    Ends,
    /// This may come behind it.
    Goes(Wants),
}

/// What a token does here. None where it may not stand here.
fn effect_of(wants: Wants, kind: Kind) -> Option<Effect> {
    match (wants, kind) {
        (Wants::Value | Wants::Item, Kind::List) => Some(Effect::Opens(Wants::Item)),
        (Wants::Value | Wants::Item, Kind::Object) => Some(Effect::Opens(Wants::Member)),
        (Wants::Value | Wants::Item, Kind::Text | Kind::Word) => Some(Effect::Ends),
        (Wants::Item | Wants::ListMore, Kind::ListEnd) => Some(Effect::Closes),
        (Wants::Member | Wants::ObjectMore, Kind::ObjectEnd) => Some(Effect::Closes),
        (Wants::Key | Wants::Member, Kind::Text) => Some(Effect::Goes(Wants::Colon)),
        (Wants::Colon, Kind::Colon) => Some(Effect::Goes(Wants::Value)),
        (Wants::ListMore, Kind::Comma) => Some(Effect::Goes(Wants::Value)),
        (Wants::ObjectMore, Kind::Comma) => Some(Effect::Goes(Wants::Key)),
        _ => None,
    }
}

/// What may come behind this token. None where it may not stand there.
fn behind(found: &mut Finding, wants: Wants, opened: &mut Vec<Kind>, kind: Kind) -> Option<Wants> {
    match effect_of(wants, kind)? {
        Effect::Goes(next) => return Some(next),
        Effect::Opens(next) => {
            if opened.push(kind).is_err() {
                found.run_out();
            }
            return Some(next);
        }
        Effect::Closes => {
            let _ = opened.pop();
        }
        Effect::Ends => {}
    }
    Some(behind_value(opened.as_slice()))
}

/// Whether a text or a word by itself is JSON; it is, where memory runs out.
fn is_json(alloc: Global, found: &mut Finding, token: &[u8]) -> bool {
    match Value::from_slice(alloc, token) {
        Ok(_value) => true,
        Err(error) if error.is_memory() => {
            found.run_out();
            true
        }
        Err(_) => false,
    }
}

/// Whether a number begins with this byte, or what is meant as one.
fn begins_number(byte: &u8) -> bool {
    byte.is_ascii_digit() || *byte == b'-' || *byte == b'+'
}

/// Why a word or a text is no JSON, or nothing of that.
fn of_token(bytes: &[u8], kind: Kind) -> &'static str {
    match (kind, bytes.last()) {
        (Kind::Text, Some(b'"')) if bytes.len() > 1 => {
            "no JSON: an escape that isn't known, or bytes that are no UTF-8"
        }
        (Kind::Word, _) if bytes.first().is_some_and(begins_number) => "no number of JSON",
        (Kind::Text, _) => "a text that has no closing quotation mark in its line",
        _ => "no JSON",
    }
}

/// Words of other languages, each with what helps.
static OTHER_WORDS: &[(&str, &str)] = &[
    ("True", "Write true"),
    ("TRUE", "Write true"),
    ("False", "Write false"),
    ("FALSE", "Write false"),
    ("None", "Write null"),
    ("Null", "Write null"),
    ("NULL", "Write null"),
    ("nil", "Write null"),
    ("nullptr", "Write null"),
];

/// What helps against a word of another language. None for another word.
fn remedy_named(word: &[u8]) -> Option<&'static str> {
    for (name, remedy) in OTHER_WORDS {
        if name.as_bytes() == word {
            return Some(*remedy);
        }
    }
    None
}

/// What helps against a word that is no JSON.
fn word_remedy(word: &[u8]) -> Remedy {
    if let Some(number) = hexadecimal(word) {
        return Remedy::Number(number);
    }
    match (status_meant(word), major_meant(word)) {
        (Some((number, name)), _) | (None, Some((number, name))) => {
            return Remedy::Named(number, name);
        }
        (None, None) => {}
    }
    if let Some(remedy) = remedy_named(word) {
        return Remedy::Do(remedy);
    }
    match word.first() {
        Some(b'\'') => Remedy::Do("JSON has double quotation marks"),
        Some(b'/' | b'#') => Remedy::Do("JSON has no comments"),
        Some(0xEF) => Remedy::Do("Take out the byte-order mark"),
        Some(b'0') => Remedy::Do("A number has no leading zeros"),
        Some(b'+') => Remedy::Do("A number has no plus sign"),
        _ => Remedy::Unknown,
    }
}

/// What helps where this token may not stand.
fn mark_remedy(wants: Wants, kind: Kind, word: &[u8]) -> Remedy {
    match (wants, kind) {
        (_, Kind::Word) if word_remedy_is_known(word) => word_remedy(word),
        (Wants::Value, Kind::ListEnd) | (Wants::Key, Kind::ObjectEnd) => {
            Remedy::Do("Take out the comma before it")
        }
        (
            Wants::ListMore | Wants::ObjectMore,
            Kind::Text | Kind::Word | Kind::List | Kind::Object,
        ) => Remedy::Do("Put a comma before it"),
        (Wants::Key | Wants::Member, Kind::Word) => Remedy::Do("Put the key in quotation marks"),
        _ => Remedy::Unknown,
    }
}

/// Whether something helps against a word that is no JSON.
fn word_remedy_is_known(word: &[u8]) -> bool {
    !matches!(word_remedy(word), Remedy::Unknown)
}

/// From where to where a token stands in the text.
fn span_of(token: Token) -> Span {
    Span {
        start: token.start,
        end: token.end,
    }
}

/// A token may not stand here. It is false.
fn misplaced(found: &mut Finding, text: &[u8], token: Token, wants: Wants) -> bool {
    let bytes = cut(text, token.start, token.end);
    let shown = Show(span_of(token));
    found.wrong_at(
        token.start,
        &[Say("here is "), shown, Say("; "), Say(wants.words())],
    );
    found.remedy(mark_remedy(wants, token.kind, bytes))
}

/// A word or a text is no JSON. It is false.
fn misspelt(found: &mut Finding, text: &[u8], token: Token) -> bool {
    let bytes = cut(text, token.start, token.end);
    let (shown, why) = (Show(span_of(token)), of_token(bytes, token.kind));
    found.wrong_at(token.start, &[Say("here is "), shown, Say(", "), Say(why)]);
    found.remedy(word_remedy(bytes))
}

/// Whether each token of a text is JSON and may stand where it stands. These are open: none, at the beginning.
fn check_tokens(alloc: Global, found: &mut Finding, whole: Node, opened: &mut Vec<Kind>) -> bool {
    let text = whole.text;
    let mut wants = Wants::Value;
    for token in whole.tokens {
        let Some(next) = behind(found, wants, opened, token.kind) else {
            return misplaced(found, text, *token, wants);
        };
        let plain = matches!(token.kind, Kind::Text | Kind::Word);
        if plain && !is_json(alloc, found, cut(text, token.start, token.end)) {
            return misspelt(found, text, *token);
        }
        wants = next;
    }
    if wants == Wants::Nothing {
        return true;
    }
    let pieces = [Say("the text ends here; "), Say(wants.words())];
    found.wrong_at(text.len(), &pieces)
}

/// Says what is wrong with a text that is no JSON. Where each token is right, they nest too deep.
pub fn tell_no_json(alloc: Global, found: &mut Finding, whole: Node) {
    let mut opened = Vec::new(alloc);
    if check_tokens(alloc, found, whole, &mut opened) {
        let words = "this isn't JSON: lists and objects nest at most 127 deep";
        found.wrong_at(0, &[Say(words)]);
    }
}
