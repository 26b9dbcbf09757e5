//! How words are written.

ghost use Rattle.std.specs.Prelude.{◌≡◌, option_copied, slice_index};
ghost use Rattle.std.specs.Char.{digit_value};
ghost use Rattle.irp_text_faults.specs.Spelling as spec;

use crate::tokens::cut;

/// The value of a digit, 10 and more of a letter; 36 of another byte.
fn digit_of(byte: u8) -> u8
    ensures { result ≡ digit_value byte }
{
    match byte {
        b'0'..=b'9' => byte - b'0',
        b'A'..=b'Z' => byte - b'A' + 10,
        b'a'..=b'z' => byte - b'a' + 10,
        _ => 36,
    }
}

/// The value of the digit at a place of a word.
fn digit_at(word: &[u8], place: usize) -> u8
    ensures { result ≡ digit_value (slice_index word.now place) }
{
    digit_of(word.get(place).copied().unwrap_or(0))
}

/// Whether a word begins with this letter written as `\u0061`.
fn begins_escaped(word: &[u8], letter: u8) -> bool
    ensures { result ≡ spec.begins_escaped word.now letter }
{
    word.len() > 5
        && cut(word, 0, 4) == b"\\u00".as_slice()
        && digit_at(word, 4) == letter / 16
        && digit_at(word, 5) == letter % 16
}

/// What stands in a word behind a letter of ASCII, with which it begins, as it stands or escaped.
fn behind_letter(word: &[u8], letter: u8) -> Option<&[u8]>
    ensures { option_copied result ≡ spec.behind_letter word.now letter }
{
    let (byte, rest) = word.split_first()?;
    if *byte == letter {
        Some(rest)
    } else if begins_escaped(word, letter) {
        rest.get(5..)
    } else {
        None
    }
}

/// Whether what is written says these letters of ASCII.
pub fn says(letters: &[u8], word: &[u8]) -> bool
    ensures { result ≡ spec.says letters.now word.now }
{
    match letters.split_first() {
        None => word.is_empty(),
        Some((letter, others)) => match behind_letter(word, *letter) {
            Some(rest) => says(others, rest),
            None => false,
        },
    }
}
