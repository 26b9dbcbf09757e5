//! What was meant by a word that isn't known.

ghost use Rattle.std.specs.Prelude.{IfSome};
ghost use Rattle.std.specs.List.{Contains};

use crate::tokens::cut;

/// How many bytes two words have in common at their beginnings.
fn common(given: &[u8], name: &[u8]) -> usize {
    for (place, byte) in given.iter().enumerate() {
        match name.get(place) {
            Some(other) if *other == *byte => {}
            _ => return place,
        }
    }
    given.len()
}

/// A word from this place on.
fn rest(word: &[u8], from: usize) -> &[u8] {
    cut(word, from.min(word.len()), word.len())
}

/// Whether a letter that is left out, put in or another leads from one word to the other, or nothing has to.
fn is_one_edit(given: &[u8], name: &[u8]) -> bool {
    let same = common(given, name);
    let (given, name) = (rest(given, same), rest(name, same));
    let (shorter, short) = (rest(given, 1), rest(name, 1));
    shorter == short || shorter == name || given == short
}

/// The same for one or two letters.
fn is_two_edits(given: &[u8], name: &[u8]) -> bool {
    let same = common(given, name);
    let (given, name) = (rest(given, same), rest(name, same));
    let (shorter, short) = (rest(given, 1), rest(name, 1));
    is_one_edit(shorter, short) || is_one_edit(shorter, name) || is_one_edit(given, short)
}

/// How many letters are left out, put in or others in a word that is meant as this name, where that is up to two, and
/// two only in a word of more than four.
pub fn edits(given: &[u8], name: &str) -> Option<u32> {
    let name = name.as_bytes();
    if given == name {
        Some(0)
    } else if is_one_edit(given, name) {
        Some(1)
    } else if given.len() > 4 && is_two_edits(given, name) {
        Some(2)
    } else {
        None
    }
}

/// The name that may be meant by a word: the first of those to which the fewest letters lead, left out, put in or
/// another. That may be one letter or, in a word of more than four, two. None where there is no such name (this
/// project's own rule).
pub fn nearest(given: &[u8], names: &[&'static str]) -> Option<&'static str>
    ensures { IfSome result (Contains names.now) }
{
    let mut least = 3;
    let mut meant = None;
    for name in names {
        if let Some(count) = edits(given, *name) {
            if count < least {
                least = count;
                meant = Some(*name);
            }
        }
    }
    meant
}
