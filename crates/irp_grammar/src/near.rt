//! What may be meant by a word.

use crate::condition::answers;
use crate::names::{Names, named_as};
use crate::wanted::Wanted;
use irp_forms::{ActKind, Part};
use irp_names::{PlanKind, major_name, minor_at, rule_names, status_names};
use std::alloc::{AllocError, Global};
use strsim::levenshtein;

/// The words that begin a line above the sections, or a section.
static HEADINGS: &[&str] = &[
    "form",
    "seats",
    "locks",
    "slots",
    "completions",
    "cancels",
    "dispatches",
    "drivers",
    "setup",
    "steps",
];

/// The words that may stand where this was expected, and whether a heading may.
fn words_at(wanted: Wanted) -> (&'static [&'static str], bool) {
    match wanted {
        Wanted::Heading => (&[], true),
        Wanted::Rule => (rule_names(), true),
        Wanted::Of(Part::Routine) => (rule_names(), false),
        Wanted::Behaviour => (&["continue", "keep", "replace"], false),
        Wanted::CancelAnswer => (&["finish", "leave"], true),
        Wanted::Plan => (&[], true),
        Wanted::Of(Part::Party) => (&["originator"], false),
        Wanted::Of(Part::CancelOrNull) => (&["none"], false),
        Wanted::Act => (&["seat", "stack", "if"], true),
        Wanted::Is => (&["is"], false),
        Wanted::Answer => (&["routine", "not"], false),
        Wanted::StackLock => (&["lock"], false),
        _ => (&[], false),
    }
}

/// The name with this number, from 0, of those that may stand where this was expected: of a status, of a function code,
/// of a step, of a plan or of a key.
fn name_at(wanted: Wanted, number: u8) -> Option<&'static str> {
    let place = usize::from(number);
    match wanted {
        Wanted::Of(Part::Status) => Some(status_names().get(place)?.1),
        Wanted::Of(Part::Major) => major_name(number),
        Wanted::Of(Part::Word) => minor_at(place),
        Wanted::Act => Some(ActKind::at(place)?.word()),
        Wanted::Plan => Some(PlanKind::at(place)?.word()),
        Wanted::Answer => answer_at(place),
        Wanted::Key(act) => Some(act.keys().get(place)?.0),
        _ => None,
    }
}

/// The word with this number, from 0, of those of answers: those that have no value, and statuses.
fn answer_at(place: usize) -> Option<&'static str> {
    if let Some((word, _)) = answers().get(place) {
        return Some(*word);
    }
    let place = place.saturating_sub(answers().len());
    Some(status_names().get(place)?.1)
}

/// Appends the names that may stand where this was expected.
fn add_names(found: &mut Vec<&str>, wanted: Wanted) -> Result<(), AllocError> {
    for number in 0..=u8::MAX {
        match name_at(wanted, number) {
            Some(name) => found.push(name)?,
            None => return Ok(()),
        }
    }
    Ok(())
}

/// Appends the names of such a part that a text gave.
fn add_given<'a>(
    found: &mut Vec<&'a str>,
    part: Part,
    names: &Names<'a>,
) -> Result<(), AllocError> {
    for name in names.names() {
        if name.part == part {
            found.push(name.text)?;
        }
    }
    Ok(())
}

/// What may stand where this was expected.
fn known<'a>(alloc: Global, wanted: Wanted, names: &Names<'a>) -> Result<Vec<&'a str>, AllocError> {
    let mut found = Vec::new(alloc);
    add_names(&mut found, wanted)?;
    let (words, headings) = words_at(wanted);
    found.extend_from_slice(words)?;
    if headings {
        found.extend_from_slice(HEADINGS)?;
    }
    if let Wanted::Of(part) = wanted {
        add_given(&mut found, named_as(part), names)?;
    }
    Ok(found)
}

/// How many letters are left out, put in or others in a word that is meant as another; none where the case alone
/// differs.
fn edits(alloc: Global, given: &str, word: &str) -> Result<usize, AllocError> {
    if given.eq_ignore_ascii_case(word) {
        Ok(0)
    } else {
        levenshtein(alloc, given, word)
    }
}

/// The first of the nearest words, where that is nearer than so many edits; none where no word is so near. The word
/// itself isn't meant.
fn nearest<'a>(
    alloc: Global,
    given: &str,
    words: &[&'a str],
    limit: usize,
) -> Result<Option<&'a str>, AllocError> {
    let mut least = limit;
    let mut found = None;
    for word in words {
        if given != *word {
            let edits = edits(alloc, given, *word)?;
            if edits < least {
                least = edits;
                found = Some(*word);
            }
        }
    }
    Ok(found)
}

/// What may be meant by a word in a place where something was expected: what differs from it in a third of its letters
/// at most; none where nothing is so near.
pub fn hint<'a>(
    alloc: Global,
    given: &str,
    wanted: Wanted,
    names: &Names<'a>,
) -> Result<Option<&'a str>, AllocError> {
    if given.len() > 64 {
        return Ok(None);
    }
    let words = known(alloc, wanted, names)?;
    nearest(alloc, given, words.as_slice(), given.len() / 3 + 1)
}
