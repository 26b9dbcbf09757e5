//! Misfits of a transcript's line, in words.

use crate::acts::acts_of;
use crate::kinds::{has_kind, kinds};
use crate::nodes::Node;
use crate::part::{Body, Part, Shape};
use crate::parts::{noun_of, shape_of};
use crate::search::{Bounds, Misfit, What};
use crate::tokens::Kind;
use crate::words::{Finding, Piece};
use Piece::{Keys, Letter, Number, Quoted, Say};
use irp_forms::{ActKind, StepPlace};
use serde_json::Value;

/// Puts what a part may be, behind its noun.
fn put_shape(found: &mut Finding, bounds: Bounds, part: Part) {
    match shape_of(part) {
        Shape::Short => found.put(" is a number below 4294967296"),
        Shape::Long => found.put(" is a number below 18446744073709551616"),
        Shape::Truth => found.put(" is true or false"),
        Shape::Within(least, most) => found.say(&[
            Say(" is a number from "),
            Number(least),
            Say(" to "),
            Number(most),
        ]),
        Shape::Seat => found.say(&[
            Say(" is a number below "),
            Number(u64::from(bounds.seats)),
            Say(", the header's seats"),
        ]),
        _ => {}
    }
}

/// Puts what a part is, with what it may be.
fn put_part(found: &mut Finding, bounds: Bounds, part: Part) {
    match shape_of(part) {
        Shape::OrNull(inner) => {
            found.put(noun_of(inner));
            put_shape(found, bounds, inner);
            found.put(", or null");
        }
        _ => {
            found.put(noun_of(part));
            put_shape(found, bounds, part);
        }
    }
}

/// Whether a step's word stands behind that of another one in the order of bytes; it does where there is no other.
fn is_behind(other: Option<ActKind>, act: ActKind) -> bool {
    match other {
        None => true,
        Some(other) => other.word() < act.word(),
    }
}

/// The step of such a part, of form 1 or of both, whose word comes next behind that of this one in the order of bytes.
fn next_step(part: Part, two: bool, last: Option<ActKind>) -> Option<ActKind> {
    let mut found = None;
    for form in acts_of(part) {
        let is_there = !form.keys.is_empty() && (two || form.act.place() != StepPlace::FormTwo);
        let is_first = match found {
            None => true,
            Some(_) => !is_behind(found, form.act),
        };
        if is_there && is_first && is_behind(last, form.act) {
            found = Some(form.act);
        }
    }
    found
}

/// Puts the words of the steps of such a part, of form 1 or of both, in the order of bytes, with commas.
fn put_steps(found: &mut Finding, part: Part, two: bool) {
    let mut last = None;
    for _ in acts_of(part) {
        let Some(act) = next_step(part, two, last) else {
            return;
        };
        found.put(if last.is_none() { "" } else { ", " });
        found.put(act.word());
        last = Some(act);
    }
}

/// Puts the kinds of a part that are texts, of form 1 or of both, with commas, before those that are objects.
fn put_texts(found: &mut Finding, part: Part, two: bool) {
    let mut behind = "";
    for kind in kinds() {
        if has_kind(part, *kind) && (two || !kind.two) && matches!(kind.body, Body::Text) {
            found.say(&[
                Say(if behind.is_empty() { "" } else { ", " }),
                Quoted(kind.name),
            ]);
            behind = " or ";
        }
    }
    found.put(behind);
}

/// Puts the kinds of a part that are objects or lists, of form 1 or of both, with commas.
fn put_kinds(found: &mut Finding, part: Part, two: bool) {
    let mut between = "";
    for kind in kinds() {
        let told = match kind.body {
            Body::Keys(_) => kind.name,
            Body::Items(_, line, _) => line,
            Body::Text => "",
        };
        if has_kind(part, *kind) && (two || !kind.two) && !told.is_empty() {
            found.say(&[Say(between), Say(told)]);
            between = ", ";
        }
    }
}

/// Puts what a part may be that is none of its kinds, or no step.
fn put_others(found: &mut Finding, bounds: Bounds, part: Part) {
    found.say(&[Say(noun_of(part)), Say(" is ")]);
    match shape_of(part) {
        Shape::Act => {
            found.put("one of ");
            put_steps(found, part, bounds.two);
        }
        Shape::Kinds(object) if object.is_empty() => {
            found.put("one of ");
            put_kinds(found, part, bounds.two);
        }
        _ => {
            put_texts(found, part, bounds.two);
            found.put("an object with one of the keys ");
            put_kinds(found, part, bounds.two);
        }
    }
}

/// Puts what a line may be, or a header where its tables don't agree.
fn put_whole(found: &mut Finding, what: What) {
    match what {
        What::TooManyNamed(most) => {
            let words = "a dispatch may name no more routines than there are: ";
            found.say(&[Say(words), Number(most)])
        }
        What::NotRising => found.put("a driver's majors rise"),
        What::NoDispatch(dispatches) => {
            let words = "a driver names a dispatch that the header has: a number below ";
            found.say(&[Say(words), Number(dispatches)])
        }
        _ => found.put(
            "a line is an entry, with the keys asked, call, n, reply, seat, or \
             a word line, with the keys do, reply, seat, step and those of its step",
        ),
    }
}

/// Puts what isn't as it should be.
fn put_what(found: &mut Finding, bounds: Bounds, part: Part, what: What) {
    const MISSING: Piece = Say("this key is missing; ");
    let noun = Say(noun_of(part));
    match what {
        What::Told | What::Count => put_part(found, bounds, part),
        What::NoObject(noun, keys) => found.say(&[
            Say(noun),
            Say(" is an object with"),
            the_keys(keys.len()),
            Keys(keys),
        ]),
        What::Missing(_, noun, keys) => found.say(&[
            MISSING,
            Say(noun),
            Say(" has"),
            the_keys(keys.len()),
            Keys(keys),
        ]),
        What::Unknown(_, noun, keys) => {
            let words = Say("there is no such key; ");
            found.say(&[
                words,
                Say(noun),
                Say(" has"),
                the_keys(keys.len()),
                Keys(keys),
            ])
        }
        What::NoStep => found.say(&[noun, Say(" is an object with the key do")]),
        What::MissingWord => found.say(&[MISSING, noun, Say(" has its name there")]),
        What::Other => put_others(found, bounds, part),
        What::NotAs(line, _) => found.say(&[Say("with this name "), noun, Say(" is "), Say(line)]),
        What::FormOneHasNo(name) => found.say(&[Say("form 1 has no "), Say(name)]),
        other => put_whole(found, other),
    }
}

/// What stands before so many keys.
fn the_keys(count: usize) -> Piece {
    Say(if count == 1 {
        " the key "
    } else {
        " the keys "
    })
}

/// As many characters of a key as are told.
const MOST_TOLD: usize = 60;

/// Puts a key of a line, with no character that a terminal might obey.
fn put_key(found: &mut Finding, key: Node) {
    let Ok(name) = Value::from_slice(found.alloc(), key.raw()) else {
        found.run_out();
        return;
    };
    found.put("\"");
    for letter in name.as_str().unwrap_or("").chars().take(MOST_TOLD) {
        found.say(&[Letter(letter)]);
    }
    found.put("\"");
}

/// Puts which part of a line a value is, behind a comma; nothing for the whole line.
fn put_path(found: &mut Finding, line: Node, value: Node) {
    let mut here = line;
    for depth in 0..line.tokens.len() {
        let Some((place, item)) = here.child_with(value.at) else {
            return;
        };
        if here.kind() == Kind::Object {
            found.put(if depth == 0 { ", " } else { "." });
            put_key(found, item);
            here = item.value();
        } else {
            found.say(&[Say("["), Number(place as u64), Say("]")]);
            here = item;
        }
    }
}

/// Puts a key that is missing in an object of a line.
fn put_missing(found: &mut Finding, line: Node, object: Node, key: &'static str) {
    found.put(if object.at == line.at { ", " } else { "." });
    found.say(&[Quoted(key)]);
}

/// Puts which part of a line isn't as it should be, and what it may be.
pub fn put_misfit(found: &mut Finding, bounds: Bounds, line: Node, misfit: Misfit) {
    let Misfit { node, part, what } = misfit;
    let value = match what {
        What::Unknown(key, ..) => key.value(),
        _ => node,
    };
    found.wrong(value, &[]);
    put_path(found, line, value);
    match what {
        What::Missing(key, ..) => put_missing(found, line, node, key),
        What::MissingWord => put_missing(found, line, node, "do"),
        _ => {}
    }
    found.put(": ");
    put_what(found, bounds, part, what);
}
