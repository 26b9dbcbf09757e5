//! Misfits of a script, in words.

use crate::meant::{meant, meant_act, meant_key, meant_kind};
use crate::nodes::Node;
use crate::part::{Key, Part, Shape};
use crate::parts::{shape_of, told_of};
use crate::search::{Bounds, Misfit, Search, What};
use crate::words::{Finding, Piece, Remedy};
use Piece::{Keys, Number, Quoted, Say, Show};

/// A value isn't what a part may be. It is told by its key; in a list, and in an answer, by what it is.
fn tell_value(found: &mut Finding, node: Node, part: Part) {
    let (shown, words) = told_of(part);
    match node.key() {
        Some(key) if !matches!(part, Part::AnswerStatus | Part::AnswerRoutine) => {
            let pieces = [
                Show(key.span()),
                Say(" is "),
                Show(node.span()),
                Say("; "),
                Say(words),
            ];
            found.wrong(node, &pieces)
        }
        _ => found.not_taken(shown, node, words),
    };
    found.remedy(meant(node, part));
}

/// A list hasn't as many items as it should have, or a value is no list.
fn tell_count(found: &mut Finding, node: Node, words: &'static str) {
    match node.count() {
        Some(there) => {
            let items = if there == 1 { " item; " } else { " items; " };
            let length = Number(there as u64);
            found.wrong(node, &[Say("this has "), length, Say(items), Say(words)]);
        }
        None => {
            found.not_taken("this", node, words);
        }
    }
}

/// What an object is that a fault names.
fn noun(part: Part, noun: &'static str) -> Piece {
    match shape_of(part) {
        Shape::Act => Quoted(noun),
        _ => Say(noun),
    }
}

/// A key is missing in an object.
fn tell_missing(found: &mut Finding, node: Node, key: &'static str, noun: Piece, keys: Piece) {
    let words = Say("\" is missing; ");
    let pieces = [
        Say("the key \""),
        Say(key),
        words,
        noun,
        Say(" has the keys "),
        keys,
    ];
    found.wrong(node, &pieces);
}

/// A key isn't known in an object, which is this and has these keys.
fn tell_unknown(found: &mut Finding, node: Node, key: Node, noun: Piece, keys: &'static [Key]) {
    let which = Say(", which has the keys ");
    let pieces = [
        Show(key.span()),
        Say(" is no key of "),
        noun,
        which,
        Keys(keys),
    ];
    found.wrong(key, &pieces);
    found.remedy(meant_key(node, key, keys));
}

/// A word names no step, or is no text.
fn tell_step(found: &mut Finding, word: Node) {
    match word.word() {
        Some(text) => {
            found.not_taken("\"do\"", word, "there is no such step");
            found.remedy(meant_act(text));
        }
        None => {
            let words = "it names what the step does, in quotation marks";
            found.not_taken("\"do\"", word, words);
        }
    }
}

/// A value is none of the kinds of its part: its first item, where the kinds are lists alone.
fn tell_kind(found: &mut Finding, node: Node, part: Part) {
    let (shown, words) = told_of(part);
    match node.nth(0) {
        _ if matches!(part, Part::Behaviour | Part::Answer) => {
            found.not_taken(shown, node, words);
            found.remedy(meant_kind(node, part, false));
        }
        Some(first) => {
            found.not_taken(shown, first, words);
            found.remedy(meant_kind(first, part, true));
        }
        None => {
            found.not_taken("this", node, words);
        }
    }
}

/// Form 1 hasn't a step or a plan.
fn tell_form_one(found: &mut Finding, node: Node, part: Part) {
    match shape_of(part) {
        Shape::Act => {
            found.not_taken("\"do\"", node, "form 1 doesn't have this step");
            found.remedy(Remedy::Do("Write \"form\":2 and the number of \"slots\""));
        }
        _ => {
            let words = "a script of form 1 doesn't have it";
            found.not_taken(told_of(part).0, node, words);
        }
    }
}

/// The list `setup` hasn't a step.
fn tell_setup(found: &mut Finding, node: Node) {
    let words = "it is on a remove lock or a cancel slot, which \"setup\" hasn't";
    found.not_taken("\"do\"", node, words);
    found.remedy(Remedy::Do("Put it into \"steps\""));
}

/// Says what isn't as it should be. What only a header has doesn't come.
fn tell(found: &mut Finding, misfit: Misfit) {
    let Misfit { node, part, what } = misfit;
    match what {
        What::Told | What::NoObject(..) | What::NoStep => tell_value(found, node, part),
        What::Count => tell_count(found, node, told_of(part).1),
        What::NotAs(_, words) => tell_count(found, node, words),
        What::Missing(key, name, keys) => tell_missing(
            found,
            node,
            key,
            noun(part, name),
            Keys(keys),
        ),
        What::MissingWord => {
            let keys = Say("seat, do and those of what it does");
            tell_missing(found, node, "do", Say("a step"), keys)
        }
        What::Unknown(key, name, keys) => tell_unknown(found, node, key, noun(part, name), keys),
        What::Other => match shape_of(part) {
            Shape::Act => tell_step(found, node),
            _ => tell_kind(found, node, part),
        },
        What::FormOneHasNo(_) => tell_form_one(found, node, part),
        _ => tell_setup(found, node),
    }
}

/// Whether a value is as such a part of a script should be. Else it is said what isn't.
pub fn check_part(found: &mut Finding, bounds: Bounds, node: Node, part: Part) -> bool {
    let mut search = Search::new(found.alloc(), bounds);
    search.look_through(node, part);
    if search.ran_out {
        found.run_out();
    }
    match search.misfit {
        Some(misfit) => {
            tell(found, misfit);
            false
        }
        None => true,
    }
}
