//! What is wrong with a step. Source: this project's own format (docs/FORMATS.md).

use crate::around::Around;
use crate::fits::MOST;
use crate::nodes::Node;
use crate::part::Part;
use crate::parts::told_of;
use crate::script_words::check_part;
use crate::words::{Finding, Piece, Remedy, there_are};
use Piece::{Number, Say, Show};

/// A condition names a step of another seat. It is false.
fn of_other_seat(found: &mut Finding, named: Node, number: u64, seat: Node) -> bool {
    found.wrong(
        named,
        &[
            Say("step "),
            Number(number),
            Say(" isn't of this step's seat, "),
            Show(seat.span()),
        ],
    )
}

/// Whether a condition, whose form is right, names an earlier step of the same seat.
fn check_earlier(found: &mut Finding, around: Around, step: Node, condition: Node) -> bool {
    let (Some(named), Some(list)) = (condition.nth(1), around.whole.get("steps")) else {
        return true;
    };
    let number = named.number().unwrap_or(MOST);
    let earlier = match usize::try_from(number) {
        Ok(place) => list.nth(place),
        Err(_) => None,
    };
    match (earlier, step.get("seat")) {
        (Some(earlier), Some(seat)) if earlier.at < step.at => {
            let other = earlier.get("seat").unwrap_or(earlier);
            other.number() == seat.number() || of_other_seat(found, named, number, seat)
        }
        (Some(_), None) => true,
        _ => {
            let (shown, words) = told_of(Part::EarlierStep);
            found.not_taken(shown, named, words)
        }
    }
}

/// Whether what a step hangs on is right, where it hangs on anything.
fn check_condition(found: &mut Finding, around: Around, in_setup: bool, step: Node) -> bool {
    let Some(condition) = step.get("if") else {
        return true;
    };
    if around.form != 4 {
        found.not_taken("\"if\"", condition, "only form 4 has steps with this key");
        return found.remedy(Remedy::Do("Write \"form\":4 and the number of \"slots\""));
    }
    if in_setup {
        let words = "steps of \"setup\" haven't this key";
        return found.not_taken("\"if\"", condition, words);
    }
    check_part(found, around.bounds(in_setup), condition, Part::Condition)
        && check_earlier(found, around, step, condition)
}

/// Whether the seat of this number is there, where there is a number.
fn check_seat(found: &mut Finding, around: Around, seat: Option<Node>) -> bool {
    let Some(seat) = seat else {
        return true;
    };
    match seat.number() {
        Some(number) if number >= around.seats => {
            there_are(found, seat, "seat", number, around.seats)
        }
        _ => true,
    }
}

/// Whether a reference may be handed to whom it is.
fn check_hand(found: &mut Finding, around: Around, node: Node) -> bool {
    let Some(to) = node.get("to") else {
        return true;
    };
    if !check_seat(found, around, Some(to)) {
        return false;
    }
    let seat = node.get("seat").unwrap_or(node);
    seat.number() != to.number() || found.not_taken("\"to\"", to, "that is the step's own seat")
}

/// A slot belongs to another seat than this one, the step's. It is false.
fn of_another(found: &mut Finding, slot: Node, number: u64, owner: u64, seat: Node) -> bool {
    found.wrong(
        slot,
        &[
            Say("cancel slot "),
            Number(number),
            Say(" belongs to seat "),
            Number(owner),
            Say(" (the slot modulo \"seats\"); this step is of seat "),
            Show(seat.span()),
        ],
    )
}

/// Whether the slot of a publish or a withdraw is there, and its seat's own.
fn check_slot(found: &mut Finding, around: Around, node: Node) -> bool {
    let (Some(slot), Some(seat)) = (node.get("slot"), node.get("seat")) else {
        return true;
    };
    let number = slot.number().unwrap_or(0);
    if number >= around.slots {
        return there_are(found, slot, "cancel slot", number, around.slots);
    }
    let owner = number.checked_rem(around.seats).unwrap_or(0);
    seat.number() == Some(owner) || of_another(found, slot, number, owner, seat)
}

/// Whether a step is right.
pub fn check_step(found: &mut Finding, around: Around, in_setup: bool, node: Node) -> bool {
    let is_right = check_part(found, around.bounds(in_setup), node, Part::ScriptStep)
        && check_condition(found, around, in_setup, node)
        && check_seat(found, around, node.get("seat"));
    match node.get("do") {
        Some(word) if is_right && word.is_word("hand") => check_hand(found, around, node),
        Some(word) if is_right && (word.is_word("publish") || word.is_word("withdraw")) => {
            check_slot(found, around, node)
        }
        _ => is_right,
    }
}
