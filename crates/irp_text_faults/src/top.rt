//! What is wrong with the keys of a script and with its numbers. Source: this project's own format (docs/FORMATS.md).

ghost use Rattle.std.specs.Prelude.{◌≡◌};
ghost use Rattle.irp_text_faults.specs.Keys.{key_of};

use crate::around::Around;
use crate::nodes::{Node, number_of};
use crate::part::Part;
use crate::script_words::check_part;
use crate::tokens::Kind;
use crate::words::{Finding, Piece, Remedy};
use Piece::{Number, Say, Show};
use irp_script_reader::Section;

/// A text is too long. It is false.
pub fn too_long(found: &mut Finding, text: &[u8]) -> bool {
    let length = Number(text.len() as u64);
    let pieces = [
        Say("the text has "),
        length,
        Say(" bytes; a script has at most 1048576"),
    ];
    found.wrong_at(1_048_576, &pieces)
}

/// Says what is wrong with a script's form. It is false.
pub fn tell_form(found: &mut Finding, whole: Node) -> bool {
    if whole.kind() != Kind::Object {
        return found.not_taken("this", whole, "a script is an object, {\"form\":1, ..}");
    }
    let Some(form) = whole.get("form") else {
        let words =
            "the key \"form\" is missing; it is 1, 2 for a script with cancel slots, or 4 for steps with \"if\"";
        return found.wrong(whole, &[Say(words)]);
    };
    found.not_taken("\"form\"", form, "it is the number 1, 2 or 4");
    match form.raw() {
        b"\"1\"" | b"1.0" => found.remedy(Remedy::Number(1)),
        b"\"2\"" | b"2.0" => found.remedy(Remedy::Number(2)),
        b"\"4\"" | b"4.0" => found.remedy(Remedy::Number(4)),
        _ => false,
    }
}

/// Whether the keys of a script are right.
pub fn check_top(found: &mut Finding, around: Around) -> bool {
    let part = match around.form {
        2 => Part::ScriptTwo,
        4 => Part::ScriptFour,
        _ => Part::ScriptOne,
    };
    match around.whole.get("slots") {
        Some(slots) if around.form == 1 => {
            found.wrong(slots, &[Say("\"slots\" is no key of form 1")]);
            found.remedy(Remedy::Do("Write \"form\":2"))
        }
        _ => check_part(found, around.bounds(false), around.whole, part),
    }
}

/// The key of a section, which has a number or a list.
pub fn key_of(section: Section) -> &'static str
    ensures { result.now ≡ key_of section }
{
    match section {
        Section::Top => "",
        Section::Seats => "seats",
        Section::Locks => "locks",
        Section::Slots => "slots",
        Section::Completions => "completions",
        Section::Cancels => "cancels",
        Section::Dispatches => "dispatches",
        Section::Drivers => "drivers",
        Section::Setup => "setup",
        Section::Steps => "steps",
    }
}

/// Says what is wrong with the number of seats, locks or slots. It is false.
pub fn tell_count(found: &mut Finding, around: Around, section: Section) -> bool {
    let key = key_of(section);
    let value = around.whole.get(key).unwrap_or(around.whole);
    let words = match section {
        Section::Slots => "\" is a number from 0 to 64; here it is ",
        _ => "\" is a number from 1 to 64; here it is ",
    };
    found.wrong(
        value,
        &[Say("\""), Say(key), Say(words), Show(value.span())],
    );
    match number_of(value.word().unwrap_or(&[])) {
        Some(number) if number <= 64 => found.remedy(Remedy::Number(number)),
        _ => false,
    }
}

/// A section is no list. It is false.
pub fn no_list(found: &mut Finding, around: Around, section: Section) -> bool {
    let key = key_of(section);
    let value = around.whole.get(key).unwrap_or(around.whole);
    let words = Say("\" is a list; here it is ");
    found.wrong(value, &[Say("\""), Say(key), words, Show(value.span())])
}
