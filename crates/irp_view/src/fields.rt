//! What closures are shown, field by field (docs/RULES.md, What each closure is shown).

ghost use Rattle.std.specs.Prelude.{◌≡◌, ◌+◌, ◌++◌, OnOk};
ghost use Rattle.std.specs.Fmt.{decimal};
ghost use Rattle.irp_names.specs.Small.{hex_text};
ghost use Rattle.irp_judge.specs.Differences.{place_of};
ghost use Rattle.irp_view.specs.Parts.{field_name};
ghost use Rattle.irp_view.specs.Questions.{bool_text, device_shown, field_text};

use irp_judge::ShownField;
use irp_names::{MajorWords, StatusWords};
use irp_types::{Asked, DeviceId, Shown};
use std::alloc::AllocError;

/// The name of a field.
pub fn field_name(field: ShownField) -> &'static str
    ensures { result.now ≡ field_name field }
{
    match field {
        ShownField::Device => "device",
        ShownField::Slot => "slot",
        ShownField::Use => "use number",
        ShownField::Major => "major",
        ShownField::Location => "location",
        ShownField::Word => "word",
        ShownField::Status => "status",
        ShownField::Information => "information",
        ShownField::PendingReturned => "PendingReturned",
        ShownField::Cancel => "cancel flag",
        ShownField::Context => "context",
        ShownField::HasLower => "has_lower",
    }
}

/// The place of a field in what a transcript's line shows, from 1.
pub fn field_place(field: ShownField) -> u32
    ensures { result ≡ place_of field + 1 }
{
    match field {
        ShownField::Device => 1,
        ShownField::Slot => 2,
        ShownField::Use => 3,
        ShownField::Major => 4,
        ShownField::Location => 5,
        ShownField::Word => 6,
        ShownField::Status => 7,
        ShownField::Information => 8,
        ShownField::PendingReturned => 9,
        ShownField::Cancel => 10,
        ShownField::Context => 11,
        ShownField::HasLower => 12,
    }
}

/// Puts a number in decimal. The one error is want of memory.
pub fn put_number(words: &mut String, number: u64) -> Result<(), AllocError>
    ensures { OnOk result (words.new.bytes.items ≡ words.old.bytes.items ++ decimal number) }
{
    write!(words, "{}", number)
}

/// Puts a number in hexadecimal. The one error is want of memory.
pub fn put_hex(words: &mut String, number: u64) -> Result<(), AllocError>
    ensures { OnOk result (words.new.bytes.items ≡ words.old.bytes.items ++ hex_text number) }
{
    write!(words, "0x{:x}", number)
}

/// Puts words and a number behind them. The one error is want of memory.
pub fn put_numbered(words: &mut String, lead: &str, number: u64) -> Result<(), AllocError>
    ensures { OnOk result
        (words.new.bytes.items ≡ words.old.bytes.items ++ (lead.now ++ decimal number)) }
{
    write!(words, "{}{}", lead, number)
}

/// Puts a device, or that there is none. The one error is want of memory.
pub fn put_device(words: &mut String, device: Option<DeviceId>) -> Result<(), AllocError>
    ensures { OnOk result (words.new.bytes.items ≡ words.old.bytes.items ++ device_shown device) }
{
    match device {
        Some(device) => put_numbered(words, "D", u64::from(device.0)),
        None => words.push_str("none"),
    }
}

/// Puts what was shown in a field. The one error is want of memory.
pub fn put_field(words: &mut String, field: ShownField, shown: Shown) -> Result<(), AllocError>
    ensures { OnOk result
        (words.new.bytes.items ≡ words.old.bytes.items ++ field_text field shown) }
{
    match field {
        ShownField::Device => put_device(words, shown.device),
        ShownField::Slot => put_number(words, shown.irp.slot as u64),
        ShownField::Use => put_number(words, shown.irp.use_no),
        ShownField::Major => write!(words, "{}", MajorWords(shown.major)),
        ShownField::Location => put_number(words, u64::from(shown.location)),
        ShownField::Word => put_hex(words, shown.word),
        ShownField::Status => write!(words, "{}", StatusWords(shown.status)),
        ShownField::Information => put_hex(words, shown.information),
        ShownField::PendingReturned => words.push_str(bool_text(shown.pending_returned)),
        ShownField::Cancel => words.push_str(bool_text(shown.cancel)),
        ShownField::Context => put_hex(words, shown.context),
        ShownField::HasLower => words.push_str(bool_text(shown.has_lower)),
    }
}

/// A truth value.
pub fn bool_text(value: bool) -> &'static str
    ensures { result.now ≡ bool_text value }
{
    if value { "true" } else { "false" }
}

/// What a dispatch is shown in a field.
fn shown_to_dispatch(field: ShownField) -> &'static str {
    match field {
        ShownField::Device => "its own",
        ShownField::Slot | ShownField::Use => "that of the packet",
        ShownField::Location => "the location entered",
        ShownField::Major | ShownField::Word => "that of its location",
        ShownField::Status | ShownField::Information => "the packet's",
        ShownField::PendingReturned => "false",
        ShownField::Cancel => "the packet's cancel flag",
        ShownField::Context => "0",
        ShownField::HasLower => "whether a device stands below",
    }
}

/// What a completion routine is shown in a field.
fn shown_to_completion(field: ShownField) -> &'static str {
    match field {
        ShownField::Device => "the device of the location above, none at the top",
        ShownField::Slot | ShownField::Use => "that of the packet",
        ShownField::Location => "the location whose routine it is",
        ShownField::Major | ShownField::Word => "that of its location",
        ShownField::Status | ShownField::Information => "the one in force",
        ShownField::PendingReturned => "PendingReturned, as just read at its location",
        ShownField::Cancel => "the packet's cancel flag",
        ShownField::Context => "the one set with the routine",
        ShownField::HasLower => "false",
    }
}

/// What a cancel routine is shown in a field.
fn shown_to_cancel(field: ShownField) -> &'static str {
    match field {
        ShownField::Device => "the owner",
        ShownField::Slot | ShownField::Use => "that of the packet",
        ShownField::Location => "the packet's current one",
        ShownField::Major | ShownField::Word => "that of the current location",
        ShownField::Status | ShownField::Information => "the packet's",
        ShownField::PendingReturned => "false",
        ShownField::Cancel => "true",
        ShownField::Context => "0",
        ShownField::HasLower => "false",
    }
}

/// Puts the rule of a field, for the closure that a question is put to. The one error is want of memory.
pub fn put_field_rule(
    words: &mut String,
    field: ShownField,
    question: Asked,
) -> Result<(), AllocError> {
    let (kind, rule) = match question {
        Asked::Dispatch { .. } => ("a dispatch", shown_to_dispatch(field)),
        Asked::Completion { .. } => ("a completion routine", shown_to_completion(field)),
        Asked::Cancel { .. } => ("a cancel routine", shown_to_cancel(field)),
    };
    write!(words, "{} of {}: {}", field_name(field), kind, rule)
}
