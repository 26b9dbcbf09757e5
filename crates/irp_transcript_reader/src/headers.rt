//! Headers.

ghost use Rattle.std.specs.Prelude.{◌≡◌};
ghost use Rattle.serde_json.specs.View.{view};
ghost use Rattle.irp_forms.specs.Parts.{Gives, keys_in};
ghost use Rattle.irp_transcript_reader.specs.Lines as spec;

use irp_forms::{FromJson, Unread, completions_at, form_of, list_at, only_keys, under};
use irp_transcript::{Form, Header};
use irp_types::limits::MOST_ROUTINES;
use irp_types::{Known, Row};
use serde_json::Value;
use std::alloc::Global;

/// The list under a key.
///
/// # Errors
///
/// `Unread::Form` where there is no such key, or no list of these forms; `Unread::NoMemory` where memory runs out.
pub fn list_under<T: FromJson + Drop>(
    alloc: Global,
    key: &str,
    value: &Value,
) -> Result<Row<T>, Unread>
    ensures { Gives result (spec.list_under T.at key.now (view value.now)) }
{
    list_at(alloc, form_of(value.get(key))?)
}

/// Some where it is an object with exactly the keys of both forms and those beside them; else none.
fn header_keys_at(beside: &[&str], value: &Value) -> Option<()>
    ensures { result ≡ spec.header_keys_at (keys_in beside.now) (view value.now) }
{
    let keys = &[
        "cancels",
        "completions",
        "dispatches",
        "drivers",
        "form",
        "locks",
        "seats",
    ];
    only_keys(value, keys, beside)
}

/// A header's form, by its number and its keys; form 2 has its cancel slots.
#[tactic(auto, unfolding(crate::specs::Lines::header_form_at))]
fn header_form_at(value: &Value) -> Option<Form>
    ensures { result ≡ spec.header_form_at (view value.now) }
{
    match under::<u32>("form", value)? {
        1 => header_keys_at(&[], value).map(|_| Form::One),
        2 => {
            header_keys_at(&["slots"], value)?;
            let slots = under("slots", value)?;
            Some(Form::Two { slots })
        }
        _ => None,
    }
}

/// A header, which counts its cancel routines by their list. Whether the formats accept it is not asked.
///
/// # Errors
///
/// `Unread::Form` where the value is no header; `Unread::NoMemory` where memory runs out.
#[tactic(auto, unfolding(crate::specs::Lines::header_at))]
pub fn header_at(alloc: Global, value: &Value) -> Result<Header, Unread>
    ensures { Gives result (spec.header_at (view value.now)) }
{
    let form = form_of(header_form_at(value))?;
    let completions = form_of(value.get("completions").and_then(|it| completions_at(it)))?;
    let cancels = list_under(alloc, "cancels", value)?;
    let cancel = cancels.as_slice().len();
    if cancel > MOST_ROUTINES as usize {
        return Err(Unread::Form);
    }
    Ok(Header {
        cancels,
        completions: Known {
            cancel: cancel as u32,
            ..completions
        },
        dispatches: list_under(alloc, "dispatches", value)?,
        drivers: list_under(alloc, "drivers", value)?,
        form,
        locks: form_of(under("locks", value))?,
        seats: form_of(under("seats", value))?,
    })
}
