//! Lists by the form of their items. Source: this project's own format (docs/FORMATS.md).

ghost use Rattle.std.specs.Prelude.{Option};
ghost use Rattle.serde_json.specs.Data.{Data};
ghost use Rattle.serde_json.specs.View.{view};
ghost use Rattle.irp_forms.specs.Parts.{Gives, list_at};

use crate::from_value::FromValue;
use crate::unread::{Unread, form_of};
use irp_types::Row;
use serde_json::Value;
use std::alloc::Global;

/// What a JSON value may be the form of.
pub trait FromJson {
    /// What the value is the form of, or none.
    ghost at: { Data → Option Self };

    /// Reads it. `Unread::Form` comes only where the value has another form; `Unread::NoMemory` may come for any value.
    fn from_json(alloc: Global, value: &Value) -> Result<Self, Unread>
        ensures { Gives result (at (view value.now)) };
}

/// What the items of an array are the forms of, in order.
///
/// # Errors
///
/// `Unread::Form` only where the value is no array, or an item has another form; `Unread::NoMemory` where memory runs
/// out before such an item is met.
#[tactic(auto, unfolding(crate::specs::Parts::list_at))]
pub fn list_at<T: FromJson + Drop>(alloc: Global, value: &Value) -> Result<Row<T>, Unread>
    ensures { Gives result (list_at T.at (view value.now)) }
{
    let Some(items) = value.as_array() else {
        return Err(Unread::Form);
    };
    let mut list = Vec::new(alloc);
    for item in items {
        let read = T::from_json(alloc, item)?;
        if list.push(read).is_err() {
            return Err(Unread::NoMemory);
        }
    }
    Ok(Row::from_vec(list))
}

impl<T: FromJson + Drop> FromJson for Row<T> {
    ghost at = { list_at T.at };

    fn from_json(alloc: Global, value: &Value) -> Result<Self, Unread> {
        list_at(alloc, value)
    }
}

/// What the value is the form of. It takes no memory, and answers `Unread::Form` exactly where the value has another
/// form.
impl<T: FromValue> FromJson for T {
    ghost at = { T.form };

    fn from_json(_alloc: Global, value: &Value) -> Result<Self, Unread> {
        form_of(T::from_value(value))
    }
}
