//! Small values, and where they stand. Source: this project's own format (docs/FORMATS.md).

ghost use Rattle.std.specs.Prelude.{◌≡◌, Option};
ghost use Rattle.serde_json.specs.Data.{Data};
ghost use Rattle.serde_json.specs.Find.{as_bool};
ghost use Rattle.serde_json.specs.View.{view};
ghost use Rattle.irp_forms.specs.Fields.{field, nth};
ghost use Rattle.irp_forms.specs.Parts.{or_null_at, u32_at, u64_at, u8_at};

use serde_json::Value;

/// What a JSON value may be the form of, where reading it takes no memory.
pub trait FromValue: Sized {
    /// What the value is the form of, or none.
    ghost form: { Data → Option Self };

    /// Reads it. None exactly where the value has another form.
    fn from_value(value: &Value) -> Option<Self>
        ensures { result ≡ form (view value.now) };
}

/// What stands under a key; none where there is no such key, or another form.
pub fn under<T: FromValue>(key: &str, value: &Value) -> Option<T>
    ensures { result ≡ field key.now T.form (view value.now) }
{
    T::from_value(value.get(key)?)
}

/// What an item of an array is, by its place from 0; none where there is no such item, or another form.
pub fn nth<T: FromValue>(place: usize, value: &Value) -> Option<T>
    ensures { result ≡ nth place T.form (view value.now) }
{
    T::from_value(value.get(place)?)
}

/// The whole number from 0 to 255. None for anything else, also a number with a fraction or an exponent.
impl FromValue for u8 {
    ghost form = { u8_at };

    #[tactic(auto, unfolding(crate::specs::Parts::u8_at, crate::specs::Parts::number_at))]
    fn from_value(value: &Value) -> Option<Self> {
        u8::try_from(value.as_u64()?).ok()
    }
}

/// The whole number below 2^32. None for anything else, also a number with a fraction or an exponent.
impl FromValue for u32 {
    ghost form = { u32_at };

    #[tactic(auto, unfolding(crate::specs::Parts::u32_at, crate::specs::Parts::number_at))]
    fn from_value(value: &Value) -> Option<Self> {
        u32::try_from(value.as_u64()?).ok()
    }
}

/// The whole number below 2^64. None for anything else, also a number with a fraction or an exponent.
impl FromValue for u64 {
    ghost form = { u64_at };

    #[tactic(auto, unfolding(crate::specs::Parts::u64_at, crate::specs::Parts::number_at))]
    fn from_value(value: &Value) -> Option<Self> {
        value.as_u64()
    }
}

impl FromValue for bool {
    ghost form = { as_bool };

    fn from_value(value: &Value) -> Option<Self> {
        value.as_bool()
    }
}

/// The value, or null, which is read as `Some(None)`.
impl<T: FromValue> FromValue for Option<T> {
    ghost form = { or_null_at T.form };

    fn from_value(value: &Value) -> Option<Option<T>> {
        match value {
            Value::Null => Some(None),
            _ => Some(Some(T::from_value(value)?)),
        }
    }
}
