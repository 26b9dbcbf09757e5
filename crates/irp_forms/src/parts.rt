//! Which items and keys there are.

ghost use Rattle.std.specs.Prelude.{◌≡◌, ◌++◌};
ghost use Rattle.serde_json.specs.View.{view};
ghost use Rattle.irp_forms.specs.Parts as spec;
ghost use Rattle.irp_forms.specs.Parts.{keys_in};

use serde_json::Value;

/// Whether it is an array of so many items.
pub fn has_items(value: &Value, count: usize) -> bool
    ensures { result ≡ spec.has_items count (view value.now) }
{
    match value {
        Value::Array(items) => items.len() == count,
        _ => false,
    }
}

/// How many members an object has, or 0.
pub fn count_members(value: &Value) -> usize
    ensures { result ≡ spec.count_members (view value.now) }
{
    match value {
        Value::Object(members) => members.len(),
        _ => 0,
    }
}

/// Whether each of these keys is there.
pub fn has_each(value: &Value, keys: &[&str]) -> bool
    ensures { result ≡ spec.each_key (keys_in keys.now) (view value.now) }
{
    for key in keys {
        if value.get(*key).is_none() {
            return false;
        }
    }
    true
}

/// Whether it has as many members as there are keys, and each key: where the keys differ, an object with exactly these
/// keys.
#[tactic(auto, unfolding(crate::specs::Parts::has_keys))]
pub fn has_keys(value: &Value, keys: &[&str]) -> bool
    ensures { result ≡ spec.has_keys (keys_in keys.now) (view value.now) }
{
    count_members(value) == keys.len() && has_each(value, keys)
}

/// Some where it is an object with exactly these keys and those beside them, which differ; else none.
pub fn only_keys(value: &Value, keys: &[&str], beside: &[&str]) -> Option<()>
    ensures { result ≡ spec.only_keys (keys_in keys.now ++ keys_in beside.now) (view value.now) }
{
    let there = count_members(value) == keys.len() + beside.len()
        && has_each(value, keys)
        && has_each(value, beside);
    there.then_some(())
}

/// Some where it is an array of so many items; else none.
pub fn of_items(value: &Value, count: usize) -> Option<()>
    ensures { result ≡ spec.of_items count (view value.now) }
{
    has_items(value, count).then_some(())
}
