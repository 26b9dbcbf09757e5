//! What calls were answered.

ghost use Rattle.std.specs.Prelude.{◌≡◌};
ghost use Rattle.serde_json.specs.View.{view};
ghost use Rattle.irp_transcript_reader.specs.Replies as spec;

use irp_forms::{FromValue, has_keys, nth, of_items, under};
use irp_types::{Owner, Reply, Seen};
use serde_json::Value;

/// An owner: `"o"` for the originator, `"ended"`, or the device's number.
#[tactic(auto, unfolding(crate::specs::Replies::owner_at))]
fn owner_at(value: &Value) -> Option<Owner>
    ensures { result ≡ spec.owner_at (view value.now) }
{
    match value {
        Value::String(name) => match name.as_str() {
            "o" => Some(Owner::Originator),
            "ended" => Some(Owner::Ended),
            _ => None,
        },
        _ => Some(Owner::Device(FromValue::from_value(value)?)),
    }
}

/// What Look shows of a packet, of eight items.
#[tactic(auto, unfolding(crate::specs::Replies::seen_at))]
fn seen_at(value: &Value) -> Option<Seen>
    ensures { result ≡ spec.seen_at (view value.now) }
{
    of_items(value, 8)?;
    Some(Seen {
        owner: owner_at(value.get(0)?)?,
        current: nth(1, value)?,
        status: nth(2, value)?,
        information: nth(3, value)?,
        cancel: nth(4, value)?,
        cancel_routine: nth(5, value)?,
        pending_returned: nth(6, value)?,
        marked: nth(7, value)?,
    })
}

/// A reply that has a value, which stands under its name.
#[tactic(auto, unfolding(crate::specs::Replies::valued_reply_at))]
fn valued_reply_at(value: &Value) -> Option<Reply>
    ensures { result ≡ spec.valued_reply_at (view value.now) }
{
    if has_keys(value, &["device"]) {
        Some(Reply::Device(under("device", value)?))
    } else if has_keys(value, &["irp"]) {
        Some(Reply::Irp(under("irp", value)?))
    } else if has_keys(value, &["previous"]) {
        Some(Reply::Previous(under("previous", value)?))
    } else if has_keys(value, &["status"]) {
        Some(Reply::Status(under("status", value)?))
    } else if has_keys(value, &["cancelled"]) {
        Some(Reply::Cancelled(under("cancelled", value)?))
    } else if has_keys(value, &["seen"]) {
        Some(Reply::Seen(seen_at(value.get("seen")?)?))
    } else if has_keys(value, &["refused"]) {
        Some(Reply::Refused(under("refused", value)?))
    } else {
        None
    }
}

/// A reply: its name, or its one value under its name.
#[tactic(auto, unfolding(crate::specs::Replies::reply_at))]
pub fn reply_at(value: &Value) -> Option<Reply>
    ensures { result ≡ spec.reply_at (view value.now) }
{
    match value {
        Value::String(name) => (name.as_str() == "done").then_some(Reply::Done),
        _ => valued_reply_at(value),
    }
}
