//! What closures were asked, what they were shown and what they answered. Source: this project's own format
//! (docs/FORMATS.md).

ghost use Rattle.std.specs.Prelude.{◌≡◌};
ghost use Rattle.irp_forms.specs.Questions as spec;

use crate::from_value::{FromValue, nth, under};
use crate::parts::{has_keys, of_items};
use irp_types::{Answer, Asked, IrpRef, Shown};
use serde_json::Value;

/// Whether a completion routine whose answer has this name keeps the packet or continues.
#[tactic(auto, unfolding(crate::specs::Questions::keep_named))]
pub fn keep_named(name: &str) -> Option<bool>
    ensures { result ≡ spec.keep_named name.now }
{
    match name {
        "keep" => Some(true),
        "continue" => Some(false),
        _ => None,
    }
}

/// A completion routine's answer: its name, the mark, and the replacement or null.
impl FromValue for Answer {
    ghost form = { spec.answer_at };

    #[tactic(auto, unfolding(crate::specs::Questions::answer_at))]
    fn from_value(value: &Value) -> Option<Self> {
        of_items(value, 3)?;
        let keep = keep_named(value.get(0).and_then(Value::as_str)?)?;
        Some(Answer {
            keep,
            mark: nth(1, value)?,
            replacement: nth(2, value)?,
        })
    }
}

/// What a closure is shown, of twelve items.
impl FromValue for Shown {
    ghost form = { spec.shown_at };

    #[tactic(auto, unfolding(crate::specs::Questions::shown_at))]
    fn from_value(value: &Value) -> Option<Self> {
        of_items(value, 12)?;
        Some(Shown {
            device: nth(0, value)?,
            irp: IrpRef {
                slot: nth::<u32>(1, value)? as usize,
                use_no: nth(2, value)?,
            },
            major: nth(3, value)?,
            location: nth(4, value)?,
            word: nth(5, value)?,
            status: nth(6, value)?,
            information: nth(7, value)?,
            pending_returned: nth(8, value)?,
            cancel: nth(9, value)?,
            context: nth(10, value)?,
            has_lower: nth(11, value)?,
        })
    }
}

/// A question, by the keys that it has.
impl FromValue for Asked {
    ghost form = { spec.asked_at };

    #[tactic(auto, unfolding(crate::specs::Questions::asked_at))]
    fn from_value(value: &Value) -> Option<Self> {
        if has_keys(value, &["dispatch", "plan", "shown"]) {
            let id = under("dispatch", value)?;
            let shown = under("shown", value)?;
            let plan = under("plan", value)?;
            Some(Asked::Dispatch { id, shown, plan })
        } else if has_keys(value, &["answer", "completion", "shown"]) {
            let id = under("completion", value)?;
            let shown = under("shown", value)?;
            let answer = under("answer", value)?;
            Some(Asked::Completion { id, shown, answer })
        } else if has_keys(value, &["answer", "cancel", "shown"]) {
            let id = under("cancel", value)?;
            let shown = under("shown", value)?;
            let answer = under("answer", value)?;
            Some(Asked::Cancel { id, shown, answer })
        } else {
            None
        }
    }
}
