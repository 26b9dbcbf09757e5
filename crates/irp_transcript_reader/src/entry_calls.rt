//! Entries' calls.

ghost use Rattle.std.specs.Prelude.{◌≡◌, ◌≤◌, length};
ghost use Rattle.serde_json.specs.View.{view};
ghost use Rattle.irp_forms.specs.Steps.{keys_named};
ghost use Rattle.irp_transcript_reader.specs.Calls as spec;

use irp_forms::{ActKey, ActKind, Part, Told, call_of, told_at, under};
use irp_types::{Call, IrpRef, LockNo};
use serde_json::Value;

/// An entry's call, with the lock of the entry and whether that was known to be drained, which only a delete tells.
#[derive(Clone, Copy)]
pub struct EntryCall {
    pub call: Call,
    pub lock: Option<LockNo>,
    pub drained: bool,
}

/// The keys of an act in an entry, but for `do` and for what only a delete has: those of a step, but for two acts.
fn entry_keys(act: ActKind) -> &'static [ActKey]
    ensures keys { keys_named result.now ≡ spec.entry_keys act }
    ensures few { length result.now ≤ 4 }
{
    match act {
        ActKind::Allocate => &[("size", Part::Size)],
        ActKind::FinishTaken => &[
            ("irp", Part::Packet),
            ("token", Part::Token),
            ("status", Part::Status),
            ("information", Part::Information),
        ],
        _ => act.keys(),
    }
}

/// The call that an act is, by what stands under its keys in an entry.
fn entry_call_of(act: ActKind, told: &[Told<IrpRef>]) -> Option<Call>
    ensures { result ≡ spec.entry_call_of act told.now }
{
    match (act, told) {
        (
            ActKind::FinishTaken,
            &[
                Told::Packet(irp),
                Told::Long(token),
                Told::Status(status),
                Told::Long(information),
            ],
        ) => Some(Call::FinishTaken {
            irp,
            token,
            status,
            information,
        }),
        _ => call_of(act, told),
    }
}

/// An entry's call, by the name under `do`: a delete with the entry's lock, or null, and whether that was known to be
/// drained.
#[tactic(auto, unfolding(crate::specs::Calls::entry_call_at))]
pub fn entry_call_at(value: &Value) -> Option<EntryCall>
    ensures { result ≡ spec.entry_call_at (view value.now) }
{
    let act = ActKind::named(value.get("do").and_then(Value::as_str)?)?;
    let is_delete = act == ActKind::Delete;
    let beside: &[&str] = if is_delete {
        &["do", "drained", "lock"]
    } else {
        &["do"]
    };
    let told = told_at(entry_keys(act), beside, under("irp", value), value)?;
    let call = entry_call_of(act, told.as_slice())?;
    let (lock, drained) = if is_delete {
        (under("lock", value)?, under("drained", value)?)
    } else {
        (None, false)
    };
    Some(EntryCall {
        call,
        lock,
        drained,
    })
}
