//! Word lines.

ghost use Rattle.std.specs.Prelude.{◌≡◌, ◌≤◌, length};
ghost use Rattle.serde_json.specs.View.{view};
ghost use Rattle.irp_forms.specs.Steps.{keys_named};
ghost use Rattle.irp_transcript_reader.specs.WordLines as spec;

use irp_forms::{ActKey, ActKind, Part, Told, hand_of, has_keys, lock_act_of, told_at, under};
use irp_transcript::{Act, WordLine, WordReply};
use irp_types::{IrpRef, SlotAct};
use serde_json::Value;

/// A step's answer by its name: those of remove locks, then those of cancel slots.
#[tactic(auto, unfolding(crate::specs::WordLines::word_reply_named))]
fn word_reply_named(name: &str) -> Option<WordReply>
    ensures { result ≡ spec.word_reply_named name.now }
{
    match name {
        "ok" => Some(WordReply::Done),
        "seat_full" => Some(WordReply::SeatFull),
        "not_held" => Some(WordReply::NotHeld),
        "already_removing" => Some(WordReply::AlreadyRemoving),
        "no_lock" => Some(WordReply::NoLock),
        "yes" => Some(WordReply::Yes),
        "standing" => Some(WordReply::Standing),
        "lost" => Some(WordReply::Lost),
        "nothing" => Some(WordReply::Nothing),
        "used" => Some(WordReply::Used),
        "not_standing" => Some(WordReply::NotStanding),
        "no_slot" => Some(WordReply::NoSlot),
        "no_token" => Some(WordReply::NoToken),
        _ => None,
    }
}

/// A step's answer that has a value, which stands under its name; that of an acquire is a status.
#[tactic(auto, unfolding(crate::specs::WordLines::valued_reply_at))]
fn valued_reply_at(value: &Value) -> Option<WordReply>
    ensures { result ≡ spec.valued_reply_at (view value.now) }
{
    if has_keys(value, &["status"]) {
        match under::<u32>("status", value)? {
            0 => Some(WordReply::Acquired),
            0xc0000056 => Some(WordReply::DeletePending),
            _ => None,
        }
    } else if has_keys(value, &["busy"]) {
        let word = under("busy", value)?;
        Some(WordReply::Busy { word })
    } else if has_keys(value, &["taken"]) {
        let use_no = under("taken", value)?;
        Some(WordReply::Taken { use_no })
    } else {
        None
    }
}

/// What a step was answered: its name, or its one value under its name.
#[tactic(auto, unfolding(crate::specs::WordLines::word_reply_at))]
fn word_reply_at(value: &Value) -> Option<WordReply>
    ensures { result ≡ spec.word_reply_at (view value.now) }
{
    match value {
        Value::String(name) => word_reply_named(name.as_str()),
        _ => valued_reply_at(value),
    }
}

/// The keys of an act in a word line, but for those that every word line has: those in a script, but for two acts.
fn line_keys(kind: ActKind) -> &'static [ActKey]
    ensures keys { keys_named result.now ≡ spec.line_keys kind }
    ensures few { length result.now ≤ 4 }
{
    match kind {
        ActKind::Publish | ActKind::FinishTaken => &[("slot", Part::Slot)],
        _ => kind.keys(),
    }
}

/// The cancel slot that stands alone under the keys of an act.
fn slot_of(told: &[Told<IrpRef>]) -> Option<u32>
    ensures { result ≡ spec.slot_of told.now }
{
    match told {
        &[Told::Number(slot)] => Some(slot),
        _ => None,
    }
}

/// What a step did, by what stands under its keys in a word line.
#[tactic(auto, unfolding(crate::specs::WordLines::act_of))]
fn act_of(kind: ActKind, told: &[Told<IrpRef>]) -> Option<Act>
    ensures { result ≡ spec.act_of kind told.now }
{
    match kind {
        ActKind::Hand => hand_of(told).map(Act::Hand),
        ActKind::Publish => slot_of(told).map(|slot| Act::OnSlot(SlotAct::Publish { slot })),
        ActKind::Withdraw => slot_of(told).map(|slot| Act::OnSlot(SlotAct::Withdraw { slot })),
        ActKind::Request => slot_of(told).map(|slot| Act::OnSlot(SlotAct::Request { slot })),
        ActKind::FinishTaken => slot_of(told).map(|slot| Act::FinishTaken { slot }),
        _ => lock_act_of(kind, told).map(Act::OnLock),
    }
}

/// What a step did, by the name under `do`.
#[tactic(auto, unfolding(crate::specs::WordLines::act_at))]
fn act_at(value: &Value) -> Option<Act>
    ensures { result ≡ spec.act_at (view value.now) }
{
    let kind = ActKind::named(value.get("do").and_then(Value::as_str)?)?;
    let told = told_at(
        line_keys(kind),
        &["do", "reply", "seat", "step"],
        None,
        value,
    )?;
    act_of(kind, told.as_slice())
}

/// A word line: what the step did, what it was answered, its seat and its place.
#[tactic(auto, unfolding(crate::specs::WordLines::word_line_at))]
pub fn word_line_at(value: &Value) -> Option<WordLine>
    ensures { result ≡ spec.word_line_at (view value.now) }
{
    Some(WordLine {
        act: act_at(value)?,
        reply: word_reply_at(value.get("reply")?)?,
        seat: under("seat", value)?,
        step: under("step", value)?,
    })
}
