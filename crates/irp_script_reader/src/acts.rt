//! What a step does, by its keys.

ghost use Rattle.std.specs.Prelude.{◌≡◌};
ghost use Rattle.serde_json.specs.View.{view};
ghost use Rattle.irp_forms.specs.Parts.{keys_in};
ghost use Rattle.irp_script_reader.specs.Acts as spec;

use crate::act::{Named, Step, StepAct};
use crate::condition::Condition;
use crate::labels::{is_label, packet_in};
use irp_forms::{ActKind, FromValue, Told, call_of, hand_of, lock_act_of, told_at, under};
use irp_types::Call;
use serde_json::Value;

/// The keys that stand beside those of an act: `do`, `seat`, and `if` where it is there.
fn beside(value: &Value) -> &'static [&'static str]
    ensures { keys_in result.now ≡ spec.beside (view value.now) }
{
    if value.get("if").is_some() {
        &["do", "if", "seat"]
    } else {
        &["do", "seat"]
    }
}

/// A new packet of this size, where the step names it by a label, and this is the label's place.
fn allocate_at(size: u8, place: usize, value: &Value) -> Option<StepAct>
    ensures { result ≡ spec.allocate_at size place (view value.now) }
{
    let label = value.get("as").and_then(Value::as_str)?;
    is_label(label).then_some(StepAct::Allocate { size, label: place })
}

/// What a step does that makes a call or an act on a remove lock, by what stands under its keys.
fn shared_act_of(kind: ActKind, told: &[Told<Named>]) -> Option<StepAct>
    ensures { result ≡ spec.shared_act_of kind told.now }
{
    match lock_act_of(kind, told) {
        Some(on) => Some(StepAct::OnLock(on)),
        None => call_of(kind, told).map(StepAct::Call),
    }
}

/// What a step does, by what stands under its keys, where a label that it names has this place.
fn step_act_of(kind: ActKind, told: &[Told<Named>], place: usize, value: &Value) -> Option<StepAct>
    ensures { result ≡ spec.step_act_of kind told.now place (view value.now) }
{
    match (kind, told) {
        (ActKind::Allocate, &[Told::Byte(size), Told::Other]) => allocate_at(size, place, value),
        (ActKind::Allocate, _) => None,
        (ActKind::Hand, _) => hand_of(told).map(StepAct::Hand),
        (ActKind::Publish, &[Told::Number(slot), Told::Packet(irp)]) => {
            Some(StepAct::Publish { slot, irp })
        }
        (ActKind::Withdraw, &[Told::Number(slot)]) => Some(StepAct::Withdraw { slot }),
        (ActKind::Request, &[Told::Number(slot)]) => Some(StepAct::Request { slot }),
        (
            ActKind::FinishTaken,
            &[
                Told::Packet(irp),
                Told::Number(token),
                Told::Status(status),
                Told::Long(information),
            ],
        ) => Some(StepAct::Call(Call::FinishTaken {
            irp,
            token,
            status,
            information,
        })),
        _ => shared_act_of(kind, told),
    }
}

/// What a step does, where a label that it names has this place.
#[tactic(auto, unfolding(crate::specs::Acts::act_at))]
fn act_at(place: usize, value: &Value) -> Option<StepAct>
    ensures { result ≡ spec.act_at place (view value.now) }
{
    let kind = ActKind::named(value.get("do").and_then(Value::as_str)?)?;
    let told = told_at(kind.keys(), beside(value), packet_in(place, value), value)?;
    step_act_of(kind, told.as_slice(), place, value)
}

/// The condition of a step, or none where it has no such key. None of both where it has another form.
fn hanging_at(value: &Value) -> Option<Option<Condition>>
    ensures { result ≡ spec.hanging_at (view value.now) }
{
    match value.get("if") {
        Some(form) => Some(Some(Condition::from_value(form)?)),
        None => Some(None),
    }
}

/// A step, where a label that it names has this place (this project's own format, docs/FORMATS.md).
#[tactic(auto, unfolding(crate::specs::Acts::step_at))]
pub fn step_at(place: usize, value: &Value) -> Option<Step>
    ensures { result ≡ spec.step_at place (view value.now) }
{
    let act = act_at(place, value)?;
    let seat = under("seat", value)?;
    let condition = hanging_at(value)?;
    Some(Step {
        seat,
        act,
        condition,
    })
}
