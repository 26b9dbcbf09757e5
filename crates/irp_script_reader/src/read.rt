//! Scripts from their texts.

ghost use Rattle.std.specs.Prelude.{◌≡◌, IfOk};
ghost use Rattle.serde_json.specs.View.{view};
ghost use Rattle.irp_script_reader.specs.Scripts as spec;
ghost use Rattle.irp_script_reader.specs.Sound.{IsSound};
ghost use Rattle.irp_script_reader.specs.Taking.{Tells};

use crate::act::Step;
use crate::labels::Labels;
use crate::lists::{Cancels, Completions, Dispatches, Drivers, Steps};
use crate::refusal::{MemberFault, ScriptFault, ScriptRefusal, Section};
use crate::script::{CompletionRoutine, Script, ScriptForm, ScriptParts};
use crate::taking::{list_at, refused};
use irp_forms::{only_keys, under};
use irp_types::{Known, Plan, Row};
use serde_json::Value;
use std::alloc::Global;

/// The most bytes of a script's text.
const MOST_BYTES: usize = 1_048_576;

/// What a script has under `form`, before the rest of it is read.
#[derive(Clone, Copy)]
enum FormKey {
    /// The number 1.
    One,
    /// The number 2.
    Two,
    /// The number 4.
    Four,
}

/// The form of a script.
#[tactic(auto, unfolding(crate::specs::Scripts::form_at))]
fn form_at(value: &Value) -> Result<FormKey, ScriptFault>
    ensures { Tells result (spec.form_at (view value.now)) }
{
    match under::<u32>("form", value) {
        Some(1) => Ok(FormKey::One),
        Some(2) => Ok(FormKey::Two),
        Some(4) => Ok(FormKey::Four),
        _ => Err(ScriptFault::Refused(ScriptRefusal::BadForm)),
    }
}

/// The keys of a script of this form, and no others.
#[tactic(auto, unfolding(crate::specs::Scripts::keys_at))]
fn keys_at(given: FormKey, value: &Value) -> Result<(), ScriptFault>
    ensures { Tells result (spec.keys_at given (view value.now)) }
{
    let keys = &[
        "cancels",
        "completions",
        "dispatches",
        "drivers",
        "form",
        "locks",
        "seats",
        "setup",
        "steps",
    ];
    let fault = refused(MemberFault::BadField, Section::Top, 0);
    match given {
        FormKey::One => only_keys(value, keys, &[]).ok_or(fault),
        FormKey::Two => only_keys(value, keys, &["slots"]).ok_or(fault),
        FormKey::Four => only_keys(value, keys, &["slots"]).ok_or(fault),
    }
}

/// The number under a key, from the least one to 64.
#[tactic(auto, unfolding(crate::specs::Scripts::count_at))]
fn count_at(section: Section, least: u32, key: &str, value: &Value) -> Result<u32, ScriptFault>
    ensures { Tells result (spec.count_at section least key.now (view value.now)) }
{
    match under::<u32>(key, value) {
        Some(count) if count >= least && count <= 64 => Ok(count),
        _ => Err(refused(MemberFault::BadField, section, 0)),
    }
}

/// The form, with the number of cancel slots where it has these.
#[tactic(auto, unfolding(crate::specs::Scripts::with_slots))]
fn with_slots(given: FormKey, value: &Value) -> Result<ScriptForm, ScriptFault>
    ensures { Tells result (spec.with_slots given (view value.now)) }
{
    match given {
        FormKey::One => Ok(ScriptForm::One),
        FormKey::Two => {
            let slots = count_at(Section::Slots, 0, "slots", value)?;
            Ok(ScriptForm::Two { slots })
        }
        FormKey::Four => {
            let slots = count_at(Section::Slots, 0, "slots", value)?;
            Ok(ScriptForm::Four { slots })
        }
    }
}

/// The completion routines, and the cancel routines, which are counted beside them.
#[tactic(auto, unfolding(crate::specs::Scripts::routines_at, crate::specs::Taking::list_at))]
fn routines_at(
    alloc: Global,
    value: &Value,
) -> Result<(Row<CompletionRoutine>, Cancels), ScriptFault>
    ensures { Tells result (spec.routines_at (view value.now)) }
{
    let empty = Completions {
        routines: Row::from_vec(Vec::new(alloc)),
        counts: Known::NONE,
    };
    let completions = list_at(alloc, Section::Completions, "completions", empty, value)?;
    let Completions { routines, counts } = completions;
    let empty = Cancels {
        answers: Row::from_vec(Vec::new(alloc)),
        counts,
    };
    let cancels = list_at(alloc, Section::Cancels, "cancels", empty, value)?;
    Ok((routines, cancels))
}

/// The plans of the dispatches in a script of this form, who may name so many routines, and the tables of the drivers,
/// who may name so many dispatches.
#[tactic(auto, unfolding(crate::specs::Scripts::tables_at))]
fn tables_at(
    alloc: Global,
    form: ScriptForm,
    known: Known,
    value: &Value,
) -> Result<(Row<Plan>, Drivers), ScriptFault>
    ensures { Tells result (spec.tables_at form known (view value.now)) }
{
    let empty = Dispatches {
        form,
        known,
        plans: Row::from_vec(Vec::new(alloc)),
    };
    let dispatches = list_at(alloc, Section::Dispatches, "dispatches", empty, value)?;
    let empty = Drivers {
        dispatches: dispatches.plans.as_slice().len(),
        tables: Row::from_vec(Vec::new(alloc)),
    };
    let drivers = list_at(alloc, Section::Drivers, "drivers", empty, value)?;
    Ok((dispatches.plans, drivers))
}

/// The steps of `setup` and those of `steps`, in a script of this form with so many seats.
#[tactic(auto, unfolding(crate::specs::Scripts::steps_at))]
fn steps_at(
    alloc: Global,
    form: ScriptForm,
    seats: u32,
    value: &Value,
) -> Result<(Row<Step>, Steps), ScriptFault>
    ensures { Tells result (spec.steps_at form seats (view value.now)) }
{
    let empty = Steps {
        form,
        seats,
        in_setup: true,
        labels: Labels::new(alloc),
        steps: Row::from_vec(Vec::new(alloc)),
    };
    let setup = list_at(alloc, Section::Setup, "setup", empty, value)?;
    let Steps { labels, steps, .. } = setup;
    let empty = Steps {
        form,
        seats,
        in_setup: false,
        labels,
        steps: Row::from_vec(Vec::new(alloc)),
    };
    let others = list_at(alloc, Section::Steps, "steps", empty, value)?;
    Ok((steps, others))
}

/// What the script says that a JSON value is.
#[tactic(auto, unfolding(crate::specs::Scripts::script_at))]
fn script_at(alloc: Global, value: &Value) -> Result<ScriptParts, ScriptFault>
    ensures { Tells result (spec.script_at (view value.now)) }
{
    let given = form_at(value)?;
    keys_at(given, value)?;
    let seats = count_at(Section::Seats, 1, "seats", value)?;
    let locks = count_at(Section::Locks, 1, "locks", value)?;
    let form = with_slots(given, value)?;
    let (completions, cancels) = routines_at(alloc, value)?;
    let (dispatches, drivers) = tables_at(alloc, form, cancels.counts, value)?;
    let (setup, steps) = steps_at(alloc, form, seats, value)?;
    Ok(ScriptParts {
        form,
        seats,
        locks,
        completions,
        cancels: cancels.answers,
        dispatches,
        drivers: drivers.tables,
        setup,
        labels: steps.labels,
        steps: steps.steps,
    })
}

/// Reads the script that a text is (this project's own format, docs/FORMATS.md).
///
/// # Errors
///
/// `Refused` with the first fault, in this order: the text is longer than 1,048,576 bytes; `serde_json` reads no value
/// from it; the value is no object, or its `form` isn't known; a key is missing or unknown (form 1 has no `slots`);
/// then the faults of `seats`, `locks`, `slots`, `completions`, `cancels`, `dispatches`, `drivers`, `setup` and
/// `steps`, in a list by place. `NoMemory` where memory runs out: never for an empty text, or for one that is too long.
#[tactic(auto, using(crate::proofs::Sounds::told_sound, crate::proofs::Sounds::told_reads))]
pub fn read_script(alloc: Global, bytes: &[u8]) -> Result<Script, ScriptFault>
    ensures reads { spec.ReadsScript result bytes.now }
    ensures sound { IfOk result IsSound }
{
    if bytes.len() > MOST_BYTES {
        return Err(ScriptFault::Refused(ScriptRefusal::TooLong));
    }
    match Value::from_slice(alloc, bytes) {
        Ok(value) => Ok(Script::new(script_at(alloc, &value)?)),
        Err(error) if error.is_memory() => Err(ScriptFault::NoMemory),
        Err(_) => Err(ScriptFault::Refused(ScriptRefusal::NotJson)),
    }
}
