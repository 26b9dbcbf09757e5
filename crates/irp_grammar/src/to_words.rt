//! A script of JSON, written in words. What writes a word writes a blank before it.

ghost use Rattle.std.specs.Prelude.{IfErr, IfOk, Ok};
ghost use Rattle.irp_script_reader.specs.Scripts.{ReadsScript};
ghost use Rattle.irp_script_reader.specs.declared.script.Script.{Script};
ghost use Rattle.irp_grammar.specs.Saying.{IsUnread};

use crate::condition::answer_word;
use crate::members::{count_of, with_one};
use crate::names::named_as;
use crate::step_line::{PlanLine, StepLine, Value, line_of, plan_line};
use crate::to_json::letters;
use irp_forms::{HasName, Part};
use irp_names::{Sink, major_name, minor_name, status_name};
use irp_script_reader::{
    Behaviour, CompletionRoutine, Condition, ExpectedAnswer, Named, ScriptFault, ScriptForm,
    ScriptParts, Step, read_script,
};
use irp_types::{CancelAnswer, CancelId, DispatchId, Known, Plan, Row, Setting, Status};
use std::alloc::Global;

/// Writes a number: below ten as decimal digits, else hexadecimal.
fn put_number(text: &mut Sink, number: u64) {
    text.put(" ");
    if number < 10 {
        text.number(number);
    } else {
        text.hexadecimal(number);
    }
}

/// Writes words, and a number in decimal.
fn put_numbered(text: &mut Sink, words: &str, number: u64) {
    text.put(words);
    text.number(number);
}

/// Writes a word.
fn put_word(text: &mut Sink, word: &str) {
    text.put(" ");
    text.put(word);
}

/// Writes a status by its name, or by its number.
fn put_status(text: &mut Sink, status: Status) {
    match status_name(status) {
        Some(name) => put_word(text, name),
        None => {
            text.put(" ");
            text.hexadecimal(u64::from(status.0));
        }
    }
}

/// Writes a major function code by its name, or by its number.
fn put_major(text: &mut Sink, major: u8) {
    match major_name(major) {
        Some(name) => put_word(text, name),
        None => put_numbered(text, " ", u64::from(major)),
    }
}

/// Writes a setting. Its routine is given by a made-up name, such as watch_0, or by rule and number where the script
/// lacks it.
fn put_setting(text: &mut Sink, setting: Setting, known: Known) {
    let (rule, no) = (setting.routine.rule, setting.routine.no);
    let join = if no < known.count_of(rule) { "_" } else { " " };
    put_word(text, rule.name());
    put_numbered(text, join, u64::from(no));
    put_number(text, setting.context);
    match letters(setting) {
        "" => text.put(" -"),
        letters => put_word(text, letters),
    }
}

/// Writes a cancel routine by its made-up name, or by its number where the script lacks it.
fn put_cancel_id(text: &mut Sink, id: CancelId, known: Known) {
    let name = if id.0 < known.cancel { " cancel_" } else { " " };
    put_numbered(text, name, u64::from(id.0));
}

/// Writes a status and information.
fn put_result(text: &mut Sink, status: Status, information: u64) {
    put_status(text, status);
    put_number(text, information);
}

/// Writes a behaviour.
fn put_behaviour(text: &mut Sink, behaviour: Behaviour) {
    match behaviour {
        Behaviour::Continue => text.put(" continue"),
        Behaviour::Keep => text.put(" keep"),
        Behaviour::Replace(put) => {
            text.put(" replace");
            put_result(text, put.status, put.information);
        }
    }
}

/// What a text names: its labels, and how many there are of the rest.
#[derive(Clone, Copy)]
struct Around<'b> {
    labels: &'b [String],
    known: Known,
    drivers: u64,
}

/// Writes a packet by its label, or by its reference.
fn put_packet(text: &mut Sink, packet: Named, labels: &[String]) {
    match packet {
        Named::Label(place) => match labels.get(place) {
            Some(label) => put_word(text, label.as_str()),
            None => put_word(text, ""),
        },
        Named::Irp(irp) => {
            put_numbered(text, " ", irp.slot as u64);
            put_numbered(text, ".", irp.use_no);
        }
    }
}

/// The name in Windows of a number that is such a part; behind a major function code that of a minor one.
fn name_of(part: Part, before: Value, number: u64) -> Option<&'static str> {
    match (part, before) {
        (Part::Status, _) => status_name(Status(u32::try_from(number).ok()?)),
        (Part::Major, _) => major_name(u8::try_from(number).ok()?),
        (Part::Word, Value::Number(major)) => minor_name(u8::try_from(major).ok()?, number),
        _ => None,
    }
}

/// What stands before a decimal number that is such a part.
fn before_number(part: Part, number: u64, around: Around<'_>) -> &'static str {
    match named_as(part) {
        Part::Device => " D",
        Part::Driver if number < around.drivers => " driver_",
        Part::Cancel if number < u64::from(around.known.cancel) => " cancel_",
        _ => " ",
    }
}

/// Writes a number that is such a part, and has no name in Windows.
fn put_unnamed(text: &mut Sink, part: Part, number: u64, around: Around<'_>) {
    match part {
        Part::Status => {
            text.put(" ");
            text.hexadecimal(number);
        }
        Part::Word | Part::Information => put_number(text, number),
        _ => put_numbered(text, before_number(part, number, around), number),
    }
}

/// Writes a value that is such a part, behind another.
fn put_value(text: &mut Sink, part: Part, before: Value, value: Value, around: Around<'_>) {
    match value {
        Value::Originator => text.put(" o"),
        Value::Null if part == Part::CancelOrNull => text.put(" none"),
        Value::Absent | Value::Null => {}
        Value::Packet(packet) => put_packet(text, packet, around.labels),
        Value::Set(setting) => put_setting(text, setting, around.known),
        Value::Number(number) => match name_of(part, before, number) {
            Some(name) => put_word(text, name),
            None => put_unnamed(text, part, number, around),
        },
    }
}

/// Writes the answer that a condition names.
fn put_answer_named(text: &mut Sink, answer: ExpectedAnswer, known: Known) {
    match answer {
        ExpectedAnswer::Status(status) => put_status(text, status),
        ExpectedAnswer::Previous(Some(id)) => {
            text.put(" routine");
            put_cancel_id(text, id, known);
        }
        other => put_word(text, answer_word(other)),
    }
}

/// Writes what a step hangs on, by the made-up name of the step above.
fn put_condition(text: &mut Sink, condition: Condition, known: Known) {
    put_numbered(text, " if step_", u64::from(condition.step));
    text.put(" is");
    if !condition.wanted {
        text.put(" not");
    }
    put_answer_named(text, condition.answer, known);
}

/// Whether a step hangs on the one of this place.
fn is_named(steps: &[Step], place: usize) -> bool {
    steps.iter().any(|step| match step.condition {
        Some(condition) => condition.step as usize == place,
        None => false,
    })
}

/// Writes what the word of a step is followed by: its keys with their values.
fn put_keys(text: &mut Sink, line: &StepLine, around: Around<'_>) {
    let mut before = Value::Absent;
    for (key, value) in line.act.keys().iter().zip(line.values.iter()) {
        put_word(text, key.0);
        put_value(text, key.1, before, *value, around);
        before = *value;
    }
}

/// Writes a step, on a line. Those of this list are the script's, where it may hang on one of them.
fn put_step(text: &mut Sink, step: Step, place: usize, steps: &[Step], around: Around<'_>) {
    let line = line_of(step);
    text.put("  ");
    if is_named(steps, place) {
        put_numbered(text, "step_", place as u64);
        text.put(": ");
    }
    put_numbered(text, "seat ", u64::from(line.seat));
    if let Some(condition) = line.condition {
        put_condition(text, condition, around.known);
    }
    put_word(text, line.act.word());
    put_keys(text, &line, around);
    text.put("\n");
}

/// Writes steps, below their heading. Those of the last list may hang on one another.
fn put_steps(text: &mut Sink, heading: &str, steps: &[Step], hanging: &[Step], around: Around<'_>) {
    if !steps.is_empty() {
        text.put(heading);
    }
    for (place, step) in steps.iter().enumerate() {
        put_step(text, *step, place, hanging, around);
    }
}

/// Writes a heading before the first member of a list, and a member's made-up name with a colon.
fn put_name(text: &mut Sink, at: usize, heading: &str, word: &str, number: u64) {
    if at == 0 {
        text.put(heading);
    }
    text.put("  ");
    text.put(word);
    put_numbered(text, "_", number);
    text.put(":");
}

/// Writes the completion routines, below their heading, and counts them.
fn put_completions(text: &mut Sink, routines: &[CompletionRoutine]) -> Known {
    let mut known = Known::NONE;
    for (at, routine) in routines.iter().enumerate() {
        let (rule, word) = (routine.rule, routine.rule.name());
        put_name(
            text,
            at,
            "\ncompletions\n",
            word,
            u64::from(known.count_of(rule)),
        );
        put_word(text, word);
        put_behaviour(text, routine.on_ok);
        put_behaviour(text, routine.on_err);
        text.put("\n");
        known = with_one(known, rule);
    }
    known
}

/// Writes what a cancel routine answers.
fn put_answer(text: &mut Sink, answer: CancelAnswer) {
    match answer {
        CancelAnswer::Finish { information } => {
            text.put(" finish");
            put_number(text, information);
        }
        CancelAnswer::Leave => text.put(" leave"),
    }
}

/// Writes what the cancel routines answer, below their heading.
fn put_cancels(text: &mut Sink, answers: &[CancelAnswer]) {
    for (at, answer) in answers.iter().enumerate() {
        put_name(text, at, "\ncancels\n", "cancel", at as u64);
        put_answer(text, *answer);
        text.put("\n");
    }
}

/// Writes a plan, behind its made-up name.
fn put_plan(text: &mut Sink, plan: PlanLine, around: Around<'_>) {
    put_word(text, plan.kind.word());
    for (part, value) in plan.kind.parts().iter().zip(plan.values.iter()) {
        put_value(text, *part, Value::Absent, *value, around);
    }
    text.put("\n");
}

/// Writes the plans of the dispatches, below their heading.
fn put_plans(text: &mut Sink, plans: &[Plan], around: Around<'_>) {
    for (at, plan) in plans.iter().enumerate() {
        let line = plan_line(*plan);
        put_name(text, at, "\ndispatches\n", line.kind.word(), at as u64);
        put_plan(text, line, around);
    }
}

/// Writes a dispatch by its made-up name, such as hold_0, or by its number where the script lacks it.
fn put_dispatch(text: &mut Sink, id: DispatchId, plans: &[Plan]) {
    text.put(" ");
    if let Some(plan) = plans.get(id.0 as usize) {
        text.put(plan_line(*plan).kind.word());
        text.put("_");
    }
    text.number(u64::from(id.0));
}

/// Writes a driver's table, and ends its line.
fn put_table(text: &mut Sink, table: &[(u8, DispatchId)], plans: &[Plan]) {
    if table.is_empty() {
        text.put(" nothing");
    }
    for entry in table {
        put_major(text, entry.0);
        put_dispatch(text, entry.1, plans);
    }
    text.put("\n");
}

/// Writes the drivers, below their heading.
fn put_drivers(text: &mut Sink, drivers: &[Row<(u8, DispatchId)>], plans: &[Plan]) {
    for (at, table) in drivers.iter().enumerate() {
        put_name(text, at, "\ndrivers\n", "driver", at as u64);
        put_table(text, table.as_slice(), plans);
    }
}

/// Writes the form and the counts.
fn put_top(text: &mut Sink, parts: &ScriptParts) {
    match parts.form {
        ScriptForm::One => text.put("form 1"),
        ScriptForm::Two { slots } => put_numbered(text, "form 2\nslots ", u64::from(slots)),
        ScriptForm::Four { slots } => put_numbered(text, "form 4\nslots ", u64::from(slots)),
    }
    put_numbered(text, "\nseats ", u64::from(parts.seats));
    put_numbered(text, "\nlocks ", u64::from(parts.locks));
    text.put("\n");
}

/// Writes a script in words.
fn put_script(text: &mut Sink, parts: &ScriptParts) {
    put_top(text, parts);
    let known = put_completions(text, parts.completions.as_slice());
    let plans = parts.dispatches.as_slice();
    let around = Around {
        labels: parts.labels.as_slice(),
        known: Known {
            cancel: count_of(parts.cancels.as_slice().len()),
            ..known
        },
        drivers: parts.drivers.as_slice().len() as u64,
    };
    put_cancels(text, parts.cancels.as_slice());
    put_plans(text, plans, around);
    put_drivers(text, parts.drivers.as_slice(), plans);
    put_steps(text, "\nsetup\n", parts.setup.as_slice(), &[], around);
    let steps = parts.steps.as_slice();
    let hanging = match parts.form {
        ScriptForm::Four { .. } => steps,
        _ => &[],
    };
    put_steps(text, "\nsteps\n", steps, hanging, around);
}

/// The script of this JSON in words, with names made up for its routines, dispatches and drivers (docs/WORDS.md).
///
/// # Errors
///
/// `Refused` exactly where `read_script` refuses the script, with its refusal; `NoMemory` where memory runs out.
pub fn words(alloc: Global, bytes: &[u8]) -> Result<String, ScriptFault>
    ensures ok { IfOk result (λ _. (script : Script) × ReadsScript (Ok script) bytes.now) }
    ensures err { IfErr result (λ fault. IsUnread fault bytes.now) }
{
    let script = read_script(alloc, bytes)?;
    let mut text = Sink::new(alloc);
    put_script(&mut text, script.parts());
    match text.finish() {
        Ok(text) => Ok(text),
        Err(_) => Err(ScriptFault::NoMemory),
    }
}
