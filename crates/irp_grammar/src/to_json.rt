//! What lines say, written as the JSON of a script.

use crate::condition::put_condition;
use crate::said::Said;
use crate::step_line::{PlanLine, StepLine, Value};
use irp_forms::HasName;
use irp_names::Sink;
use irp_script_reader::{Behaviour, CompletionRoutine, Named};
use irp_types::{CancelAnswer, DispatchId, Row, Setting};
use std::alloc::{AllocError, Global};

/// The letters of a setting's flags, in their order.
pub fn letters(setting: Setting) -> &'static str {
    match (setting.on_success, setting.on_error, setting.on_cancel) {
        (false, false, false) => "",
        (false, false, true) => "c",
        (false, true, false) => "e",
        (false, true, true) => "ec",
        (true, false, false) => "s",
        (true, false, true) => "sc",
        (true, true, false) => "se",
        (true, true, true) => "sec",
    }
}

/// Writes numbers, with a comma between them.
fn put_list(text: &mut Sink, numbers: &[u64]) {
    for (at, number) in numbers.iter().enumerate() {
        if at > 0 {
            text.put(",");
        }
        text.number(*number);
    }
}

/// Writes a setting.
fn put_setting(text: &mut Sink, setting: Setting) {
    let routine = setting.routine;
    text.put("[");
    text.quoted(routine.rule.name());
    text.put(",");
    put_list(text, &[u64::from(routine.no), setting.context]);
    text.put(",");
    text.quoted(letters(setting));
    text.put("]");
}

/// Writes the words before numbers, these, and the end of their list.
fn put_numbers(text: &mut Sink, words: &str, numbers: &[u64]) {
    text.put(words);
    put_list(text, numbers);
    text.put("]");
}

/// Writes a behaviour, behind a comma.
fn put_behaviour(text: &mut Sink, behaviour: Behaviour) {
    match behaviour {
        Behaviour::Continue => text.put(",\"continue\""),
        Behaviour::Keep => text.put(",\"keep\""),
        Behaviour::Replace(put) => put_numbers(
            text,
            ",[\"replace\",",
            &[u64::from(put.status.0), put.information],
        ),
    }
}

/// Writes a driver's table.
fn put_table(text: &mut Sink, table: &[(u8, DispatchId)]) {
    text.put("[");
    for (at, entry) in table.iter().enumerate() {
        let begin = if at == 0 { "[" } else { ",[" };
        put_numbers(text, begin, &[u64::from(entry.0), u64::from(entry.1.0)]);
    }
    text.put("]");
}

/// The label at this place.
fn label_at<'a>(labels: &[&'a str], place: usize) -> &'a str {
    match labels.get(place) {
        Some(label) => label,
        None => "",
    }
}

/// Writes a packet, by one of these labels or by its reference.
fn put_packet(text: &mut Sink, packet: Named, labels: &[&str]) {
    match packet {
        Named::Label(place) => text.quoted(label_at(labels, place)),
        Named::Irp(irp) => put_numbers(text, "[", &[irp.slot as u64, irp.use_no]),
    }
}

/// Writes a value; the labels are those of the text.
fn put_value(text: &mut Sink, value: Value, labels: &[&str]) {
    match value {
        Value::Absent => {}
        Value::Null => text.put("null"),
        Value::Originator => text.quoted("o"),
        Value::Number(number) => text.number(number),
        Value::Packet(packet) => put_packet(text, packet, labels),
        Value::Set(setting) => put_setting(text, setting),
    }
}

/// Writes a plan.
fn put_plan(text: &mut Sink, plan: &PlanLine) {
    text.put("[");
    text.quoted(plan.kind.word());
    for (_, value) in plan.kind.parts().iter().zip(plan.values.iter()) {
        text.put(",");
        put_value(text, *value, &[]);
    }
    text.put("]");
}

/// Writes a step, whose labels these are.
fn put_step(text: &mut Sink, step: &StepLine, labels: &[&str]) {
    text.put("{\"seat\":");
    text.number(u64::from(step.seat));
    text.put(",\"do\":");
    text.quoted(step.act.word());
    for (key, value) in step.act.keys().iter().zip(step.values.iter()) {
        text.put(",");
        text.quoted(key.0);
        text.put(":");
        put_value(text, *value, labels);
    }
    put_condition(text, step.condition);
    text.put("}");
}

/// What begins the member of a list at this place, on a line of its own.
fn before(at: usize) -> &'static str {
    if at == 0 { "\n  " } else { ",\n  " }
}

/// Writes steps as the members of a list.
fn put_steps(text: &mut Sink, steps: &[StepLine], labels: &[&str]) {
    for (at, step) in steps.iter().enumerate() {
        text.put(before(at));
        put_step(text, step, labels);
    }
}

/// Writes the members of a list of completion routines.
fn put_completions(text: &mut Sink, routines: &[CompletionRoutine]) {
    for (at, routine) in routines.iter().enumerate() {
        text.put(before(at));
        text.put("[");
        text.quoted(routine.rule.name());
        put_behaviour(text, routine.on_ok);
        put_behaviour(text, routine.on_err);
        text.put("]");
    }
}

/// Writes the members of a list of what cancel routines answer.
fn put_cancels(text: &mut Sink, answers: &[CancelAnswer]) {
    for (at, answer) in answers.iter().enumerate() {
        text.put(before(at));
        match *answer {
            CancelAnswer::Finish { information } => {
                put_numbers(text, "[\"finish\",", &[information])
            }
            CancelAnswer::Leave => text.put("[\"leave\"]"),
        }
    }
}

/// Writes the members of a list of plans.
fn put_plans(text: &mut Sink, plans: &[PlanLine]) {
    for (at, plan) in plans.iter().enumerate() {
        text.put(before(at));
        put_plan(text, plan);
    }
}

/// Writes the members of a list of drivers.
fn put_drivers(text: &mut Sink, drivers: &[Row<(u8, DispatchId)>]) {
    for (at, table) in drivers.iter().enumerate() {
        text.put(before(at));
        put_table(text, table.as_slice());
    }
}

/// Writes the form and the counts.
fn put_top(text: &mut Sink, said: &Said<'_>) {
    text.put("{\"form\":");
    text.number(u64::from(said.form_number()));
    text.put(",\"seats\":");
    text.number(u64::from(said.seats.unwrap_or(1)));
    text.put(",\"locks\":");
    text.number(u64::from(said.locks.unwrap_or(1)));
    if said.form_number() > 1 {
        text.put(",\"slots\":");
        text.number(u64::from(said.slots.unwrap_or(0)));
    }
}

/// Writes what lines say.
fn put_script(text: &mut Sink, said: &Said<'_>) {
    let labels = said.names.labels();
    put_top(text, said);
    text.put(",\n \"completions\":[");
    put_completions(text, said.completions.as_slice());
    text.put("],\n \"cancels\":[");
    put_cancels(text, said.cancels.as_slice());
    text.put("],\n \"dispatches\":[");
    put_plans(text, said.dispatches.as_slice());
    text.put("],\n \"drivers\":[");
    put_drivers(text, said.drivers.as_slice());
    text.put("],\n \"setup\":[");
    put_steps(text, said.setup.as_slice(), labels);
    text.put("],\n \"steps\":[");
    put_steps(text, said.steps.as_slice(), labels);
    text.put("]}\n");
}

/// The JSON of a script that lines say, a member of a list on a line, with a newline at its end. The one error is want
/// of memory.
pub fn json_text(alloc: Global, said: &Said<'_>) -> Result<String, AllocError> {
    let mut text = Sink::new(alloc);
    put_script(&mut text, said);
    text.finish()
}
