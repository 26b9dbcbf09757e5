//! The acts, and their keys in transcripts and scripts (docs/FORMATS.md). The rows stand in irp_forms.

use crate::part::{ActForm, Part};
use irp_forms::{ActKind, each_act};

/// A key of a step in a script, and what stands under it.
macro_rules! step_key {
    ("to" $part:ident) => { ("to", Part::To) };
    ($key:tt Packet) => { ($key, Part::LabelOrPair) };
    ($key:tt CancelOrNull) => { ($key, Part::StepCancel) };
    ($key:tt $part:ident) => { ($key, Part::$part) };
}

/// The keys in a call's entry.
macro_rules! of_calls {
    ($($act:ident $word:literal $windows:literal $rules:literal $checks:literal $answer:literal
        $place:ident [$($step:tt)*] [$($key:literal $part:ident)*] [$($line:tt)*];)*) => {
        [$(ActForm { act: ActKind::$act, keys: &[$(($key, Part::$part)),*] }),*]
    };
}

/// The keys in a word line.
macro_rules! of_lines {
    ($($act:ident $word:literal $windows:literal $rules:literal $checks:literal $answer:literal
        $place:ident [$($step:tt)*] [$($call:tt)*] [$($key:literal $part:ident)*];)*) => {
        [$(ActForm { act: ActKind::$act, keys: &[$(($key, Part::$part)),*] }),*]
    };
}

/// The keys in a script.
macro_rules! of_steps {
    ($($act:ident $word:literal $windows:literal $rules:literal $checks:literal $answer:literal
        $place:ident [$($key:tt $part:ident)*] [$($call:tt)*] [$($line:tt)*];)*) => {
        [$(ActForm {
            act: ActKind::$act,
            keys: &[("seat", Part::Seat), ("do", Part::Any), $(step_key!($key $part)),*],
        }),*]
    };
}

/// The acts as calls.
static CALLS: [ActForm; 26] = each_act!(of_calls);

/// The acts as word lines.
static LINES: [ActForm; 26] = each_act!(of_lines);

/// The acts in scripts.
static STEPS: [ActForm; 26] = each_act!(of_steps);

/// The calls. No other function names the table, since a check reads it whole at each that does.
fn calls() -> &'static [ActForm] {
    &CALLS
}

/// The word lines.
fn lines() -> &'static [ActForm] {
    &LINES
}

/// The steps of scripts.
fn steps() -> &'static [ActForm] {
    &STEPS
}

/// The acts, with their keys in such a part.
pub fn acts_of(part: Part) -> &'static [ActForm] {
    match part {
        Part::Call => calls(),
        Part::WordLine => lines(),
        _ => steps(),
    }
}
