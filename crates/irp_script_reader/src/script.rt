//! Scripts. Source: this project's own format (docs/FORMATS.md).

ghost use Rattle.std.specs.Prelude.{◌≡◌};
ghost use Rattle.irp_script_reader.specs.Forms.{slots_of};
ghost use Rattle.irp_script_reader.specs.Sound.{IsSound};

use crate::act::Step;
use crate::labels::Labels;
use irp_types::{CancelAnswer, DispatchId, Plan, Replacement, Row, Rule};
use std::marker::Model;

/// What a completion routine of a script does.
#[derive(Clone, Copy, PartialEq, Eq, Debug)]
pub enum Behaviour {
    /// Continues, and replaces nothing.
    Continue,
    /// Keeps the packet, and replaces nothing.
    Keep,
    /// Continues with this status and information in place of the packet's own.
    Replace(Replacement),
}

/// A completion routine of a script.
#[derive(Clone, Copy, PartialEq, Eq, Debug)]
pub struct CompletionRoutine {
    /// The rule that its behaviours are of.
    pub rule: Rule,
    /// What it does where the status that it is shown is a success.
    pub on_ok: Behaviour,
    /// What it does where that status isn't a success.
    pub on_err: Behaviour,
}

/// Which steps a script may have, as its key `form` tells.
#[derive(Clone, Copy, PartialEq, Eq, Debug)]
pub enum ScriptForm {
    /// Calls of the manager, and acts on remove locks. Packets have 16 locations at most, and stacks 16 devices.
    One,
    /// The same, with packets in cancel slots and acts on slots, and with references that are handed over. Packets have
    /// 32 locations at most, and stacks 32 devices.
    Two {
        /// How many cancel slots there are, at most 64 in a `Script`.
        slots: u32,
    },
    /// The same, with steps that hang on what an earlier step of the same seat was answered.
    Four {
        /// How many cancel slots there are, at most 64 in a `Script`.
        slots: u32,
    },
}

impl ScriptForm {
    /// How many cancel slots there are: none in form 1.
    pub fn slots(self) -> u32
        ensures { result ≡ slots_of self }
    {
        match self {
            ScriptForm::One => 0,
            ScriptForm::Two { slots } | ScriptForm::Four { slots } => slots,
        }
    }
}

/// What a script says, key by key, whether or not it is sound.
#[derive(Drop)]
pub struct ScriptParts {
    /// Which steps it may have.
    pub form: ScriptForm,
    /// How many seats there are, 1 to 64 in a `Script`.
    pub seats: u32,
    /// How many remove locks there are, 1 to 64 in a `Script`.
    pub locks: u32,
    /// The completion routines. A routine's number is its place among those of its rule.
    pub completions: Row<CompletionRoutine>,
    /// What the cancel routines answer, by number. One that finishes has the rule that it must, and so has one that
    /// leaves.
    pub cancels: Row<CancelAnswer>,
    /// What the dispatches plan, by number.
    pub dispatches: Row<Plan>,
    /// The drivers by number: major function codes and their dispatches, in the order of the text.
    pub drivers: Row<Row<(u8, DispatchId)>>,
    /// The steps before the workers: in a `Script`, none of them on a remove lock or on a cancel slot.
    pub setup: Row<Step>,
    /// The steps of the workers.
    pub steps: Row<Step>,
    /// The labels that the steps name, in the order in which they first name them: at most 4,096 in a `Script`, and no
    /// two the same. In one that was read each label's number is its place among them.
    pub labels: Labels,
}

/// A script, which is sound: it is within the limits, its closures keep their rules, its drivers name only dispatches
/// that it has, and each seat may do its steps.
///
/// Contracts see it as its parts.
#[derive(Drop)]
pub struct Script {
    parts: ScriptParts,
}

impl Model for Script {
    ghost use Rattle.irp_script_reader.specs.Sound.{IsSound};
    ghost use Rattle.irp_script_reader.specs.declared.script.ScriptParts.{ScriptParts};

    ghost Value = { ScriptParts };

    ghost view = { λ own. own.parts };

    ghost invariant = { λ own. IsSound own.parts };
}

impl Script {
    /// The script of these parts, on condition that they are sound. It takes no memory.
    pub fn new(parts: ScriptParts) -> Script
        requires { IsSound parts }
        ensures { result ≡ parts }
    {
        Script { parts }
    }

    /// What it says, key by key, and that it is sound.
    pub fn parts(&self) -> &ScriptParts
        ensures parts { result.now ≡ self.now }
        ensures sound { IsSound self.now }
    {
        &self.parts
    }
}
