//! Names, letters and answers, as JSON texts. Source: this project's own format (docs/FORMATS.md).
#![tactic(auto, unfolding(json::specs::Print::escape_byte))]

ghost use Rattle.std.specs.Prelude.{◌≡◌, ◌++◌, OnOk};
ghost use Rattle.serde_json.specs.Data.{string};
ghost use Rattle.serde_json.specs.Written.{compact_text};
ghost use Rattle.irp_forms.specs.Names.{answer_name, refusal_name, rule_name};
ghost use Rattle.irp_transcript_writer.specs.Lines.{cancel_rule_json, flags_text};

use crate::form::{Written, put_text};
use irp_forms::HasName;
use irp_types::{CancelRule, Refusal, Rule, Setting};
use std::alloc::AllocError;

/// Writes the value's name, in quotes. The one error is want of memory.
fn put_name<T: HasName>(out: &mut Vec<u8>, value: T) -> Result<(), AllocError>
    ensures { OnOk result (out.new.items ≡ out.old.items
        ++ compact_text (string (T.name value))) }
{
    put_text(out, "\"")?;
    put_text(out, value.name())?;
    put_text(out, "\"")
}

impl Written for Rule {
    ghost json = { λ rule. string (rule_name rule) };

    fn write(&self, out: &mut Vec<u8>) -> Result<(), AllocError> {
        put_name(out, *self)
    }
}

impl Written for CancelRule {
    ghost json = { cancel_rule_json };

    fn write(&self, out: &mut Vec<u8>) -> Result<(), AllocError> {
        put_name(out, *self)
    }
}

impl Written for Refusal {
    ghost json = { λ refusal. string (refusal_name refusal) };

    fn write(&self, out: &mut Vec<u8>) -> Result<(), AllocError> {
        put_name(out, *self)
    }
}

/// The letters of the flags that are set, in the order s, e, c, in quotes.
pub fn letters_of_flags(setting: Setting) -> &'static str
    ensures { result.now ≡ compact_text (string (flags_text setting)) }
{
    match (setting.on_success, setting.on_error, setting.on_cancel) {
        (false, false, false) => "\"\"",
        (false, false, true) => "\"c\"",
        (false, true, false) => "\"e\"",
        (false, true, true) => "\"ec\"",
        (true, false, false) => "\"s\"",
        (true, false, true) => "\"sc\"",
        (true, true, false) => "\"se\"",
        (true, true, true) => "\"sec\"",
    }
}

/// The name of a completion routine's answer, which keeps the packet or continues, in quotes.
pub fn name_of_answer(keep: bool) -> &'static str
    ensures { result.now ≡ compact_text (string (answer_name keep)) }
{
    if keep { "\"keep\"" } else { "\"continue\"" }
}
