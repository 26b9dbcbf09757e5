//! Texts and values, put one behind another.

ghost use Rattle.std.specs.Prelude.{◌≡◌, ◌++◌, OnOk};
ghost use Rattle.serde_json.specs.Written.{compact_text};
ghost use Rattle.irp_transcript_writer.specs.Json.{line_text};

use irp_transcript_writer::Written;
use std::alloc::AllocError;

/// Puts a text as it stands. The one error is want of memory.
pub(crate) fn put_text(out: &mut Vec<u8>, text: &str) -> Result<(), AllocError>
    ensures { OnOk result (out.new.items ≡ out.old.items ++ text.now) }
{
    out.extend_from_slice(text.as_bytes())
}

/// Puts a text, and then a value. The one error is want of memory.
pub(crate) fn put<T: Written>(out: &mut Vec<u8>, before: &str, value: &T) -> Result<(), AllocError>
    ensures { OnOk result (out.new.items ≡ out.old.items
        ++ (before.now ++ compact_text (T.json value.now))) }
{
    put_text(out, before)?;
    value.write(out)
}

/// Puts a value between two texts. The one error is want of memory.
pub(crate) fn put_one<T: Written>(
    out: &mut Vec<u8>,
    before: &str,
    value: &T,
    after: &str,
) -> Result<(), AllocError>
    ensures { OnOk result (out.new.items ≡ out.old.items
        ++ (before.now ++ (compact_text (T.json value.now) ++ after.now))) }
{
    put(out, before, value)?;
    put_text(out, after)
}

/// Puts two values, each behind its text, and a text at the end. The one error is want of memory.
pub(crate) fn put_two<T: Written, U: Written>(
    out: &mut Vec<u8>,
    before: &str,
    first: &T,
    between: &str,
    second: &U,
    after: &str,
) -> Result<(), AllocError>
    ensures { OnOk result (out.new.items ≡ out.old.items
        ++ (before.now ++ (compact_text (T.json first.now)
        ++ (between.now ++ (compact_text (U.json second.now) ++ after.now))))) }
{
    put(out, before, first)?;
    put_one(out, between, second, after)
}

/// Puts the line of a value: its compact text, and a newline. The one error is want of memory.
#[tactic(auto, unfolding(irp_transcript_writer::specs::Json::line_text))]
pub(crate) fn put_line<T: Written>(out: &mut Vec<u8>, value: &T) -> Result<(), AllocError>
    ensures { OnOk result (out.new.items ≡ out.old.items ++ line_text (T.json value.now)) }
{
    value.write(out)?;
    put_text(out, "\n")
}
