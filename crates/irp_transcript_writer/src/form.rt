//! Values as JSON text. Source: this project's own format (docs/FORMATS.md).

ghost use Rattle.std.specs.Prelude.{◌≡◌, ◌++◌, map, decimal, OnOk, IfOk};
ghost use Rattle.serde_json.specs.Data.{Data, boolean};
ghost use Rattle.serde_json.specs.Written.{comma_if, compact_text};
ghost use Rattle.irp_transcript_writer.specs.Json.{list, natural, or_null, line_text};

use irp_types::Row;
use std::alloc::{AllocError, Global};

/// What is written as JSON.
pub trait Written {
    /// The form.
    ghost json: { Self → Data };

    /// Writes the compact text of the form behind what the buffer holds. The one error is want of memory; then a part
    /// of the text may stand there.
    fn write(&self, out: &mut Vec<u8>) -> Result<(), AllocError>
        ensures { OnOk result (out.new.items ≡ out.old.items ++ compact_text (json self.now)) };
}

/// Writes a text as it stands. The one error is want of memory.
pub fn put_text(out: &mut Vec<u8>, text: &str) -> Result<(), AllocError>
    ensures { OnOk result (out.new.items ≡ out.old.items ++ text.now) }
{
    out.extend_from_slice(text.as_bytes())
}

/// Writes a text, and then a value. The one error is want of memory.
pub fn put<T: Written>(out: &mut Vec<u8>, before: &str, value: &T) -> Result<(), AllocError>
    ensures { OnOk result (out.new.items ≡ out.old.items
        ++ (before.now ++ compact_text (T.json value.now))) }
{
    put_text(out, before)?;
    value.write(out)
}

/// Writes a value between two texts. The one error is want of memory.
pub fn put_one<T: Written>(
    out: &mut Vec<u8>,
    before: &str,
    value: &T,
    after: &str,
) -> Result<(), AllocError>
    ensures { OnOk result (out.new.items ≡ out.old.items
        ++ (before.now ++ (compact_text (T.json value.now) ++ after.now))) }
{
    put(out, before, value)?;
    put_text(out, after)
}

/// Writes two values, each behind its text, and a text at the end. The one error is want of memory.
pub fn put_two<T: Written, U: Written>(
    out: &mut Vec<u8>,
    before: &str,
    first: &T,
    between: &str,
    second: &U,
    after: &str,
) -> Result<(), AllocError>
    ensures { OnOk result (out.new.items ≡ out.old.items
        ++ (before.now ++ (compact_text (T.json first.now)
        ++ (between.now ++ (compact_text (U.json second.now) ++ after.now))))) }
{
    put(out, before, first)?;
    put_one(out, between, second, after)
}

/// Writes a number in decimal. The one error is want of memory.
fn put_number(out: &mut Vec<u8>, number: u64) -> Result<(), AllocError>
    ensures { OnOk result (out.new.items ≡ out.old.items ++ decimal number) }
{
    let mut buffer = itoa::Buffer::new();
    put_text(out, buffer.format(number))
}

impl Written for u8 {
    ghost json = { natural };

    fn write(&self, out: &mut Vec<u8>) -> Result<(), AllocError> {
        put_number(out, *self as u64)
    }
}

impl Written for u32 {
    ghost json = { natural };

    fn write(&self, out: &mut Vec<u8>) -> Result<(), AllocError> {
        put_number(out, *self as u64)
    }
}

impl Written for u64 {
    ghost json = { natural };

    fn write(&self, out: &mut Vec<u8>) -> Result<(), AllocError> {
        put_number(out, *self)
    }
}

impl Written for usize {
    ghost json = { natural };

    fn write(&self, out: &mut Vec<u8>) -> Result<(), AllocError> {
        put_number(out, *self as u64)
    }
}

impl Written for bool {
    ghost json = { boolean };

    fn write(&self, out: &mut Vec<u8>) -> Result<(), AllocError> {
        put_text(out, if *self { "true" } else { "false" })
    }
}

impl<T: Written> Written for Option<T> {
    ghost json = { λ option. or_null T.json option };

    fn write(&self, out: &mut Vec<u8>) -> Result<(), AllocError> {
        match self {
            Some(value) => value.write(out),
            None => put_text(out, "null"),
        }
    }
}

/// A comma, where something stands before.
fn comma_if(later: bool) -> &'static str
    ensures { result.now ≡ comma_if later }
{
    if later { "," } else { "" }
}

/// Writes the array of the items' forms, in order. The one error is want of memory.
pub fn put_list<T: Written>(out: &mut Vec<u8>, items: &[T]) -> Result<(), AllocError>
    ensures { OnOk result (out.new.items ≡ out.old.items
        ++ compact_text (list (map T.json items.now))) }
{
    put_text(out, "[")?;
    let mut later = false;
    for item in items {
        put(out, comma_if(later), item)?;
        later = true;
    }
    put_text(out, "]")?;
    Ok(())
}

impl<T: Written> Written for Row<T> {
    ghost json = { λ items. list (map T.json items) };

    fn write(&self, out: &mut Vec<u8>) -> Result<(), AllocError> {
        put_list(out, self.as_slice())
    }
}

/// Writes the line of a value, the compact text of its form and a newline, in place of what the buffer has, whose room
/// stays. The one error is want of memory; then the buffer may have a part of the line.
#[tactic(auto, unfolding(crate::specs::Json::line_text))]
pub fn write_line<T: Written>(line: &mut Vec<u8>, value: &T) -> Result<(), AllocError>
    ensures { OnOk result (line.new.items ≡ line_text (T.json value.now)) }
{
    line.clear();
    value.write(line)?;
    put_text(line, "\n")
}

/// The line of a value: the compact text of its form, and a newline. The one error is want of memory.
pub fn line_of<T: Written>(alloc: Global, value: &T) -> Result<Vec<u8>, AllocError>
    ensures { IfOk result (λ line. line.items ≡ line_text (T.json value.now)) }
{
    let mut line = Vec::new(alloc);
    write_line(&mut line, value)?;
    Ok(line)
}
