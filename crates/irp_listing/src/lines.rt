//! Lines of words.

ghost use Rattle.std.specs.Prelude.{◌≡◌, ◌++◌, OnOk};
ghost use Rattle.irp_listing.specs.Lines.{line_of, on_one_line, head_of, padding_of, further_of, row_of};

use std::alloc::AllocError;

/// A byte, or a space for a newline.
fn on_one_line(byte: u8) -> u8
    ensures { result ≡ on_one_line byte }
{
    if byte == b'\n' { b' ' } else { byte }
}

/// Puts words behind what the buffer holds, with a space for each newline, and then a newline. The one error is want of
/// memory.
pub fn put_line(out: &mut Vec<u8>, words: &str) -> Result<(), AllocError>
    ensures { OnOk result (out.new.items ≡ out.old.items ++ line_of words.now) }
{
    for byte in words.as_bytes() {
        out.push(on_one_line(*byte))?;
    }
    out.push(b'\n')?;
    Ok(())
}

/// The spaces that let numbers of up to four digits end in one column.
fn padding_of(number: u64) -> &'static str
    ensures { result.now ≡ padding_of number }
{
    if number < 10 {
        "   "
    } else if number < 100 {
        "  "
    } else if number < 1000 {
        " "
    } else {
        ""
    }
}

/// Puts the first line of an entry: its number and words. The one error is want of memory.
pub fn put_head(out: &mut Vec<u8>, number: u64, words: &str) -> Result<(), AllocError>
    ensures { OnOk result (out.new.items ≡ out.old.items ++ head_of number words.now) }
{
    let mut buffer = itoa::Buffer::new();
    out.extend_from_slice(padding_of(number).as_bytes())?;
    out.extend_from_slice(buffer.format(number).as_bytes())?;
    out.extend_from_slice(b"  ")?;
    put_line(out, words)
}

/// Puts a further line of an entry, behind four spaces. The one error is want of memory.
pub fn put_further(out: &mut Vec<u8>, words: &str) -> Result<(), AllocError>
    ensures { OnOk result (out.new.items ≡ out.old.items ++ further_of words.now) }
{
    out.extend_from_slice(b"    ")?;
    put_line(out, words)
}

/// Puts a row of a table: a name and words. The one error is want of memory.
pub fn put_row(out: &mut Vec<u8>, name: &str, words: &str) -> Result<(), AllocError>
    ensures { OnOk result (out.new.items ≡ out.old.items ++ row_of name.now words.now) }
{
    out.extend_from_slice(b"  ")?;
    out.extend_from_slice(name.as_bytes())?;
    put_line(out, words)
}
