//! The blocks of an input.

ghost use Rattle.std.specs.Prelude.{ℕ, ◌≡◌, ◌+◌, ◌≤◌, ◌<◌, ◌^◌, List, length, take, IfOk};
ghost use Rattle.std.specs.Io.KnownBytes.{Consumes, IsAtEnd};
ghost use Rattle.irp_feed.specs.Input.{Bytes, TakesAtMost, most_bytes};
ghost use Rattle.irp_feed.specs.Feeding.{Drains, IsSoFar};

use memchr::memchr;
use std::io::Read;

/// As many bytes as the text of a transcript may have.
pub const MOST_BYTES: usize = 1_073_741_824;

/// As many bytes as a block has at most: so long a buffer is good for `take_block`.
pub const BLOCK: usize = 262_144;

/// The input failed, or is too long.
#[derive(Clone, Copy)]
pub struct InputFailed;

/// Takes the next bytes of the input into a buffer, and counts them: none at the end of the input. `left` is how many
/// bytes the input may still have.
///
/// # Errors
///
/// `InputFailed` where the read failed; an interrupted read is a failed one. Also where the input has more than `left`
/// bytes: then at most one more was taken from it.
pub fn take_block<R: Read>(
    reader: &mut R,
    buffer: &mut [u8],
    left: usize,
) -> Result<usize, InputFailed>
    requires room { 0 < length buffer.old }
    requires bound { left + 1 < 2 ^ 64 }
    ensures room { length buffer.new ≡ length buffer.old }
    ensures bound { IfOk result (λ count. (count ≤ left) × (count ≤ length buffer.new)) }
    ensures bytes { IfOk result (λ count.
        Consumes (R.remaining reader.old) (R.remaining reader.new) (take count buffer.new)) }
    ensures end { IfOk result (λ count. count ≡ 0 → IsAtEnd (R.remaining reader.new)) }
    ensures within { TakesAtMost (left + 1) (R.remaining reader.old) (R.remaining reader.new) }
{
    let wanted = buffer.len().min(left + 1);
    match reader.read(&mut buffer[..wanted]) {
        Ok(count) if count <= left => Ok(count),
        _ => Err(InputFailed),
    }
}

/// Takes the rest of an input whose text isn't read to its end, and tells whether a newline stands in it. `left` is how
/// many bytes the input may still have.
///
/// # Errors
///
/// `InputFailed` as `take_block`.
pub fn drain<R: Read>(input: &mut R, buffer: &mut [u8], left: usize) -> Result<bool, InputFailed>
    requires few { left ≤ most_bytes }
    requires room { 0 < length buffer.old }
    ensures { (old : Bytes) (text : List ℕ) → IsSoFar old (R.remaining input.old) left text
        → Drains result old (R.remaining input.new) text }
{
    let (mut left, mut has_newline) = (left, false);
    loop {
        let count = match take_block(input, buffer, left) {
            Ok(count) => count,
            Err(failed) => return Err(failed),
        };
        if count == 0 {
            return Ok(has_newline);
        }
        has_newline = has_newline | memchr(b'\n', &buffer[..count]).is_some();
        left -= count;
    }
}
