//! Lines in.

ghost use Rattle.std.specs.Prelude.{IfOk};
ghost use Rattle.irp_live.specs.Streams.{IsRead, TakesSome};

use irp_streams::StreamFault;
use std::io::{BufRead, ErrorKind};

/// Reads the next line in place of what the room has, without its newline. False where there is no newline any more;
/// then all that was left is taken.
///
/// # Errors
///
/// `Failed` where the input failed, and `NoMemory` where memory ran out for the line.
pub fn read_line<R: BufRead>(input: &mut R, line: &mut Vec<u8>) -> Result<bool, StreamFault>
    ensures ok { IfOk result
        (IsRead (R.remaining input.old) (R.remaining input.new) line.new.items) }
    ensures some { TakesSome (R.remaining input.old) (R.remaining input.new) }
{
    line.clear();
    match input.read_until(b'\n', line) {
        Ok(_) => {}
        Err(error) if error.kind() == ErrorKind::OutOfMemory => return Err(StreamFault::NoMemory),
        Err(_) => return Err(StreamFault::Failed),
    }
    match line.pop() {
        Some(b'\n') => Ok(true),
        _ => Ok(false),
    }
}
