//! The word lines of several workers.

ghost use Rattle.std.specs.Prelude.{◌≡◌, OnErr, OnOk};
ghost use Rattle.std.specs.List.Sorted.{IsPermutation};
ghost use Rattle.irp_script.specs.Words.{AreInOrder, order_of};

use irp_shared::WordLine;
use std::alloc::AllocError;

/// A line's place in the order: its seat, and then its step.
fn order_of(line: &WordLine) -> u64
    ensures { result ≡ order_of line.now }
{
    u64::from(line.seat) * 0x1_0000_0000 + u64::from(line.step)
}

/// Puts word lines in order: by rising seat, and then by rising step. They are the same lines.
///
/// # Errors
///
/// `AllocError` where a growth was refused. The lines stay as they were.
pub fn put_in_order(lines: &mut Vec<WordLine>) -> Result<(), AllocError>
    ensures order { OnOk result (AreInOrder lines.new.items) }
    ensures lines { IsPermutation lines.old.items lines.new.items }
    ensures err { OnErr result (lines.new.items ≡ lines.old.items) }
{
    lines.sort_by_key(|line: &WordLine| order_of(line))?;
    Ok(())
}
