//! The text of a history: a block for each entry that is chosen, and a line for each word line.

ghost use Rattle.std.specs.Prelude.{◌≡◌, ◌++◌, List, OnOk};
ghost use Rattle.irp_types.specs.declared.entry.Entry.{Entry};
ghost use Rattle.irp_listing.specs.Listing.{AddsChosen, AddsWordLine, PutsLast, heading_above};
ghost use Rattle.irp_listing.specs.Stacks.{IsAfter};

use crate::blocks::put_block;
use crate::choosing::{Choice, is_chosen};
use crate::lines::put_further;
use crate::stacks::Stacks;
use crate::word_lines::WordLineWords;
use irp_transcript::WordLine;
use irp_types::Entry;
use std::alloc::AllocError;

/// Puts the block of an entry that is chosen, and nothing for another. The stacks are those that the entries up to this
/// one lead to; `words` is room for the words of a line. The one error is want of memory.
pub fn put_chosen(
    pending: &mut Vec<u8>,
    words: &mut String,
    stacks: &Stacks,
    choice: Choice,
    entry: &Entry,
) -> Result<(), AllocError>
    ensures adds { OnOk result (AddsChosen choice.only entry.now
        pending.old.items pending.new.items) }
    ensures exact { (so_far : List Entry) → IsAfter so_far stacks.now
        → OnOk result (PutsLast choice so_far entry.now pending.old.items pending.new.items) }
{
    if !is_chosen(choice, entry) {
        return Ok(());
    }
    put_block(pending, words, stacks, choice.tells_seats, entry)
}

/// Puts the heading that stands above the first word line, and nothing above another. The one error is want of memory.
fn put_heading(out: &mut Vec<u8>, is_first: bool) -> Result<(), AllocError>
    ensures { OnOk result (out.new.items ≡ out.old.items ++ heading_above is_first) }
{
    if !is_first {
        return Ok(());
    }
    out.extend_from_slice(b"Steps on remove locks and cancel slots:\n")?;
    Ok(())
}

/// Puts the line of a word line, and above the first the heading of them all; `words` is room for the words of a line.
/// The one error is want of memory.
pub fn put_word_line(
    pending: &mut Vec<u8>,
    words: &mut String,
    is_first: bool,
    line: WordLine,
) -> Result<(), AllocError>
    ensures { OnOk result (AddsWordLine is_first line pending.old.items pending.new.items) }
{
    put_heading(pending, is_first)?;
    words.clear();
    write!(words, "{}", WordLineWords(line))?;
    put_further(pending, words.as_str())
}
