//! The block of rows that tells what is wrong with an entry.

ghost use Rattle.std.specs.Prelude.{◌≡◌, ◌++◌, None, OnOk, Some};
ghost use Rattle.irp_view.specs.Blocks.{
  AddsCause,
  AddsHead,
  AddsRow,
  AddsRows,
  AddsSection,
  AddsWhy,
  cause_told,
  differs_in,
  place_of,
  rule,
};
ghost use Rattle.irp_view.specs.Parts.{part_text, value_text};

use crate::causes::put_reason;
use crate::parts::{put_part, put_value};
use crate::rules::{put_rule, section_of};
use crate::sections::Section;
use irp_judge::{Cause, Difference, Wrong};
use irp_listing::{CallerWords, put_line, put_row};
use irp_transcript::Header;
use irp_types::Entry;
use std::alloc::AllocError;

/// Puts the beginning of the first line: the entry's number and its line. The one error is want of memory.
fn put_place(out: &mut Vec<u8>, words: &mut String, at: u64, line: u64) -> Result<(), AllocError>
    ensures { OnOk result (out.new.items ≡ out.old.items ++ place_of at line) }
{
    words.clear();
    write!(words, "entry {} (line {}): ", at, line)?;
    out.extend_from_slice(words.as_bytes())
}

/// Puts the first line: the entry's number and line, and who called what. The one error is want of memory.
fn put_head(out: &mut Vec<u8>, words: &mut String, at: u64, entry: &Entry) -> Result<(), AllocError>
    ensures { OnOk result (AddsHead at entry.now out.old.items out.new.items) }
{
    put_place(out, words, at, at.saturating_add(2))?;
    words.clear();
    let Entry { call, drained, .. } = *entry;
    write!(words, "{}", CallerWords { call, drained })?;
    put_line(out, words.as_str())
}

/// Puts the row that tells in which part an entry differs. The one error is want of memory.
fn put_differs(
    out: &mut Vec<u8>,
    words: &mut String,
    entry: &Entry,
    difference: Difference,
) -> Result<(), AllocError>
    ensures { OnOk result
        (AddsRow differs_in (Some (part_text difference entry.now)) out.old.items out.new.items) }
{
    words.clear();
    put_part(words, entry, difference)?;
    put_row(out, "differs in  ", words.as_str())
}

/// Puts a row of this name: what stands in the part that differs, of an entry that the manager made or not. The one
/// error is want of memory.
fn put_says(
    out: &mut Vec<u8>,
    words: &mut String,
    name: &str,
    entry: &Entry,
    difference: Difference,
    is_made: bool,
) -> Result<(), AllocError>
    ensures { OnOk result
        (AddsRow name.now (Some (value_text difference is_made entry.now)) out.old.items out.new.items) }
{
    words.clear();
    put_value(words, entry, difference, is_made)?;
    put_row(out, name, words.as_str())
}

/// Puts the row that tells which rule an entry breaks. The one error is want of memory.
fn put_broken(
    out: &mut Vec<u8>,
    words: &mut String,
    header: Option<&Header>,
    entry: &Entry,
    wrong: &Wrong,
) -> Result<(), AllocError>
    ensures { OnOk result (AddsRow rule None out.old.items out.new.items) }
{
    words.clear();
    put_rule(words, header, entry, wrong)?;
    put_row(out, "rule        ", words.as_str())
}

/// Puts the row that tells the section. The one error is want of memory.
fn put_section(out: &mut Vec<u8>, words: &mut String, section: Section) -> Result<(), AllocError>
    ensures { OnOk result (AddsSection section out.old.items out.new.items) }
{
    words.clear();
    words.push_str("docs/RULES.md, ")?;
    words.push_str(section.title())?;
    put_row(out, "see         ", words.as_str())
}

/// What a refusal comes from, where the entry differs in it.
fn cause_told(wrong: &Wrong) -> Option<Cause>
    ensures { result ≡ cause_told wrong.now.difference wrong.now.cause }
{
    match wrong.difference {
        Difference::Refusal => wrong.cause,
        _ => None,
    }
}

/// Puts the row that tells what a refusal comes from, where the manager refuses the call and the entry differs in that.
/// The one error is want of memory.
fn put_cause(out: &mut Vec<u8>, words: &mut String, wrong: &Wrong) -> Result<(), AllocError>
    ensures { OnOk result
        (AddsCause (cause_told wrong.now.difference wrong.now.cause) out.old.items out.new.items) }
{
    let Some(cause) = cause_told(wrong) else {
        return Ok(());
    };
    words.clear();
    put_reason(words, wrong.made.call, wrong.made.reply, cause)?;
    put_row(out, "why         ", words.as_str())
}

/// Puts the first line and the rows that each block has. The one error is want of memory.
fn put_rows(
    out: &mut Vec<u8>,
    words: &mut String,
    header: Option<&Header>,
    entry: &Entry,
    wrong: &Wrong,
) -> Result<(), AllocError>
    ensures { OnOk result (AddsRows entry.now wrong.now out.old.items out.new.items) }
{
    let difference = wrong.difference;
    put_head(out, words, wrong.at, entry)?;
    put_differs(out, words, entry, difference)?;
    put_says(out, words, "says        ", entry, difference, false)?;
    put_says(out, words, "manager     ", &wrong.made, difference, true)?;
    put_broken(out, words, header, entry, wrong)
}

/// Puts the block that tells what is wrong with an entry, which is the one at the place that is told (this project's
/// own form). The one error is want of memory.
pub fn put_why(
    out: &mut Vec<u8>,
    words: &mut String,
    header: Option<&Header>,
    entry: &Entry,
    wrong: &Wrong,
) -> Result<(), AllocError>
    ensures { OnOk result (AddsWhy entry.now wrong.now out.old.items out.new.items) }
{
    put_rows(out, words, header, entry, wrong)?;
    put_cause(out, words, wrong)?;
    put_section(out, words, section_of(wrong.difference, &wrong.made))
}
