//! The calls of a legal history that are refused.

ghost use Rattle.std.specs.Prelude.{◌≡◌, ◌+◌, ◌<◌, ◌≤◌, ◌^◌, ◌++◌, ◌∷◌, List, [], length, OnOk, take};
ghost use Rattle.std.specs.List.{flat_map};
ghost use Rattle.irp_types.specs.declared.entry.Entry.{Entry};
ghost use Rattle.irp_judge.specs.Differences.{refusal_in};
ghost use Rattle.irp_transcript_reader.specs.Reading.{with_line};
ghost use Rattle.irp_transcript.specs.Transcripts.{TranscriptValue};
ghost use Rattle.irp_view.specs.RefusedCalls.{HasNoted, more_text, most_told, refused_from, refused_line, refused_text};

use irp_fast_reader::Line;
use irp_listing::put_line;
use irp_names::refusal_name;
use irp_types::{Entry, Refusal, Reply};
use std::alloc::{AllocError, Global};

/// As many refused calls as are told.
const MOST_TOLD: usize = 10;

/// The calls that are refused, of the entries that came so far.
#[derive(Drop)]
pub struct RefusedCalls {
    /// How many entries came.
    entries: u64,
    /// How many calls are refused.
    count: u64,
    /// The first 10: the place of each, from 0, and its refusal.
    first: Vec<(u64, Refusal)>,
}

/// The refusal that a reply is.
fn refusal_in(reply: Reply) -> Option<Refusal>
    ensures { result ≡ refusal_in reply }
{
    match reply {
        Reply::Refused(refusal) => Some(refusal),
        _ => None,
    }
}

impl RefusedCalls {
    /// None so far. It takes no memory.
    pub fn new(alloc: Global) -> RefusedCalls
        ensures { HasNoted result [] }
    {
        RefusedCalls {
            entries: 0,
            count: 0,
            first: Vec::new(alloc),
        }
    }

    /// Notes how the call at a place is refused. The one error is want of memory.
    fn put(&mut self, place: u64, refusal: Refusal) -> Result<(), AllocError>
        ensures entries { self.new.entries ≡ self.old.entries }
        ensures count { self.old.count + 1 < 2 ^ 64
            → OnOk result (self.new.count ≡ self.old.count + 1) }
        ensures first { length self.old.first.items ≤ most_told → OnOk result (self.new.first.items
            ≡ take most_told (self.old.first.items ++ (place, refusal) ∷ [])) }
    {
        self.count = self.count.saturating_add(1);
        if self.first.len() < MOST_TOLD {
            self.first.push((place, refusal))?;
        }
        Ok(())
    }

    /// Takes the next entry. Of more than 2⁶⁴ - 1 entries the rest counts as none. The one error is want of memory.
    pub fn entry(&mut self, entry: &Entry) -> Result<(), AllocError>
        ensures { (entries : List Entry) → HasNoted self.old entries → length entries + 1 < 2 ^ 64
            → OnOk result (HasNoted self.new (entries ++ entry.now ∷ [])) }
    {
        let place = self.entries;
        self.entries = place.saturating_add(1);
        match refusal_in(entry.reply) {
            Some(refusal) => self.put(place, refusal),
            None => Ok(()),
        }
    }
}

/// Takes the next line, where it is an entry. The one error is want of memory.
pub fn note_line(refused: &mut RefusedCalls, line: &Line) -> Result<(), AllocError>
    ensures { (before : TranscriptValue) → HasNoted refused.old before.entries
        → length before.entries + 1 < 2 ^ 64
        → OnOk result (HasNoted refused.new (with_line before line.now).entries) }
{
    match line {
        Line::Entry(entry) => refused.entry(entry),
        Line::Word(_) | Line::Header(_) => Ok(()),
    }
}

/// Puts a refused call into a line. The one error is want of memory.
fn put_call(words: &mut String, call: (u64, Refusal)) -> Result<(), AllocError>
    ensures { OnOk result (words.new.bytes.items ≡ words.old.bytes.items ++ refused_text call) }
{
    write!(words, ", entry {} {}", call.0, refusal_name(call.1))
}

/// Puts the first refused calls into a line. The one error is want of memory.
fn put_first(words: &mut String, first: &[(u64, Refusal)]) -> Result<(), AllocError>
    ensures { OnOk result
        (words.new.bytes.items ≡ words.old.bytes.items ++ flat_map refused_text first.now) }
{
    for call in first {
        put_call(words, *call)?;
    }
    Ok(())
}

/// Puts how many more there are into a line. The one error is want of memory.
fn put_more(words: &mut String, more: u64) -> Result<(), AllocError>
    ensures { OnOk result (words.new.bytes.items ≡ words.old.bytes.items ++ more_text more) }
{
    if more == 0 {
        return Ok(());
    }
    write!(words, ", and {} more", more)
}

/// Puts the line that tells how many calls are refused, and which, where there are some. The one error is want of
/// memory.
pub fn put_refused(
    out: &mut Vec<u8>,
    words: &mut String,
    refused: &RefusedCalls,
) -> Result<(), AllocError>
    ensures { (entries : List Entry) → HasNoted refused.now entries
        → OnOk result (out.new.items ≡ out.old.items ++ refused_line (refused_from 0 entries)) }
{
    if refused.count == 0 {
        return Ok(());
    }
    words.clear();
    write!(words, "refused calls: {}", refused.count)?;
    put_first(words, refused.first.as_slice())?;
    put_more(words, refused.count.saturating_sub(MOST_TOLD as u64))?;
    put_line(out, words.as_str())
}
