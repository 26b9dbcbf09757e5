//! The lines of a story.
#![tactic(auto, unfolding(json::specs::Print::escape_byte))]

ghost use Rattle.std.specs.Prelude.{◌≡◌, ◌++◌, OnOk};
ghost use Rattle.std.specs.Option.{option_copied};
ghost use Rattle.serde_json.specs.Written.{compact_text};
ghost use Rattle.irp_judge.specs.Judges.{seen};
ghost use Rattle.irp_story.specs.Lines as spec;

use crate::form::{put, put_one, put_text};
use crate::outcomes::Moved;
use crate::packets::InUse;
use crate::standing::{Standing, standing_of};
use crate::wrongs::WrongAt;
use irp_judge::{Judge, Verdict};
use irp_manager::Live;
use irp_transcript::{Header, WordLine};
use irp_transcript_writer::Written;
use irp_types::{Entry, IrpRef, Reply};
use std::alloc::AllocError;

/// The first line: the header.
#[derive(Drop)]
pub(crate) struct HeaderLine<'a> {
    pub(crate) header: &'a Header,
}

impl Written for HeaderLine<'_> {
    ghost json = { λ line. spec.header_line line.header.now };

    fn write(&self, out: &mut Vec<u8>) -> Result<(), AllocError> {
        put_one(out, "{\"header\":", self.header, "}")
    }
}

/// The packet that an entry is about: the one that its reply gives, else the one that its call names.
fn packet_about(entry: &Entry) -> Option<IrpRef>
    ensures { result ≡ spec.packet_about entry.now }
{
    match entry.reply {
        Reply::Irp(irp) => Some(irp),
        _ => entry.call.packet(),
    }
}

/// A packet, where it is live in this use; else null.
#[derive(Drop)]
struct Use<'a> {
    irp: IrpRef,
    live: Option<&'a Live>,
}

impl Written for Use<'_> {
    ghost json = { λ it. spec.use_json it.irp (option_copied it.live) };

    fn write(&self, out: &mut Vec<u8>) -> Result<(), AllocError> {
        let irp = self.irp;
        match self.live {
            Some(live) if live.use_no == irp.use_no => {
                let packet = &live.packet;
                InUse { irp, packet }.write(out)
            }
            _ => put_text(out, "null"),
        }
    }
}

/// Whether the entry at this place is legal, by a judge that was fed the entries up to it.
#[derive(Drop)]
struct JudgedAt<'a, 'b> {
    place: u64,
    judge: &'a Judge<'b>,
}

impl Written for JudgedAt<'_, '_> {
    ghost json = { λ it. spec.standing_json (spec.standing_of it.place (seen it.judge.now).wrong) };

    fn write(&self, out: &mut Vec<u8>) -> Result<(), AllocError> {
        standing_of(self.place, self.judge).write(out)
    }
}

/// The packet that the entry at this place is about, in the state that a judge keeps behind it; null where none is live,
/// or where the entry stands behind one that isn't legal.
#[derive(Drop)]
struct PacketAt<'a, 'b> {
    place: u64,
    judge: &'a Judge<'b>,
    entry: &'a Entry,
}

impl PacketAt<'_, '_> {
    /// Puts the packet in the state of the judge. The one error is want of memory.
    fn put_then(&self, out: &mut Vec<u8>) -> Result<(), AllocError>
        ensures { OnOk result (out.new.items ≡ out.old.items ++ compact_text
            (spec.packet_then (seen self.now.judge.now).state self.now.entry.now)) }
    {
        match packet_about(self.entry) {
            Some(irp) => {
                let live = self.judge.live(irp.slot);
                Use { irp, live }.write(out)
            }
            None => put_text(out, "null"),
        }
    }
}

impl Written for PacketAt<'_, '_> {
    ghost json = { λ it. spec.packet_known (spec.standing_of it.place (seen it.judge.now).wrong)
        (seen it.judge.now).state it.entry.now };

    fn write(&self, out: &mut Vec<u8>) -> Result<(), AllocError> {
        match standing_of(self.place, self.judge) {
            Standing::Unjudged => put_text(out, "null"),
            Standing::Legal | Standing::Illegal => self.put_then(out),
        }
    }
}

/// The line of the entry at this place, by a judge that was fed the entries up to it.
#[derive(Drop)]
pub(crate) struct EntryLine<'a, 'b> {
    pub(crate) place: u64,
    pub(crate) judge: &'a Judge<'b>,
    pub(crate) entry: &'a Entry,
}

impl Written for EntryLine<'_, '_> {
    ghost json = { λ line. spec.entry_line line.place (seen line.judge.now) line.entry.now };

    fn write(&self, out: &mut Vec<u8>) -> Result<(), AllocError> {
        let place = self.place;
        let judge = self.judge;
        let entry = self.entry;
        put(out, "{\"entry\":", entry)?;
        put(out, ",\"judged\":", &JudgedAt { place, judge })?;
        put(out, ",\"outcome\":", &Moved { entry })?;
        let packet = PacketAt {
            place,
            judge,
            entry,
        };
        put(out, ",\"packet\":", &packet)?;
        put_one(out, ",\"wrong\":", &WrongAt { place, judge }, "}")
    }
}

/// The line of a step on a remove lock or a cancel slot.
#[derive(Drop)]
pub(crate) struct StepLine {
    pub(crate) word: WordLine,
}

impl Written for StepLine {
    ghost json = { λ line. spec.step_line line.word };

    fn write(&self, out: &mut Vec<u8>) -> Result<(), AllocError> {
        put_one(out, "{\"step\":", &self.word, "}")
    }
}

/// The last line: how many entries there are, and the verdict on them.
#[derive(Drop)]
pub(crate) struct VerdictLine {
    pub(crate) entries: u64,
    pub(crate) verdict: Verdict,
}

impl Written for VerdictLine {
    ghost json = { λ line. spec.verdict_line line.entries line.verdict };

    fn write(&self, out: &mut Vec<u8>) -> Result<(), AllocError> {
        put(out, "{\"entries\":", &self.entries)?;
        match self.verdict {
            Verdict::Legal { .. } => { put_text(out, ",\"verdict\":\"legal\",\"wrong_at\":null}") }
            Verdict::Illegal { at } => {
                put_one(out, ",\"verdict\":\"illegal\",\"wrong_at\":", &at, "}")
            }
        }
    }
}
