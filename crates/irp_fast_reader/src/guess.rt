//! Guesses of entries, and of their replies.

use crate::guessed_questions::guess_asked;
use crate::scan::{Guess, Scan};
use irp_forms::named;
use irp_transcript_reader::EntryCall;
use irp_types::{Asked, Entry, Questions, Reply, Seen};
use std::alloc::Global;

impl Guess for Seen {
    fn guess(scan: &mut Scan) -> Option<Seen> {
        let seen = Seen {
            owner: scan.after("[")?,
            current: scan.after(",")?,
            status: scan.after(",")?,
            information: scan.after(",")?,
            cancel: scan.after(",")?,
            cancel_routine: scan.after(",")?,
            pending_returned: scan.after(",")?,
            marked: scan.after(",")?,
        };
        scan.pass("]")?;
        Some(seen)
    }
}

impl Guess for Reply {
    fn guess(scan: &mut Scan) -> Option<Reply> {
        if scan.is_next(b'"') {
            scan.pass("\"done\"")?;
            return Some(Reply::Done);
        }
        let reply = match scan.word_after("{\"")? {
            "status" => Reply::Status(scan.after(":")?),
            "device" => Reply::Device(scan.after(":")?),
            "irp" => Reply::Irp(scan.after(":")?),
            "previous" => Reply::Previous(scan.after(":")?),
            "cancelled" => Reply::Cancelled(scan.after(":")?),
            "seen" => Reply::Seen(scan.after(":")?),
            _ => Reply::Refused(named(scan.word_after(":\"")?)?),
        };
        scan.pass("}")?;
        Some(reply)
    }
}

/// The entry that the line tells, if this project wrote it; else any entry, or none. None also where memory ran out.
/// `asked` is a room in which the questions are gathered.
pub fn guess_entry(alloc: Global, line: &[u8], asked: &mut Vec<Asked>) -> Option<Entry> {
    let mut scan = Scan::new(line);
    scan.pass("{\"asked\":[")?;
    guess_asked(&mut scan, asked)?;
    let called: EntryCall = scan.after("],\"call\":")?;
    let number = scan.after(",\"n\":")?;
    let reply = scan.after(",\"reply\":")?;
    let seat = scan.after(",\"seat\":")?;
    let asked = Vec::from_slice(alloc, asked.as_slice()).ok()?;
    Some(Entry {
        number,
        seat,
        call: called.call,
        lock: called.lock,
        drained: called.drained,
        asked: Questions::from_vec(asked),
        reply,
    })
}
