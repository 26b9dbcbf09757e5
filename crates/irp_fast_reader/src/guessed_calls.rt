//! Guesses of calls.

use crate::scan::{Guess, Scan};
use irp_transcript_reader::EntryCall;
use irp_transcript_writer::{each_other_call, each_party_call};
use irp_types::{Call, DeviceId};

/// The call of this name, by the rows: what stands behind the name is next.
macro_rules! guessed {
    (($scan:ident $word:ident $lock:ident $drained:ident) $($call:ident $fields:tt $before:tt $name:literal
        [$($key:literal $holds:ident $value:ident)*];)*) => {
        match $word {
            $($name => {
                $(let $value = $scan.after(concat!(",\"", $key, "\":"))?;)*
                EntryCall { call: Call::$call $fields, lock: $lock, drained: $drained }
            })*
            _ => return None,
        }
    };
}

/// The call of a party, from the party on.
fn guess_party_call(scan: &mut Scan) -> Option<EntryCall> {
    let party = scan.after(":")?;
    let mut cancel = None;
    if scan.word_after(",\"")? == "cancel" {
        cancel = scan.after(":")?;
        scan.pass(",\"do\"")?;
    }
    let name = scan.word_after(":\"")?;
    let (lock, drained) = (None, false);
    Some(each_party_call!(guessed (scan name lock drained) party cancel))
}

/// The call that no party makes, from behind its first key on.
fn guess_other_call(scan: &mut Scan, first: &str) -> Option<EntryCall> {
    let mut device = DeviceId(0);
    if first == "device" {
        device = scan.after(":")?;
        scan.pass(",\"do\"")?;
    }
    let name = scan.word_after(":\"")?;
    let (lock, drained) = (None, false);
    Some(each_other_call!(guessed (scan name lock drained) device lock drained))
}

impl Guess for EntryCall {
    fn guess(scan: &mut Scan) -> Option<EntryCall> {
        let told = match scan.word_after("{\"")? {
            "by" => guess_party_call(scan)?,
            first => guess_other_call(scan, first)?,
        };
        scan.pass("}")?;
        Some(told)
    }
}
