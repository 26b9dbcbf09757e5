//! A test bench of one's own: two threads send reads down a stack of two devices, which is then taken away.
//!
//! The disk finishes each read. The filter above it forwards each, and watches it come back. A thread holds the remove
//! lock while its packet is under way, so the lock is drained once both are done.
//!
//! What is printed is the same however the threads take turns. The transcript, whose order is theirs, goes to standard
//! error; `irpx check` judges such a transcript.
#![tactic(auto)]

mod bench;
mod caller;
mod drivers;

use crate::drivers::{Drivers, FILTER_KNOWS, forwarded};
use irp_judge::{Verdict, check};
use irp_routines::{Dispatch, Routine};
use irp_shared::Transcript;
use irp_streams::WriterOut;
use irp_transcript_writer::write_transcript;
use irp_types::{Answer, Known, Plan, Reply, Rule, Shown, Status};
use std::io;
use std::sync::Arc;
use std::sync::atomic::{AtomicU64, Ordering};

/// How many calls the manager refused.
fn count_refused(transcript: &Transcript) -> usize {
    let entries = transcript.entries().iter();
    entries
        .filter(|entry| matches!(entry.reply, Reply::Refused(_)))
        .count()
}

/// Prints how many reads came back, how many calls were refused and what is to be said of the history, and writes the
/// transcript to standard error.
fn tell(rt: &HostRuntime, transcript: &Transcript, watched: u64) -> io::Result<()> {
    println!(rt; "the filter saw {watched} reads come back")?;
    println!(rt; "refused {}", count_refused(transcript))?;
    match check(rt.alloc(), transcript)? {
        Verdict::Legal { entries } => println!(rt; "legal {entries}")?,
        Verdict::Illegal { at } => println!(rt; "illegal {at}")?,
    }
    let mut output = WriterOut::new(rt.stderr());
    match write_transcript(rt.alloc(), &mut output, transcript) {
        Ok(()) => Ok(()),
        Err(_) => Err(io::Error::from(io::ErrorKind::Other)),
    }
}

fn main(rt: HostRuntime) -> io::Result<()> {
    let alloc = rt.alloc();
    let watched = Arc::new(alloc, AtomicU64::new(0))?;
    let counter = watched.clone()?;
    // A routine of rule Watch continues and replaces nothing. What it does besides is its own: this one counts.
    let watch = move |shown: Shown| {
        counter.fetch_add(1, Ordering::SeqCst);
        let keep = false;
        Answer {
            keep,
            mark: Rule::right_mark(shown, keep),
            replacement: None,
        }
    };
    let filter = |shown: Shown| forwarded(shown);
    let disk = |shown: Shown| Plan::Finish {
        status: Status::SUCCESS,
        information: shown.word,
    };
    let drivers = Drivers {
        watch: Routine::new(Rule::Watch, Box::new(alloc, watch)?),
        filter: Dispatch::new(FILTER_KNOWS, Box::new(alloc, filter)?),
        disk: Dispatch::new(Known::NONE, Box::new(alloc, disk)?),
    };
    let Some(transcript) = drivers.run(&rt, alloc) else {
        return Err(io::Error::from(io::ErrorKind::OutOfMemory));
    };
    tell(&rt, &transcript, watched.load(Ordering::SeqCst))
}
