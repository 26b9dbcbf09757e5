//! What was done in which time, how it is written, and why the program ends before all is timed.

use irp_transcript_reader::ReadFault;
use std::alloc::AllocError;
use std::num::nearest_u64_to_f64;
use std::rt::Clock;
use std::sync::Wait;
use std::thread::Threads;
use std::time::Duration;
use std::{fmt, io};
use thiserror::Error;

/// The runtime of the loads that start threads, or wait for a turn.
pub trait Host: Threads + Wait + Sync + Clock + AllocGlobal {}

impl<R: Threads + Wait + Sync + Clock + AllocGlobal> Host for R {}

/// What is timed, or else why it isn't.
pub type Timed<T> = Result<T, NotTimed>;

/// Why the program ends before all is timed: its exit status, and a line for standard error (this project's own words).
#[derive(Clone, Copy, Debug, Error)]
pub enum NotTimed {
    /// A transcript was not judged legal.
    #[error("irp_bench: a transcript was not judged legal")]
    NotLegal = 2,
    /// Memory ran out.
    #[error("irp_bench: out of memory")]
    Memory = 3,
    /// The words are none that the program takes; a request for help is one of these.
    #[error("irp_bench: usage: irp_bench [locks|slots|calls|write|read|check]")]
    Usage = 4,
    /// The clock or standard error failed, or a call or a text was not what it should be.
    #[error("irp_bench: the clock, the output or a call failed")]
    Failed = 5,
}

impl From<AllocError> for NotTimed {
    fn from(_error: AllocError) -> NotTimed {
        NotTimed::Memory
    }
}

impl From<io::Error> for NotTimed {
    fn from(_error: io::Error) -> NotTimed {
        NotTimed::Failed
    }
}

impl From<ReadFault> for NotTimed {
    fn from(fault: ReadFault) -> NotTimed {
        match fault {
            ReadFault::Line(_) => NotTimed::Failed,
            ReadFault::NoMemory => NotTimed::Memory,
        }
    }
}

/// What a load did, and how long it took. The least of several is the one that took least.
#[derive(Clone, Copy, PartialEq, Eq, PartialOrd, Ord)]
pub struct Done {
    time: Duration,
    /// How often it did what it is named for. Of several threads each did so many pairs, and all of them so many calls.
    count: u32,
    /// How many bytes the texts have that it wrote or read.
    bytes: u64,
}

impl Done {
    /// So often, with texts of so many bytes, in this time.
    pub fn of(count: u32, bytes: u64, time: Duration) -> Done {
        Done { time, count, bytes }
    }

    /// How many nanoseconds it took each time.
    pub fn nanoseconds(self) -> f64 {
        self.time.as_secs_f64() * 1e9 / f64::from(self.count)
    }
}

impl fmt::Display for Done {
    fn fmt<W: fmt::Write>(&self, f: &mut fmt::Formatter<W>) -> fmt::Result {
        let each = self.nanoseconds();
        if self.bytes == 0 {
            return write!(f, "{each:.1} ns");
        }
        let rate = nearest_u64_to_f64(self.bytes) / 1e6 / self.time.as_secs_f64();
        write!(f, "{each:.1} ns, {rate:.1} MB a second")
    }
}
