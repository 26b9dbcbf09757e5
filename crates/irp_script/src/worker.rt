//! Workers.

ghost use Rattle.std.specs.Prelude.{◌≡◌, ◌<◌, [], All, None};
ghost use Rattle.irp_script.specs.Seats.{IsAtLocks};

use crate::labels::Known;
use crate::script_seat::ScriptSeat;
use crate::stop::Stop;
use irp_remove::Locks;
use irp_shared::{Session, WordLine};
use irp_steps::Answered;
use std::alloc::Global;

/// One of so many workers: it has the seats whose numbers leave its own number when divided by how many workers there
/// are, and runs their steps. Their remove seats were opened with its locks. It passes over a step whose condition fails,
/// by what its steps were answered, and stops in front of another one that isn't made, and says why.
#[derive(Drop)]
pub struct Worker<'a, L: Session> {
    pub(crate) number: u32,
    pub(crate) workers: u32,
    pub(crate) locks: &'a Locks,
    pub seats: Vec<ScriptSeat<'a, L>>,
    pub words: Vec<WordLine>,
    pub stop: Option<Stop>,
    pub known: Known,
    pub heard: Vec<Option<Answered>>,
    ghost some: { 0 < workers },
    ghost fits: { All (IsAtLocks locks.now) seats.items },
}

impl<'a, L: Session> Worker<'a, L> {
    /// A worker of this number that has these seats, whose remove seats were opened with these locks, knows this of the
    /// labels, has this room for the answers of steps, and has run nothing.
    pub fn new(
        alloc: Global,
        number: u32,
        workers: u32,
        locks: &'a Locks,
        seats: Vec<ScriptSeat<'a, L>>,
        known: Known,
        heard: Vec<Option<Answered>>,
    ) -> Worker<'a, L>
        requires some { 0 < workers }
        requires fits { All (IsAtLocks locks.now) seats.items }
        ensures seats { result.seats ≡ seats.entry }
        ensures number { result.number ≡ number }
        ensures workers { result.workers ≡ workers }
        ensures locks { result.locks.now ≡ locks.now }
        ensures words { result.words.items ≡ [] }
        ensures stop { result.stop ≡ None }
        ensures known { result.known ≡ known }
        ensures heard { result.heard ≡ heard }
    {
        Worker {
            number,
            workers,
            locks,
            seats,
            words: Vec::new(alloc),
            stop: None,
            known,
            heard,
        }
    }
}
