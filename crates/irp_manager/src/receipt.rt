//! What a caller is given for a recorded call.

ghost use Rattle.std.specs.Prelude.{◌≡◌, ◌<◌};
ghost use Rattle.irp_manager.specs.Booked.{most_entries, receipt_of};

use irp_types::{Call, Entry, LockNo, Reply};
use std::marker::Model;
use std::snapshot::Snapshot;
use std::sync::ledger::{Book as Total, Ledger};

/// What an entry of a book's history says, without what was asked. Only the book of the ledger `L` makes one, when it
/// records a call, and [`one_book`](crate::one_book) says that there is one. For contracts alone it also has the
/// history as it was then, with this entry at its end (this project's own rule).
#[derive(Drop)]
pub struct Receipt<L: Ledger> {
    number: u64,
    seat: u32,
    call: Call,
    lock: Option<LockNo>,
    drained: bool,
    reply: Reply,
    history: Snapshot<Vec<Entry>>,
    of: Snapshot<Total<L>>,
}

impl<L: Ledger> Model for Receipt<L> {
    ghost use Rattle.std.specs.Prelude.{◌<◌};
    ghost use Rattle.irp_manager.specs.Booked.{Receipted, most_entries};

    ghost Value = { Receipted };

    ghost view = { λ receipt. record {
      number = receipt.number;
      seat = receipt.seat;
      call = receipt.call;
      lock = receipt.lock;
      drained = receipt.drained;
      reply = receipt.reply;
      history = receipt.history.value.items;
    } };

    ghost invariant = { λ receipt. receipt.number < most_entries };
}

impl<L: Ledger> Receipt<L> {
    /// What tells of this entry, the last of a history whose entries this total counts.
    #[inline]
    pub(super) fn of(entry: &Entry, history: &Vec<Entry>, total: &Total<L>) -> Receipt<L>
        requires { entry.now.number < most_entries }
        ensures { result ≡ receipt_of history.now.items entry.now }
    {
        Receipt {
            number: entry.number,
            seat: entry.seat,
            call: entry.call,
            lock: entry.lock,
            drained: entry.drained,
            reply: entry.reply,
            history: Snapshot::of(history),
            of: Snapshot::of(total),
        }
    }

    /// The entry's number, below 1,000,000.
    pub fn number(&self) -> u64
        ensures number { result ≡ self.now.number }
        ensures few { result < most_entries }
    {
        self.number
    }

    /// The seat that made the call.
    pub fn seat(&self) -> u32
        ensures { result ≡ self.now.seat }
    {
        self.seat
    }

    /// The call.
    pub fn call(&self) -> Call
        ensures { result ≡ self.now.call }
    {
        self.call
    }

    /// The lock of the device that a Delete names, where it is one that was created.
    pub fn lock(&self) -> Option<LockNo>
        ensures { result ≡ self.now.lock }
    {
        self.lock
    }

    /// Whether that lock was known to be drained.
    pub fn drained(&self) -> bool
        ensures { result ≡ self.now.drained }
    {
        self.drained
    }

    /// What the call was answered.
    pub fn reply(&self) -> Reply
        ensures { result ≡ self.now.reply }
    {
        self.reply
    }
}
