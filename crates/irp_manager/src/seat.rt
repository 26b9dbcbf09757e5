//! Who makes calls.

ghost use Rattle.irp_manager.specs.Booked.{most_entries};
ghost use Rattle.std.specs.Prelude.{◌≡◌, ◌<◌, ◌≤◌, ◌+◌, ◌++◌, ◌∷◌, [], length, OnErr, OnOk, if◌then◌else◌, nat_lt};

use irp_types::Entry;
use irp_types::limits::MOST_ENTRIES;
use std::alloc::{AllocError, Global};
use std::marker::Model;
use std::sync::ledger::{Book as Total, Ledger, Share};

/// Who makes calls: a number, how much of the history was seen, the entries of its own calls, and a share of a ledger.
/// By its type the share has one part of the ledger, and its amount is the number of entries. So whoever has all seats
/// of a ledger knows that the numbers of their entries add up to the ledger's total (this project's own rule).
///
/// The parameter `L` names the ledger: a seat is of the ledger that its type names, and of no other.
#[derive(Drop)]
pub struct Seat<L: Ledger> {
    number: u32,
    seen: u64,
    entries: Vec<Entry>,
    share: Share<L>,
}

impl<L: Ledger> Model for Seat<L> {
    ghost use Rattle.std.specs.Prelude.{◌≡◌, ◌-◌, vec_len, vec_capacity, length};
    ghost use Rattle.irp_manager.specs.Seats.{Seated};

    ghost Value = { Seated };

    ghost view = { λ seat. record {
      number = seat.number;
      seen = seat.seen;
      entries = seat.entries.items;
      room = vec_capacity seat.entries - vec_len seat.entries;
    } };

    ghost invariant = { λ seat. (seat.share.parts ≡ 1)
        × (seat.share.amount ≡ length seat.entries.items) };
}

impl<L: Ledger> Seat<L> {
    /// A seat of this number that has seen nothing and has no entries, on condition that its share is one part of the
    /// ledger and counts nothing yet. It takes no memory.
    pub fn new(alloc: Global, number: u32, share: Share<L>) -> Seat<L>
        requires { (share.parts ≡ 1) × (share.amount ≡ 0) }
        ensures { (result.number ≡ number) × (result.seen ≡ 0) × (result.entries ≡ []) }
    {
        Seat {
            number,
            seen: 0,
            entries: Vec::new(alloc),
            share,
        }
    }

    /// The seat's number.
    pub fn number(&self) -> u32
        ensures { result ≡ self.now.number }
    {
        self.number
    }

    /// How many entries of the history the seat has seen.
    pub fn seen(&self) -> u64
        ensures { result ≡ self.now.seen }
    {
        self.seen
    }

    /// The entries of the seat's own calls, in order.
    pub fn entries(&self) -> &[Entry]
        ensures { result.now ≡ self.now.entries }
    {
        self.entries.as_slice()
    }

    /// How many entries the seat has.
    pub fn count(&self) -> usize
        ensures { result ≡ length self.now.entries }
    {
        self.entries.len()
    }

    /// The seat's share of the ledger: one part, whose amount is the number of the seat's entries.
    pub fn share(&self) -> &Share<L>
        ensures { (result.now.parts ≡ 1) × (result.now.amount ≡ length self.now.entries) }
    {
        &self.share
    }

    /// Makes room for one more entry. Either way the seat says what it said.
    ///
    /// # Errors
    ///
    /// `AllocError` where a growth was refused, and then the seat is as it was.
    pub fn room(&mut self) -> Result<(), AllocError>
        ensures ok { OnOk result (0 < self.new.room) }
        ensures err { OnErr result (self.new ≡ self.old) }
        ensures same { (self.new.number ≡ self.old.number) × (self.new.seen ≡ self.old.seen)
            × (self.new.entries ≡ self.old.entries) }
    {
        self.entries.reserve(1)
    }

    /// Takes one more entry, on condition that there is room for it, and counts it in the ledger's total. The seat has
    /// seen up to it.
    pub(super) fn took(&mut self, entry: Entry, total: &mut Total<L>)
        requires room { 0 < self.old.room }
        requires few { entry.number < most_entries }
        ensures entries { self.new.entries ≡ self.old.entries ++ entry ∷ [] }
        ensures number { self.new.number ≡ self.old.number }
        ensures seen { self.new.seen ≡ entry.number + 1 }
        ensures total { total.new.total ≡ total.old.total + 1 }
    {
        total.add(&mut self.share, 1);
        self.seen = entry.number + 1;
        self.entries.push_reserved(entry);
    }

    /// Counts more than a history has room for in one total, and finds the count in another: so they are one.
    pub(super) fn finds_one(&mut self, one: &mut Total<L>, other: &mut Total<L>)
        requires { other.old.total ≤ most_entries }
        ensures { ⊥ }
    {
        one.add(&mut self.share, MOST_ENTRIES as u64 + 1);
        other.audit(&mut self.share);
    }

    /// The seat has seen this many entries, or more if it had seen more.
    pub fn saw(&mut self, length: u64)
        ensures { self.new ≡ record self.old {
          seen = if nat_lt self.old.seen length then length else self.old.seen;
        } }
    {
        if self.seen < length {
            self.seen = length;
        }
    }

    /// The number, the entries and the share.
    pub fn into_parts(self) -> (u32, Vec<Entry>, Share<L>)
        ensures number { result.0 ≡ self.number }
        ensures entries { result.1.items ≡ self.entries }
        ensures share { (result.2.parts ≡ 1) × (result.2.amount ≡ length self.entries) }
    {
        (self.number, self.entries, self.share)
    }
}
