//! How the entries that the seats kept are compared with the history, and their counts added up.

ghost use Rattle.std.specs.Prelude.{◌≡◌, ◌<◌, ◌+◌, length, true, false, All, IfNone, IfSome, sum_by, vec_len, slice_get, ◌==◌};
ghost use Rattle.std.specs.List.{list_any};
ghost use Rattle.irp_types.specs.Histories.{own_entries};
ghost use Rattle.irp_shared.specs.Closing.{AllHere, count_of, IsKept, PartsFrom, PartsAt, IsOfSeat, IsInPlace, Differs};

use irp_manager::Seat;
use irp_types::Entry;
use std::sync::ledger::{Ledger, Share};

/// Where a seat's entries and those that the history has of it part: the place among them, and the place in the history
/// of the entry that stands there, if there is one.
#[derive(Drop)]
pub struct Parting {
    pub index: usize,
    pub place: Option<usize>,
}

/// A seat's entry that isn't the history's own: the seat's number, the place among its entries, the entry that the seat
/// kept there, and the place in the history of the one that stands there in its stead. One of the two may be none.
#[derive(Drop)]
pub struct Difference {
    pub seat: u32,
    pub index: usize,
    pub kept: Option<Entry>,
    pub place: Option<usize>,
}

/// Whether a seat of this number is among these.
fn has_number<L: Ledger>(seats: &[Seat<L>], number: u32) -> bool
    ensures { result ≡ list_any (λ seat. seat.number == number) seats.now }
{
    seats.iter().any(|seat| seat.number() == number)
}

/// Whether these are all seats, each once.
pub fn are_all<L: Ledger>(seats: &[Seat<L>], expected: u32) -> bool
    ensures yes { result ≡ true → AllHere seats.now expected }
    ensures no { result ≡ false → AllHere seats.now expected → ⊥ }
{
    if seats.len() != expected as usize {
        return false;
    }
    for number in 0..expected {
        if !has_number(seats, number) {
            return false;
        }
    }
    true
}

/// Where these entries part from those that a history has of a seat, if they do.
pub fn first_parting(entries: &[Entry], history: &[Entry], seat: u32) -> Option<Parting>
    ensures same { IfNone result (own_entries history.now seat ≡ entries.now) }
    ensures other { IfSome result (PartsFrom history.now entries.now) }
    ensures place { IfSome result (PartsAt history.now seat) }
{
    let mut index = 0;
    for place in 0..history.len() {
        let entry = &history[place];
        if entry.seat == seat {
            if index >= entries.len() || !entries[index].is_same(entry) {
                let place = Some(place);
                return Some(Parting { index, place });
            }
            index += 1;
        }
    }
    if index >= entries.len() {
        return None;
    }
    Some(Parting { index, place: None })
}

/// The entry of a place, taken out of a list, if there is one. It takes no memory.
pub fn taken_out(entries: Vec<Entry>, place: usize) -> Option<Entry>
    ensures { result ≡ slice_get entries.items place }
{
    let mut entries = entries;
    if place >= entries.len() {
        return None;
    }
    Some(entries.swap_remove(place))
}

/// The share and the entries of a seat: the share is merged, and the entries compared with the history.
fn compare<L: Ledger>(all: &mut Share<L>, seat: Seat<L>, history: &[Entry]) -> Option<Difference>
    ensures parts { all.new.parts ≡ all.old.parts + 1 }
    ensures amount { all.new.amount ≡ all.old.amount + length seat.entries }
    ensures same { IfNone result (IsKept history.now seat) }
    ensures differs { IfSome result (IsOfSeat history.now seat) }
    ensures place { IfSome result (IsInPlace history.now) }
{
    let (number, entries, share) = seat.into_parts();
    all.merge(share);
    let Parting { index, place } = first_parting(entries.as_slice(), history, number)?;
    Some(Difference {
        seat: number,
        index,
        kept: taken_out(entries, index),
        place,
    })
}

/// Merges the shares of the seats into the spare one, and compares their entries with the history. Answers all shares
/// in one, and a difference, if there is one: of the first seat in the list that has one.
pub fn gather<L: Ledger>(
    spare: Share<L>,
    seats: Vec<Seat<L>>,
    history: &[Entry],
) -> (Share<L>, Option<Difference>)
    requires { (spare.parts ≡ 0) × (spare.amount ≡ 0) }
    ensures parts { result.0.parts ≡ vec_len seats }
    ensures amount { result.0.amount ≡ sum_by count_of seats.items }
    ensures same { IfNone result.1 (All (IsKept history.now) seats.items) }
    ensures differs { IfSome result.1 (Differs seats.items history.now) }
{
    let mut all = spare;
    let mut left = seats;
    let mut difference = None;
    while let Some(seat) = left.pop() {
        if let Some(other) = compare(&mut all, seat, history) {
            difference = Some(other);
        }
    }
    (all, difference)
}
