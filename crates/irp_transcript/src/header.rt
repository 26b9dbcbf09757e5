//! What a transcript was made with. Source: this project's own format (docs/FORMATS.md).

ghost use Rattle.std.specs.Prelude.{◌≡◌, ◌↔◌, ◌≤◌, ◌<◌, true};
ghost use Rattle.std.specs.List.{All};
ghost use Rattle.std.specs.List.Sorted.{IsStrictlyIncreasing};
ghost use Rattle.irp_types.specs.Limits.{last_major};
ghost use Rattle.irp_types.specs.Rules.{IsWithin};
ghost use Rattle.irp_types.specs.State.{Entrance, IsDriver};
ghost use Rattle.irp_transcript.specs.Headers.{IsHeader, HasCounts, fixed_of, limit_of, majors, slots_of};

use irp_types::limits::{
    LAST_MAJOR, MOST_DISPATCHES, MOST_DRIVERS, MOST_LOCKS, MOST_ROUTINES, MOST_SEATS, MOST_SLOTS,
};
use irp_types::{CancelRule, DispatchId, Known, Limit, Row};

/// As many routines of each kind as there may be.
const MOST_KNOWN: Known = Known {
    watch: MOST_ROUTINES,
    change: MOST_ROUTINES,
    keeper: MOST_ROUTINES,
    keep_on_error: MOST_ROUTINES,
    free: MOST_ROUTINES,
    cancel: MOST_ROUTINES,
};

/// Which forms a transcript's lines have, as its header tells.
#[derive(Clone, Copy, PartialEq, Eq, Debug)]
pub enum Form {
    /// Entries of the manager's calls, and word lines of steps on remove locks. Packets have 16 locations at most, and
    /// stacks 16 devices.
    One,
    /// The same, with packets in cancel slots and steps on slots, and with references that are handed over. Packets
    /// have 32 locations at most, and stacks 32 devices.
    Two {
        /// How many cancel slots there are, at most 64.
        slots: u32,
    },
}

impl Form {
    /// The form of a session's transcript with this limit: it has no cancel slots.
    pub fn with_limit(limit: Limit) -> Form
        ensures limit { limit_of result ≡ limit }
        ensures slots { slots_of result ≡ 0 }
    {
        match limit {
            Limit::Sixteen => Form::One,
            Limit::ThirtyTwo => Form::Two { slots: 0 },
        }
    }

    /// The limit on packets and stacks in the manager whose calls the entries are.
    pub fn limit(self) -> Limit
        ensures { result ≡ limit_of self }
    {
        match self {
            Form::One => Limit::Sixteen,
            Form::Two { .. } => Limit::ThirtyTwo,
        }
    }

    /// How many cancel slots there are: none in form 1.
    pub fn slots(self) -> u32
        ensures { result ≡ slots_of self }
    {
        match self {
            Form::One => 0,
            Form::Two { slots } => slots,
        }
    }
}

/// What a transcript was made with, as its first line says.
///
/// The formats accept a header whose tables agree with each other and are within the limits, with 1 to 64 remove locks,
/// 1 to 64 seats and at most 64 cancel slots.
#[derive(Drop)]
pub struct Header {
    /// The rules of the cancel routines, by number. There are at most 256.
    pub cancels: Row<CancelRule>,
    /// How many completion routines of each rule there are, at most 256 of each, and how many cancel routines. The
    /// last is the length of `cancels` in a header that is accepted, and isn't written.
    pub completions: Known,
    /// The routines that each dispatch may name, by the dispatch's number. There are at most 256.
    pub dispatches: Row<Known>,
    /// The drivers by number: major function codes, rising, and their dispatches. There are at most 64.
    pub drivers: Row<Row<(u8, DispatchId)>>,
    /// Which forms the lines have.
    pub form: Form,
    /// How many remove locks there are.
    pub locks: u32,
    /// How many seats there are.
    pub seats: u32,
}

/// Whether each of these is within the counts.
fn are_within(known: &[Known], counts: Known) -> bool
    ensures { result ≡ true ↔ All (λ one. IsWithin one counts) known.now }
{
    for one in known {
        if !one.is_within(counts) {
            return false;
        }
    }
    true
}

/// Whether the major function codes of these pairs rise.
fn is_rising(pairs: &[(u8, DispatchId)]) -> bool
    ensures { result ≡ true ↔ IsStrictlyIncreasing (majors pairs.now) }
{
    for place in 1..pairs.len() {
        if pairs[place - 1].0 >= pairs[place].0 {
            return false;
        }
    }
    true
}

/// Whether each of these pairs has a major function code.
fn have_majors(pairs: &[(u8, DispatchId)]) -> bool
    ensures { result ≡ true ↔ All (λ (entrance : Entrance). entrance.0 ≤ last_major) pairs.now }
{
    for pair in pairs {
        if pair.0 > LAST_MAJOR {
            return false;
        }
    }
    true
}

/// Whether each of these pairs names one of so many dispatches.
fn are_named(pairs: &[(u8, DispatchId)], dispatches: usize) -> bool
    ensures { result ≡ true ↔ All (λ (entrance : Entrance). entrance.1.0 < dispatches) pairs.now }
{
    for pair in pairs {
        if pair.1.0 as usize >= dispatches {
            return false;
        }
    }
    true
}

impl Header {
    /// Whether these pairs can be a driver's.
    fn is_driver(&self, pairs: &[(u8, DispatchId)]) -> bool
        ensures { result ≡ true ↔ IsDriver (fixed_of self.now).tables pairs.now }
    {
        is_rising(pairs) && have_majors(pairs) && are_named(pairs, self.dispatches.as_slice().len())
    }

    /// Whether the pairs of each of these can be a driver's.
    fn are_drivers(&self, drivers: &[Row<(u8, DispatchId)>]) -> bool
        ensures { result ≡ true ↔ All (IsDriver (fixed_of self.now).tables) drivers.now }
    {
        for driver in drivers {
            if !self.is_driver(driver.as_slice()) {
                return false;
            }
        }
        true
    }

    /// Whether there are as many of each thing as there may be.
    fn has_counts(&self) -> bool
        ensures { result ≡ true ↔ HasCounts self.now }
    {
        self.completions.cancel as usize == self.cancels.as_slice().len()
            && self.completions.is_within(MOST_KNOWN)
            && self.dispatches.as_slice().len() <= MOST_DISPATCHES
            && self.drivers.as_slice().len() <= MOST_DRIVERS
            && 1 <= self.locks
            && self.locks <= MOST_LOCKS
            && 1 <= self.seats
            && self.seats <= MOST_SEATS
            && self.form.slots() <= MOST_SLOTS
    }

    /// Whether the formats accept it: its tables agree with each other and are within the limits, with 1 to 64 remove
    /// locks, 1 to 64 seats and at most 64 cancel slots.
    pub fn is_accepted(&self) -> bool
        ensures { result ≡ true ↔ IsHeader self.now }
    {
        if !self.has_counts() {
            return false;
        }
        if !are_within(self.dispatches.as_slice(), self.completions) {
            return false;
        }
        self.are_drivers(self.drivers.as_slice())
    }
}
