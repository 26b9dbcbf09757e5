//! Why a session gave no transcript. Source: this project's own rules.

use irp_manager::Seat;
use irp_types::Entry;
use std::sync::ledger::Ledger;

/// Why closing gave no transcript.
#[derive(Drop)]
pub enum Mismatch<L: Ledger> {
    /// The seats handed in are not all seats that were opened, each once: how many were opened, and what was handed in.
    Seats {
        expected: u32,
        given: Vec<Seat<L>>,
    },
    /// A seat's entry and the history's own differ: the seat's number, the place among its entries from 0, the entry
    /// that the seat kept there, and the one that the history has of it there. One of the two may be none.
    Entry {
        seat: u32,
        index: usize,
        kept: Option<Entry>,
        found: Option<Entry>,
    },
}
