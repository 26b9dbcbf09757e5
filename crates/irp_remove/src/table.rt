//! The locks, one word each. A file of its own, since definitions that clauses cite name this struct.
ghost use Rattle.std.specs.Prelude.{◌≡◌, ◌<◌, ◌≤◌};
ghost use Rattle.irp_types.specs.Limits.{most_locks};

use crate::plays::Counted;
use crate::views::{Parties, View};
use atomic_table::Table;
use std::alloc::Global;

/// 1 to 64 remove locks, one word each, which any number of threads may share (WDK: "Using Remove Locks"; that many
/// locks are opened at once, with their seats, is this project's own rule).
///
/// The type keeps the rule `Kept` of this crate between any two atomic steps of any threads: a word is the removed bit
/// and twice the number of stakes that hold the lock or try it, and where an observer knows the lock drained, no stake
/// holds it.
#[derive(Drop)]
pub struct Locks {
    pub(crate) table: Table<(), View, Parties, Counted, Global>,
    ghost counted: { table.shared.table_id.words ≡ table.shared.key.locks },
    ghost few: { table.shared.table_id.words ≤ most_locks },
    ghost some: { 0 < table.shared.table_id.words },
}
