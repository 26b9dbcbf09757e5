//! The words of the slots. A file of its own, since definitions that clauses cite name this struct.
ghost use Rattle.std.specs.Prelude.{◌≡◌, ◌+◌, ◌*◌, ◌≤◌};
ghost use Rattle.irp_types.specs.Limits.{most_slots};

use crate::plays::Published;
use crate::views::{Parties, View};
use atomic_table::Table;
use std::alloc::Global;

/// Up to 64 cancel slots, a flag and a content each, which any number of threads may share (this project's own rule;
/// WDK: "IoSetCancelRoutine", where the content is the packet's cancel routine and the flag its cancel flag).
///
/// The type keeps the rule `Kept` of this crate between any two atomic steps of any threads: each publication stands
/// in its slot or was taken by one party, and a slot is empty once its owner stands and a request on it has ended.
#[derive(Drop)]
pub struct Slots {
    pub(crate) table: Table<(), View, Parties, Published, Global>,
    ghost counted: { table.shared.table_id.words ≡ 2 * table.shared.key.slots + 1 },
    ghost few: { table.shared.key.slots ≤ most_slots },
}
