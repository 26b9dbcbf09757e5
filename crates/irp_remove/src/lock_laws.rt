//! What holds in each state that the rule of the table allows, and so between any two atomic steps of any threads. All
//! of this is this project's own rule.
ghost use Rattle.irp_remove.specs.Laws.{Keeps, BeginsAsFirst, WordLaw, DrainedLaw};

use crate::plays::Counted;
use crate::views::{Parties, View};
use atomic_table::TableRule;

/// The rule of `Counted`, which is the rule of the table that `Locks` has, says at least what `Kept` of this crate
/// says, and the other two laws speak of `Kept`. A table begins with one party, which has all the others yet to make.
pub fn table_keeps_rule()
    ensures rule { Keeps ⟦<Counted as TableRule<(), View, Parties>>⟧.holds }
    ensures first { BeginsAsFirst ⟦<Counted as TableRule<(), View, Parties>>⟧.first }
{}

/// The word of a lock is its removed bit plus twice the number of stakes that hold it or try it. The bit is set exactly
/// where an observer began the removal, and wherever a party found it set. A word is 8,193 at most.
pub fn word_counts_references()
    ensures { WordLaw }
{}

/// Where an observer knows a lock drained, its removal has begun and no stake holds it; what an observer knows drained,
/// it knows after each further step of its own, and a step of another party leaves its view as it was (WDK:
/// "IoReleaseRemoveLockAndWait").
pub fn drained_for_good()
    ensures { DrainedLaw }
{}
