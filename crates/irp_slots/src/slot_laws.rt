//! What holds in each state that the rule of the table allows, and so between any two atomic steps of any threads. All
//! of this is this project's own rule.
ghost use Rattle.irp_slots.specs.Laws.{Keeps, BeginsAsFirst, OnceLaw, RestLaw, EmptyLaw, LostLaw, FlagLaw, OrderLaw};

use crate::plays::Published;
use crate::views::{Parties, View};
use atomic_table::TableRule;

/// The rule of `Published`, which is the rule of the table that `Slots` has, says at least what `Kept` of this crate
/// says, and the other laws speak of `Kept`. A table begins with one party, which has all the others yet to make.
pub fn table_keeps_rule()
    ensures rule { Keeps ⟦<Published as TableRule<(), View, Parties>>⟧.holds }
    ensures first { BeginsAsFirst ⟦<Published as TableRule<(), View, Parties>>⟧.first }
{}

/// Each publication is taken by exactly one party or still stands in its slot, and nothing else is taken or stands.
pub fn taken_once()
    ensures { OnceLaw }
{}

/// The slot of an owner that is idle or done is empty.
pub fn resting_is_empty()
    ensures { RestLaw }
{}

/// Where an owner stands and some canceller has ended a request on its slot, the slot is empty; a request that has
/// ended has ended for good.
pub fn empty_once_asked()
    ensures { EmptyLaw }
{}

/// Where an owner is done and has not taken its use, exactly one canceller has it, once.
pub fn lost_is_taken()
    ensures { LostLaw }
{}

/// A flag is set exactly where some canceller has set it. It is set where one has ended a request, and where the slot's
/// owner has found it set.
pub fn flag_tells_of_a_request()
    ensures { FlagLaw }
{}

/// What each party knows is what its steps in their order can make it know. An owner that has taken its use out, or has
/// lost it, stood or found the flag set; a canceller that has taken a use out of a slot has set the slot's flag. When an
/// owner read the flag no state tells.
pub fn parties_keep_order()
    ensures { OrderLaw }
{}
