//! The machine of a script's steps, and the tables of remove locks and cancel slots: the steps of the one are steps of
//! the others. A step's condition holds in the machine where it holds for a worker that runs the script.
#![tactic(auto)]

mod condition_laws;
mod lock_laws;
mod slot_laws;

pub use condition_laws::{both_hear_alike, conditions_hold_alike, nothing_is_heard_at_first};
pub use lock_laws::{
    each_lock_step_is_a_table_step, known_drained_is_held_by_nobody, lock_orders_are_table_orders,
    locks_open_as_a_table,
};
pub use slot_laws::{
    each_slot_step_is_a_table_step, slot_at_rest_is_empty, slot_orders_are_table_orders,
    slots_open_as_a_table,
};
