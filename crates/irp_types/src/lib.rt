//! The values of the I/O manager: statuses, references, rules, what closures are shown and answer, calls, replies and
//! the entries of a history. `specs/` has the definitions that every contract of the workspace cites.
#![tactic(auto)]

mod answer;
mod asked;
mod call;
mod entry;
mod history_laws;
mod limit;
pub mod limits;
mod location;
mod names;
mod note;
mod questions;
mod refusal;
mod reply;
mod routine;
mod row;
mod seat_act;
mod shown;
mod status;

pub use answer::{Answer, CancelAnswer, Plan, Replacement};
pub use asked::Asked;
pub use call::{Call, Party};
pub use entry::Entry;
pub use history_laws::{
    entry_settles_next_state, held_packet_is_finished_taken, history_completes_once,
    history_goes_on, history_settles_states, standing_facts_stay,
};
pub use limit::Limit;
pub use location::{Location, Owner, Preparation};
pub use names::{CancelId, DeviceId, DispatchId, DriverId, IrpRef, LockNo};
pub use note::{DrainNote, KnowsNothing};
pub use questions::{Questions, SharedPlace};
pub use refusal::{Refusal, every_refusal, refusal_meaning, refusal_name};
pub use reply::{Reply, Seen};
pub use routine::{CancelRule, Known, RoutineId, Rule, Setting};
pub use row::Row;
pub use seat_act::{Hand, LockAct, SlotAct};
pub use shown::Shown;
pub use status::Status;
