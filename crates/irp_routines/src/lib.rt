//! The code that the I/O manager asks, beside the rules that it keeps: completion routines, dispatches and cancel
//! routines, the tables by which they are named, and the trait by which the layers above ask them.
#![tactic(auto)]

mod answer_table;
mod ask;
mod behaviour;
mod cancel_routine;
mod dispatch;
mod drivers;
mod fixed_tables;
mod guard;
mod not_added;
mod routine;
mod store;
mod told;

pub use answer_table::AnswerTable;
pub use ask::Ask;
pub use behaviour::{Behaviour, Reaction};
pub use cancel_routine::{CancelClosure, CancelRoutine};
pub use dispatch::{Dispatch, DispatchClosure};
pub use fixed_tables::{FixedTables, Parts};
pub use guard::{guarded_answer, guarded_cancel, guarded_plan};
pub use not_added::{NotAdded, Reason};
pub use routine::{CompletionClosure, Routine};
pub use store::Store;
