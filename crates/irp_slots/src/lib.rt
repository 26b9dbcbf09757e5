//! Cancel slots: a use of a packet that its owner publishes, and that one party at most takes.
//!
//! Any number of threads may share the [`Slots`], each with the [`SlotOwner`]s and the [`Canceller`] that it was
//! given. No call but `open` is given an allocator, and none is given a handle to wait with.
#![tactic(auto)]

mod answers;
mod canceller;
mod opening;
mod owner;
mod plays;
mod slot_calls;
mod slot_laws;
mod table;
mod views;

pub use answers::{OpenRefusal, Publication, Request, Token, Withdrawal};
pub use canceller::Canceller;
pub use opening::open;
pub use owner::SlotOwner;
pub use plays::Published;
pub use slot_laws::{
    empty_once_asked, flag_tells_of_a_request, lost_is_taken, parties_keep_order, resting_is_empty,
    table_keeps_rule, taken_once,
};
pub use table::Slots;
pub use views::{Asking, Owning, Parties, Stage, View};
