//! Remove locks: a reference count and a removed bit in one word, changed in single atomic steps.
//!
//! Any number of threads may share the [`Locks`], each with a [`RemoveSeat`] of its own. No call but `open` is given an
//! allocator, and none is given a handle to wait with.
#![tactic(auto)]

mod lock_calls;
mod lock_laws;
mod opening;
mod plays;
mod reference;
mod refusal;
mod seat;
mod table;
mod views;

pub use lock_laws::{drained_for_good, table_keeps_rule, word_counts_references};
pub use opening::open;
pub use plays::{Counted, Tagged};
pub use reference::Reference;
pub use refusal::{
    AcquireRefusal, BeginRefusal, DrainRefusal, HandRefusal, OpenRefusal, ReleaseRefusal,
};
pub use seat::RemoveSeat;
pub use table::Locks;
pub use views::{Parties, Stage, View, Watch};
