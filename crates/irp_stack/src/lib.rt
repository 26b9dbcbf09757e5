//! Devices and their stacks: which devices there are, and which stands on which.
#![tactic(auto)]

mod device;
mod stacks;

pub use stacks::{Facts, NotCreated, Stacks};
