//! Explores every order of the steps of several seats. Orders that lead to equal states are joined and counted.
#![tactic(auto)]

mod exploring;
mod joining;
mod machine;
mod node;
mod path;
mod refusal;

pub use exploring::explore;
pub use machine::Machine;
pub use node::Node;
pub use path::{Path, fewest_changes};
pub use refusal::NotExplored;
