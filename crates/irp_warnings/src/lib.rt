//! What of a script that is taken is hardly meant, told to who writes it.
#![tactic(auto)]

mod conditions;
mod made;
mod warned;
mod warning;

pub use warned::warnings;
pub use warning::Warning;
