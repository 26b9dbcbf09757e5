//! Scripts in words: a text with a step on each line, and the JSON of the script that it says.
#![tactic(auto)]

mod condition;
mod cursor;
mod law;
mod lines;
mod members;
mod names;
mod near;
mod numbers;
mod read;
mod said;
mod same;
mod step_line;
mod steps;
mod to_json;
mod to_words;
mod values;
mod wanted;

pub use cursor::{WordsFault, fault_lines};
pub use law::{Told, Untold, json, json_of};
pub use read::read_lines;
pub use said::Said;
pub use to_words::words;
pub use wanted::Wanted;
