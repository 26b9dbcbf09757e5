//! Acts: their words, keys and names. And the small forms of scripts and transcripts, read from JSON values.
#![tactic(auto)]

mod from_value;
mod key_parts;
mod list;
mod names;
mod parts;
mod questions;
mod step_names;
mod told;
mod unread;
mod values;

pub use from_value::{FromValue, nth, under};
pub use key_parts::Part;
pub use list::{FromJson, list_at};
pub use names::{Flags, HasName, flags_named, named};
pub use parts::{has_items, has_keys, of_items, only_keys};
pub use questions::keep_named;
pub use step_names::{ActKey, ActKind, StepPlace, acts_are_named_apart, kind_of};
pub use told::{Told, call_of, hand_of, lock_act_of, told_at};
pub use unread::{Unread, form_of};
pub use values::completions_at;
