//! Plain parts of where a script stands, which can be copied and compared: a keep of live packets; remove locks, cancel
//! slots and seats, with what each atomic step changes; lists of values that can be told apart. Source: this project's
//! own rule.
#![tactic(auto)]

mod alike;
mod answered;
mod changes;
mod equal;
mod freed;
mod keep;
mod lists;
mod parts;
mod same;
mod seat_state;

pub use alike::{copy_of_manager, is_same_manager};
pub use answered::{Answered, Told};
pub use changes::{bound, going, hand, on_lock, only, publish, request, told, withdraw};
pub use equal::are_labels;
pub use freed::{next_slot, note_freed};
pub use keep::PlainKeep;
pub use lists::{push_if, put_at};
pub use parts::{
    ActPlace, After, Change, Given, Held, Learned, NewLabel, NewSlot, NewWord, Slot, Stage, Taken,
};
pub use same::{Same, are_same};
pub use seat_state::{SeatState, knows_drained, place_of_taken};
