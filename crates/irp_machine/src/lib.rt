//! Every order of a script: the machine of its seats' atomic steps, and what the orders end in.
#![tactic(auto)]

mod answering;
mod asker;
mod calling;
mod condition;
mod ending;
mod equal;
mod exploring;
mod header;
mod limits;
mod live_end;
mod machine;
mod marks;
mod next;
mod note;
mod opening;
mod order_laws;
mod outcome;
mod parts;
mod place;
mod planning;
mod replaying;
mod running;
mod standing;
mod terms;

pub use answering::answers_along;
pub use exploring::orders;
pub use header::header_of;
pub use irp_plain::{After, Answered, Told};
pub use limits::{Compared, Limits, NotFound, NotMade};
pub use live_end::{DeviceEnd, LiveEnd};
pub use order_laws::{orders_have_histories, paths_can_be_made, replays_end_so, runs_are_settled};
pub use outcome::{End, Holder, LockEnd, Outcome, Replies, SlotEnd};
pub use replaying::{line_of, replay};
pub use running::Run;
pub use standing::Standing;
