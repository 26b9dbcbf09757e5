//! Scripts at work: what their seats have at the cancel slots, the workers that run their steps, and hands between
//! these.
#![tactic(auto)]

mod between;
mod binding;
mod due;
mod founded;
mod gate;
mod heard;
mod labels;
mod meeting;
mod run;
mod run_context;
mod run_fault;
mod script_seat;
mod seat_steps;
mod slot_parties;
mod slot_replies;
mod step_gate;
mod stop;
mod taken;
mod words;
mod worker;
mod worker_steps;

pub use between::hand_between;
pub use due::Due;
pub use gate::{AlwaysOpen, Gate};
pub use run::{Worked, run_workers, script_seats};
pub use run_fault::RunFault;
pub use script_seat::ScriptSeat;
pub use stop::{Stop, StopReason};
