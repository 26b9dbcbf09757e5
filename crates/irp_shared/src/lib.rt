//! Managers that many seats share. A session ends in a transcript, whose types are passed on.
#![tactic(auto)]

mod closing;
mod lock_turn;
mod locked;
mod mismatch;
mod open_refused;
mod session;
mod shared;

pub use irp_manager::Seat;
pub use irp_transcript::{
    Act, Form, Header, Transcript, TranscriptParts, WordLine, WordReply, needs_token,
};
pub use mismatch::Mismatch;
pub use open_refused::OpenRefused;
pub use session::Session;
pub use shared::{Shared, learn, open, open_with_limit};
