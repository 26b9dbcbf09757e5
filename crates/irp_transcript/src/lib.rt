//! What a transcript says: its header, the entries of a history, and word lines of steps on remove locks and cancel
//! slots.
#![tactic(auto)]

mod header;
mod tokens;
mod transcript;
mod word_line;

pub use header::{Form, Header};
pub use tokens::needs_token;
pub use transcript::{Transcript, TranscriptParts};
pub use word_line::{Act, WordLine, WordReply};
