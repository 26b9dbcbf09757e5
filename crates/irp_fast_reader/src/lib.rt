//! The texts of transcripts, read fast.
//!
//! - [`read_transcript`] reads bytes as a transcript, or answers the first line that is refused.
//! - [`Reader`] reads a transcript, too, and is fed its bytes block after block; it gives each line as it ends.
//! - [`write_fitting`] writes a transcript while its lines fit, so that what went out is read again as the same.
//!
//! What was written is read again as the same: that is a law of the form of transcripts. So an entry of a line is
//! guessed, and the guess is written: where what was written is the line, and the entry fits, the line is read as that
//! entry (`entry_is_read`). Nothing is promised of a guess. Any other line is read as `irp_transcript_reader` does.
#![tactic(auto)]

mod by_guess;
mod fits;
mod fitting;
mod guess;
mod guessed_calls;
mod guessed_parts;
mod guessed_questions;
mod line_reader;
mod read;
mod reader;
mod round_trip;
mod scan;
mod unfit;
mod write;

pub use irp_transcript_reader::{Line, ReadFault};
pub use read::read_transcript;
pub use reader::Reader;
pub use round_trip::{read_again, written_is_read};
pub use unfit::{Unfit, Unwritten};
pub use write::write_fitting;
