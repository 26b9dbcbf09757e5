//! Lines of transcripts, read from JSON.
#![tactic(auto)]

mod entries;
mod entry_calls;
mod forms;
mod headers;
mod line;
mod read_fault;
mod reading;
mod replies;
mod seen;
mod word_lines;

pub use entry_calls::{EntryCall, entry_call_at};
pub use forms::{has_entry, has_word};
pub use line::Line;
pub use read_fault::ReadFault;
pub use reading::Reading;
pub use seen::{MOST_BYTES, Seen, line_at, read_line};
