//! Where texts come from, and where they go: an input up to a limit, outputs that count their failures.
#![tactic(auto)]

mod out;
mod reading;
mod writer_out;

pub use out::{Failed, Out, put_all, send};
pub use reading::{StreamFault, read_up_to};
pub use writer_out::WriterOut;
