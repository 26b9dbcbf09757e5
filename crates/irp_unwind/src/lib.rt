//! What becomes of a packet that is sent: which devices it reaches, which completion routines run when one of them
//! finishes it, what each is shown, and who owns the packet afterwards.
#![tactic(auto)]

mod descent;
mod device;
mod ending;
mod turn;
mod unwinding;
mod unwinding_laws;

pub use descent::descend;
pub use ending::{Ending, Sent};
pub use unwinding::unwind;
pub use unwinding_laws::{descent_is_settled, unwinding_is_settled};
