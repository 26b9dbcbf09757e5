//! What a seat has taken out of a cancel slot. A file of its own, since definitions that clauses cite name this struct.

use irp_slots::Token;

/// A slot that a seat has taken a use out of, and the token that came with it. None once the token is spent.
#[derive(Drop)]
pub struct Taken {
    pub slot: u32,
    pub token: Option<Token>,
}
