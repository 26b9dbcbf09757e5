//! What a completion routine does by a plain table. Source: this project's own rule.

use irp_types::Replacement;

/// Whether a completion routine keeps the packet, and what it replaces.
#[derive(Clone, Copy, PartialEq, Eq, Debug)]
pub struct Reaction {
    pub keep: bool,
    pub replacement: Option<Replacement>,
}

/// What a completion routine does by whether the status that it is shown is a success.
#[derive(Clone, Copy, PartialEq, Eq, Debug)]
pub struct Behaviour {
    pub on_success: Reaction,
    pub on_error: Reaction,
}
