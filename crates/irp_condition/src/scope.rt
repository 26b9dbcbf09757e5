//! What a condition may speak of.

use crate::value::Named;

/// The labels of a script, in the order of their places, and how many steps and remove locks it has; whether it is
/// known what steps were answered; and the names that statuses and refusals have.
#[derive(Clone, Copy)]
pub struct Scope<'a> {
    pub labels: &'a [String],
    pub steps: u32,
    pub locks: u32,
    pub knows_replies: bool,
    pub statuses: &'a [Named],
    pub refusals: &'a [Named],
}
