//! What the workers of a run share.

use crate::labels::Labels;
use irp_routines::Ask;
use irp_shared::{Session, Shared};

/// What the workers of a run share: the session, and the labels.
#[derive(Drop)]
pub struct RunContext<'a, A: Ask, L: Session> {
    pub shared: &'a Shared<A, L>,
    pub labels: Labels,
}
