//! A state that orders lead to.

use crate::path::Path;

/// A state, how many orders lead to it, and some of them (this project's own rule).
#[derive(Drop)]
pub struct Node<S> {
    pub state: S,
    /// The number by which nodes are sorted.
    pub(crate) mark: u64,
    /// How many orders lead to the state, 1 to 2^128 - 1.
    pub orders: u128,
    /// Some of these orders, one at least. Of any order that leads to the state, one of them changes its seat no more
    /// often.
    pub fewest: Vec<Path>,
}
