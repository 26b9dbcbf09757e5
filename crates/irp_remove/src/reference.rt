//! A stake with the lock and the tag that it holds.

use crate::views::View;
use atomic_table::Badge;

/// A stake, and while it holds a reference, the lock and the tag of it. While it holds none these two mean nothing.
///
/// A stake is a party of the table of words. A blank one stands where no stake is (this project's own rule).
#[derive(Drop)]
pub struct Reference {
    pub(crate) stake: Badge<View>,
    pub(crate) lock: u32,
    pub(crate) tag: u32,
}

impl Default for Reference {
    fn default() -> Reference {
        Reference {
            stake: Badge::blank(),
            lock: 0,
            tag: 0,
        }
    }
}
