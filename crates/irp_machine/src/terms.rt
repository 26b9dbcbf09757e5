//! What a header tells a manager. A file of its own, since definitions that clauses cite name it. Source: this project's
//! own rule.

use irp_types::{Known, Limit};

/// How many closures a manager's calls may ask, how many remove locks there are, and the limit on packets and stacks.
#[derive(Clone, Copy, PartialEq, Eq)]
pub struct Terms {
    pub counts: Known,
    pub locks: u32,
    pub limit: Limit,
}
