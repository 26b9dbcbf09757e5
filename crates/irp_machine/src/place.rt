//! Where a script stands or how it has ended. A file of its own, since definitions that clauses cite name it.

use crate::outcome::End;
use crate::standing::Standing;

/// Where a script stands, or how it has ended.
#[derive(Drop)]
pub enum Place {
    Running(Standing),
    Over(End),
}
