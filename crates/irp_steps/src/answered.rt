//! What a step was answered. A file of its own, since definitions that clauses cite name this enum.

use irp_transcript::WordReply;
use irp_types::Reply;

/// What a step was answered: by the manager, or by a remove lock or a cancel slot.
#[derive(Clone, Copy, PartialEq, Eq, Debug)]
pub enum Answered {
    Reply(Reply),
    Word(WordReply),
}
