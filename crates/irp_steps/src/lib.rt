//! What a script's steps say: the kind of each, its call, the packet that it names and the label that it binds, when its
//! condition holds, and what the closures of a script answer.
#![tactic(auto)]

mod answered;
mod behaviours;
mod conditions;
mod forms;
mod labels;
mod step_call;
mod step_kind;

pub use answered::Answered;
pub use behaviours::{cancel_rule, table_answer, table_cancel, table_plan};
pub use conditions::{allows, expects, expects_reply, expects_word, holds, named_answer};
pub use forms::form_of;
pub use labels::{UNBOUND, label_at, label_of, packet_in, packet_of};
pub use step_call::{call_of, kind_of, named_by};
pub use step_kind::StepKind;
