//! Scripts: what they say, and reading them from their texts.
#![tactic(auto)]

mod act;
mod acts;
mod condition;
mod conditions;
mod forms;
mod labels;
mod lists;
mod plans;
mod read;
mod refusal;
mod routines;
mod script;
mod taking;

pub use act::{Named, Step, StepAct};
pub use condition::{AnswerWord, Condition, ExpectedAnswer};
pub use labels::Labels;
pub use read::read_script;
pub use refusal::{MemberFault, ScriptFault, ScriptRefusal, Section};
pub use script::{Behaviour, CompletionRoutine, Script, ScriptForm, ScriptParts};
