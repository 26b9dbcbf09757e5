//! A step's condition holds in the machine where it holds for a worker that runs the script. Each law is the contract of
//! a function that does nothing. All of this is this project's own rule.
ghost use Rattle.irp_machine_laws.specs.ConditionLaws.{ConditionLaw, HearingLaw, NothingHeardLaw};

/// A condition holds for a seat of the machine exactly where it holds for a worker that runs the script, where both have
/// heard the same of the step that the condition names.
pub fn conditions_hold_alike()
    ensures { ConditionLaw }
{}

/// As the steps begin, a seat of the machine and a worker have heard the same of each step: nothing.
pub fn nothing_is_heard_at_first()
    ensures { NothingHeardLaw }
{}

/// When a step is answered of which the seat has heard nothing, and of whose answer the worker has a place, both go on to
/// have heard the same of each step.
pub fn both_hear_alike()
    ensures { HearingLaw }
{}
