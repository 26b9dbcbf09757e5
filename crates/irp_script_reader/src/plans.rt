//! What the plans and the drivers of a script may name. Source: this project's own format (docs/FORMATS.md).

ghost use Rattle.std.specs.Prelude.{◌≡◌};
ghost use Rattle.irp_script_reader.specs.Plans.{has_major, is_driver, is_handler, is_plan_sound, names_known};

use irp_types::limits::LAST_MAJOR;
use irp_types::{DispatchId, Known, Plan, Rule};

/// Whether a plan that finishes has a status that can complete a packet, and one that forwards sets a routine of rule
/// watch.
pub fn is_plan_sound(plan: Plan) -> bool
    ensures { result ≡ is_plan_sound plan }
{
    match plan {
        Plan::Finish { status, .. } => status.is_completable(),
        Plan::Forward { set: Some(set) } => matches!(set.routine.rule, Rule::Watch),
        _ => true,
    }
}

/// Whether the routine that a plan names is there.
pub fn names_known(known: Known, plan: Plan) -> bool
    ensures { result ≡ names_known known plan }
{
    match plan {
        Plan::Hold { cancel: Some(id) } => id.0 < known.cancel,
        Plan::Forward { set: Some(set) } => known.has(set),
        Plan::ForwardPend { set: Some(set) } => known.has(set),
        _ => true,
    }
}

/// Whether there is the major function code, and the dispatch.
fn is_handler(dispatches: usize, handler: (u8, DispatchId)) -> bool
    ensures { result ≡ is_handler dispatches handler }
{
    handler.0 <= LAST_MAJOR && (handler.1.0 as usize) < dispatches
}

/// Whether one of these has the major function code.
fn has_major(major: u8, handlers: &[(u8, DispatchId)]) -> bool
    ensures { result ≡ has_major major handlers.now }
{
    handlers.iter().any(|handler| handler.0 == major)
}

/// Whether each of a driver's major function codes is one and is named once, and each dispatch is there.
pub fn is_driver(dispatches: usize, handlers: &[(u8, DispatchId)]) -> bool
    ensures { result ≡ is_driver dispatches handlers.now }
{
    for (index, handler) in handlers.iter().enumerate() {
        if !is_handler(dispatches, *handler) || has_major(handler.0, &handlers[index + 1..]) {
            return false;
        }
    }
    true
}
