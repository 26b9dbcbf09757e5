//! Conditions on what the orders of a script leave.

ghost use Rattle.std.specs.Prelude.{◌≡◌, ◌≤◌, ◌^◌, IfErr, IfOk, IfSome, None, length, map};
ghost use Rattle.irp_orders.specs.Conditions.{IsScopeOf, Says, refusal_words, status_words, word_of};
ghost use Rattle.irp_orders.specs.Program.{IsUnread};

use crate::ending::Ending;
use crate::names::{Names, value_names};
use irp_condition::{Condition, Scope, read_condition};
use irp_script_reader::Script;
use std::alloc::Global;

/// What conditions on a script may speak of, by these names of values. None where it has 2^32 steps or more.
pub fn scope_of<'a>(script: &'a Script, names: &'a Names, knows_replies: bool) -> Option<Scope<'a>>
    requires statuses { map word_of names.now.statuses.items ≡ status_words }
    requires refusals { map word_of names.now.refusals.items ≡ refusal_words }
    ensures scope { IfSome result (IsScopeOf script.now knows_replies) }
    ensures none { result ≡ None → 2 ^ 32 ≤ length script.now.steps }
{
    let parts = script.parts();
    let Ok(steps) = u32::try_from(parts.steps.as_slice().len()) else {
        return None;
    };
    Some(Scope {
        labels: parts.labels.as_slice(),
        steps,
        locks: parts.locks,
        knows_replies,
        statuses: names.statuses.as_slice(),
        refusals: names.refusals.as_slice(),
    })
}

/// Reads a condition on what the orders of a script leave, whose replies are known or not.
///
/// # Errors
///
/// `RefusedCondition` where the text says none; `NoMemory` where memory ran out, or the script has 2^32 steps or more.
pub fn condition_of(
    alloc: Global,
    script: &Script,
    knows_replies: bool,
    text: &str,
) -> Result<Condition, Ending>
    ensures said { IfOk result (Says script.now knows_replies text.now) }
    ensures unread { IfErr result (IsUnread script.now knows_replies text.now) }
{
    let names = value_names(alloc)?;
    let Some(scope) = scope_of(script, &names, knows_replies) else {
        return Err(Ending::NoMemory);
    };
    match read_condition(alloc, text, scope) {
        Ok(condition) => Ok(condition),
        Err(unread) => Err(Ending::from(unread)),
    }
}
