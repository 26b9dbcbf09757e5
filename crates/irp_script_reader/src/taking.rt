//! Lists of a script, read member by member.

ghost use Rattle.std.specs.Prelude.{◌≡◌, Result, Ok};
ghost use Rattle.std.specs.Option.{ok_or};
ghost use Rattle.serde_json.specs.Data.{Data};
ghost use Rattle.serde_json.specs.View.{view};
ghost use Rattle.irp_script_reader.specs.declared.refusal.{MemberFault.MemberFault, ScriptRefusal.TheVariants.At};
ghost use Rattle.irp_script_reader.specs.declared.refusal.ScriptFault.TheVariants.{Refused};
ghost use Rattle.irp_script_reader.specs.Taking.{Gives, Tells, list_at, unless, with_item};

use crate::refusal::{MemberFault, ScriptFault, ScriptRefusal, Section};
use irp_types::Row;
use serde_json::Value;
use std::alloc::Global;

/// Why a member of a list wasn't taken.
#[derive(Clone, Copy)]
pub enum Stop {
    /// It has this fault.
    MemberFault(MemberFault),
    /// Memory ran out.
    NoMemory,
}

/// What was read of one of a script's lists.
pub trait Taking {
    /// The same with the next member, or that member's fault.
    ghost takes: { Self → Data → Result Self MemberFault };

    fn take(self, alloc: Global, value: &Value) -> Result<Self, Stop>
        ensures { Gives result (takes self (view value.now)) };
}

/// What there is, or the fault where there is nothing.
pub fn or_fault<T>(given: Option<T>, fault: MemberFault) -> Result<T, Stop>
    ensures { Gives result (ok_or given fault) }
{
    given.ok_or(Stop::MemberFault(fault))
}

/// The fault, unless this holds.
pub fn unless(holds: bool, fault: MemberFault) -> Result<(), Stop>
    ensures { Gives result (unless holds fault) }
{
    if holds {
        Ok(())
    } else {
        Err(Stop::MemberFault(fault))
    }
}

/// The row with one more item. It fails only for want of memory.
pub fn with_item<T: Drop>(row: Row<T>, added: T) -> Result<Row<T>, Stop>
    ensures { Gives result (Ok (with_item row added)) }
{
    let mut items = row.into_vec();
    if items.push(added).is_err() {
        return Err(Stop::NoMemory);
    }
    Ok(Row::from_vec(items))
}

/// A script's fault in a member of a list.
pub fn refused(fault: MemberFault, section: Section, index: usize) -> ScriptFault
    ensures { result ≡ Refused (At fault section index) }
{
    ScriptFault::Refused(ScriptRefusal::At {
        fault,
        section,
        index,
    })
}

/// What is read of the list under a key, member by member, from `empty` on.
///
/// # Errors
///
/// `Refused` with a fault and its place in this section: `BadField` at 0 where no array is under the key, and else the
/// fault of the first member that isn't taken, at that member's place from 0. `NoMemory` where memory runs out before a
/// fault is met. A script with a missing key doesn't come so far: `script_at` refuses it by `keys_at`, before it reads
/// any list.
#[tactic(auto, unfolding(crate::specs::Taking::list_at))]
pub fn list_at<L: Taking + Drop>(
    alloc: Global,
    section: Section,
    key: &str,
    empty: L,
    value: &Value,
) -> Result<L, ScriptFault>
    ensures { Tells result (list_at L.takes section key.now empty (view value.now)) }
{
    let Some(items) = value.get(key).and_then(|list| list.as_array()) else {
        return Err(refused(MemberFault::BadField, section, 0));
    };
    let mut list = empty;
    for (index, item) in items.iter().enumerate() {
        list = match list.take(alloc, item) {
            Ok(longer) => longer,
            Err(Stop::MemberFault(fault)) => return Err(refused(fault, section, index)),
            Err(Stop::NoMemory) => return Err(ScriptFault::NoMemory),
        };
    }
    Ok(list)
}
