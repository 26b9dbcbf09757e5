//! References, settings, plans, answers and tables. Source: this project's own format (docs/FORMATS.md).

ghost use Rattle.std.specs.Prelude.{◌≡◌};
ghost use Rattle.serde_json.specs.View.{view};
ghost use Rattle.irp_forms.specs.Values as spec;

use crate::from_value::{FromValue, nth};
use crate::names::Flags;
use crate::parts::{has_items, of_items};
use irp_types::{
    CancelAnswer, CancelId, DeviceId, DispatchId, DriverId, IrpRef, Known, LockNo, Party, Plan,
    Replacement, RoutineId, Setting, Status,
};
use serde_json::Value;

/// A device by its number.
impl FromValue for DeviceId {
    ghost form = { spec.device_at };

    fn from_value(value: &Value) -> Option<Self> {
        Some(DeviceId(u32::from_value(value)?))
    }
}

/// A cancel routine by its number.
impl FromValue for CancelId {
    ghost form = { spec.cancel_at };

    fn from_value(value: &Value) -> Option<Self> {
        Some(CancelId(u32::from_value(value)?))
    }
}

/// A dispatch routine by its number.
impl FromValue for DispatchId {
    ghost form = { spec.dispatch_at };

    fn from_value(value: &Value) -> Option<Self> {
        Some(DispatchId(u32::from_value(value)?))
    }
}

/// A driver by its number.
impl FromValue for DriverId {
    ghost form = { spec.driver_at };

    fn from_value(value: &Value) -> Option<Self> {
        Some(DriverId(u32::from_value(value)?))
    }
}

/// A remove lock by its number.
impl FromValue for LockNo {
    ghost form = { spec.lock_at };

    fn from_value(value: &Value) -> Option<Self> {
        Some(LockNo(u32::from_value(value)?))
    }
}

/// A status by its number.
impl FromValue for Status {
    ghost form = { spec.status_at };

    fn from_value(value: &Value) -> Option<Self> {
        Some(Status(u32::from_value(value)?))
    }
}

/// A packet by its slot, below 2^32, and its use.
impl FromValue for IrpRef {
    ghost form = { spec.irp_at };

    #[tactic(auto, unfolding(crate::specs::Values::irp_at))]
    fn from_value(value: &Value) -> Option<Self> {
        of_items(value, 2)?;
        Some(IrpRef {
            slot: nth::<u32>(0, value)? as usize,
            use_no: nth(1, value)?,
        })
    }
}

/// A party: `"o"` for the originator, or the device's number.
impl FromValue for Party {
    ghost form = { spec.party_at };

    #[tactic(auto, unfolding(crate::specs::Values::party_at))]
    fn from_value(value: &Value) -> Option<Self> {
        match value {
            Value::String(name) => (name.as_str() == "o").then_some(Party::Originator),
            _ => Some(Party::Device(DeviceId::from_value(value)?)),
        }
    }
}

/// A completion routine by its rule and its number there.
impl FromValue for RoutineId {
    ghost form = { spec.routine_at };

    #[tactic(auto, unfolding(crate::specs::Values::routine_at))]
    fn from_value(value: &Value) -> Option<Self> {
        of_items(value, 2)?;
        let rule = nth(0, value)?;
        let no = nth(1, value)?;
        Some(RoutineId { rule, no })
    }
}

/// A setting: rule, number, context and flags.
impl FromValue for Setting {
    ghost form = { spec.setting_at };

    #[tactic(auto, unfolding(crate::specs::Values::setting_at))]
    fn from_value(value: &Value) -> Option<Self> {
        of_items(value, 4)?;
        let rule = nth(0, value)?;
        let no = nth(1, value)?;
        let context = nth(2, value)?;
        let flags: Flags = nth(3, value)?;
        Some(Setting {
            routine: RoutineId { rule, no },
            context,
            on_success: flags.on_success,
            on_error: flags.on_error,
            on_cancel: flags.on_cancel,
        })
    }
}

/// A replacement: status and information.
impl FromValue for Replacement {
    ghost form = { spec.replacement_at };

    #[tactic(auto, unfolding(crate::specs::Values::replacement_at))]
    fn from_value(value: &Value) -> Option<Self> {
        of_items(value, 2)?;
        Some(Replacement {
            status: nth(0, value)?,
            information: nth(1, value)?,
        })
    }
}

/// A plan: its name, which stands first, and what it names. `Plan::HoldSlot` is a plan of form 2 alone, and is read in
/// either form: a reader of form 1 refuses it.
impl FromValue for Plan {
    ghost form = { spec.plan_at };

    #[tactic(auto, unfolding(crate::specs::Values::plan_at))]
    fn from_value(value: &Value) -> Option<Self> {
        match value.get(0)?.as_str()? {
            "finish" => {
                of_items(value, 3)?;
                Some(Plan::Finish {
                    status: nth(1, value)?,
                    information: nth(2, value)?,
                })
            }
            "hold" => {
                of_items(value, 2)?;
                let cancel = nth(1, value)?;
                Some(Plan::Hold { cancel })
            }
            "hold_slot" => has_items(value, 1).then_some(Plan::HoldSlot),
            "skip" => has_items(value, 1).then_some(Plan::Skip),
            "forward" => {
                of_items(value, 2)?;
                let set = nth(1, value)?;
                Some(Plan::Forward { set })
            }
            "forward_pend" => {
                of_items(value, 2)?;
                let set = nth(1, value)?;
                Some(Plan::ForwardPend { set })
            }
            _ => None,
        }
    }
}

/// A cancel routine's answer: its name, which stands first, and what it names.
impl FromValue for CancelAnswer {
    ghost form = { spec.cancel_answer_at };

    #[tactic(auto, unfolding(crate::specs::Values::cancel_answer_at))]
    fn from_value(value: &Value) -> Option<Self> {
        match value.get(0)?.as_str()? {
            "finish" => {
                of_items(value, 2)?;
                let information = nth(1, value)?;
                Some(CancelAnswer::Finish { information })
            }
            "leave" => has_items(value, 1).then_some(CancelAnswer::Leave),
            _ => None,
        }
    }
}

/// How many completion routines of each rule, from the first five items.
#[tactic(auto, unfolding(crate::specs::Values::first_counts_at))]
fn first_counts_at(value: &Value) -> Option<Known>
    ensures { result ≡ spec.first_counts_at (view value.now) }
{
    Some(Known {
        watch: nth(0, value)?,
        change: nth(1, value)?,
        keeper: nth(2, value)?,
        keep_on_error: nth(3, value)?,
        free: nth(4, value)?,
        cancel: 0,
    })
}

/// How many completion routines of each rule, and no cancel routines.
#[tactic(auto, unfolding(crate::specs::Values::completions_at))]
pub fn completions_at(value: &Value) -> Option<Known>
    ensures { result ≡ spec.completions_at (view value.now) }
{
    of_items(value, 5)?;
    first_counts_at(value)
}

/// How many completion routines of each rule, and how many cancel routines.
impl FromValue for Known {
    ghost form = { spec.known_at };

    #[tactic(auto, unfolding(crate::specs::Values::known_at))]
    fn from_value(value: &Value) -> Option<Self> {
        of_items(value, 6)?;
        let counts = first_counts_at(value)?;
        let cancel = nth(5, value)?;
        Some(Known { cancel, ..counts })
    }
}

/// A major function code, up to 255, and its dispatch.
impl FromValue for (u8, DispatchId) {
    ghost form = { spec.handler_at };

    #[tactic(auto, unfolding(crate::specs::Values::handler_at))]
    fn from_value(value: &Value) -> Option<Self> {
        of_items(value, 2)?;
        Some((nth(0, value)?, nth(1, value)?))
    }
}
