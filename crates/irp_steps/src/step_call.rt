//! What is read of a step's act: the packet that it names, its kind, and its call.

ghost use Rattle.std.specs.Prelude.{◌≡◌};
ghost use Rattle.irp_steps.specs.StepKinds.{call_of, kind_of, named_by};

use crate::step_kind::StepKind;
use irp_script_reader::{Named, StepAct};
use irp_types::{Call, IrpRef, SlotAct};

/// The packet that an act names. None for an act that names none.
pub fn named_by(act: StepAct) -> Option<Named>
    ensures { result ≡ named_by act }
{
    match act {
        StepAct::Call(call) => call.packet(),
        StepAct::Publish { irp, .. } => Some(irp),
        _ => None,
    }
}

/// What kind a step is of.
pub fn kind_of(act: StepAct) -> StepKind
    ensures { result ≡ kind_of act }
{
    match act {
        StepAct::OnLock(on) => StepKind::OnLock(on),
        StepAct::Hand(hand) => StepKind::Hands(hand),
        StepAct::Publish { slot, .. } => StepKind::OnSlot(SlotAct::Publish { slot }),
        StepAct::Withdraw { slot } => StepKind::OnSlot(SlotAct::Withdraw { slot }),
        StepAct::Request { slot } => StepKind::OnSlot(SlotAct::Request { slot }),
        StepAct::Call(
            Call::FinishTaken {
                token,
                status,
                information,
                ..
            },
        ) => StepKind::Finishes {
            slot: token,
            status,
            information,
        },
        _ => StepKind::Calls,
    }
}

/// The call of the manager that an act makes without a token, of this packet where it names one. None for other acts.
pub fn call_of(act: StepAct, irp: IrpRef) -> Option<Call>
    ensures { result ≡ call_of act irp }
{
    match act {
        StepAct::Call(Call::FinishTaken { .. }) => None,
        StepAct::Call(call) => Some(call.with(irp, 0)),
        StepAct::Allocate { size, .. } => Some(Call::Allocate { size }),
        _ => None,
    }
}
