//! The labels of a script: which acts bind them, and what they stand for. Source: this project's own format
//! (docs/FORMATS.md).

ghost use Rattle.std.specs.Prelude.{◌≡◌};
ghost use Rattle.irp_steps.specs.Labels.{label_at, label_of, packet_in, packet_of};

use crate::step_call::named_by;
use irp_script_reader::{Named, StepAct};
use irp_types::{Call, IrpRef, Reply};

/// What a label stands for that isn't bound: a reference that is never live (this project's own format,
/// docs/FORMATS.md).
pub const UNBOUND: IrpRef = IrpRef {
    slot: 0xFFFF_FFFF,
    use_no: 0,
};

/// The label that an act binds where it succeeds: an allocation binds its label, and a reuse the label that named its
/// packet. None for an act that binds none.
pub fn label_of(act: StepAct) -> Option<usize>
    ensures { result ≡ label_of act }
{
    match act {
        StepAct::Allocate { label, .. } => Some(label),
        StepAct::Call(
            Call::Reuse {
                irp: Named::Label(label),
                ..
            },
        ) => Some(label),
        _ => None,
    }
}

/// The packet that a reply gives. None for one that gives none.
pub fn packet_in(reply: Reply) -> Option<IrpRef>
    ensures { result ≡ packet_in reply }
{
    match reply {
        Reply::Irp(irp) => Some(irp),
        _ => None,
    }
}

/// What a label stands for, where labels stand for these packets, by number.
pub fn label_at(packets: &[IrpRef], label: usize) -> IrpRef
    ensures { result ≡ label_at packets.now label }
{
    match packets.get(label) {
        Some(irp) => *irp,
        None => UNBOUND,
    }
}

/// The packet that an act names, where labels stand for these packets, by number: by a reference that packet, and by a
/// label the one that the label stands for. Where it names none, one that is never live.
pub fn packet_of(packets: &[IrpRef], act: StepAct) -> IrpRef
    ensures { result ≡ packet_of packets.now act }
{
    match named_by(act) {
        Some(Named::Irp(irp)) => irp,
        Some(Named::Label(label)) => label_at(packets, label),
        None => UNBOUND,
    }
}
