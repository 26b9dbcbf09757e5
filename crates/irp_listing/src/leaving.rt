//! Completions that a right driver leaves out, and a script's step makes all the same: the driver found its cancel
//! routine gone before.

ghost use Rattle.std.specs.Prelude.{◌≡◌};
ghost use Rattle.irp_listing.specs.Stacks as spec;

use irp_types::{Call, DeviceId, Entry, IrpRef, Party, Refusal, Reply};

/// The device for which an entry takes out its packet's cancel routine, and the packet where that was gone: then whoever
/// cancels completes the packet (WDK: "IoSetCancelRoutine").
pub(crate) fn taken_out(entry: &Entry) -> Option<(DeviceId, Option<IrpRef>)>
    ensures { result ≡ spec.taken_out entry.now.call entry.now.reply }
{
    match entry.call {
        Call::SetCancelRoutine {
            party: Party::Device(device),
            irp,
            cancel: None,
        } => Some((device, was_gone(entry.reply).then_some(irp))),
        _ => None,
    }
}

/// Whether a reply to taking a cancel routine out says that it was gone.
fn was_gone(reply: Reply) -> bool
    ensures { result ≡ spec.was_gone reply }
{
    matches!(
        reply,
        Reply::Previous(None) | Reply::Refused(Refusal::Ended)
    )
}

/// The device that makes a completion which is refused because the packet has ended, and the packet.
pub(crate) fn late_completion(entry: &Entry) -> Option<(DeviceId, IrpRef)>
    ensures { result ≡ spec.late_completion entry.now.call entry.now.reply }
{
    match (entry.call, entry.reply) {
        (
            Call::Complete {
                party: Party::Device(device),
                irp,
                ..
            },
            Reply::Refused(Refusal::Ended),
        ) => Some((device, irp)),
        _ => None,
    }
}
