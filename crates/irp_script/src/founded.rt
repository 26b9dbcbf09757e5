//! Whether what workers took from each other's steps is what those bound.

ghost use Rattle.std.specs.Prelude.{◌≡◌, All, IfNone, IfSome, true};
ghost use Rattle.irp_script.specs.Labels.{AreFounded, IsFounded};
ghost use Rattle.irp_script.specs.Workers.{knowns_of};

use crate::binding::{Binding, Reading};
use crate::labels::Known;
use crate::worker::Worker;
use irp_shared::Session;
use irp_types::IrpRef;

/// Whether both are one packet.
fn is_irp(one: IrpRef, other: IrpRef) -> bool
    ensures { result ≡ true → one ≡ other }
{
    one.slot == other.slot && one.use_no == other.use_no
}

/// Whether both are one label, with one packet.
fn is_binding(one: Binding, other: Binding) -> bool
    ensures { result ≡ true → one ≡ other }
{
    one.label == other.label && is_irp(one.irp, other.irp)
}

/// Whether the step that a label was taken from bound it to that packet.
fn is_founded<L: Session>(workers: &[Worker<'_, L>], reading: Reading) -> bool
    ensures { result ≡ true → IsFounded (knowns_of workers.now) reading }
{
    let Some(worker) = workers.get(reading.source.worker as usize) else {
        return false;
    };
    match worker.known.written_at(reading.source.place) {
        Some(written) => is_binding(written, reading.binding),
        None => false,
    }
}

/// The first label that one of the workers took from a step that didn't bind it to that packet.
fn unfounded_by<L: Session>(workers: &[Worker<'_, L>], own: &Known) -> Option<usize>
    ensures { IfNone result (All (λ reading. IfSome reading
        (IsFounded (knowns_of workers.now))) own.now.read) }
{
    let readings = own.readings();
    for reading in readings {
        let Some(reading) = *reading else {
            continue;
        };
        if !is_founded(workers, reading) {
            return Some(reading.binding.label);
        }
    }
    None
}

/// The first label that a worker took from a step that didn't bind it to that packet, where this is what the workers did.
/// None where there is no such label.
pub fn unfounded<L: Session>(workers: &[Worker<'_, L>]) -> Option<usize>
    ensures { IfNone result (AreFounded (knowns_of workers.now)) }
{
    for worker in workers {
        if let Some(label) = unfounded_by(workers, &worker.known) {
            return Some(label);
        }
    }
    None
}
