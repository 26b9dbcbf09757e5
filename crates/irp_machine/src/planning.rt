//! The acts of each seat.

ghost use Rattle.std.specs.Prelude.{◌≡◌, ◌<◌, ◌^◌, IfOk, OnOk, length};
ghost use Rattle.std.specs.List.{list_any};
ghost use Rattle.irp_steps.specs.StepKinds.{named_by};
ghost use Rattle.irp_machine.specs.Planning as spec;

use crate::parts::Planned;
use irp_plain::ActPlace;
use irp_script_reader::{Named, Step, StepAct};
use irp_steps::{label_of, named_by};
use irp_types::Row;
use std::alloc::{AllocError, Global};

/// The label by which an act names its packet, where it does.
fn label_by(act: StepAct) -> Option<usize>
    ensures { result ≡ spec.label_by (named_by act) }
{
    match named_by(act) {
        Some(Named::Label(label)) => Some(label),
        _ => None,
    }
}

/// Whether a step is another seat's and binds a label.
fn binds_elsewhere(step: Step, seat: u32, label: usize) -> bool
    ensures { result ≡ spec.binds_elsewhere seat label step }
{
    match label_of(step.act) {
        Some(bound) => bound == label && step.seat != seat,
        None => false,
    }
}

/// Whether a step is another seat's and names a label: it reads it or binds it.
fn names_elsewhere(step: Step, seat: u32, label: usize) -> bool
    ensures { result ≡ spec.names_elsewhere seat label step }
{
    let binds = label_of(step.act) == Some(label);
    let reads = label_by(step.act) == Some(label);
    (binds || reads) && step.seat != seat
}

/// Whether another seat's step binds a label.
fn is_bound_elsewhere(steps: &[Step], seat: u32, label: usize) -> bool
    ensures { result ≡ list_any (spec.binds_elsewhere seat label) steps.now }
{
    steps.iter().any(|step| binds_elsewhere(*step, seat, label))
}

/// Whether another seat's step names a label.
fn is_named_elsewhere(steps: &[Step], seat: u32, label: usize) -> bool
    ensures { result ≡ list_any (spec.names_elsewhere seat label) steps.now }
{
    steps.iter().any(|step| names_elsewhere(*step, seat, label))
}

/// Whether reading the label that names the packet of a step is a step of its own.
fn reads_alone(steps: &[Step], step: Step) -> bool
    ensures { result ≡ spec.reads_alone steps.now step }
{
    match label_by(step.act) {
        Some(label) => is_bound_elsewhere(steps, step.seat, label),
        None => false,
    }
}

/// Whether binding the label of a step is a step of its own.
fn binds_alone(steps: &[Step], step: Step) -> bool
    ensures { result ≡ spec.binds_alone steps.now step }
{
    match label_of(step.act) {
        Some(label) => is_named_elsewhere(steps, step.seat, label),
        None => false,
    }
}

/// Whether the condition of a step names the step of this place.
fn names_step(step: Step, place: u32) -> bool
    ensures { result ≡ spec.names_step place step }
{
    match step.condition {
        Some(condition) => condition.step == place,
        None => false,
    }
}

/// Whether the condition of some step names the step of this place.
fn is_read(steps: &[Step], place: u32) -> bool
    ensures { result ≡ spec.is_read steps.now place }
{
    steps.iter().any(|step| names_step(*step, place))
}

/// The act of a step of this place, which is at this place among its seat's acts.
fn planned(steps: &[Step], place: u32, at: usize, step: Step) -> Planned
    ensures { result ≡ spec.planned steps.now place at step }
{
    let is_read = is_read(steps, place);
    Planned {
        place: ActPlace {
            step: place,
            at,
            is_read,
        },
        act: step.act,
        condition: step.condition,
        reads_alone: reads_alone(steps, step),
        binds_alone: binds_alone(steps, step),
    }
}

/// The acts of a seat, in the order of the steps. Labels that others of the rivals bind are read alone, and those that
/// others name are bound alone. What conditions of the rivals name is heard.
fn acts_of_seat(
    alloc: Global,
    rivals: &[Step],
    steps: &[Step],
    seat: u32,
) -> Result<Vec<Planned>, AllocError>
    requires { length steps.now < 2 ^ 32 }
    ensures { IfOk result (λ acts. acts.items ≡ spec.own_acts rivals.now steps.now 0 0 seat) }
{
    let mut acts = Vec::new(alloc);
    let mut place = 0u32;
    for step in steps {
        if step.seat == seat {
            acts.push(planned(rivals, place, acts.len(), *step))?;
        }
        place += 1;
    }
    Ok(acts)
}

/// The acts of each of so many seats. Labels that others of the rivals bind are read alone, and those that others name
/// are bound alone. What conditions of the rivals name is heard.
///
/// # Errors
///
/// `AllocError` where memory runs out, or there are 2^32 steps or more.
pub fn acts_of(
    alloc: Global,
    rivals: &[Step],
    steps: &[Step],
    seats: u32,
) -> Result<Vec<Row<Planned>>, AllocError>
    ensures acts { IfOk result (λ acts.
        acts.items ≡ spec.acts_below rivals.now steps.now seats) }
    ensures few { OnOk result (length steps.now < 2 ^ 32) }
{
    if steps.len() > u32::MAX as usize {
        return Err(AllocError);
    }
    let mut acts = Vec::new(alloc);
    for seat in 0..seats {
        acts.push(Row::from_vec(acts_of_seat(alloc, rivals, steps, seat)?))?;
    }
    Ok(acts)
}
