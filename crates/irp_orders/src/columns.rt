//! What the table tells of outcomes.

ghost use Rattle.std.specs.Prelude.{◌≡◌, IfOk, map, string_bytes};
ghost use Rattle.irp_orders.specs.Lines as spec;
ghost use Rattle.irp_orders.specs.Rows.{all_orders};

use crate::differing::{PacketFacts, drivers_differ, packet_facts};
use crate::found::Found;
use irp_script_reader::{Script, ScriptParts};
use std::alloc::{AllocError, Global};

/// There are at most so many devices.
const MOST_DEVICES: usize = 64;

/// Whether the table tells of what has this number.
#[derive(Clone, Copy, Default)]
pub struct Mark {
    /// Of the step: two outcomes differ in its answer.
    pub step: bool,
    /// Of the label: it stands for one packet in some outcome and for another in another.
    pub label: bool,
    /// Of the device: it was created in some outcomes alone, or is in another state in some.
    pub device: bool,
    /// Of the remove lock: some outcome leaves another word than 0.
    pub lock: bool,
    /// Of the cancel slot: some outcome leaves a use in it, or somebody asked for it.
    pub slot: bool,
}

impl Mark {
    /// Notes what is to be told of this number for an outcome, beside the first one.
    fn note(&mut self, number: usize, first: &Found, found: &Found) {
        let (one, other) = (&first.outcome.end, &found.outcome.end);
        self.step |= first.answers.get(number) != found.answers.get(number);
        self.label |= one.labels.as_slice().get(number) != other.labels.as_slice().get(number);
        self.device |= one.devices.as_slice().get(number) != other.devices.as_slice().get(number);
        if let Some(lock) = other.locks.as_slice().get(number) {
            self.lock |= lock.word != 0;
        }
        if let Some(slot) = other.slots.as_slice().get(number) {
            self.slot |= slot.flag | (slot.content != 0);
        }
    }
}

/// Notes what is to be told of each number for an outcome, beside the first one.
fn note(marks: &mut [Mark], first: &Found, found: &Found) {
    for (number, mark) in marks.iter_mut().enumerate() {
        mark.note(number, first, found);
    }
}

/// As many numbers as a script has of steps, labels, devices, remove locks or cancel slots.
fn numbers_of(parts: &ScriptParts) -> usize {
    let words = (parts.locks as usize).max(parts.form.slots() as usize);
    let names = parts
        .steps
        .as_slice()
        .len()
        .max(parts.labels.as_slice().len());
    words.max(names).max(MOST_DEVICES)
}

/// The marks of so many numbers.
fn marks_of(alloc: Global, numbers: usize, founds: &[Found]) -> Result<Vec<Mark>, AllocError> {
    let mut marks = Vec::from_elem(alloc, Mark::default(), numbers)?;
    if let Some(first) = founds.first() {
        for found in founds {
            note(marks.as_mut_slice(), first, found);
        }
    }
    Ok(marks)
}

/// What the table tells of each outcome: the steps whose answers differ, what else differs between ends, and the remove
/// locks and cancel slots that some order leaves otherwise than untouched.
#[derive(Drop)]
pub struct Columns<'a> {
    pub script: &'a Script,
    pub labels: &'a [String],
    /// By the numbers of steps, labels, devices, remove locks and cancel slots.
    pub marks: Vec<Mark>,
    pub facts: PacketFacts,
    /// Whether a device is of another driver or has another remove lock in some outcome.
    pub tells_drivers: bool,
    /// How many orders there are.
    pub orders: u128,
}

/// How many orders lead to these outcomes; 2^128 - 1 where there are more.
pub fn orders_of(founds: &[Found]) -> u128
    ensures { result ≡ all_orders 0 founds.now }
{
    let mut orders = 0u128;
    for found in founds {
        orders = orders.saturating_add(found.orders);
    }
    orders
}

impl<'a> Columns<'a> {
    /// What the table of these outcomes tells. The one error is want of memory.
    pub fn of(
        alloc: Global,
        script: &'a Script,
        founds: &[Found],
    ) -> Result<Columns<'a>, AllocError>
        ensures script { IfOk result (λ columns. columns.script.now ≡ script.now) }
        ensures labels { IfOk result (λ columns.
            map string_bytes columns.labels.now ≡ script.now.labels) }
        ensures orders { IfOk result (λ columns. columns.orders ≡ all_orders 0 founds.now) }
    {
        let parts = script.parts();
        Ok(Columns {
            script,
            labels: parts.labels.as_slice(),
            marks: marks_of(alloc, numbers_of(parts), founds)?,
            facts: packet_facts(alloc, founds)?,
            tells_drivers: drivers_differ(founds),
            orders: orders_of(founds),
        })
    }

    /// Whether the answers of the step at this place are told.
    pub fn tells_step(&self, place: usize) -> bool
        ensures { result ≡ spec.tells_step self.now place }
    {
        match self.marks.get(place) {
            Some(mark) => mark.step,
            None => false,
        }
    }

    /// Whether the label at this place is told.
    pub fn tells_label(&self, place: usize) -> bool
        ensures { result ≡ spec.tells_label self.now place }
    {
        match self.marks.get(place) {
            Some(mark) => mark.label,
            None => false,
        }
    }

    /// Whether the device of this number is told.
    pub fn tells_device(&self, number: usize) -> bool
        ensures { result ≡ spec.tells_device self.now number }
    {
        match self.marks.get(number) {
            Some(mark) => mark.device,
            None => false,
        }
    }

    /// Whether the remove lock of this number is told.
    pub fn tells_lock(&self, number: usize) -> bool
        ensures { result ≡ spec.tells_lock self.now number }
    {
        match self.marks.get(number) {
            Some(mark) => mark.lock,
            None => false,
        }
    }

    /// Whether the cancel slot of this number is told.
    pub fn tells_slot(&self, number: usize) -> bool
        ensures { result ≡ spec.tells_slot self.now number }
    {
        match self.marks.get(number) {
            Some(mark) => mark.slot,
            None => false,
        }
    }
}
