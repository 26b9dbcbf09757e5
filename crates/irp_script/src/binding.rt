//! Labels and packets. A file of its own, since definitions that clauses cite name these structs.

use irp_types::IrpRef;

/// A label, by its number, and a packet that it stands for.
#[derive(Clone, Copy)]
pub struct Binding {
    pub label: usize,
    pub irp: IrpRef,
}

/// A step that bound a label: the number of its worker, and its place.
#[derive(Clone, Copy)]
pub struct Source {
    pub worker: u32,
    pub place: u32,
}

/// A packet that an act names. Where it is taken from a step of another worker, which bound the label, also that step.
#[derive(Clone, Copy)]
pub struct NamedPacket {
    pub irp: IrpRef,
    pub source: Option<Source>,
}

/// A label with the packet that a step took it to stand for, and the step of another worker that it was taken from.
#[derive(Clone, Copy)]
pub struct Reading {
    pub binding: Binding,
    pub source: Source,
}
