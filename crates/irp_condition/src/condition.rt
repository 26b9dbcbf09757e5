//! Conditions on what an order leaves. Source: this project's own rules.

use crate::value::Value;

/// A thing that an order leaves. Steps, labels, locks and devices are counted from 0.
#[derive(Clone, Copy)]
pub enum Fact {
    /// What this step was answered.
    Reply(u32),
    /// Whether this step was made, and not passed over.
    Made(u32),
    /// Who owns the packet of this label.
    Owner(u32),
    /// The status in the packet of this label.
    Status(u32),
    /// The information in the packet of this label.
    Information(u32),
    /// The number of the current location of the packet of this label.
    Current(u32),
    /// Whether the packet of this label was cancelled.
    Cancel(u32),
    /// Whether the label names a live packet.
    Live(u32),
    /// Whether this device was deleted.
    Deleted(u32),
    /// How many references to this remove lock are held.
    Held(u32),
    /// Whether the removal of this lock has begun.
    Removing(u32),
}

/// A fact, or a value that is written out.
#[derive(Clone, Copy)]
pub enum Term {
    Fact(Fact),
    Constant(Value),
}

/// How two values are compared. Only numbers are below or above each other.
#[derive(Clone, Copy)]
pub enum Comparison {
    Equal,
    Other,
    Below,
    AtMost,
    Above,
    AtLeast,
}

/// A condition.
#[derive(Drop)]
pub enum Condition {
    /// Either holds.
    Or(Box<Condition>, Box<Condition>),
    /// Both hold.
    And(Box<Condition>, Box<Condition>),
    /// It doesn't hold.
    Not(Box<Condition>),
    /// The term is true.
    Is(Term),
    /// The left term compares so with the right one.
    Compare(Term, Comparison, Term),
}
