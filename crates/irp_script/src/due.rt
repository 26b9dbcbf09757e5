//! What a gate is told of a step. A file of its own, since definitions that clauses cite name this struct.

use irp_script_reader::Condition;
use irp_steps::Answered;

/// A step that a worker makes next.
#[derive(Clone, Copy)]
pub struct Due {
    /// The seat that makes it.
    pub seat: u32,
    /// Its place among the script's steps, from 0.
    pub step: u32,
    /// What it hangs on. None where it hangs on nothing.
    pub condition: Option<Condition>,
    /// What the step that its condition names was answered. None where it hangs on nothing.
    pub answer: Option<Answered>,
}
