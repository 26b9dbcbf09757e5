//! A law of the sequential manager: the contract of a function that does nothing.

ghost use Rattle.irp_manager.specs.Laws.{StepIsSettled};

use irp_unwind::{descent_is_settled, unwinding_is_settled};

/// Where each closure has one answer to what it is shown, a state in which the standing facts hold, a call, and whether
/// its caller knows that the lock is drained settle what is asked, the reply and the next state; where a packet is
/// allocated, together with its slot.
pub fn step_is_settled()
    ensures { StepIsSettled }
{
    unwinding_is_settled();
    descent_is_settled();
}
