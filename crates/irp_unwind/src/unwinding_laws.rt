//! Laws of unwinding and of descent. Each is the contract of a function that does nothing.

ghost use Rattle.irp_unwind.specs.Laws.{UnwindingIsSettled, DescentIsSettled};

/// Where each routine has one answer to what it is shown, a packet that stands in a location settles which routines its
/// unwinding asks and what is left of it.
pub fn unwinding_is_settled()
    ensures { UnwindingIsSettled }
{}

/// Where each closure has one answer to what it is shown, a packet and the device that it is sent to settle, in given
/// stacks and with given tables, which devices it reaches, what is asked, what is left of it and what the sender gets.
pub fn descent_is_settled()
    ensures { DescentIsSettled }
{}
