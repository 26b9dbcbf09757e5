//! What the machine does at cancel slots is what the table of cancel slots does. Each law is the contract of a function
//! that does nothing. All of this is this project's own rule.
ghost use Rattle.irp_machine_laws.specs.SlotLaws.{SlotOpeningLaw, SlotOrderLaw, SlotReachLaw, SlotStepLaw};

/// As the steps of seats begin, a table of cancel slots stands for where the script stands: it keeps the table's rule,
/// its slots are those of the machine, each with an owner, and one party asks for each seat. This is said of up to 64
/// slots and up to 64 seats.
pub fn slots_open_as_a_table()
    ensures { SlotOpeningLaw }
{}

/// Each step of a seat is, at the table that stands for where the script stands, a step that the table's rule allows,
/// or none: a publication swaps its use in, reads the flag, and where that is set swaps 0 in; a withdrawal swaps 0 in;
/// a request sets the flag, and then swaps 0 in. What the machine writes and what it answers are the table's. Behind
/// the step, the table stands for where the script stands then.
pub fn each_slot_step_is_a_table_step()
    ensures { SlotStepLaw }
{}

/// Each order of the steps of a script's seats is one of steps of a table of cancel slots, which stands for where the
/// script stands as the steps begin, between any two of them, and behind the last. It is said of up to 64 slots and up
/// to 64 seats.
pub fn slot_orders_are_table_orders()
    ensures { SlotOrderLaw }
{}

/// Behind each order, a slot is empty where nothing stands in it and no seat is in the midst of a publication there.
pub fn slot_at_rest_is_empty()
    ensures { SlotReachLaw }
{}
