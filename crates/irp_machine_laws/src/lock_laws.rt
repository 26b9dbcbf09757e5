//! What the machine does at remove locks is what the table of remove locks does. Each law is the contract of a function
//! that does nothing. All of this is this project's own rule.
ghost use Rattle.irp_machine_laws.specs.LockLaws.{LockOpeningLaw, LockOrderLaw, LockReachLaw, LockStepLaw};

/// As the steps of seats begin, a table of remove locks stands for where the script stands: it keeps the table's rule,
/// its words are those of the machine, and its parties hold and know what the seats hold and know. This is said of up
/// to 64 remove locks and up to 63 seats: 64 seats may keep more stakes busy than a table has.
pub fn locks_open_as_a_table()
    ensures { LockOpeningLaw }
{}

/// Each step of a seat is, at the table that stands for where the script stands, a step that the table's rule allows,
/// or none: an acquire adds to the word, a release and an acquire that found the removal begun take that back, a
/// begin-remove sets the bit, and a look reads the word. The word that the machine writes and what it answers are the
/// table's. Behind the step, the table stands for where the script stands then.
pub fn each_lock_step_is_a_table_step()
    ensures { LockStepLaw }
{}

/// Each order of the steps of a script's seats is one of steps of a table of remove locks, which stands for where the
/// script stands as the steps begin, between any two of them, and behind the last. It is said of up to 64 remove locks
/// and up to 63 seats, and of steps whose hands name seats, as those of each `Script` do.
pub fn lock_orders_are_table_orders()
    ensures { LockOrderLaw }
{}

/// Behind each order, a lock that some seat knows to be drained has its removed bit set, and no seat has a reference to
/// it. No word is above 8,193, so that each acquire adds to it.
pub fn known_drained_is_held_by_nobody()
    ensures { LockReachLaw }
{}
