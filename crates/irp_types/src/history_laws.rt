//! Laws of histories and states. Each is the contract of a function that does nothing.

ghost use Rattle.irp_types.specs.Histories.{HistoryGoesOn, EntrySettlesNextState, HistorySettlesStates};
ghost use Rattle.irp_types.specs.Histories.{HistoryCompletesOnce, LegalCompletesOnce};
ghost use Rattle.irp_types.specs.Lending.{StandWithMore};
ghost use Rattle.irp_types.specs.Taking.{HeldIsFinishedTaken};

/// A history goes on by one entry that follows from its last state.
pub fn history_goes_on()
    ensures { HistoryGoesOn }
{}

/// An entry settles the state that it leads to.
pub fn entry_settles_next_state()
    ensures { EntrySettlesNextState }
{}

/// A history settles the states that it leads through.
pub fn history_settles_states()
    ensures { HistorySettlesStates }
{}

/// A legal history completes each use of a packet at most once, through whatever states it leads.
pub fn history_completes_once()
    ensures each { HistoryCompletesOnce }
    ensures legal { LegalCompletesOnce }
{}

/// The standing facts of a state stay where there are at least as many routines of each rule. So each call may be lent
/// another asker, if that has all the routines that the state was made with.
pub fn standing_facts_stay()
    ensures { StandWithMore }
{}

/// A packet that stands in a cancel slot is completed by FinishTaken alone, with its own use number as the token. No
/// other call completes it, whoever makes it, and a cancellation doesn't.
pub fn held_packet_is_finished_taken()
    ensures { HeldIsFinishedTaken }
{}
