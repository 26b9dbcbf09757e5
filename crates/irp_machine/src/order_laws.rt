//! Laws of orders. Each is the contract of a function that does nothing.

ghost use Rattle.irp_machine.specs.Replays.{OrdersHaveHistories, PathsCanBeMade, ReplaysEndSo};
ghost use Rattle.irp_machine.specs.Runs.{RunsAreSettled};

use irp_types::history_goes_on;

/// Each order of the steps of a script's seats has a legal history: the entries of the setup's calls, and then of the
/// calls of its steps, each with its seat and its reply, in the order of its path. The order ends as that history does.
pub fn orders_have_histories()
    ensures { OrdersHaveHistories }
{
    history_goes_on();
}

/// What `replay` gives of the path of an outcome ends as the outcome, the replies aside where only ends are compared.
pub fn replays_end_so()
    ensures { ReplaysEndSo }
{}

/// The path of an outcome can be made again: `replay` never answers `NoStep` to it.
pub fn paths_can_be_made()
    ensures { PathsCanBeMade }
{}

/// What `Run::play` makes of a run, and where it tells the seat to be behind that, is one.
pub fn runs_are_settled()
    ensures { RunsAreSettled }
{}
