//! The scenarios and the tests by their names.

use crate::removes::{drop_holder, remove_under_load};
use crate::rows::ExampleName::{Behind, Beside, Cancelled, Drained, Finished, Kept, Taken};
use crate::rows::{ExampleName, example_of};
use crate::scenes::SceneName::{GateTurns, MissingSeat, Pairs, StopInSetup, TwoCalls};
use crate::scenes::{SceneName, scene_of};
use crate::slots::slot_race;
use crate::stores::{grow_store, play_example};
use crate::tables::{grow_table, rows};
use crate::texts::{read_the_script, read_the_transcript};
use crate::tried::{Halt, Tried};
use crate::workers::play_scene;
use crate::writes::{cut_writes, write_as_far_as_it_fits, write_the_transcript};
use Told::{Lines, Name, Refused};
use Work::{
    CutWrites, DropHolder, Fitting, Play, Read, RemoveUnderLoad, Run, Script, SlotRace, Store,
    Table, Written,
};
use std::alloc::Global;
use std::sync::Wait;
use std::thread::Threads;

/// What is told of a scenario that went well.
#[derive(Clone, Copy)]
pub enum Told {
    /// Its lines, and where the refused request fell: each of its requests for memory is refused in turn.
    Refused,
    /// Its lines.
    Lines,
    /// Its name alone.
    Name,
}

/// What a scenario or a test does.
#[derive(Clone, Copy)]
pub enum Work {
    /// Plays an example in a session.
    Play(ExampleName),
    /// A table of answers grows.
    Table,
    /// To a store so many are added, by these rows: from this one, up to that one.
    Store(usize, usize, usize),
    /// Workers run a script.
    Run(SceneName),
    Script,
    Read,
    Written,
    CutWrites,
    DropHolder,
    RemoveUnderLoad,
    SlotRace,
    Fitting,
}

/// Rows, each on a line of its own.
macro_rules! rows {
    ($($row:expr;)+) => { &[$($row),+] };
}

/// The scenarios, and behind them the tests of threads, of values that no script has, and of what no clause says.
static SCENARIOS: &[(&str, Told, Work)] = rows! {
    ("finished_in_a_session", Refused, Play(Finished));
    ("kept_in_a_session", Refused, Play(Kept));
    ("cancelled_in_a_session", Refused, Play(Cancelled));
    ("taken_in_a_session", Refused, Play(Taken));
    ("drained_in_a_session", Refused, Play(Drained));
    ("a_table_of_answers", Refused, Table);
    ("a_store_of_routines", Refused, Store(0, 5, 20));
    ("a_store_of_cancel_routines", Refused, Store(5, 6, 20));
    ("a_store_of_dispatches", Refused, Store(6, 7, 20));
    ("a_store_of_drivers", Refused, Store(6, 8, 40));
    ("pairs_of_seats", Refused, Run(Pairs));
    ("a_script_is_read", Refused, Script);
    ("a_transcript_is_read", Refused, Read);
    ("a_transcript_is_written", Refused, Written);
    ("cut_writes", Lines, CutWrites);
    ("closures_are_called_once_in_the_order_of_the_list", Name, Play(Cancelled));
    ("a_seat_is_behind_what_it_has_seen", Name, Play(Behind));
    ("acquire_during_call", Name, Play(Beside));
    ("a_seat_dropped_while_it_holds_keeps_the_lock_busy", Name, DropHolder);
    ("remove_under_load", Name, RemoveUnderLoad);
    ("slot_race", Name, SlotRace);
    ("two_calls_at_once", Name, Run(TwoCalls));
    ("a_seat_that_is_not_there_stops_its_worker_alone", Name, Run(MissingSeat));
    ("a_stop_in_the_setup_stops_all", Name, Run(StopInSetup));
    ("the_gate_is_called_before_and_after_each_step", Name, Run(GateTurns));
    ("lines_go_out_up_to_a_slot_of_33_bits", Name, Fitting);
};

/// The scenarios and the tests. They are named here alone: a proof takes them in for each function that names them.
pub fn scenarios() -> &'static [(&'static str, Told, Work)] {
    SCENARIOS
}

/// Does the work of a scenario or a test, and puts its lines behind the others.
pub fn perform<R: Threads + Wait + Sync>(
    rt: &R,
    alloc: Global,
    work: Work,
    tried: &mut Tried,
    out: &mut Vec<u8>,
) -> Result<(), Halt> {
    match work {
        Play(name) => play_example(rt, alloc, example_of(name), tried, out),
        Table => grow_table(alloc, tried),
        Store(from, to, count) => grow_store(rt, alloc, rows(from, to), count, tried, out),
        Run(name) => play_scene(rt, alloc, scene_of(name), tried),
        Script => read_the_script(alloc, out, tried),
        Read => read_the_transcript(alloc, out, tried),
        Written => write_the_transcript(alloc, out, tried),
        CutWrites => cut_writes(alloc, out, tried),
        DropHolder => drop_holder(alloc, tried),
        RemoveUnderLoad => remove_under_load(rt, alloc),
        SlotRace => slot_race(rt, alloc),
        Fitting => write_as_far_as_it_fits(alloc, tried),
    }
}
