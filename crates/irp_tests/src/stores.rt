//! A store of closures that note their calls: it grows, or is asked in a session.

ghost use Rattle.std.specs.Prelude.{◌≡◌, true};
ghost use Rattle.irp_types.specs.Rules.{is_allowed, is_plan_allowed, is_cancel_allowed};

use crate::example::{Asked, Example};
use crate::notes::{Notes, waits};
use crate::session::play_in_session;
use crate::tables::extent_of;
use crate::tried::{Halt, Tried, carried, wanted};
use irp_routines::{
    CancelRoutine, Dispatch, Reason, Routine, Store, guarded_answer, guarded_cancel, guarded_plan,
};
use irp_types::{
    Answer, CancelAnswer, CancelId, CancelRule, DispatchId, DriverId, Known, Plan, RoutineId, Rule,
    Shown, Status,
};
use std::alloc::Global;
use std::sync::atomic::Ordering;
use std::sync::{Arc, Wait};
use std::thread::Threads;

/// Notes its digit and its context, and continues, where its rule lets it.
fn answered(notes: &Notes, rule: Rule, digit: u32, shown: Shown) -> Answer
    ensures { is_allowed rule shown result ≡ true }
{
    notes.note(digit.wrapping_add((shown.context % 10) as u32));
    guarded_answer(rule, shown, Answer::CONTINUES)
}

/// Notes its digit, and answers so, where its rule lets it.
fn cancelled(notes: &Notes, rule: CancelRule, digit: u32, answer: CancelAnswer) -> CancelAnswer
    ensures { is_cancel_allowed rule result ≡ true }
{
    notes.note(digit);
    guarded_cancel(rule, answer)
}

/// Notes its digit, and plans so, where that is allowed, and the other thread, if it meets one, was answered while it
/// waited.
fn planned(notes: &Notes, known: Known, digit: u32, plan: Plan, shown: Shown) -> Plan
    ensures { is_plan_allowed known shown result ≡ true }
{
    notes.note(digit);
    notes.runs.fetch_add(1, Ordering::SeqCst);
    if !notes.meets || waits(&notes.answers, 1) {
        guarded_plan(known, shown, plan)
    } else {
        Plan::Finish {
            status: Status::CANCELLED,
            information: 0,
        }
    }
}

/// What comes of a call that was refused, which this is noted of, and made again.
fn added_again(noted: Result<(), Halt>, is_there: bool) -> Result<(), Halt> {
    noted.and(wanted(
        is_there,
        "a call was refused twice, or gives another number",
    ))
}

/// Adds an item to a store by this call, if memory was there for it: it has to get this number. A refused call has to
/// leave the store as it was and to hand the item back, which is added again.
macro_rules! added {
    ($store:ident, $tried:ident, $made:expr => $call:ident, $name:literal;
     $own:ident: $item:expr, $id:expr; $back:ident: $is_back:expr) => {{
        let (before, id) = (extent_of($store.tables()), $id);
        match $made {
            Ok($own) => match $store.$call($item) {
                Ok(given) => wanted(given == id, "an item has another number"),
                Err($back) => {
                    let is_same = extent_of($store.tables()) == before && $back.reason == Reason::Memory;
                    let noted = $tried.refused($name, is_same && $is_back);
                    let again = $store.$call($back.item);
                    added_again(noted, matches!(again, Ok(given) if given == id))
                }
            },
            Err(_) => Err(Halt::Memory),
        }
    }};
}

/// The row of this place, where the rows come again and again, and the number that it gets: its own, and one more for
/// each round. None where there are no rows.
fn row_at(rows: &[Asked], place: usize) -> Option<(Asked, u32)> {
    if rows.is_empty() {
        return None;
    }
    let row = rows[place % rows.len()];
    let own = match row {
        Asked::Routine(own, ..) => own,
        Asked::Cancel(own, ..) => own,
        Asked::Dispatch(own, ..) => own,
        Asked::Driver(own, _) => own,
    };
    let round = u32::try_from(place / rows.len()).unwrap_or(0);
    Some((row, own.wrapping_add(round)))
}

/// Adds so many closures and drivers to a store, by these rows. Then it plays the example in a session of the store, if
/// there is one. All closures are made here, since no function hands out what it makes of them.
fn filled<R: Threads + Wait + Sync>(
    rt: &R,
    alloc: Global,
    notes: &Arc<Notes>,
    rows: &[Asked],
    count: usize,
    example: Option<&Example>,
    tried: &mut Tried,
    out: &mut Vec<u8>,
) -> Result<(), Halt> {
    let mut store = Store::new(alloc);
    let mut done = Ok(());
    for place in 0..count {
        let Some((row, number)) = row_at(rows, place) else {
            continue;
        };
        let known = store.tables().counts();
        tried.step = place;
        let own: Result<_, _> = notes.clone();
        let made = match (row, own) {
            (Asked::Routine(_, rule, digit), Ok(own)) => {
                let run = move |shown: Shown| answered(&own, rule, digit, shown);
                added! {
                    store, tried, Box::new(alloc, run) => add, "Store::add";
                    run: Routine::new(rule, run), RoutineId { rule, no: number }; back: true
                }
            }
            (Asked::Cancel(_, rule, answer, digit), Ok(own)) => {
                let run = move |_shown: Shown| cancelled(&own, rule, digit, answer);
                added! {
                    store, tried, Box::new(alloc, run) => add_cancel, "Store::add_cancel";
                    run: CancelRoutine::new(rule, run), CancelId(number); back: true
                }
            }
            (Asked::Dispatch(_, plan, digit), Ok(own)) => {
                let run = move |shown: Shown| planned(&own, known, digit, plan, shown);
                added! {
                    store, tried, Box::new(alloc, run) => add_dispatch, "Store::add_dispatch";
                    run: Dispatch::new(known, run), DispatchId(number); back: true
                }
            }
            (Asked::Driver(_, pairs), Ok(_)) => added! {
                store, tried, pairs.to_vec(alloc) => add_driver, "Store::add_driver";
                own: own, DriverId(number); back: back.item.as_slice() == pairs
            },
            (_, Err(_)) => Err(Halt::Memory),
        };
        done = done.and(made);
    }
    let (_, store) = carried(done, store)?;
    match example {
        Some(example) => play_in_session(rt, alloc, store, notes, example, tried, out),
        None => Ok(()),
    }
}

/// Adds so many closures and drivers to a store, by these rows.
pub fn grow_store<R: Threads + Wait + Sync>(
    rt: &R,
    alloc: Global,
    rows: &[Asked],
    count: usize,
    tried: &mut Tried,
    out: &mut Vec<u8>,
) -> Result<(), Halt> {
    let notes = Arc::new(alloc, Notes::new(false))?;
    filled(rt, alloc, &notes, rows, count, None, tried, out)
}

/// Plays an example, and puts the lines of its transcript.
pub fn play_example<R: Threads + Wait + Sync>(
    rt: &R,
    alloc: Global,
    example: &Example,
    tried: &mut Tried,
    out: &mut Vec<u8>,
) -> Result<(), Halt> {
    let notes = Arc::new(alloc, Notes::new(!example.beside.is_empty()))?;
    let (rows, played) = (example.asked, Some(example));
    filled(rt, alloc, &notes, rows, rows.len(), played, tried, out)
}
