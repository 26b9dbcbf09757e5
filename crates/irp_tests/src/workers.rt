//! The seats of a script: seats of a session beside remove seats and cancel slots. Workers run a script in them.

ghost use Rattle.std.specs.Prelude.{◌<◌, ◌≡◌, All, vec_len};
ghost use Rattle.irp_types.specs.declared.limit.Limit.TheVariants.{ThirtyTwo};
ghost use Rattle.irp_shared.specs.Answered.{AnswersSo};
ghost use Rattle.irp_remove.specs.Pairing.{IsSeatOf, lock_count};

use crate::scenes::Scene;
use crate::tried::{Halt, Tried, wanted};
use crate::watch::Watch;
use irp_remove::{Locks, RemoveSeat};
use irp_routines::{AnswerTable, Ask};
use irp_script::{RunFault, ScriptSeat, Worked, run_workers, script_seats};
use irp_script_reader::{Labels, ScriptForm, ScriptParts};
use irp_shared::{Seat, Session, Shared, WordLine, WordReply, open};
use irp_slots::Slots;
use irp_types::Row;
use std::alloc::{AllocError, Global};
use std::marker::Brand;
use std::sync::Wait;
use std::sync::ledger::Blank;
use std::thread::Threads;

/// The parts of the scene's script, sound or not, with one lock and one label. Who is asked is handed in beside them.
fn script_of(alloc: Global, scene: &Scene) -> Result<ScriptParts, AllocError> {
    let setup = Row::from_vec(scene.setup.to_vec(alloc)?);
    let steps = Row::from_vec(scene.steps.to_vec(alloc)?);
    let mut labels = Vec::new(alloc);
    labels.push(String::from_str(alloc, "a")?)?;
    Ok(ScriptParts {
        form: ScriptForm::One,
        seats: scene.seats,
        locks: 1,
        completions: Row::from_vec(Vec::new(alloc)),
        cancels: Row::from_vec(Vec::new(alloc)),
        dispatches: Row::from_vec(Vec::new(alloc)),
        drivers: Row::from_vec(Vec::new(alloc)),
        setup,
        steps,
        labels: Labels::from_texts(labels),
    })
}

/// How many entries these seats kept.
fn count_of<L: Session>(seats: Vec<ScriptSeat<'_, L>>) -> usize {
    let mut count: usize = 0;
    for own in seats {
        count = count.saturating_add(own.into_pair().0.count());
    }
    count
}

/// Whether the lines are of these seats and steps, each an acquisition that was granted.
fn are_lines(words: &[WordLine], expected: &[(u32, u32)]) -> bool {
    for (line, (seat, step)) in words.iter().zip(expected) {
        if line.seat != *seat || line.step != *step || line.reply != WordReply::Acquired {
            return false;
        }
    }
    words.len() == expected.len()
}

/// Ok where the workers did what the scene says.
fn judged<L: Session>(scene: &Scene, gate: &Watch, worked: Worked<'_, L>) -> Result<(), Halt> {
    let Worked { seats, words, stop } = worked;
    let are_all = are_lines(words.as_slice(), scene.lines);
    wanted(
        gate.is_right(),
        "a step waited in vain, or came out of turn",
    )
    .and(wanted(count_of(seats) == scene.entries, "other entries"))
    .and(wanted(are_all, "other word lines"))
    .and(wanted(stop == scene.stop, "the workers stopped otherwise"))
}

/// Has the scene's workers run its script in these seats, in a session with one driver that dispatches nothing.
fn run<A: Ask + Send, L: Session + Send + Sync, R: Threads + Wait + Sync>(
    rt: &R,
    alloc: Global,
    shared: &Shared<A, L>,
    locks: &Locks,
    scene: &Scene,
    removes: Vec<RemoveSeat>,
    seats: Vec<Seat<L>>,
    tried: &mut Tried,
) -> Result<(), Halt>
    requires removes { All (IsSeatOf locks.now) removes.items }
    requires count { lock_count locks.now ≡ L.fixed.locks }
    requires each { (vec_len removes ≡ vec_len seats) × (vec_len seats ≡ scene.now.seats) }
{
    let Ok((slots, owners, cancellers)) = irp_slots::open(alloc, scene.slots, scene.seats) else {
        return Err(tried.lost("irp_slots::open"));
    };
    let Ok(pairs) = script_seats(alloc, locks, &slots, seats, removes, cancellers, owners) else {
        return Err(tried.lost("script_seats"));
    };
    if scene.workers == 0 {
        let are_all = pairs.len() == scene.seats as usize;
        return wanted(are_all, "some seats are missing");
    }
    let script = script_of(alloc, scene)?;
    let (gate, count) = (Watch::new(scene), scene.workers);
    match run_workers(
        rt, alloc, shared, locks, &slots, pairs, &script, &gate, count,
    ) {
        Ok(worked) => judged(scene, &gate, worked),
        Err(RunFault::Memory) => Err(tried.lost("run_workers")),
        Err(RunFault::LabelsDiffer { .. }) => Err(Halt::Wrong("labels differ")),
    }
}

/// The same in a new session, with new remove locks.
fn in_session<A: Ask + Send + Drop, L: Session + Send + Sync, R: Threads + Wait + Sync>(
    rt: &R,
    alloc: Global,
    blank: Blank,
    ask: A,
    scene: &Scene,
    tried: &mut Tried,
) -> Result<(), Halt>
    requires blank { (blank.name ≡ L.name) × (blank.parts ≡ L.parts) }
    requires seats { (L.parts ≡ scene.now.seats) × (L.seats ≡ scene.now.seats) }
    requires fixed { L.fixed ≡ record { locks = 1; tables = A.tables ask; limit = ThirtyTwo } }
    requires may { AnswersSo (A.may_plan ask) (A.may_answer ask) (A.may_cancel ask) L.may }
{
    let Ok((shared, seats)) = open::<A, L>(alloc, blank, ask, 1, scene.seats) else {
        return Err(tried.lost("irp_shared::open"));
    };
    match irp_remove::open(alloc, 1, scene.seats) {
        Ok((locks, removes)) => run(rt, alloc, &shared, &locks, scene, removes, seats, tried),
        Err(_) => Err(tried.lost("irp_remove::open")),
    }
}

/// Plays a scene, with one driver that dispatches nothing.
pub fn play_scene<R: Threads + Wait + Sync>(
    rt: &R,
    alloc: Global,
    scene: &Scene,
    tried: &mut Tried,
) -> Result<(), Halt> {
    let mut ask = AnswerTable::new(alloc);
    if ask.add_driver(Vec::new(alloc)).is_err() {
        return Err(tried.lost("AnswerTable::add_driver"));
    }
    let blank = Blank::new(u64::from(scene.seats));
    in_session::<AnswerTable, Brand, R>(rt, alloc, blank, ask, scene, tried)
}
