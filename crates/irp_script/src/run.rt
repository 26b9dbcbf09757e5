//! Running a script. Source: this project's own rule, and of texts its own format (docs/FORMATS.md).

ghost use Rattle.std.specs.Prelude.{◌≡◌, ◌<◌, ℕ, Bool, All, IfOk, length, slice_index_or, vec_len};
ghost use Rattle.std.specs.List.{count_by};
ghost use Rattle.irp_transcript.specs.declared.word_line.WordLine.{WordLine};
ghost use Rattle.irp_remove.specs.Pairing.{IsSeatOf, lock_count};
ghost use Rattle.irp_slots.specs.Pairing.{IsCancellerOf, IsOwnerOf};
ghost use Rattle.irp_script.specs.Accounts.{Accounts};
ghost use Rattle.irp_script.specs.AtSlots.{OwnTheirSlots};
ghost use Rattle.irp_script.specs.Numbers.{AreSame, EachAsOften};
ghost use Rattle.irp_script.specs.Gates.{AdmitsSteps};
ghost use Rattle.irp_script.specs.Labels.{AreFounded};
ghost use Rattle.irp_script.specs.Seats.{
  HasAllSlots,
  HasTakenNothing,
  IsAtLocks,
  IsAtSlots,
  IsFreshAt,
  cancellers_of,
  numbers_of,
  owners_of,
  pairs_of,
  parties_of,
  removes_of,
  seats_at_work,
  seats_of,
};
ghost use Rattle.irp_script.specs.Stops.{terms_of};
ghost use Rattle.irp_script.specs.Words.{AreInOrder};
ghost use Rattle.irp_script.specs.Workers.{IsIdle, IsReady, RunsOwn, count_lines, count_seats, knowns_of};
ghost use Rattle.irp_script.specs.Working.{RunsScript, first_stop};

use crate::founded::unfounded;
use crate::gate::{AlwaysOpen, Gate};
use crate::heard::none_heard;
use crate::labels::{Known, Labels};
use crate::meeting::Meeting;
use crate::run_context::RunContext;
use crate::run_fault::RunFault;
use crate::script_seat::ScriptSeat;
use crate::slot_parties::SlotParties;
use crate::step_gate::StepGate;
use crate::stop::Stop;
use crate::words::put_in_order;
use crate::worker::Worker;
use irp_remove::{Locks, RemoveSeat};
use irp_routines::Ask;
use irp_script_reader::{ScriptParts, Step};
use irp_shared::{Seat, Session, Shared, WordLine};
use irp_slots::{Canceller, SlotOwner, Slots};
use std::alloc::{AllocError, Global};
use std::sync::Wait;
use std::thread;
use std::thread::Threads;

/// What became of a script's steps.
#[derive(Drop)]
pub struct Worked<'a, L: Session> {
    /// All seats that were handed in, each once and with its own remove seat.
    pub seats: Vec<ScriptSeat<'a, L>>,
    /// The word lines of the steps on locks and slots, by rising seat and then by rising step.
    pub words: Vec<WordLine>,
    /// None where no worker stopped. Else where the first one of those did that stopped, and why.
    pub stop: Option<Stop>,
}

/// Each seat with the remove seat and the canceller of the same place, in order.
fn pair_up<'a, L: Session>(
    alloc: Global,
    locks: &'a Locks,
    slots: &'a Slots,
    mut seats: Vec<Seat<L>>,
    mut removes: Vec<RemoveSeat>,
    mut cancellers: Vec<Canceller>,
) -> Result<Vec<ScriptSeat<'a, L>>, AllocError>
    requires locks { All (IsSeatOf locks.now) removes.items }
    requires count { lock_count locks.now ≡ L.fixed.locks }
    requires slots { All (IsCancellerOf slots.now) cancellers.items }
    requires each { (vec_len removes ≡ vec_len seats) × (vec_len cancellers ≡ vec_len seats) }
    ensures seats { IfOk result (λ pairs. seats_of pairs.items ≡ seats.items) }
    ensures removes { IfOk result (λ pairs. removes_of pairs.items ≡ removes.items) }
    ensures cancellers { IfOk result (λ pairs. cancellers_of pairs.items ≡ cancellers.items) }
    ensures fresh { IfOk result (λ pairs. All (IsFreshAt slots.now) pairs.items) }
{
    let mut pairs = Vec::new(alloc);
    while let Some(seat) = seats.pop() {
        let parties = SlotParties::new(alloc, slots, cancellers.pop().unwrap());
        let own = ScriptSeat::new(locks, seat, removes.pop().unwrap(), parties);
        pairs.insert(0, own)?;
    }
    Ok(pairs)
}

/// The seats of a script: each seat with the remove seat and the canceller of the same place, and with the owners of
/// its slots, in the order of the seats. Slot k is of the seat at place k modulo how many seats there are: since a
/// session numbers its seats by their places, of the seat with that number. Where there is no seat, the owners are
/// gone. No seat has taken anything out of a slot.
///
/// The conditions: the remove seats were opened with these locks, and the cancellers and the owners with these slots;
/// there are as many remove seats and as many cancellers as seats; and there are as many locks as the session has.
///
/// # Errors
///
/// `AllocError` where a growth was refused. What was handed in is gone then.
pub fn script_seats<'a, L: Session>(
    alloc: Global,
    locks: &'a Locks,
    slots: &'a Slots,
    seats: Vec<Seat<L>>,
    removes: Vec<RemoveSeat>,
    cancellers: Vec<Canceller>,
    mut owners: Vec<SlotOwner>,
) -> Result<Vec<ScriptSeat<'a, L>>, AllocError>
    requires locks { All (IsSeatOf locks.now) removes.items }
    requires count { lock_count locks.now ≡ L.fixed.locks }
    requires slots { All (IsCancellerOf slots.now) cancellers.items }
    requires owners { All (IsOwnerOf slots.now) owners.items }
    requires each { (vec_len removes ≡ vec_len seats) × (vec_len cancellers ≡ vec_len seats) }
    ensures seats { IfOk result (λ pairs. seats_of pairs.items ≡ seats.items) }
    ensures removes { IfOk result (λ pairs. removes_of pairs.items ≡ removes.items) }
    ensures cancellers { IfOk result (λ pairs. cancellers_of pairs.items ≡ cancellers.items) }
    ensures owners { IfOk result (λ pairs. OwnTheirSlots (vec_len seats) (parties_of pairs.items)) }
    ensures all_owners { IfOk result (λ pairs. 0 < vec_len seats
        → EachAsOften owners.items (owners_of pairs.items)) }
    ensures taken { IfOk result (λ pairs. All HasTakenNothing pairs.items) }
    ensures counted { IfOk result (λ pairs. All (HasAllSlots slots.now) pairs.items) }
    ensures fits { IfOk result (λ pairs. All (IsAtLocks locks.now) pairs.items) }
    ensures at_slots { IfOk result (λ pairs. All (IsAtSlots slots.now) pairs.items) }
{
    let mut pairs = pair_up(alloc, locks, slots, seats, removes, cancellers)?;
    let count = pairs.len();
    if count == 0 {
        return Ok(pairs);
    }
    while let Some(owner) = owners.pop() {
        let own = &mut pairs[owner.slot() as usize % count];
        own.own(owner)?;
    }
    Ok(pairs)
}

/// So many workers without seats, each with what it is to know of the labels before these steps, and with room for
/// their answers.
fn idle<'a, L: Session>(
    alloc: Global,
    locks: &'a Locks,
    workers: u32,
    known: &Known,
    steps: &[Step],
) -> Result<Vec<Worker<'a, L>>, AllocError>
    requires { 0 < workers }
    ensures len { IfOk result (λ all. vec_len all ≡ workers) }
    ensures ready { IfOk result (λ all. (k : ℕ) (one : _) → k < workers
        → IsIdle workers steps.now known.now locks.now k (slice_index_or all.items k one)) }
    ensures seats { IfOk result (λ all. (test : _ → Bool)
        → count_seats test all.items ≡ 0) }
{
    let mut all = Vec::with_capacity(alloc, workers as usize)?;
    for number in 0..workers {
        let known = known.known_to(alloc, number, workers, steps)?;
        let heard = none_heard(alloc, steps)?;
        let seats = Vec::new(alloc);
        all.push_reserved(Worker::new(alloc, number, workers, locks, seats, known, heard));
    }
    Ok(all)
}

/// The workers, each with the seats whose numbers leave its own number when divided by how many workers there are, and
/// with what it is to know of the labels before these steps.
fn deal<'a, L: Session>(
    alloc: Global,
    locks: &'a Locks,
    workers: u32,
    mut seats: Vec<ScriptSeat<'a, L>>,
    known: &Known,
    steps: &[Step],
) -> Result<Vec<Worker<'a, L>>, AllocError>
    requires some { 0 < workers }
    requires fits { All (IsAtLocks locks.now) seats.items }
    ensures len { IfOk result (λ all. vec_len all ≡ workers) }
    ensures ready { IfOk result (λ all. (k : ℕ) (one : _) → k < workers
        → IsReady workers steps.now known.now k (slice_index_or all.items k one)) }
    ensures seats { IfOk result (λ all. (test : _ → Bool)
        → count_seats test all.items ≡ count_by test seats.entry.items) }
{
    let mut all = idle(alloc, locks, workers, known, steps)?;
    while let Some(seat) = seats.pop() {
        let worker = &mut all[(seat.number() % workers) as usize];
        worker.give(seat)?;
    }
    Ok(all)
}

/// Each worker runs in a thread of its own, and comes back with its seats.
fn run_all<
    'a,
    A: Ask + Send,
    L: Session + Send + Sync,
    G: StepGate + Sync,
    R: Threads + Wait + Sync,
>(
    rt: &R,
    context: &RunContext<A, L>,
    meeting: &Meeting,
    gate: &G,
    steps: &[Step],
    workers: Vec<Worker<'a, L>>,
) -> Result<Vec<Worker<'a, L>>, AllocError>
    requires gate { AdmitsSteps (G.admits gate.now) steps.now }
    ensures len { IfOk result (λ done. vec_len done ≡ vec_len workers.entry) }
    ensures made { IfOk result (λ done. (k : ℕ) (one : _) (other : _) → k < vec_len workers.entry
        → RunsOwn (terms_of L.fixed L.may) steps.now (slice_index_or workers.entry.items k other)
        (slice_index_or done.items k one)) }
{
    thread::map_vec(
        rt,
        workers,
        &|worker| worker.run(rt, context, meeting, gate, steps),
    )
}

/// What the workers did, together.
///
/// # Errors
///
/// `LabelsDiffer` where one took a label from a step of another that didn't bind it to that packet; `Memory` where a
/// growth was refused.
fn gather<'a, L: Session>(
    alloc: Global,
    mut workers: Vec<Worker<'a, L>>,
) -> Result<Worked<'a, L>, RunFault>
    ensures words { IfOk result (λ worked. AreInOrder worked.words.items) }
    ensures lines { IfOk result (λ worked. (test : WordLine → Bool)
        → count_by test worked.words.items ≡ count_lines test workers.entry.items) }
    ensures stop { IfOk result (λ worked. worked.stop ≡ first_stop
        (λ worker. worker.stop) workers.entry.items) }
    ensures seats { IfOk result (λ worked. (test : _ → Bool)
        → count_by test worked.seats.items ≡ count_seats test workers.entry.items) }
    ensures labels { IfOk result (λ _. AreFounded (knowns_of workers.entry.items)) }
{
    if let Some(label) = unfounded(workers.as_slice()) {
        return Err(RunFault::LabelsDiffer { label });
    }
    let mut seats = Vec::new(alloc);
    let mut words = Vec::new(alloc);
    let mut stop: Option<Stop> = None;
    while let Some(mut worker) = workers.pop() {
        seats.append(&mut worker.seats)?;
        words.append(&mut worker.words)?;
        stop = worker.stop.or(stop);
    }
    put_in_order(&mut words)?;
    Ok(Worked { seats, words, stop })
}

/// Runs a script: its setup in order, on this thread, and then so many workers in threads of their own, of which
/// worker w runs, in the order of the script, the steps whose seat's number leaves w when divided by their number.
/// The workers meet before each of their first 32 steps, so that short scripts mix: each waits for the others for a
/// bounded time (no clause says so; tests show it). With one worker all steps are made in the order of the script.
///
/// All seats of a worker learn of each entry that one of them has recorded. So each call of a worker stands in the
/// history behind all calls that the worker made before, and behind all calls of the setup. A seat that had learned a
/// receipt of another session may be behind, and then its worker stops.
///
/// Labels are shared by all seats: one that isn't bound yet stands for a packet that is never live. For a worker's step
/// a label stands for what the setup's steps and the worker's own before it made it stand for; but one that another worker
/// binds may stand for what a step of another worker bound it to. That this step did so is looked up once all workers are
/// done, not that it came before. A step whose seat isn't there, one whose call isn't recorded, a hand to a seat that its
/// worker doesn't have, and a publish or a withdraw in a slot of another seat stops its worker, which says so; in the
/// setup, nothing more is run. The gate is called before and after each of the script's `steps` that is made, with its
/// seat and its place, outside the session's lock (tests show it, no clause). A step of the setup on a lock or a slot,
/// which no `Script` has, has no word line.
///
/// A step whose condition fails is passed over: nothing is done, and the gate isn't called. A worker's own contract says
/// so: it tells its gate only of its own steps that are due, each with the answer that it heard.
/// Answers are kept, by the places of `steps`, only where one of `steps` has a condition; those of the setup aren't, so
/// there each condition fails.
///
/// All remove seats were opened with these locks, and all that the seats have at slots with these slots, which are the
/// conditions of this call.
///
/// What was done is a chain for the setup, and then one for each worker over the seats that it was dealt. Each link is
/// one of its own steps, in the order of the script, made by the seat that the step names: one call, of the packet
/// that the step names, with what this seat's own remove seat knew of the locks, or one act on remove locks or on a cancel slot, of which one word line
/// tells what was answered. A finish of a taken packet is one call with a token that this seat took from that slot and
/// hasn't spent, and where there is none, one word line. A token that comes out of a slot stays with the seat, and so
/// does one that a finish gives back. The next link goes on from there. No other seat changes, but for the one that a
/// hand names, and all seats of the worker have seen the entry of a call. A chain ends early only where its worker
/// stopped, in front of a step of its own, for a reason that is so of its seats there. The seats and the word lines
/// that come back are those that the chains end with.
///
/// Each word line has the seat, the place and the act of one of the script's `steps` on locks and slots. No such step
/// has two lines, and where nothing stopped, each that wasn't passed over has its line, a finish of a taken packet only
/// where it found no token.
///
/// Where nothing stopped, and no two seats have the same number, each seat has made, after the calls that it had
/// made, those of its own steps of `setup` and then those of its own `steps`, in the order of the script, and no
/// other. A finish of a taken packet is among them where it found a token: among `steps`, where it has no line. A step
/// that was passed over isn't; a step without a condition never is. The clause compares calls but for the packets and the
/// tokens that they name.
///
/// # Errors
///
/// `Memory` where a growth was refused, and `LabelsDiffer` where a step took a label from another worker's step that didn't
/// bind it so, which would be a fault of this library. Either may come after steps were run. The seats are gone then.
pub fn run_workers<
    'a,
    A: Ask + Send,
    L: Session + Send + Sync,
    G: Gate + Sync,
    R: Threads + Wait + Sync,
>(
    rt: &R,
    alloc: Global,
    shared: &Shared<A, L>,
    locks: &'a Locks,
    slots: &'a Slots,
    seats: Vec<ScriptSeat<'a, L>>,
    script: &ScriptParts,
    gate: &G,
    workers: u32,
) -> Result<Worked<'a, L>, RunFault>
    requires workers { 0 < workers }
    requires locks { All (IsAtLocks locks.now) seats.items }
    requires slots { All (IsAtSlots slots.now) seats.items }
    ensures words { IfOk result (λ worked. AreInOrder worked.words.items) }
    ensures seats { IfOk result (λ worked.
        AreSame (numbers_of seats.entry.items) (numbers_of worked.seats.items)) }
    ensures pairs { IfOk result (λ worked.
        EachAsOften (pairs_of seats.entry.items) (pairs_of worked.seats.items)) }
    ensures accounts { IfOk result (λ worked. Accounts script.now.setup script.now.steps
        (seats_at_work seats.entry.items) (seats_at_work worked.seats.items)
        worked.words.items worked.stop) }
    ensures ran { IfOk result
        (λ worked. RunsScript (terms_of L.fixed L.may) workers (length script.now.labels)
        script.now.setup script.now.steps
        (seats_at_work seats.entry.items) (seats_at_work worked.seats.items)
        worked.words.items worked.stop) }
{
    let _ = slots;
    let known = Known::new(alloc, script.labels.len())?;
    let labels = Labels::new(alloc, &known)?;
    let context = RunContext { shared, labels };
    let all = Worker::new(alloc, 0, 1, locks, seats, known, Vec::new(alloc));
    let alone = Meeting::new(1);
    let ready = all.run(rt, &context, &alone, &AlwaysOpen, script.setup.as_slice());
    if ready.stop.is_some() {
        let seats = ready.seats;
        let words = Vec::new(alloc);
        let stop = ready.stop;
        return Ok(Worked { seats, words, stop });
    }
    let steps = script.steps.as_slice();
    let labels = Labels::new(alloc, &ready.known)?;
    let context = RunContext { shared, labels };
    let groups = deal(alloc, locks, workers, ready.seats, &ready.known, steps)?;
    let meeting = Meeting::new(workers);
    let done = run_all(rt, &context, &meeting, gate, steps, groups)?;
    gather(alloc, done)
}
