//! The steps of a worker.

ghost use Rattle.std.specs.Prelude.{
  ◌≡◌,
  ◌≢◌,
  ◌<◌,
  ◌+◌,
  ◌%◌,
  ◌==◌,
  ◌++◌,
  ◌∷◌,
  [],
  true,
  All,
  if◌then◌else◌,
  length,
  map,
  slice_get,
  vec_len,
  Contains,
  IfErr,
  IfNone,
  IfOk,
  IfSome,
  MatchResult,
  OnOk,
  Some,
};
ghost use Rattle.irp_script.specs.Gates.{AdmitsOwn, AdmitsTurn, due_at};
ghost use Rattle.irp_script.specs.Seats.{IsAtLocks, numbers_of, seats_at_work};
ghost use Rattle.irp_script.specs.Stops.{terms_of};
ghost use Rattle.irp_script.specs.Workers.{IsSameWorker, RunsOwn, work_of};
ghost use Rattle.irp_script.specs.Working.{
  HandStops,
  HandsBetween,
  IsStopAt,
  Makes,
  MakesEach,
  MakesHand,
  StopsAt,
  StopsBy,
  caught_up,
  if_own,
  news,
};
ghost use Rattle.irp_steps.specs.Conditions.{holds};
ghost use Rattle.irp_steps.specs.StepKinds.{kind_of};

use crate::due::Due;
use crate::heard::keep;
use crate::meeting::Meeting;
use crate::run_context::RunContext;
use crate::script_seat::ScriptSeat;
use crate::seat_steps::tell;
use crate::step_gate::StepGate;
use crate::stop::{Stop, StopReason};
use crate::worker::Worker;
use irp_remove::Locks;
use irp_routines::Ask;
use irp_script_reader::Step;
use irp_shared::{Act, Session, WordReply};
use irp_steps::{Answered, StepKind, holds, kind_of, named_answer};
use irp_types::{Hand, LockNo};
use std::alloc::AllocError;
use std::sync::Wait;

/// The place that a seat has once another one, of this place, is taken out.
fn once_removed(at: usize, removed: usize) -> usize
    requires { at ≢ removed }
    ensures before { at < removed → result ≡ at }
    ensures behind { removed < at → result + 1 ≡ at }
{
    if at < removed {
        return at;
    }
    at - 1
}

/// The seat at the one place hands one reference to the one at the other. All are at these locks.
fn hand_between<'a, L: Session>(
    locks: &'a Locks,
    seats: &mut Vec<ScriptSeat<'a, L>>,
    from_at: usize,
    to_at: usize,
    lock: LockNo,
    tag: u32,
) -> WordReply
    requires there { (from_at < length seats.old.items) × (to_at < length seats.old.items) }
    requires apart { to_at ≢ from_at }
    requires fits { All (IsAtLocks locks.now) seats.old.items }
    ensures fits { All (IsAtLocks locks.now) seats.new.items }
    ensures hands { HandsBetween L.fixed.locks lock tag from_at to_at
        (seats_at_work seats.old.items) (seats_at_work seats.new.items) result }
{
    let _ = locks;
    let mut giver = seats.remove(from_at);
    let taker = &mut seats[once_removed(to_at, from_at)];
    let reply = giver.hand(taker, lock, tag);
    // There is room, since it was taken out: this never fails.
    let _ = seats.insert(from_at, giver);
    reply
}

/// How much of the history shows what a seat recorded that had seen so many entries and has seen so many now; 0 where
/// it recorded nothing.
fn news(before: u64, after: u64) -> u64
    ensures { result ≡ news before after }
{
    if before == after { 0 } else { after }
}

/// All seats have seen this many entries of the history, or more where they had seen more. All are at these locks.
fn all_saw<'a, L: Session>(locks: &'a Locks, seats: &mut [ScriptSeat<'a, L>], length: u64)
    requires { All (IsAtLocks locks.now) seats.old }
    ensures fits { All (IsAtLocks locks.now) seats.new }
    ensures saw { seats_at_work seats.new ≡ map (caught_up length) (seats_at_work seats.old) }
{
    let _ = locks;
    for own in seats.iter_mut() {
        own.saw(length);
    }
}

/// What a gate is told of the step of this place, where a worker has heard this.
fn due_at(place: u32, step: Step, heard: &[Option<Answered>]) -> Due
    ensures { result ≡ due_at place step heard.now }
{
    Due {
        seat: step.seat,
        step: place,
        condition: step.condition,
        answer: named_answer(heard, step.condition),
    }
}

impl<'a, L: Session> Worker<'a, L> {
    /// Gives it a seat, whose remove seat was opened with its locks.
    ///
    /// # Errors
    ///
    /// `AllocError` where a growth was refused. The seat is gone then.
    pub fn give(&mut self, seat: ScriptSeat<'a, L>) -> Result<(), AllocError>
        requires { IsAtLocks self.old.locks.now seat }
        ensures same { IsSameWorker self.old self.new }
        ensures words { self.new.words.items ≡ self.old.words.items }
        ensures known { self.new.known ≡ self.old.known }
        ensures heard { self.new.heard.items ≡ self.old.heard.items }
        ensures seats { IfOk result (λ _. self.new.seats.items
            ≡ self.old.seats.items ++ seat.entry ∷ []) }
    {
        self.seats.push(seat)?;
        Ok(())
    }

    /// The place among its seats of one with this number. None where there is none.
    fn place_of(&self, number: u32) -> Option<usize>
        ensures place { IfSome result (λ place. place < vec_len self.now.seats) }
        ensures some { IfSome result (λ place.
            slice_get (numbers_of self.now.seats.items) place ≡ Some number) }
        ensures none { IfNone result (¬ Contains (numbers_of self.now.seats.items) number) }
    {
        for (place, seat) in self.seats.iter().enumerate() {
            if seat.number() == number {
                return Some(place);
            }
        }
        None
    }

    /// Makes a hand, which has this place.
    ///
    /// # Errors
    ///
    /// `NoSeat` and `NoTaker` exactly where the one seat isn't there, or else the other; else `SameSeat` where both are
    /// one; else `Memory` where there is none for the line. Nothing was done then.
    fn hand(&mut self, index: u32, step: Step, hand: Hand) -> Result<(), StopReason>
        ensures same { IsSameWorker self.old self.new }
        ensures made { MatchResult result
            (λ _. MakesHand L.fixed.locks index step hand (work_of self.old) (work_of self.new))
            (λ why. (work_of self.new ≡ work_of self.old)
            × HandStops step hand (work_of self.old).seats why) }
    {
        let Some(from_at) = self.place_of(step.seat) else {
            return Err(StopReason::NoSeat);
        };
        let Some(to_at) = self.place_of(hand.to) else {
            return Err(StopReason::NoTaker);
        };
        if from_at == to_at {
            return Err(StopReason::SameSeat);
        }
        self.words.reserve(1)?;
        let locks = self.locks;
        let reply = hand_between(locks, &mut self.seats, from_at, to_at, hand.lock, hand.tag);
        tell(&mut self.words, index, step, Act::Hand(hand), reply);
        keep(&mut self.heard, index, Answered::Word(reply));
        Ok(())
    }

    /// Makes a step, which has this place. All its seats have then seen what was recorded.
    ///
    /// # Errors
    ///
    /// `NoSeat` exactly where the seat isn't there; else why the seat doesn't make it, or both don't make the hand.
    /// Nothing was done then.
    fn step<A: Ask>(
        &mut self,
        rt: &impl Wait,
        context: &RunContext<A, L>,
        index: u32,
        step: Step,
    ) -> Result<(), StopReason>
        requires { holds (work_of self.old).heard step.condition ≡ true }
        ensures same { IsSameWorker self.old self.new }
        ensures made { MatchResult result
            (λ _. Makes L.fixed.locks index step (work_of self.old) (work_of self.new))
            (λ why. (work_of self.new ≡ work_of self.old)
            × StopsBy (terms_of L.fixed L.may) (kind_of step.act) step
            (work_of self.old).seats why) }
    {
        if let StepKind::Hands(hand) = kind_of(step.act) {
            return self.hand(index, step, hand);
        }
        let Some(at) = self.place_of(step.seat) else {
            return Err(StopReason::NoSeat);
        };
        let own = &mut self.seats[at];
        let before = own.seen();
        let made = own.step(rt, context, &mut self.known, index, step, &mut self.words);
        let length = news(before, own.seen());
        all_saw(self.locks, self.seats.as_mut_slice(), length);
        match made {
            Ok(answer) => {
                keep(&mut self.heard, index, answer);
                Ok(())
            }
            Err(reason) => Err(reason),
        }
    }

    /// Makes a step between the calls of the gate, which is told of this step, and of the answer that the worker heard.
    ///
    /// # Errors
    ///
    /// `TooManySteps` exactly where its place is 2^32 or above, else those of `step`. Nothing was done then.
    fn pass<A: Ask, G: StepGate>(
        &mut self,
        rt: &impl Wait,
        context: &RunContext<A, L>,
        gate: &G,
        index: usize,
        step: Step,
    ) -> Result<(), StopReason>
        requires applies { holds (work_of self.old).heard step.condition ≡ true }
        requires admits { G.admits gate.now (due_at index step (work_of self.old).heard) }
        ensures same { IsSameWorker self.old self.new }
        ensures made { MatchResult result
            (λ _. Makes L.fixed.locks index step (work_of self.old) (work_of self.new))
            (λ why. (work_of self.new ≡ work_of self.old)
            × StopsAt (terms_of L.fixed L.may) index step (work_of self.old).seats why) }
    {
        let Ok(index) = u32::try_from(index) else {
            return Err(StopReason::TooManySteps);
        };
        let due = due_at(index, step, self.heard.as_slice());
        gate.begins(due);
        let made = self.step(rt, context, index, step);
        gate.ends(due);
        made
    }

    /// Whether a step is one of its own seats'.
    fn has(&self, step: Step) -> bool
        ensures { result ≡ (step.seat % self.now.workers == self.now.number) }
    {
        step.seat % self.workers == self.number
    }

    /// Makes a step, if it is one of its own and its condition holds, once it has met the other workers. Another one is
    /// passed over: nobody is met, and the gate isn't called.
    ///
    /// # Errors
    ///
    /// Why the step, which is its own then, wasn't made. Nothing was done then.
    fn turn<A: Ask, G: StepGate>(
        &mut self,
        rt: &impl Wait,
        context: &RunContext<A, L>,
        meeting: &Meeting,
        gate: &G,
        index: usize,
        step: Step,
    ) -> Result<(), Stop>
        requires { AdmitsTurn (G.admits gate.now) self.old.number self.old.workers index step
            (work_of self.old) }
        ensures same { IsSameWorker self.old self.new }
        ensures turned { OnOk result
            (MakesEach L.fixed.locks (if_own self.old.number self.old.workers index step)
            (work_of self.old) (work_of self.new)) }
        ensures stayed { IfErr result (λ stop. (work_of self.new ≡ work_of self.old)
            × IsStopAt (terms_of L.fixed L.may) self.old.number self.old.workers index step
            (work_of self.old) stop) }
    {
        if !self.has(step) {
            return Ok(());
        }
        if !holds(self.heard.as_slice(), step.condition) {
            return Ok(());
        }
        meeting.meet();
        match self.pass(rt, context, gate, index, step) {
            Ok(()) => Ok(()),
            Err(reason) => Err(Stop {
                seat: step.seat,
                reason,
            }),
        }
    }

    /// Runs the steps of its own seats, in the order of the script, up to the first that isn't made, and leaves the
    /// meeting. Its seats come back. Each step was a call, with what the seat's own remove seat knew of the locks, or
    /// an act on remove locks or on a cancel slot, of which a line behind its word lines tells what was answered, or
    /// a finish of a taken packet, which was either. A step whose condition fails was passed over: nothing was done. Its
    /// stop says in front of which seat's step it stopped, and why; None exactly where it stopped nowhere.
    pub fn run<A: Ask, G: StepGate>(
        mut self,
        rt: &impl Wait,
        context: &RunContext<A, L>,
        meeting: &Meeting,
        gate: &G,
        steps: &[Step],
    ) -> Worker<'a, L>
        requires { AdmitsOwn (G.admits gate.now) L.fixed.locks self.number self.workers steps.now
            (work_of self) }
        ensures locks { result.locks.now ≡ self.entry.locks.now }
        ensures made { RunsOwn (terms_of L.fixed L.may) steps.now self.entry result }
    {
        for (index, step) in steps.iter().enumerate() {
            if let Err(stop) = self.turn(rt, context, meeting, gate, index, *step) {
                self.stop = Some(stop);
                meeting.leave();
                return self;
            }
        }
        // A worker that is handed in may have stopped before. What is answered tells of this run alone.
        self.stop = None;
        meeting.leave();
        self
    }
}
