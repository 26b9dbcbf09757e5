//! The steps of a script's seat.

ghost use Rattle.std.specs.Prelude.{◌≡◌, ◌<◌, MatchResult, OnErr, vec_capacity, vec_len};
ghost use Rattle.irp_remove.specs.Calls.{IsSameSeat};
ghost use Rattle.irp_remove.specs.Pairing.{lock_count};
ghost use Rattle.irp_shared.specs.Sharing.{IsAsBefore};
ghost use Rattle.irp_script.specs.Acts.{Acts, SlotActs};
ghost use Rattle.irp_script.specs.Calling.{CallsFor};
ghost use Rattle.irp_steps.specs.StepKinds.{kind_of};
ghost use Rattle.irp_script.specs.Seats.{seat_at_work};
ghost use Rattle.irp_script.specs.Stops.{IsAlone, IsUnacted, IsUnmade, IsUnrecorded, terms_of};
ghost use Rattle.irp_script.specs.Working.{ActsOnLock, ActsOnSlot, Does, Finishing, HandsOver, Stays, Tells, caught_up};

use crate::labels::Known;
use crate::run_context::RunContext;
use crate::script_seat::ScriptSeat;
use crate::stop::StopReason;
use irp_remove::{AcquireRefusal, BeginRefusal, DrainRefusal, HandRefusal, ReleaseRefusal};
use irp_routines::Ask;
use irp_script_reader::Step;
use irp_shared::{Act, Session, WordLine, WordReply};
use irp_steps::{Answered, StepKind, call_of, kind_of};
use irp_types::{LockAct, LockNo, Reply, SlotAct, Status};
use std::alloc::AllocError;
use std::sync::Wait;

/// Adds a line, for which there is room.
pub fn tell(words: &mut Vec<WordLine>, index: u32, step: Step, act: Act, reply: WordReply)
    requires { vec_len words.old < vec_capacity words.old }
    ensures { Tells index step act reply words.old.items words.new.items }
{
    words.push_reserved(WordLine {
        seat: step.seat,
        step: index,
        act,
        reply,
    });
}

impl<'a, L: Session> ScriptSeat<'a, L> {
    /// How many entries of the history its seat at the manager has seen.
    pub(crate) fn seen(&self) -> u64
        ensures { result ≡ self.now.seat.seen }
    {
        self.seat.seen()
    }

    /// Its seat at the manager has seen this many entries of the history, or more if it had seen more. Nothing else
    /// changes.
    pub(crate) fn saw(&mut self, length: u64)
        ensures { seat_at_work self.new ≡ caught_up length (seat_at_work self.old) }
    {
        self.seat.saw(length);
    }

    /// Makes the call of a step once, which has this place, of the packet that it names, with what the remove seat knows
    /// of the locks, binds the label that the step binds, and answers what the manager replied.
    ///
    /// # Errors
    ///
    /// Why it isn't recorded, and then the seat says what it said.
    fn call<A: Ask>(
        &mut self,
        rt: &impl Wait,
        context: &RunContext<A, L>,
        known: &mut Known,
        index: u32,
        step: Step,
    ) -> Result<Reply, StopReason>
        requires { kind_of step.act ≡ StepKind.Calls }
        ensures remove { self.new.remove ≡ self.old.remove }
        ensures parties { self.new.parties ≡ self.old.parties }
        ensures called { MatchResult result
            (λ reply. CallsFor index step.act self.old.remove
            self.old.seat self.new.seat known.old known.new reply)
            (λ why. IsAsBefore self.old.seat self.new.seat
            × IsUnrecorded (terms_of L.fixed L.may) self.old.seat.seen why) }
        ensures unlearnt { OnErr result (known.new ≡ known.old) }
    {
        let named = known.packet_of(rt, &context.labels, step.act);
        let Some(call) = call_of(step.act, named.irp) else {
            unreachable!();
        };
        let seat = &mut self.seat;
        match context.shared.call(rt, seat, call, &self.remove) {
            Ok(receipt) => {
                let reply = receipt.reply();
                known.took(index, step.act, named);
                known.learn(rt, &context.labels, index, step.act, reply);
                Ok(reply)
            }
            Err(error) => Err(StopReason::from(error)),
        }
    }

    fn acquire(&mut self, lock: LockNo, tag: u32) -> WordReply
        ensures seat { self.new.seat ≡ self.old.seat }
        ensures parties { self.new.parties ≡ self.old.parties }
        ensures remove { IsSameSeat self.old.remove self.new.remove }
        ensures acts { Acts (lock_count self.old.locks.now) (LockAct.Acquire lock tag)
            self.old.remove self.new.remove result }
    {
        match self.locks.acquire(&mut self.remove, lock, tag) {
            Ok(()) => WordReply::Acquired,
            Err(AcquireRefusal::NoLock) => WordReply::NoLock,
            Err(AcquireRefusal::SeatFull) => WordReply::SeatFull,
            Err(AcquireRefusal::DeletePending) => WordReply::DeletePending,
        }
    }

    fn release(&mut self, lock: LockNo, tag: u32) -> WordReply
        ensures seat { self.new.seat ≡ self.old.seat }
        ensures parties { self.new.parties ≡ self.old.parties }
        ensures remove { IsSameSeat self.old.remove self.new.remove }
        ensures acts { Acts (lock_count self.old.locks.now) (LockAct.Release lock tag)
            self.old.remove self.new.remove result }
    {
        match self.locks.release(&mut self.remove, lock, tag) {
            Ok(()) => WordReply::Done,
            Err(ReleaseRefusal::NoLock) => WordReply::NoLock,
            Err(ReleaseRefusal::NotHeld) => WordReply::NotHeld,
        }
    }

    fn begin_remove(&mut self, lock: LockNo, tag: u32) -> WordReply
        ensures seat { self.new.seat ≡ self.old.seat }
        ensures parties { self.new.parties ≡ self.old.parties }
        ensures remove { IsSameSeat self.old.remove self.new.remove }
        ensures acts { Acts (lock_count self.old.locks.now) (LockAct.BeginRemove lock tag)
            self.old.remove self.new.remove result }
    {
        match self.locks.begin_remove(&mut self.remove, lock, tag) {
            Ok(()) => WordReply::Done,
            Err(BeginRefusal::NoLock) => WordReply::NoLock,
            Err(BeginRefusal::NotHeld) => WordReply::NotHeld,
            Err(BeginRefusal::AlreadyRemoving) => WordReply::AlreadyRemoving,
        }
    }

    fn drained(&mut self, lock: LockNo) -> WordReply
        ensures seat { self.new.seat ≡ self.old.seat }
        ensures parties { self.new.parties ≡ self.old.parties }
        ensures remove { IsSameSeat self.old.remove self.new.remove }
        ensures acts { Acts (lock_count self.old.locks.now) (LockAct.Drained lock)
            self.old.remove self.new.remove result }
    {
        match self.locks.drained(&mut self.remove, lock) {
            Ok(()) => WordReply::Yes,
            Err(DrainRefusal::NoLock) => WordReply::NoLock,
            Err(DrainRefusal::Busy(word)) => WordReply::Busy { word },
        }
    }

    /// Acts on a remove lock once, and answers what a word line tells of it: what the lock answered.
    fn act(&mut self, on: LockAct) -> WordReply
        ensures seat { self.new.seat ≡ self.old.seat }
        ensures parties { self.new.parties ≡ self.old.parties }
        ensures remove { IsSameSeat self.old.remove self.new.remove }
        ensures acts { Acts L.fixed.locks on self.old.remove self.new.remove result }
    {
        match on {
            LockAct::Acquire { lock, tag } => self.acquire(lock, tag),
            LockAct::Release { lock, tag } => self.release(lock, tag),
            LockAct::BeginRemove { lock, tag } => self.begin_remove(lock, tag),
            LockAct::Drained { lock } => self.drained(lock),
        }
    }

    /// Hands one reference to another seat at the same locks, and answers what a word line tells of it.
    pub fn hand(&mut self, taker: &mut ScriptSeat<'a, L>, lock: LockNo, tag: u32) -> WordReply
        requires { taker.old.remove.table ≡ self.old.remove.table }
        ensures { HandsOver L.fixed.locks lock tag
            (seat_at_work self.old) (seat_at_work self.new)
            (seat_at_work taker.old) (seat_at_work taker.new) result }
    {
        match self
            .locks
            .hand(&mut self.remove, &mut taker.remove, lock, tag)
        {
            Ok(()) => WordReply::Done,
            Err(HandRefusal::NoLock) => WordReply::NoLock,
            Err(HandRefusal::NotHeld) => WordReply::NotHeld,
            Err(HandRefusal::SeatFull) => WordReply::SeatFull,
        }
    }

    /// Acts on a cancel slot once, and answers what a word line tells of it.
    ///
    /// # Errors
    ///
    /// `NotOwner` where the slot isn't the seat's own, else `Memory`. Nothing was done then.
    fn act_at_slot<A: Ask>(
        &mut self,
        rt: &impl Wait,
        context: &RunContext<A, L>,
        known: &mut Known,
        index: u32,
        step: Step,
        on: SlotAct,
    ) -> Result<WordReply, StopReason>
        ensures seat { self.new.seat ≡ self.old.seat }
        ensures remove { self.new.remove ≡ self.old.remove }
        ensures acts { MatchResult result
            (λ reply. SlotActs index known.old known.new step.act on
            self.old.parties self.new.parties reply)
            (λ why. (self.new.parties ≡ self.old.parties) × IsUnacted on self.old.parties why) }
        ensures unlearnt { OnErr result (known.new ≡ known.old) }
    {
        match on {
            SlotAct::Publish { slot } => {
                let named = known.packet_of(rt, &context.labels, step.act);
                let reply = self.parties.publish(slot, named.irp)?;
                known.took(index, step.act, named);
                Ok(reply)
            }
            SlotAct::Withdraw { slot } => self.parties.withdraw(slot),
            SlotAct::Request { slot } => Ok(self.parties.request(slot)?),
        }
    }

    /// Acts on a remove lock, adds the line, and answers what that tells.
    ///
    /// # Errors
    ///
    /// `AllocError` where there was no memory for the line. Nothing was done then.
    fn step_on_lock(
        &mut self,
        index: u32,
        step: Step,
        on: LockAct,
        words: &mut Vec<WordLine>,
    ) -> Result<WordReply, AllocError>
        ensures { MatchResult result
            (λ reply. ActsOnLock L.fixed.locks index step on
            (seat_at_work self.old) (seat_at_work self.new)
            words.old.items words.new.items reply)
            (λ _. Stays (seat_at_work self.old) (seat_at_work self.new)
            words.old.items words.new.items) }
    {
        words.reserve(1)?;
        let reply = self.act(on);
        tell(words, index, step, Act::OnLock(on), reply);
        Ok(reply)
    }

    /// Acts on a cancel slot, adds the line, and answers what that tells.
    ///
    /// # Errors
    ///
    /// `NotOwner` where the slot isn't the seat's own, or `Memory`. Nothing was done then.
    fn step_on_slot<A: Ask>(
        &mut self,
        rt: &impl Wait,
        context: &RunContext<A, L>,
        known: &mut Known,
        index: u32,
        step: Step,
        on: SlotAct,
        words: &mut Vec<WordLine>,
    ) -> Result<WordReply, StopReason>
        ensures acts { MatchResult result
            (λ reply. ActsOnSlot index step on
            (seat_at_work self.old) (seat_at_work self.new)
            words.old.items words.new.items known.old known.new reply)
            (λ why. Stays (seat_at_work self.old) (seat_at_work self.new)
            words.old.items words.new.items × IsUnacted on self.old.parties why) }
        ensures unlearnt { OnErr result (known.new ≡ known.old) }
    {
        words.reserve(1)?;
        let reply = self.act_at_slot(rt, context, known, index, step, on)?;
        tell(words, index, step, Act::OnSlot(on), reply);
        Ok(reply)
    }

    /// Tells that a finish found no token.
    ///
    /// # Errors
    ///
    /// `AllocError` where there was no memory for the line.
    fn finish_none(
        &self,
        index: u32,
        step: Step,
        slot: u32,
        words: &mut Vec<WordLine>,
    ) -> Result<(), AllocError>
        ensures { MatchResult result
            (λ _. Tells index step (Act.FinishTaken slot) WordReply.NoToken words.old.items
            words.new.items)
            (λ _. words.new.items ≡ words.old.items) }
    {
        words.reserve(1)?;
        tell(
            words,
            index,
            step,
            Act::FinishTaken { slot },
            WordReply::NoToken,
        );
        Ok(())
    }

    /// Finishes a packet with a token that it took from the slot, and leaves the token in its place where it comes
    /// back. Where it has none it adds a line, and calls nothing. It answers what was answered.
    ///
    /// # Errors
    ///
    /// Why the call isn't recorded, or `Memory` where there was none for the line. Nothing was done then.
    fn finish<A: Ask>(
        &mut self,
        rt: &impl Wait,
        context: &RunContext<A, L>,
        known: &mut Known,
        index: u32,
        step: Step,
        slot: u32,
        status: Status,
        information: u64,
        words: &mut Vec<WordLine>,
    ) -> Result<Answered, StopReason>
        ensures finishes { MatchResult result
            (λ answer. Finishing index step slot status information
            (seat_at_work self.old) (seat_at_work self.new)
            words.old.items words.new.items known.old known.new answer)
            (λ why. Stays (seat_at_work self.old) (seat_at_work self.new)
            words.old.items words.new.items
            × IsUnrecorded (terms_of L.fixed L.may) self.old.seat.seen why) }
        ensures unlearnt { OnErr result (known.new ≡ known.old) }
    {
        let Some((at, token)) = self.parties.take(slot) else {
            self.finish_none(index, step, slot, words)?;
            return Ok(Answered::Word(WordReply::NoToken));
        };
        let named = known.packet_of(rt, &context.labels, step.act);
        let seat = &mut self.seat;
        match context
            .shared
            .finish_taken(rt, seat, named.irp, token, status, information)
        {
            Ok((receipt, token)) => {
                self.parties.put_back(at, slot, token);
                known.took(index, step.act, named);
                Ok(Answered::Reply(receipt.reply()))
            }
            Err((error, token)) => {
                self.parties.put_back(at, slot, Some(token));
                Err(StopReason::from(error))
            }
        }
    }

    /// Makes a step of its own, which has this place and isn't a hand: a call, with what its own remove seat knows of
    /// the locks, an act on a remove lock or on a cancel slot, of which it adds a word line, or a finish of a taken
    /// packet, which is a call where it has a token from the slot, and else has a word line. It answers what was
    /// answered.
    ///
    /// # Errors
    ///
    /// Why the call isn't recorded; `NotOwner` where the slot isn't the seat's own; `Memory`, which may come first.
    /// Nothing was done then.
    pub fn step<A: Ask>(
        &mut self,
        rt: &impl Wait,
        context: &RunContext<A, L>,
        known: &mut Known,
        index: u32,
        step: Step,
        words: &mut Vec<WordLine>,
    ) -> Result<Answered, StopReason>
        requires { IsAlone (kind_of step.act) }
        ensures does { MatchResult result
            (λ answer. Does L.fixed.locks index step (kind_of step.act)
            (seat_at_work self.old) (seat_at_work self.new)
            words.old.items words.new.items known.old known.new answer)
            (λ why. Stays (seat_at_work self.old) (seat_at_work self.new)
            words.old.items words.new.items
            × IsUnmade (terms_of L.fixed L.may) (kind_of step.act) self.old.seat.seen
            self.old.parties why) }
        ensures same { IsSameSeat self.old.remove self.new.remove }
        ensures unlearnt { OnErr result (known.new ≡ known.old) }
    {
        match kind_of(step.act) {
            StepKind::Calls => Ok(Answered::Reply(self.call(rt, context, known, index, step)?)),
            StepKind::OnLock(on) => Ok(Answered::Word(self.step_on_lock(index, step, on, words)?)),
            StepKind::OnSlot(on) => {
                let reply = self.step_on_slot(rt, context, known, index, step, on, words)?;
                Ok(Answered::Word(reply))
            }
            StepKind::Finishes {
                slot,
                status,
                information,
            } => self.finish(
                rt,
                context,
                known,
                index,
                step,
                slot,
                status,
                information,
                words,
            ),
            StepKind::Hands(_) => unreachable!(),
        }
    }
}
