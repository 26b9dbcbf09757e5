//! The state of the manager, and its calls.

mod looks;
mod owner_calls;
pub(crate) mod room;

ghost use Rattle.std.specs.Prelude.{◌≡◌, ◌+◌, ◌<◌, ◌≤◌, ◌^◌, Option, Some, None, length, false, [], ◌∷◌, Bool, vec_len};
ghost use Rattle.std.specs.Prelude.{vec_capacity, IfOk, OnErr};
ghost use Rattle.std.specs.FinMap as fin;
ghost use Rattle.irp_types.specs.declared.limit.Limit.TheVariants.{ThirtyTwo};
ghost use Rattle.irp_types.specs.Limits.{most_locations};
ghost use Rattle.irp_types.specs.Checks.{first_failing, or_else};
ghost use Rattle.irp_types.specs.Stacks.{create_checks};
ghost use Rattle.irp_types.specs.State.{Fixed, Tables, opening_state, packet_of};
ghost use Rattle.irp_types.specs.Refusals.{flight_check, packet_refusal, first_refusal};
ghost use Rattle.irp_types.specs.Histories.{lock_of};
ghost use Rattle.irp_types.specs.declared.call.Call.TheVariants.{CreateDevice, Attach, Detach, Delete, Allocate, Free};
ghost use Rattle.irp_types.specs.declared.call.Call.TheVariants.{Reuse, CallDriver, Complete, FinishTaken, Cancel};
ghost use Rattle.irp_types.specs.declared.call.Call.TheVariants.{Look};
ghost use Rattle.irp_types.specs.Standing.{StandingFacts};
ghost use Rattle.irp_types.specs.declared.routine.Known.{Known};
ghost use Rattle.irp_types.specs.declared.names.IrpRef.{IrpRef};
ghost use Rattle.irp_types.specs.declared.reply.Reply.TheVariants.{Done, Irp};
ghost use Rattle.irp_routines.specs.Answers.{AreAnswered};
ghost use Rattle.irp_manager.specs.Notes.{known_by};
ghost use Rattle.irp_manager.specs.Rooms.{can_ask};
ghost use Rattle.irp_manager.specs.ManagerStates.{state_of, most_asked, Stepped, SteppedAny, SenderStays, SlotGranted};
ghost use Rattle.irp_manager.specs.ManagerStates.{SlotGivenBack, WasGivenBack, LeavesNext, Agrees, KeepsFixed};

use crate::keep::Keep;
use crate::packets::USE_LIMIT;
use crate::{cancellation, packets};
use irp_routines::Ask;
use irp_stack::{NotCreated, Stacks};
use irp_types::{
    Asked, Call, CancelId, DeviceId, DrainNote, DriverId, IrpRef, Known, Limit, LockNo, Party,
    Refusal, Reply, Setting, Status,
};
use std::alloc::{AllocError, Global};

/// How many packets may be live.
const MOST_LIVE: usize = 4096;

/// What a call did: the lock of the device that a Delete names, where that one was created; whether the note knew that
/// lock to be drained; what was asked, in order; and the reply.
#[derive(Drop)]
pub struct Applied {
    pub lock: Option<LockNo>,
    pub drained: bool,
    pub asked: Vec<Asked>,
    pub reply: Reply,
}

/// The state of the sequential manager: its live packets, its devices, the next use number, and how many remove locks
/// there are (this project's own rule). Each call borrows the asker that answers for the closures.
#[derive(Clone, Drop)]
pub struct ManagerState<K> {
    alloc: Global,
    keep: K,
    stacks: Stacks,
    next_use: u64,
    locks: u32,
}

impl<K: Keep> ManagerState<K> {
    /// A manager without packets and devices, with so many remove locks, on condition that nothing is kept yet. Packets
    /// have 32 locations at most, and stacks 32 devices. It takes no memory.
    pub fn new(alloc: Global, keep: K, locks: u32) -> ManagerState<K>
        requires empty { K.live keep ≡ fin.empty }
        ensures state { state_of K.live result ≡ opening_state }
        ensures stands { (counts : Known) → StandingFacts counts (state_of K.live result) }
        ensures kept { result.keep ≡ keep }
        ensures fixed { (result.locks ≡ locks) × (result.stacks.limit ≡ ThirtyTwo) }
    {
        ManagerState::with_limit(alloc, keep, locks, Limit::ThirtyTwo)
    }

    /// A manager without packets and devices, with so many remove locks and this limit, on condition that nothing is
    /// kept yet. It takes no memory.
    pub fn with_limit(alloc: Global, keep: K, locks: u32, limit: Limit) -> ManagerState<K>
        requires empty { K.live keep ≡ fin.empty }
        ensures state { state_of K.live result ≡ opening_state }
        ensures stands { (counts : Known) → StandingFacts counts (state_of K.live result) }
        ensures kept { result.keep ≡ keep }
        ensures fixed { (result.locks ≡ locks) × (result.stacks.limit ≡ limit) }
    {
        ManagerState {
            alloc,
            keep,
            stacks: Stacks::with_limit(alloc, limit),
            next_use: 1,
            locks,
        }
    }

    /// What it allocates from.
    pub(super) fn alloc(&self) -> Global {
        self.alloc
    }

    /// How many remove locks there are.
    pub(super) fn locks(&self) -> u32
        ensures { result ≡ self.now.locks }
    {
        self.locks
    }

    /// The limit on packets and stacks.
    pub(super) fn limit(&self) -> Limit
        ensures { result ≡ self.now.stacks.limit }
    {
        self.stacks.limit()
    }

    #[inline]
    fn look(&self, irp: IrpRef) -> Reply
        ensures { SteppedAny K.live self.now (Look irp) [] result self.now }
    {
        match self.keep.get(irp.slot) {
            None => Reply::Refused(Refusal::NoIrp),
            Some(live) => match packets::packet_refusal(live, irp) {
                Some(refusal) => Reply::Refused(refusal),
                None => Reply::Seen(live.packet.seen()),
            },
        }
    }

    fn create_refusal(&self, drivers: u32, driver: DriverId, lock: LockNo) -> Option<Refusal>
        ensures { (fixed : Fixed) (drained : Bool) → length fixed.tables.drivers ≡ drivers
            → Agrees fixed self.now
            → first_refusal fixed (state_of K.live self.now) drained (CreateDevice driver lock)
            ≡ or_else result (first_failing (create_checks self.now.stacks.devices)) }
    {
        if driver.0 >= drivers {
            return Some(Refusal::NoDriver);
        }
        if lock.0 >= self.locks {
            return Some(Refusal::NoLock);
        }
        None
    }

    fn create_device(
        &mut self,
        drivers: u32,
        driver: DriverId,
        lock: LockNo,
    ) -> Result<Reply, AllocError>
        ensures stepped { IfOk result (λ reply. (tables : Tables) (drained : Bool)
            → length tables.drivers ≡ drivers
            → StandingFacts tables.counts (state_of K.live self.old)
            → Stepped K.live tables drained self.old (CreateDevice driver lock) [] reply self.new) }
        ensures err { OnErr result (state_of K.live self.new ≡ state_of K.live self.old) }
        ensures fixed { KeepsFixed self.old self.new }
        ensures next { K.next self.new.keep ≡ K.next self.old.keep }
    {
        if let Some(refusal) = self.create_refusal(drivers, driver, lock) {
            return Ok(Reply::Refused(refusal));
        }
        match self.stacks.create(driver, lock) {
            Ok(device) => {
                self.stacks.are_stacks();
                Ok(Reply::Device(device))
            }
            Err(error) => match error {
                NotCreated::Full => Ok(Reply::Refused(Refusal::Full)),
                NotCreated::Memory => Err(AllocError),
            },
        }
    }

    fn attach(&mut self, device: DeviceId, to: DeviceId) -> Reply
        ensures stepped { SteppedAny K.live self.old (Attach device to) [] result self.new }
        ensures next { K.next self.new.keep ≡ K.next self.old.keep }
    {
        let reply = match self.stacks.attach(device, to) {
            Ok(top) => Reply::Device(top),
            Err(refusal) => Reply::Refused(refusal),
        };
        self.stacks.are_stacks();
        reply
    }

    fn detach(&mut self, lower: DeviceId) -> Reply
        ensures stepped { SteppedAny K.live self.old (Detach lower) [] result self.new }
        ensures next { K.next self.new.keep ≡ K.next self.old.keep }
    {
        let reply = match self.stacks.detach(lower) {
            Ok(upper) => Reply::Device(upper),
            Err(refusal) => Reply::Refused(refusal),
        };
        self.stacks.are_stacks();
        reply
    }

    fn delete_refusal(&self, device: DeviceId, drained: bool) -> Option<Refusal>
        ensures { (fixed : Fixed)
            → result ≡ first_refusal fixed (state_of K.live self.now) drained (Delete device) }
    {
        if let Some(refusal) = self.stacks.delete_refusal(device) {
            return Some(refusal);
        }
        if self.keep.is_in_flight(device) {
            return Some(Refusal::InFlight);
        }
        if !drained {
            return Some(Refusal::NotDrained);
        }
        None
    }

    fn delete(&mut self, device: DeviceId, drained: bool) -> Reply
        ensures stepped { (tables : Tables)
            → StandingFacts tables.counts (state_of K.live self.old)
            → Stepped K.live tables drained self.old (Delete device) [] result self.new }
        ensures next { K.next self.new.keep ≡ K.next self.old.keep }
    {
        if let Some(refusal) = self.delete_refusal(device, drained) {
            return Reply::Refused(refusal);
        }
        let _deleted = self.stacks.delete(device);
        self.stacks.are_stacks();
        Reply::Done
    }

    #[inline]
    fn allocate_refusal(&self, size: u8) -> Option<Refusal>
        ensures refusal { (fixed : Fixed) (drained : Bool) → Agrees fixed self.now
            → result ≡ first_refusal fixed (state_of K.live self.now) drained (Allocate size) }
        ensures fits { result ≡ None → (1 ≤ size) × (size ≤ most_locations) }
        ensures counter { result ≡ None → self.now.next_use < 2 ^ 63 }
    {
        if size == 0 || size as u32 > self.stacks.limit().locations() {
            return Some(Refusal::BadSize);
        }
        if self.keep.len() >= MOST_LIVE || self.next_use >= USE_LIMIT {
            return Some(Refusal::Full);
        }
        None
    }

    #[inline(always)]
    fn allocate(&mut self, size: u8, wish: Option<usize>) -> Result<Reply, AllocError>
        ensures stepped { IfOk result
            (λ reply. SteppedAny K.live self.old (Allocate size) [] reply self.new) }
        ensures granted { IfOk result (λ reply. (irp : IrpRef) → reply ≡ Irp irp
            → K.grants self.old.keep wish irp.slot) }
        ensures next { IfOk result
            (λ reply. LeavesNext K.next self.old (Allocate size) reply self.new) }
        ensures err { OnErr result (state_of K.live self.new ≡ state_of K.live self.old) }
        ensures err_next { OnErr result (K.next self.new.keep ≡ K.next self.old.keep) }
        ensures fixed { KeepsFixed self.old self.new }
    {
        if let Some(refusal) = self.allocate_refusal(size) {
            return Ok(Reply::Refused(refusal));
        }
        let use_no = self.next_use;
        let slot = self.keep.insert(wish, size, use_no)?;
        self.next_use += 1;
        Ok(Reply::Irp(IrpRef { slot, use_no }))
    }

    /// The refusal to give the packet of a reference back; none where it may be given back.
    #[inline]
    fn flight_refusal(&self, irp: IrpRef) -> Option<Refusal>
        ensures { result
            ≡ or_else (packet_refusal (state_of K.live self.now) irp)
            (first_failing (flight_check (packet_of (state_of K.live self.now) irp) ∷ [])) }
    {
        match self.keep.get(irp.slot) {
            None => Some(Refusal::NoIrp),
            Some(live) => packets::flight_refusal(live, irp),
        }
    }

    #[inline(always)]
    fn free(&mut self, irp: IrpRef) -> Reply
        ensures stepped { SteppedAny K.live self.old (Free irp) [] result self.new }
        ensures gave { result ≡ Done → WasGivenBack K.live K.gave_back self.old irp.slot self.new }
        ensures next { LeavesNext K.next self.old (Free irp) result self.new }
    {
        if let Some(refusal) = self.flight_refusal(irp) {
            return Reply::Refused(refusal);
        }
        self.keep.give_back(irp.slot);
        Reply::Done
    }

    #[inline]
    fn reuse(&mut self, irp: IrpRef, status: Status) -> Reply
        ensures stepped { SteppedAny K.live self.old (Reuse irp status) [] result self.new }
        ensures next { K.next self.new.keep ≡ K.next self.old.keep }
    {
        let use_no = self.next_use;
        let Some(live) = self.keep.get_mut(irp.slot) else {
            return Reply::Refused(Refusal::NoIrp);
        };
        if let Some(refusal) = packets::reuse(live, irp, status, use_no) {
            return Reply::Refused(refusal);
        }
        self.next_use += 1;
        Reply::Irp(IrpRef {
            slot: irp.slot,
            use_no,
        })
    }

    #[inline]
    fn cancel<A: Ask>(&mut self, ask: &A, irp: IrpRef, asked: &mut Vec<Asked>) -> Reply
        requires stands { StandingFacts (A.tables ask.now).counts (state_of K.live self.old) }
        requires empty { asked.old.items ≡ [] }
        requires room { vec_len asked.old + can_ask (state_of K.live self.old) (Cancel irp)
            ≤ vec_capacity asked.old }
        ensures capacity { vec_capacity asked.new ≡ vec_capacity asked.old }
        ensures stepped { (drained : Bool)
            → Stepped K.live (A.tables ask.now) drained self.old (Cancel irp) asked.new.items
            result self.new }
        ensures may { AreAnswered (A.may_plan ask.now) (A.may_answer ask.now)
            (A.may_cancel ask.now) asked.new.items }
        ensures next { K.next self.new.keep ≡ K.next self.old.keep }
    {
        let Some(live) = self.keep.get_mut(irp.slot) else {
            return Reply::Refused(Refusal::NoIrp);
        };
        cancellation::cancel(live, irp, ask, asked)
    }

    #[inline]
    fn finish_taken<A: Ask>(
        &mut self,
        ask: &A,
        irp: IrpRef,
        token: u64,
        status: Status,
        information: u64,
        asked: &mut Vec<Asked>,
    ) -> Reply
        requires stands { StandingFacts (A.tables ask.now).counts (state_of K.live self.old) }
        requires empty { asked.old.items ≡ [] }
        requires room { vec_len asked.old
            + can_ask (state_of K.live self.old) (FinishTaken irp token status information)
            ≤ vec_capacity asked.old }
        ensures capacity { vec_capacity asked.new ≡ vec_capacity asked.old }
        ensures stepped { (drained : Bool)
            → Stepped K.live (A.tables ask.now) drained self.old
            (FinishTaken irp token status information) asked.new.items result self.new }
        ensures may { AreAnswered (A.may_plan ask.now) (A.may_answer ask.now)
            (A.may_cancel ask.now) asked.new.items }
        ensures next { K.next self.new.keep ≡ K.next self.old.keep }
    {
        let Some(live) = self.keep.get_mut(irp.slot) else {
            return Reply::Refused(Refusal::NoIrp);
        };
        packets::finish_taken(live, irp, ask, token, status, information, asked)
    }

    /// The lock of the device that a Delete names, where that device was created.
    #[inline]
    pub fn lock_of(&self, call: Call) -> Option<LockNo>
        ensures { result ≡ lock_of (state_of K.live self.now) call }
    {
        match call {
            Call::Delete { device } => {
                let facts = self.stacks.facts(device)?;
                Some(facts.lock)
            }
            _ => None,
        }
    }

    #[inline]
    fn answer<A: Ask>(
        &mut self,
        ask: &A,
        call: Call,
        drained: bool,
        wish: Option<usize>,
        asked: &mut Vec<Asked>,
    ) -> Result<Reply, AllocError>
        requires stands { StandingFacts (A.tables ask.now).counts (state_of K.live self.old) }
        requires empty { asked.old.items ≡ [] }
        requires room { vec_len asked.old + can_ask (state_of K.live self.old) call
            ≤ vec_capacity asked.old }
        ensures capacity { vec_capacity asked.new ≡ vec_capacity asked.old }
        ensures stepped { IfOk result
            (λ reply. Stepped K.live (A.tables ask.now) drained self.old call asked.new.items reply
            self.new) }
        ensures may { IfOk result
            (λ reply. AreAnswered (A.may_plan ask.now) (A.may_answer ask.now)
            (A.may_cancel ask.now) asked.new.items) }
        ensures stays { IfOk result (λ reply. SenderStays K.live self.old call reply self.new) }
        ensures granted { IfOk result (λ reply. SlotGranted K.grants self.old wish call reply) }
        ensures gave { IfOk result
            (λ reply. SlotGivenBack K.live K.gave_back self.old call reply self.new) }
        ensures next { IfOk result (λ reply. LeavesNext K.next self.old call reply self.new) }
        ensures err { OnErr result (state_of K.live self.new ≡ state_of K.live self.old) }
        ensures err_next { OnErr result (K.next self.new.keep ≡ K.next self.old.keep) }
        ensures fixed { OnErr result (KeepsFixed self.old self.new) }
    {
        match call {
            Call::CreateDevice { driver, lock } => {
                self.create_device(ask.drivers(), driver, lock)
            }
            Call::Attach { device, to } => Ok(self.attach(device, to)),
            Call::Detach { lower } => Ok(self.detach(lower)),
            Call::Delete { device } => Ok(self.delete(device, drained)),
            Call::Allocate { size } => self.allocate(size, wish),
            Call::Free { irp } => Ok(self.free(irp)),
            Call::Reuse { irp, status } => Ok(self.reuse(irp, status)),
            Call::FinishTaken {
                irp,
                token,
                status,
                information,
            } => Ok(self.finish_taken(ask, irp, token, status, information, asked)),
            Call::Cancel { irp } => Ok(self.cancel(ask, irp, asked)),
            Call::Look { irp } => Ok(self.look(irp)),
            Call::SetNext { party, irp, .. }
            | Call::CopyToNext { party, irp }
            | Call::Skip { party, irp }
            | Call::SetRoutine { party, irp, .. }
            | Call::MarkPending { party, irp }
            | Call::CallDriver { party, irp, .. }
            | Call::Complete { party, irp, .. }
            | Call::SetCancelRoutine { party, irp, .. } => {
                Ok(self.by_owner(ask, party, irp, call, asked))
            }
        }
    }

    /// Makes one call, in one step of the sequential manager, on condition that the standing facts hold with the
    /// routines of the asker; they hold after it too. Room for what it can ask is made before anything changes, and the
    /// call asks into that; where more than half stays unused, the rest is given back. A new packet gets a slot as the
    /// keep promises for the wish. A call that allocates no packet and frees none leaves the slot that comes next.
    ///
    /// # Errors
    ///
    /// `AllocError` where a growth was refused. The state stays as it was, and the same slot comes next.
    #[inline(always)]
    pub fn apply<A: Ask, N: DrainNote>(
        &mut self,
        ask: &A,
        call: Call,
        note: &N,
        wish: Option<usize>,
    ) -> Result<Applied, AllocError>
        requires stands { StandingFacts (A.tables ask.now).counts (state_of K.live self.old) }
        ensures stepped { IfOk result
            (λ applied. Stepped K.live (A.tables ask.now) applied.drained self.old call
            applied.asked.items applied.reply self.new) }
        ensures may { IfOk result
            (λ applied. AreAnswered (A.may_plan ask.now) (A.may_answer ask.now)
            (A.may_cancel ask.now) applied.asked.items) }
        ensures few { IfOk result (λ applied. length applied.asked.items ≤ most_asked call) }
        ensures stays { IfOk result
            (λ applied. SenderStays K.live self.old call applied.reply self.new) }
        ensures granted { IfOk result
            (λ applied. SlotGranted K.grants self.old wish call applied.reply) }
        ensures gave { IfOk result
            (λ applied. SlotGivenBack K.live K.gave_back self.old call applied.reply self.new) }
        ensures next { IfOk result
            (λ applied. LeavesNext K.next self.old call applied.reply self.new) }
        ensures lock { IfOk result
            (λ applied. applied.lock ≡ lock_of (state_of K.live self.old) call) }
        ensures drained { IfOk result
            (λ applied. applied.drained ≡ known_by (N.knows_drained note.now) applied.lock) }
        ensures err { OnErr result (state_of K.live self.new ≡ state_of K.live self.old) }
        ensures err_next { OnErr result (K.next self.new.keep ≡ K.next self.old.keep) }
        ensures fixed { OnErr result (KeepsFixed self.old self.new) }
    {
        let mut asked = self.room_for(call)?;
        let lock = self.lock_of(call);
        let drained = match lock {
            Some(lock) => note.knows(lock),
            None => false,
        };
        let reply = self.answer(ask, call, drained, wish, &mut asked)?;
        let used = asked.len();
        room::give_back(&mut asked, used);
        Ok(Applied {
            lock,
            drained,
            asked,
            reply,
        })
    }
}
