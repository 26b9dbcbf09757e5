//! The sequential manager with its asker.

ghost use Rattle.std.specs.Prelude.{◌≡◌, ◌≤◌, length, None, IfOk, OnErr};
ghost use Rattle.irp_types.specs.Histories.{lock_of};
ghost use Rattle.irp_types.specs.declared.limit.Limit.TheVariants.{ThirtyTwo};
ghost use Rattle.irp_types.specs.State.{opening_state};
ghost use Rattle.irp_types.specs.Standing.{StandingFacts};
ghost use Rattle.irp_routines.specs.Answers.{AreAnswered};
ghost use Rattle.irp_manager.specs.Notes.{known_by};
ghost use Rattle.irp_manager.specs.Keeps.{slabbed, IsNext, next_of};
ghost use Rattle.irp_manager.specs.ManagerStates.{state_of, most_asked, KeepsFixed, Stepped, SenderStays, SlotGranted};
ghost use Rattle.irp_manager.specs.ManagerStates.{SlotGivenBack, LeavesNext};

use crate::manager_state::{Applied, ManagerState};
use crate::slab_keep::SlabKeep;
use irp_routines::{Ask, FixedTables};
use irp_types::{Call, DrainNote, Limit};
use std::alloc::{AllocError, Global};

/// The sequential manager and its asker. It wishes for no slot, and keeps its packets in a slab (this project's own
/// rule).
#[derive(Drop)]
pub struct Manager<A> {
    ask: A,
    state: ManagerState<SlabKeep>,
}

impl<A> Manager<A> {
    /// Its asker, and its state.
    pub(super) fn into_parts(self) -> (A, ManagerState<SlabKeep>)
        ensures { (result.0 ≡ self.ask) × (result.1 ≡ self.state) }
    {
        (self.ask, self.state)
    }
}

impl<A: Ask> Manager<A> {
    /// A copy of the tables of its asker. The error where a growth was refused.
    pub(super) fn copied_tables(&self) -> Result<FixedTables, AllocError>
        ensures { IfOk result (λ tables. tables ≡ A.tables self.now.ask) }
    {
        FixedTables::told_by(self.state.alloc(), &self.ask)
    }

    /// A manager without packets and devices, that asks so, with this many remove locks. Packets have 32 locations at
    /// most, and stacks 32 devices. It takes no memory.
    pub fn new(alloc: Global, ask: A, locks: u32) -> Manager<A>
        ensures ask { result.ask ≡ ask }
        ensures state { state_of slabbed result.state ≡ opening_state }
        ensures first { IsNext result.state.keep 0 }
        ensures stands { StandingFacts (A.tables ask).counts (state_of slabbed result.state) }
        ensures fixed { (result.state.locks ≡ locks) × (result.state.stacks.limit ≡ ThirtyTwo) }
    {
        Manager::with_limit(alloc, ask, locks, Limit::ThirtyTwo)
    }

    /// The same, with packets and stacks within this limit.
    pub fn with_limit(alloc: Global, ask: A, locks: u32, limit: Limit) -> Manager<A>
        ensures ask { result.ask ≡ ask }
        ensures state { state_of slabbed result.state ≡ opening_state }
        ensures first { IsNext result.state.keep 0 }
        ensures stands { StandingFacts (A.tables ask).counts (state_of slabbed result.state) }
        ensures fixed { (result.state.locks ≡ locks) × (result.state.stacks.limit ≡ limit) }
    {
        Manager {
            ask,
            state: ManagerState::with_limit(alloc, SlabKeep::new(alloc), locks, limit),
        }
    }

    /// Makes one call, in one step of the sequential manager, on condition that the standing facts hold; they hold
    /// after it too. A new packet gets the slot that the keep has as given back last, where its packet lies there
    /// still, or else the slab's own next one. Right after a packet was given back, a new one gets its slot, and so it
    /// does after further calls where none of them allocates or frees a packet.
    ///
    /// # Errors
    ///
    /// `AllocError` where a growth was refused. The state stays as it was, and the same slot comes next.
    pub fn apply<N: DrainNote>(&mut self, call: Call, note: &N) -> Result<Applied, AllocError>
        requires stands { StandingFacts (A.tables self.old.ask).counts
            (state_of slabbed self.old.state) }
        ensures ask { self.new.ask ≡ self.old.ask }
        ensures stepped { IfOk result
            (λ applied. Stepped slabbed (A.tables self.old.ask) applied.drained self.old.state call
            applied.asked.items applied.reply self.new.state) }
        ensures stands { StandingFacts (A.tables self.old.ask).counts
            (state_of slabbed self.new.state) }
        ensures may { IfOk result
            (λ applied. AreAnswered (A.may_plan self.old.ask) (A.may_answer self.old.ask)
            (A.may_cancel self.old.ask) applied.asked.items) }
        ensures few { IfOk result (λ applied. length applied.asked.items ≤ most_asked call) }
        ensures stays { IfOk result
            (λ applied. SenderStays slabbed self.old.state call applied.reply self.new.state) }
        ensures next { IfOk result
            (λ applied. SlotGranted (λ keep wish slot. IsNext keep slot) self.old.state None call
            applied.reply) }
        ensures gave { IfOk result
            (λ applied. SlotGivenBack slabbed (λ keep slot left. IsNext left slot) self.old.state
            call applied.reply self.new.state) }
        ensures left { IfOk result
            (λ applied. LeavesNext next_of self.old.state call applied.reply self.new.state) }
        ensures lock { IfOk result
            (λ applied. applied.lock ≡ lock_of (state_of slabbed self.old.state) call) }
        ensures drained { IfOk result
            (λ applied. applied.drained ≡ known_by (N.knows_drained note.now) applied.lock) }
        ensures err { OnErr result
            (state_of slabbed self.new.state ≡ state_of slabbed self.old.state) }
        ensures err_left { OnErr result
            (next_of self.new.state.keep ≡ next_of self.old.state.keep) }
        ensures fixed { KeepsFixed self.old.state self.new.state }
    {
        self.state.apply(&self.ask, call, note, None)
    }
}
