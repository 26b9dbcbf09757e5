//! The calls that only the owner of a packet may make.

ghost use Rattle.std.specs.Prelude.{◌≡◌, ◌+◌, ◌≤◌, Some, [], Bool, vec_len, vec_capacity};
ghost use Rattle.irp_types.specs.Standing.{StandingFacts};
ghost use Rattle.irp_routines.specs.Answers.{AreAnswered};
ghost use Rattle.irp_manager.specs.Owning.{owner_named};
ghost use Rattle.irp_manager.specs.Rooms.{can_ask};
ghost use Rattle.irp_manager.specs.ManagerStates.{state_of, Stepped, SenderStays};

use super::ManagerState;
use crate::keep::Keep;
use crate::packets;
use irp_routines::Ask;
use irp_types::{Asked, Call, IrpRef, Party, Refusal, Reply};

impl<K: Keep> ManagerState<K> {
    /// Answers a call that this party makes as the owner of this packet.
    #[inline]
    pub(super) fn by_owner<A: Ask>(
        &mut self,
        ask: &A,
        party: Party,
        irp: IrpRef,
        call: Call,
        asked: &mut Vec<Asked>,
    ) -> Reply
        requires named { owner_named call ≡ Some (party, irp) }
        requires stands { StandingFacts (A.tables ask.now).counts (state_of K.live self.old) }
        requires empty { asked.old.items ≡ [] }
        requires room { vec_len asked.old + can_ask (state_of K.live self.old) call
            ≤ vec_capacity asked.old }
        ensures capacity { vec_capacity asked.new ≡ vec_capacity asked.old }
        ensures stepped { (drained : Bool)
            → Stepped K.live (A.tables ask.now) drained self.old call asked.new.items result
            self.new }
        ensures may { AreAnswered (A.may_plan ask.now) (A.may_answer ask.now)
            (A.may_cancel ask.now) asked.new.items }
        ensures next { K.next self.new.keep ≡ K.next self.old.keep }
        ensures stays { SenderStays K.live self.old call result self.new }
    {
        let counts = ask.counts();
        let Some(live) = self.keep.get_mut(irp.slot) else {
            return Reply::Refused(Refusal::NoIrp);
        };
        if let Some(refusal) = packets::party_refusal(live, party, irp) {
            return Reply::Refused(refusal);
        }
        match call {
            Call::SetNext { major, word, .. } => packets::set_next(live, major, word),
            Call::CopyToNext { .. } => packets::copy_to_next(live),
            Call::Skip { .. } => packets::skip(live),
            Call::SetRoutine { setting, .. } => packets::set_routine(live, counts, setting),
            Call::MarkPending { .. } => packets::mark_pending(live),
            Call::CallDriver { party, target, .. } => {
                packets::send(live, irp, &self.stacks, ask, party, target, asked)
            }
            Call::Complete {
                status,
                information,
                ..
            } => packets::complete(live, irp, ask, status, information, asked),
            Call::SetCancelRoutine { cancel, .. } => {
                packets::set_cancel_routine(live, counts, cancel)
            }
            _ => unreachable!(),
        }
    }
}
