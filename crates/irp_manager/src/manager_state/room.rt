//! Room for the questions that a call can ask.

ghost use Rattle.std.specs.Prelude.{◌≡◌, ◌+◌, ◌≤◌, [], vec_len, vec_capacity, IfOk};
ghost use Rattle.irp_types.specs.Limits.{most_locations};
ghost use Rattle.irp_types.specs.Stacks.{stack_size_of};
ghost use Rattle.irp_types.specs.State.{packet_of};
ghost use Rattle.irp_manager.specs.ManagerStates.{state_of};
ghost use Rattle.irp_unwind.specs.Endings.{can_ask_up};
ghost use Rattle.irp_unwind.specs.Descents.{within_reach};
ghost use Rattle.irp_manager.specs.Rooms.{can_ask};

use super::ManagerState;
use crate::keep::Keep;
use irp_types::{Asked, Call, DeviceId, IrpRef};
use std::alloc::AllocError;

/// Gives back what so many questions don't need of the room of a list, where that is more than half of it.
#[inline]
pub(crate) fn give_back(room: &mut Vec<Asked>, used: usize)
    ensures items { room.new.items ≡ room.old.items }
    ensures len { vec_len room.new ≡ vec_len room.old }
    ensures ample { used ≤ vec_capacity room.old → used ≤ vec_capacity room.new }
    ensures less { vec_capacity room.new ≤ vec_capacity room.old }
{
    if room.capacity().saturating_sub(used) > used {
        room.shrink_to(used);
    }
}

impl<K: Keep> ManagerState<K> {
    /// The position of a device in its stack, from 1 at the bottom; 1 where it was never created (this project's own
    /// rule).
    #[inline]
    pub fn depth(&self, device: DeviceId) -> u32
        ensures depth { result ≡ stack_size_of self.now.stacks.devices device.0 }
        ensures few { result ≤ most_locations }
    {
        self.stacks.are_stacks();
        match self.stacks.facts(device) {
            Some(_) => self.stacks.stack_size(device),
            None => 1,
        }
    }

    /// To how many locations at most the packet of a reference comes in a call that sends it through so many devices.
    #[inline]
    fn reach(&self, irp: IrpRef, depth: u32) -> usize
        ensures reach { within_reach (packet_of (state_of K.live self.now) irp) depth ≤ result }
        ensures few { result ≤ most_locations }
    {
        match self.keep.get(irp.slot) {
            None => 1,
            Some(live) => {
                let stays = (live.packet.current() - 1).saturating_sub(depth);
                live.packet.size().saturating_sub(stays) as usize
            }
        }
    }

    /// How many questions the packet of a reference can ask on its way up.
    #[inline]
    fn rise(&self, irp: IrpRef) -> usize
        ensures ample { can_ask_up (packet_of (state_of K.live self.now) irp) ≤ result }
        ensures few { result ≤ most_locations + 1 }
    {
        match self.keep.get(irp.slot) {
            None => 0,
            Some(live) => (live.packet.size() + 1).saturating_sub(live.packet.current()) as usize,
        }
    }

    /// How many questions a call asks at most, by the packet and the target that it finds.
    #[inline]
    pub(crate) fn can_ask(&self, call: Call) -> usize
        ensures { can_ask (state_of K.live self.now) call ≤ result }
    {
        match call {
            Call::CallDriver { irp, target, .. } => {
                let depth = self.depth(target);
                depth as usize + self.reach(irp, depth)
            }
            Call::Complete { irp, .. } | Call::FinishTaken { irp, .. } => self.rise(irp),
            Call::Cancel { irp } => 1 + self.rise(irp),
            _ => 0,
        }
    }

    /// An empty list with room for what a call can ask.
    ///
    /// # Errors
    ///
    /// `AllocError` where the growth was refused.
    #[inline]
    pub(crate) fn room_for(&self, call: Call) -> Result<Vec<Asked>, AllocError>
        ensures { IfOk result (λ room. (room.items ≡ [])
            × (can_ask (state_of K.live self.now) call ≤ vec_capacity room) × (vec_len room ≡ 0)) }
    {
        Vec::with_capacity(self.alloc, self.can_ask(call))
    }
}
