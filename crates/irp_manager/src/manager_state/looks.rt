//! What is read of the state, and what a call would be refused with. Nothing changes. Source: this project's own rule.

ghost use Rattle.std.specs.Prelude.{◌≡◌, Bool, [], ◌∷◌, length};
ghost use Rattle.std.specs.Option.{option_copied};
ghost use Rattle.std.specs.FinMap as fin;
ghost use Rattle.irp_types.specs.Checks.{first_failing, or_else};
ghost use Rattle.irp_types.specs.Stacks.{create_checks};
ghost use Rattle.irp_types.specs.State.{Fixed, live_at, packet_of};
ghost use Rattle.irp_types.specs.Refusals.{ended_check, first_refusal, flight_check, packet_refusal, party_refusal, take_refusal, use_check};
ghost use Rattle.irp_types.specs.declared.call.Call.TheVariants.{CreateDevice};
ghost use Rattle.irp_manager.specs.ManagerStates.{Agrees, state_of};
ghost use Rattle.irp_manager.specs.Owning.{own_refusal};

use super::ManagerState;
use crate::keep::{Keep, Live};
use crate::packets::{self, USE_LIMIT};
use irp_packet::Packet;
use irp_stack::Stacks;
use irp_types::{Call, DriverId, IrpRef, Known, LockNo, Owner, Party, Refusal, Status};

/// How many devices may ever be created.
const MOST_DEVICES: u32 = 64;

/// The refusal where the use was completed.
fn no_more(packet: &Packet) -> Option<Refusal>
    ensures { result ≡ first_failing (ended_check packet.now ∷ []) }
{
    if matches!(packet.owner(), Owner::Ended) {
        return Some(Refusal::Ended);
    }
    None
}

impl<K: Keep> ManagerState<K> {
    /// The keep of its live packets.
    pub fn keep(&self) -> &K
        ensures { result.now ≡ self.now.keep }
    {
        &self.keep
    }

    /// The live packet of a slot, if there is one.
    pub fn live(&self, slot: usize) -> Option<&Live>
        ensures { option_copied result ≡ live_at (state_of K.live self.now) slot }
    {
        self.keep.get(slot)
    }

    /// How many packets are live.
    pub fn packets(&self) -> usize
        ensures { result ≡ fin.len (state_of K.live self.now).live }
    {
        self.keep.len()
    }

    /// The number that the next use gets.
    pub fn next_use(&self) -> u64
        ensures { result ≡ (state_of K.live self.now).next_use }
    {
        self.next_use
    }

    /// The devices and their stacks.
    pub fn stacks(&self) -> &Stacks
        ensures devices { result.now.devices ≡ (state_of K.live self.now).devices }
        ensures limit { result.now.limit ≡ self.now.stacks.limit }
    {
        &self.stacks
    }
}

// What a call would be refused with.
impl<K: Keep> ManagerState<K> {
    /// The refusal of a creation where as many devices were created as there may be.
    fn no_device_left(&self) -> Option<Refusal>
        ensures { result ≡ first_failing (create_checks self.now.stacks.devices) }
    {
        if self.stacks.len() >= MOST_DEVICES {
            return Some(Refusal::Full);
        }
        None
    }

    /// The refusal where no use number is left.
    fn no_use_left(&self) -> Option<Refusal>
        ensures { result ≡ first_failing (use_check (state_of K.live self.now) ∷ []) }
    {
        if self.next_use >= USE_LIMIT {
            return Some(Refusal::Full);
        }
        None
    }

    /// The refusal of a creation, where there are so many drivers.
    fn creating(&self, drivers: u32, driver: DriverId, lock: LockNo) -> Option<Refusal>
        ensures { (fixed : Fixed) (drained : Bool) → length fixed.tables.drivers ≡ drivers
            → Agrees fixed self.now
            → result
            ≡ first_refusal fixed (state_of K.live self.now) drained (CreateDevice driver lock) }
    {
        if let Some(refusal) = self.create_refusal(drivers, driver, lock) {
            return Some(refusal);
        }
        self.no_device_left()
    }

    /// The refusal of a call that names the packet of a reference, and of no party.
    fn naming(&self, irp: IrpRef) -> Option<Refusal>
        ensures { result ≡ packet_refusal (state_of K.live self.now) irp }
    {
        match self.keep.get(irp.slot) {
            None => Some(Refusal::NoIrp),
            Some(live) => packets::packet_refusal(live, irp),
        }
    }

    /// The refusal of another use.
    fn reusing(&self, irp: IrpRef) -> Option<Refusal>
        ensures { result ≡ or_else (packet_refusal (state_of K.live self.now) irp)
            (first_failing (flight_check (packet_of (state_of K.live self.now) irp)
            ∷ use_check (state_of K.live self.now) ∷ [])) }
    {
        if let Some(refusal) = self.flight_refusal(irp) {
            return Some(refusal);
        }
        self.no_use_left()
    }

    /// The refusal to complete a packet that was taken from its cancel slot.
    fn taking(&self, irp: IrpRef, token: u64, status: Status) -> Option<Refusal>
        ensures { result ≡ or_else (packet_refusal (state_of K.live self.now) irp)
            (take_refusal (packet_of (state_of K.live self.now) irp) irp.use_no token status) }
    {
        let Some(live) = self.keep.get(irp.slot) else {
            return Some(Refusal::NoIrp);
        };
        if let Some(refusal) = packets::packet_refusal(live, irp) {
            return Some(refusal);
        }
        packets::take_check(&live.packet, irp.use_no, token, status)
    }

    /// The refusal to cancel a packet.
    fn cancelling(&self, irp: IrpRef) -> Option<Refusal>
        ensures { result ≡ or_else (packet_refusal (state_of K.live self.now) irp)
            (first_failing (ended_check (packet_of (state_of K.live self.now) irp) ∷ [])) }
    {
        let Some(live) = self.keep.get(irp.slot) else {
            return Some(Refusal::NoIrp);
        };
        if let Some(refusal) = packets::packet_refusal(live, irp) {
            return Some(refusal);
        }
        no_more(&live.packet)
    }

    /// The refusal of the owner's call by the call's own checks; none for a call that names no party.
    fn owning(&self, counts: Known, packet: &Packet, call: Call) -> Option<Refusal>
        ensures { result ≡ own_refusal counts self.now.stacks.devices packet.now call }
    {
        match call {
            Call::SetNext { major, .. } => packets::next_check(packet, major),
            Call::CopyToNext { .. } => packets::copy_check(packet),
            Call::Skip { .. } => packets::leave_check(packet),
            Call::SetRoutine { setting, .. } => packets::routine_check(packet, counts, setting),
            Call::MarkPending { .. } => packets::own_location_check(packet),
            Call::CallDriver { party, target, .. } => {
                packets::send_check(packet, &self.stacks, party, target)
            }
            Call::Complete { status, .. } => packets::complete_check(packet, status),
            Call::SetCancelRoutine { cancel, .. } => packets::cancel_check(packet, counts, cancel),
            _ => None,
        }
    }

    /// The refusal of a party's call: of the reference, of the party, and then by the call's own checks.
    fn by_party(&self, counts: Known, party: Party, irp: IrpRef, call: Call) -> Option<Refusal>
        ensures { result ≡ or_else (party_refusal (state_of K.live self.now) party irp)
            (own_refusal counts self.now.stacks.devices
            (packet_of (state_of K.live self.now) irp) call) }
    {
        let Some(live) = self.keep.get(irp.slot) else {
            return Some(Refusal::NoIrp);
        };
        if let Some(refusal) = packets::party_refusal(live, party, irp) {
            return Some(refusal);
        }
        self.owning(counts, &live.packet, call)
    }

    /// What a call would be refused with, where there are so many routines and drivers, and the caller knows so of
    /// the lock of the device that a Delete names; none where it would be carried out.
    pub fn first_refusal(
        &self,
        counts: Known,
        drivers: u32,
        call: Call,
        drained: bool,
    ) -> Option<Refusal>
        ensures { (fixed : Fixed) → fixed.tables.counts ≡ counts
            → length fixed.tables.drivers ≡ drivers → Agrees fixed self.now
            → result ≡ first_refusal fixed (state_of K.live self.now) drained call }
    {
        match call {
            Call::CreateDevice { driver, lock } => self.creating(drivers, driver, lock),
            Call::Attach { device, to } => self.stacks.attach_refusal(device, to),
            Call::Detach { lower } => self.stacks.detach_refusal(lower),
            Call::Delete { device } => self.delete_refusal(device, drained),
            Call::Allocate { size } => self.allocate_refusal(size),
            Call::Free { irp } => self.flight_refusal(irp),
            Call::Reuse { irp, .. } => self.reusing(irp),
            Call::FinishTaken {
                irp,
                token,
                status,
                ..
            } => self.taking(irp, token, status),
            Call::Cancel { irp } => self.cancelling(irp),
            Call::Look { irp } => self.naming(irp),
            Call::SetNext { party, irp, .. }
            | Call::CopyToNext { party, irp }
            | Call::Skip { party, irp }
            | Call::SetRoutine { party, irp, .. }
            | Call::MarkPending { party, irp }
            | Call::CallDriver { party, irp, .. }
            | Call::Complete { party, irp, .. }
            | Call::SetCancelRoutine { party, irp, .. } => self.by_party(counts, party, irp, call),
        }
    }
}
