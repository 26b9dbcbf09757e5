//! What of the manager's state a refusal comes from.

ghost use Rattle.std.specs.Prelude.{◌≡◌};
ghost use Rattle.std.specs.Option.{option_map};
ghost use Rattle.irp_types.specs.Stacks.{lower_of};
ghost use Rattle.irp_manager.specs.Keeps.{mapped};
ghost use Rattle.irp_manager.specs.ManagerStates.{state_of};
ghost use Rattle.irp_judge.specs.Causes.{sending, moving, growing, needed_by, packet_cause, live_cause, full_cause, device_of, cause_of, cause_in};

use crate::cause::Cause;
use irp_manager::{Live, ManagerState, MapKeep};
use irp_types::{Call, DeviceId, Party, Refusal, Reply};

/// The device that a call would send from.
fn sending(call: Call) -> Option<DeviceId>
    ensures { result ≡ sending call }
{
    match call {
        Call::CallDriver {
            party: Party::Device(device),
            ..
        } => Some(device),
        _ => None,
    }
}

/// The device that a call would attach or delete.
fn moving(call: Call) -> Option<DeviceId>
    ensures { result ≡ moving call }
{
    match call {
        Call::Attach { device, .. } | Call::Delete { device } => Some(device),
        _ => None,
    }
}

/// The device that a call would attach another to.
fn growing(call: Call) -> Option<DeviceId>
    ensures { result ≡ growing call }
{
    match call {
        Call::Attach { to, .. } => Some(to),
        _ => None,
    }
}

/// How many locations a call needs below the packet's current one.
fn needed_by(core: &ManagerState<MapKeep>, call: Call) -> u32
    ensures { result ≡ needed_by (state_of mapped core.now).devices call }
{
    match call {
        Call::CallDriver { target, .. } => core.depth(target),
        _ => 1,
    }
}

/// What of a packet a refusal comes from, where so many locations are needed below its current one.
fn packet_cause(needed: u32, live: &Live, refusal: Refusal) -> Cause
    ensures { result ≡ packet_cause needed live.now refusal }
{
    let packet = &live.packet;
    let (current, size) = (packet.current(), packet.size());
    match refusal {
        Refusal::Stale => Cause::Use(live.use_no),
        Refusal::NotOwner | Refusal::SlotHeld | Refusal::NotSlotHeld | Refusal::InFlight => {
            Cause::Owner(packet.owner())
        }
        Refusal::NoLocation | Refusal::NotPrepared | Refusal::AfterSkip => {
            Cause::Location { current, size }
        }
        Refusal::TooShort => Cause::Room {
            current,
            size,
            needed,
        },
        Refusal::CancelRoutineSet => Cause::CancelRoutine(packet.cancel_routine()),
        _ => Cause::Nothing,
    }
}

/// What of the packet that a call names a refusal comes from.
fn live_cause(core: &ManagerState<MapKeep>, call: Call, refusal: Refusal) -> Cause
    ensures { result ≡ live_cause (state_of mapped core.now) call refusal }
{
    let Some(irp) = call.packet() else {
        return Cause::Nothing;
    };
    let Some(live) = core.live(irp.slot) else {
        return Cause::Nothing;
    };
    packet_cause(needed_by(core, call), live, refusal)
}

/// Which limit was reached.
fn full_cause(core: &ManagerState<MapKeep>, call: Call) -> Cause
    ensures { result ≡ full_cause (state_of mapped core.now) call }
{
    match call {
        Call::CreateDevice { .. } => Cause::Devices(core.stacks().len()),
        _ => Cause::Packets {
            live: core.packets(),
            next_use: core.next_use(),
        },
    }
}

/// What of the state a refusal of a call comes from.
pub fn cause_of(core: &ManagerState<MapKeep>, call: Call, refusal: Refusal) -> Cause
    ensures { result ≡ cause_of (state_of mapped core.now) call refusal }
{
    let stacks = core.stacks();
    match refusal {
        Refusal::NoDevice => Cause::Devices(stacks.len()),
        Refusal::Full => full_cause(core, call),
        Refusal::WrongTarget => match sending(call) {
            Some(device) => Cause::Lower(stacks.lower(device)),
            None => Cause::Nothing,
        },
        Refusal::StillAttached => match moving(call) {
            Some(device) => Cause::Neighbours {
                lower: stacks.lower(device),
                upper: stacks.upper(device),
            },
            None => Cause::Nothing,
        },
        Refusal::TooDeep => match growing(call) {
            Some(to) => Cause::Stack(stacks.height(to)),
            None => Cause::Nothing,
        },
        Refusal::NotDrained => match core.lock_of(call) {
            Some(lock) => Cause::Lock(lock),
            None => Cause::Nothing,
        },
        _ => live_cause(core, call, refusal),
    }
}

/// What of the state a reply comes from, where it is a refusal.
pub fn cause_in(core: &ManagerState<MapKeep>, call: Call, reply: Reply) -> Option<Cause>
    ensures { result ≡ cause_in (state_of mapped core.now) call reply }
{
    match reply {
        Reply::Refused(refusal) => Some(cause_of(core, call, refusal)),
        _ => None,
    }
}
