//! Why a call is refused: each refusal, with its number, its name and when it comes. Source: this project's own rule.

ghost use Rattle.std.specs.Prelude.{◌≡◌};
ghost use Rattle.irp_types.specs.Refusal.{refusal_meaning, refusal_name, refusal_number, refusals};

/// Why a call is refused; `docs/RULES.md` says when each comes.
#[derive(Clone, Copy, PartialEq, Eq, Debug)]
pub enum Refusal {
    /// The slot has no live packet.
    NoIrp,
    /// The slot's packet is of another use.
    Stale,
    /// The device was never created.
    NoDevice,
    /// The device was deleted.
    DeviceGone,
    /// The party isn't the packet's owner.
    NotOwner,
    /// The originator has no location of its own.
    NoLocation,
    /// The next lower location wasn't prepared.
    NotPrepared,
    /// The owner gave its location to the next lower device.
    AfterSkip,
    /// Too few locations are left.
    TooShort,
    /// A device sends elsewhere than to the device below it.
    WrongTarget,
    /// The store has no such routine or dispatch.
    NoRoutine,
    /// The status isn't one to complete with.
    BadStatus,
    /// The packet still has a cancel routine.
    CancelRoutineSet,
    /// A cancel routine is set on a cancelled packet.
    AlreadyCancelled,
    /// A device owns the packet, or the device is in use by one.
    InFlight,
    /// The device has a neighbour in its stack.
    StillAttached,
    /// Both devices are in one stack.
    SameStack,
    /// The stack has as many devices as it may.
    TooDeep,
    /// A limit was reached.
    Full,
    /// No device stands above this one.
    NothingAttached,
    /// The device's remove lock isn't known to be drained.
    NotDrained,
    /// A packet can't have this many locations.
    BadSize,
    /// The major function code is above 0x1b.
    BadMajor,
    /// There is no such driver.
    NoDriver,
    /// The packet was completed, and nobody kept it.
    Ended,
    /// The history has as many entries as it may.
    HistoryFull,
    /// There is no such remove lock.
    NoLock,
    /// The packet stands in a cancel slot.
    SlotHeld,
    /// The packet doesn't stand in a cancel slot.
    NotSlotHeld,
}

/// A refusal's number, its name, and when it comes.
fn refusal_row(refusal: Refusal) -> (u32, &'static str, &'static str)
    ensures number { result.0 ≡ refusal_number refusal }
    ensures name { result.1.now ≡ refusal_name refusal }
    ensures meaning { result.2.now ≡ refusal_meaning refusal }
{
    match refusal {
        Refusal::NoIrp => (1, "NoIrp", "no live packet is under this slot"),
        Refusal::Stale => (2, "Stale", "the packet is in another use by now"),
        Refusal::NoDevice => (3, "NoDevice", "no such device was created"),
        Refusal::DeviceGone => (4, "DeviceGone", "the device was deleted"),
        Refusal::NotOwner => (5, "NotOwner", "the caller doesn't own the packet"),
        Refusal::NoLocation => (6, "NoLocation", "the originator has no location of its own"),
        Refusal::NotPrepared => (
            7,
            "NotPrepared",
            "the next location wasn't filled, and the own one wasn't skipped",
        ),
        Refusal::AfterSkip => (8, "AfterSkip", "after a skip the owner may only send"),
        Refusal::TooShort => (9, "TooShort", "too few locations are left"),
        Refusal::WrongTarget => (
            10,
            "WrongTarget",
            "a device sends to the device just below it alone",
        ),
        Refusal::NoRoutine => (11, "NoRoutine", "there is no such routine"),
        Refusal::BadStatus => (12, "BadStatus", "no packet is completed with this status"),
        Refusal::CancelRoutineSet => (
            13,
            "CancelRoutineSet",
            "the packet still has a cancel routine",
        ),
        Refusal::AlreadyCancelled => (14, "AlreadyCancelled", "the packet was cancelled before"),
        Refusal::InFlight => (15, "InFlight", "a device still has the packet"),
        Refusal::StillAttached => (
            16,
            "StillAttached",
            "the device has a neighbour in its stack",
        ),
        Refusal::SameStack => (17, "SameStack", "both devices are in one stack"),
        Refusal::TooDeep => (18, "TooDeep", "the stack would be too deep"),
        Refusal::Full => (19, "Full", "a limit is reached"),
        Refusal::NothingAttached => (20, "NothingAttached", "nothing stands above this device"),
        Refusal::NotDrained => (
            21,
            "NotDrained",
            "the caller doesn't know the remove lock drained",
        ),
        Refusal::BadSize => (22, "BadSize", "no packet has so many locations"),
        Refusal::BadMajor => (23, "BadMajor", "there is no such major function code"),
        Refusal::NoDriver => (24, "NoDriver", "there is no such driver"),
        Refusal::Ended => (25, "Ended", "this use has completed"),
        Refusal::HistoryFull => (26, "HistoryFull", "the history is full"),
        Refusal::NoLock => (27, "NoLock", "there is no such remove lock"),
        Refusal::SlotHeld => (28, "SlotHeld", "the packet is kept for a cancel slot"),
        Refusal::NotSlotHeld => (29, "NotSlotHeld", "the packet is kept for no cancel slot"),
    }
}

impl Refusal {
    /// The refusal's number, from 1 to 29, the same in every release.
    pub fn number(self) -> u32
        ensures { result ≡ refusal_number self }
    {
        refusal_row(self).0
    }
}

/// The name of a refusal, as transcripts and docs/RULES.md have it. No two refusals have one name.
pub fn refusal_name(refusal: Refusal) -> &'static str
    ensures { result.now ≡ refusal_name refusal }
{
    refusal_row(refusal).1
}

/// When a refusal comes, in a few words (docs/RULES.md, Refusals).
pub fn refusal_meaning(refusal: Refusal) -> &'static str
    ensures { result.now ≡ refusal_meaning refusal }
{
    refusal_row(refusal).2
}

/// Every refusal, by number, each once.
#[tactic(auto, unfolding(crate::specs::Refusal::refusals))]
pub fn every_refusal() -> &'static [Refusal]
    ensures { result.now ≡ refusals }
{
    &[
        Refusal::NoIrp,
        Refusal::Stale,
        Refusal::NoDevice,
        Refusal::DeviceGone,
        Refusal::NotOwner,
        Refusal::NoLocation,
        Refusal::NotPrepared,
        Refusal::AfterSkip,
        Refusal::TooShort,
        Refusal::WrongTarget,
        Refusal::NoRoutine,
        Refusal::BadStatus,
        Refusal::CancelRoutineSet,
        Refusal::AlreadyCancelled,
        Refusal::InFlight,
        Refusal::StillAttached,
        Refusal::SameStack,
        Refusal::TooDeep,
        Refusal::Full,
        Refusal::NothingAttached,
        Refusal::NotDrained,
        Refusal::BadSize,
        Refusal::BadMajor,
        Refusal::NoDriver,
        Refusal::Ended,
        Refusal::HistoryFull,
        Refusal::NoLock,
        Refusal::SlotHeld,
        Refusal::NotSlotHeld,
    ]
}
