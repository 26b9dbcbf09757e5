//! One cancel slot: a token that comes out of it, and races of its owner and a canceller in threads of their own.

ghost use Rattle.irp_slots.specs.Pairing.{IsOwnerOf, IsCancellerOf};

use crate::example::IRP;
use crate::tried::{Halt, Tried, wanted};
use irp_slots::{Canceller, Publication, Request, SlotOwner, Slots, Token, Withdrawal, open};
use std::alloc::Global;
use std::thread;
use std::thread::Threads;

/// The token of the first packet's use: the owner of a slot publishes the use there, and takes it out again. Where
/// memory is missing for the slot, all is gone.
pub fn taken(alloc: Global, tried: &mut Tried) -> Result<Token, Halt> {
    let Ok((slots, mut owners, _)) = open(alloc, 1, 1) else {
        return Err(tried.lost("irp_slots::open"));
    };
    let Some(mut owner) = owners.pop() else {
        return Err(Halt::Wrong("a slot has no owner"));
    };
    let _ = slots.publish(&mut owner, IRP);
    match slots.withdraw(&mut owner) {
        Withdrawal::Taken(token) => Ok(token),
        _ => Err(Halt::Wrong("the use of a packet didn't stand in its slot")),
    }
}

/// The owner of the one slot.
#[derive(Drop)]
struct Publisher<'a> {
    slots: &'a Slots,
    owner: SlotOwner,
    ghost fits: { IsOwnerOf slots.now owner },
}

impl<'a> Publisher<'a> {
    /// Publishes the use. Whether that took the use back.
    fn publishes(mut self) -> (Publisher<'a>, bool) {
        let published = self.slots.publish(&mut self.owner, IRP);
        (self, matches!(published, Publication::Taken(_)))
    }

    /// Withdraws the use. Whether that took it.
    fn withdraws(mut self) -> bool {
        matches!(self.slots.withdraw(&mut self.owner), Withdrawal::Taken(_))
    }
}

/// A canceller of the one slot.
#[derive(Drop)]
struct Requester<'a> {
    slots: &'a Slots,
    canceller: Canceller,
    ghost fits: { IsCancellerOf slots.now canceller },
}

impl Requester<'_> {
    /// Asks for the use. Whether that took it.
    fn requests(mut self) -> bool {
        matches!(
            self.slots.request(&mut self.canceller, 0),
            Request::Taken(_)
        )
    }
}

/// How many of the owner's publication, the canceller's request at the same time and the owner's withdrawal after both
/// took the use, in one race for one slot. None where memory is missing.
fn race<R: Threads + Sync>(rt: &R, alloc: Global) -> Option<u32> {
    let Ok((slots, mut owners, mut cancellers)) = open(alloc, 1, 1) else {
        return None;
    };
    let (owner, canceller) = (owners.pop()?, cancellers.pop()?);
    let slots = &slots;
    let publisher = Publisher { slots, owner };
    let requester = Requester { slots, canceller };
    let publishing = move || publisher.publishes();
    let requesting = move || requester.requests();
    let ((publisher, published), requested) = thread::join(rt, publishing, requesting);
    Some(u32::from(published) + u32::from(requested) + u32::from(publisher.withdraws()))
}

/// Races for a use, again and again: exactly one takes it.
pub fn slot_race<R: Threads + Sync>(rt: &R, alloc: Global) -> Result<(), Halt> {
    for _ in 0..1000u32 {
        match race(rt, alloc) {
            Some(1) => (),
            Some(_) => return Err(Halt::Wrong("not exactly one took the use")),
            None => return Err(Halt::Memory),
        }
    }
    Ok(())
}
