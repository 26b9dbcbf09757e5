//! The calls on remove locks. A refusal that leaves a seat as it was leaves each view of the seat's parties as it was.
//! This project's own rule: that refusals come in the order in which they are listed; the word, the seat, the limit and all
//! refusals but `DeletePending`; that `begin_remove` doesn't wait; and what names no page of the WDK.
ghost use Rattle.std.specs.Prelude.{◌≡◌, ◌<◌, ◌≤◌, Contains, Err, length, MatchResult, IfSome, IfNone, slice_get, Some};
ghost use Rattle.std.specs.Prelude.{map};
ghost use Rattle.irp_types.specs.Limits.{most_held};
ghost use mathlib.Core.Logic.{◌↔◌};
ghost use Rattle.irp_remove.specs.declared.refusal.AcquireRefusal.TheVariants.{NoLock as acquire_NoLock};
ghost use Rattle.irp_remove.specs.declared.refusal.AcquireRefusal.TheVariants.{SeatFull as acquire_SeatFull};
ghost use Rattle.irp_remove.specs.declared.refusal.ReleaseRefusal.TheVariants.{NoLock as release_NoLock};
ghost use Rattle.irp_remove.specs.declared.refusal.ReleaseRefusal.TheVariants.{NotHeld as release_NotHeld};
ghost use Rattle.irp_remove.specs.declared.refusal.BeginRefusal.TheVariants.{NoLock as begin_NoLock};
ghost use Rattle.irp_remove.specs.declared.refusal.BeginRefusal.TheVariants.{NotHeld as begin_NotHeld};
ghost use Rattle.irp_remove.specs.declared.refusal.DrainRefusal.TheVariants.{NoLock as drain_NoLock};
ghost use Rattle.irp_remove.specs.declared.refusal.HandRefusal.TheVariants.{NoLock as hand_NoLock};
ghost use Rattle.irp_remove.specs.declared.refusal.HandRefusal.TheVariants.{NotHeld as hand_NotHeld};
ghost use Rattle.irp_remove.specs.declared.refusal.HandRefusal.TheVariants.{SeatFull as hand_SeatFull};
ghost use Rattle.irp_remove.specs.Calls.{IsSameSeat, StakeTook, StakeMissed, StakeGave, Acquired, AcquireRefused};
ghost use Rattle.irp_remove.specs.Calls.{Released, ReleaseRefused, Begun, BeginRefused, Looked, DrainRefused, Handed};
ghost use Rattle.irp_remove.specs.Calls.{HandRefused};
ghost use Rattle.irp_remove.specs.Pairing.{IsSeatOf, lock_count};
ghost use Rattle.irp_remove.specs.Seats.{pair_of, view_of, IsIdle, IsHeld};

use crate::plays::{Acquire, Begin, GiveBack, Look, Tagged};
use crate::reference::Reference;
use crate::refusal::{AcquireRefusal, BeginRefusal, DrainRefusal, HandRefusal, ReleaseRefusal};
use crate::seat::RemoveSeat;
use crate::table::Locks;
use arrayvec::ArrayVec;
use irp_types::LockNo;
use std::marker::Brand;

impl Locks {
    /// Takes a reference to a lock under a tag (WDK: "IoAcquireRemoveLock"). A seat may hold a tag several times.
    ///
    /// It is refused with the first of these that holds: `NoLock` if there is no such lock; `SeatFull` if the seat
    /// holds 64 references; `DeletePending` if the removal of the lock has begun. The first two leave the seat as it
    /// was. After `DeletePending` the references are unchanged, and the seat knows the lock removed; where its own
    /// `begin_remove` of the lock had answered Ok or `AlreadyRemoving`, the seat is as it was. It takes constant time.
    pub fn acquire(
        &self,
        seat: &mut RemoveSeat,
        lock: LockNo,
        tag: u32,
    ) -> Result<(), AcquireRefusal>
        requires { IsSeatOf self.now seat.old }
        ensures seat { IsSameSeat seat.old seat.new }
        ensures no_lock { (result ≡ Err acquire_NoLock) ↔ (lock_count self.now ≤ lock.0) }
        ensures seat_full { (result ≡ Err acquire_SeatFull)
            ↔ ((lock.0 < lock_count self.now) × (most_held ≤ length seat.old.held)) }
        ensures reply { MatchResult result
            (λ _. Acquired (lock_count self.now) lock.0 tag seat.old seat.new)
            (AcquireRefused (lock_count self.now) lock.0 seat.old seat.new) }
    {
        let index = lock.0 as usize;
        if index >= self.table.word_count() {
            return Err(AcquireRefusal::NoLock);
        }
        if seat.idle.is_empty() {
            return Err(AcquireRefusal::SeatFull);
        }
        if seat.began[index] || seat.saw[index] {
            return Err(AcquireRefusal::DeletePending);
        }
        let Some(idle) = seat.idle.pop() else {
            return Err(AcquireRefusal::SeatFull);
        };
        match self.take::<Brand>(idle, lock.0, tag) {
            Ok(taken) => {
                seat.held.push(taken);
                Ok(())
            }
            Err(refused) => {
                seat.idle.push(refused);
                Err(AcquireRefusal::DeletePending)
            }
        }
    }

    /// Gives back one reference to a lock under a tag (WDK: "IoReleaseRemoveLock").
    ///
    /// It is refused, and leaves the seat as it was, with the first of these that holds: `NoLock` if there is no such
    /// lock; `NotHeld` if the seat holds no reference to the lock under the tag.
    pub fn release(
        &self,
        seat: &mut RemoveSeat,
        lock: LockNo,
        tag: u32,
    ) -> Result<(), ReleaseRefusal>
        requires { IsSeatOf self.now seat.old }
        ensures seat { IsSameSeat seat.old seat.new }
        ensures no_lock { (result ≡ Err release_NoLock) ↔ (lock_count self.now ≤ lock.0) }
        ensures not_held { (result ≡ Err release_NotHeld)
            ↔ ((lock.0 < lock_count self.now) × ¬ Contains seat.old.held (lock.0, tag)) }
        ensures reply { MatchResult result
            (λ _. Released (lock_count self.now) lock.0 tag seat.old seat.new)
            (ReleaseRefused (lock_count self.now) lock.0 tag seat.old seat.new) }
    {
        if lock.0 as usize >= self.table.word_count() {
            return Err(ReleaseRefusal::NoLock);
        }
        let Some(place) = place_of(&seat.held, lock.0, tag) else {
            return Err(ReleaseRefusal::NotHeld);
        };
        let held = seat.held.remove(place);
        let given = self.give(held);
        seat.idle.push(given);
        Ok(())
    }

    /// Begins the removal of a lock, and gives the caller's reference under the tag back: nobody acquires any more
    /// (WDK: "IoReleaseRemoveLockAndWait"). It doesn't wait: `drained` tells when it is over.
    ///
    /// It is refused with the first of these that holds: `NoLock` if there is no such lock; `NotHeld` if the seat holds
    /// no reference to the lock under the tag; `AlreadyRemoving` if the removal had begun. The first two leave the seat
    /// as it was. After `AlreadyRemoving` it keeps the reference, and knows the lock removed.
    pub fn begin_remove(
        &self,
        seat: &mut RemoveSeat,
        lock: LockNo,
        tag: u32,
    ) -> Result<(), BeginRefusal>
        requires { IsSeatOf self.now seat.old }
        ensures seat { IsSameSeat seat.old seat.new }
        ensures no_lock { (result ≡ Err begin_NoLock) ↔ (lock_count self.now ≤ lock.0) }
        ensures not_held { (result ≡ Err begin_NotHeld)
            ↔ ((lock.0 < lock_count self.now) × ¬ Contains seat.old.held (lock.0, tag)) }
        ensures reply { MatchResult result
            (λ _. Begun (lock_count self.now) lock.0 tag seat.old seat.new)
            (BeginRefused (lock_count self.now) lock.0 tag seat.old seat.new) }
    {
        let index = lock.0 as usize;
        if index >= self.table.word_count() {
            return Err(BeginRefusal::NoLock);
        }
        let Some(place) = place_of(&seat.held, lock.0, tag) else {
            return Err(BeginRefusal::NotHeld);
        };
        let words = &self.table.shared;
        let found = words.fetch_or::<Begin>(&mut seat.observer, index, 1);
        if found % 2 != 0 {
            seat.saw[index] = true;
            return Err(BeginRefusal::AlreadyRemoving);
        }
        seat.began[index] = true;
        let given = self.give(seat.held.remove(place));
        seat.idle.push(given);
        Ok(())
    }

    /// Whether the removal of a lock has begun and nobody holds it or tries it any more. `Ok` is Yes, and then the seat
    /// knows it for good (WDK: "IoReleaseRemoveLockAndWait", where it waits).
    ///
    /// It is refused with the first of these that holds: `NoLock` if there is no such lock, which leaves the seat as it
    /// was; `Busy` with the word found, which isn't 1. The references are unchanged. (The clauses tie this word to the
    /// one that the seat's view tells from then on. That it stood in the table is not proved.)
    pub fn drained(&self, seat: &mut RemoveSeat, lock: LockNo) -> Result<(), DrainRefusal>
        requires { IsSeatOf self.now seat.old }
        ensures seat { IsSameSeat seat.old seat.new }
        ensures no_lock { (result ≡ Err drain_NoLock) ↔ (lock_count self.now ≤ lock.0) }
        ensures reply { MatchResult result
            (λ _. Looked (lock_count self.now) lock.0 1 seat.old seat.new)
            (DrainRefused (lock_count self.now) lock.0 seat.old seat.new) }
    {
        let index = lock.0 as usize;
        if index >= self.table.word_count() {
            return Err(DrainRefusal::NoLock);
        }
        let words = &self.table.shared;
        let word = words.load::<Look>(&mut seat.observer, index);
        if word != 1 {
            return Err(DrainRefusal::Busy(word));
        }
        seat.drained[index] = true;
        Ok(())
    }

    /// Makes one reference of the giver to a lock under a tag the taker's, also after removal has begun. No view
    /// changes.
    ///
    /// It is refused, and leaves both seats as they were, with the first of these that holds: `NoLock` if there is no
    /// such lock; `NotHeld` if the giver holds no reference to the lock under the tag; `SeatFull` if the taker holds 64
    /// references.
    pub fn hand(
        &self,
        giver: &mut RemoveSeat,
        taker: &mut RemoveSeat,
        lock: LockNo,
        tag: u32,
    ) -> Result<(), HandRefusal>
        requires giver { IsSeatOf self.now giver.old }
        requires taker { IsSeatOf self.now taker.old }
        ensures giver { IsSameSeat giver.old giver.new }
        ensures taker { IsSameSeat taker.old taker.new }
        ensures no_lock { (result ≡ Err hand_NoLock) ↔ (lock_count self.now ≤ lock.0) }
        ensures not_held { (result ≡ Err hand_NotHeld)
            ↔ ((lock.0 < lock_count self.now) × ¬ Contains giver.old.held (lock.0, tag)) }
        ensures seat_full { (result ≡ Err hand_SeatFull)
            ↔ ((lock.0 < lock_count self.now) × Contains giver.old.held (lock.0, tag)
            × (most_held ≤ length taker.old.held)) }
        ensures reply { MatchResult result
            (λ _. Handed (lock_count self.now) lock.0 tag giver.old giver.new taker.old taker.new)
            (HandRefused (lock_count self.now) lock.0 tag giver.old giver.new taker.old taker.new) }
    {
        if lock.0 as usize >= self.table.word_count() {
            return Err(HandRefusal::NoLock);
        }
        let Some(place) = place_of(&giver.held, lock.0, tag) else {
            return Err(HandRefusal::NotHeld);
        };
        let Some(idle) = taker.idle.pop() else {
            return Err(HandRefusal::SeatFull);
        };
        let handed = giver.held.remove(place);
        giver.idle.push(idle);
        taker.held.push(handed);
        Ok(())
    }

    // Adds to the word, and takes it back where the removal was found begun.
    fn take<Label: Tagged>(
        &self,
        idle: Reference,
        lock: u32,
        tag: u32,
    ) -> Result<Reference, Reference>
        requires idle { IsIdle self.now.table.shared.table_id idle }
        requires lock { lock < (lock_count self.now) }
        requires tag { tag ≡ Label.tag }
        ensures stake { MatchResult result
            (λ taken. IsHeld self.now.table.shared.table_id taken
            × (taken.lock ≡ lock) × (taken.tag ≡ tag))
            (λ refused. IsIdle self.now.table.shared.table_id refused) }
        ensures steps { MatchResult result
            (λ taken. StakeTook lock tag (view_of idle) (view_of taken))
            (λ refused. StakeMissed lock (view_of idle) (view_of refused)) }
    {
        let Reference {
            stake,
            lock: _,
            tag: _,
        } = idle;
        let mut party = stake.into_seat::<()>();
        let words = &self.table.shared;
        let found = words.fetch_add::<Acquire<Label>>(&mut party, lock as usize, 2);
        if found % 2 == 0 {
            let stake = party.into_badge();
            return Ok(Reference { stake, lock, tag });
        }
        words.fetch_sub::<GiveBack>(&mut party, lock as usize, 2);
        let stake = party.into_badge();
        Err(Reference { stake, lock, tag })
    }

    // Takes from the word what the stake added.
    fn give(&self, held: Reference) -> Reference
        requires { IsHeld self.now.table.shared.table_id held }
        ensures stake { IsIdle self.now.table.shared.table_id result }
        ensures step { StakeGave held.lock held.tag (view_of held) (view_of result) }
    {
        let Reference { stake, lock, tag } = held;
        let mut party = stake.into_seat::<()>();
        let words = &self.table.shared;
        words.fetch_sub::<GiveBack>(&mut party, lock as usize, 2);
        let stake = party.into_badge();
        Reference { stake, lock, tag }
    }
}

// The first place of a reference to the lock under the tag.
fn place_of(held: &ArrayVec<Reference, 64>, lock: u32, tag: u32) -> Option<usize>
    ensures some { IfSome result (λ place.
        slice_get (map pair_of held.now.items) place ≡ Some (lock, tag)) }
    ensures none { IfNone result (¬ Contains (map pair_of held.now.items) (lock, tag)) }
{
    for (place, reference) in held.as_slice().iter().enumerate() {
        if reference.lock == lock && reference.tag == tag {
            return Some(place);
        }
    }
    None
}
