//! How locks and their seats are made.
ghost use Rattle.std.specs.Prelude.{◌≡◌, ◌<◌, ◌≤◌, ◌*◌, ◌-◌, All, Err, IfOk, MatchResult, length, vec_len};
ghost use Rattle.irp_types.specs.Limits.{most_held};
ghost use Rattle.irp_remove.specs.Core.{observers, stakes};
ghost use Rattle.irp_remove.specs.Opening.{IsBadCount, IsGoodCount, OpenRefused, IsFresh, AreFresh, parties_of};
ghost use Rattle.irp_remove.specs.Opening.{IsAllIdle};
ghost use Rattle.irp_remove.specs.declared.refusal.OpenRefusal.TheVariants.{BadCount};
ghost use mathlib.Core.Logic.{◌↔◌};
ghost use Rattle.irp_remove.specs.Pairing.{lock_count};
ghost use Rattle.irp_remove.specs.Seats.{IsNew};
ghost use Rattle.irp_remove.specs.declared.views.View.TheVariants.{First};

use crate::plays::{NewObserver, NewStake};
use crate::reference::Reference;
use crate::refusal::OpenRefusal;
use crate::seat::RemoveSeat;
use crate::table::Locks;
use crate::views::{Parties, View};
use arrayvec::ArrayVec;
use atomic_table::{Seat, Table};
use irp_types::limits::{MOST_LOCKS, MOST_SEATS};
use std::alloc::{AllocError, Global};

/// Makes 1 to 64 locks, numbered from 0, and 1 to 64 seats that use them, numbered from 0 in the order of the answer
/// (WDK: "IoInitializeRemoveLock"; counts, seats and refusals are this project's own rule). Nobody holds a lock, and no
/// removal has begun: the table has no other observers and stakes than those of these seats, and where these are as
/// they were made every word is 0.
///
/// The error is `BadCount` exactly where none or more than 64 of either were asked for. It is `Memory` only where the
/// counts are good.
pub fn open(alloc: Global, locks: u32, seats: u32) -> Result<(Locks, Vec<RemoveSeat>), OpenRefusal>
    ensures counts { MatchResult result (λ _. IsGoodCount locks seats) (OpenRefused locks seats) }
    ensures bad_count { (result ≡ Err BadCount) ↔ IsBadCount locks seats }
    ensures locks { IfOk result (λ opened. lock_count opened.0 ≡ locks) }
    ensures parties { IfOk result (λ opened. opened.0.table.shared.key ≡ parties_of locks seats) }
    ensures seats { IfOk result (λ opened. (vec_len opened.1 ≡ seats)
        × AreFresh opened.0.table.shared.table_id seats opened.1.items) }
    ensures idle { IfOk result (λ opened. IsAllIdle opened.0.table.shared.key opened.1.items) }
{
    if locks == 0 || locks > MOST_LOCKS || seats == 0 || seats > MOST_SEATS {
        return Err(OpenRefusal::BadCount);
    }
    let Ok(words) = Vec::from_elem(alloc, 0u64, locks as usize) else {
        return Err(OpenRefusal::Memory);
    };
    let parties = Parties {
        locks: locks as u64,
        observers: seats as u64,
        stakes: seats as u64 * 64,
    };
    let Ok((table, first)) = Table::of_words(alloc, words.as_slice(), &parties) else {
        return Err(OpenRefusal::Memory);
    };
    let locks = Locks { table };
    match locks.seats(alloc, first, seats) {
        Ok(made) => Ok((locks, made)),
        Err(_) => Err(OpenRefusal::Memory),
    }
}

impl Locks {
    // Makes so many remove seats, numbered from 0.
    fn seats(
        &self,
        alloc: Global,
        mut first: Seat<(), View>,
        count: u32,
    ) -> Result<Vec<RemoveSeat>, AllocError>
        requires table { first.table_id ≡ self.now.table.shared.table_id }
        requires first { first.me.0 ≡ First count (count * most_held) }
        ensures count { IfOk result (λ made. vec_len made ≡ count) }
        ensures fresh { IfOk result (λ made.
            AreFresh self.now.table.shared.table_id count made.items) }
    {
        let mut made = Vec::new(alloc);
        for number in 0..count {
            let seat = self.seat(&mut first, number);
            made.push(seat)?;
        }
        Ok(made)
    }

    // Makes a remove seat under this number.
    fn seat(&self, first: &mut Seat<(), View>, number: u32) -> RemoveSeat
        requires table { first.old.table_id ≡ self.now.table.shared.table_id }
        requires first { first.old.me.0 ≡ First (observers first.old.me.0) (stakes first.old.me.0) }
        requires left { (0 < observers first.old.me.0) × (most_held ≤ stakes first.old.me.0) }
        ensures table { first.new.table_id ≡ first.old.table_id }
        ensures first { first.new.me.0
            ≡ First (observers first.old.me.0 - 1) (stakes first.old.me.0 - most_held) }
        ensures number { result.number ≡ number }
        ensures fresh { IsFresh self.now.table.shared.table_id result }
    {
        let observer = self.table.shared.split_seat::<NewObserver>(first);
        let idle = self.stakes(first);
        RemoveSeat {
            number,
            observer,
            idle,
            held: ArrayVec::new(),
            began: [false; 64],
            saw: [false; 64],
            drained: [false; 64],
        }
    }

    // Makes 64 stakes.
    fn stakes(&self, first: &mut Seat<(), View>) -> ArrayVec<Reference, 64>
        requires table { first.old.table_id ≡ self.now.table.shared.table_id }
        requires first { first.old.me.0 ≡ First (observers first.old.me.0) (stakes first.old.me.0) }
        requires left { most_held ≤ stakes first.old.me.0 }
        ensures table { first.new.table_id ≡ first.old.table_id }
        ensures first { first.new.me.0
            ≡ First (observers first.old.me.0) (stakes first.old.me.0 - most_held) }
        ensures new { All (IsNew self.now.table.shared.table_id) result.items }
        ensures all { length result.items ≡ most_held }
    {
        let mut idle = ArrayVec::new();
        for _ in 0..64u32 {
            let stake = self.table.shared.split_seat::<NewStake>(first).into_badge();
            idle.push(Reference {
                stake,
                lock: 0,
                tag: 0,
            });
        }
        idle
    }
}
