//! How slots, their owners and the cancellers are made.
ghost use Rattle.std.specs.Prelude.{◌≡◌, ◌+◌, ◌-◌, ◌<◌, [], All, Err, IfErr, IfOk, vec_len};
ghost use mathlib.Core.Logic.{◌↔◌};
ghost use Rattle.irp_slots.specs.Core.{span, first_from, no_owner_left, canceller_count, new_owning};
ghost use Rattle.irp_slots.specs.Opening.{IsBadCount, IsGoodCount, OpenRefused, parties_of, AreFreshOwners};
ghost use Rattle.irp_slots.specs.Opening.{IsFreshCanceller, IsAllEmpty};
ghost use Rattle.irp_slots.specs.declared.answers.OpenRefusal.TheVariants.{BadCount};
ghost use Rattle.irp_slots.specs.declared.views.View.TheVariants.{First};
ghost use Rattle.irp_slots.specs.Pairing.{slot_count, table_of, key_of};

use crate::answers::OpenRefusal;
use crate::canceller::Canceller;
use crate::owner::SlotOwner;
use crate::plays::{NewCanceller, NewOwner};
use crate::table::Slots;
use crate::views::{Parties, View};
use atomic_table::{Seat, Table};
use irp_types::limits::{MOST_SEATS, MOST_SLOTS};
use std::alloc::{AllocError, Global};

/// Makes up to 64 slots, numbered from 0, an owner for each in their order, and 1 to 64 cancellers (this project's
/// own rule). The owners are idle and no canceller has asked: the table has no other owners and cancellers than
/// these, and where they are as they were made every slot is empty and every flag clear. Making one of them loads the
/// first word, which is slot 0's flag (the spare word where there are no slots), and changes none.
///
/// The error is `BadCount` exactly where more than 64 slots, or none or more than 64 cancellers were asked for. It is
/// `Memory` only where the counts are good.
pub fn open(
    alloc: Global,
    slots: u32,
    cancellers: u32,
) -> Result<(Slots, Vec<SlotOwner>, Vec<Canceller>), OpenRefusal>
    ensures good { IfOk result (λ _. IsGoodCount slots cancellers) }
    ensures refused { IfErr result (OpenRefused slots cancellers) }
    ensures bad_count { (result ≡ Err BadCount) ↔ IsBadCount slots cancellers }
    ensures parties { IfOk result (λ made. key_of made.0 ≡ parties_of slots cancellers) }
    ensures one_each { IfOk result (λ made. vec_len made.1 ≡ slots) }
    ensures owners { IfOk result (λ made. AreFreshOwners (table_of made.0) slots made.1.items) }
    ensures count { IfOk result (λ made. vec_len made.2 ≡ cancellers) }
    ensures asking { IfOk result (λ made. All (IsFreshCanceller (table_of made.0)) made.2.items) }
    ensures empty { IfOk result (λ made. IsAllEmpty (key_of made.0) made.1.items made.2.items) }
{
    if slots > MOST_SLOTS || cancellers == 0 || cancellers > MOST_SEATS {
        return Err(OpenRefusal::BadCount);
    }
    let Ok(words) = Vec::from_elem(alloc, 0u64, 2 * (slots as usize) + 1) else {
        return Err(OpenRefusal::Memory);
    };
    let parties = Parties {
        slots: slots as u64,
        cancellers: cancellers as u64,
    };
    let Ok((table, mut first)) = Table::of_words(alloc, words.as_slice(), &parties) else {
        return Err(OpenRefusal::Memory);
    };
    let opened = Slots { table };
    let Ok(owners) = opened.owners(alloc, &mut first, slots) else {
        return Err(OpenRefusal::Memory);
    };
    match opened.cancellers(alloc, first, cancellers) {
        Ok(made) => Ok((opened, owners, made)),
        Err(_) => Err(OpenRefusal::Memory),
    }
}

impl Slots {
    // Makes the owners of all slots.
    fn owners(
        &self,
        alloc: Global,
        first: &mut Seat<(), View>,
        count: u32,
    ) -> Result<Vec<SlotOwner>, AllocError>
        requires table { first.old.table_id ≡ table_of self.now }
        requires count { count ≡ slot_count self.now }
        requires first { first.old.me.0 ≡ First (span 0 count) (canceller_count first.old.me.0) }
        ensures table { first.new.table_id ≡ first.old.table_id }
        ensures first { IfOk result (λ _. first.new.me.0 ≡ no_owner_left first.old.me.0) }
        ensures count { IfOk result (λ made. vec_len made ≡ count) }
        ensures fresh { IfOk result (λ made. AreFreshOwners (table_of self.now) count made.items) }
    {
        let mut made = Vec::new(alloc);
        for slot in 0..count {
            let owner = self.owner(first, slot);
            made.push(owner)?;
        }
        Ok(made)
    }

    // Makes the owner of this slot, which is the first in the list of those that are left.
    fn owner(&self, first: &mut Seat<(), View>, slot: u32) -> SlotOwner
        requires table { first.old.table_id ≡ table_of self.now }
        requires slot { slot < slot_count self.now }
        requires first { first.old.me.0 ≡ first_from slot (slot_count self.now) first.old.me.0 }
        ensures table { first.new.table_id ≡ first.old.table_id }
        ensures end { first.new.me.0 ≡ first_from (slot + 1) (slot_count self.now) first.old.me.0 }
        ensures of { result.table ≡ table_of self.now }
        ensures fresh { result.owning ≡ new_owning slot }
    {
        let seat = self.table.shared.split_seat::<NewOwner>(first);
        SlotOwner {
            seat,
            slot: slot as usize,
            used: false,
            stands: false,
        }
    }

    // Makes so many cancellers.
    fn cancellers(
        &self,
        alloc: Global,
        mut first: Seat<(), View>,
        count: u32,
    ) -> Result<Vec<Canceller>, AllocError>
        requires table { first.table_id ≡ table_of self.now }
        requires first { first.me.0 ≡ First [] count }
        ensures count { IfOk result (λ made. vec_len made ≡ count) }
        ensures new { IfOk result (λ made. All (IsFreshCanceller (table_of self.now)) made.items) }
    {
        let mut made = Vec::new(alloc);
        for _ in 0..count {
            let canceller = self.canceller(&mut first);
            made.push(canceller)?;
        }
        Ok(made)
    }

    // Makes a canceller.
    fn canceller(&self, first: &mut Seat<(), View>) -> Canceller
        requires table { first.old.table_id ≡ table_of self.now }
        requires first { first.old.me.0 ≡ no_owner_left first.old.me.0 }
        requires left { 0 < canceller_count first.old.me.0 }
        ensures table { first.new.table_id ≡ first.old.table_id }
        ensures first { first.new.me.0 ≡ First [] (canceller_count first.old.me.0 - 1) }
        ensures fresh { IsFreshCanceller (table_of self.now) result }
    {
        Canceller {
            seat: self.table.shared.split_seat::<NewCanceller>(first),
        }
    }
}
