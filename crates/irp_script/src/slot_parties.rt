//! What a seat has at the cancel slots.

ghost use Rattle.std.specs.Prelude.{
  ◌≡◌,
  ◌<◌,
  ◌++◌,
  ◌∷◌,
  [],
  All,
  Contains,
  IfNone,
  IfOk,
  IfSome,
  MatchResult,
  None,
  OnErr,
  Some,
  false,
  length,
  map,
  slice_get,
  slice_set,
  true,
  vec_capacity,
  vec_len,
};
ghost use Rattle.irp_slots.specs.Pairing.{IsCancellerOf, slot_count};
ghost use Rattle.irp_slots.specs.declared.answers.Token.{Token};
ghost use Rattle.irp_script.specs.AtSlots.{IsSpent, Publishing, Requesting, Withdrawing, fresh, kept};
ghost use Rattle.irp_script.specs.Stops.{IsUnowned};

use crate::slot_replies::{published, requested, withdrawn};
use crate::stop::StopReason;
use crate::taken::Taken;
use irp_shared::WordReply;
use irp_slots::{Canceller, SlotOwner, Slots, Token};
use irp_types::IrpRef;
use std::alloc::{AllocError, Global};
use std::marker::Model;

/// A seat's parties at the cancel slots that these were opened with: its canceller, and the owners of its slots. And
/// the tokens that they took out of slots.
///
/// Contracts see it as the record `AtSlots` of this crate.
#[derive(Drop)]
pub struct SlotParties<'a> {
    slots: &'a Slots,
    canceller: Canceller,
    owners: Vec<SlotOwner>,
    taken: Vec<Taken>,
}

impl<'a> Model for SlotParties<'a> {
    ghost use Rattle.std.specs.Prelude.{All};
    ghost use Rattle.irp_slots.specs.Pairing.{IsCancellerOf, IsOwnerOf, slot_count};
    ghost use Rattle.irp_script.specs.AtSlots.{AtSlots};

    ghost Value = { AtSlots };

    ghost view = { λ parties. record {
      slots = slot_count parties.slots.now;
      canceller = parties.canceller;
      owners = parties.owners.items;
      taken = parties.taken.items;
    } };

    ghost invariant = { λ parties. IsCancellerOf parties.slots.now parties.canceller
        × All (IsOwnerOf parties.slots.now) parties.owners.items };
}

/// Keeps what came out of a slot, if anything did.
fn keep(taken: &mut Vec<Taken>, slot: u32, token: Option<Token>)
    requires { vec_len taken.old < vec_capacity taken.old }
    ensures { taken.new.items ≡ kept slot token taken.old.items }
{
    if token.is_some() {
        taken.push_reserved(Taken { slot, token });
    }
}

/// The place of the owner of a slot. None where there is none.
fn place_of(owners: &[SlotOwner], slot: u32) -> Option<usize>
    ensures place { IfSome result (λ place. place < length owners.now) }
    ensures some { IfSome result (λ place.
        slice_get (map (λ owner. owner.owning.slot) owners.now) place ≡ Some slot) }
    ensures none { IfNone result (¬ Contains (map (λ owner. owner.owning.slot) owners.now) slot) }
{
    for (place, owner) in owners.iter().enumerate() {
        if owner.slot() == slot {
            return Some(place);
        }
    }
    None
}

/// Whether a token of the slot is left.
fn is_left(taken: &Taken, slot: u32) -> bool
    ensures left { result ≡ true → (token : Token) × (taken.now ≡ fresh slot token) }
    ensures spent { result ≡ false → IsSpent slot taken.now }
{
    taken.slot == slot && taken.token.is_some()
}

/// The place of a token that was taken from a slot and isn't spent. None where there is none.
fn place_of_token(taken: &[Taken], slot: u32) -> Option<usize>
    ensures place { IfSome result (λ place. place < length taken.now) }
    ensures some { IfSome result (λ place.
        (token : Token) × (slice_get taken.now place ≡ Some (fresh slot token))) }
    ensures none { IfNone result (All (IsSpent slot) taken.now) }
{
    for (place, one) in taken.iter().enumerate() {
        if is_left(one, slot) {
            return Some(place);
        }
    }
    None
}

impl<'a> SlotParties<'a> {
    /// A canceller of these slots, without an owner. It has taken nothing.
    pub fn new(alloc: Global, slots: &'a Slots, canceller: Canceller) -> SlotParties<'a>
        requires { IsCancellerOf slots.now canceller }
        ensures { result ≡
            record {
              slots = slot_count slots.now;
              canceller = canceller;
              owners = [];
              taken = [];
            } }
    {
        SlotParties {
            slots,
            canceller,
            owners: Vec::new(alloc),
            taken: Vec::new(alloc),
        }
    }

    /// Gives it an owner that was opened with its canceller.
    ///
    /// # Errors
    ///
    /// `AllocError` where a growth was refused. The owner is gone then.
    pub fn own(&mut self, owner: SlotOwner) -> Result<(), AllocError>
        requires { owner.table ≡ self.old.canceller.table }
        ensures owns { IfOk result (λ _.
            self.new ≡ record self.old { owners = self.old.owners ++ owner ∷ [] }) }
        ensures err { OnErr result (self.new ≡ self.old) }
    {
        self.owners.reserve(1)?;
        self.owners.push_reserved(owner);
        Ok(())
    }

    /// Publishes a packet's use in a slot of its own, keeps the token that came out, and answers what a word line
    /// tells of it.
    ///
    /// # Errors
    ///
    /// `NotOwner` where the slot is none of its own, else `Memory` where a growth was refused. Nothing was done then.
    pub fn publish(&mut self, slot: u32, irp: IrpRef) -> Result<WordReply, StopReason>
        ensures { MatchResult result (λ reply. Publishing slot irp.use_no self.old self.new reply)
            (λ why. (self.new ≡ self.old) × IsUnowned slot self.old why) }
    {
        let Some(at) = place_of(self.owners.as_slice(), slot) else {
            return Err(StopReason::NotOwner);
        };
        self.taken.reserve(1)?;
        let slots = self.slots;
        let owner = &mut self.owners[at];
        let (reply, token) = published(slots.publish(owner, irp));
        keep(&mut self.taken, slot, token);
        Ok(reply)
    }

    /// Withdraws what its owner has published in a slot of its own, keeps the token that came out, and answers what a
    /// word line tells of it.
    ///
    /// # Errors
    ///
    /// Those of `publish`.
    pub fn withdraw(&mut self, slot: u32) -> Result<WordReply, StopReason>
        ensures { MatchResult result (λ reply. Withdrawing slot self.old self.new reply)
            (λ why. (self.new ≡ self.old) × IsUnowned slot self.old why) }
    {
        let Some(at) = place_of(self.owners.as_slice(), slot) else {
            return Err(StopReason::NotOwner);
        };
        self.taken.reserve(1)?;
        let slots = self.slots;
        let owner = &mut self.owners[at];
        let (reply, token) = withdrawn(slots.withdraw(owner));
        keep(&mut self.taken, slot, token);
        Ok(reply)
    }

    /// Asks for what stands in a slot, keeps the token that came out, and answers what a word line tells of it.
    ///
    /// # Errors
    ///
    /// `AllocError` where a growth was refused. Nothing was done then.
    pub fn request(&mut self, slot: u32) -> Result<WordReply, AllocError>
        ensures { MatchResult result (λ reply. Requesting slot self.old self.new reply)
            (λ _. self.new ≡ self.old) }
    {
        self.taken.reserve(1)?;
        let slots = self.slots;
        let (reply, token) = requested(slots.request(&mut self.canceller, slot));
        keep(&mut self.taken, slot, token);
        Ok(reply)
    }

    /// Takes out a token that was taken from a slot and isn't spent, with its place. None where there is none.
    pub fn take(&mut self, slot: u32) -> Option<(usize, Token)>
        ensures place { IfSome result (λ found. found.0 < length self.new.taken) }
        ensures found { IfSome result (λ found.
            slice_get self.old.taken found.0 ≡ Some (fresh slot found.1)) }
        ensures rest { IfSome result (λ found. self.new ≡
            record self.old {
              taken = slice_set self.old.taken found.0 (record { slot = slot; token = None });
            }) }
        ensures none { IfNone result (All (IsSpent slot) self.old.taken × (self.new ≡ self.old)) }
    {
        let at = place_of_token(self.taken.as_slice(), slot)?;
        let taken = &mut self.taken[at];
        let token = taken.token.take()?;
        Some((at, token))
    }

    /// Puts a token of a slot, or none, into this place.
    pub fn put_back(&mut self, at: usize, slot: u32, token: Option<Token>)
        requires { at < length self.old.taken }
        ensures { self.new ≡ record self.old {
          taken = slice_set self.old.taken at (record { slot = slot; token = token });
        } }
    {
        self.taken[at] = Taken { slot, token };
    }
}
