//! The calls on cancel slots. Each makes three atomic steps at most. The slot and the answers are this project's own
//! rule.
ghost use Rattle.std.specs.Prelude.{◌≡◌, ◌<◌, ◌≤◌, true, false, IfSome, IfNone};
ghost use mathlib.Core.Logic.{◌↔◌};
ghost use Rattle.irp_slots.specs.declared.answers.Publication.TheVariants.{Used};
ghost use Rattle.irp_slots.specs.declared.answers.Withdrawal.TheVariants.{NotStanding};
ghost use Rattle.irp_slots.specs.declared.answers.Request.TheVariants.{NoSlot};
ghost use Rattle.irp_slots.specs.declared.views.Stage.TheVariants.{Idle, Published};
ghost use Rattle.irp_slots.specs.Core.{flag, is_begun, is_standing, may_take_back, owning_published, owning_checked};
ghost use Rattle.irp_slots.specs.Core.{asking_flagged};
ghost use Rattle.irp_slots.specs.Calls.{Publishes, PublishSteps, Withdraws, WithdrawSteps, Requests, RequestSteps};
ghost use Rattle.irp_slots.specs.Calls.{SwappedIn, ReadFlag, TookBack, MissedIt, FlagSet, TookOut, FoundNone};
ghost use Rattle.irp_slots.specs.Pairing.{IsOwnerOf, IsCancellerOf, slot_count};

use crate::answers::{Publication, Request, Token, Withdrawal};
use crate::canceller::Canceller;
use crate::owner::SlotOwner;
use crate::plays::{Check, Publish, SetFlag, TakeBack, TakeOut};
use crate::table::Slots;
use irp_types::IrpRef;

impl Slots {
    /// Puts a use into the owner's slot, where a canceller may take it, and takes it out again where one has asked
    /// already (WDK: "IoSetCancelRoutine", and the test of the cancel flag behind it). It swaps the use number in,
    /// then reads the flag, then swaps 0 in where the flag is set. The use number 0 is no publication: nobody takes
    /// it.
    ///
    /// It answers `Used`, and changes nothing, exactly where the owner has published before; `Standing` where the
    /// flag is clear; else `Taken` with what it took out, or `Lost` where that was gone.
    pub fn publish(&self, owner: &mut SlotOwner, irp: IrpRef) -> Publication
        requires { IsOwnerOf self.now owner.old }
        ensures table { owner.new.table ≡ owner.old.table }
        ensures slot { owner.new.owning.slot < slot_count self.now }
        ensures used { (result ≡ Used) ↔ (is_begun owner.old.owning.stage ≡ true) }
        ensures reply { Publishes irp.use_no owner.old owner.new result }
        ensures steps { PublishSteps irp.use_no owner.old.owning owner.new.owning result }
    {
        if owner.used {
            return Publication::Used;
        }
        self.swap_in(owner, irp.use_no);
        let clear = self.finds_flag_clear(owner);
        if clear {
            return Publication::Standing;
        }
        match self.take_back(owner) {
            Some(token) => Publication::Taken(token),
            None => Publication::Lost,
        }
    }

    /// Takes the owner's use out of its slot: it swaps 0 in (WDK: "IoSetCancelRoutine" with NULL, before a packet is
    /// completed).
    ///
    /// It answers `NotStanding`, and changes nothing, exactly where the owner's publish has not answered `Standing`
    /// or it has withdrawn since; else `Taken` with what it took out, or `Lost` where that was gone.
    pub fn withdraw(&self, owner: &mut SlotOwner) -> Withdrawal
        requires { IsOwnerOf self.now owner.old }
        ensures table { owner.new.table ≡ owner.old.table }
        ensures slot { owner.new.owning.slot < slot_count self.now }
        ensures none { (result ≡ NotStanding) ↔ (is_standing owner.old.owning.stage ≡ false) }
        ensures reply { Withdraws owner.old owner.new result }
        ensures steps { WithdrawSteps owner.old.owning owner.new.owning result }
    {
        if !owner.stands {
            return Withdrawal::NotStanding;
        }
        match self.take_back(owner) {
            Some(token) => Withdrawal::Taken(token),
            None => Withdrawal::Lost,
        }
    }

    /// Asks for what stands in a slot, for good: where its owner publishes later, it takes its use out again, unless
    /// another request takes it out first (WDK: "IoCancelIrp"). It sets the flag, then swaps 0 in.
    ///
    /// It answers `NoSlot`, and changes nothing, exactly where there is no such slot; else `Taken` with what it took
    /// out, or `Nothing` where the slot was empty.
    pub fn request(&self, canceller: &mut Canceller, slot: u32) -> Request
        requires { IsCancellerOf self.now canceller.old }
        ensures table { canceller.new.table ≡ canceller.old.table }
        ensures ended { slot < slot_count self.now → flag canceller.new.asking.ended slot ≡ true }
        ensures no_slot { (result ≡ NoSlot) ↔ (slot_count self.now ≤ slot) }
        ensures reply { Requests (slot_count self.now) slot canceller.old canceller.new result }
        ensures steps { RequestSteps slot canceller.old.asking canceller.new.asking result }
    {
        if 2 * (slot as usize) + 1 >= self.table.word_count() {
            return Request::NoSlot;
        }
        self.set_flag(canceller, slot);
        match self.take_out(canceller, slot) {
            Some(token) => Request::Taken(token),
            None => Request::Nothing,
        }
    }

    // Swaps an idle owner's use into its slot.
    fn swap_in(&self, owner: &mut SlotOwner, use_no: u64)
        requires of { IsOwnerOf self.now owner.old }
        requires idle { owner.old.owning.stage ≡ Idle }
        ensures table { owner.new.table ≡ owner.old.table }
        ensures owning { owner.new.owning ≡ owning_published use_no owner.old.owning }
        ensures step { SwappedIn use_no owner.old.owning owner.new.owning }
    {
        let words = &self.table.shared;
        words.swap::<Publish>(&mut owner.seat, 2 * owner.slot + 1, use_no);
        owner.used = true;
    }

    // Whether an owner that has published finds the flag of its slot clear: it stands then.
    fn finds_flag_clear(&self, owner: &mut SlotOwner) -> bool
        requires of { IsOwnerOf self.now owner.old }
        requires published { owner.old.owning.stage ≡ Published }
        ensures table { owner.new.table ≡ owner.old.table }
        ensures owning { owner.new.owning ≡ owning_checked result owner.old.owning }
        ensures clear { result ≡ true → ReadFlag 0 owner.old.owning owner.new.owning }
        ensures set { result ≡ false → ReadFlag 1 owner.old.owning owner.new.owning }
    {
        let words = &self.table.shared;
        let flag = words.load::<Check>(&mut owner.seat, 2 * owner.slot);
        let clear = flag % 2 == 0;
        owner.stands = clear;
        clear
    }

    // Takes the use of an owner that has published and read the flag out of its slot, if it still is there.
    fn take_back(&self, owner: &mut SlotOwner) -> Option<Token>
        requires of { IsOwnerOf self.now owner.old }
        requires begun { is_begun owner.old.owning.stage ≡ true }
        requires looked { may_take_back owner.old.owning ≡ true }
        ensures table { owner.new.table ≡ owner.old.table }
        ensures took { IfSome result (λ token. TookBack token owner.old.owning owner.new.owning) }
        ensures missed { IfNone result (MissedIt owner.old.owning owner.new.owning) }
    {
        let words = &self.table.shared;
        let found = words.swap::<TakeBack>(&mut owner.seat, 2 * owner.slot + 1, 0);
        owner.stands = false;
        if found == 0 {
            return None;
        }
        Some(Token { use_no: found })
    }

    // Sets the flag of a slot.
    fn set_flag(&self, canceller: &mut Canceller, slot: u32)
        requires of { IsCancellerOf self.now canceller.old }
        requires slot { slot < slot_count self.now }
        ensures table { canceller.new.table ≡ canceller.old.table }
        ensures asking { canceller.new.asking ≡ asking_flagged slot canceller.old.asking }
        ensures set { flag canceller.new.asking.flagged slot ≡ true }
        ensures step { FlagSet slot canceller.old.asking canceller.new.asking }
    {
        let words = &self.table.shared;
        words.fetch_or::<SetFlag>(&mut canceller.seat, 2 * (slot as usize), 1);
    }

    // Takes out what is in a slot whose flag this canceller has set.
    fn take_out(&self, canceller: &mut Canceller, slot: u32) -> Option<Token>
        requires of { IsCancellerOf self.now canceller.old }
        requires slot { slot < slot_count self.now }
        requires flagged { flag canceller.old.asking.flagged slot ≡ true }
        ensures table { canceller.new.table ≡ canceller.old.table }
        ensures ended { flag canceller.new.asking.ended slot ≡ true }
        ensures took { IfSome result (λ token.
            TookOut slot token canceller.old.asking canceller.new.asking) }
        ensures missed { IfNone result (FoundNone slot canceller.old.asking canceller.new.asking) }
    {
        let words = &self.table.shared;
        let found = words.swap::<TakeOut>(&mut canceller.seat, 2 * (slot as usize) + 1, 0);
        if found == 0 {
            return None;
        }
        Some(Token { use_no: found })
    }
}
