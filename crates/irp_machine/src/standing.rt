//! Where a script stands between two atomic steps.

ghost use Rattle.std.specs.Prelude.{◌≡◌, IfOk, OnOk, true};
ghost use mathlib.Core.Logic.{◌↔◌};
ghost use Rattle.irp_transcript.specs.Headers.{fixed_of};
ghost use Rattle.irp_manager.specs.ManagerStates.{state_of};
ghost use Rattle.irp_manager.specs.Slots.{live_of};
ghost use Rattle.irp_machine.specs.Calling.{IsApplied};
ghost use Rattle.irp_machine.specs.Standings.{StandsBy, after_change, managed, opening_manager, with_manager, with_word, with_slot, with_label, with_given, with_seat_changed, standing_mark, terms_of as told_terms};

use crate::asker::ScriptAsker;
use crate::calling::{self, new_manager, terms_of};
use crate::marks::mark_behind_all;
use crate::terms::Terms;
use irp_manager::{Applied, ManagerState};
use irp_plain::{
    ActPlace, Change, Given, NewLabel, NewSlot, NewWord, PlainKeep, SeatState, Slot, are_labels,
    are_same, copy_of_manager, is_same_manager, put_at,
};
use irp_transcript::Header;
use irp_types::{Call, DrainNote, IrpRef};
use std::alloc::{AllocError, Global};
use std::marker::Model;
use std::rc::Rc;

/// Where a script stands between two atomic steps, the manager among it. Copies share the manager until one of them
/// calls it, and a seat until one of them changes it.
///
/// Contracts see it as the record `StandingValue` of this crate.
#[derive(Drop)]
pub struct Standing {
    alloc: Global,
    terms: Terms,
    manager: Rc<ManagerState<PlainKeep>>,
    /// The slots that were freed and have no packet since, the one that was freed last at the end.
    freed: Vec<usize>,
    labels: Vec<IrpRef>,
    words: Vec<u64>,
    slots: Vec<Slot>,
    seats: Vec<SeatState>,
}

impl Model for Standing {
    ghost use Rattle.irp_machine.specs.Standings.{StandingValue, StandsBy, managed};
    ghost use Rattle.std.specs.Coded.{codes};
    ghost use Rattle.std.specs.FinMap as fin;

    ghost Value = { StandingValue };

    ghost coded = { Prim.hlevel (codes, fin.code) };

    ghost view = { λ own. record {
      manager = managed own.manager.value own.freed.items;
      labels = own.labels.items;
      words = own.words.items;
      slots = own.slots.items;
      seats = own.seats.items;
    } };

    ghost invariant = { λ own. StandsBy own.terms own.manager.value };
}

/// Changes a lock's word, where one is named.
fn put_word(words: &mut Vec<u64>, word: Option<NewWord>)
    ensures { words.new.items ≡ with_word word words.old.items }
{
    if let Some(word) = word {
        put_at(words, word.lock as usize, word.word);
    }
}

/// Changes a slot, where one is named.
fn put_slot(slots: &mut Vec<Slot>, slot: Option<NewSlot>)
    ensures { slots.new.items ≡ with_slot slot slots.old.items }
{
    if let Some(slot) = slot {
        put_at(slots, slot.number as usize, slot.slot);
    }
}

/// Binds a label, where one is named.
fn put_label(labels: &mut Vec<IrpRef>, label: Option<NewLabel>)
    ensures { labels.new.items ≡ with_label label labels.old.items }
{
    if let Some(label) = label {
        put_at(labels, label.label, label.irp);
    }
}

/// Changes a seat by a step of its own, in the act at this place.
fn change_seat(
    seats: &mut Vec<SeatState>,
    seat: usize,
    change: Change,
    place: ActPlace,
    tells: bool,
) -> Result<(), AllocError>
    ensures { OnOk result (seats.new.items
        ≡ with_seat_changed seat change place tells seats.old.items) }
{
    if seat < seats.len() {
        seats[seat].change(change, place, tells)?;
    }
    Ok(())
}

/// Gives a seat a reference, where one is given.
fn give(seats: &mut Vec<SeatState>, given: Option<Given>) -> Result<(), AllocError>
    ensures { OnOk result (seats.new.items ≡ with_given given seats.old.items) }
{
    let Some(given) = given else {
        return Ok(());
    };
    let seat = given.seat as usize;
    if seat < seats.len() {
        seats[seat].take(given.held)?;
    }
    Ok(())
}

/// Whether these are the terms that an asker's header tells.
fn are_told(terms: Terms, asker: &ScriptAsker) -> bool
    ensures { result ≡ true → terms ≡ told_terms (fixed_of asker.now.header.now) }
{
    terms == terms_of(asker.header())
}

/// A copy of a manager behind a call, which is made with what the note knows, and what the call was answered. The freed
/// slots are changed by it.
fn called_copy<N: DrainNote>(
    terms: Terms,
    manager: &ManagerState<PlainKeep>,
    freed: &mut Vec<usize>,
    asker: &ScriptAsker,
    allocates: bool,
    call: Call,
    note: &N,
) -> Result<(ManagerState<PlainKeep>, Applied), AllocError>
    requires { StandsBy terms manager.now }
    ensures applied { IfOk result (λ called.
        IsApplied (fixed_of asker.now.header.now) asker.now.script.now allocates
        (N.knows_drained note.now) (managed manager.now freed.old.items) call called.1
        (managed called.0 freed.new.items)) }
    ensures stands { IfOk result (λ called. StandsBy terms called.0) }
{
    if !are_told(terms, asker) {
        return Err(AllocError);
    }
    let mut copy = copy_of_manager(manager)?;
    let applied = calling::call(asker, &mut copy, freed, allocates, call, note)?;
    Ok((copy, applied))
}

impl Standing {
    /// Where a script stands before anything was done.
    pub fn new(
        alloc: Global,
        header: &Header,
        labels: Vec<IrpRef>,
        words: Vec<u64>,
        slots: Vec<Slot>,
        seats: Vec<SeatState>,
    ) -> Result<Standing, AllocError>
        ensures { IfOk result (λ standing. standing ≡ record {
          manager = opening_manager;
          labels = labels.items;
          words = words.items;
          slots = slots.items;
          seats = seats.items;
        }) }
    {
        Ok(Standing {
            alloc,
            terms: terms_of(header),
            manager: Rc::new(alloc, new_manager(alloc, header))?,
            freed: Vec::new(alloc),
            labels,
            words,
            slots,
            seats,
        })
    }

    /// Where a script stands with this manager and these labels, and all else anew.
    pub fn begun(self, words: Vec<u64>, slots: Vec<Slot>, seats: Vec<SeatState>) -> Standing
        ensures { result ≡ record {
          manager = self.manager;
          labels = self.labels;
          words = words.items;
          slots = slots.items;
          seats = seats.items;
        } }
    {
        Standing {
            alloc: self.alloc,
            terms: self.terms,
            manager: self.manager,
            freed: self.freed,
            labels: self.labels,
            words,
            slots,
            seats,
        }
    }

    /// A copy.
    pub fn copy(&self) -> Result<Standing, AllocError>
        ensures { IfOk result (λ copy. copy ≡ self.now) }
    {
        Ok(Standing {
            alloc: self.alloc,
            terms: self.terms,
            manager: self.manager.clone()?,
            freed: self.freed.clone()?,
            labels: self.labels.clone()?,
            words: self.words.clone()?,
            slots: self.slots.clone()?,
            seats: self.seats.clone()?,
        })
    }

    /// The mark. The manager's state isn't in it, but for the freed slots: it seldom differs where seats are as far and were told the same.
    pub fn mark(&self) -> u64
        ensures { result ≡ standing_mark self.now }
    {
        let seats = mark_behind_all(0, &self.seats);
        let freed = mark_behind_all(seats, &self.freed);
        let labels = mark_behind_all(freed, &self.labels);
        let words = mark_behind_all(labels, &self.words);
        mark_behind_all(words, &self.slots)
    }

    /// The manager.
    pub fn manager(&self) -> &ManagerState<PlainKeep>
        ensures { state_of live_of result.now ≡ self.now.manager.state }
    {
        &self.manager
    }

    /// What each label stands for.
    pub fn labels(&self) -> &[IrpRef]
        ensures { result.now ≡ self.now.labels }
    {
        self.labels.as_slice()
    }

    /// The words of the remove locks.
    pub fn words(&self) -> &[u64]
        ensures { result.now ≡ self.now.words }
    {
        self.words.as_slice()
    }

    /// The cancel slots.
    pub fn slots(&self) -> &[Slot]
        ensures { result.now ≡ self.now.slots }
    {
        self.slots.as_slice()
    }

    /// The seats.
    pub fn seats(&self) -> &[SeatState]
        ensures { result.now ≡ self.now.seats }
    {
        self.seats.as_slice()
    }

    /// Makes a call of the manager with what the note knows. It keeps which slots are freed where packets are allocated.
    ///
    /// # Errors
    ///
    /// `AllocError` where memory runs out. It would also be the answer where the asker's header tells a manager other
    /// numbers, but nobody asks so.
    pub fn call<N: DrainNote>(
        &mut self,
        asker: &ScriptAsker,
        allocates: bool,
        call: Call,
        note: &N,
    ) -> Result<Applied, AllocError>
        ensures applied { IfOk result (λ applied.
            IsApplied (fixed_of asker.now.header.now) asker.now.script.now allocates
            (N.knows_drained note.now) self.old.manager call applied self.new.manager) }
        ensures rest { OnOk result (self.new ≡ with_manager self.old self.new.manager) }
    {
        let freed = &mut self.freed;
        let called = called_copy(
            self.terms,
            &self.manager,
            freed,
            asker,
            allocates,
            call,
            note,
        )?;
        self.manager = Rc::new(self.alloc, called.0)?;
        Ok(called.1)
    }

    /// Makes a change of an atomic step of a seat, in the act at this place.
    pub fn change(
        &mut self,
        seat: usize,
        change: Change,
        place: ActPlace,
        tells: bool,
    ) -> Result<(), AllocError>
        ensures { OnOk result (self.new ≡ after_change seat change place tells self.old) }
    {
        put_label(&mut self.labels, change.label);
        put_word(&mut self.words, change.word);
        put_slot(&mut self.slots, change.slot);
        change_seat(&mut self.seats, seat, change, place, tells)?;
        give(&mut self.seats, change.gives)?;
        Ok(())
    }

    /// Whether two standings are equal.
    pub fn is_same(&self, other: &Standing) -> bool
        ensures { (result ≡ true) ↔ (self.now ≡ other.now) }
    {
        are_same(&self.seats, &other.seats)
            && is_same_manager(&self.manager, &other.manager)
            && are_same(&self.freed, &other.freed)
            && are_labels(&self.labels, &other.labels)
            && are_same(&self.words, &other.words)
            && are_same(&self.slots, &other.slots)
    }
}
