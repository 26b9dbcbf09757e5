//! How far a seat is, and what it has.

ghost use Rattle.std.specs.Prelude.{◌≡◌, [], true, IfOk, OnOk, position};
ghost use Rattle.std.specs.List.{list_any};
ghost use mathlib.Core.Logic.{◌↔◌};
ghost use Rattle.irp_plain.specs.Seats.{is_held, is_taken, is_removed, is_drained, after_step, heard_of, new_seat, told_of, made_after, one_more, stage_after, with_held};

use crate::answered::{Answered, Told};
use crate::lists::changed;
use crate::parts::{ActPlace, After, Change, Held, Learned, Stage, Taken};
use std::alloc::{AllocError, Global};
use std::marker::Model;
use std::rc::Rc;

/// What a seat is made of.
#[derive(Clone, Drop)]
struct SeatParts {
    made: usize,
    stage: Stage,
    held: Vec<Held>,
    learned: Vec<Learned>,
    taken: Vec<Taken>,
    told: Vec<Told>,
    heard: Vec<Told>,
}

impl Model for SeatParts {
    ghost use Rattle.irp_plain.specs.Seats.{SeatValue};

    ghost Value = { SeatValue };

    ghost view = { λ seat. record {
      made = seat.made;
      stage = seat.stage;
      held = seat.held.items;
      learned = seat.learned.items;
      taken = seat.taken.items;
      told = seat.told.items;
      heard = seat.heard.items;
    } };
}

impl SeatParts {
    /// The parts behind a step of the seat.
    fn changed(
        &self,
        alloc: Global,
        change: Change,
        place: ActPlace,
        tells: bool,
    ) -> Result<SeatParts, AllocError>
        ensures { IfOk result (λ parts. parts ≡ after_step change place tells self.now) }
    {
        let told = told_of(change.after, place.step, tells);
        let heard = heard_of(change.after, place);
        Ok(SeatParts {
            made: made_after(place, self.made, change.after),
            stage: stage_after(change.after),
            held: changed(alloc, &self.held, change.drops, change.holds)?,
            learned: changed(alloc, &self.learned, None, change.learns)?,
            taken: changed(alloc, &self.taken, change.spends, change.takes)?,
            told: changed(alloc, &self.told, None, told)?,
            heard: changed(alloc, &self.heard, None, heard)?,
        })
    }

    /// Gets a reference from another seat.
    fn take(&mut self, held: Held) -> Result<(), AllocError>
        ensures { OnOk result (self.new ≡ with_held held self.old) }
    {
        self.held.push(held)?;
        Ok(())
    }
}

/// How far a seat is, what it holds and knows, and what it was told and heard. Copies share it until one of them is
/// changed.
///
/// Contracts see it as the record `SeatValue` of this crate.
#[derive(Clone, Drop)]
pub struct SeatState {
    parts: Rc<SeatParts>,
}

impl Model for SeatState {
    ghost use Rattle.irp_plain.specs.Seats.{SeatValue};

    ghost Value = { SeatValue };

    ghost view = { λ seat. seat.parts.value };
}

impl SeatState {
    /// A seat that has made nothing.
    pub fn new(alloc: Global) -> Result<SeatState, AllocError>
        ensures { IfOk result (λ seat. seat ≡ new_seat) }
    {
        let parts = SeatParts {
            made: 0,
            stage: Stage::Between,
            held: Vec::new(alloc),
            learned: Vec::new(alloc),
            taken: Vec::new(alloc),
            told: Vec::new(alloc),
            heard: Vec::new(alloc),
        };
        Ok(SeatState {
            parts: Rc::new(alloc, parts)?,
        })
    }

    /// How many of its acts it is behind: made, or passed over.
    pub fn made(&self) -> usize
        ensures { result ≡ self.now.made }
    {
        self.parts.made
    }

    /// How far it is in its present act.
    pub fn stage(&self) -> Stage
        ensures { result ≡ self.now.stage }
    {
        self.parts.stage
    }

    /// The references that it holds.
    pub fn held(&self) -> &[Held]
        ensures { result.now ≡ self.now.held }
    {
        self.parts.held.as_slice()
    }

    /// The uses that it took.
    pub fn taken(&self) -> &[Taken]
        ensures { result.now ≡ self.now.taken }
    {
        self.parts.taken.as_slice()
    }

    /// What it was told.
    pub fn told(&self) -> &[Told]
        ensures { result.now ≡ self.now.told }
    {
        self.parts.told.as_slice()
    }

    /// What those of its acts were answered that conditions name.
    pub fn heard(&self) -> &[Told]
        ensures { result.now ≡ self.now.heard }
    {
        self.parts.heard.as_slice()
    }

    /// What it knows of locks.
    pub fn learned(&self) -> &[Learned]
        ensures { result.now ≡ self.now.learned }
    {
        self.parts.learned.as_slice()
    }

    /// Makes a change of its own, in the act at this place.
    pub fn change(&mut self, change: Change, place: ActPlace, tells: bool) -> Result<(), AllocError>
        ensures { OnOk result (self.new ≡ after_step change place tells self.old) }
    {
        let alloc = *self.parts.told.allocator();
        let parts = self.parts.changed(alloc, change, place, tells)?;
        self.parts = Rc::new(alloc, parts)?;
        Ok(())
    }

    /// Gets a reference from another seat.
    pub fn take(&mut self, held: Held) -> Result<(), AllocError>
        ensures { OnOk result (self.new ≡ with_held held self.old) }
    {
        Rc::make_mut(&mut self.parts)?.take(held)
    }
}

/// What is told behind a step, where anything is.
fn told_of(after: After, step: u32, tells: bool) -> Option<Told>
    ensures { result ≡ told_of after step tells }
{
    if !tells {
        return None;
    }
    match after {
        After::Told(answer) | After::Binds(answer, _) => Some(Told { step, answer }),
        After::In(_) | After::Bound => None,
    }
}

/// What a seat hears of a step: the answer of an act that a condition names.
fn heard_of(after: After, place: ActPlace) -> Option<Told>
    ensures { result ≡ heard_of after place }
{
    if !place.is_read {
        return None;
    }
    let step = place.step;
    match after {
        After::Told(answer) | After::Binds(answer, _) => Some(Told { step, answer }),
        After::In(_) | After::Bound => None,
    }
}

/// One more act. No seat gets to where there is none.
fn one_more(at: usize) -> usize
    ensures { result ≡ one_more at }
{
    if at >= 1 << 62 {
        return at;
    }
    at + 1
}

/// How many of its acts a seat is behind after a step of the act at this place.
fn made_after(place: ActPlace, made: usize, after: After) -> usize
    ensures { result ≡ made_after place made after }
{
    match after {
        After::In(_) | After::Binds(..) => made,
        After::Told(_) | After::Bound => one_more(place.at),
    }
}

/// How far a seat is in its present act behind a step.
fn stage_after(after: After) -> Stage
    ensures { result ≡ stage_after after }
{
    match after {
        After::In(stage) => stage,
        After::Binds(_, irp) => Stage::Answered(irp),
        After::Told(_) | After::Bound => Stage::Between,
    }
}

/// The place of the first reference to a lock under a tag.
pub fn place_of(held: &[Held], lock: u32, tag: u32) -> Option<usize>
    ensures { result ≡ position (is_held lock tag) held.now }
{
    held.iter()
        .position(|one| one.lock == lock && one.tag == tag)
}

/// The place of the first use that was taken out of a slot.
pub fn place_of_taken(taken: &[Taken], slot: u32) -> Option<usize>
    ensures { result ≡ position (is_taken slot) taken.now }
{
    taken.iter().position(|one| one.slot == slot)
}

/// Whether this tells that the removal of a lock has begun.
fn is_removed(learned: Learned, lock: u32) -> bool
    ensures { result ≡ is_removed lock learned }
{
    match learned {
        Learned::Removed(one) => one == lock,
        Learned::Drained(_) => false,
    }
}

/// Whether this tells that a lock is drained.
fn is_drained(learned: Learned, lock: u32) -> bool
    ensures { result ≡ is_drained lock learned }
{
    match learned {
        Learned::Drained(one) => one == lock,
        Learned::Removed(_) => false,
    }
}

/// Whether the removal of a lock is known to have begun.
pub fn knows_removed(learned: &[Learned], lock: u32) -> bool
    ensures { result ≡ list_any (is_removed lock) learned.now }
{
    learned.iter().any(|one| is_removed(*one, lock))
}

/// Whether a lock is known to be drained.
pub fn knows_drained(learned: &[Learned], lock: u32) -> bool
    ensures { result ≡ list_any (is_drained lock) learned.now }
{
    learned.iter().any(|one| is_drained(*one, lock))
}
