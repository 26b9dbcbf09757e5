//! The machine of a script.

ghost use Rattle.std.specs.Prelude.{◌≡◌, ◌+◌, ◌<◌, ◌≤◌, IfOk, OnOk, length};
ghost use Rattle.std.specs.List.{list_any};
ghost use mathlib.Core.Logic.{◌↔◌};
ghost use Rattle.irp_transcript.specs.Headers.{fixed_of};
ghost use Rattle.irp_machine.specs.Calling.{IsApplied};
ghost use Rattle.irp_machine.specs.Machine.{RulesValue, StepsTo, PlaceSteps, Acts, Makes, ClosesTo, act_of, allocates, is_allocating, has_ended, knows_of, place_mark, seat_at};
ghost use Rattle.irp_machine.specs.declared.parts.Next.TheVariants.{Calls};
ghost use Rattle.irp_machine.specs.Next.{next_of};
ghost use Rattle.irp_machine.specs.Standings.{with_manager};
ghost use Rattle.irp_machine.specs.Settled.{moves_settled};

use crate::asker::ScriptAsker;
use crate::condition::act_now;
use crate::ending::end_of;
use crate::equal::is_end;
use crate::marks::end_mark;
use crate::next::{called, next_of};
use crate::note::SeatNote;
use crate::outcome::End;
use crate::parts::{Calling, Next, Planned};
use crate::place::Place;
use crate::standing::Standing;
use irp_explore::Machine;
use irp_manager::Applied;
use irp_plain::{Change, Learned};
use irp_script_reader::StepAct;
use irp_types::Row;
use std::alloc::{AllocError, Global};
use std::marker::Model;

/// A script whose seats make their acts in atomic steps.
///
/// Contracts see it as the record `RulesValue` of this crate.
#[derive(Drop)]
pub struct ScriptMachine<'a> {
    asker: ScriptAsker<'a>,
    acts: Vec<Row<Planned>>,
    tells: bool,
}

impl<'a> Model for ScriptMachine<'a> {
    ghost use Rattle.std.specs.Prelude.{◌≤◌, length};
    ghost use Rattle.irp_transcript.specs.Headers.{fixed_of};
    ghost use Rattle.irp_machine.specs.Machine.{RulesValue};

    ghost Value = { RulesValue };

    ghost view = { λ own. record {
      fixed = fixed_of own.asker.header.now;
      script = own.asker.script.now;
      acts = own.acts.items;
      tells = own.tells;
    } };

    ghost invariant = { λ own. length own.acts.items ≤ 64 };
}

/// Whether an act allocates a packet.
fn is_allocating(planned: &Planned) -> bool
    ensures { result ≡ is_allocating planned.now }
{
    matches!(planned.act, StepAct::Allocate { .. })
}

/// Whether some of these acts allocates a packet.
fn row_allocates(acts: &Row<Planned>) -> bool
    ensures { result ≡ list_any is_allocating acts.now }
{
    acts.as_slice().iter().any(|planned| is_allocating(planned))
}

impl<'a> ScriptMachine<'a> {
    /// The machine whose seats make these acts. It tells what they are answered, or keeps it out.
    pub fn new(asker: ScriptAsker<'a>, acts: Vec<Row<Planned>>, tells: bool) -> ScriptMachine<'a>
        requires { length acts.items ≤ 64 }
        ensures { result ≡ record {
          fixed = fixed_of asker.entry.header.now;
          script = asker.entry.script.now;
          acts = acts.items;
          tells = tells;
        } }
    {
        ScriptMachine { asker, acts, tells }
    }

    /// The act that a seat is in, or its next one. None where it has none left.
    pub fn act_of(&self, standing: &Standing, seat: usize) -> Option<Planned>
        ensures { result ≡ act_of self.now standing.now seat }
    {
        let own = standing.seats().get(seat)?;
        let acts = self.acts.get(seat)?;
        act_now(acts.as_slice(), own)
    }

    /// Whether it tells what its acts are answered.
    pub fn tells(&self) -> bool
        ensures { result ≡ self.now.tells }
    {
        self.tells
    }

    /// Whether no seat has an act left.
    fn has_ended(&self, standing: &Standing) -> bool
        ensures { result ≡ has_ended self.now standing.now }
    {
        let mut ended = true;
        for seat in 0..self.acts.len() {
            ended = ended && self.act_of(standing, seat).is_none();
        }
        ended
    }

    /// Whether some act allocates a packet.
    fn allocates(&self) -> bool
        ensures { result ≡ allocates self.now.acts }
    {
        self.acts.iter().any(|acts| row_allocates(acts))
    }

    /// Makes a call of a seat that knows this of locks.
    pub fn call(
        &self,
        next: &mut Standing,
        learned: &[Learned],
        calling: Calling,
    ) -> Result<Applied, AllocError>
        ensures applied { IfOk result (λ applied.
            IsApplied self.now.fixed self.now.script (allocates self.now.acts)
            (knows_of learned.now) next.old.manager calling.call applied next.new.manager) }
        ensures rest { OnOk result (next.new ≡ with_manager next.old next.new.manager) }
    {
        let allocates = self.allocates();
        next.call(&self.asker, allocates, calling.call, &SeatNote { learned })
    }

    /// Makes a call of a seat, and returns what it changes beside the manager.
    fn called(
        &self,
        next: &mut Standing,
        seat: usize,
        learned: &[Learned],
        planned: Planned,
        calling: Calling,
    ) -> Result<Change, AllocError>
        requires { learned.now ≡ (seat_at next.old seat).learned }
        ensures { IfOk result (Acts self.now next.old seat planned (Calls calling) next.new) }
    {
        let _ = seat;
        let applied = self.call(next, learned, calling)?;
        Ok(called(planned, calling, applied.reply))
    }

    /// Makes what the next step of a seat in this act makes of the manager, and returns what else it changes.
    fn acted(
        &self,
        next: &mut Standing,
        standing: &Standing,
        seat: usize,
        planned: Planned,
    ) -> Result<Change, AllocError>
        requires there { seat < length standing.now.seats }
        requires same { next.old ≡ standing.now }
        ensures { IfOk result (Acts self.now standing.now seat planned
            (next_of standing.now (seat_at standing.now seat) planned) next.new) }
    {
        let own = &standing.seats()[seat];
        match next_of(standing, own, planned) {
            Next::Changes(change) => Ok(change),
            Next::Calls(calling) => self.called(next, seat, own.learned(), planned, calling),
        }
    }

    /// Makes the next step of a seat in this act.
    fn step_in(
        &self,
        standing: &Standing,
        seat: usize,
        planned: Planned,
    ) -> Result<Standing, AllocError>
        requires { seat < length standing.now.seats }
        ensures { IfOk result (Makes self.now standing.now seat planned
            (next_of standing.now (seat_at standing.now seat) planned)) }
    {
        let mut next = standing.copy()?;
        let change = self.acted(&mut next, standing, seat, planned)?;
        next.change(seat, change, planned.place, self.tells)?;
        Ok(next)
    }

    /// Makes the next step of a seat, where it has one.
    pub fn step_of(&self, standing: &Standing, seat: usize) -> Result<Option<Standing>, AllocError>
        ensures { IfOk result (StepsTo self.now standing.now seat
            (act_of self.now standing.now seat)) }
    {
        let Some(planned) = self.act_of(standing, seat) else {
            return Ok(None);
        };
        let next = self.step_in(standing, seat, planned)?;
        Ok(Some(next))
    }

    /// Closes a standing in which no seat has an act left.
    fn close(&self, alloc: Global, standing: &Standing) -> Result<Option<End>, AllocError>
        ensures { IfOk result (ClosesTo self.now standing.now) }
    {
        if !self.has_ended(standing) {
            return Ok(None);
        }
        let end = end_of(alloc, standing)?;
        Ok(Some(end))
    }
}

impl<'a> Machine for ScriptMachine<'a> {
    type State = Place;

    ghost seats = { λ rules. length rules.acts + 1 };

    ghost moves = { PlaceSteps };

    ghost mark = { λ rules place. place_mark place };

    ghost settled = { moves_settled };

    fn seats(&self) -> u32 {
        self.acts.len() as u32 + 1
    }

    fn step(&self, alloc: Global, state: &Place, seat: u32) -> Result<Option<Place>, AllocError> {
        let Place::Running(standing) = state else {
            return Ok(None);
        };
        if (seat as usize) < self.acts.len() {
            let next = self.step_of(standing, seat as usize)?;
            return Ok(next.map(Place::Running));
        }
        let end = self.close(alloc, standing)?;
        Ok(end.map(Place::Over))
    }

    fn mark(&self, state: &Place) -> u64 {
        match state {
            Place::Running(standing) => standing.mark(),
            Place::Over(end) => end_mark(end),
        }
    }

    fn is_same(&self, one: &Place, other: &Place) -> bool {
        match (one, other) {
            (Place::Running(one), Place::Running(other)) => one.is_same(other),
            (Place::Over(one), Place::Over(other)) => is_end(one, other),
            _ => false,
        }
    }
}
