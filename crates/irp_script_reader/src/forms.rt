//! What the form of a script allows.

ghost use Rattle.std.specs.Prelude.{◌≡◌, ◌<◌};
ghost use Rattle.irp_script_reader.specs.Forms.{
  has_conditions,
  has_slots,
  may_do,
  may_hang,
  may_plan,
  names_earlier,
  owns,
  suits_setup,
};

use crate::act::{Step, StepAct};
use crate::condition::Condition;
use crate::script::ScriptForm;
use irp_types::{Call, Plan};

impl StepAct {
    /// Whether `setup` may have it: it is on no remove lock and on no cancel slot.
    pub fn suits_setup(self) -> bool
        ensures { result ≡ suits_setup self }
    {
        !matches!(
            self,
            StepAct::OnLock(_)
                | StepAct::Hand(_)
                | StepAct::Publish { .. }
                | StepAct::Withdraw { .. }
                | StepAct::Request { .. }
                | StepAct::Call(Call::FinishTaken { .. })
        )
    }
}

/// Whether the condition names a step before, which is one of this seat.
fn names_earlier(before: &[Step], seat: u32, condition: Condition) -> bool
    ensures { result ≡ names_earlier before.now seat condition }
{
    match before.get(condition.step as usize) {
        Some(step) => step.seat == seat,
        None => false,
    }
}

impl ScriptForm {
    /// Whether it is form 2, or form 4, which has all of it.
    fn has_slots(self) -> bool
        ensures { result ≡ has_slots self }
    {
        matches!(self, ScriptForm::Two { .. } | ScriptForm::Four { .. })
    }

    /// Whether it is form 4.
    fn has_conditions(self) -> bool
        ensures { result ≡ has_conditions self }
    {
        matches!(self, ScriptForm::Four { .. })
    }

    /// Whether the slot is there and belongs to the seat: slot k to seat k modulo the number of seats.
    fn owns(self, seats: u32, seat: u32, slot: u32) -> bool
        requires { seat < seats }
        ensures { result ≡ owns self seats seat slot }
    {
        slot < self.slots() && slot % seats == seat
    }

    /// Whether a seat may do this: in form 1 nothing on a cancel slot, and no hand; from form 2 on it hands a reference to
    /// another seat that is there, and publishes in its own slots, and withdraws from these, alone.
    pub fn may_do(self, seats: u32, seat: u32, act: StepAct) -> bool
        requires { seat < seats }
        ensures { result ≡ may_do self seats seat act }
    {
        match act {
            StepAct::Hand(hand) => self.has_slots() && hand.to < seats && hand.to != seat,
            StepAct::Publish { slot, .. } => self.owns(seats, seat, slot),
            StepAct::Withdraw { slot } => self.owns(seats, seat, slot),
            StepAct::Request { .. } => self.has_slots(),
            StepAct::Call(Call::FinishTaken { .. }) => self.has_slots(),
            _ => true,
        }
    }

    /// Whether a dispatch may plan this: from form 2 on it holds a packet for a cancel slot.
    pub fn may_plan(self, plan: Plan) -> bool
        ensures { result ≡ may_plan self plan }
    {
        match plan {
            Plan::HoldSlot => self.has_slots(),
            _ => true,
        }
    }

    /// Whether a step of this seat may hang on this, behind these: in form 4 on the answer of one of its own seat; in any
    /// form on nothing.
    pub fn may_hang(self, before: &[Step], seat: u32, condition: Option<Condition>) -> bool
        ensures { result ≡ may_hang self before.now seat condition }
    {
        match condition {
            Some(condition) => self.has_conditions() && names_earlier(before, seat, condition),
            None => true,
        }
    }
}
