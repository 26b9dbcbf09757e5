//! What a dispatch of a script answers.

ghost use Rattle.std.specs.Prelude.{◌≡◌, true};
ghost use Rattle.irp_types.specs.Rules.{is_plan_allowed};
ghost use Rattle.irp_script_reader.specs.Plans.{is_plan_sound, names_known};
ghost use Rattle.irp_steps.specs.Behaviours.{plan_of};

use irp_steps::table_plan;
use irp_types::{Known, Plan, Shown};

/// A plan of a script, for a dispatch that may name these routines: it is sound, and its routine is one of them.
#[derive(Clone, Copy)]
pub struct Planned {
    pub known: Known,
    pub plan: Plan,
    pub ghost sound: { is_plan_sound plan ≡ true },
    pub ghost named: { names_known known plan ≡ true },
}

impl Planned {
    /// What the dispatch answers to what it is shown. It is allowed, as the plan is by its type.
    pub fn answer(self, shown: Shown) -> Plan
        ensures answer { result ≡ plan_of self.plan shown }
        ensures allowed { is_plan_allowed self.known shown result ≡ true }
    {
        table_plan(self.plan, shown)
    }
}
