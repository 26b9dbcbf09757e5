//! Answers by plain tables.

ghost use Rattle.std.specs.Prelude.{◌≡◌, ◌<◌, ◌++◌, ◌∷◌, [], length, slice_get, Some, None, Err, IfOk, OnOk, IfErr};
ghost use Rattle.std.specs.Prelude.{OnErr};
ghost use Rattle.std.proofs.Props.{props};
ghost use Rattle.irp_types.specs.State.{AreTables};
ghost use Rattle.irp_types.specs.Rules.{count_of_rule};
ghost use Rattle.irp_types.specs.declared.routine.Rule.TheVariants.{Change, Free};
ghost use Rattle.irp_routines.specs.Shelves.{put_under};
ghost use Rattle.irp_routines.specs.Tables.{no_tables, with_routine, with_cancel, with_dispatch, with_driver, by_major};
ghost use Rattle.irp_routines.specs.Tables.{routine_refusal, cancel_refusal, dispatch_refusal, driver_refusal};
ghost use Rattle.irp_routines.specs.AnswerTables.{behaved, IsTableAnswer, IsTablePlan, IsTableCancel};
ghost use Rattle.irp_routines.specs.AnswerTableFacts.{table_answer_allowed, table_plan_allowed, table_cancel_allowed};
ghost use Rattle.irp_routines.specs.declared.not_added.Reason.{Reason};
ghost use Rattle.irp_routines.specs.declared.not_added.Reason.TheVariants.{Memory};

use crate::ask::Ask;
use crate::behaviour::Behaviour;
use crate::fixed_tables::FixedTables;
use crate::guard::{fixed_answer, guarded_answer, guarded_cancel, guarded_plan};
use crate::not_added::{NotAdded, Reason};
use irp_types::{
    Answer, CancelAnswer, CancelId, CancelRule, DispatchId, DriverId, Known, Plan, RoutineId, Rule,
    Shown,
};
use std::alloc::Global;

/// Tables of closures' names, and beside them what each closure answers, as plain values in place of code (this
/// project's own rule).
///
/// A dispatch always plans the same, a cancel routine always answers the same, and a completion routine of rule Change
/// or Free answers by its behaviour; one of the other rules has one allowed answer to what it is shown, and gives it.
/// An answer that isn't allowed is replaced as `guarded_plan`, `guarded_cancel` and `guarded_answer` do it. A table
/// only grows.
#[derive(Drop)]
pub struct AnswerTable {
    tables: FixedTables,
    change: Vec<Behaviour>,
    free: Vec<Behaviour>,
    cancels: Vec<CancelAnswer>,
    plans: Vec<Plan>,
    ghost agree: { AreTables tables } by { Prim.hlevel props },
    ghost changes_told: { length change.items ≡ tables.counts.change } by { Prim.hlevel props },
    ghost frees_told: { length free.items ≡ tables.counts.free } by { Prim.hlevel props },
    ghost cancels_told: { length cancels.items
        ≡ length tables.cancel_rules } by { Prim.hlevel props },
    ghost plans_told: { length plans.items ≡ length tables.dispatches } by { Prim.hlevel props },
}

/// Puts a behaviour behind the others of its rule. It stays out where a growth was refused.
fn put(behaviours: &mut Vec<Behaviour>, behaviour: Behaviour) -> Result<(), Reason>
    ensures put { OnOk result (behaviours.new.items ≡ behaviours.old.items ++ behaviour ∷ []) }
    ensures err { OnErr result (behaviours.new.items ≡ behaviours.old.items) }
    ensures reason { IfErr result (λ reason. reason ≡ Memory) }
{
    if behaviours.reserve(1).is_err() {
        return Err(Reason::Memory);
    }
    behaviours.push_reserved(behaviour);
    Ok(())
}

/// The behaviour of this number.
fn at(behaviours: &[Behaviour], number: u32) -> Behaviour
    requires { number < length behaviours.now }
    ensures { slice_get behaviours.now number ≡ Some result }
{
    behaviours[number as usize]
}

/// What a completion routine of this rule and behaviour answers.
fn behaved(rule: Rule, shown: Shown, behaviour: Behaviour) -> Answer
    ensures { result ≡ behaved rule shown behaviour }
{
    let reaction = if shown.status.is_success() {
        behaviour.on_success
    } else {
        behaviour.on_error
    };
    let answer = Answer {
        keep: reaction.keep,
        mark: Rule::right_mark(shown, reaction.keep),
        replacement: reaction.replacement,
    };
    guarded_answer(rule, shown, answer)
}

impl AnswerTable {
    /// A table without closures. It takes no memory.
    pub fn new(alloc: Global) -> AnswerTable
        ensures tables { result.tables ≡ no_tables }
        ensures behaviours { (result.change.items ≡ []) × (result.free.items ≡ []) }
        ensures cancels { result.cancels.items ≡ [] }
        ensures plans { result.plans.items ≡ [] }
    {
        let tables = FixedTables::new(alloc);
        tables.agree();
        AnswerTable {
            tables,
            change: Vec::new(alloc),
            free: Vec::new(alloc),
            cancels: Vec::new(alloc),
            plans: Vec::new(alloc),
        }
    }

    /// What the table tells of its closures.
    pub fn tables(&self) -> &FixedTables
        ensures { result.now ≡ self.now.tables }
    {
        &self.tables
    }

    /// Adds a completion routine, and answers its rule and its number within the rule: how many there were. The
    /// behaviour is that of a routine of rule Change or Free; it is left out for the other rules.
    ///
    /// # Errors
    ///
    /// `Full` exactly where there are 256 of its rule; else `Memory`, where a growth was refused. The table stays as it
    /// was.
    pub fn add(&mut self, rule: Rule, behaviour: Behaviour) -> Result<RoutineId, Reason>
        ensures refused { (reason : Reason) → routine_refusal self.old.tables rule ≡ Some reason
            → result ≡ Err reason }
        ensures added { IfOk result (λ id.
            (id ≡ record { rule = rule; no = count_of_rule self.old.tables.counts rule })
            × (self.new.tables ≡ with_routine self.old.tables rule)) }
        ensures change { OnOk result
            (self.new.change.items ≡ put_under Change rule behaviour self.old.change.items) }
        ensures free { OnOk result
            (self.new.free.items ≡ put_under Free rule behaviour self.old.free.items) }
        ensures unrefused { routine_refusal self.old.tables rule ≡ None
            → IfErr result (λ reason. reason ≡ Memory) }
        ensures err { OnErr result ((self.new.tables ≡ self.old.tables)
            × (self.new.change.items ≡ self.old.change.items)
            × (self.new.free.items ≡ self.old.free.items)) }
        ensures others { (self.new.cancels.items ≡ self.old.cancels.items)
            × (self.new.plans.items ≡ self.old.plans.items) }
    {
        if let Some(reason) = self.tables.routine_refusal(rule) {
            return Err(reason);
        }
        match rule {
            Rule::Change => put(&mut self.change, behaviour)?,
            Rule::Free => put(&mut self.free, behaviour)?,
            Rule::Watch | Rule::Keeper | Rule::KeepOnError => {}
        }
        Ok(self.tables.add_counted(rule))
    }

    /// Adds a cancel routine that answers this, and answers its number: how many there were.
    ///
    /// # Errors
    ///
    /// `Full` exactly where there are 256; else `Memory`, where a growth was refused. The table stays as it was.
    pub fn add_cancel(&mut self, rule: CancelRule, answer: CancelAnswer) -> Result<CancelId, Reason>
        ensures refused { (reason : Reason) → cancel_refusal self.old.tables ≡ Some reason
            → result ≡ Err reason }
        ensures added { IfOk result (λ id. (id.0 ≡ length self.old.tables.cancel_rules)
            × (self.new.tables ≡ with_cancel self.old.tables rule)) }
        ensures answers { OnOk result
            (self.new.cancels.items ≡ self.old.cancels.items ++ answer ∷ []) }
        ensures unrefused { cancel_refusal self.old.tables ≡ None
            → IfErr result (λ reason. reason ≡ Memory) }
        ensures err { OnErr result ((self.new.tables ≡ self.old.tables)
            × (self.new.cancels.items ≡ self.old.cancels.items)) }
        ensures others { (self.new.change.items ≡ self.old.change.items)
            × (self.new.free.items ≡ self.old.free.items)
            × (self.new.plans.items ≡ self.old.plans.items) }
    {
        if let Some(reason) = self.tables.cancel_refusal() {
            return Err(reason);
        }
        if self.cancels.reserve(1).is_err() {
            return Err(Reason::Memory);
        }
        let Ok(id) = self.tables.add_cancel(rule) else {
            return Err(Reason::Memory);
        };
        self.cancels.push_reserved(answer);
        Ok(id)
    }

    /// Adds a dispatch that plans this and may name these routines, and answers its number: how many there were.
    ///
    /// # Errors
    ///
    /// `NoRoutine` exactly where it may name more routines of a kind than there are, else `Full` exactly where there
    /// are 256 dispatches; else `Memory`, where a growth was refused. The table stays as it was.
    pub fn add_dispatch(&mut self, known: Known, plan: Plan) -> Result<DispatchId, Reason>
        ensures refused { (reason : Reason) → dispatch_refusal self.old.tables known ≡ Some reason
            → result ≡ Err reason }
        ensures added { IfOk result (λ id. (id.0 ≡ length self.old.tables.dispatches)
            × (self.new.tables ≡ with_dispatch self.old.tables known)) }
        ensures plans { OnOk result (self.new.plans.items ≡ self.old.plans.items ++ plan ∷ []) }
        ensures unrefused { dispatch_refusal self.old.tables known ≡ None
            → IfErr result (λ reason. reason ≡ Memory) }
        ensures err { OnErr result ((self.new.tables ≡ self.old.tables)
            × (self.new.plans.items ≡ self.old.plans.items)) }
        ensures others { (self.new.change.items ≡ self.old.change.items)
            × (self.new.free.items ≡ self.old.free.items)
            × (self.new.cancels.items ≡ self.old.cancels.items) }
    {
        if let Some(reason) = self.tables.dispatch_refusal(known) {
            return Err(reason);
        }
        if self.plans.reserve(1).is_err() {
            return Err(Reason::Memory);
        }
        let Ok(id) = self.tables.add_dispatch(known) else {
            return Err(Reason::Memory);
        };
        self.plans.push_reserved(plan);
        Ok(id)
    }

    /// Adds a driver with these dispatches for these major function codes, and answers its number: how many there
    /// were. They are kept by rising major function code, in whatever order they are given.
    ///
    /// # Errors
    ///
    /// The pairs are looked at in order: `BadMajor` for the first that names no major function code or one that an
    /// earlier pair names, `NoRoutine` for the first whose dispatch isn't there, in one pair in this order. Then `Full`
    /// exactly where there are 64 drivers; else `Memory`, where a growth was refused. The pairs are handed back, and
    /// the table stays as it was.
    pub fn add_driver(
        &mut self,
        pairs: Vec<(u8, DispatchId)>,
    ) -> Result<DriverId, NotAdded<Vec<(u8, DispatchId)>>>
        ensures refused { (reason : Reason)
            → driver_refusal self.old.tables pairs.items ≡ Some reason
            → result ≡ Err (record { reason = reason; item = pairs }) }
        ensures added { IfOk result (λ id. (id.0 ≡ length self.old.tables.drivers)
            × (self.new.tables ≡ with_driver self.old.tables (by_major pairs.items))) }
        ensures unrefused { driver_refusal self.old.tables pairs.items ≡ None
            → IfErr result (λ back. back ≡ record { reason = Memory; item = pairs }) }
        ensures err { OnErr result (self.new.tables ≡ self.old.tables) }
        ensures others { (self.new.change.items ≡ self.old.change.items)
            × (self.new.free.items ≡ self.old.free.items)
            × (self.new.cancels.items ≡ self.old.cancels.items)
            × (self.new.plans.items ≡ self.old.plans.items) }
    {
        self.tables.add_driver(pairs)
    }
}

impl Ask for AnswerTable {
    ghost tables = { λ table. table.tables };

    ghost may_answer = { λ table id shown answer.
        IsTableAnswer table.tables table.change.items table.free.items id shown answer };

    ghost may_plan = { λ table id shown plan.
        IsTablePlan table.tables table.plans.items id shown plan };

    ghost may_cancel = { λ table id shown answer.
        IsTableCancel table.tables table.cancels.items id answer };

    fn counts(&self) -> Known {
        self.tables.counts()
    }

    fn drivers(&self) -> u32 {
        self.tables.drivers().len() as u32
    }

    fn dispatches(&self) -> u32 {
        self.tables.dispatches().len() as u32
    }

    fn known_of(&self, id: DispatchId) -> Known {
        self.tables.dispatches()[id.0 as usize]
    }

    fn cancel_rule(&self, id: CancelId) -> CancelRule {
        self.tables.cancel_rules()[id.0 as usize]
    }

    fn dispatch_of(&self, driver: DriverId, major: u8) -> Option<DispatchId> {
        self.tables.dispatch_of(driver, major)
    }

    fn plan(&self, id: DispatchId, shown: Shown) -> Plan {
        let known = self.tables.dispatches()[id.0 as usize];
        guarded_plan(known, shown, self.plans[id.0 as usize])
    }

    fn answer(&self, id: RoutineId, shown: Shown) -> Answer {
        match id.rule {
            Rule::Watch => fixed_answer(Rule::Watch, shown),
            Rule::Change => behaved(Rule::Change, shown, at(&self.change, id.no)),
            Rule::Keeper => fixed_answer(Rule::Keeper, shown),
            Rule::KeepOnError => fixed_answer(Rule::KeepOnError, shown),
            Rule::Free => behaved(Rule::Free, shown, at(&self.free, id.no)),
        }
    }

    fn cancel_answer(&self, id: CancelId, shown: Shown) -> CancelAnswer {
        let rule = self.tables.cancel_rules()[id.0 as usize];
        guarded_cancel(rule, self.cancels[id.0 as usize])
    }

    ghost answers_allowed = { λ table id shown answer may.
        table_answer_allowed table.tables table.change.items table.free.items id shown answer may };

    ghost plans_allowed = { λ table id shown plan may.
        table_plan_allowed table.tables table.plans.items id shown plan may };

    ghost cancels_allowed = { λ table id shown answer may.
        table_cancel_allowed table.tables table.cancels.items id answer may };

    ghost tables_agree = { λ table. table.agree };
}
