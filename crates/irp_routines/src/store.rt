//! The store of closures.

ghost use Rattle.std.specs.Prelude.{◌≡◌, ◌++◌, ◌∷◌, [], OnOk, length, map, replicate, Some, None, Err, IfOk, IfErr};
ghost use Rattle.std.specs.Prelude.{IfSome, OnErr, slice_get};
ghost use Rattle.std.proofs.Props.{props};
ghost use Rattle.irp_types.specs.State.{AreTables};
ghost use Rattle.irp_types.specs.Rules.{count_of_rule};
ghost use Rattle.irp_types.specs.Allowed.{IsAnswerAllowed, IsPlanAllowed, IsCancelAllowed};
ghost use Rattle.irp_types.specs.declared.routine.Rule.TheVariants.{Watch, Change, Keeper, KeepOnError, Free};
ghost use Rattle.irp_routines.specs.Behaving.{cancel_may, dispatch_may, routine_may};
ghost use Rattle.irp_routines.specs.Closures.{rules_set, cancel_rules_set, known_set};
ghost use Rattle.irp_routines.specs.Shelves.{of_rule, put_under};
ghost use Rattle.irp_routines.specs.Tables.{no_tables, with_routine, with_cancel, with_dispatch, with_driver, by_major};
ghost use Rattle.irp_routines.specs.Tables.{routine_refusal, cancel_refusal, dispatch_refusal, driver_refusal};
ghost use Rattle.irp_routines.specs.declared.not_added.Reason.{Reason};
ghost use Rattle.irp_routines.specs.declared.not_added.Reason.TheVariants.{Memory};

use crate::ask::Ask;
use crate::cancel_routine::CancelRoutine;
use crate::dispatch::Dispatch;
use crate::fixed_tables::FixedTables;
use crate::not_added::{NotAdded, Reason};
use crate::routine::Routine;
use irp_types::{
    Answer, CancelAnswer, CancelId, CancelRule, DispatchId, DriverId, Known, Plan, RoutineId, Rule,
    Shown,
};
use std::alloc::Global;

/// Closures by their numbers, and the drivers that name the dispatches among them (this project's own rule).
///
/// Completion routines are numbered within their rule, cancel routines, dispatches and drivers by their place, all from
/// 0 in the order in which they were added. A store only grows.
#[derive(Drop)]
pub struct Store {
    tables: FixedTables,
    watch: Vec<Routine>,
    change: Vec<Routine>,
    keeper: Vec<Routine>,
    keep_on_error: Vec<Routine>,
    free: Vec<Routine>,
    cancels: Vec<CancelRoutine>,
    dispatches: Vec<Dispatch>,
    ghost agree: { AreTables tables } by { Prim.hlevel props },
    ghost watch_told: { map (λ routine. routine.rule) watch.items
        ≡ replicate tables.counts.watch Watch } by { rules_set _ _ },
    ghost change_told: { map (λ routine. routine.rule) change.items
        ≡ replicate tables.counts.change Change } by { rules_set _ _ },
    ghost keeper_told: { map (λ routine. routine.rule) keeper.items
        ≡ replicate tables.counts.keeper Keeper } by { rules_set _ _ },
    ghost keep_on_error_told: { map (λ routine. routine.rule) keep_on_error.items
        ≡ replicate tables.counts.keep_on_error KeepOnError } by { rules_set _ _ },
    ghost free_told: { map (λ routine. routine.rule) free.items
        ≡ replicate tables.counts.free Free } by { rules_set _ _ },
    ghost cancels_told: { map (λ routine. routine.rule) cancels.items
        ≡ tables.cancel_rules } by { cancel_rules_set _ _ },
    ghost dispatches_told: { map (λ dispatch. dispatch.known) dispatches.items
        ≡ tables.dispatches } by { known_set _ _ },
}

/// Puts a routine behind the others of its rule, or hands it back where a growth was refused.
fn put(shelf: &mut Vec<Routine>, routine: Routine) -> Result<(), NotAdded<Routine>>
    ensures put { OnOk result (shelf.new.items ≡ shelf.old.items ++ routine ∷ []) }
    ensures err { OnErr result (shelf.new.items ≡ shelf.old.items) }
    ensures back { IfErr result (λ back. back ≡ record { reason = Memory; item = routine }) }
{
    if shelf.reserve(1).is_err() {
        return Err(NotAdded {
            reason: Reason::Memory,
            item: routine,
        });
    }
    shelf.push_reserved(routine);
    Ok(())
}

impl Store {
    /// A store without closures. It takes no memory.
    pub fn new(alloc: Global) -> Store
        ensures { result.tables ≡ no_tables }
    {
        let tables = FixedTables::new(alloc);
        tables.agree();
        Store {
            tables,
            watch: Vec::new(alloc),
            change: Vec::new(alloc),
            keeper: Vec::new(alloc),
            keep_on_error: Vec::new(alloc),
            free: Vec::new(alloc),
            cancels: Vec::new(alloc),
            dispatches: Vec::new(alloc),
        }
    }

    /// What the store tells of its closures.
    pub fn tables(&self) -> &FixedTables
        ensures { result.now ≡ self.now.tables }
    {
        &self.tables
    }

    /// The completion routines of a rule, by number.
    fn shelf(&self, rule: Rule) -> &[Routine]
        ensures told { map (λ routine. routine.rule) result.now
            ≡ replicate (count_of_rule self.now.tables.counts rule) rule }
        ensures own { result.now ≡ of_rule rule self.now.watch.items self.now.change.items
            self.now.keeper.items self.now.keep_on_error.items self.now.free.items }
    {
        match rule {
            Rule::Watch => self.watch.as_slice(),
            Rule::Change => self.change.as_slice(),
            Rule::Keeper => self.keeper.as_slice(),
            Rule::KeepOnError => self.keep_on_error.as_slice(),
            Rule::Free => self.free.as_slice(),
        }
    }

    /// Adds a completion routine, and answers its rule and its number within the rule: how many there were.
    ///
    /// # Errors
    ///
    /// `Full` exactly where there are 256 of its rule; else `Memory`, where a growth was refused. The routine is handed
    /// back, and the store stays as it was.
    pub fn add(&mut self, routine: Routine) -> Result<RoutineId, NotAdded<Routine>>
        ensures refused { (reason : Reason)
            → routine_refusal self.old.tables routine.rule ≡ Some reason
            → result ≡ Err (record { reason = reason; item = routine }) }
        ensures added { IfOk result (λ id.
            (id ≡ record {
              rule = routine.rule;
              no = count_of_rule self.old.tables.counts routine.rule;
            })
            × (self.new.tables ≡ with_routine self.old.tables routine.rule)) }
        ensures shelves { OnOk result
            ((self.new.watch.items ≡ put_under Watch routine.rule routine self.old.watch.items)
            × (self.new.change.items ≡ put_under Change routine.rule routine self.old.change.items)
            × (self.new.keeper.items ≡ put_under Keeper routine.rule routine self.old.keeper.items)
            × (self.new.keep_on_error.items
            ≡ put_under KeepOnError routine.rule routine self.old.keep_on_error.items)
            × (self.new.free.items ≡ put_under Free routine.rule routine self.old.free.items)) }
        ensures unshelved { OnErr result ((self.new.watch.items ≡ self.old.watch.items)
            × (self.new.change.items ≡ self.old.change.items)
            × (self.new.keeper.items ≡ self.old.keeper.items)
            × (self.new.keep_on_error.items ≡ self.old.keep_on_error.items)
            × (self.new.free.items ≡ self.old.free.items)) }
        ensures others { (self.new.cancels.items ≡ self.old.cancels.items)
            × (self.new.dispatches.items ≡ self.old.dispatches.items) }
        ensures unrefused { routine_refusal self.old.tables routine.rule ≡ None
            → IfErr result (λ back. back ≡ record { reason = Memory; item = routine }) }
        ensures err { OnErr result (self.new.tables ≡ self.old.tables) }
    {
        let rule = routine.rule();
        if let Some(reason) = self.tables.routine_refusal(rule) {
            return Err(NotAdded {
                reason,
                item: routine,
            });
        }
        let placed = match rule {
            Rule::Watch => put(&mut self.watch, routine),
            Rule::Change => put(&mut self.change, routine),
            Rule::Keeper => put(&mut self.keeper, routine),
            Rule::KeepOnError => put(&mut self.keep_on_error, routine),
            Rule::Free => put(&mut self.free, routine),
        };
        placed?;
        Ok(self.tables.add_counted(rule))
    }

    /// Adds a cancel routine, and answers its number: how many there were.
    ///
    /// # Errors
    ///
    /// `Full` exactly where there are 256; else `Memory`, where a growth was refused. The routine is handed back, and
    /// the store stays as it was.
    pub fn add_cancel(
        &mut self,
        routine: CancelRoutine,
    ) -> Result<CancelId, NotAdded<CancelRoutine>>
        ensures refused { (reason : Reason) → cancel_refusal self.old.tables ≡ Some reason
            → result ≡ Err (record { reason = reason; item = routine }) }
        ensures added { IfOk result (λ id. (id.0 ≡ length self.old.tables.cancel_rules)
            × (self.new.tables ≡ with_cancel self.old.tables routine.rule)) }
        ensures put { OnOk result
            (self.new.cancels.items ≡ self.old.cancels.items ++ routine ∷ []) }
        ensures unput { OnErr result (self.new.cancels.items ≡ self.old.cancels.items) }
        ensures others { (self.new.watch.items ≡ self.old.watch.items)
            × (self.new.change.items ≡ self.old.change.items)
            × (self.new.keeper.items ≡ self.old.keeper.items)
            × (self.new.keep_on_error.items ≡ self.old.keep_on_error.items)
            × (self.new.free.items ≡ self.old.free.items)
            × (self.new.dispatches.items ≡ self.old.dispatches.items) }
        ensures unrefused { cancel_refusal self.old.tables ≡ None
            → IfErr result (λ back. back ≡ record { reason = Memory; item = routine }) }
        ensures err { OnErr result (self.new.tables ≡ self.old.tables) }
    {
        let item = routine;
        if let Some(reason) = self.tables.cancel_refusal() {
            return Err(NotAdded { reason, item });
        }
        let reason = Reason::Memory;
        if self.cancels.reserve(1).is_err() {
            return Err(NotAdded { reason, item });
        }
        let Ok(id) = self.tables.add_cancel(item.rule()) else {
            return Err(NotAdded { reason, item });
        };
        self.cancels.push_reserved(item);
        Ok(id)
    }

    /// Adds a dispatch, and answers its number: how many there were.
    ///
    /// # Errors
    ///
    /// `NoRoutine` exactly where it may name more routines of a kind than there are, else `Full` exactly where there
    /// are 256 dispatches; else `Memory`, where a growth was refused. The dispatch is handed back, and the store stays
    /// as it was.
    pub fn add_dispatch(&mut self, dispatch: Dispatch) -> Result<DispatchId, NotAdded<Dispatch>>
        ensures refused { (reason : Reason)
            → dispatch_refusal self.old.tables dispatch.known ≡ Some reason
            → result ≡ Err (record { reason = reason; item = dispatch }) }
        ensures added { IfOk result (λ id. (id.0 ≡ length self.old.tables.dispatches)
            × (self.new.tables ≡ with_dispatch self.old.tables dispatch.known)) }
        ensures put { OnOk result
            (self.new.dispatches.items ≡ self.old.dispatches.items ++ dispatch ∷ []) }
        ensures unput { OnErr result (self.new.dispatches.items ≡ self.old.dispatches.items) }
        ensures others { (self.new.watch.items ≡ self.old.watch.items)
            × (self.new.change.items ≡ self.old.change.items)
            × (self.new.keeper.items ≡ self.old.keeper.items)
            × (self.new.keep_on_error.items ≡ self.old.keep_on_error.items)
            × (self.new.free.items ≡ self.old.free.items)
            × (self.new.cancels.items ≡ self.old.cancels.items) }
        ensures unrefused { dispatch_refusal self.old.tables dispatch.known ≡ None
            → IfErr result (λ back. back ≡ record { reason = Memory; item = dispatch }) }
        ensures err { OnErr result (self.new.tables ≡ self.old.tables) }
    {
        let item = dispatch;
        if let Some(reason) = self.tables.dispatch_refusal(item.known()) {
            return Err(NotAdded { reason, item });
        }
        let reason = Reason::Memory;
        if self.dispatches.reserve(1).is_err() {
            return Err(NotAdded { reason, item });
        }
        let Ok(id) = self.tables.add_dispatch(item.known()) else {
            return Err(NotAdded { reason, item });
        };
        self.dispatches.push_reserved(item);
        Ok(id)
    }

    /// Adds a driver with these dispatches for these major function codes, and answers its number: how many there
    /// were. They are kept by rising major function code, in whatever order they are given.
    ///
    /// # Errors
    ///
    /// The pairs are looked at in order: `BadMajor` for the first that names no major function code or one that an
    /// earlier pair names, `NoRoutine` for the first whose dispatch isn't there, in one pair in this order. Then `Full`
    /// exactly where there are 64 drivers; else `Memory`, where a growth was refused. The pairs are handed back, and
    /// the store stays as it was.
    pub fn add_driver(
        &mut self,
        table: Vec<(u8, DispatchId)>,
    ) -> Result<DriverId, NotAdded<Vec<(u8, DispatchId)>>>
        ensures refused { (reason : Reason)
            → driver_refusal self.old.tables table.items ≡ Some reason
            → result ≡ Err (record { reason = reason; item = table }) }
        ensures added { IfOk result (λ id. (id.0 ≡ length self.old.tables.drivers)
            × (self.new.tables ≡ with_driver self.old.tables (by_major table.items))) }
        ensures others { (self.new.watch.items ≡ self.old.watch.items)
            × (self.new.change.items ≡ self.old.change.items)
            × (self.new.keeper.items ≡ self.old.keeper.items)
            × (self.new.keep_on_error.items ≡ self.old.keep_on_error.items)
            × (self.new.free.items ≡ self.old.free.items)
            × (self.new.cancels.items ≡ self.old.cancels.items)
            × (self.new.dispatches.items ≡ self.old.dispatches.items) }
        ensures unrefused { driver_refusal self.old.tables table.items ≡ None
            → IfErr result (λ back. back ≡ record { reason = Memory; item = table }) }
        ensures err { OnErr result (self.new.tables ≡ self.old.tables) }
    {
        self.tables.add_driver(table)
    }
}

impl Ask for Store {
    ghost tables = { λ store. store.tables };

    ghost may_answer = { λ store id shown answer. IsAnswerAllowed store.tables id shown answer
        × IfSome (slice_get (of_rule id.rule store.watch.items store.change.items
        store.keeper.items store.keep_on_error.items store.free.items) id.no)
        (λ own. routine_may own shown answer) };

    ghost may_plan = { λ store id shown plan. IsPlanAllowed store.tables id shown plan
        × IfSome (slice_get store.dispatches.items id.0)
        (λ own. dispatch_may own shown plan) };

    ghost may_cancel = { λ store id shown answer. IsCancelAllowed store.tables id answer
        × IfSome (slice_get store.cancels.items id.0)
        (λ own. cancel_may own shown answer) };

    fn counts(&self) -> Known {
        self.tables.counts()
    }

    fn drivers(&self) -> u32 {
        self.tables.drivers().len() as u32
    }

    fn dispatches(&self) -> u32 {
        self.tables.dispatches().len() as u32
    }

    fn known_of(&self, id: DispatchId) -> Known {
        self.tables.dispatches()[id.0 as usize]
    }

    fn cancel_rule(&self, id: CancelId) -> CancelRule {
        self.tables.cancel_rules()[id.0 as usize]
    }

    fn dispatch_of(&self, driver: DriverId, major: u8) -> Option<DispatchId> {
        self.tables.dispatch_of(driver, major)
    }

    fn plan(&self, id: DispatchId, shown: Shown) -> Plan {
        self.dispatches[id.0 as usize].ask(shown)
    }

    fn answer(&self, id: RoutineId, shown: Shown) -> Answer {
        self.shelf(id.rule)[id.no as usize].ask(shown)
    }

    fn cancel_answer(&self, id: CancelId, shown: Shown) -> CancelAnswer {
        self.cancels[id.0 as usize].ask(shown)
    }

    ghost answers_allowed = { λ store id shown answer may. may.0 };

    ghost plans_allowed = { λ store id shown plan may. may.0 };

    ghost cancels_allowed = { λ store id shown answer may. may.0 };

    ghost tables_agree = { λ store. store.agree };
}
