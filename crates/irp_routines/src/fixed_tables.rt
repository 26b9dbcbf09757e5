//! The tables by which closures are named.

ghost use Rattle.std.specs.Prelude.{◌≡◌, ◌<◌, length, Some, None, Err, IfOk, IfErr, OnErr};
ghost use Rattle.irp_types.specs.Limits.{most_routines};
ghost use Rattle.irp_types.specs.State.{AreTables, dispatch_for};
ghost use Rattle.irp_types.specs.Rules.{count_of_rule};
ghost use Rattle.irp_routines.specs.Tables.{no_tables, one_more, with_routine, with_cancel, with_dispatch, with_driver};
ghost use Rattle.irp_routines.specs.Tables.{by_major, answer_unless, value_unless, routine_refusal, cancel_refusal};
ghost use Rattle.irp_routines.specs.Tables.{dispatch_refusal, driver_refusal};
ghost use Rattle.irp_routines.specs.declared.not_added.Reason.{Reason};
ghost use Rattle.irp_routines.specs.declared.not_added.Reason.TheVariants.{Memory};

use crate::ask::Ask;
use crate::drivers::{by_major, copied_drivers, dispatch_in, pairs_refusal};
use crate::not_added::{NotAdded, Reason};
use crate::told::{told_dispatches, told_drivers, told_rules};
use irp_types::limits::{MOST_DISPATCHES, MOST_DRIVERS, MOST_ROUTINES};
use irp_types::{CancelId, CancelRule, DispatchId, DriverId, Known, RoutineId, Row, Rule};
use std::alloc::{AllocError, Global};
use std::marker::Model;

/// What a store tells of its closures: how many completion routines of each rule there are, which routines each
/// dispatch may name, the rules of the cancel routines, and each driver's dispatches by rising major function code.
/// They agree with each other: a dispatch names only routines that there are, a driver only dispatches that there are
/// (this project's own rule). They only grow, and are fixed once their store is handed to a manager.
///
/// Contracts see them as the record `Tables` of `irp_types`.
#[derive(Drop)]
pub struct FixedTables {
    alloc: Global,
    counts: Known,
    drivers: Vec<Row<(u8, DispatchId)>>,
    dispatches: Vec<Known>,
    cancel_rules: Vec<CancelRule>,
}

impl Model for FixedTables {
    ghost use Rattle.irp_types.specs.State.{Tables, AreTables};

    ghost Value = { Tables };

    ghost view = { λ own. record {
      counts = own.counts;
      drivers = own.drivers.items;
      dispatches = own.dispatches.items;
      cancel_rules = own.cancel_rules.items;
    } };

    ghost invariant = { λ own. AreTables (record {
      counts = own.counts;
      drivers = own.drivers.items;
      dispatches = own.dispatches.items;
      cancel_rules = own.cancel_rules.items;
    }) };
}

/// What a store tells of its closures, apart.
#[derive(Drop)]
pub struct Parts {
    /// How many completion routines of each rule there are, and how many cancel routines.
    pub counts: Known,
    /// Each driver's major function codes, rising, with their dispatches.
    pub drivers: Row<Row<(u8, DispatchId)>>,
    /// The routines that each dispatch may name.
    pub dispatches: Row<Known>,
    /// The rules of the cancel routines.
    pub cancel_rules: Row<CancelRule>,
}

/// One more completion routine of a rule.
fn one_more(mut counts: Known, rule: Rule) -> Known
    requires { count_of_rule counts rule < most_routines }
    ensures { result ≡ one_more counts rule }
{
    match rule {
        Rule::Watch => counts.watch += 1,
        Rule::Change => counts.change += 1,
        Rule::Keeper => counts.keeper += 1,
        Rule::KeepOnError => counts.keep_on_error += 1,
        Rule::Free => counts.free += 1,
    }
    counts
}

impl FixedTables {
    /// The tables of an empty store. It takes no memory.
    pub fn new(alloc: Global) -> FixedTables
        ensures { result ≡ no_tables }
    {
        FixedTables {
            alloc,
            counts: Known::NONE,
            drivers: Vec::new(alloc),
            dispatches: Vec::new(alloc),
            cancel_rules: Vec::new(alloc),
        }
    }

    /// Tells that the tables agree with each other and are within the limits. It changes nothing and answers nothing.
    pub fn agree(&self)
        ensures { AreTables self.now }
    {
        let _ = &self.counts;
    }

    /// A copy of them.
    ///
    /// # Errors
    ///
    /// `AllocError` where a growth was refused.
    pub fn copied(&self) -> Result<FixedTables, AllocError>
        ensures { IfOk result (λ copy. copy ≡ self.now) }
    {
        let drivers = copied_drivers(self.alloc, self.drivers.as_slice())?;
        let dispatches = self.dispatches.as_slice().to_vec(self.alloc)?;
        let cancel_rules = self.cancel_rules.as_slice().to_vec(self.alloc)?;
        Ok(FixedTables {
            alloc: self.alloc,
            counts: self.counts,
            drivers,
            dispatches,
            cancel_rules,
        })
    }

    /// A copy of the tables of whoever is asked, as its answers tell them. The asker stays as it was (this project's
    /// own rule).
    ///
    /// # Errors
    ///
    /// `AllocError` where a growth was refused.
    pub fn told_by<A: Ask>(alloc: Global, ask: &A) -> Result<FixedTables, AllocError>
        ensures { IfOk result (λ tables. tables ≡ A.tables ask.now) }
    {
        let drivers = told_drivers(alloc, ask)?;
        let dispatches = told_dispatches(alloc, ask)?;
        let cancel_rules = told_rules(alloc, ask)?;
        Ok(FixedTables {
            alloc,
            counts: ask.counts(),
            drivers,
            dispatches,
            cancel_rules,
        })
    }

    /// Gives them apart. It takes no memory.
    pub fn into_parts(self) -> Parts
        ensures { self ≡ record {
          counts = result.counts;
          drivers = result.drivers;
          dispatches = result.dispatches;
          cancel_rules = result.cancel_rules;
        } }
    {
        Parts {
            counts: self.counts,
            drivers: Row::from_vec(self.drivers),
            dispatches: Row::from_vec(self.dispatches),
            cancel_rules: Row::from_vec(self.cancel_rules),
        }
    }

    /// How many completion routines of each rule there are, and how many cancel routines, each at most 256.
    pub fn counts(&self) -> Known
        ensures { result ≡ self.now.counts }
    {
        self.counts
    }

    /// The drivers by number: each one's major function codes, rising, with their dispatches. There are at most 64.
    pub fn drivers(&self) -> &[Row<(u8, DispatchId)>]
        ensures { result.now ≡ self.now.drivers }
    {
        self.drivers.as_slice()
    }

    /// The routines that each dispatch may name, by the dispatch's number. There are at most 256.
    pub fn dispatches(&self) -> &[Known]
        ensures { result.now ≡ self.now.dispatches }
    {
        self.dispatches.as_slice()
    }

    /// The rules of the cancel routines, by number. There are at most 256.
    pub fn cancel_rules(&self) -> &[CancelRule]
        ensures { result.now ≡ self.now.cancel_rules }
    {
        self.cancel_rules.as_slice()
    }

    /// The dispatch of a driver for a major function code. None where the driver has none, or there is no such driver.
    pub fn dispatch_of(&self, driver: DriverId, major: u8) -> Option<DispatchId>
        ensures { result ≡ dispatch_for self.now driver major }
    {
        let entrances = self.drivers.get(driver.0 as usize)?;
        dispatch_in(entrances.as_slice(), major)
    }

    /// Why a completion routine of this rule isn't added: `Full` exactly where there are 256 of the rule.
    pub(crate) fn routine_refusal(&self, rule: Rule) -> Option<Reason>
        ensures { result ≡ routine_refusal self.now rule }
    {
        if self.counts.count_of(rule) >= MOST_ROUTINES {
            return Some(Reason::Full);
        }
        None
    }

    /// Why a cancel routine isn't added: `Full` exactly where there are 256.
    pub(crate) fn cancel_refusal(&self) -> Option<Reason>
        ensures { result ≡ cancel_refusal self.now }
    {
        if self.cancel_rules.len() >= MOST_ROUTINES as usize {
            return Some(Reason::Full);
        }
        None
    }

    /// Why a dispatch that may name these routines isn't added.
    pub(crate) fn dispatch_refusal(&self, known: Known) -> Option<Reason>
        ensures { result ≡ dispatch_refusal self.now known }
    {
        if !known.is_within(self.counts) {
            return Some(Reason::NoRoutine);
        }
        if self.dispatches.len() >= MOST_DISPATCHES {
            return Some(Reason::Full);
        }
        None
    }

    /// Why a driver with these pairs isn't added.
    fn driver_refusal(&self, pairs: &[(u8, DispatchId)]) -> Option<Reason>
        ensures { result ≡ driver_refusal self.now pairs.now }
    {
        if let Some(reason) = pairs_refusal(self.dispatches.len() as u32, pairs) {
            return Some(reason);
        }
        if self.drivers.len() >= MOST_DRIVERS {
            return Some(Reason::Full);
        }
        None
    }

    /// Adds a completion routine of this rule, on condition that there is room for it, and answers its number within
    /// the rule: how many there were. It takes no memory.
    pub(crate) fn add_counted(&mut self, rule: Rule) -> RoutineId
        requires { routine_refusal self.old rule ≡ None }
        ensures answer { result ≡ record { rule = rule; no = count_of_rule self.old.counts rule } }
        ensures tables { self.new ≡ with_routine self.old rule }
        ensures agree { AreTables self.new }
    {
        let no = self.counts.count_of(rule);
        self.counts = one_more(self.counts, rule);
        RoutineId { rule, no }
    }

    /// Adds a completion routine of this rule, and answers its number within the rule: how many there were. It takes
    /// no memory.
    ///
    /// # Errors
    ///
    /// `Full` exactly where there are 256 of the rule. Nothing changes then.
    pub fn add_routine(&mut self, rule: Rule) -> Result<RoutineId, Reason>
        ensures answer { result ≡ answer_unless (routine_refusal self.old rule)
            (record { rule = rule; no = count_of_rule self.old.counts rule }) }
        ensures tables { self.new ≡ value_unless (routine_refusal self.old rule)
            self.old (with_routine self.old rule) }
    {
        if let Some(reason) = self.routine_refusal(rule) {
            return Err(reason);
        }
        Ok(self.add_counted(rule))
    }

    /// Adds a cancel routine of this rule, and answers its number: how many there were.
    ///
    /// # Errors
    ///
    /// `Full` exactly where there are 256; else `Memory`, where a growth was refused. Nothing changes then.
    pub fn add_cancel(&mut self, rule: CancelRule) -> Result<CancelId, Reason>
        ensures refused { (reason : Reason) → cancel_refusal self.old ≡ Some reason
            → result ≡ Err reason }
        ensures added { IfOk result (λ id. (id.0 ≡ length self.old.cancel_rules)
            × (self.new ≡ with_cancel self.old rule)) }
        ensures unrefused { cancel_refusal self.old ≡ None
            → IfErr result (λ reason. reason ≡ Memory) }
        ensures err { OnErr result (self.new ≡ self.old) }
        ensures agree { AreTables self.new }
    {
        if let Some(reason) = self.cancel_refusal() {
            return Err(reason);
        }
        if self.cancel_rules.reserve(1).is_err() {
            return Err(Reason::Memory);
        }
        let number = self.cancel_rules.len();
        self.cancel_rules.push_reserved(rule);
        self.counts.cancel += 1;
        Ok(CancelId(number as u32))
    }

    /// Adds a dispatch that may name these routines, and answers its number: how many there were.
    ///
    /// # Errors
    ///
    /// `NoRoutine` exactly where it may name more of a kind than there are, else `Full` exactly where there are 256
    /// dispatches; else `Memory`, where a growth was refused. Nothing changes then.
    pub fn add_dispatch(&mut self, known: Known) -> Result<DispatchId, Reason>
        ensures refused { (reason : Reason) → dispatch_refusal self.old known ≡ Some reason
            → result ≡ Err reason }
        ensures added { IfOk result (λ id. (id.0 ≡ length self.old.dispatches)
            × (self.new ≡ with_dispatch self.old known)) }
        ensures unrefused { dispatch_refusal self.old known ≡ None
            → IfErr result (λ reason. reason ≡ Memory) }
        ensures err { OnErr result (self.new ≡ self.old) }
        ensures agree { AreTables self.new }
    {
        if let Some(reason) = self.dispatch_refusal(known) {
            return Err(reason);
        }
        if self.dispatches.reserve(1).is_err() {
            return Err(Reason::Memory);
        }
        let number = self.dispatches.len();
        self.dispatches.push_reserved(known);
        Ok(DispatchId(number as u32))
    }

    /// Adds a driver with these dispatches for these major function codes, and answers its number: how many there
    /// were. They are kept by rising major function code, in whatever order they are given.
    ///
    /// # Errors
    ///
    /// The pairs are looked at in order: `BadMajor` for the first that names no major function code or one that an
    /// earlier pair names, `NoRoutine` for the first whose dispatch isn't there, in one pair in this order. Then `Full`
    /// exactly where there are 64 drivers; else `Memory`, where a growth was refused. The pairs are handed back, and
    /// nothing changes.
    pub fn add_driver(
        &mut self,
        pairs: Vec<(u8, DispatchId)>,
    ) -> Result<DriverId, NotAdded<Vec<(u8, DispatchId)>>>
        ensures refused { (reason : Reason) → driver_refusal self.old pairs.items ≡ Some reason
            → result ≡ Err (record { reason = reason; item = pairs }) }
        ensures added { IfOk result (λ id. (id.0 ≡ length self.old.drivers)
            × (self.new ≡ with_driver self.old (by_major pairs.items))) }
        ensures unrefused { driver_refusal self.old pairs.items ≡ None
            → IfErr result (λ back. back ≡ record { reason = Memory; item = pairs }) }
        ensures err { OnErr result (self.new ≡ self.old) }
        ensures agree { AreTables self.new }
    {
        let item = pairs;
        if let Some(reason) = self.driver_refusal(item.as_slice()) {
            return Err(NotAdded { reason, item });
        }
        let reason = Reason::Memory;
        let Ok(table) = by_major(self.alloc, item.as_slice()) else {
            return Err(NotAdded { reason, item });
        };
        if self.drivers.reserve(1).is_err() {
            return Err(NotAdded { reason, item });
        }
        let number = self.drivers.len();
        self.drivers.push_reserved(Row::from_vec(table));
        Ok(DriverId(number as u32))
    }
}
