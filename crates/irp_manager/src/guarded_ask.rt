//! An asker that is held to tables.

ghost use Rattle.std.specs.Prelude.{◌≡◌};
ghost use Rattle.std.proofs.Props.{props};
ghost use Rattle.irp_types.specs.State.{AreTables};
ghost use Rattle.irp_manager.specs.Passing.{PassesPlan, PassesAnswer, PassesCancel};

use irp_routines::{Ask, FixedTables, guarded_answer, guarded_cancel, guarded_plan};
use irp_types::{
    Answer, CancelAnswer, CancelId, CancelRule, DispatchId, DriverId, Known, Plan, RoutineId, Shown,
};

/// An asker, and the tables that a history is judged by. Each answer that it gives is allowed by these tables. Where
/// they are the asker's own, as they are of a book that was made with them, each is one that the asker may give (this
/// project's own rule).
#[derive(Drop)]
pub struct GuardedAsk<A> {
    ask: A,
    tables: FixedTables,
    ghost agree: { AreTables tables } by { Prim.hlevel props },
}

impl<A> GuardedAsk<A> {
    /// The asker, held to these tables. It takes no memory.
    pub fn new(ask: A, tables: FixedTables) -> GuardedAsk<A>
        ensures { (result.ask ≡ ask) × (result.tables ≡ tables) }
    {
        tables.agree();
        GuardedAsk { ask, tables }
    }
}

impl<A: Drop> GuardedAsk<A> {
    /// Gives the tables back, and lets the asker go.
    pub fn into_tables(self) -> FixedTables
        ensures { result ≡ self.tables }
    {
        let GuardedAsk { ask: _, tables } = self;
        tables
    }
}

impl<A: Ask> Ask for GuardedAsk<A> {
    ghost tables = { λ held. held.tables };

    ghost may_answer = { λ held. PassesAnswer held.tables
        (A.tables held.ask ≡ held.tables) (A.may_answer held.ask) };

    ghost may_plan = { λ held. PassesPlan held.tables
        (A.tables held.ask ≡ held.tables) (A.may_plan held.ask) };

    ghost may_cancel = { λ held. PassesCancel held.tables
        (A.tables held.ask ≡ held.tables) (A.may_cancel held.ask) };

    #[inline]
    fn counts(&self) -> Known {
        self.tables.counts()
    }

    fn drivers(&self) -> u32 {
        self.tables.drivers().len() as u32
    }

    fn dispatches(&self) -> u32 {
        self.tables.dispatches().len() as u32
    }

    #[inline]
    fn known_of(&self, id: DispatchId) -> Known {
        self.tables.dispatches()[id.0 as usize]
    }

    #[inline]
    fn cancel_rule(&self, id: CancelId) -> CancelRule {
        self.tables.cancel_rules()[id.0 as usize]
    }

    #[inline]
    fn dispatch_of(&self, driver: DriverId, major: u8) -> Option<DispatchId> {
        self.tables.dispatch_of(driver, major)
    }

    #[inline]
    fn plan(&self, id: DispatchId, shown: Shown) -> Plan {
        let known = self.known_of(id);
        let mut plan = Plan::INVALID_REQUEST;
        if id.0 < self.ask.dispatches() {
            plan = self.ask.plan(id, shown);
        }
        guarded_plan(known, shown, plan)
    }

    #[inline]
    fn answer(&self, id: RoutineId, shown: Shown) -> Answer {
        let mut answer = Answer::CONTINUES;
        if id.no < self.ask.counts().count_of(id.rule) {
            answer = self.ask.answer(id, shown);
        }
        guarded_answer(id.rule, shown, answer)
    }

    fn cancel_answer(&self, id: CancelId, shown: Shown) -> CancelAnswer {
        let rule = self.cancel_rule(id);
        let mut answer = CancelAnswer::Leave;
        if id.0 < self.ask.counts().cancel {
            answer = self.ask.cancel_answer(id, shown);
        }
        guarded_cancel(rule, answer)
    }

    ghost answers_allowed = { λ held id shown answer may. may.allowed };

    ghost plans_allowed = { λ held id shown plan may. may.allowed };

    ghost cancels_allowed = { λ held id shown answer may. may.allowed };

    ghost tables_agree = { λ held. held.agree };
}
