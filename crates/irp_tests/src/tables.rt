//! A table of answers that grows, and its tables, which are copied.

use crate::example::Asked;
use crate::tried::{Halt, Tried, carried, wanted};
use irp_routines::{AnswerTable, Behaviour, FixedTables, Reaction, Reason};
use irp_types::{CancelAnswer, CancelRule, DispatchId, Known, Plan, Rule};
use std::alloc::Global;

/// It continues, and replaces nothing.
const CONTINUES: Reaction = Reaction {
    keep: false,
    replacement: None,
};

const BEHAVIOUR: Behaviour = Behaviour {
    on_success: CONTINUES,
    on_error: CONTINUES,
};

/// Those who are asked: of each kind one, but of completion routines one of each rule.
static ROWS: [Asked; 8] = [
    Asked::Routine(0, Rule::Watch, 0),
    Asked::Routine(0, Rule::Keeper, 0),
    Asked::Routine(0, Rule::KeepOnError, 0),
    Asked::Routine(0, Rule::Change, 0),
    Asked::Routine(0, Rule::Free, 0),
    Asked::Cancel(0, CancelRule::MustLeave, CancelAnswer::Leave, 0),
    Asked::Dispatch(0, Plan::Hold { cancel: None }, 0),
    Asked::Driver(0, &[(3, DispatchId(0)), (4, DispatchId(0))]),
];

/// The rows from this one up to that one.
pub fn rows(from: usize, to: usize) -> &'static [Asked] {
    &ROWS[from.min(8)..to.min(8).max(from.min(8))]
}

/// A call that was refused: its name, whether memory was missing and the tables are as they were, and what came back.
type Refused = (&'static str, bool, Vec<(u8, DispatchId)>);

/// How much these tables have: the counts of routines, and how many dispatches and drivers.
pub fn extent_of(tables: &FixedTables) -> (Known, usize, usize) {
    (
        tables.counts(),
        tables.dispatches().len(),
        tables.drivers().len(),
    )
}

/// Adds one who is asked to the table, a driver with these pairs. None where that was done.
fn put(table: &mut AnswerTable, row: Asked, pairs: Vec<(u8, DispatchId)>) -> Option<Refused> {
    let before = extent_of(table.tables());
    let (name, reason, pairs) = match row {
        Asked::Routine(_, rule, _) => ("AnswerTable::add", table.add(rule, BEHAVIOUR).err(), pairs),
        Asked::Cancel(_, rule, answer, _) => {
            let reason = table.add_cancel(rule, answer).err();
            ("AnswerTable::add_cancel", reason, pairs)
        }
        Asked::Dispatch(_, plan, _) => {
            let reason = table.add_dispatch(before.0, plan).err();
            ("AnswerTable::add_dispatch", reason, pairs)
        }
        Asked::Driver(..) => match table.add_driver(pairs) {
            Ok(_) => return None,
            Err(back) => ("AnswerTable::add_driver", Some(back.reason), back.item),
        },
    };
    let is_same = reason? == Reason::Memory && extent_of(table.tables()) == before;
    Some((name, is_same, pairs))
}

/// Adds one of each, each dispatch so that it may name all routines that there are. A call that finds no memory has to
/// leave the table as it was, and to hand a driver's pairs back. It is made again, with what came back.
fn add_each(alloc: Global, table: &mut AnswerTable, tried: &mut Tried) -> Result<(), Halt> {
    for row in rows(3, 8) {
        let pairs = match row {
            Asked::Driver(_, pairs) => *pairs,
            _ => &[],
        };
        let Some((name, is_same, own)) = put(table, *row, pairs.to_vec(alloc)?) else {
            continue;
        };
        let is_so = is_same && own.as_slice() == pairs;
        let (_, own) = carried(tried.refused(name, is_so), own)?;
        wanted(put(table, *row, own).is_none(), "a call was refused twice")?;
    }
    Ok(())
}

/// Whether two tables have the same counts, dispatches and cancel rules, and as many drivers.
fn are_same(one: &FixedTables, other: &FixedTables) -> bool {
    extent_of(one) == extent_of(other)
        && one.dispatches() == other.dispatches()
        && one.cancel_rules() == other.cancel_rules()
}

/// Copies tables in two ways.
fn copy(alloc: Global, table: &AnswerTable, tried: &mut Tried) -> Result<(), Halt> {
    let own = table.tables();
    let copied = match own.copied() {
        Ok(copied) => copied,
        Err(_) => {
            tried.refused("FixedTables::copied", true)?;
            own.copied()?
        }
    };
    let told = match FixedTables::told_by(alloc, table) {
        Ok(told) => told,
        Err(_) => {
            tried.refused("FixedTables::told_by", true)?;
            FixedTables::told_by(alloc, table)?
        }
    };
    wanted(
        are_same(own, &copied) && are_same(own, &told),
        "a copy isn't the same",
    )
}

/// A table of answers grows, nine times by one of each kind, and its tables are copied.
pub fn grow_table(alloc: Global, tried: &mut Tried) -> Result<(), Halt> {
    let mut table = AnswerTable::new(alloc);
    for number in 0..9 {
        tried.step = number;
        add_each(alloc, &mut table, tried)?;
    }
    copy(alloc, &table, tried)
}
