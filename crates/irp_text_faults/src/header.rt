//! Whether a header's tables agree, where each of its parts is as it should be.

use crate::nodes::Node;
use crate::part::Part;
use crate::search::{Search, What};

/// As many routines of a dispatch's count as the header has: first those of each rule, then the cancel routines.
fn routines(header: Node, place: usize) -> u64 {
    match header.get("completions") {
        Some(list) if list.nth(place).is_some() => list.number_at(place).unwrap_or(0),
        _ => header.count_under("cancels"),
    }
}

/// Looks for a count of a dispatch that is above that of the header's routines.
fn look_at_counts<'t>(search: &mut Search<'t>, header: Node<'t>, counts: Node<'t>) {
    let mut next = counts.first();
    for place in 0..header.tokens.len() {
        let Some(count) = next else {
            return;
        };
        let most = routines(header, place);
        if count.number().unwrap_or(0) > most {
            search.fails(count, Part::NamedCount, What::TooManyNamed(most));
        }
        next = count.next();
    }
}

/// Looks for a dispatch that may name more routines than there are.
fn look_at_dispatches<'t>(search: &mut Search<'t>, header: Node<'t>) {
    let mut next = header.get("dispatches").and_then(Node::first);
    for _ in 0..header.tokens.len() {
        let Some(counts) = next else {
            return;
        };
        look_at_counts(search, header, counts);
        next = counts.next();
    }
}

/// Looks at a member of a driver's table: whether its major is at least this one, and its dispatch one of so many.
fn look_at_member<'t>(search: &mut Search<'t>, member: Node<'t>, least: u64, dispatches: u64) {
    if let (Some(major), Some(dispatch)) = (member.nth(0), member.nth(1)) {
        if major.number().unwrap_or(0) < least {
            search.fails(major, Part::DriverMajor, What::NotRising);
        }
        if dispatch.number().unwrap_or(0) >= dispatches {
            search.fails(dispatch, Part::Dispatch, What::NoDispatch(dispatches));
        }
    }
}

/// Looks for a member of a driver's table whose major doesn't rise, or whose dispatch isn't one of so many.
fn look_at_table<'t>(search: &mut Search<'t>, table: Node<'t>, dispatches: u64) {
    let mut next = table.first();
    let mut least = 0;
    for _ in 0..table.tokens.len() {
        let Some(member) = next else {
            return;
        };
        look_at_member(search, member, least, dispatches);
        least = member.number_at(0).unwrap_or(0).saturating_add(1);
        next = member.next();
    }
}

/// Looks for a driver whose table isn't one.
fn look_at_drivers<'t>(search: &mut Search<'t>, header: Node<'t>) {
    let dispatches = header.count_under("dispatches");
    let mut next = header.get("drivers").and_then(Node::first);
    for _ in 0..header.tokens.len() {
        let Some(table) = next else {
            return;
        };
        look_at_table(search, table, dispatches);
        next = table.next();
    }
}

/// Looks for the first place of a header at which its tables don't agree.
pub fn look_at_tables<'t>(search: &mut Search<'t>, header: Node<'t>) {
    look_at_dispatches(search, header);
    look_at_drivers(search, header);
}
