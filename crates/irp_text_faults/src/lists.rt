//! What is wrong with a member of the lists before the steps: completion routines, cancel routines, dispatches and
//! drivers. Source: this project's own format (docs/FORMATS.md).

use crate::around::Around;
use crate::fits::is_one_of;
use crate::nodes::Node;
use crate::part::Part;
use crate::script_words::check_part;
use crate::words::{Finding, Piece, Remedy, there_are};
use Piece::{Number, Say, Show};
use irp_names::{major_name, rule_names, status_name};
use irp_script_reader::MemberFault;
use irp_types::Status;

/// The status at a place of a list, where there is one.
fn status_at(node: Node, index: usize) -> Option<Status> {
    match u32::try_from(node.number_at(index)?) {
        Ok(status) => Some(Status(status)),
        Err(_) => None,
    }
}

/// Whether a packet may be completed with the status at a place of a list.
fn check_completable(found: &mut Finding, node: Node, index: usize) -> bool {
    let (Some(item), Some(status)) = (node.nth(index), status_at(node, index)) else {
        return true;
    };
    if status.is_completable() {
        return true;
    }
    let name = status_name(status).unwrap_or("this status");
    found.wrong(
        item,
        &[
            Say("the status is "),
            Number(u64::from(status.0)),
            Say(" ("),
            Say(name),
            Say("); no packet is completed with this status"),
        ],
    );
    found.of(MemberFault::RuleBroken)
}

/// The rules that bind behaviours, each with those that it takes on success, on error, and in words.
static RULES: [(
    &'static str,
    &'static [&'static str],
    &'static [&'static str],
    &'static str,
); 4] = [
    (
        "watch",
        &["continue"],
        &["continue"],
        "a \"watch\" takes \"continue\" twice",
    ),
    (
        "change",
        &["continue", "replace"],
        &["continue", "replace"],
        "a \"change\" takes \"continue\" or a replacement",
    ),
    (
        "keeper",
        &["keep"],
        &["keep"],
        "a \"keeper\" takes \"keep\" twice",
    ),
    (
        "keep_on_error",
        &["continue"],
        &["keep"],
        "a \"keep_on_error\" takes \"continue\", and then \"keep\"",
    ),
];

/// Whether a behaviour is one of these, by its name.
fn is_behaviour(node: Node, names: &[&str]) -> bool {
    match node.nth(0) {
        Some(name) => is_one_of(name, names),
        None => is_one_of(node, names),
    }
}

/// What the behaviours of a completion routine have to be, where its rule doesn't take these.
fn rule_against(node: Node, on_ok: Node, on_err: Node) -> Option<&'static str> {
    for (rule, of_ok, of_err, words) in &RULES {
        if node.begins_with(*rule)
            && !(is_behaviour(on_ok, *of_ok) && is_behaviour(on_err, *of_err))
        {
            return Some(*words);
        }
    }
    None
}

/// Whether behaviours keep their rule.
fn check_rule(found: &mut Finding, node: Node, on_ok: Node, on_err: Node) -> bool {
    let Some(words) = rule_against(node, on_ok, on_err) else {
        return true;
    };
    let (ok, err) = (Show(on_ok.span()), Show(on_err.span()));
    let pieces = [
        Say("the behaviours are "),
        ok,
        Say(" and "),
        err,
        Say("; "),
        Say(words),
    ];
    found.wrong(node, &pieces);
    found.of(MemberFault::RuleBroken)
}

/// Whether a completion routine is right.
pub fn check_completion(found: &mut Finding, around: Around, node: Node) -> bool {
    if !check_part(found, around.bounds(false), node, Part::ScriptRoutine) {
        return false;
    }
    match (node.nth(1), node.nth(2)) {
        (Some(on_ok), Some(on_err)) => {
            check_completable(found, on_ok, 1)
                && check_completable(found, on_err, 1)
                && check_rule(found, node, on_ok, on_err)
        }
        _ => true,
    }
}

/// The rule with which a setting begins.
fn rule_of(setting: Node) -> &'static str {
    for name in rule_names() {
        if setting.begins_with(*name) {
            return *name;
        }
    }
    "free"
}

/// Whether a setting may be made by a plan that passes the packet down, and its routine is there.
fn check_set(found: &mut Finding, around: Around, setting: Node, pends: bool) -> bool {
    let rule = rule_of(setting);
    if !pends && !setting.begins_with("watch") {
        found.not_taken(
            "the setting",
            setting,
            "a \"forward\" sets a \"watch\" alone",
        );
        found.remedy(Remedy::Word("forward_pend"));
        return found.of(MemberFault::RuleBroken);
    }
    let (number, count) = (setting.number_at(1).unwrap_or(0), around.routines(rule));
    if number < count {
        return true;
    }
    there_are(found, setting, rule, number, count);
    found.of(MemberFault::NoRoutine)
}

/// Whether the cancel routine is there with which a plan holds the packet, where it names one.
fn check_hold(found: &mut Finding, around: Around, node: Node) -> bool {
    let count = around.whole.count_under("cancels");
    match node.number_at(1) {
        Some(number) if number >= count => {
            there_are(found, node, "cancel routine", number, count);
            found.of(MemberFault::NoRoutine)
        }
        _ => true,
    }
}

/// Whether a plan is right.
pub fn check_plan(found: &mut Finding, around: Around, node: Node) -> bool {
    if !check_part(found, around.bounds(false), node, Part::Plan) {
        return false;
    }
    match node.nth(1) {
        Some(_) if node.begins_with("finish") => check_completable(found, node, 1),
        Some(_) if node.begins_with("hold") => check_hold(found, around, node),
        Some(setting) if !setting.is_null() => {
            check_set(found, around, setting, node.begins_with("forward_pend"))
        }
        _ => true,
    }
}

/// Whether a pair of a driver's table that stands before another has this major function code.
fn is_before(table: Node, pair: Node, major: u64) -> bool {
    let mut next = table.first();
    for _ in 0..table.tokens.len() {
        match next {
            Some(other) if other.at < pair.at => {
                if other.number_at(0) == Some(major) {
                    return true;
                }
                next = other.next();
            }
            _ => return false,
        }
    }
    false
}

/// Whether the major function code of a pair is right: not too great, and in no pair before.
fn check_major(found: &mut Finding, table: Node, pair: Node, major: u64) -> bool {
    if major > 27 {
        let words = "the last major function code is 27 (IRP_MJ_PNP)";
        found.not_taken("the pair", pair, words);
        return found.of(MemberFault::BadDispatch);
    }
    !is_before(table, pair, major) || twice(found, pair, major)
}

/// A major function code stands twice. It is false.
fn twice(found: &mut Finding, pair: Node, major: u64) -> bool {
    let code = u8::try_from(major).unwrap_or(0);
    found.wrong(
        pair,
        &[
            Say("major "),
            Number(major),
            Say(" ("),
            Say(major_name(code).unwrap_or("")),
            Say(") stands twice in this driver's table"),
        ],
    );
    found.of(MemberFault::BadDispatch)
}

/// Whether the dispatch of a pair is there.
fn check_dispatch(found: &mut Finding, around: Around, pair: Node) -> bool {
    let dispatch = pair.number_at(1).unwrap_or(0);
    let count = around.whole.count_under("dispatches");
    if dispatch < count {
        return true;
    }
    there_are(found, pair, "dispatch", dispatch, count);
    found.of(MemberFault::BadDispatch)
}

/// Whether a pair of a driver's table, which has the form of one, is right.
fn check_pair(found: &mut Finding, around: Around, table: Node, pair: Node) -> bool {
    let major = pair.number_at(0).unwrap_or(0);
    check_major(found, table, pair, major) && check_dispatch(found, around, pair)
}

/// Whether a driver's pairs, which have the form of such, are right.
fn check_pairs(found: &mut Finding, around: Around, table: Node) -> bool {
    let mut next = table.first();
    for _ in 0..table.tokens.len() {
        match next {
            Some(pair) if check_pair(found, around, table, pair) => next = pair.next(),
            Some(_) => return false,
            None => return true,
        }
    }
    true
}

/// Whether a driver is right.
pub fn check_driver(found: &mut Finding, around: Around, table: Node) -> bool {
    check_part(found, around.bounds(false), table, Part::ScriptDriver)
        && check_pairs(found, around, table)
}
