//! The faults of a script, each with its place. Source: this project's own rule.

ghost use Rattle.std.specs.Prelude.{◌≡◌, ◌∷◌, IfOk, OnOk};
ghost use Rattle.std.specs.List.{All};
ghost use Rattle.irp_text_faults.specs.Advice.{BeginsWith, IsAdviceOn};
ghost use Rattle.irp_text_faults.specs.Placed.{IsPlaced};

use crate::around::Around;
use crate::lists::{check_completion, check_driver, check_plan};
use crate::message::FaultMessage;
use crate::nodes::Node;
use crate::not_json::tell_no_json;
use crate::part::Part;
use crate::places::place_of;
use crate::script_words::check_part;
use crate::seeking::in_part;
use crate::steps::check_step;
use crate::tokens::{Token, tokens_of};
use crate::top::{check_top, key_of, no_list, tell_count, tell_form, too_long};
use crate::words::{Finding, Piece};
use Piece::Say;
use irp_script_reader::MemberFault::{BadField, RuleBroken};
use irp_script_reader::{ScriptFault, ScriptRefusal, Section, read_script};
use std::alloc::{AllocError, Global};

/// The most faults that are told.
const MOST_FAULTS: usize = 10;

/// Whether a member of a section is right.
fn check_member(found: &mut Finding, around: Around, section: Section, node: Node) -> bool {
    match section {
        Section::Completions => check_completion(found, around, node),
        Section::Cancels => { check_part(found, around.bounds(false), node, Part::CancelAnswer) }
        Section::Dispatches => check_plan(found, around, node),
        Section::Drivers => check_driver(found, around, node),
        Section::Setup => check_step(found, around, true, node),
        Section::Steps => check_step(found, around, false, node),
        _ => true,
    }
}

/// What is said of a member that has nothing else wrong: there are too many.
fn too_many(section: Section) -> &'static str {
    match section {
        Section::Completions =>
            "there are at most 256 completion routines of a rule; this is one more",
        Section::Cancels => "there are at most 256 cancel routines; this is one more",
        Section::Dispatches => "there are at most 256 dispatches; this is one more",
        Section::Drivers => "there are at most 64 drivers; this is one more",
        _ => "there are at most 4096 labels; this step names one more",
    }
}

/// The member at a place of a section. None where there is none, or the section is no list.
fn member_of<'t>(whole: Node<'t>, section: Section, index: usize) -> Option<Node<'t>> {
    whole.get(key_of(section))?.nth(index)
}

/// Says what is wrong with the member at a place of a section.
fn tell_member(found: &mut Finding, around: Around, section: Section, index: usize) {
    let Some(node) = member_of(around.whole, section, index) else {
        no_list(found, around, section);
        return;
    };
    if check_member(found, around, section, node) {
        found.wrong(node, &[Say(too_many(section))]);
    }
}

/// Says what is wrong with a section.
fn tell_section(found: &mut Finding, whole: Node, section: Section, index: usize) {
    let around = Around::of(whole);
    match section {
        Section::Top => {
            if check_top(found, around) {
                tell_form(found, whole);
            }
        }
        Section::Seats | Section::Locks | Section::Slots => {
            tell_count(found, around, section);
        }
        _ => tell_member(found, around, section, index),
    }
}

/// Says what is wrong with a text that is refused so.
fn tell(alloc: Global, found: &mut Finding, whole: Node, refusal: ScriptRefusal) {
    match refusal {
        ScriptRefusal::TooLong => {
            too_long(found, whole.text);
        }
        ScriptRefusal::NotJson => tell_no_json(alloc, found, whole),
        ScriptRefusal::BadForm => {
            tell_form(found, whole);
        }
        ScriptRefusal::At { section, index, .. } => tell_section(found, whole, section, index),
    }
}

/// The fault of a text with its words and its place, which is that of a byte in the part that the refusal names. The one
/// error is want of memory.
fn fault_of(
    found: Finding<'_>,
    text: &[u8],
    refusal: ScriptRefusal,
) -> Result<FaultMessage, AllocError>
    ensures refusal { IfOk result (λ fault. fault.refusal ≡ refusal) }
    ensures placed { IfOk result (IsPlaced text.now) }
{
    let place = place_of(text, in_part(refusal, text, found.at()));
    let words = found.finish()?;
    Ok(FaultMessage {
        refusal,
        place,
        words,
    })
}

/// The fault for which a text is refused so. The one error is want of memory.
fn first_fault(
    alloc: Global,
    whole: Node,
    refusal: ScriptRefusal,
) -> Result<FaultMessage, AllocError>
    ensures refusal { IfOk result (λ fault. fault.refusal ≡ refusal) }
    ensures placed { IfOk result (IsPlaced whole.entry.text.now) }
{
    let mut found = Finding::new(alloc, whole.text);
    tell(alloc, &mut found, whole, refusal);
    fault_of(found, whole.text, refusal)
}

/// Puts the fault of a section's member, where it has one by itself, whatever the other lists have: an earlier fault in
/// these may be the cause of the rest. The one error is want of memory.
fn add_fault(
    more: &mut Vec<FaultMessage>,
    text: &[u8],
    around: Around,
    section: Section,
    index: usize,
    node: Node,
) -> Result<(), AllocError>
    ensures { OnOk result (
        All (IsPlaced text.now) more.old.items → All (IsPlaced text.now) more.new.items) }
{
    let mut found = Finding::new(*more.allocator(), text);
    let is_right = check_member(&mut found, around, section, node);
    let fault = found.fault();
    if is_right || !matches!(fault, BadField | RuleBroken) {
        return Ok(());
    }
    let refusal = ScriptRefusal::At {
        fault,
        section,
        index,
    };
    more.push(fault_of(found, text, refusal)?)?;
    Ok(())
}

/// Puts the faults of a section's members from this place on, up to so many in all. The one error is want of memory.
fn add_faults(
    more: &mut Vec<FaultMessage>,
    text: &[u8],
    around: Around,
    section: Section,
    from: usize,
) -> Result<(), AllocError>
    ensures { OnOk result (
        All (IsPlaced text.now) more.old.items → All (IsPlaced text.now) more.new.items) }
{
    let mut next = member_of(around.whole, section, from);
    for index in from..around.whole.tokens.len() {
        match next {
            Some(node) if more.len() < MOST_FAULTS => {
                add_fault(more, text, around, section, index, node)?;
                next = node.next();
            }
            _ => return Ok(()),
        }
    }
    Ok(())
}

/// The sections that are lists, in the order in which they are read.
static LISTS: &[Section] = &[
    Section::Completions,
    Section::Cancels,
    Section::Dispatches,
    Section::Drivers,
    Section::Setup,
    Section::Steps,
];

/// The faults behind the first one, where that is in a list. The one error is want of memory.
fn more_faults(
    alloc: Global,
    whole: Node,
    refusal: ScriptRefusal,
) -> Result<Vec<FaultMessage>, AllocError>
    ensures { IfOk result (λ found. All (IsPlaced whole.entry.text.now) found.items) }
{
    let mut more = Vec::new(alloc);
    let ScriptRefusal::At { section, index, .. } = refusal else {
        return Ok(more);
    };
    let mut comes = false;
    for list in LISTS {
        let from = if comes { 0 } else { index.saturating_add(1) };
        comes = comes || *list == section;
        if comes {
            add_faults(&mut more, whole.text, Around::of(whole), *list, from)?;
        }
    }
    Ok(more)
}

/// A fault, and others behind it. The one error is want of memory.
fn in_front(
    alloc: Global,
    first: FaultMessage,
    more: Vec<FaultMessage>,
) -> Result<Vec<FaultMessage>, AllocError>
    ensures { IfOk result (λ all. all.items ≡ first ∷ more.items) }
{
    let mut all = Vec::new(alloc);
    let mut others = more;
    all.push(first)?;
    all.append(&mut others)?;
    Ok(all)
}

/// The faults of a text with these tokens that is refused so: first that of this refusal. The one error is want of
/// memory.
#[tactic(auto, using(crate::proofs::Placing::placed_in_front))]
fn faults_of(
    alloc: Global,
    text: &[u8],
    tokens: &[Token],
    refusal: ScriptRefusal,
) -> Result<Vec<FaultMessage>, AllocError>
    ensures first { IfOk result (λ found. BeginsWith refusal found.items) }
    ensures placed { IfOk result (λ found. All (IsPlaced text.now) found.items) }
{
    let whole = Node {
        text,
        tokens,
        at: 0,
    };
    let first = first_fault(alloc, whole, refusal)?;
    let more = more_faults(alloc, whole, refusal)?;
    let all = in_front(alloc, first, more)?;
    Ok(all)
}

/// The faults of a text that is refused so: first that of this refusal. The one error is want of memory.
fn all_faults(
    alloc: Global,
    text: &[u8],
    refusal: ScriptRefusal,
) -> Result<Vec<FaultMessage>, AllocError>
    ensures first { IfOk result (λ found. BeginsWith refusal found.items) }
    ensures placed { IfOk result (λ found. All (IsPlaced text.now) found.items) }
{
    let tokens = match refusal {
        ScriptRefusal::TooLong => Vec::new(alloc),
        _ => tokens_of(alloc, text)?,
    };
    faults_of(alloc, text, tokens.as_slice(), refusal)
}

/// What is wrong with a script, in order: nothing exactly where `read_script` reads it; else first the fault for which
/// it is refused, and behind it what else is seen in its lists, ten faults or so in all.
///
/// # Errors
///
/// Memory runs out.
#[tactic(auto, using(crate::proofs::Telling::begins_advice))]
pub fn faults(alloc: Global, text: &[u8]) -> Result<Vec<FaultMessage>, AllocError>
    ensures advice { IfOk result (λ found. IsAdviceOn found.items text.now) }
    ensures placed { IfOk result (λ found. All (IsPlaced text.now) found.items) }
{
    match read_script(alloc, text) {
        Ok(_script) => Ok(Vec::new(alloc)),
        Err(ScriptFault::NoMemory) => Err(AllocError),
        Err(ScriptFault::Refused(refusal)) => all_faults(alloc, text, refusal),
    }
}
