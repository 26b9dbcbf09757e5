//! What of a script that is taken is hardly meant: calls that the manager will refuse, or that go another way than they
//! look. Steps are followed in the order of the text. Source: this project's own rule.

ghost use Rattle.std.specs.Prelude.{◌≡◌, ◌+◌, IfOk, OnOk, length};
ghost use Rattle.irp_script_reader.specs.Sound.{known_of};
ghost use Rattle.irp_warnings.specs.Warned as spec;
ghost use Rattle.irp_warnings.specs.Warned.{AreInOrder, AreWarnings, Goes, hinted, hints_of, place_in, with_hints};

use crate::made::{answer_of, concern_of};
use crate::warning::{Concern, Warning};
use Piece::{Number, Say, Show};
use irp_forms::HasName;
use irp_machine::{Run, header_of};
use irp_names::major_name;
use irp_script_reader::{Script, ScriptParts, Section, Step};
use irp_text_faults::{Finding, Node, Piece, key_of, there_are, tokens_of};
use irp_types::{DeviceId, DispatchId, Known, LockNo};
use std::alloc::{AllocError, Global};

/// The most warnings that are told.
const MOST_WARNINGS: usize = 100;

/// The key under which it stands that isn't meant.
fn key_of_concern(concern: Concern) -> &'static str {
    match concern {
        Concern::Unbound { .. } => "irp",
        Concern::NoCompletionRoutine { .. } => "set",
        Concern::NoCancelRoutine { .. } => "cancel",
        Concern::TooShort { .. } | Concern::NoLower { .. } => "target",
        Concern::Attached => "device",
        Concern::NotHeld { .. } => "tag",
        Concern::NeverAnswered { .. } => "if",
    }
}

/// Says that a packet is too short.
fn tell_too_short(found: &mut Finding, node: Node, size: u32, devices: u32) -> bool {
    let locations = if size == 1 {
        " location, "
    } else {
        " locations, "
    };
    found.wrong(
        node,
        &[
            Say("the packet has "),
            Number(u64::from(size)),
            Say(locations),
            Say("the stack of the target "),
            Number(u64::from(devices)),
            Say(" devices; allocate one for each"),
        ],
    )
}

/// Says that no device is below.
fn tell_no_lower(
    found: &mut Finding,
    node: Node,
    device: DeviceId,
    dispatch: DispatchId,
    major: u8,
) -> bool {
    let name = major_name(major).unwrap_or("the packet");
    found.wrong(
        node,
        &[
            Say("dispatch "),
            Number(u64::from(dispatch.0)),
            Say(" passes "),
            Say(name),
            Say(" down, and no device is below device "),
            Number(u64::from(device.0)),
            Say(": it finishes with 3221225488 (STATUS_INVALID_DEVICE_REQUEST)"),
        ],
    )
}

/// Says that a seat doesn't hold what it gives back.
fn tell_not_held(found: &mut Finding, node: Node, seat: u32, lock: LockNo) -> bool {
    found.wrong(
        node,
        &[
            Say("seat "),
            Number(u64::from(seat)),
            Say(" holds no reference to lock "),
            Number(u64::from(lock.0)),
            Say(" under tag "),
            Show(node.span()),
            Say(" here"),
        ],
    )
}

/// Says what isn't meant at this place. It is false.
fn tell(found: &mut Finding, node: Node, concern: Concern) -> bool {
    match concern {
        Concern::Unbound { .. } => {
            let words = "no allocate before this step binds the label ";
            found.wrong(node, &[Say(words), Show(node.span())])
        }
        Concern::NoCompletionRoutine {
            rule,
            number,
            count,
        } => {
            let what = rule.name();
            there_are(found, node, what, u64::from(number), u64::from(count))
        }
        Concern::NoCancelRoutine { number, count } => {
            let what = "cancel routine";
            there_are(found, node, what, u64::from(number), u64::from(count))
        }
        Concern::TooShort { size, devices } => tell_too_short(found, node, size, devices),
        Concern::NoLower {
            device,
            dispatch,
            major,
        } => tell_no_lower(found, node, device, dispatch, major),
        Concern::Attached => {
            let words = Say(" has a neighbour in its stack here; detach first");
            found.wrong(node, &[Say("device "), Show(node.span()), words])
        }
        Concern::NotHeld { seat, lock } => tell_not_held(found, node, seat, lock),
        Concern::NeverAnswered { step } => {
            let (words, number) = ("no answer of step ", Number(u64::from(step)));
            found.wrong(node, &[Say(words), number, Say(" is ever this")])
        }
    }
}

/// The value in a step that a concern is of.
fn node_of<'t>(whole: Node<'t>, section: Section, index: usize, concern: Concern) -> Node<'t> {
    let list = whole.get(key_of(section)).unwrap_or(whole);
    let step = list.nth(index).unwrap_or(list);
    step.get(key_of_concern(concern)).unwrap_or(step)
}

/// The warning of a step. The one error is want of memory.
fn warning_of(
    alloc: Global,
    whole: Node,
    section: Section,
    index: usize,
    concern: Concern,
) -> Result<Warning, AllocError>
    ensures { IfOk result (λ warning. (warning.section ≡ section) × (warning.index ≡ index)
        × (warning.concern ≡ concern)) }
{
    let mut found = Finding::new(alloc, whole.text);
    tell(&mut found, node_of(whole, section, index, concern), concern);
    let place = found.place();
    let words = found.finish()?;
    Ok(Warning {
        section,
        index,
        place,
        concern,
        words,
    })
}

/// The steps of a list.
fn steps_in(script: &ScriptParts, section: Section) -> &[Step]
    ensures { result.now ≡ spec.steps_in script.now section }
{
    match section {
        Section::Setup => script.setup.as_slice(),
        Section::Steps => script.steps.as_slice(),
        _ => &[],
    }
}

/// Puts a warning, where there is one and there are fewer than may be. The one error is want of memory.
fn add_warning(
    found: &mut Vec<Warning>,
    whole: Node,
    section: Section,
    index: usize,
    concern: Option<Concern>,
) -> Result<(), AllocError>
    ensures { OnOk result (hints_of found.new.items
        ≡ with_hints (hinted section index concern) (hints_of found.old.items)) }
{
    if let Some(concern) = concern {
        if found.len() < MOST_WARNINGS {
            let alloc = *found.allocator();
            found.push(warning_of(alloc, whole, section, index, concern)?)?;
        }
    }
    Ok(())
}

/// Makes the steps of a list, and puts what is warned of. The one error is want of memory.
fn add_warnings<'a>(
    found: &mut Vec<Warning>,
    start: Run<'a>,
    script: &ScriptParts,
    known: Known,
    whole: Node,
    section: Section,
) -> Result<Run<'a>, AllocError>
    requires known { known ≡ known_of script.now }
    requires order { AreInOrder script.now (place_in script.now section 0) found.old.items }
    ensures goes { IfOk result (λ run. Goes script.now section start.entry found.old.items
        (length (spec.steps_in script.now section)) run found.new.items) }
    ensures order { OnOk result (AreInOrder script.now
        (place_in script.now section (length (spec.steps_in script.now section))) found.new.items) }
{
    let steps = steps_in(script, section);
    let mut run = start;
    for index in 0..steps.len() {
        let step = &steps[index];
        let (next, answer) = answer_of(run, index, step.seat)?;
        run = next;
        let concern = concern_of(&run, script, known, found, step, answer);
        add_warning(found, whole, section, index, concern)?;
    }
    Ok(run)
}

/// What of a script that is taken is hardly meant, in the order of its steps, a hundred at most. The script is the one
/// that was read from the text. It is run in the order of the text, and each warning but the last three stands at a
/// step that was made, and by what that was answered: a send of a packet with fewer locations than the stack has
/// devices, which was refused; a plan that passed a packet down at a device that has none below; a device that wasn't
/// deleted, since it has a neighbour; a reference to a remove lock that its seat didn't hold as it was given back; a
/// label that no allocate had bound; a routine that isn't there; a condition on an answer that its step never gives.
///
/// # Errors
///
/// Memory runs out.
pub fn warnings(alloc: Global, text: &[u8], script: &Script) -> Result<Vec<Warning>, AllocError>
    ensures order { IfOk result (λ found.
        AreInOrder script.now (length script.now.setup + length script.now.steps) found.items) }
    ensures warnings { IfOk result (λ found. AreWarnings script.now found.items) }
{
    let tokens = tokens_of(alloc, text)?;
    let whole = Node {
        text,
        tokens: tokens.as_slice(),
        at: 0,
    };
    let parts = script.parts();
    let header = header_of(alloc, parts)?;
    let known = header.completions;
    let mut found = Vec::new(alloc);
    let run = Run::new(alloc, &header, parts)?;
    let run = add_warnings(&mut found, run, parts, known, whole, Section::Setup)?;
    let run = run.behind(alloc)?;
    let _run = add_warnings(&mut found, run, parts, known, whole, Section::Steps)?;
    Ok(found)
}
