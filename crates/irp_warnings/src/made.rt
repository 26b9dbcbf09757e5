//! What isn't meant in the steps of a script, by what they are answered as they are made in the order of the text.

ghost use Rattle.std.specs.Prelude.{◌≡◌, IfOk, false, slice_get};
ghost use Rattle.std.specs.List.{find, list_any};
ghost use Rattle.std.specs.Option.{option_map_or};
ghost use Rattle.irp_types.specs.Descent.{is_passing};
ghost use Rattle.irp_script_reader.specs.Sound.{known_of};
ghost use Rattle.irp_warnings.specs.Concerns as spec;
ghost use Rattle.irp_warnings.specs.Warned.{IsMade, answer_behind, hints_of, tells};

use crate::conditions::may_be_answered;
use crate::warning::{Concern, Warning};
use irp_machine::{After, Answered, Run, Standing};
use irp_script_reader::{Condition, Named, ScriptParts, Step, StepAct};
use irp_steps::{label_at, named_by, packet_of};
use irp_transcript::WordReply;
use irp_types::{
    Asked, Call, CancelId, DeviceId, DispatchId, Entry, Hand, Known, LockAct, Party, Plan, Refusal,
    Reply, Setting,
};
use std::alloc::AllocError;

/// The most atomic steps of one step of a script.
const MOST_ATOMIC: u32 = 8;

/// What an act was answered, where it was answered this before.
fn answer_behind(behind: After, answer: Option<Answered>) -> Option<Answered>
    ensures { result ≡ answer_behind behind answer }
{
    match behind {
        After::Told(given) | After::Binds(given, _) => Some(given),
        After::In(_) | After::Bound => answer,
    }
}

/// Makes a step of a script whole, and tells what it was answered. None where it is passed over.
///
/// # Errors
///
/// `AllocError` where memory runs out. It would also be the answer where a step had more atomic steps than any has.
pub fn answer_of<'a>(
    start: Run<'a>,
    place: usize,
    seat: u32,
) -> Result<(Run<'a>, Option<Answered>), AllocError>
    ensures { IfOk result (λ made. IsMade start.entry seat place made.1 made.0) }
{
    let (mut run, mut answer) = (start, None);
    for _part in 0..MOST_ATOMIC {
        let (next, behind) = run.play(seat, place)?;
        run = next;
        match behind {
            Some(behind) => answer = answer_behind(behind, answer),
            None => return Ok((run, answer)),
        }
    }
    Err(AllocError)
}

/// Whether a warning tells that this label isn't bound.
fn tells_of(warning: &Warning, label: usize) -> bool
    ensures { result ≡ tells label warning.now }
{
    match warning.concern {
        Concern::Unbound { label: one } => one == label,
        _ => false,
    }
}

/// Whether one of these does.
fn any_tells(told: &[Warning], label: usize) -> bool
    ensures { result ≡ list_any (tells label) told.now }
{
    told.iter().any(|warning| tells_of(warning, label))
}

/// Whether it is told that this label isn't bound.
fn is_told(told: &[Warning], label: usize) -> bool
    ensures { result ≡ spec.is_told (hints_of told.now) label }
{
    any_tells(told, label)
}

/// The label that an act names, where it isn't bound, and no warning tells of it: its packet's use would have number 0.
fn unbound_in(standing: &Standing, told: &[Warning], act: StepAct) -> Option<usize>
    ensures { result ≡ spec.unbound_in standing.now (hints_of told.now) act }
{
    let Some(Named::Label(label)) = named_by(act) else {
        return None;
    };
    let is_unbound = label_at(standing.labels(), label).use_no == 0;
    (is_unbound && !is_told(told, label)).then_some(label)
}

/// What isn't meant in a step that was answered so, if anything. Of a label that isn't bound it is told once.
fn of_answer(
    run: &Run,
    script: &ScriptParts,
    known: Known,
    told: &[Warning],
    step: &Step,
    answer: Answered,
) -> Option<Concern>
    requires { known ≡ known_of script.now }
    ensures { result ≡ spec.of_answer script.now run.now (hints_of told.now) step.now answer }
{
    if let Some(label) = unbound_in(run.standing(), told, step.act) {
        return Some(Concern::Unbound { label });
    }
    match answer {
        Answered::Reply(reply) => of_reply(run, script, known, step.act, reply),
        Answered::Word(reply) => not_held(step.act, step.seat, reply),
    }
}

/// What isn't meant in a step that was answered so, or passed over, if anything.
pub fn concern_of(
    run: &Run,
    script: &ScriptParts,
    known: Known,
    told: &[Warning],
    step: &Step,
    answer: Option<Answered>,
) -> Option<Concern>
    requires { known ≡ known_of script.now }
    ensures { result ≡ spec.concern_of script.now run.now (hints_of told.now) step.now answer }
{
    match (never_answered(script, step.condition), answer) {
        (None, Some(answer)) => of_answer(run, script, known, told, step, answer),
        (never, _) => never,
    }
}

/// The step that a condition names is never answered so.
fn never_answered(script: &ScriptParts, condition: Option<Condition>) -> Option<Concern>
    ensures { result ≡ spec.never_answered script.now condition }
{
    let Condition { step, answer, .. } = condition?;
    let named = script.steps.as_slice().get(step as usize)?;
    (!may_be_answered(named.act, answer)).then_some(Concern::NeverAnswered { step })
}

/// A seat gave back what it doesn't hold.
fn not_held(act: StepAct, seat: u32, reply: WordReply) -> Option<Concern>
    ensures { result ≡ spec.not_held act seat reply }
{
    match (act, reply) {
        (
            StepAct::OnLock(LockAct::Release { lock, .. } | LockAct::BeginRemove { lock, .. })
            | StepAct::Hand(Hand { lock, .. }),
            WordReply::NotHeld | WordReply::NoLock,
        ) => Some(Concern::NotHeld { seat, lock }),
        _ => None,
    }
}

/// What isn't meant in a step that the manager answered so, if anything.
fn of_reply(
    run: &Run,
    script: &ScriptParts,
    known: Known,
    act: StepAct,
    reply: Reply,
) -> Option<Concern>
    requires { known ≡ known_of script.now }
    ensures { result ≡ spec.of_reply script.now run.now act reply }
{
    match act {
        StepAct::Call(call) => of_call(run, script, known, call, reply),
        _ => None,
    }
}

/// What isn't meant in a call that was answered so, if anything.
fn of_call(
    run: &Run,
    script: &ScriptParts,
    known: Known,
    call: Call<Named, u32>,
    reply: Reply,
) -> Option<Concern>
    requires { known ≡ known_of script.now }
    ensures { result ≡ spec.of_call script.now run.now call reply }
{
    match (call, reply) {
        (Call::SetRoutine { setting, .. }, _) => no_routine(known, setting),
        (
            Call::SetCancelRoutine {
                cancel: Some(cancel),
                ..
            },
            _,
        ) => no_cancel(known, cancel),
        (Call::Delete { .. }, Reply::Refused(Refusal::StillAttached)) => Some(Concern::Attached),
        (
            Call::CallDriver {
                party: Party::Originator,
                target,
                ..
            },
            Reply::Refused(_),
        ) => too_short(run.standing(), StepAct::Call(call), target),
        (Call::CallDriver { .. }, Reply::Status(_)) => no_lower(script, run.entries()),
        _ => None,
    }
}

/// A routine that isn't there.
fn no_routine(known: Known, setting: Setting) -> Option<Concern>
    ensures { result ≡ spec.no_routine known setting }
{
    let (rule, number) = (setting.routine.rule, setting.routine.no);
    let count = known.count_of(rule);
    (number >= count).then_some(Concern::NoCompletionRoutine {
        rule,
        number,
        count,
    })
}

/// A cancel routine that isn't there.
fn no_cancel(known: Known, cancel: CancelId) -> Option<Concern>
    ensures { result ≡ spec.no_cancel known cancel }
{
    let (number, count) = (cancel.0, known.cancel);
    (number >= count).then_some(Concern::NoCancelRoutine { number, count })
}

/// A packet has fewer locations than the stack of a device has devices up to it.
fn too_short(standing: &Standing, act: StepAct, target: DeviceId) -> Option<Concern>
    ensures { result ≡ spec.too_short standing.now act target }
{
    let irp = packet_of(standing.labels(), act);
    let live = standing.manager().live(irp.slot)?;
    let stacks = standing.manager().stacks();
    if live.use_no != irp.use_no || target.0 >= stacks.len() {
        return None;
    }
    let (size, devices) = (live.packet.size(), stacks.stack_size(target));
    (size < devices).then_some(Concern::TooShort { size, devices })
}

/// Whether a dispatch's plan passes the packet down.
fn passes_down(script: &ScriptParts, dispatch: DispatchId) -> bool
    ensures { result ≡ option_map_or is_passing (slice_get script.now.dispatches dispatch.0) false }
{
    matches!(
        script.dispatches.as_slice().get(dispatch.0 as usize),
        Some(Plan::Skip | Plan::Forward { .. } | Plan::ForwardPend { .. })
    )
}

/// Whether a dispatch passes the packet down, as it was asked, where no device is below.
fn lacks_lower(script: &ScriptParts, asked: Asked) -> bool
    ensures { result ≡ spec.lacks_lower script.now asked }
{
    match asked {
        Asked::Dispatch { id, shown, .. } => !shown.has_lower && passes_down(script, id),
        _ => false,
    }
}

/// Of those that were asked the first that does.
fn first_lacking(script: &ScriptParts, asked: &[Asked]) -> Option<Asked>
    ensures { result ≡ find (spec.lacks_lower script.now) asked.now }
{
    for one in asked {
        if lacks_lower(script, *one) {
            return Some(*one);
        }
    }
    None
}

/// A dispatch that was asked in the last call passes the packet down, and no device is below.
fn no_lower(script: &ScriptParts, entries: &[Entry]) -> Option<Concern>
    ensures { result ≡ spec.no_lower script.now entries.now }
{
    let asked = entries.last()?.asked.as_slice();
    match first_lacking(script, asked)? {
        Asked::Dispatch { id, shown, .. } => Some(Concern::NoLower {
            device: shown.device?,
            dispatch: id,
            major: shown.major,
        }),
        _ => None,
    }
}
