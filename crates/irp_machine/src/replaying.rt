//! One order made again, as a transcript.

ghost use Rattle.std.specs.Prelude.{◌≡◌, ◌<◌, ◌++◌, IfErr, IfOk, None, OnOk, Some, [], filter_map, length, true};
ghost use Rattle.irp_types.specs.Histories.{LeadsTo};
ghost use Rattle.irp_transcript.specs.Headers.{fixed_of};
ghost use Rattle.irp_script_reader.specs.Sound.{IsSound};
ghost use Rattle.irp_machine.specs.Headers.{IsHeaderOf};
ghost use Rattle.irp_machine.specs.Machine.{act_of, seat_at};
ghost use Rattle.irp_machine.specs.Next.{next_of};
ghost use Rattle.irp_machine.specs.Openings.{IsStuck, Opens, rules_of};
ghost use Rattle.irp_machine.specs.Replays as spec;
ghost use Rattle.irp_machine.specs.Replays.{IsActed, IsReplay, IsSetUp, Plays, PlaysIn, PlaysSo, StopsShort};
ghost use Rattle.irp_machine.specs.declared.limits.NotMade.TheVariants.{NoStep};
ghost use Rattle.irp_machine.specs.declared.parts.Next.TheVariants.{Calls};

use crate::header::header_of;
use crate::limits::NotMade;
use crate::machine::ScriptMachine;
use crate::next::{called, next_of};
use crate::opening::{first_standing, machine_of, opened, seats_of};
use crate::parts::{Calling, Next, Planned};
use crate::standing::Standing;
use irp_plain::{After, Answered, Change, Learned, Told, push_if};
use irp_script_reader::{Script, ScriptParts, Step, StepAct};
use irp_transcript::{Act, Header, Transcript, WordLine};
use irp_types::{Call, Entry, Questions, Row, SlotAct, history_goes_on};
use std::alloc::{AllocError, Global};

/// Makes a call of a seat in an act, records it, and returns what it changes beside the manager's state.
fn call_again(
    machine: &ScriptMachine,
    entries: &mut Vec<Entry>,
    standing: &mut Standing,
    seat: u32,
    learned: &[Learned],
    planned: Planned,
    calling: Calling,
) -> Result<Change, AllocError>
    requires learned { learned.now ≡ (seat_at standing.old seat).learned }
    requires leads { LeadsTo machine.now.fixed entries.old.items standing.old.manager.state }
    ensures records { IfOk result (IsActed machine.now standing.old seat planned (Calls calling)
        entries.old.items standing.new entries.new.items) }
    ensures leads { OnOk result
        (LeadsTo machine.now.fixed entries.new.items standing.new.manager.state) }
{
    let number = entries.len() as u64;
    entries.reserve(1)?;
    let applied = machine.call(standing, learned, calling)?;
    entries.push_reserved(Entry {
        number,
        call: calling.call,
        asked: Questions::from_vec(applied.asked),
        reply: applied.reply,
        seat,
        lock: applied.lock,
        drained: applied.drained,
    });
    history_goes_on();
    Ok(called(planned, calling, applied.reply))
}

/// Makes what the next step of a seat in an act makes of the manager's state, records its call, and returns what else
/// it changes.
fn act_again(
    machine: &ScriptMachine,
    entries: &mut Vec<Entry>,
    standing: &mut Standing,
    before: &Standing,
    seat: u32,
    planned: Planned,
) -> Result<Change, AllocError>
    requires there { seat < length before.now.seats }
    requires same { standing.old ≡ before.now }
    requires leads { LeadsTo machine.now.fixed entries.old.items standing.old.manager.state }
    ensures records { IfOk result (IsActed machine.now before.now seat planned
        (next_of before.now (seat_at before.now seat) planned) entries.old.items standing.new
        entries.new.items) }
    ensures leads { OnOk result
        (LeadsTo machine.now.fixed entries.new.items standing.new.manager.state) }
{
    let own = &before.seats()[seat as usize];
    match next_of(before, own, planned) {
        Next::Changes(change) => Ok(change),
        Next::Calls(calling) => {
            let learned = own.learned();
            call_again(machine, entries, standing, seat, learned, planned, calling)
        }
    }
}

/// Makes the next step of a seat in this act, records its call, and tells where the seat is behind it.
pub fn play_in(
    machine: &ScriptMachine,
    entries: &mut Vec<Entry>,
    standing: &mut Standing,
    seat: u32,
    planned: Planned,
) -> Result<After, AllocError>
    requires act { act_of machine.now standing.old seat ≡ Some planned }
    requires leads { LeadsTo machine.now.fixed entries.old.items standing.old.manager.state }
    ensures plays { IfOk result (PlaysSo machine.now standing.old entries.old.items seat planned
        standing.new entries.new.items) }
    ensures leads { OnOk result
        (LeadsTo machine.now.fixed entries.new.items standing.new.manager.state) }
{
    let before = standing.copy()?;
    let change = act_again(machine, entries, standing, &before, seat, planned)?;
    standing.change(seat as usize, change, planned.place, machine.tells())?;
    Ok(change.after)
}

/// Makes a step of a seat again, and records its call.
///
/// # Errors
///
/// `NoStep` where the seat isn't there, or has no step left; `Memory` where memory runs out.
fn play(
    machine: &ScriptMachine,
    entries: &mut Vec<Entry>,
    standing: &mut Standing,
    seat: u32,
) -> Result<(), NotMade>
    requires { LeadsTo machine.now.fixed entries.old.items standing.old.manager.state }
    ensures plays { OnOk result (PlaysIn machine.now standing.old entries.old.items seat
        (act_of machine.now standing.old seat) standing.new entries.new.items) }
    ensures leads { OnOk result
        (LeadsTo machine.now.fixed entries.new.items standing.new.manager.state) }
    ensures no_step { IfErr result (λ refusal. refusal ≡ NoStep
        → act_of machine.now standing.old seat ≡ None) }
{
    let Some(planned) = machine.act_of(standing, seat as usize) else {
        return Err(NotMade::NoStep);
    };
    let _behind = play_in(machine, entries, standing, seat, planned)?;
    Ok(())
}

/// Makes the steps of these seats, one after another, and records their calls.
///
/// # Errors
///
/// `NoStep` where a seat isn't there at its turn, or has no step left; `Memory` where memory runs out.
fn play_all(
    machine: &ScriptMachine,
    entries: &mut Vec<Entry>,
    standing: &mut Standing,
    path: &[u32],
) -> Result<(), NotMade>
    requires { LeadsTo machine.now.fixed entries.old.items standing.old.manager.state }
    ensures plays { OnOk result (Plays machine.now standing.old entries.old.items path.now
        standing.new entries.new.items) }
    ensures leads { OnOk result
        (LeadsTo machine.now.fixed entries.new.items standing.new.manager.state) }
    ensures no_step { IfErr result (λ refusal. refusal ≡ NoStep
        → IsStuck machine.now standing.old path.now) }
{
    for seat in path {
        play(machine, entries, standing, *seat)?;
    }
    Ok(())
}

/// Makes the setup of a script, and records its calls. Returns where the script stands then.
fn play_setup(
    alloc: Global,
    header: &Header,
    script: &ScriptParts,
    entries: &mut Vec<Entry>,
) -> Result<Standing, AllocError>
    requires headed { IsHeaderOf script.now header.now }
    requires sound { IsSound script.now }
    requires none { entries.old.items ≡ [] }
    ensures setup { IfOk result (IsSetUp header.now script.now [] entries.new.items) }
    ensures leads { IfOk result (λ start.
        LeadsTo (fixed_of header.now) entries.new.items start.manager.state) }
{
    let setup = script.setup.as_slice();
    let machine = machine_of(alloc, header, script, &[], setup, false)?;
    let mut standing = first_standing(alloc, header, script)?;
    let seats = seats_of(alloc, setup)?;
    match play_all(&machine, entries, &mut standing, seats.as_slice()) {
        Ok(()) => {
            let opened = opened(alloc, header, standing)?;
            Ok(opened)
        }
        Err(NotMade::Memory) => Err(AllocError),
        Err(NotMade::NoStep) => unreachable!(),
    }
}

/// Where a script stands behind its setup, which is made in the order of the script. The calls are recorded on the way,
/// and dropped.
pub fn opening(alloc: Global, header: &Header, script: &ScriptParts) -> Result<Standing, AllocError>
    requires headed { IsHeaderOf script.now header.now }
    requires sound { IsSound script.now }
    ensures { IfOk result (Opens header.now script.now) }
{
    let mut entries = Vec::new(alloc);
    let start = play_setup(alloc, header, script, &mut entries)?;
    Ok(start)
}

/// Makes the steps of a path, and records their calls.
///
/// # Errors
///
/// `NoStep` where a seat isn't there at its turn, or has no step left; `Memory` where memory runs out.
fn play_path(
    alloc: Global,
    header: &Header,
    script: &ScriptParts,
    entries: &mut Vec<Entry>,
    standing: &mut Standing,
    path: &[u32],
) -> Result<(), NotMade>
    requires headed { IsHeaderOf script.now header.now }
    requires sound { IsSound script.now }
    requires leads { LeadsTo (fixed_of header.now) entries.old.items standing.old.manager.state }
    ensures plays { OnOk result
        (Plays (rules_of header.now script.now script.now.steps script.now.steps true) standing.old
        entries.old.items path.now standing.new entries.new.items) }
    ensures leads { OnOk result
        (LeadsTo (fixed_of header.now) entries.new.items standing.new.manager.state) }
    ensures no_step { IfErr result (λ refusal. refusal ≡ NoStep
        → IsStuck (rules_of header.now script.now script.now.steps script.now.steps true)
        standing.old path.now) }
{
    let steps = script.steps.as_slice();
    let machine = machine_of(alloc, header, script, steps, steps, true)?;
    play_all(&machine, entries, standing, path)?;
    Ok(())
}

/// The act that a word line tells, of a step.
fn word_act(act: StepAct) -> Option<Act>
    ensures { result ≡ spec.word_act act }
{
    match act {
        StepAct::OnLock(act) => Some(Act::OnLock(act)),
        StepAct::Hand(hand) => Some(Act::Hand(hand)),
        StepAct::Publish { slot, .. } => Some(Act::OnSlot(SlotAct::Publish { slot })),
        StepAct::Withdraw { slot } => Some(Act::OnSlot(SlotAct::Withdraw { slot })),
        StepAct::Request { slot } => Some(Act::OnSlot(SlotAct::Request { slot })),
        StepAct::Call(Call::FinishTaken { token, .. }) => Some(Act::FinishTaken { slot: token }),
        _ => None,
    }
}

/// The word line of what a seat was told, where a lock or a slot told it. None of what the manager told, and where the
/// step isn't one of these, or is no act on a lock or a slot (this project's own format, docs/FORMATS.md).
pub fn line_of(steps: &[Step], seat: u32, told: Told) -> Option<WordLine>
    ensures { result ≡ spec.line_of steps.now seat told }
{
    let Answered::Word(reply) = told.answer else {
        return None;
    };
    let step = steps.get(told.step as usize)?;
    let act = word_act(step.act)?;
    Some(WordLine {
        seat,
        step: told.step,
        act,
        reply,
    })
}

/// Appends the word lines of what a seat was told.
fn add_words(
    words: &mut Vec<WordLine>,
    steps: &[Step],
    seat: u32,
    told: &[Told],
) -> Result<(), AllocError>
    ensures { OnOk result (words.new.items
        ≡ words.old.items ++ filter_map (spec.line_of steps.now seat) told.now) }
{
    for one in told {
        push_if(words, line_of(steps, seat, *one))?;
    }
    Ok(())
}

/// The word lines of what so many seats were told, by rising seat and then by rising step.
fn words_of(
    alloc: Global,
    steps: &[Step],
    standing: &Standing,
    seats: u32,
) -> Result<Vec<WordLine>, AllocError>
    ensures { IfOk result (λ words.
        words.items ≡ spec.words_below steps.now standing.now.seats seats) }
{
    let mut words = Vec::new(alloc);
    for seat in 0..seats {
        if let Some(own) = standing.seats().get(seat as usize) {
            add_words(&mut words, steps, seat, own.told())?;
        }
    }
    Ok(words)
}

/// The transcript of one order of a script's atomic steps, given by their seats, behind its setup: an entry for each
/// call, together a legal history, and a word line for each act that a lock or a slot answered. The path of an outcome
/// ends as `orders` told (`replays_end_so`).
///
/// # Errors
///
/// `NoStep` where a seat of the path isn't there at its turn, or has no step left; `Memory` where memory runs out, or
/// the setup or the steps of the script are 2^32 or more.
pub fn replay(alloc: Global, script: &Script, path: &[u32]) -> Result<Transcript, NotMade>
    ensures replay { IfOk result (IsReplay script.now path.now) }
    ensures no_step { IfErr result (λ refusal. refusal ≡ NoStep
        → StopsShort script.now path.now) }
{
    let script = script.parts();
    let header = header_of(alloc, script)?;
    let mut entries = Vec::new(alloc);
    let mut standing = play_setup(alloc, &header, script, &mut entries)?;
    play_path(alloc, &header, script, &mut entries, &mut standing, path)?;
    let words = words_of(alloc, script.steps.as_slice(), &standing, header.seats)?;
    let entries = Row::from_vec(entries);
    Ok(Transcript::new(header, entries, Row::from_vec(words)))
}
