//! The word `run`: a script is read and run by workers, and the transcript is written.

ghost use Rattle.std.specs.Prelude.{IfErr, IfOk, ℕ, List, ◌≡◌, ◌≤◌, ◌<◌, position};
ghost use Rattle.irp_types.specs.Limits.{most_slots};
ghost use Rattle.irp_types.specs.State.{Tables};
ghost use Rattle.irp_types.specs.declared.asked.Asked.{Asked};
ghost use Rattle.irp_manager.specs.Seats.{Seated};
ghost use Rattle.irp_shared.specs.Answered.{AnswersSo, EachAnswered};
ghost use Rattle.irp_shared.specs.Closing.{Closes};
ghost use Rattle.irp_transcript.specs.Headers.{slots_of};
ghost use Rattle.irp_transcript.specs.Transcripts.{IsTranscript, TranscriptValue};
ghost use Rattle.irp_script.specs.Between.{hands_between};
ghost use Rattle.irp_script.specs.Numbers.{EachAsOften};
ghost use Rattle.irp_script.specs.Seats.{seats_of};
ghost use Rattle.irp_script.specs.Told.{AnswersAll, IsTold};
ghost use Rattle.irp_script.specs.Ran.{Ran};
ghost use Rattle.irpx.specs.Running.{
  AfterRun,
  AfterScript,
  HoldsScript,
  IsRanBy,
  ShowsSteps,
  IsRun,
  IsRunningFault,
  NoScript,
  and_drivers,
  run_transcript,
  fixed_for,
  most_taken,
  tables_of,
};
ghost use Rattle.irp_steps.specs.Forms.{form_of};
ghost use Rattle.irp_streams.specs.Streams.{Bytes, TakesAtMost, output_of, streams_of};

use crate::not_done::{NotDone, Phase};
use crate::planned::Planned;
use crate::told::{cancel_told, dispatch_told, routine_told};
use crate::writing::write;
use irp_program::TOO_MANY_BYTES;
use irp_routines::{Ask, Store};
use irp_script::{
    AlwaysOpen, RunFault, ScriptSeat, Stop, Worked, hand_between, run_workers, script_seats,
};
use irp_script_reader::{Script, ScriptFault, ScriptForm, ScriptParts, read_script};
use irp_shared::{Seat, Session, Shared, Transcript, TranscriptParts, WordLine, open_with_limit};
use irp_steps::{form_of, table_answer, table_cancel};
use irp_streams::{Out, read_up_to};
use irp_types::{Row, Shown};
use std::alloc::{AllocError, Global};
use std::io::Read;
use std::marker::Brand;
use std::sync::Wait;
use std::sync::ledger::Blank;
use std::thread::Threads;

/// Memory ran out while the script was run.
const NO_MEMORY: NotDone = NotDone::NoMemory(Phase::Running);

/// How many workers run a script, at least one.
#[derive(Clone, Copy)]
struct Workers {
    number: u32,
    ghost some: { 0 < number },
}

/// What a run left: the transcript, and where a worker stopped, if one did.
#[derive(Drop)]
struct Finished {
    transcript: Transcript,
    stop: Option<Stop>,
}

/// The script of the input. The fault where the input can't be read, or is no script.
fn script_of<R: Read>(alloc: Global, input: &mut R) -> Result<Script, NotDone>
    ensures ok { IfOk result (HoldsScript (R.remaining input.old) (R.remaining input.new)) }
    ensures err { IfErr result (NoScript (R.remaining input.old) (R.remaining input.new)) }
    ensures took { TakesAtMost most_taken (R.remaining input.old) (R.remaining input.new) }
{
    let text = read_up_to(alloc, input, TOO_MANY_BYTES)?;
    match read_script(alloc, text.as_slice()) {
        Ok(script) => Ok(script),
        Err(ScriptFault::Refused(refusal)) => Err(NotDone::RefusedScript { refusal }),
        Err(ScriptFault::NoMemory) => Err(NotDone::NoMemory(Phase::Reading)),
    }
}

/// The seats of the manager, of these seats: each once, as it is. They come in some order.
fn seats_of<L: Session>(
    alloc: Global,
    mut pairs: Vec<ScriptSeat<'_, L>>,
) -> Result<Vec<Seat<L>>, AllocError>
    ensures { IfOk result (λ seats. EachAsOften (seats_of pairs.entry.items) seats.items) }
{
    let mut seats = Vec::new(alloc);
    while let Some(pair) = pairs.pop() {
        let (seat, _remove) = pair.into_pair();
        seats.reserve(1)?;
        seats.push_reserved(seat);
    }
    Ok(seats)
}

/// The transcript of a session with the form of the script that was run, and with these word lines, on condition that
/// the form has at most 64 slots. `ReceiptsDiffer` where it has no header.
fn run_transcript(
    transcript: Transcript,
    form: ScriptForm,
    words: Vec<WordLine>,
) -> Result<Transcript, NotDone>
    requires few { slots_of (form_of form) ≤ most_slots }
    ensures made { IfOk result (λ made. made ≡ run_transcript form words.items transcript) }
    ensures accepted { IfOk result IsTranscript }
    ensures err { IfErr result IsRunningFault }
{
    transcript.is_one();
    let TranscriptParts {
        header,
        entries,
        ..
    } = transcript.into_parts();
    let Some(mut header) = header else {
        return Err(NotDone::ReceiptsDiffer);
    };
    header.form = form_of(form);
    let transcript = Transcript::new(header, entries, Row::from_vec(words));
    transcript.is_one();
    Ok(transcript)
}

/// Ends a session whose seats have worked, and gives its transcript, in the form of the script and with the word lines.
/// The form has at most 64 slots.
fn finish<A: Ask + Drop, L: Session>(
    alloc: Global,
    shared: Shared<A, L>,
    worked: Worked<'_, L>,
    form: ScriptForm,
) -> Result<Finished, NotDone>
    requires seats { L.seats ≡ L.parts }
    requires few { slots_of (form_of form) ≤ most_slots }
    ensures err { IfErr result IsRunningFault }
    ensures ok { IfOk result (λ run.
        (seats : List Seated) × EachAsOften (seats_of worked.entry.seats.items) seats
        × (closed : TranscriptValue) × Closes L.fixed L.seats seats closed
        × (run.transcript ≡ run_transcript form worked.entry.words.items closed)
        × IsTranscript run.transcript × (run.stop ≡ worked.entry.stop)
        × EachAnswered L.may closed.entries) }
{
    let stop = worked.stop;
    let words = worked.words;
    let Ok(seats) = seats_of(alloc, worked.seats) else {
        return Err(NO_MEMORY);
    };
    let Ok(transcript) = shared.close(seats) else {
        return Err(NotDone::ReceiptsDiffer);
    };
    let transcript = run_transcript(transcript, form, words)?;
    Ok(Finished { transcript, stop })
}

/// So many workers run the script in a session of its locks, seats and cancel slots. Whoever is asked answers as
/// `L.may` says, and that is as the script tells; the blank and what `L` fixes are the script's.
fn session<A: Ask + Send + Drop, L: Session + Send + Sync, T: Threads + Wait + Sync>(
    rt: &T,
    alloc: Global,
    blank: Blank,
    ask: A,
    script: &ScriptParts,
    workers: u32,
) -> Result<Finished, NotDone>
    requires workers { 0 < workers }
    requires blank { (blank.name ≡ L.name) × (blank.parts ≡ L.parts) }
    requires seats { (L.parts ≡ script.now.seats) × (L.seats ≡ script.now.seats) }
    requires fixed { L.fixed ≡ fixed_for script.now (A.tables ask) }
    requires may { AnswersSo (A.may_plan ask) (A.may_answer ask) (A.may_cancel ask) L.may }
    requires told { (asked : Asked) → ∥ L.may asked ∥₁ → ∥ IsTold script.now asked ∥₁ }
    ensures run { IfOk result (λ run. IsRun script.now (A.tables ask) run.transcript) }
    ensures shows { IfOk result (λ run. ShowsSteps script.now run.transcript run.stop) }
    ensures ran { IfOk result (λ run.
        Ran workers script.now (fixed_for script.now (A.tables ask)) run.transcript run.stop) }
    ensures err { IfErr result IsRunningFault }
{
    let form = form_of(script.form);
    let Ok((shared, seats)) = open_with_limit::<A, L>(
        alloc,
        blank,
        ask,
        script.locks,
        script.seats,
        form.limit(),
    ) else {
        return Err(NO_MEMORY);
    };
    let Ok((locks, removes)) = irp_remove::open(alloc, script.locks, script.seats) else {
        return Err(NO_MEMORY);
    };
    let Ok((slots, owners, cancellers)) = irp_slots::open(alloc, form.slots(), script.seats) else {
        return Err(NO_MEMORY);
    };
    let Ok(pairs) = script_seats(alloc, &locks, &slots, seats, removes, cancellers, owners) else {
        return Err(NO_MEMORY);
    };
    let gate = AlwaysOpen;
    match run_workers(
        rt, alloc, &shared, &locks, &slots, pairs, script, &gate, workers,
    ) {
        Ok(worked) => finish(alloc, shared, worked, script.form),
        Err(RunFault::Memory) => Err(NO_MEMORY),
        Err(RunFault::LabelsDiffer { label }) => Err(NotDone::LabelsDiffer { label }),
    }
}

/// Writes the transcript that a run left. `Stopped` where it is written, but a worker stopped.
fn write_finished<O: Out>(alloc: Global, output: &mut O, run: &Finished) -> Result<(), NotDone>
    ensures { (workers : ℕ) → (script : Script) → (tables : Tables)
        → IsRanBy workers script tables run.now.transcript run.now.stop
        → AfterScript workers script tables (output_of (O.gone output.old) (O.failures output.old))
        (output_of (O.gone output.new) (O.failures output.new)) result }
{
    write(alloc, output, &run.transcript)?;
    match run.stop {
        Some(stop) => Err(NotDone::Stopped { stop }),
        None => Ok(()),
    }
}

/// Has so many workers run the script with a store that has all its closures, which answer as it tells, and writes the
/// transcript. The script's drivers are added here.
fn run_with_store<O: Out, T: Threads + Wait + Sync>(
    rt: &T,
    alloc: Global,
    output: &mut O,
    script: &ScriptParts,
    workers: Workers,
    mut store: Store,
) -> Result<(), NotDone>
    requires { AnswersAll store script.now }
    ensures { AfterScript workers.number script.now (and_drivers script.now.drivers store.tables)
        (output_of (O.gone output.old) (O.failures output.old))
        (output_of (O.gone output.new) (O.failures output.new)) result }
{
    let drivers = script.drivers.as_slice();
    for driver in drivers {
        let Ok(handlers) = driver.as_slice().to_vec(alloc) else {
            return Err(NO_MEMORY);
        };
        let Ok(_driver) = store.add_driver(handlers) else {
            return Err(NO_MEMORY);
        };
    }
    let blank = Blank::new(u64::from(script.seats));
    let run = session::<Store, Brand, T>(rt, alloc, blank, store, script, workers.number)?;
    write_finished(alloc, output, &run)
}

/// Has so many workers run the script with a store that behaves as it says, and writes the transcript. All closures are
/// made here, since no function hands out what it makes of them.
fn run_script<O: Out, T: Threads + Wait + Sync>(
    rt: &T,
    alloc: Global,
    output: &mut O,
    script: &Script,
    workers: Workers,
) -> Result<(), NotDone>
    ensures { AfterScript workers.number script.now (tables_of script.now)
        (output_of (O.gone output.old) (O.failures output.old))
        (output_of (O.gone output.new) (O.failures output.new)) result }
{
    let parts = script.parts();
    let mut store = Store::new(alloc);
    let routines = parts.completions.as_slice();
    for routine in routines {
        let routine = *routine;
        let Ok(answer) = Box::new(alloc, move |shown: Shown| table_answer(routine, shown)) else {
            return Err(NO_MEMORY);
        };
        let Ok(_routine) = store.add(routine_told(routine, answer)) else {
            return Err(NO_MEMORY);
        };
    }
    let answers = parts.cancels.as_slice();
    for answer in answers {
        let answer = *answer;
        let Ok(answered) = Box::new(alloc, move |shown: Shown| table_cancel(answer, shown)) else {
            return Err(NO_MEMORY);
        };
        let Ok(_cancel) = store.add_cancel(cancel_told(answer, answered)) else {
            return Err(NO_MEMORY);
        };
    }
    let known = store.tables().counts();
    let plans = parts.dispatches.as_slice();
    for plan in plans {
        let plan = *plan;
        let planned = Planned { known, plan };
        let Ok(answer) = Box::new(alloc, move |shown: Shown| planned.answer(shown)) else {
            return Err(NO_MEMORY);
        };
        let Ok(_dispatch) = store.add_dispatch(dispatch_told(known, plan, answer)) else {
            return Err(NO_MEMORY);
        };
    }
    run_with_store(rt, alloc, output, parts, workers, store)
}

/// The first step of the script that hands a reference between seats that fall to different of so many workers.
fn first_hand(script: &Script, workers: u32) -> Option<usize>
    requires { 0 < workers }
    ensures { result ≡ position (hands_between workers) script.now.steps }
{
    hand_between(script.parts(), workers)
}

/// Has so many workers run the script that was read, unless it hands a reference between them.
fn run_read<O: Out, T: Threads + Wait + Sync>(
    rt: &T,
    alloc: Global,
    output: &mut O,
    script: &Script,
    workers: u32,
) -> Result<(), NotDone>
    requires { 0 < workers }
    // What is said of the script is so of every input that holds it.
    ensures { (input left : Bytes) → HoldsScript input left script.now
        → AfterRun workers
        (streams_of input (O.gone output.old) (O.failures output.old))
        (streams_of left (O.gone output.new) (O.failures output.new)) result }
{
    if let Some(step) = first_hand(script, workers) {
        return Err(NotDone::HandsBetween { step });
    }
    run_script(rt, alloc, output, script, Workers { number: workers })
}

/// Reads a script from the input, up to its end or to one byte more than a script may have, has so many workers run its
/// steps, and writes the transcript (this project's own command line, README.md). The closures behave as the script
/// says.
///
/// The text of the script is what was left of the input, or its first 1,048,577 bytes; this is taken of it, and no
/// more. At most so much is taken where reading fails.
///
/// # Errors
///
/// Where there is no script: `Input` where the input failed, `RefusedScript` where its text is none, `NoMemory` of
/// `Reading`. `HandsBetween` where there is one that hands a reference between seats of different workers: the first
/// such step. Where there is no transcript: `NoMemory` of `Running`, `ReceiptsDiffer` where the seats kept other entries
/// than the history has, or `LabelsDiffer` where a step read a label for another packet than it was bound to. After any of these nothing goes out. `Stopped` where a worker stopped, with where and
/// why, and then what was recorded is written. After a beginning of the transcript: `Output` where the output failed,
/// which its count of failures tells; `NoMemory` of `Writing`.
pub fn run<R: Read, O: Out, T: Threads + Wait + Sync>(
    rt: &T,
    alloc: Global,
    input: &mut R,
    output: &mut O,
    workers: u32,
) -> Result<(), NotDone>
    requires { 0 < workers }
    ensures after { AfterRun workers
        (streams_of (R.remaining input.old) (O.gone output.old) (O.failures output.old))
        (streams_of (R.remaining input.new) (O.gone output.new) (O.failures output.new)) result }
    ensures took { TakesAtMost most_taken (R.remaining input.old) (R.remaining input.new) }
{
    let script = script_of(alloc, input)?;
    run_read(rt, alloc, output, &script, workers)
}
