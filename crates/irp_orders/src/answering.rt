//! Telling what is asked of the orders of a script.

ghost use Rattle.std.specs.Prelude.{◌≡◌, ◌⊎◌, ◌<◌, ◌-◌, IfErr, IfOk, Some, length, slice_get};
ghost use Rattle.irp_orders.specs.Exploring.{IsUnexplored};
ghost use Rattle.irp_orders.specs.Rows.{AreRowsOf};
ghost use Rattle.irp_orders.specs.declared.ending.Ending.TheVariants.{NoOutcome};
ghost use Rattle.irp_orders.specs.Judging.{IsTold};
ghost use Rattle.irp_orders.specs.Program.{
  Answers,
  Examines,
  Explores,
  IsAnswered,
  IsGivenUp,
  IsRefused,
  IsSent,
  IsShown,
  IsTableOf,
  IsUnjudged,
  IsUnsaid,
  IsUnshown,
  Judges,
  Sends,
  Shows,
  Tables,
  TellsHolding,
  TellsNever,
  TellsRight,
  Utters,
  Writes,
};

use crate::asked::{Order, Task};
use crate::columns::Columns;
use crate::conditions::condition_of;
use crate::ending::Ending;
use crate::examining::explore_and_examine;
use crate::exploring::founds_of;
use crate::found::Found;
use crate::groups::groups_of;
use crate::judging::{Question, answered};
use crate::table::table;
use irp_machine::{paths_can_be_made, replay, replays_end_so};
use irp_program::TOO_MANY_BYTES;
use irp_script_reader::{Script, read_script};
use irp_streams::{Out, read_up_to, send};
use irp_transcript::Transcript;
use irp_transcript_writer::{Cause, write_transcript};
use std::alloc::Global;
use std::io::Read;

/// Whether a condition holds in some order: the text that tells it, and how the program ends then.
///
/// # Errors
///
/// `RefusedCondition` where the text says no condition; `NoMemory` where memory ran out; `NoOrder` where the order of
/// an outcome can't be made again.
#[tactic(auto, using(crate::proofs::Showing::unmade_unjudged))]
fn judge(
    alloc: Global,
    script: &Script,
    founds: &[Found],
    knows_replies: bool,
    text: &str,
) -> Result<(Vec<u8>, Ending), Ending>
    ensures told { IfOk result (λ told.
        IsTold script.now knows_replies text.now founds.now told.1) }
    ensures tells { IfOk result (λ told.
        TellsHolding script.now knows_replies text.now founds.now told.0.items told.1) }
    ensures unjudged { IfErr result (IsUnjudged script.now knows_replies text.now founds.now) }
{
    let condition = condition_of(alloc, script, knows_replies, text)?;
    match answered(alloc, script, founds, Question::Never(&condition)) {
        Ok(told) => Ok(told),
        Err(refusal) => Err(Ending::from(refusal)),
    }
}

/// The same of the outcomes of a script's orders.
///
/// # Errors
///
/// Those of `judge` but `NoOrder`, and `Met` where a bound is met.
fn explore_and_judge(
    alloc: Global,
    script: &Script,
    order: &Order<'_>,
    text: &str,
) -> Result<(Vec<u8>, Ending), Ending>
    ensures told { IfOk result (λ told. Judges script.now order.now text.now told.1) }
    ensures tells { IfOk result (λ told.
        TellsNever script.now order.now text.now told.0.items told.1) }
    ensures untold { IfErr result (Judges script.now order.now text.now) }
    ensures unsaid { IfErr result IsUnsaid }
{
    paths_can_be_made();
    match founds_of(alloc, script, order) {
        Ok(founds) => judge(alloc, script, founds.as_slice(), !order.by_ends, text),
        Err(ending) => Err(ending),
    }
}

/// Sends a text; then the program ends so.
pub fn send_text<O: Out>(output: &mut O, text: &[u8], ending: Ending) -> Ending
    ensures ends { IsSent ending result }
    ensures sends { Sends text.now ending (O.gone output.old) (O.gone output.new) result }
{
    match send(output, text) {
        Ok(()) => ending,
        Err(fault) => Ending::from(fault),
    }
}

/// Tells whether a condition holds in some order of a script, and how the program ends.
fn never<O: Out>(
    alloc: Global,
    output: &mut O,
    script: &Script,
    order: &Order<'_>,
    text: &str,
) -> Ending
    ensures ends { Judges script.now order.now text.now result }
    ensures utters { Utters (TellsNever script.now order.now text.now) (O.gone output.old)
        (O.gone output.new) result }
{
    match explore_and_judge(alloc, script, order, text) {
        Ok((text, ending)) => send_text(output, text.as_slice(), ending),
        Err(ending) => ending,
    }
}

/// Tells whether every order of a script ends right, and how the program ends.
fn examine<O: Out>(alloc: Global, output: &mut O, script: &Script, order: &Order<'_>) -> Ending
    ensures ends { Examines script.now order.now result }
    ensures utters { Utters (TellsRight script.now) (O.gone output.old) (O.gone output.new) result }
{
    match explore_and_examine(alloc, script, order) {
        Ok((text, ending)) => send_text(output, text.as_slice(), ending),
        Err(ending) => ending,
    }
}

/// The rows of the table: the outcomes of a script's orders, or groups of them.
///
/// # Errors
///
/// `Met` where a bound is met; `NoMemory` where memory ran out.
fn rows_of(alloc: Global, script: &Script, order: &Order<'_>) -> Result<Vec<Found>, Ending>
    ensures rows { IfOk result (λ rows. AreRowsOf script.now order.now rows.items) }
    ensures met { IfErr result (IsUnexplored script.now order.now) }
{
    let founds = founds_of(alloc, script, order)?;
    if order.in_groups {
        return Ok(groups_of(alloc, founds)?);
    }
    Ok(founds)
}

/// The text of the table of the outcomes.
///
/// # Errors
///
/// Those of `rows_of`.
fn table_of(alloc: Global, script: &Script, order: &Order<'_>) -> Result<Vec<u8>, Ending>
    ensures told { IfOk result (λ text. IsTableOf script.now order.now text.items) }
    ensures untold { IfErr result (IsUnexplored script.now order.now) }
{
    let rows = rows_of(alloc, script, order)?;
    let columns = Columns::of(alloc, script, rows.as_slice())?;
    paths_can_be_made();
    Ok(table(alloc, &columns, rows.as_slice())?.into_bytes())
}

/// Writes the table of the outcomes.
fn tell<O: Out>(alloc: Global, output: &mut O, script: &Script, order: &Order<'_>) -> Ending
    ensures { Tables script.now order.now (O.gone output.old) (O.gone output.new) result }
{
    match table_of(alloc, script, order) {
        Ok(text) => send_text(output, text.as_slice(), Ending::Done),
        Err(ending) => ending,
    }
}

/// Writes a transcript.
fn write<O: Out>(alloc: Global, output: &mut O, transcript: &Transcript) -> Ending
    ensures { Writes transcript.now (O.gone output.old) (O.gone output.new) result }
{
    match write_transcript(alloc, output, transcript) {
        Ok(()) => Ending::Done,
        Err(fault) => match fault.cause {
            Cause::Io => Ending::Failed,
            Cause::Memory => Ending::NoMemory,
        },
    }
}

/// The row of a number, counted from 1.
///
/// # Errors
///
/// `NoOutcome`, with the number of rows, where there is none.
fn row_at(rows: &[Found], number: u64) -> Result<&Found, Ending>
    ensures row { IfOk result (λ row. (0 < number)
        × (slice_get rows.now (number - 1) ≡ Some row.now)) }
    ensures none { IfErr result (λ ending. (ending ≡ NoOutcome (length rows.now))
        × ((number ≡ 0) ⊎ (length rows.now < number))) }
{
    let count = rows.len() as u64;
    if number < 1 || number > count {
        return Err(Ending::NoOutcome(count));
    }
    Ok(&rows[(number - 1) as usize])
}

/// The transcript that leads to the outcome of the row of a number, counted from 1.
///
/// # Errors
///
/// `NoOutcome`, with the number of rows, where there is none; those of `rows_of`.
fn shown(
    alloc: Global,
    script: &Script,
    order: &Order<'_>,
    number: u64,
) -> Result<Transcript, Ending>
    ensures shown { IfOk result (IsShown script.now order.now number) }
    ensures unshown { IfErr result (IsUnshown script.now order.now number) }
{
    let rows = rows_of(alloc, script, order)?;
    let row = row_at(rows.as_slice(), number)?;
    paths_can_be_made();
    replays_end_so();
    Ok(replay(alloc, script, row.outcome.path.as_slice())?)
}

/// Writes a transcript that leads to the outcome of the row of this number, counted from 1.
fn show<O: Out>(
    alloc: Global,
    output: &mut O,
    script: &Script,
    order: &Order<'_>,
    number: u64,
) -> Ending
    ensures { Shows script.now order.now number (O.gone output.old) (O.gone output.new) result }
{
    match shown(alloc, script, order, number) {
        Ok(transcript) => write(alloc, output, &transcript),
        Err(ending) => ending,
    }
}

/// Tells what is asked of the orders of a script.
pub fn answer<O: Out>(alloc: Global, output: &mut O, script: &Script, order: &Order<'_>) -> Ending
    ensures { Answers script.now order.now order.now.task (O.gone output.old)
        (O.gone output.new) result }
{
    match order.task {
        Task::Show(number) => show(alloc, output, script, order, number),
        Task::Table => tell(alloc, output, script, order),
        Task::Never(text) => never(alloc, output, script, order, text),
        Task::Right => examine(alloc, output, script, order),
    }
}

/// Tells what is asked of the orders of the script that a text is.
fn read_and_answer<O: Out>(alloc: Global, output: &mut O, order: &Order<'_>, text: &[u8]) -> Ending
    ensures { IsGivenUp result ⊎ (IsRefused text.now result
        ⊎ IsAnswered order.now text.now (O.gone output.old) (O.gone output.new) result) }
{
    match read_script(alloc, text) {
        Ok(script) => answer(alloc, output, &script, order),
        Err(fault) => Ending::from(fault),
    }
}

/// Reads a script from the input, up to its end or to one byte more than a script may have, explores the orders of its
/// steps, and tells what is asked (this project's own command line). Returns how the program ends.
pub fn explore<R: Read, O: Out>(
    alloc: Global,
    input: &mut R,
    output: &mut O,
    order: &Order<'_>,
) -> Ending
    ensures { Explores order.now (R.remaining input.old) (R.remaining input.new)
        (O.gone output.old) (O.gone output.new) result }
{
    match read_up_to(alloc, input, TOO_MANY_BYTES) {
        Ok(text) => read_and_answer(alloc, output, order, text.as_slice()),
        Err(fault) => Ending::from(fault),
    }
}
