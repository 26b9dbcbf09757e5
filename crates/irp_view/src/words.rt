//! What the command line asks for.

ghost use Rattle.std.specs.Prelude.{◌≡◌, ◌⊎◌, Err, IfErr, IfOk, List, None, Some, codes, map, option_map, ℕ};
ghost use Rattle.clap.specs.Matches.{subcommand_name_of};
ghost use Rattle.clap.specs.Simple.{subcommand_rows_of};
ghost use Rattle.clap.specs.Values.{kind_of};
ghost use Rattle.clap.specs.Words.{Row, app_of, fault_of, first_of, subcommand_of};
ghost use Rattle.clap.specs.declared.error.kind.ErrorKind.TheVariants.{OutOfMemory};
ghost use Rattle.irp_program.specs.declared.words.Unasked.TheVariants.{NoMemory, Usage};
ghost use Rattle.irp_command_line.specs.CommandLine.{IsLine, IsOption, rows_in, text_in};
ghost use Rattle.irp_view.specs.CommandLine.{
  Asks,
  AsksForOrMemory,
  FaultedBy,
  IsNeededUse,
  IsReading,
  IsSpanOf,
  ListsAll,
  ListsOne,
  OrUsage,
  Reads,
  command_line,
  entries_option,
  needed_word,
  packet_line,
  story_line,
  text_line,
};

use crate::orders::{Asked, Order, Span, Task};
use crate::spans::{span_in, use_in};
use clap::error::ErrorKind;
use clap::{Arg, ArgAction, ArgMatches, Command, Error};
use irp_command_line::file_command;
use irp_program::Unasked;
use irp_types::IrpRef;
use std::alloc::{AllocError, Global};
use std::convert::AsStr;

/// The span of entries.
fn entries<'a>(alloc: Global) -> Arg<'a>
    ensures { IsOption entries_option result }
{
    Arg::new(alloc, "entries")
        .long("entries")
        .action(ArgAction::Set)
}

/// A word of this name that has to be there.
fn needed<'a>(alloc: Global, name: &'a str) -> Arg<'a>
    ensures { IsOption (needed_word name.now) result }
{
    Arg::new(alloc, name).required(true)
}

/// The subcommand `text`.
fn text<'a>(alloc: Global) -> Result<Command<'a>, AllocError>
    ensures { IfOk result (IsLine text_line) }
{
    file_command(alloc, "text")?.arg(entries(alloc))
}

/// The subcommand `packet`.
fn packet<'a>(alloc: Global) -> Result<Command<'a>, AllocError>
    ensures { IfOk result (IsLine packet_line) }
{
    let command = Command::new(alloc, "packet").arg(needed(alloc, "slot"))?;
    let command = command.arg(needed(alloc, "use"))?;
    let command = command.arg(Arg::new(alloc, "file"))?;
    command.arg(entries(alloc))
}

/// The subcommand `story`.
fn story<'a>(alloc: Global) -> Result<Command<'a>, AllocError>
    ensures { IfOk result (IsLine story_line) }
{
    file_command(alloc, "story")
}

/// The command line that the program takes.
fn command<'a>(alloc: Global) -> Result<Command<'a>, AllocError>
    ensures { IfOk result (λ command. app_of command ≡ command_line) }
{
    let why = file_command(alloc, "why")?;
    let text = text(alloc)?;
    let packet = packet(alloc)?;
    let story = story(alloc)?;
    let command = Command::new(alloc, "irp_view").subcommand_required(true);
    let command = command.subcommand(why)?;
    let command = command.subcommand(text)?;
    let command = command.subcommand(packet)?;
    command.subcommand(story)
}

/// The span that a text names, if there is a text.
fn span_named(text: Option<&str>) -> Result<Option<Span>, Unasked>
    ensures { OrUsage (IsSpanOf (text_in text.entry)) result }
{
    let Some(text) = text else {
        return Ok(None);
    };
    match span_in(text) {
        Some(span) => Ok(Some(span)),
        None => Err(Unasked::Usage),
    }
}

/// The span that the matches name, if they name one.
fn span_of(matches: &ArgMatches<'_>) -> Result<Option<Span>, Unasked>
    ensures { OrUsage (IsSpanOf (first_of (codes "entries") (rows_in matches.now))) result }
{
    span_named(matches.get_str("entries"))
}

/// The use of a packet that two texts name.
fn use_named(slot: Option<&str>, use_no: Option<&str>) -> Result<IrpRef, Unasked>
    ensures { OrUsage (IsNeededUse (text_in slot.entry) (text_in use_no.entry)) result }
{
    let (Some(slot), Some(use_no)) = (slot, use_no) else {
        return Err(Unasked::Usage);
    };
    match use_in(slot, use_no) {
        Some(irp) => Ok(irp),
        None => Err(Unasked::Usage),
    }
}

/// The use of a packet that the words of `packet` name.
fn use_of(matches: &ArgMatches<'_>) -> Result<IrpRef, Unasked>
    ensures { OrUsage (IsNeededUse (first_of (codes "slot") (rows_in matches.now))
        (first_of (codes "use") (rows_in matches.now))) result }
{
    use_named(matches.get_str("slot"), matches.get_str("use"))
}

/// The list of all entries, or of a span of them.
fn list_all(matches: &ArgMatches<'_>) -> Result<Task, Unasked>
    ensures { OrUsage (ListsAll (rows_in matches.now)) result }
{
    match span_of(matches) {
        Ok(span) => Ok(Task::List { only: None, span }),
        Err(unasked) => Err(unasked),
    }
}

/// The list of one packet's entries.
fn list_one(matches: &ArgMatches<'_>) -> Result<Task, Unasked>
    ensures { OrUsage (ListsOne (rows_in matches.now)) result }
{
    match (use_of(matches), span_of(matches)) {
        (Ok(irp), Ok(span)) => Ok(Task::List {
            only: Some(irp),
            span,
        }),
        (Err(unasked), _) | (_, Err(unasked)) => Err(unasked),
    }
}

/// A transcript is read for this, from the file that the matches name, if they name one.
fn reading_of<'a>(
    matches: &ArgMatches<'a>,
    task: Result<Task, Unasked>,
) -> Result<Asked<'a>, Unasked>
    ensures { IsReading (rows_in matches.now) task result }
{
    match task {
        Ok(task) => Ok(Asked {
            order: Order::Read(task),
            file: matches.get_str("file"),
        }),
        Err(unasked) => Err(unasked),
    }
}

/// What the subcommand of this name asks for.
fn task_of(name: &str, matches: &ArgMatches<'_>) -> Result<Task, Unasked>
    ensures asks { Asks name.now (rows_in matches.now) result }
    ensures usage { IfErr result (λ fault. fault ≡ Usage) }
{
    match name {
        "why" => Ok(Task::Why),
        "text" => list_all(matches),
        "packet" => list_one(matches),
        "story" => Ok(Task::Story),
        _ => Err(Unasked::Usage),
    }
}

/// What clap's matches ask for.
fn asked_of<'a>(matches: &ArgMatches<'a>) -> Result<Asked<'a>, Unasked>
    ensures reads { (name : List ℕ) (rows : List Row) → subcommand_name_of matches.now ≡ Some name
        → option_map (λ found. found.1) (subcommand_rows_of matches.now) ≡ Some rows
        → Reads name rows result }
    ensures none { subcommand_name_of matches.now ≡ None → result ≡ Err Usage }
{
    let Some((name, inner)) = matches.subcommand() else {
        return Err(Unasked::Usage);
    };
    reading_of(inner, task_of(name, inner))
}

/// What words that clap doesn't match ask for.
fn asked_by<'a>(error: &Error) -> Result<Asked<'a>, Unasked>
    ensures memory { kind_of error.now ≡ OutOfMemory → result ≡ Err NoMemory }
    ensures faulted { (result ≡ Err NoMemory) ⊎ FaultedBy (kind_of error.now) result }
{
    match error.kind() {
        ErrorKind::DisplayHelp => Ok(Asked {
            order: Order::Help,
            file: None,
        }),
        ErrorKind::OutOfMemory => Err(Unasked::NoMemory),
        _ => Err(Unasked::Usage),
    }
}

/// What the words ask for; the first is the program's name (this project's own command line).
///
/// # Errors
///
/// `Usage` for words that the program doesn't take; `NoMemory` where memory ran out.
pub fn asked<'a, S: AsStr>(alloc: Global, words: &'a [S]) -> Result<Asked<'a>, Unasked>
    ensures { AsksForOrMemory (fault_of command_line (map S.text words.entry.now))
        (subcommand_of command_line (map S.text words.entry.now)) result }
{
    let Ok(command) = command(alloc) else {
        return Err(Unasked::NoMemory);
    };
    match command.try_get_matches_from(words) {
        Ok(matches) => asked_of(&matches),
        Err(error) => asked_by(&error),
    }
}
