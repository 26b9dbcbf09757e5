//! What the command line asks for.

ghost use Rattle.std.specs.Prelude.{◌≡◌, ◌≢◌, ◌⊎◌, Err, IfErr, IfOk, codes, false, map, true};
ghost use Rattle.clap.specs.Values.{kind_of};
ghost use Rattle.clap.specs.Words.{app_of, fault_of, first_of, matches_of};
ghost use Rattle.irp_command_line.specs.CommandLine.{IsOption, SaysFlag, rows_in, text_in};
ghost use Rattle.irp_orders.specs.CommandLine.{
  AsksBoth,
  AsksForOrMemory,
  AsksTask,
  FaultedBy,
  Makes,
  MakesNone,
  MakesTask,
  SaysNumber,
  SaysNumberOr,
  command_line,
  number_option,
  text_option,
};

use crate::asked::{Asked, Order, Task};
use crate::ending::Ending;
use clap::error::ErrorKind;
use clap::{Arg, ArgAction, ArgMatches, Command, Error, value_parser};
use irp_command_line::{flag, is_set};
use std::alloc::{AllocError, Global};
use std::convert::AsStr;

/// How many states there may be where the words don't say.
const MOST_STATES: usize = 500_000;

/// How many outcomes there may be where the words don't say.
const MOST_OUTCOMES: usize = 20_000;

/// A word with a number behind it, as `--states 1000`.
fn number<'a>(alloc: Global, name: &'a str) -> Arg<'a>
    ensures { IsOption (number_option name.entry.now) result }
{
    Arg::new(alloc, name)
        .long(name)
        .value_parser(value_parser!(u64))
}

/// The text of `--never`.
fn never<'a>(alloc: Global) -> Arg<'a>
    ensures { IsOption (text_option (codes "never")) result }
{
    Arg::new(alloc, "never")
        .long("never")
        .action(ArgAction::Set)
}

/// The command line that the program takes.
fn command<'a>(alloc: Global) -> Result<Command<'a>, AllocError>
    ensures { IfOk result (λ command. app_of command ≡ command_line) }
{
    let command = Command::new(alloc, "irp_orders").arg(Arg::new(alloc, "file"))?;
    let command = command.arg(flag(alloc, "ends"))?;
    let command = command.arg(flag(alloc, "groups"))?;
    let command = command.arg(flag(alloc, "right"))?;
    let command = command.arg(number(alloc, "states"))?;
    let command = command.arg(number(alloc, "outcomes"))?;
    let command = command.arg(number(alloc, "show"))?;
    command.arg(never(alloc))
}

/// The number behind a word, where the word is among the words.
fn number_behind(matches: &ArgMatches<'_>, name: &str) -> Option<u64>
    ensures { SaysNumber (rows_in matches.now) name.now result }
{
    matches.get_one::<u64>(name)
}

/// The text behind a word, where the word is among the words.
fn text_behind<'a>(matches: &ArgMatches<'a>, name: &str) -> Option<&'a str>
    ensures { text_in result ≡ first_of name.now (rows_in matches.now) }
{
    matches.get_str(name)
}

/// What is to be told beside the table: one thing at most.
fn task_of<'a>(matches: &ArgMatches<'a>) -> Result<Task<'a>, Ending>
    ensures task { IfOk result (AsksTask (rows_in matches.now)) }
    ensures both { IfErr result (λ ending.
        (ending ≡ Ending.OtherWords) × AsksBoth (rows_in matches.now)) }
{
    match (
        number_behind(matches, "show"),
        text_behind(matches, "never"),
    ) {
        (None, None) => Ok(Task::Table),
        (Some(number), None) => Ok(Task::Show(number)),
        (None, Some(text)) => Ok(Task::Never(text)),
        (Some(_), Some(_)) => Err(Ending::OtherWords),
    }
}

/// What is to be told where the words ask whether every order is right: that alone.
fn right_of<'a>(task: Task<'a>, by_ends: bool) -> Result<Task<'a>, Ending>
    ensures alone { IfOk result (λ right.
        ((task.entry ≡ Task.Table) × (by_ends ≡ false)) × (right ≡ Task.Right)) }
    ensures beside { IfErr result (λ ending. (ending ≡ Ending.NotBesideRight)
        × ((task.entry ≢ Task.Table) ⊎ (by_ends ≡ true))) }
{
    match task {
        Task::Table if !by_ends => Ok(Task::Right),
        _ => Err(Ending::NotBesideRight),
    }
}

/// What is to be told, with `--right` or without it.
fn asked_task<'a>(
    matches: &ArgMatches<'a>,
    is_right: bool,
    by_ends: bool,
) -> Result<Task<'a>, Ending>
    requires right { SaysFlag (rows_in matches.now) (codes "right") is_right }
    requires ends { SaysFlag (rows_in matches.now) (codes "ends") by_ends }
    ensures task { IfOk result (MakesTask (rows_in matches.now) is_right by_ends) }
    ensures none { IfErr result (MakesNone (rows_in matches.now)) }
{
    let task = task_of(matches)?;
    if is_right {
        return right_of(task, by_ends);
    }
    Ok(task)
}

/// The number behind a word, or this one where the word isn't there.
fn number_of(matches: &ArgMatches<'_>, name: &str, missing: usize) -> usize
    ensures { SaysNumberOr (rows_in matches.now) name.now missing result }
{
    match number_behind(matches, name) {
        Some(number) => number as usize,
        None => missing,
    }
}

/// What clap's matches ask for.
fn asked_of<'a>(matches: &ArgMatches<'a>) -> Result<Asked<'a>, Ending>
    ensures { Makes (rows_in matches.now) result }
{
    let by_ends = is_set(matches, "ends");
    let is_right = is_set(matches, "right");
    let order = Order {
        task: asked_task(matches, is_right, by_ends)?,
        by_ends,
        in_groups: is_set(matches, "groups"),
        states: number_of(matches, "states", MOST_STATES),
        outcomes: number_of(matches, "outcomes", MOST_OUTCOMES),
    };
    Ok(Asked::Explore {
        order,
        file: text_behind(matches, "file"),
    })
}

/// What words that clap doesn't match ask for.
fn asked_by<'a>(error: &Error) -> Result<Asked<'a>, Ending>
    ensures memory { kind_of error.now ≡ ErrorKind.OutOfMemory → result ≡ Err Ending.NoMemory }
    ensures faulted { (result ≡ Err Ending.NoMemory) ⊎ FaultedBy (kind_of error.now) result }
{
    match error.kind() {
        ErrorKind::DisplayHelp => Ok(Asked::Help),
        ErrorKind::OutOfMemory => Err(Ending::NoMemory),
        _ => Err(Ending::OtherWords),
    }
}

/// What the words ask for; the first is the program's name (this project's own command line).
///
/// # Errors
///
/// `OtherWords` for words that the program doesn't take, `NotBesideRight` for `--right` beside `--show`, `--never` or
/// `--ends`; `NoMemory` where memory ran out.
pub fn asked<'a, S: AsStr>(alloc: Global, words: &'a [S]) -> Result<Asked<'a>, Ending>
    ensures { AsksForOrMemory (fault_of command_line (map S.text words.entry.now))
        (matches_of command_line (map S.text words.entry.now)) result }
{
    let Ok(command) = command(alloc) else {
        return Err(Ending::NoMemory);
    };
    match command.try_get_matches_from(words) {
        Ok(matches) => asked_of(&matches),
        Err(error) => asked_by(&error),
    }
}
