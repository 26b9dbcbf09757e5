//! What the command line asks for.

ghost use Rattle.std.specs.Prelude.{◌≡◌, ◌⊎◌, Err, IfErr, IfOk, List, None, Some, codes, map, option_map, ℕ};
ghost use Rattle.clap.specs.Matches.{subcommand_name_of};
ghost use Rattle.clap.specs.Simple.{new_app, subcommand_rows_of};
ghost use Rattle.clap.specs.Values.{kind_of};
ghost use Rattle.clap.specs.Words.{Row, app_of, fault_of, subcommand_of};
ghost use Rattle.clap.specs.declared.error.kind.ErrorKind.TheVariants.{OutOfMemory};
ghost use Rattle.irp_program.specs.declared.words.Unasked.TheVariants.{NoMemory, Usage};
ghost use Rattle.irp_command_line.specs.CommandLine.{IsLine, rows_in, text_in};
ghost use Rattle.irp_words.specs.CommandLine.{
  Asks,
  AsksForOrMemory,
  FaultedBy,
  IsOther,
  Orders,
  command_line,
  faults_line,
  file_for,
};

use crate::orders::{Asked, Order, Task};
use clap::error::ErrorKind;
use clap::{ArgMatches, Command, Error};
use irp_command_line::{file_command, flag, is_set};
use irp_program::Unasked;
use std::alloc::{AllocError, Global};
use std::convert::AsStr;

/// The subcommand `tables`.
fn tables<'a>(alloc: Global) -> Command<'a>
    ensures { IsLine (new_app (codes "tables")) result }
{
    Command::new(alloc, "tables")
}

/// The subcommand `faults`.
fn faults<'a>(alloc: Global) -> Result<Command<'a>, AllocError>
    ensures { IfOk result (IsLine faults_line) }
{
    file_command(alloc, "faults")?.arg(flag(alloc, "strict"))
}

/// The command line that the program takes.
fn command<'a>(alloc: Global) -> Result<Command<'a>, AllocError>
    ensures { IfOk result (λ command. app_of command ≡ command_line) }
{
    let json = file_command(alloc, "json")?;
    let words = file_command(alloc, "words")?;
    let faults = faults(alloc)?;
    let command = Command::new(alloc, "irp_words").subcommand_required(true);
    let command = command.subcommand(json)?;
    let command = command.subcommand(words)?;
    let command = command.subcommand(tables(alloc))?;
    command.subcommand(faults)
}

/// What the subcommand of this name asks for.
fn order_of(name: &str, matches: &ArgMatches<'_>) -> Result<Order, Unasked>
    ensures orders { IfOk result (Orders name.now (rows_in matches.now)) }
    ensures other { IfErr result (λ fault. (fault ≡ Usage) × IsOther name.now) }
{
    match name {
        "json" => Ok(Order::Read(Task::Json)),
        "words" => Ok(Order::Read(Task::Words)),
        "faults" => Ok(Order::Read(Task::Faults {
            strict: is_set(matches, "strict"),
        })),
        "tables" => Ok(Order::Tables),
        _ => Err(Unasked::Usage),
    }
}

/// The file that the matches name, where a text is read.
fn file_of<'a>(matches: &ArgMatches<'a>, order: Order) -> Option<&'a str>
    ensures { text_in result ≡ file_for order (rows_in matches.now) }
{
    match order {
        Order::Read(_) => matches.get_str("file"),
        Order::Help | Order::Tables => None,
    }
}

/// What the subcommand of this name asks for, and the file.
fn asked_with<'a>(name: &str, matches: &ArgMatches<'a>) -> Result<Asked<'a>, Unasked>
    ensures { Asks name.now (rows_in matches.now) result }
{
    match order_of(name, matches) {
        Ok(order) => Ok(Asked {
            order,
            file: file_of(matches, order),
        }),
        Err(unasked) => Err(unasked),
    }
}

/// What clap's matches ask for.
fn asked_of<'a>(matches: &ArgMatches<'a>) -> Result<Asked<'a>, Unasked>
    ensures asks { (name : List ℕ) (rows : List Row) → subcommand_name_of matches.now ≡ Some name
        → option_map (λ found. found.1) (subcommand_rows_of matches.now) ≡ Some rows
        → Asks name rows result }
    ensures none { subcommand_name_of matches.now ≡ None → result ≡ Err Usage }
{
    let Some((name, inner)) = matches.subcommand() else {
        return Err(Unasked::Usage);
    };
    asked_with(name, inner)
}

/// What words that clap doesn't match ask for.
fn asked_by<'a>(error: &Error) -> Result<Asked<'a>, Unasked>
    ensures memory { kind_of error.now ≡ OutOfMemory → result ≡ Err NoMemory }
    ensures faulted { (result ≡ Err NoMemory) ⊎ FaultedBy (kind_of error.now) result }
{
    match error.kind() {
        ErrorKind::DisplayHelp => Ok(Asked {
            order: Order::Help,
            file: None,
        }),
        ErrorKind::OutOfMemory => Err(Unasked::NoMemory),
        _ => Err(Unasked::Usage),
    }
}

/// What the words ask for; the first is the program's name (this project's own command line).
///
/// # Errors
///
/// `Usage` for words that the program doesn't take; `NoMemory` where memory ran out.
pub fn asked<'a, S: AsStr>(alloc: Global, words: &'a [S]) -> Result<Asked<'a>, Unasked>
    ensures { AsksForOrMemory (fault_of command_line (map S.text words.entry.now))
        (subcommand_of command_line (map S.text words.entry.now)) result }
{
    let Ok(command) = command(alloc) else {
        return Err(Unasked::NoMemory);
    };
    match command.try_get_matches_from(words) {
        Ok(matches) => asked_of(&matches),
        Err(error) => asked_by(&error),
    }
}
