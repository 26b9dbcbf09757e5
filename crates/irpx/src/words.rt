//! What the command line asks for.

ghost use Rattle.std.specs.Prelude.{
  ◌≡◌,
  ◌≤◌,
  ◌↔◌,
  ℕ,
  List,
  [],
  Some,
  codes,
  map,
  option_map,
  IfErr,
  IfOk,
  MatchResult,
  OnOk,
};
ghost use Rattle.clap.specs.Matches.{found_of, subcommand_name_of};
ghost use Rattle.clap.specs.Values.{kind_of};
ghost use Rattle.clap.specs.Words.{
  Row,
  app_of,
  fault_of as clap_fault_of,
  first_of,
  rows_of,
  subcommand_rows_of,
};
ghost use Rattle.irpx.specs.CommandLine.{
  AsksOrMemory,
  Finds,
  IsOrder,
  IsStartingFault,
  command_line,
  run_in,
  workers_in,
};

use crate::not_done::{NotDone, Phase};
use crate::orders::Order;
use clap::error::ErrorKind;
use clap::{Arg, ArgAction, ArgMatches, Command, Error};
use std::alloc::{AllocError, Global};
use std::convert::AsStr;

/// The command line that the program takes.
fn command<'a>(alloc: Global) -> Result<Command<'a>, AllocError>
    ensures { IfOk result (λ command. app_of command ≡ command_line) }
{
    let workers = Arg::new(alloc, "workers")
        .long("workers")
        .action(ArgAction::Set);
    let run = Command::new(alloc, "run").arg(workers)?;
    let command = Command::new(alloc, "irpx").subcommand_required(true);
    let command = command.subcommand(Command::new(alloc, "demo"))?;
    let command = command.subcommand(run)?;
    command.subcommand(Command::new(alloc, "check"))
}

/// The number of workers that a text names: one or two decimal digits, 1 to 64.
fn workers_in(text: &[u8]) -> Option<u32>
    ensures { result ≡ workers_in text.now }
{
    let workers = match text {
        [one] if one.is_ascii_digit() => u32::from(*one - b'0'),
        [ten, one] if ten.is_ascii_digit() && one.is_ascii_digit() => {
            u32::from(*ten - b'0') * 10 + u32::from(*one - b'0')
        }
        _ => return None,
    };
    if workers >= 1 && workers <= 64 {
        Some(workers)
    } else {
        None
    }
}

/// The order to run a script with the workers that the subcommand's matches name, or with one.
fn run_of(matches: &ArgMatches<'_>) -> Result<Order, NotDone>
    ensures run { result ≡ run_in (first_of (codes "workers") (rows_of (found_of matches.now))) }
    ensures range { MatchResult result
        (λ order. (workers : ℕ) × (order ≡ Order.Run workers) × (1 ≤ workers) × (workers ≤ 64))
        (λ fault. fault ≡ NotDone.Usage) }
{
    let Some(text) = matches.get_str("workers") else {
        return Ok(Order::Run { workers: 1 });
    };
    match workers_in(text.as_bytes()) {
        Some(workers) => Ok(Order::Run { workers }),
        None => Err(NotDone::Usage),
    }
}

/// What clap's matches ask for.
fn order_of(matches: &ArgMatches<'_>) -> Result<Order, NotDone>
    ensures demo { (result ≡ Ok Order.Demo)
        ↔ (subcommand_name_of matches.now ≡ Some (codes "demo")) }
    ensures check { (result ≡ Ok Order.Check)
        ↔ (subcommand_name_of matches.now ≡ Some (codes "check")) }
    ensures run { (rows : List Row) → subcommand_name_of matches.now ≡ Some (codes "run")
        → option_map (λ found. found.1) (subcommand_rows_of matches.now) ≡ Some rows
        → result ≡ run_in (first_of (codes "workers") rows) }
    ensures order { IfOk result IsOrder }
    ensures usage { IfErr result (λ fault. fault ≡ NotDone.Usage) }
{
    let Some((name, inner)) = matches.subcommand() else {
        return Err(NotDone::Usage);
    };
    match name {
        "demo" => Ok(Order::Demo),
        "run" => run_of(inner),
        "check" => Ok(Order::Check),
        _ => Err(NotDone::Usage),
    }
}

/// Why clap refused the words.
fn fault_of(error: &Error) -> NotDone
    ensures memory { (result ≡ NotDone.NoMemory Phase.Starting)
        ↔ (kind_of error.now ≡ ErrorKind.OutOfMemory) }
    ensures usage { IsStartingFault result }
{
    if error.kind() == ErrorKind::OutOfMemory {
        NotDone::NoMemory(Phase::Starting)
    } else {
        NotDone::Usage
    }
}

/// What the words ask for; the first is the program's name (this project's own command line, README.md).
///
/// # Errors
///
/// `Usage` for words that the program doesn't take, and for a request for help; `NoMemory` where memory ran out.
pub fn order<'a, S: AsStr>(alloc: Global, words: &'a [S]) -> Result<Order, NotDone>
    // No order comes of words in which clap finds a fault.
    ensures ok { OnOk result (clap_fault_of command_line (map S.text words.entry.now) ≡ []) }
    ensures order { IfOk result IsOrder }
    ensures unread { IfErr result IsStartingFault }
    // The order is that of the subcommand that clap finds in the words, whatever else they have.
    ensures finds { (name : List ℕ) (rows : List Row)
        → Finds name rows (map S.text words.entry.now) → AsksOrMemory name rows result }
{
    let Ok(command) = command(alloc) else {
        return Err(NotDone::NoMemory(Phase::Starting));
    };
    match command.try_get_matches_from(words) {
        Ok(matches) => order_of(&matches),
        Err(error) => Err(fault_of(&error)),
    }
}
