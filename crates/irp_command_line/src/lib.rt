//! What programs tell clap of their command lines, and what clap finds in words.
#![tactic(auto)]

ghost use Rattle.std.specs.Prelude.{IfOk};
ghost use Rattle.clap.specs.Simple.{new_app, with_rule};
ghost use Rattle.irp_command_line.specs.CommandLine.{
  IsLine,
  IsOption,
  SaysFlag,
  file_word,
  flag_option,
  rows_in,
};

use clap::{Arg, ArgAction, ArgMatches, Command};
use std::alloc::{AllocError, Global};

/// A command of this name, which takes the name of a file. The one error is want of memory (this project's own rule).
pub fn file_command<'a>(alloc: Global, name: &'a str) -> Result<Command<'a>, AllocError>
    ensures { IfOk result (IsLine (with_rule (new_app name.entry.now) file_word)) }
{
    Command::new(alloc, name).arg(Arg::new(alloc, "file"))
}

/// A word that stands alone, as `--groups` (this project's own rule).
pub fn flag<'a>(alloc: Global, name: &'a str) -> Arg<'a>
    ensures { IsOption (flag_option name.entry.now) result }
{
    Arg::new(alloc, name).long(name).action(ArgAction::SetTrue)
}

/// Whether a word that stands alone is among the words (this project's own rule).
pub fn is_set(matches: &ArgMatches<'_>, name: &str) -> bool
    ensures { SaysFlag (rows_in matches.now) name.now result }
{
    matches.get_flag(name)
}
