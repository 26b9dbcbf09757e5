//! The help.

ghost use Rattle.std.specs.Prelude.{List, ℕ};
ghost use Rattle.irp_words.specs.Telling.{IsSent};
ghost use Rattle.irp_words.specs.declared.ending.Ending.TheVariants.{Done};

use crate::ending::Ending;
use crate::telling::send_text;
use irp_streams::Out;

/// What the help says.
const HELP: &str = "\
irp words takes scripts as people write them: a step a line, with names, comments and hexadecimal numbers.

Usage: irp words json [FILE]
       irp words words [FILE]
       irp words faults [--strict] [FILE]
       irp words tables

The text is read from FILE, or from standard input.

  json    prints the JSON of a script in words, which irpx run reads
  words   prints a script of JSON in words, with made-up names
  faults  prints what is wrong with a script in words, or with one of JSON, each with its line and column; where
          nothing is wrong, warnings of what is hardly meant
  tables  prints the names of steps, refusals, statuses and codes as JSON

  --strict  ends with status 2 where there is a warning
  --help    prints this

Exit status: 0 done (faults: nothing is wrong), 1 the script has faults, 2 faults --strict: there is a warning, 3 out of
memory, 4 other words, 5 input or output failed. What is wrong is printed on standard error, but by faults on standard
output.

Examples:
  irp words json my.words | irp run
  irp words words examples/recipes/a_cancel_race.script > race.words
  irp words faults my.words
";

/// Writes the help.
pub fn help<O: Out>(output: &mut O) -> Ending
    ensures { (text : List ℕ) × IsSent text Done (O.gone output.old) (O.gone output.new) result }
{
    send_text(output, HELP.as_bytes(), Ending::Done)
}
