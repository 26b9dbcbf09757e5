//! The help.

ghost use Rattle.irp_view.specs.Program.{Helped};
ghost use Rattle.irp_view.specs.Streams.{output_of};

use crate::ending::Ending;
use irp_streams::{Out, send};

/// What the help says.
const HELP: &str = "\
irp_view shows a transcript of a history of IRPs, as irpx and drivers/run write it.

Usage: irp_view why [FILE]
       irp_view text [--entries A..B] [FILE]
       irp_view packet SLOT USE [--entries A..B] [FILE]
       irp_view story [FILE]

The transcript is read from FILE, or from standard input. SLOT USE may be written SLOT.USE, as messages tell it.

  why     tells the first entry that the manager can't have made, in which part it differs from the manager's own, and
          which rule of docs/RULES.md it breaks; or that nothing is wrong
  text    prints the history, a block of lines for each entry, and the steps on remove locks and cancel slots
  packet  prints only the entries that name this use of a packet
  story   prints the story of the history for a program that draws it: lines of JSON (docs/FORMATS.md)

  --entries A..B  only the entries from number A up to, and without, number B; either may be left out
  --help          prints this

Exit status: 0 done (why: nothing is wrong), 1 the transcript is refused, 2 why: an entry is wrong, 3 out of memory,
4 other words, 5 input or output failed.

Examples:
  irpx demo | irp_view why
  irp_view text --entries 10..20 my.transcript
  irp_view packet 0.1 my.transcript
";

/// Writes the help.
pub fn help<O: Out>(output: &mut O) -> Ending
    ensures { Helped (output_of (O.gone output.old) (O.failures output.old))
        (output_of (O.gone output.new) (O.failures output.new)) result }
{
    match send(output, HELP.as_bytes()) {
        Ok(()) => Ending::Done,
        Err(fault) => Ending::from(fault),
    }
}
