//! The help.

ghost use Rattle.irp_orders.specs.Program.{IsSent};
ghost use Rattle.irp_orders.specs.declared.ending.Ending.TheVariants.{Done};

use crate::answering::send_text;
use crate::ending::Ending;
use irp_streams::Out;

/// What the help says.
const HELP: &str = "\
irp orders explores every order in which the seats of a script can make their steps, and tells how they end.

Usage: irp orders [--ends] [--groups] [--states N] [--outcomes N] [FILE]
       irp orders --show K [..] [FILE]
       irp orders --never CONDITION [..] [FILE]
       irp orders --right [..] [FILE]

The script is read from FILE, or from standard input. A file whose name ends with .words holds words, as irp_words reads
them. Without --show, --never and --right, irp orders prints a table of the outcomes, the most frequent first: how many
orders end so, the replies in which outcomes differ, the live packets, the remove locks and the cancel slots.

  --show K           prints a transcript that leads to outcome K
  --write FOLDER     writes the table and a transcript for each outcome there (bin/irp_orders takes this word)
  --never CONDITION  tells whether no order ends so; where one does, shows one that does
  --right            tells whether every order ends right: no step is refused, no device still has a packet, no remove lock
                     is held, no cancel slot is full, and no cancel routine is left; else shows one that doesn't, and why
  --ends             joins outcomes that end alike, whatever was replied: for larger scripts
  --groups           joins outcomes that differ in the numbers of uses and slots of packets alone
  --states N         at most N states side by side; 500,000 without it
  --outcomes N       at most N outcomes; 20,000 without it
  --help             prints this

A condition joins facts by and, or, not and parentheses. made(7), deleted(0), live(a), cancel(a) and removing(lock 0) are
true or false; owner(a), status(a), information(a), current(a), held(lock 0) and reply(7) are compared by ==, !=, <, <=, >
or >=. A packet is named by its label, a step by its place among the script's steps, from 0. made(7) is false where step 7
was passed over; reply(7) is none there. Owners are originator, ended, D2 (or device 2) and none; replies are a refusal as
Ended, a status as STATUS_PENDING or 0x103, a number, done, standing, taken, lost, yes, busy and so on.

Exit status: 0 done (--never: it never holds; --right: every order is right), 1 the script is refused, 2 --never: it holds
in an order, --right: one isn't right, 3 out of memory or a bound is met, 4 other words, 5 input or output failed.

Examples:
  irp orders examples/recipes/a_cancel_race.script
  irp orders --show 2 examples/recipes/a_cancel_race.script | irp text
  irp orders --never 'live(a) and owner(a) != ended' my.script
  irp orders --right my.words
";

/// Writes the help.
pub fn help<O: Out>(output: &mut O) -> Ending
    ensures { IsSent Done result }
{
    send_text(output, HELP.as_bytes(), Ending::Done)
}
