//! Telling what is asked of the orders of a script in words.

ghost use Rattle.std.specs.Prelude.{◌⊎◌};
ghost use Rattle.irp_orders.specs.Program.{ExploresWords, IsFaulty, IsToldOfWords};

use crate::answering::answer;
use crate::asked::Order;
use crate::ending::Ending;
use irp_grammar::{Untold, fault_lines, json_of};
use irp_program::TOO_MANY_BYTES;
use irp_streams::{Out, read_up_to};
use std::alloc::Global;
use std::io::Read;

/// How the program ends where there is no JSON of a text in words: with a line for each fault, as `irp_words` tells it.
fn ending_of(alloc: Global, untold: Untold<'_>) -> Ending
    ensures { IsFaulty result }
{
    match untold {
        Untold::Faults(faults) => match fault_lines(alloc, faults.as_slice()) {
            Ok(lines) => Ending::FaultyWords(lines),
            Err(_) => Ending::NoMemory,
        },
        Untold::Differs => Ending::Differs,
        Untold::NoMemory => Ending::NoMemory,
    }
}

/// Tells what is asked of the orders of the script that words say.
fn answer_words<O: Out>(alloc: Global, output: &mut O, order: &Order<'_>, text: &[u8]) -> Ending
    ensures { IsFaulty result
        ⊎ IsToldOfWords order.now text.now (O.gone output.old) (O.gone output.new) result }
{
    match json_of(alloc, text) {
        Ok(told) => answer(alloc, output, &told.script, order),
        Err(untold) => ending_of(alloc, untold),
    }
}

/// Reads words from the input, up to its end or to one byte more than a script may have, explores the orders of the
/// script that they say, and tells what is asked (this project's own command line). Returns how the program ends.
pub fn explore_words<R: Read, O: Out>(
    alloc: Global,
    input: &mut R,
    output: &mut O,
    order: &Order<'_>,
) -> Ending
    ensures { ExploresWords order.now (R.remaining input.old) (R.remaining input.new)
        (O.gone output.old) (O.gone output.new) result }
{
    match read_up_to(alloc, input, TOO_MANY_BYTES) {
        Ok(text) => answer_words(alloc, output, order, text.as_slice()),
        Err(fault) => Ending::from(fault),
    }
}
