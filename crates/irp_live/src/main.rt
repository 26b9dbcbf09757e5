//! The program: a manager that answers, line by line, what a call would be refused with, what a packet shows, and what is
//! wrong with an entry.
#![tactic(auto)]

mod asking;
mod ending;
mod lines;
mod order;
mod session;
mod talking;
mod told;

ghost use Rattle.irp_live.specs.Program.{Obeys};
ghost use Rattle.irp_streams.specs.Streams.{streams_of};

use crate::ending::{Ending, ending_of};
use crate::order::{HELP, Order, words_ask};
use irp_program::stop;
use irp_streams::{Out, WriterOut, send};
use std::alloc::Global;
use std::io::{self, BufRead};
use std::process::ExitCode;

/// Does what is asked for.
fn run<R: BufRead, O: Out>(alloc: Global, input: &mut R, output: &mut O, order: Order) -> Ending
    ensures { Obeys order
        (streams_of (R.remaining input.old) (O.gone output.old) (O.failures output.old))
        (streams_of (R.remaining input.new) (O.gone output.new) (O.failures output.new)) result }
{
    match order {
        Order::Live => ending_of(talking::live(alloc, input, output)),
        Order::Help => match send(output, HELP.as_bytes()) {
            Ok(()) => Ending::Done,
            Err(_) => Ending::Failed,
        },
        Order::Other => Ending::OtherWords,
        Order::NoMemory => Ending::NoMemory,
    }
}

fn main(rt: HostRuntime) -> ExitCode {
    let mut output = WriterOut::new(io::writer(&rt));
    let mut input = rt.stdin().lock();
    let ending = run(rt.alloc(), &mut input, &mut output, words_ask(&rt));
    let complaint = ending.complaint();
    stop(&rt, ending.status(), !complaint.is_empty(), &complaint)
}
