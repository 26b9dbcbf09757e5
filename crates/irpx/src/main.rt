//! The program: scripts are run, their histories are printed, and histories are judged.
#![tactic(auto)]

mod checking;
mod demo;
mod ending;
mod judging;
mod not_done;
mod orders;
mod planned;
mod running;
mod told;
mod words;
mod writing;

ghost use Rattle.std.specs.Prelude.{IfErr, IfOk};
ghost use Rattle.irpx.specs.CommandLine.{IsOrder, IsStartingFault};
ghost use Rattle.irpx.specs.Program.{Obeys, ReadsFor};
ghost use Rattle.irp_streams.specs.Streams.{streams_of};

use crate::ending::Ending;
use crate::not_done::NotDone;
use crate::orders::Order;
use irp_program::{stop, words_of};
use irp_streams::{Out, WriterOut};
use std::alloc::Global;
use std::io::{self, Read};
use std::process::ExitCode;
use std::sync::Wait;
use std::thread::Threads;

/// What the words ask for.
fn order(rt: &HostRuntime) -> Result<Order, NotDone>
    ensures order { IfOk result IsOrder }
    ensures unread { IfErr result IsStartingFault }
{
    let words = words_of(rt)?;
    words::order(rt.alloc(), words.as_slice())
}

/// Does what is asked for: reads from the input where a script or a transcript is asked for, and writes to the output.
fn obey<R: Read, O: Out, T: Threads + Wait + Sync>(
    rt: &T,
    alloc: Global,
    input: &mut R,
    output: &mut O,
    order: Result<Order, NotDone>,
) -> Ending
    requires { IfOk order IsOrder }
    ensures read { ReadsFor order
        (streams_of (R.remaining input.old) (O.gone output.old) (O.failures output.old))
        (streams_of (R.remaining input.new) (O.gone output.new) (O.failures output.new)) }
    ensures obeys { Obeys order
        (streams_of (R.remaining input.old) (O.gone output.old) (O.failures output.old))
        (streams_of (R.remaining input.new) (O.gone output.new) (O.failures output.new)) result }
{
    match order {
        Ok(Order::Demo) => Ending::of(demo::demo(rt, alloc, output)),
        Ok(Order::Run { workers }) => {
            Ending::of(running::run(rt, alloc, input, output, workers))
        }
        Ok(Order::Check) => Ending::of_check(checking::check(alloc, input, output)),
        Err(fault) => Ending::Faulty(fault),
    }
}

fn main(rt: HostRuntime) -> ExitCode {
    let mut output = WriterOut::new(io::writer(&rt));
    let mut input = rt.stdin();
    match obey(&rt, rt.alloc(), &mut input, &mut output, order(&rt)) {
        Ending::Faulty(fault) => stop(&rt, fault.status(), true, &fault),
        ending => ExitCode::from(ending.status()),
    }
}
