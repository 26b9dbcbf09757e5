//! The program for scripts as people write them: words to JSON, JSON to words, and what is wrong with either.
#![tactic(auto)]

mod ending;
mod help;
mod orders;
mod tables;
mod telling;
mod words;

ghost use Rattle.std.specs.Prelude.{map, string_bytes};
ghost use Rattle.irp_words.specs.Program.{DoesOn, ObeysWords};
ghost use Rattle.irp_words.specs.Telling.{Obeys, ObeysOn};

use crate::ending::Ending;
use crate::orders::{Asked, Order, Task};
use irp_program::{TOO_MANY_BYTES, open_input, stop, words_of};
use irp_streams::{Out, WriterOut, read_up_to};
use std::alloc::Global;
use std::io::{self, Read};
use std::process::ExitCode;

/// Does what is asked for with a text, and writes to the output; what is wrong with the text goes to `errors`, but where
/// that was asked for.
fn run_with<O: Out, E: Out>(
    alloc: Global,
    text: &[u8],
    output: &mut O,
    errors: &mut E,
    task: Task,
) -> Ending
    ensures { Obeys task text.now result (O.gone output.old) (O.gone output.new) }
{
    match task {
        Task::Json => telling::tell_json(alloc, output, errors, text),
        Task::Words => telling::tell_words(alloc, output, errors, text),
        Task::Faults { strict } => telling::tell_faults(alloc, output, strict, text),
    }
}

/// Does what is asked for with the text that is read from the input.
fn run<R: Read, O: Out, E: Out>(
    alloc: Global,
    input: &mut R,
    output: &mut O,
    errors: &mut E,
    task: Task,
) -> Ending
    ensures { ObeysOn task (R.remaining input.old) result (O.gone output.old) (O.gone output.new) }
{
    match read_up_to(alloc, input, TOO_MANY_BYTES) {
        Ok(text) => run_with(alloc, text.as_slice(), output, errors, task),
        Err(fault) => Ending::from(fault),
    }
}

/// Does what is asked for, with the file or with standard input.
fn run_on<O: Out, E: Out>(
    rt: &HostRuntime,
    output: &mut O,
    errors: &mut E,
    asked: Asked<'_>,
) -> Ending
    ensures { DoesOn asked.entry (O.gone output.old) (O.gone output.new) result }
{
    let task = match asked.order {
        Order::Help => return help::help(output),
        Order::Tables => return tables::tell_tables(rt.alloc(), output),
        Order::Read(task) => task,
    };
    match open_input(rt, asked.file) {
        Ok(mut input) => run(rt.alloc(), &mut input, output, errors, task),
        Err(unopened) => Ending::from(unopened),
    }
}

/// Does what these words ask for; the first is the program's name.
fn obey_words<O: Out, E: Out>(
    rt: &HostRuntime,
    output: &mut O,
    errors: &mut E,
    words: &[String],
) -> Ending
    ensures { ObeysWords (map string_bytes words.now) (O.gone output.old) (O.gone output.new) result }
{
    match words::asked(rt.alloc(), words) {
        Ok(asked) => run_on(rt, output, errors, asked),
        Err(unasked) => Ending::from(unasked),
    }
}

/// Does what the words ask for that the program was given.
fn obey<O: Out, E: Out>(rt: &HostRuntime, output: &mut O, errors: &mut E) -> Ending {
    match words_of(rt) {
        Ok(words) => obey_words(rt, output, errors, words.as_slice()),
        Err(unasked) => Ending::from(unasked),
    }
}

fn main(rt: HostRuntime) -> ExitCode {
    let mut output = WriterOut::new(io::writer(&rt));
    let mut errors = WriterOut::new(rt.stderr());
    let ending = obey(&rt, &mut output, &mut errors);
    stop(&rt, ending.status(), ending.has_line(), &ending)
}
