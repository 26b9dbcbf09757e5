//! The program that explores every order of a script's steps, and tells how they end.
#![tactic(auto)]

mod alike;
mod answering;
mod asked;
mod columns;
mod conditions;
mod differing;
mod ending;
mod ends;
mod examining;
mod exploring;
mod facts;
mod found;
mod groups;
mod help;
mod in_words;
mod judging;
mod names;
mod right;
mod steps;
mod such;
mod table;
mod text;
mod words;
mod wrongs;

ghost use Rattle.std.specs.Prelude.{◌≡◌, map, string_bytes};
ghost use Rattle.irp_command_line.specs.CommandLine.{text_in};
ghost use Rattle.irp_orders.specs.Obeying.{ExploresIn, ObeysWords, is_in_words};

use crate::answering::explore;
use crate::asked::{Asked, Order};
use crate::ending::Ending;
use crate::in_words::explore_words;
use irp_program::{open_input, stop, words_of};
use irp_streams::{Out, WriterOut};
use std::io;
use std::process::ExitCode;

/// Whether a file's name says that its script is in words.
fn is_in_words(file: Option<&str>) -> bool
    ensures { result ≡ is_in_words (text_in file.entry) }
{
    match file {
        Some(name) => name.as_bytes().ends_with(b".words"),
        None => false,
    }
}

/// Tells what is asked of the script in the file, or in standard input.
fn explore_in<O: Out>(
    rt: &HostRuntime,
    output: &mut O,
    order: &Order<'_>,
    file: Option<&str>,
) -> Ending
    ensures { ExploresIn order.now file.entry (O.gone output.old) (O.gone output.new) result }
{
    let mut input = match open_input(rt, file) {
        Ok(input) => input,
        Err(unopened) => return Ending::from(unopened),
    };
    if is_in_words(file) {
        explore_words(rt.alloc(), &mut input, output, order)
    } else {
        explore(rt.alloc(), &mut input, output, order)
    }
}

/// Does what these words ask for; the first is the program's name.
fn obey_words<O: Out>(rt: &HostRuntime, output: &mut O, words: &[String]) -> Ending
    ensures { ObeysWords (map string_bytes words.now) (O.gone output.old) (O.gone output.new) result }
{
    match words::asked(rt.alloc(), words) {
        Ok(Asked::Help) => help::help(output),
        Ok(Asked::Explore { order, file }) => explore_in(rt, output, &order, file),
        Err(ending) => ending,
    }
}

/// Does what the words ask for that the program was given.
fn obey<O: Out>(rt: &HostRuntime, output: &mut O) -> Ending {
    match words_of(rt) {
        Ok(words) => obey_words(rt, output, words.as_slice()),
        Err(unasked) => Ending::from(unasked),
    }
}

fn main(rt: HostRuntime) -> ExitCode {
    let mut output = WriterOut::new(io::writer(&rt));
    let ending = obey(&rt, &mut output);
    stop(&rt, ending.status(), ending.has_line(), &ending)
}
