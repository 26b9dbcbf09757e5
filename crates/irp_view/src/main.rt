//! The program that shows transcripts: what is wrong with one, its history as text, the entries of one packet, and its
//! story.
#![tactic(auto)]

mod answers;
mod block;
mod causes;
mod ending;
mod fields;
mod help;
mod joined;
mod judging;
mod listing;
mod orders;
mod parts;
mod reading;
mod refusal;
mod refused_calls;
mod rules;
mod sections;
mod showing;
mod spans;
mod story;
mod why;
mod words;

ghost use Rattle.std.specs.Prelude.{map, string_bytes};
ghost use Rattle.irp_view.specs.Program.{Answers, Obeys, ObeysOn, ObeysWords};
ghost use Rattle.irp_view.specs.Streams.{output_of, streams_of};
ghost use Rattle.irp_view.specs.Judging.{IsFound};
ghost use Rattle.irp_feed.specs.Input.{TakesAtMost, most_taken};
ghost use Rattle.irp_view.specs.declared.orders.Order.TheVariants.{Read as AsksFor};
ghost use Rattle.irp_view.specs.declared.orders.Task.TheVariants.{Why, List as Listing, Story as Telling};
ghost use Rattle.irp_transcript.specs.Transcripts.{TranscriptValue};

use crate::ending::Ending;
use crate::judging::{Judged, judge_input};
use crate::listing::show_transcript;
use crate::orders::{Asked, Order, Span, Task};
use crate::story::tell_transcript;
use irp_program::{open_input, stop, words_of};
use irp_streams::{Out, WriterOut};
use irp_types::IrpRef;
use std::alloc::Global;
use std::io::{self, Read};
use std::process::ExitCode;

/// Tells what is wrong with a transcript that was judged.
fn tell_why<O: Out>(alloc: Global, output: &mut O, judged: &Judged) -> Ending
    ensures { (transcript : TranscriptValue) → IsFound transcript judged.now.found
        → Answers Why transcript (output_of (O.gone output.old) (O.failures output.old))
        (output_of (O.gone output.new) (O.failures output.new)) result }
{
    match why::why(alloc, output, judged) {
        Ok(verdict) => Ending::from(verdict),
        Err(fault) => Ending::from(fault),
    }
}

/// Tells what is wrong with the transcript in the input, which is judged as it is read.
fn judge<R: Read, O: Out>(alloc: Global, input: &mut R, output: &mut O) -> Ending
    ensures took { TakesAtMost most_taken (R.remaining input.old) (R.remaining input.new) }
    ensures obeys { Obeys (AsksFor Why)
        (streams_of (R.remaining input.old) (output_of (O.gone output.old) (O.failures output.old)))
        (streams_of (R.remaining input.new) (output_of (O.gone output.new) (O.failures output.new))) result }
{
    match judge_input(alloc, input) {
        Ok(judged) => tell_why(alloc, output, &judged),
        Err(unread) => Ending::from(unread),
    }
}

/// Shows the transcript in the input, as it is read.
fn list<R: Read, O: Out>(
    alloc: Global,
    input: &mut R,
    output: &mut O,
    only: Option<IrpRef>,
    span: Option<Span>,
) -> Ending
    ensures took { TakesAtMost most_taken (R.remaining input.old) (R.remaining input.new) }
    ensures obeys { Obeys (AsksFor (Listing only span))
        (streams_of (R.remaining input.old) (output_of (O.gone output.old) (O.failures output.old)))
        (streams_of (R.remaining input.new) (output_of (O.gone output.new) (O.failures output.new))) result }
{
    match show_transcript(alloc, input, output, only, span) {
        Ok(()) => Ending::Done,
        Err(unshown) => Ending::from(unshown),
    }
}

/// Tells the story of the transcript in the input, as it is read.
#[tactic(auto, using(crate::proofs::Stories::takes_told, crate::proofs::Stories::obeys_all, crate::proofs::Stories::obeys_told))]
fn tell_story<R: Read, O: Out>(alloc: Global, input: &mut R, output: &mut O) -> Ending
    ensures took { TakesAtMost most_taken (R.remaining input.old) (R.remaining input.new) }
    ensures obeys { Obeys (AsksFor Telling)
        (streams_of (R.remaining input.old) (output_of (O.gone output.old) (O.failures output.old)))
        (streams_of (R.remaining input.new) (output_of (O.gone output.new) (O.failures output.new))) result }
{
    match tell_transcript(alloc, input, output) {
        Ok(()) => Ending::Done,
        Err(untold) => Ending::from(untold),
    }
}

/// Does what is asked for: reads a transcript from the input, and writes to the output.
#[tactic(auto, using(crate::proofs::Pieces::takes_none))]
fn run<R: Read, O: Out>(alloc: Global, input: &mut R, output: &mut O, order: Order) -> Ending
    ensures took { TakesAtMost most_taken (R.remaining input.old) (R.remaining input.new) }
    ensures obeys { Obeys order
        (streams_of (R.remaining input.old) (output_of (O.gone output.old) (O.failures output.old)))
        (streams_of (R.remaining input.new) (output_of (O.gone output.new) (O.failures output.new))) result }
{
    let task = match order {
        Order::Help => return help::help(output),
        Order::Read(task) => task,
    };
    match task {
        Task::Why => judge(alloc, input, output),
        Task::List { only, span } => list(alloc, input, output, only, span),
        Task::Story => tell_story(alloc, input, output),
    }
}

/// Does what is asked for, with the file or with standard input.
fn run_on<O: Out>(rt: &HostRuntime, output: &mut O, asked: Asked<'_>) -> Ending
    ensures { ObeysOn asked.entry (output_of (O.gone output.old) (O.failures output.old))
        (output_of (O.gone output.new) (O.failures output.new)) result }
{
    match open_input(rt, asked.file) {
        Ok(mut input) => run(rt.alloc(), &mut input, output, asked.order),
        Err(unopened) => Ending::from(unopened),
    }
}

/// Does what these words ask for; the first is the program's name.
fn obey_words<O: Out>(rt: &HostRuntime, output: &mut O, words: &[String]) -> Ending
    ensures { ObeysWords (map string_bytes words.now)
        (output_of (O.gone output.old) (O.failures output.old))
        (output_of (O.gone output.new) (O.failures output.new)) result }
{
    let Ok(parted) = joined::with_uses(rt.alloc(), words) else {
        return Ending::NoMemory;
    };
    match words::asked(rt.alloc(), parted.as_slice()) {
        Ok(asked) => run_on(rt, output, asked),
        Err(unasked) => Ending::from(unasked),
    }
}

/// Does what the words ask for that the program was given.
fn obey<O: Out>(rt: &HostRuntime, output: &mut O) -> Ending {
    match words_of(rt) {
        Ok(words) => obey_words(rt, output, words.as_slice()),
        Err(unasked) => Ending::from(unasked),
    }
}

fn main(rt: HostRuntime) -> ExitCode {
    let mut output = WriterOut::new(io::writer(&rt));
    let ending = obey(&rt, &mut output);
    stop(&rt, ending.status(), ending.has_line(), &ending)
}
