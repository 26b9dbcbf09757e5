//! The program: times calls of remove locks, cancel slots and the manager, the texts of transcripts, and their judging.
#![tactic(auto)]

mod calls;
mod pairs;
mod texts;
mod timed;

use crate::calls::{Calls, time_calls};
use crate::pairs::{Pair, time_slots, time_threads};
use crate::texts::{Sample, Task, perform, record_sample};
use crate::timed::{Done, Host, NotTimed, Timed};
use irp_program::{Unasked, stop, words_of};
use std::process::ExitCode;
use std::rt::Env;
use std::time::Duration;

/// How often each load is timed. The least time counts, since what else runs on the machine only adds to it.
const ROUNDS: u32 = 5;

/// What is timed, for a number: of threads, slots, live packets, devices or entries. The names in the table tell which.
#[derive(Clone, Copy)]
enum Load {
    Lock,
    Word,
    Slots(Pair),
    Alone(Calls),
    Recorded(Calls),
    Text(Task),
}

/// Rows: a word, the name of a load, the load, and what is timed beside it; then the numbers, each of a row of its own.
macro_rules! rows {
    ($($word:literal: $name:literal $load:expr; $beside:literal $other:expr; [$($number:expr),*];)*) => {
        [$($(($word, $name, $load, $beside, $other, $number),)*)*]
    };
}

/// All that the program times, in this order.
static TABLE: [(&str, &str, Load, &str, Load, u32); 27] = rows! {
    "locks": "acquire and release, threads" Load::Lock;
        "fetch-add and fetch-sub" Load::Word; [1, 4];
    "slots": "publish and withdraw, slots" Load::Slots(Pair::Withdrawn);
        "two swaps and a fetch-or" Load::Slots(Pair::Bare); [64];
    "slots": "publish and request, slots" Load::Slots(Pair::Requested);
        "two swaps and a fetch-or" Load::Slots(Pair::Bare); [64];
    "calls": "a recorded call, of four, threads" Load::Recorded(Calls::Rounds);
        "by the manager alone" Load::Alone(Calls::Rounds); [1, 2, 4, 8];
    "calls": "a recorded call, of four, entries" Load::Recorded(Calls::Entries);
        "by the manager alone" Load::Alone(Calls::Entries); [1_000, 10_000, 100_000, 1_000_000];
    "calls": "a packet allocated and given back, live packets" Load::Alone(Calls::Unused);
        "recorded" Load::Recorded(Calls::Unused); [1, 64, 4_096];
    "calls": "a send, devices" Load::Alone(Calls::Sends);
        "recorded" Load::Recorded(Calls::Sends); [1, 4, 16, 32];
    "write": "write_transcript, entries" Load::Text(Task::Write);
        "serde_json alone" Load::Text(Task::WriteValues); [100_000, 1_000_000];
    "read": "read_transcript, entries" Load::Text(Task::Read);
        "serde_json alone" Load::Text(Task::ReadValues); [100_000, 1_000_000];
    "check": "check, entries" Load::Text(Task::Judge);
        "read_transcript" Load::Text(Task::Read); [10_000, 100_000, 1_000_000];
    "check": "read and judged in blocks, entries" Load::Text(Task::Blocks);
        "read_transcript" Load::Text(Task::Read); [1_000_000];
};

/// The least times of two loads, which take turns, on one sample where they are of texts.
fn least<R: Host>(rt: &R, load: Load, other: Load, number: u32) -> Timed<(Done, Done)> {
    let sample = match load {
        Load::Text(_) => Some(record_sample(rt, number)?),
        _ => None,
    };
    let time = |load: Load| match load {
        Load::Lock => time_threads(rt, false, number),
        Load::Word => time_threads(rt, true, number),
        Load::Slots(pair) => time_slots(rt, pair, number),
        Load::Alone(calls) => time_calls(rt, calls, number, false),
        Load::Recorded(calls) => time_calls(rt, calls, number, true),
        Load::Text(task) => perform(rt, task, number, sample.as_ref().ok_or(NotTimed::Failed)?),
    };
    let (mut first, mut second) = (Done::of(1, 0, Duration::MAX), Done::of(1, 0, Duration::MAX));
    for _ in 0..ROUNDS {
        first = first.min(time(load)?);
        second = second.min(time(other)?);
    }
    Ok((first, second))
}

/// Times the rows of a word, and writes a line for each to standard error. `Usage` where no row has the word.
fn time_rows<R: Host + Eprint>(rt: &R, asked: &str) -> Timed<()> {
    let mut outcome = Err(NotTimed::Usage);
    for &(_, name, load, beside, other, number) in TABLE.iter().filter(|row| row.0 == asked) {
        let (first, second) = least(rt, load, other, number)?;
        let ratio = first.nanoseconds() / second.nanoseconds();
        eprintln!(rt; "irp_bench: {name} {number}: {first}; {beside}: {second}; ratio {ratio:.2}")?;
        outcome = Ok(());
    }
    outcome
}

/// Times what the word behind the program's name asks for, and nothing where there is none.
fn run<R: Host + Env + Eprint>(rt: &R) -> Timed<()> {
    let words = words_of(rt).map_err(|fault| match fault {
        Unasked::NoMemory => NotTimed::Memory,
        Unasked::Usage => NotTimed::Usage,
    })?;
    match words.as_slice() {
        [] | [_] => Ok(()),
        [_, word] => time_rows(rt, word.as_str()),
        _ => Err(NotTimed::Usage),
    }
}

fn main(rt: HostRuntime) -> ExitCode {
    let Err(fault) = run(&rt) else {
        return ExitCode::SUCCESS;
    };
    stop(&rt, fault as u8, true, &fault)
}
