//! The program: plays scenarios of library calls, while one request for memory may be refused, and tells where that
//! fell and whether all was as it has to be; and tests of what neither a clause nor an example can say.
//!
//! Each test ends by itself, and what is printed is the same whatever the schedule.
#![tactic(auto)]

mod example;
mod notes;
mod removes;
mod room;
mod rows;
mod scenarios;
mod scenes;
mod session;
mod slots;
mod stores;
mod tables;
mod texts;
mod tried;
mod watch;
mod workers;
mod writes;

use crate::scenarios::{Told, Work, perform, scenarios};
use crate::tried::{Fell, Halt, Tried};
use std::alloc::Global;
use std::env;
use std::io::{self, Write};
use std::process::ExitCode;
use std::rt::Env;
use std::sync::Wait;
use std::thread::Threads;

/// The words that the program was given, behind its name.
fn words_of<R: Env + AllocGlobal>(rt: &R) -> Result<Vec<String>, Halt> {
    Ok(env::args(rt)?.skip(1).collect(rt.alloc())?)
}

/// The lines of a scenario, which is played once more where memory was missing for what it takes for itself.
fn lines_of<R: Threads + Wait + Sync>(
    rt: &R,
    alloc: Global,
    work: Work,
    tried: &mut Tried,
) -> Result<Vec<u8>, &'static str> {
    for _ in 0..2 {
        let mut out = Vec::new(alloc);
        match perform(rt, alloc, work, tried, &mut out) {
            Ok(()) => return Ok(out),
            Err(Halt::Wrong(what)) => return Err(what),
            Err(Halt::Memory) => {
                if matches!(tried.fell, Fell::Nowhere) {
                    tried.fell = Fell::SetUp;
                }
            }
        }
    }
    Err("memory was missing twice")
}

/// Writes what came of a scenario or a test: of a scenario its lines, and where the refused request fell. Whether all
/// was as it has to be.
fn tell<W: Write>(
    writer: &mut W,
    name: &str,
    told: Told,
    made: Result<Vec<u8>, &'static str>,
    fell: Fell,
) -> io::Result<bool> {
    let lines = match made {
        Ok(lines) => lines,
        Err(what) => {
            writeln!(writer, "{name}: {what}")?;
            return Ok(false);
        }
    };
    if matches!(told, Told::Name) {
        writeln!(writer, "{name}: as it should be")?;
        return Ok(true);
    }
    writer.write_all(lines.as_slice())?;
    match (told, fell) {
        (Told::Refused, Fell::Nowhere) => writeln!(writer, "refused: none")?,
        (Told::Refused, Fell::SetUp) => writeln!(writer, "refused: set-up")?,
        (Told::Refused, Fell::Call(step, call)) => writeln!(
            writer,
            "refused: step {step}, {call}"
        )?,
        _ => (),
    }
    Ok(true)
}

/// Plays those of the scenarios and tests that have this name, or each where the name is `every`, and writes what came
/// of them. Whether all was as it has to be.
fn play_named<R: Threads + Wait + Sync, W: Write>(
    rt: &R,
    alloc: Global,
    writer: &mut W,
    name: &str,
    fell: Fell,
) -> io::Result<bool> {
    let mut is_right = true;
    for (known, told, work) in scenarios() {
        if name == *known || name == "every" {
            let mut tried = Tried { step: 0, fell };
            let made = lines_of(rt, alloc, *work, &mut tried);
            is_right = tell(writer, known, *told, made, tried.fell)? && is_right;
        }
    }
    Ok(is_right)
}

/// Lists the scenarios of which each request for memory is refused.
fn list<W: Write>(writer: &mut W) -> io::Result<bool> {
    for (name, told, _) in scenarios() {
        if matches!(told, Told::Refused) {
            writeln!(writer, "{name}")?;
        }
    }
    Ok(true)
}

/// Does what the program's words ask for. Without one, lists the scenarios. Where memory is missing for the words, they
/// are taken once more.
fn run<R: Threads + Wait + Env + AllocGlobal + Sync, W: Write>(
    rt: &R,
    writer: &mut W,
) -> Result<bool, Halt> {
    let (words, fell) = match words_of(rt) {
        Ok(words) => (words, Fell::Nowhere),
        Err(_) => (words_of(rt)?, Fell::SetUp),
    };
    match words.as_slice() {
        [name] => Ok(play_named(rt, rt.alloc(), writer, name.as_str(), fell)?),
        _ => Ok(list(writer)?),
    }
}

fn main(rt: HostRuntime) -> ExitCode {
    let mut writer = io::writer(&rt);
    match run(&rt, &mut writer) {
        Ok(true) => ExitCode::SUCCESS,
        _ => ExitCode::from(1),
    }
}
