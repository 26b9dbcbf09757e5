//! What is told of a text.

ghost use Rattle.std.specs.Prelude.{◌≡◌, ◌⊎◌, IfOk, MatchResult, Ok, true};
ghost use Rattle.irp_script_reader.specs.Scripts.{ReadsScript};
ghost use Rattle.irp_grammar.specs.Reading.{IsSaidIn};
ghost use Rattle.irp_words.specs.Telling as spec;
ghost use Rattle.irp_words.specs.Telling.{
  EndsOf,
  EndsOrFails,
  Fails,
  IsRefused,
  IsSent,
  IsTold,
  Prints,
  TellsFaults,
  ending_with,
  opens_json,
};

use crate::ending::Ending;
use irp_grammar::{Said, Told, Untold, fault_lines, json, json_of, read_lines, words};
use irp_names::Sink;
use irp_script_reader::{Script, ScriptFault, read_script};
use irp_streams::{Out, put_all};
use irp_text_faults::{FaultMessage, Place, faults};
use irp_warnings::{Warning, warnings};
use std::alloc::{AllocError, Global};

/// Sends a text; then the program ends so.
pub fn send_text<O: Out>(output: &mut O, text: &[u8], ending: Ending) -> Ending
    ensures { IsSent text.now ending (O.gone output.old) (O.gone output.new) result }
{
    match put_all(output, text) {
        Ok(()) => ending,
        Err(_) => Ending::Failed,
    }
}

/// Tells why there is no JSON of a text.
fn tell_untold<E: Out>(alloc: Global, errors: &mut E, untold: Untold<'_>) -> Ending
    ensures { Fails result }
{
    match untold {
        Untold::Faults(faults) => match fault_lines(alloc, faults.as_slice()) {
            Ok(lines) => send_text(errors, lines.as_bytes(), Ending::Faulty),
            Err(_) => Ending::NoMemory,
        },
        Untold::Differs => Ending::Differs,
        Untold::NoMemory => Ending::NoMemory,
    }
}

/// Tells why a script of JSON isn't read.
fn tell_refused<E: Out>(alloc: Global, errors: &mut E, fault: ScriptFault) -> Ending {
    match fault {
        ScriptFault::Refused(refusal) => match format!(in alloc;
            "irp: script refused: {refusal}\n"
        ) {
            Ok(line) => send_text(errors, line.as_bytes(), Ending::Faulty),
            Err(_) => Ending::NoMemory,
        },
        ScriptFault::NoMemory => Ending::NoMemory,
    }
}

/// Writes the JSON of a text in words; what is wrong with it goes to `errors`.
pub fn tell_json<O: Out, E: Out>(
    alloc: Global,
    output: &mut O,
    errors: &mut E,
    text: &[u8],
) -> Ending
    ensures { Prints text.now result (O.gone output.old) (O.gone output.new) }
{
    match json_of(alloc, text) {
        Ok(told) => match put_all(output, told.text.as_bytes()) {
            Ok(()) => Ending::Done,
            Err(_) => Ending::Failed,
        },
        Err(untold) => tell_untold(alloc, errors, untold),
    }
}

/// Writes the words of a script of JSON; why it isn't read goes to `errors`.
pub fn tell_words<O: Out, E: Out>(
    alloc: Global,
    output: &mut O,
    errors: &mut E,
    text: &[u8],
) -> Ending {
    match words(alloc, text) {
        Ok(text) => send_text(output, text.as_bytes(), Ending::Done),
        Err(fault) => tell_refused(alloc, errors, fault),
    }
}

/// Whether a byte begins JSON.
fn opens_json(byte: u8) -> bool
    ensures { result ≡ opens_json byte }
{
    byte == b'{' || byte == b'['
}

/// Whether a text is meant as JSON: it begins with a brace or a bracket, perhaps behind white space.
fn is_json(text: &[u8]) -> bool
    ensures { result ≡ spec.is_json text.now }
{
    for byte in text {
        if !byte.is_ascii_whitespace() {
            return opens_json(*byte);
        }
    }
    false
}

/// The place of the step that a warning is of, in the words that say the JSON of which it was told, if any do.
fn place_of(said: Option<&Said<'_>>, warning: &Warning) -> Place {
    let Some(said) = said else {
        return warning.place;
    };
    match said.line_and_column(warning.section, warning.index) {
        Some((line, column)) => Place { line, column },
        None => warning.place,
    }
}

/// How the program ends where this is hardly meant, if that counts.
fn ending_of(warnings: &[Warning]) -> Ending
    ensures { result ≡ ending_with warnings.now }
{
    if warnings.is_empty() {
        Ending::Done
    } else {
        Ending::Warned
    }
}

/// A line for each warning; the words that say the JSON are these, if any do. The one error is want of memory.
fn warning_lines(
    alloc: Global,
    warnings: &[Warning],
    said: Option<&Said<'_>>,
) -> Result<String, AllocError> {
    let mut lines = Sink::new(alloc);
    for warning in warnings {
        warning.write_at(&mut lines, place_of(said, warning));
        lines.put("\n");
    }
    lines.finish()
}

/// What is hardly meant in a script of JSON, which these words say, if any do: a line for each, and the ending, `Warned`
/// where there is such. The one error is want of memory.
fn advice(
    alloc: Global,
    text: &[u8],
    script: &Script,
    said: Option<&Said<'_>>,
) -> Result<(String, Ending), AllocError>
    ensures { IfOk result (λ made. IsTold (λ its. its ≡ script.now) true made.1) }
{
    let warnings = warnings(alloc, text, script)?;
    let lines = warning_lines(alloc, warnings.as_slice(), said)?;
    let ending = ending_of(warnings.as_slice());
    Ok((lines, ending))
}

/// A line for each fault. The one error is want of memory.
fn lines_of(alloc: Global, faults: &[FaultMessage]) -> Result<String, AllocError> {
    let mut lines = Sink::new(alloc);
    for fault in faults {
        fault.write(&mut lines);
        lines.put("\n");
    }
    lines.finish()
}

/// What is hardly meant in a script of JSON that has no fault. The one error is want of memory.
fn json_warnings(alloc: Global, text: &[u8]) -> Result<(String, Ending), AllocError>
    ensures { IfOk result (λ made. IsTold (λ its. ReadsScript (Ok its) text.now) true made.1) }
{
    match read_script(alloc, text) {
        Ok(script) => advice(alloc, text, &script, None),
        Err(_) => Err(AllocError),
    }
}

/// What is wrong with a script of JSON, or else what is hardly meant. The one error is want of memory.
fn json_advice(alloc: Global, text: &[u8]) -> Result<(String, Ending), AllocError>
    ensures { IfOk result (λ made. IsRefused text.now made.1
        ⊎ IsTold (λ its. ReadsScript (Ok its) text.now) true made.1) }
{
    let faults = faults(alloc, text)?;
    if faults.is_empty() {
        return json_warnings(alloc, text);
    }
    let lines = lines_of(alloc, faults.as_slice())?;
    Ok((lines, Ending::Faulty))
}

/// Puts out the lines that were made, and gives the ending; want of memory where that kept them from being made.
fn put_lines<O: Out>(output: &mut O, made: Result<(String, Ending), AllocError>) -> Ending
    ensures { MatchResult made (λ made. EndsOrFails made.1 result) (λ _. Fails result) }
{
    match made {
        Ok((lines, ending)) => send_text(output, lines.as_bytes(), ending),
        Err(_) => Ending::NoMemory,
    }
}

/// Tells what is wrong with a script of JSON, or else what is hardly meant.
fn tell_json_advice<O: Out>(alloc: Global, output: &mut O, text: &[u8]) -> Ending
    ensures { EndsOf (λ its. ReadsScript (Ok its) text.now) true result }
{
    put_lines(output, json_advice(alloc, text))
}

/// Tells what is hardly meant in a script that words say.
fn tell_told<O: Out>(alloc: Global, output: &mut O, said: &Said<'_>, told: &Told) -> Ending
    ensures { EndsOf (λ its. its ≡ told.now.script) true result }
{
    let made = advice(alloc, told.text.as_bytes(), &told.script, Some(said));
    put_lines(output, made)
}

/// Tells what is wrong with a script in words, or else what is hardly meant.
fn tell_words_advice<O: Out>(alloc: Global, output: &mut O, text: &[u8]) -> Ending
    ensures { EndsOf (IsSaidIn text.now) true result }
{
    let Ok(said) = read_lines(alloc, text) else {
        return Ending::NoMemory;
    };
    match json(alloc, &said) {
        Ok(told) => tell_told(alloc, output, &said, &told),
        Err(untold) => tell_untold(alloc, output, untold),
    }
}

/// Tells what is wrong with a text, in words or in JSON, or else what is hardly meant, where that counts.
fn tell_advice<O: Out>(alloc: Global, output: &mut O, text: &[u8]) -> Ending
    ensures { TellsFaults true text.now result }
{
    if is_json(text) {
        tell_json_advice(alloc, output, text)
    } else {
        tell_words_advice(alloc, output, text)
    }
}

/// Tells what is wrong with a text, in words or in JSON, or else what is hardly meant. What is hardly meant makes another
/// ending only where that is asked for.
pub fn tell_faults<O: Out>(alloc: Global, output: &mut O, strict: bool, text: &[u8]) -> Ending
    ensures { TellsFaults strict text.now result }
{
    match tell_advice(alloc, output, text) {
        Ending::Warned if !strict => Ending::Done,
        ending => ending,
    }
}
