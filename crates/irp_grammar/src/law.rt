//! The JSON of the script that lines say, read again before it is given.

ghost use Rattle.std.specs.Prelude.{[], ◌≢◌, IfErr, IfOk, Ok, string_bytes};
ghost use Rattle.irp_script_reader.specs.Scripts.{ReadsScript};
ghost use Rattle.irp_grammar.specs.Reading.{IsSaidIn};
ghost use Rattle.irp_grammar.specs.Saying.{GivesFaults, Says, TellsScript};

use crate::cursor::WordsFault;
use crate::read::read_lines;
use crate::said::Said;
use crate::same::says;
use crate::to_json::json_text;
use irp_script_reader::{Script, ScriptFault, ScriptRefusal, read_script};
use std::alloc::{AllocError, AllocFailed, Global};

/// The JSON of a script, and the script that `read_script` reads from it.
#[derive(Drop)]
pub struct Told {
    pub text: String,
    pub script: Script,
}

/// Why there is no JSON of a text in words.
#[derive(Drop)]
pub enum Untold<'a> {
    /// The text has these faults, in the order of its lines.
    Faults(Vec<WordsFault<'a>>),
    /// What was written isn't read as what the lines say: a fault of this library, which no text is known to bring
    /// about.
    Differs,
    /// Memory ran out.
    NoMemory,
}

impl<'a> From<AllocError> for Untold<'a> {
    fn from(_error: AllocError) -> Untold<'a> {
        Untold::NoMemory
    }
}

impl<'a, T: Drop> From<AllocFailed<T>> for Untold<'a> {
    fn from(_error: AllocFailed<T>) -> Untold<'a> {
        Untold::NoMemory
    }
}

/// Why there is no JSON of lines: the faults that they have.
fn faulty<'a>(alloc: Global, faults: &[WordsFault<'a>]) -> Untold<'a>
    ensures { GivesFaults faults.now result }
{
    match Vec::from_slice(alloc, faults) {
        Ok(faults) => Untold::Faults(faults),
        Err(_) => Untold::NoMemory,
    }
}

/// Why there is no JSON of lines whose script is refused.
fn unread<'a>(alloc: Global, said: &Said<'a>, fault: ScriptFault) -> Untold<'a> {
    match fault {
        ScriptFault::Refused(refusal) => faulty(alloc, &[said.refused(refusal)]),
        ScriptFault::NoMemory => Untold::NoMemory,
    }
}

/// The JSON of the script that lines say, which have no faults.
fn told_of<'a>(alloc: Global, said: &Said<'a>) -> Result<Told, Untold<'a>>
    ensures read { IfOk result (λ told. ReadsScript (Ok told.script) (string_bytes told.text)) }
    ensures said { IfOk result (λ told. Says said.now told.script) }
{
    let text = json_text(alloc, said)?;
    match read_script(alloc, text.as_bytes()) {
        Ok(script) if says(said, script.parts()) => Ok(Told { text, script }),
        Ok(_) => Err(Untold::Differs),
        Err(fault) => Err(unread(alloc, said, fault)),
    }
}

/// The JSON of the script that lines say, and that script (docs/WORDS.md): `read_script` reads it from the JSON.
///
/// # Errors
///
/// `Faults` where the lines have any, and these; else where the script is refused, with the fault that `read_script`
/// names; `NoMemory` where memory runs out. `Differs` never comes, as far as tests show.
pub fn json<'a>(alloc: Global, said: &Said<'a>) -> Result<Told, Untold<'a>>
    ensures told { IfOk result (λ told. TellsScript said.now told) }
    ensures faults { (said.now.faults.items ≢ [])
        → IfErr result (λ why. GivesFaults said.now.faults.items why) }
{
    if said.faults.is_empty() {
        told_of(alloc, said)
    } else {
        Err(faulty(alloc, said.faults.as_slice()))
    }
}

/// The JSON of a text in words, and the script that `read_script` reads from it.
///
/// # Errors
///
/// As `read_lines` and `json` have them.
pub fn json_of<'a>(alloc: Global, text: &'a [u8]) -> Result<Told, Untold<'a>>
    ensures read { IfOk result (λ told. ReadsScript (Ok told.script) (string_bytes told.text)) }
    ensures said { IfOk result (λ told. IsSaidIn text.now told.script) }
{
    let said = read_lines(alloc, text)?;
    json(alloc, &said)
}
