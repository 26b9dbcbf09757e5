//! The texts of scripts and transcripts, read, and the lines of a transcript.

use crate::tried::{Halt, Tried, carried, made_or, wanted};
use irp_fast_reader::{ReadFault, read_again, read_transcript};
use irp_judge::{Verdict, check};
use irp_script_reader::{ScriptFault, read_script};
use irp_shared::{Header, Transcript, TranscriptParts};
use irp_transcript_writer::{Written, line_of};
use irp_types::Entry;
use std::alloc::Global;
use std::io::Write;

/// The transcript of one device that finishes one packet, byte by byte as the formats have it (docs/FORMATS.md).
static TRANSCRIPT: &[u8] =
    b"{\"cancels\":[],\"completions\":[0,0,0,0,0],\"dispatches\":[[0,0,0,0,0,0]],\"drivers\":[[[3,0]]],\"form\":1,\"locks\":1,\"seats\":1}
{\"asked\":[],\"call\":{\"do\":\"create_device\",\"driver\":0,\"lock\":0},\"n\":0,\"reply\":{\"device\":0},\"seat\":0}
{\"asked\":[],\"call\":{\"do\":\"allocate\",\"size\":1},\"n\":1,\"reply\":{\"irp\":[0,1]},\"seat\":0}
{\"asked\":[],\"call\":{\"by\":\"o\",\"do\":\"set_next\",\"irp\":[0,1],\"major\":3,\"word\":7},\"n\":2,\"reply\":\"done\",\"seat\":0}
{\"asked\":[{\"dispatch\":0,\"plan\":[\"finish\",0,5],\"shown\":[0,0,1,3,1,7,0,0,false,false,0,false]}],\"call\":{\"by\":\"o\",\"do\":\"call_driver\",\"irp\":[0,1],\"target\":0},\"n\":3,\"reply\":{\"status\":0},\"seat\":0}
";

/// A script with a routine, a cancel routine, a dispatch, a driver, a label, a call and an act on a remove lock.
static SCRIPT: &[u8] =
    b"{\"form\":1,\"seats\":1,\"locks\":1,\"completions\":[[\"watch\",\"continue\",\"continue\"]],
 \"cancels\":[[\"finish\",0]],\"dispatches\":[[\"hold\",0]],\"drivers\":[[[3,0]]],
 \"setup\":[{\"seat\":0,\"do\":\"create_device\",\"driver\":0,\"lock\":0}],
 \"steps\":[{\"seat\":0,\"do\":\"allocate\",\"size\":1,\"as\":\"a\"},{\"seat\":0,\"do\":\"cancel\",\"irp\":\"a\"},
  {\"seat\":0,\"do\":\"acquire\",\"lock\":0,\"tag\":1}]}";

/// The transcript's text. It is named here alone: a proof takes it in for each function that names it.
pub fn transcript_text() -> &'static [u8] {
    TRANSCRIPT
}

/// Puts the line of a value.
fn put_line<T: Written>(alloc: Global, out: &mut Vec<u8>, value: &T) -> Result<(), Halt> {
    out.extend_from_slice(line_of(alloc, value)?.as_slice())?;
    Ok(())
}

/// Puts the lines of the header, with this number of seats, and of the entries of these seats, numbered from 0.
fn put_lines(
    alloc: Global,
    out: &mut Vec<u8>,
    header: Header,
    entries: Vec<Entry>,
    seats: u32,
) -> Result<(), Halt> {
    let mut done = put_line(alloc, out, &Header { seats, ..header });
    let mut number: u64 = 0;
    for entry in entries {
        if entry.seat < seats {
            let own = Entry { number, ..entry };
            done = done.and(put_line(alloc, out, &own));
            number = number.wrapping_add(1);
        }
    }
    done
}

/// Judges a transcript, which has to be legal, and once more where memory is missing.
fn judge(alloc: Global, transcript: &Transcript, tried: &mut Tried) -> Result<(), Halt> {
    let verdict = match check(alloc, transcript) {
        Ok(verdict) => verdict,
        Err(_) => {
            tried.refused("irp_judge::check", true)?;
            check(alloc, transcript)?
        }
    };
    let count = transcript.entries().len() as u64;
    wanted(
        verdict == (Verdict::Legal { entries: count }),
        "a history isn't legal",
    )
}

/// Judges a transcript, which has to be legal. Puts its lines as if it were one of so many seats: what further ones did
/// is left out.
pub fn put_transcript(
    alloc: Global,
    out: &mut Vec<u8>,
    transcript: Transcript,
    seats: u32,
    tried: &mut Tried,
) -> Result<(), Halt> {
    let (_, transcript) = carried(judge(alloc, &transcript, tried), transcript)?;
    let TranscriptParts {
        header,
        entries,
        ..
    } = transcript.into_parts();
    match header {
        Some(header) => put_lines(alloc, out, header, entries.into_vec(), seats),
        None => Err(Halt::Wrong("a transcript has no header")),
    }
}

/// Reads the script, and puts how many steps before the workers, steps of theirs and labels it has. Where memory is
/// missing, it is read again.
pub fn read_the_script(alloc: Global, out: &mut Vec<u8>, tried: &mut Tried) -> Result<(), Halt> {
    let text = SCRIPT;
    let read = match read_script(alloc, text) {
        Err(ScriptFault::NoMemory) => {
            tried.refused("read_script", true)?;
            read_script(alloc, text)
        }
        other => other,
    };
    let script = made_or(read, "the script was refused")?;
    let parts = script.parts();
    let (setup, steps) = (parts.setup.as_slice().len(), parts.steps.as_slice().len());
    let labels = parts.labels.len();
    drop(script);
    Ok(writeln!(out, "setup {setup}, steps {steps}, labels {labels}")?)
}

/// Reads the text, by itself or as the text of this transcript.
fn read(alloc: Global, own: Option<&Transcript>) -> Result<Transcript, ReadFault> {
    match own {
        Some(transcript) => read_again(alloc, transcript, transcript_text()),
        None => read_transcript(alloc, transcript_text()),
    }
}

/// Reads the transcript, by its text alone or, once more, as the text of this one. Where memory is missing, it is read
/// again. The next step of a scenario begins.
pub fn the_transcript(
    alloc: Global,
    own: Option<&Transcript>,
    tried: &mut Tried,
) -> Result<Transcript, Halt> {
    let mut made = read(alloc, own);
    if matches!(made, Err(ReadFault::NoMemory)) {
        let name = if own.is_some() {
            "read_again"
        } else {
            "read_transcript"
        };
        tried.refused(name, true)?;
        made = read(alloc, own);
    }
    tried.step = tried.step.wrapping_add(1);
    made_or(made, "the transcript was refused")
}

/// Reads the transcript, judges it, and puts its lines.
pub fn read_the_transcript(
    alloc: Global,
    out: &mut Vec<u8>,
    tried: &mut Tried,
) -> Result<(), Halt> {
    let transcript = the_transcript(alloc, None, tried)?;
    put_transcript(alloc, out, transcript, 1, tried)
}
