//! Lines are read and answered, one after another.

ghost use Rattle.std.specs.Prelude.{◌≡◌, [], IfErr, IfOk, OnErr, OnOk, Some};
ghost use Rattle.serde_json.specs.Data.{null};
ghost use Rattle.serde_json.specs.View.{view};
ghost use Rattle.irp_transcript.specs.Headers.{IsHeader};
ghost use Rattle.irp_transcript.specs.Transcripts.{no_lines};
ghost use Rattle.irp_transcript_reader.specs.Reading.{IsNext, so_far};
ghost use Rattle.irp_transcript_writer.specs.Json.{line_text};
ghost use Rattle.irp_live.specs.Sessions.{Stands, session_of};
ghost use Rattle.irp_streams.specs.Streams.{output_of, streams_of};
ghost use Rattle.irp_live.specs.Streams.{IsCut, Puts};
ghost use Rattle.irp_live.specs.Told.{fault_json};
ghost use Rattle.irp_live.specs.Talking.{
  IsBegun,
  IsConversed,
  IsFinished,
  IsFirst,
  IsLived,
  IsNoHeader,
  IsServed,
  IsTurn,
  IsUnbegun,
  verdict_line as told_line,
};

use crate::asking::{LineFault, Unheard, value_of};
use crate::lines::read_line;
use crate::session::Session;
use crate::told::Faulty;
use irp_forms::Unread;
use irp_judge::Verdict;
use irp_streams::{Out, StreamFault, send};
use irp_transcript::Header;
use irp_transcript_reader::Reading;
use irp_transcript_writer::line_of;
use irp_types::Refusal;
use serde_json::Value;
use std::alloc::{AllocError, Global};
use std::io::BufRead;

/// Why there is no verdict.
#[derive(Clone, Copy)]
pub enum LiveFault {
    /// The first line is no header. That it has a fault went out.
    RefusedHeader,
    /// The input or the output failed, or memory ran out.
    Stream(StreamFault),
}

/// One turn: the next line is read, and answered. False where nothing more is to be answered.
#[tactic(auto, using(crate::proofs::Turns::turns))]
fn turn<R: BufRead, O: Out>(
    alloc: Global,
    input: &mut R,
    output: &mut O,
    session: &mut Session<'_>,
    number: u64,
    line: &mut Vec<u8>,
) -> Result<bool, StreamFault>
    requires { Stands (session_of session.now) }
    ensures { IsTurn number (session_of session.old)
        (streams_of (R.remaining input.old) (O.gone output.old) (O.failures output.old)) result
        (session_of session.new)
        (streams_of (R.remaining input.new) (O.gone output.new) (O.failures output.new)) }
{
    if !read_line(input, line)? {
        return Ok(false);
    }
    match session.reply(alloc, number, line.as_slice())? {
        None => Ok(false),
        Some(said) => {
            match send(output, said.as_slice()) {
                Ok(()) => Ok(true),
                Err(fault) => Err(fault),
            }
        }
    }
}

/// Reads lines, from the second on, and answers each, up to the one that asks for the verdict, or the end.
fn converse<R: BufRead, O: Out>(
    alloc: Global,
    input: &mut R,
    output: &mut O,
    session: &mut Session<'_>,
) -> Result<(), StreamFault>
    requires { Stands (session_of session.now) }
    ensures conversed { IsConversed (session_of session.old)
        (streams_of (R.remaining input.old) (O.gone output.old) (O.failures output.old)) result
        (session_of session.new)
        (streams_of (R.remaining input.new) (O.gone output.new) (O.failures output.new)) }
    ensures stands { OnOk result (Stands (session_of session.new)) }
{
    let mut line = Vec::new(alloc);
    for number in 2..u64::MAX {
        match turn(alloc, input, output, session, number, &mut line) {
            Ok(true) => {}
            Ok(false) => return Ok(()),
            Err(fault) => return Err(fault),
        }
    }
    Err(StreamFault::Failed)
}

/// The line that tells a verdict.
fn verdict_line(alloc: Global, verdict: Verdict) -> Result<String, AllocError>
    ensures { IfOk result (λ line. line.bytes.items ≡ told_line verdict) }
{
    match verdict {
        Verdict::Legal { entries } => format!(in alloc; "legal {entries}\n"),
        Verdict::Illegal { at } => format!(in alloc; "illegal {at}\n"),
    }
}

/// What the first line begins: its header, and a reading that has it.
struct Begun {
    header: Header,
    reading: Reading,
}

/// The header alone, as a reading has it that took the first line's value.
fn header_reading(alloc: Global, value: &Value) -> Result<Reading, Unheard>
    ensures ok { IfOk result (λ reading. IsNext no_lines (view value.now) (so_far reading)) }
    ensures err { IfErr result (IsNoHeader (view value.now)) }
{
    let mut reading = Reading::new(alloc);
    match reading.take_value(alloc, value) {
        Ok(()) => Ok(reading),
        Err(Unread::Form) => Err(Unheard::Fault(LineFault::NoForm)),
        Err(Unread::NoMemory) => Err(Unheard::NoMemory),
    }
}

/// What the first line begins. It is refused where it is no header that the formats accept.
#[tactic(auto, using(crate::proofs::Begun::begun))]
fn begin(alloc: Global, line: &[u8]) -> Result<Begun, Unheard>
    ensures ok { IfOk result (λ begun. IsBegun line.now begun.header (so_far begun.reading)) }
    ensures err { IfErr result (IsUnbegun line.now) }
{
    let value = value_of(alloc, line)?;
    let reading = header_reading(alloc, &value)?;
    let Reading { header, .. } = header_reading(alloc, &value)?;
    match header {
        Some(header) => Ok(Begun { header, reading }),
        None => Err(Unheard::Fault(LineFault::NoForm)),
    }
}

/// Tells the output a verdict.
fn tell<O: Out>(alloc: Global, output: &mut O, verdict: Verdict) -> Result<(), StreamFault>
    ensures ok { OnOk result (Puts (told_line verdict)
        (output_of (O.gone output.old) (O.failures output.old))
        (output_of (O.gone output.new) (O.failures output.new))) }
    ensures err { OnErr result (IsCut (told_line verdict)
        (output_of (O.gone output.old) (O.failures output.old))
        (output_of (O.gone output.new) (O.failures output.new))) }
{
    let Ok(line) = verdict_line(alloc, verdict) else {
        return Err(StreamFault::NoMemory);
    };
    send(output, line.as_bytes())
}

/// Answers the lines behind the header's, and tells the verdict.
fn finish<R: BufRead, O: Out>(
    alloc: Global,
    input: &mut R,
    output: &mut O,
    session: &mut Session<'_>,
) -> Result<Verdict, StreamFault>
    requires { Stands (session_of session.now) }
    ensures { IsFinished (session_of session.old)
        (streams_of (R.remaining input.old) (O.gone output.old) (O.failures output.old)) result
        (streams_of (R.remaining input.new) (O.gone output.new) (O.failures output.new)) }
{
    match converse(alloc, input, output, session) {
        Ok(()) => {}
        Err(fault) => return Err(fault),
    }
    let verdict = session.verdict();
    match tell(alloc, output, verdict) {
        Ok(()) => Ok(verdict),
        Err(fault) => Err(fault),
    }
}

/// Answers a header.
fn accept<O: Out>(alloc: Global, output: &mut O) -> Result<(), StreamFault>
    ensures ok { OnOk result (Puts (line_text null)
        (output_of (O.gone output.old) (O.failures output.old))
        (output_of (O.gone output.new) (O.failures output.new))) }
    ensures err { OnErr result (IsCut (line_text null)
        (output_of (O.gone output.old) (O.failures output.old))
        (output_of (O.gone output.new) (O.failures output.new))) }
{
    let Ok(answer) = line_of(alloc, &None::<Refusal>) else {
        return Err(StreamFault::NoMemory);
    };
    send(output, answer.as_slice())
}

/// Answers the header's line, and those behind it. The verdict.
fn serve<R: BufRead, O: Out>(
    alloc: Global,
    input: &mut R,
    output: &mut O,
    begun: Begun,
) -> Result<Verdict, StreamFault>
    requires header { (so_far begun.reading).header ≡ Some begun.header }
    requires accepted { IsHeader begun.header }
    requires none { (so_far begun.reading).entries ≡ [] }
    ensures { IsServed (so_far begun.reading)
        (streams_of (R.remaining input.old) (O.gone output.old) (O.failures output.old)) result
        (streams_of (R.remaining input.new) (O.gone output.new) (O.failures output.new)) }
{
    let Begun { header, reading } = begun;
    match accept(alloc, output) {
        Ok(()) => {}
        Err(fault) => return Err(fault),
    }
    let mut session = Session::new(alloc, &header, reading);
    finish(alloc, input, output, &mut session)
}

/// Refuses the first line. The fault is that of the output, or want of memory.
fn refuse<O: Out>(alloc: Global, output: &mut O, fault: LineFault) -> Result<(), StreamFault>
    ensures ok { OnOk result (Puts (line_text (fault_json fault 1))
        (output_of (O.gone output.old) (O.failures output.old))
        (output_of (O.gone output.new) (O.failures output.new))) }
    ensures err { OnErr result (IsCut (line_text (fault_json fault 1))
        (output_of (O.gone output.old) (O.failures output.old))
        (output_of (O.gone output.new) (O.failures output.new))) }
{
    let Ok(complaint) = line_of(alloc, &Faulty { fault, line: 1 }) else {
        return Err(StreamFault::NoMemory);
    };
    send(output, complaint.as_slice())
}

/// What a first line gives.
fn first<R: BufRead, O: Out>(
    alloc: Global,
    input: &mut R,
    output: &mut O,
    line: &[u8],
) -> Result<Verdict, LiveFault>
    ensures { IsFirst line.now
        (streams_of (R.remaining input.old) (O.gone output.old) (O.failures output.old)) result
        (streams_of (R.remaining input.new) (O.gone output.new) (O.failures output.new)) }
{
    match begin(alloc, line) {
        Ok(begun) => match serve(alloc, input, output, begun) {
            Ok(verdict) => Ok(verdict),
            Err(fault) => Err(LiveFault::Stream(fault)),
        },
        Err(Unheard::Fault(fault)) => match refuse(alloc, output, fault) {
            Ok(()) => Err(LiveFault::RefusedHeader),
            Err(fault) => Err(LiveFault::Stream(fault)),
        },
        Err(Unheard::NoMemory) => Err(LiveFault::Stream(StreamFault::NoMemory)),
    }
}

/// Reads lines and answers each by a line, at once: a header's by null; then questions, and the further lines of the
/// transcript, each by what is wrong with it, or null; up to the line that asks for the verdict, or the end of the
/// input. Then the verdict goes out, as `irpx check` tells it of the same transcript. What stands behind the last newline
/// is no line. Without a line there are no entries (this project's own format, docs/FORMATS.md).
///
/// # Errors
///
/// `RefusedHeader` where the first line is no header; `Stream` where the input or the output failed or memory ran out,
/// and then a beginning of the answers went out.
pub fn live<R: BufRead, O: Out>(
    alloc: Global,
    input: &mut R,
    output: &mut O,
) -> Result<Verdict, LiveFault>
    ensures { IsLived
        (streams_of (R.remaining input.old) (O.gone output.old) (O.failures output.old)) result
        (streams_of (R.remaining input.new) (O.gone output.new) (O.failures output.new)) }
{
    let mut line = Vec::new(alloc);
    match read_line(input, &mut line) {
        Ok(true) => first(alloc, input, output, line.as_slice()),
        Ok(false) => {
            let verdict = Verdict::Legal { entries: 0 };
            match tell(alloc, output, verdict) {
                Ok(()) => Ok(verdict),
                Err(fault) => Err(LiveFault::Stream(fault)),
            }
        }
        Err(fault) => Err(LiveFault::Stream(fault)),
    }
}
