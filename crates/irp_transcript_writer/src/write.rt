//! Writing transcripts. Source: this project's own format (docs/FORMATS.md).

ghost use Rattle.std.specs.Prelude.{map, OnOk, IfErr};
ghost use Rattle.std.specs.Io.KnownBytes.{Appends};
ghost use Rattle.std.specs.Option.{option_copied};
ghost use Rattle.irp_transcript_writer.specs.Json.{line_text};
ghost use Rattle.irp_transcript_writer.specs.Lines.{header_lines, lines, text_of};
ghost use Rattle.irp_transcript_writer.specs.Puts.{CountsFault, PutsText, Stopped};

use crate::form::{Written, write_line};
use irp_streams::{Out, put_all};
use irp_transcript::{Header, Transcript};
use std::alloc::Global;
use thiserror::Error;

/// What stopped a write.
#[derive(Clone, Copy, Debug, PartialEq, Eq, Error)]
pub enum Cause {
    /// The output failed.
    #[error("the output failed")]
    Io,
    /// Memory ran out.
    #[error("memory ran out")]
    Memory,
}

/// A write that stopped.
#[derive(Clone, Copy, Debug, PartialEq, Eq, Error)]
#[error("{cause} after {written} bytes")]
pub struct WriteFault {
    /// How many bytes of the text had gone out, at most the greatest `u64`.
    pub written: u64,
    /// Why it stopped.
    pub cause: Cause,
}

/// Puts a value's line after so many bytes, and tells how many there are then. The line is made in the buffer.
fn put_line<O: Out, T: Written>(
    line: &mut Vec<u8>,
    out: &mut O,
    value: &T,
    before: u64,
) -> Result<u64, WriteFault>
    ensures { PutsText (line_text (T.json value.now)) before
        (O.gone out.old) (O.gone out.new) (O.failures out.old) (O.failures out.new) result }
{
    let Ok(()) = write_line(line, value) else {
        return Err(WriteFault {
            written: before,
            cause: Cause::Memory,
        });
    };
    match put_all(out, line.as_slice()) {
        Ok(()) => Ok(before.saturating_add(line.len() as u64)),
        Err(done) => Err(WriteFault {
            written: before.saturating_add(done as u64),
            cause: Cause::Io,
        }),
    }
}

/// Puts the lines of these values after so many bytes, and tells how many there are then.
fn put_lines<O: Out, T: Written>(
    line: &mut Vec<u8>,
    out: &mut O,
    values: &[T],
    before: u64,
) -> Result<u64, WriteFault>
    ensures { PutsText (text_of (map T.json values.now)) before
        (O.gone out.old) (O.gone out.new) (O.failures out.old) (O.failures out.new) result }
{
    let mut written = before;
    for value in values {
        written = put_line(line, out, value, written)?;
    }
    Ok(written)
}

/// Puts the header's line, where there is a header, and tells how many bytes there are then.
fn put_header<O: Out>(
    line: &mut Vec<u8>,
    out: &mut O,
    header: Option<&Header>,
) -> Result<u64, WriteFault>
    ensures { PutsText (text_of (header_lines (option_copied header.entry))) 0
        (O.gone out.old) (O.gone out.new) (O.failures out.old) (O.failures out.new) result }
{
    match header {
        Some(header) => put_line(line, out, header, 0),
        None => Ok(0),
    }
}

/// Writes a transcript: the header's line, where there is a header, then a line for each entry, then the word lines,
/// each in order. It makes one put a line, and more where the output takes less.
///
/// # Errors
///
/// `Cause::Io` where a put failed, and exactly then the output's count of failures rose; `Cause::Memory` where memory
/// ran out. After either, what went out is a beginning of the text, and `written` tells how long it is.
pub fn write_transcript<O: Out>(
    alloc: Global,
    out: &mut O,
    transcript: &Transcript,
) -> Result<(), WriteFault>
    ensures ok { OnOk result
        (Appends (O.gone out.old) (O.gone out.new) (text_of (lines transcript.now))) }
    ensures fault { IfErr result (λ fault.
        Stopped (text_of (lines transcript.now)) 0 (O.gone out.old) (O.gone out.new)
        fault.written) }
    ensures cause { CountsFault (O.failures out.old) (O.failures out.new) result }
{
    let mut line = Vec::new(alloc);
    let written = put_header(&mut line, out, transcript.header())?;
    let written = put_lines(&mut line, out, transcript.entries(), written)?;
    put_lines(&mut line, out, transcript.words(), written)?;
    Ok(())
}
