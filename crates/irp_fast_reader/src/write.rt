//! Writing transcripts that fit. Source: this project's own format (docs/FORMATS.md).

ghost use Rattle.std.specs.Prelude.{OnOk, Some};
ghost use Rattle.irp_fast_reader.specs.Fitting.{Counts, IsReadBack, PutsLine, PutsLines, Writes};

use crate::fitting::Fitting;
use crate::round_trip::written_is_read;
use crate::unfit::{Unfit, Unwritten};
use irp_streams::{Out, put_all};
use irp_transcript::{Header, Transcript, WordLine};
use irp_transcript_reader::MOST_BYTES;
use irp_types::Entry;
use irp_types::limits::MOST_ENTRIES;
use std::alloc::Global;

/// Puts the line of a value that fits under the header. The line is made in the buffer.
fn put_line<O: Out, T: Fitting>(
    line: &mut Vec<u8>,
    out: &mut O,
    header: &Header,
    value: &T,
    place: usize,
) -> Result<(), Unwritten>
    ensures puts { PutsLine (T.told header.now) T.json (T.unfit place) value.now
        (O.gone out.old) (O.gone out.new) result }
    ensures counts { Counts (O.failures out.old) (O.failures out.new) result }
{
    if !value.is_told(header) {
        return Err(Unwritten::Unfit(T::unfit(place)));
    }
    line.clear();
    let Ok(()) = value.write(line) else {
        return Err(Unwritten::NoMemory);
    };
    if line.len() > MOST_BYTES {
        return Err(Unwritten::Unfit(T::unfit(place)));
    }
    let Ok(()) = line.extend_from_slice(b"\n") else {
        return Err(Unwritten::NoMemory);
    };
    match put_all(out, line.as_slice()) {
        Ok(()) => Ok(()),
        Err(_) => Err(Unwritten::Output),
    }
}

/// Puts the lines of these values, up to the first that doesn't fit under the header.
fn put_lines<O: Out, T: Fitting>(
    line: &mut Vec<u8>,
    out: &mut O,
    header: &Header,
    values: &[T],
) -> Result<(), Unwritten>
    ensures puts { PutsLines (T.told header.now) T.json T.unfit values.now
        (O.gone out.old) (O.gone out.new) result }
    ensures counts { Counts (O.failures out.old) (O.failures out.new) result }
{
    for place in 0..values.len() {
        put_line(line, out, header, &values[place], place)?;
    }
    Ok(())
}

/// Writes the lines of a transcript with this header.
fn write_under<O: Out>(
    alloc: Global,
    out: &mut O,
    header: &Header,
    entries: &[Entry],
    words: &[WordLine],
) -> Result<(), Unwritten>
    ensures writes { Writes (record {
      header = Some header.now;
      entries = entries.now;
      words = words.now;
    }) (O.gone out.old) (O.gone out.new) result }
    ensures counts { Counts (O.failures out.old) (O.failures out.new) result }
{
    if entries.len() > MOST_ENTRIES {
        return Err(Unwritten::Unfit(Unfit::TooMany));
    }
    let mut line = Vec::new(alloc);
    put_line(&mut line, out, header, header, 0)?;
    put_lines(&mut line, out, header, entries)?;
    put_lines(&mut line, out, header, words)
}

/// Writes a transcript, up to the first line that doesn't fit: the header's line, where there is a header, then a line
/// for each entry, then the word lines, each in order. What went out is read again as the same.
///
/// # Errors
///
/// `Unfit` with the first part that doesn't fit: exactly the lines before it went out. `Output` where a put failed, and
/// exactly then the output's count of failures rose; `NoMemory` where memory ran out. After either, a beginning of the
/// lines that fit went out, and not the whole text.
pub fn write_fitting<O: Out>(
    alloc: Global,
    out: &mut O,
    transcript: &Transcript,
) -> Result<(), Unwritten>
    ensures writes { Writes transcript.now (O.gone out.old) (O.gone out.new) result }
    ensures back { OnOk result (IsReadBack transcript.now) }
    ensures counts { Counts (O.failures out.old) (O.failures out.new) result }
{
    transcript.is_one();
    written_is_read();
    match transcript.header() {
        Some(header) => write_under(alloc, out, header, transcript.entries(), transcript.words()),
        None => Ok(()),
    }
}
