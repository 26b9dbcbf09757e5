//! Transcripts of sessions: their texts, written and read, also by `serde_json` alone, and their judging.

ghost use Rattle.std.specs.Prelude.{◌≡◌, IfOk};
ghost use Rattle.irp_bench.specs.Bench.{ComesOf, HasCome};
ghost use Rattle.irp_transcript_writer.specs.Lines.{lines, text_of};

use crate::calls::{Work, do_work};
use crate::timed::{Done, Host, NotTimed, Timed};
use irp_fast_reader::{Line, Reader, read_transcript};
use irp_judge::{Judge, Verdict, check};
use irp_shared::Transcript;
use irp_streams::WriterOut;
use irp_transcript_writer::write_transcript;
use irp_types::DeviceId;
use serde_json::Value;
use std::alloc::{AllocError, Global};
use std::time::Instant;

/// How many lines' values are written by `serde_json` alone.
const LINES: usize = 10_000;
/// How many bytes a block has, but for the last one.
const BLOCK: usize = 262_144;
/// How many calls come first: four devices are created, three attached, and a packet is allocated.
const FIRST_CALLS: u32 = 8;

/// What is done with a transcript or its text.
#[derive(Clone, Copy)]
pub enum Task {
    /// The transcript is written.
    Write,
    /// The values of the text's first lines are written by `serde_json` alone.
    WriteValues,
    /// The text is read as a transcript.
    Read,
    /// The values of the text's lines are read by `serde_json` alone, and dropped.
    ReadValues,
    /// The transcript is judged.
    Judge,
    /// The text is read and judged block after block, as `irpx check` does.
    Blocks,
}

/// A transcript, its text, the values of the text's first lines, and how many bytes these lines have.
#[derive(Drop)]
pub struct Sample {
    transcript: Transcript,
    text: Vec<u8>,
    values: Vec<Value>,
    bytes: u64,
}

/// What came of a task; `Count` is of bytes that were written or read.
#[derive(Drop)]
enum Made {
    Text(Vec<u8>),
    Transcript(Transcript),
    Verdict(Verdict),
    Count(u64),
}

/// The text of a transcript, with room for so many bytes from the beginning.
fn text(alloc: Global, transcript: &Transcript, room: usize) -> Result<Vec<u8>, AllocError>
    ensures { IfOk result (λ text. text.items ≡ text_of (lines transcript.now)) }
{
    let mut out = WriterOut::new(Vec::with_capacity(alloc, room)?);
    write_transcript(alloc, &mut out, transcript).map_err(|_| AllocError)?;
    Ok(out.into_writer())
}

/// Reads the values of at most so many first lines. It answers them if it keeps them, and how many bytes these lines
/// have. `Memory` where a line isn't read.
fn read_values(alloc: Global, text: &[u8], most: usize, keeps: bool) -> Timed<(Vec<Value>, u64)> {
    let (mut values, mut bytes) = (Vec::new(alloc), 0u64);
    for line in text.split_inclusive(|&byte| byte == b'\n').take(most) {
        let value = Value::from_slice(alloc, line).map_err(|_| NotTimed::Memory)?;
        if keeps {
            values.push(value).map_err(|_| NotTimed::Memory)?;
        }
        bytes = bytes.saturating_add(line.len() as u64);
    }
    Ok((values, bytes))
}

/// A transcript of so many entries, and its text: in a session of one seat, a packet is sent through four devices again
/// and again, with the three calls before each send that make it ready.
/// `Memory` where memory ran out, and `Failed` where a call was answered otherwise than it should be, or the number of
/// entries can't be had: it is a multiple of four, and 10,000 to 1,000,000.
pub fn record_sample<R: Host>(rt: &R, entries: u32) -> Timed<Sample>
    ensures { IfOk result (λ sample. sample.text.items ≡ text_of (lines sample.transcript)) }
{
    let times = entries.saturating_sub(FIRST_CALLS) / 4;
    let sent = do_work(rt, Some(1), Work::Sends(DeviceId(3), 1, times))?.1;
    let transcript = sent.ok_or(NotTimed::Failed)?;
    let text = text(rt.alloc(), &transcript, 0)?;
    let (values, bytes) = read_values(rt.alloc(), text.as_slice(), LINES, true)?;
    if transcript.entries().len() != entries as usize || values.len() != LINES {
        return Err(NotTimed::Failed);
    }
    Ok(Sample {
        transcript,
        text,
        values,
        bytes,
    })
}

/// Writes each value's compact text, and counts the bytes with a newline behind each.
fn write_values(alloc: Global, values: &[Value]) -> Result<u64, AllocError> {
    let mut bytes: u64 = 0;
    for value in values {
        let line = value.to_vec(alloc)?;
        bytes = bytes.saturating_add(line.len() as u64).saturating_add(1);
    }
    Ok(bytes)
}

/// Reads the lines that end in a block, and has the judge judge their entries.
fn judge_block(alloc: Global, reader: &mut Reader, judge: &mut Judge, block: &[u8]) -> Timed<()> {
    let mut rest = block;
    while let Some((line, count)) = reader.next(alloc, rest)? {
        if let Line::Entry(entry) = &line {
            judge.feed(entry)?;
        }
        rest = &rest[count..];
    }
    Ok(())
}

/// Does this with the sample.
fn work(alloc: Global, task: Task, sample: &Sample) -> Timed<Made>
    ensures { IfOk result (λ made. ComesOf task sample.now made) }
{
    let (transcript, given) = (&sample.transcript, sample.text.as_slice());
    Ok(match task {
        Task::Write => Made::Text(text(alloc, transcript, given.len())?),
        Task::WriteValues => Made::Count(write_values(alloc, sample.values.as_slice())?),
        Task::Read => Made::Transcript(read_transcript(alloc, given)?),
        Task::ReadValues => Made::Count(read_values(alloc, given, usize::MAX, false)?.1),
        Task::Judge => Made::Verdict(check(alloc, transcript)?),
        Task::Blocks => {
            transcript.is_one();
            let header = transcript.header().ok_or(NotTimed::Failed)?;
            let (mut reader, mut judge) = (Reader::new(alloc), Judge::new(alloc, header));
            for block in given.chunks(BLOCK) {
                judge_block(alloc, &mut reader, &mut judge, block)?;
            }
            reader.finish()?;
            Made::Verdict(judge.verdict())
        }
    })
}

/// Times a task without the check of what came of it. `Failed` unless that is all of so many entries, or of the bytes;
/// `NotLegal` where it is another verdict than Legal.
pub fn perform<R: Host>(rt: &R, task: Task, entries: u32, sample: &Sample) -> Timed<Done>
    ensures { IfOk result (λ _. HasCome task entries sample.now) }
{
    let start = Instant::now(rt)?;
    let made = work(rt.alloc(), task, sample)?;
    let taken = start.elapsed(rt);
    let (count, bytes) = match task {
        Task::WriteValues => (LINES as u32, sample.bytes),
        _ => (entries, sample.text.len() as u64),
    };
    let entries = u64::from(entries);
    let (is_expected, fault) = match &made {
        Made::Text(text) => (text.len() == sample.text.len(), NotTimed::Failed),
        Made::Transcript(made) => (made.entries().len() as u64 == entries, NotTimed::Failed),
        Made::Verdict(verdict) => (*verdict == (Verdict::Legal { entries }), NotTimed::NotLegal),
        Made::Count(made) => (*made == bytes, NotTimed::Failed),
    };
    drop(made);
    if !is_expected {
        return Err(fault);
    }
    Ok(Done::of(count, bytes, taken?))
}
