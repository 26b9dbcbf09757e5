//! A transcript is written: whole, to outputs that fail, and as far as its lines fit.

use crate::texts::{the_transcript, transcript_text};
use crate::tried::{Halt, Tried, wanted};
use irp_fast_reader::{Unfit, Unwritten, write_fitting};
use irp_shared::{Transcript, TranscriptParts};
use irp_streams::WriterOut;
use irp_transcript_writer::{Cause, WriteFault, line_of, write_transcript};
use irp_types::{Call, Entry, IrpRef, Questions, Refusal, Reply, Row};
use std::alloc::Global;
use std::io::{self, Write};

/// A writer that keeps the bytes that it takes: so many a write at most, and so many in all. Then it fails.
#[derive(Drop)]
struct Cut<'a> {
    bytes: &'a mut Vec<u8>,
    most: usize,
    room: usize,
}

impl Write for Cut<'_> {
    fn write(&mut self, piece: &[u8]) -> io::Result<usize> {
        let count = piece.len().min(self.most.min(self.room));
        if count == 0 {
            return Err(io::Error::from(io::ErrorKind::BrokenPipe));
        }
        self.bytes.extend_from_slice(&piece[..count])?;
        self.room = self.room.saturating_sub(count);
        Ok(count)
    }

    fn flush(&mut self) -> io::Result<()> {
        Ok(())
    }
}

/// What went out of a write, and the fault.
type Gone = (Vec<u8>, Option<WriteFault>);

/// Writes a transcript to an output that takes so many bytes a write at most, and so many in all.
fn written(alloc: Global, transcript: &Transcript, most: usize, room: usize) -> Result<Gone, Halt> {
    let mut bytes = Vec::with_capacity(alloc, transcript_text().len())?;
    let mut out = WriterOut::new(Cut {
        bytes: &mut bytes,
        most,
        room,
    });
    let fault = write_transcript(alloc, &mut out, transcript).err();
    Ok((bytes, fault))
}

/// Whether a write stopped for this cause, and what went out is a beginning of the text, as long as it tells.
fn is_beginning(bytes: &[u8], fault: WriteFault, cause: Cause) -> bool {
    fault.cause == cause
        && fault.written == bytes.len() as u64
        && transcript_text().starts_with(bytes)
}

/// Writes the transcript, and puts what was written, which has to be the text that was read. Where memory is missing,
/// it is written again.
fn write_whole(
    alloc: Global,
    out: &mut Vec<u8>,
    transcript: &Transcript,
    tried: &mut Tried,
) -> Result<(), Halt> {
    let length = transcript_text().len();
    let (mut bytes, fault) = written(alloc, transcript, length, length)?;
    if let Some(fault) = fault {
        let is_same = is_beginning(bytes.as_slice(), fault, Cause::Memory);
        tried.refused("write_transcript", is_same)?;
        bytes = written(alloc, transcript, length, length)?.0;
    }
    let is_text = bytes.as_slice() == transcript_text();
    out.extend_from_slice(bytes.as_slice())?;
    wanted(
        is_text,
        "the text that was written isn't the one that was read",
    )
}

/// Reads the transcript, reads its text again, and writes what that gave: the text has to be the same.
pub fn write_the_transcript(
    alloc: Global,
    out: &mut Vec<u8>,
    tried: &mut Tried,
) -> Result<(), Halt> {
    let transcript = the_transcript(alloc, None, tried)?;
    let read = the_transcript(alloc, Some(&transcript), tried);
    drop(transcript);
    let again = read?;
    let done = write_whole(alloc, out, &again, tried);
    drop(again);
    done
}

/// Writes to an output that fails after so many bytes, and answers whether exactly these went out, and were counted.
fn is_cut(alloc: Global, transcript: &Transcript, room: usize) -> Result<bool, Halt> {
    let length = transcript_text().len();
    let (bytes, fault) = written(alloc, transcript, length, room)?;
    let Some(fault) = fault else {
        return Ok(false);
    };
    Ok(bytes.len() == room && is_beginning(bytes.as_slice(), fault, Cause::Io))
}

/// Whether an output that takes one byte a write gets the whole text, and the header's line is its beginning.
fn is_whole(alloc: Global, transcript: &Transcript) -> Result<bool, Halt> {
    let Some(header) = transcript.header() else {
        return Ok(false);
    };
    let text = transcript_text();
    let is_header = text.starts_with(line_of(alloc, header)?.as_slice());
    let (whole, fault) = written(alloc, transcript, 1, text.len())?;
    Ok(is_header && fault.is_none() && whole.as_slice() == text)
}

/// Writes the transcript to an output that fails after each number of bytes, and to one that takes one byte a write.
/// Puts a line for each number that was wrong, and how many were tried and were wrong.
fn put_cut_writes(alloc: Global, out: &mut Vec<u8>, transcript: &Transcript) -> Result<(), Halt> {
    let length = transcript_text().len();
    let mut wrong: u32 = 0;
    for room in 0..length {
        if !is_cut(alloc, transcript, room)? {
            wrong = wrong.wrapping_add(1);
            writeln!(out, "wrong: a write that fails after {room} bytes")?;
        }
    }
    if !is_whole(alloc, transcript)? {
        wrong = wrong.wrapping_add(1);
        out.extend_from_slice(b"wrong: the header's line, or a write byte by byte\n")?;
    }
    let tries = length + 1;
    Ok(writeln!(out, "tried: {tries} {wrong} cut writes")?)
}

/// Reads the transcript, and writes it to outputs that fail.
pub fn cut_writes(alloc: Global, out: &mut Vec<u8>, tried: &mut Tried) -> Result<(), Halt> {
    let transcript = the_transcript(alloc, None, tried)?;
    let done = put_cut_writes(alloc, out, &transcript);
    drop(transcript);
    done
}

/// How many lines of a transcript go out as far as they fit, and where it stopped, if behind its entries comes a look
/// at the first use of a packet in this slot, which is empty.
fn fitting(
    alloc: Global,
    transcript: Transcript,
    slot: usize,
) -> Result<(usize, Result<(), Unwritten>), Halt> {
    transcript.is_one();
    let TranscriptParts {
        header,
        entries,
        words,
    } = transcript.into_parts();
    let Some(header) = header else {
        return Err(Halt::Wrong("a transcript has no header"));
    };
    let mut entries = entries.into_vec();
    entries.push(Entry {
        number: entries.len() as u64,
        call: Call::Look {
            irp: IrpRef { slot, use_no: 1 },
        },
        asked: Questions::from_vec(Vec::new(alloc)),
        reply: Reply::Refused(Refusal::NoIrp),
        seat: 0,
        lock: None,
        drained: false,
    })?;
    let transcript = Transcript::new(header, Row::from_vec(entries), words);
    let mut bytes = Vec::new(alloc);
    let mut out = WriterOut::new(&mut bytes);
    let done = write_fitting(alloc, &mut out, &transcript);
    let lines = bytes.iter().filter(|byte| **byte == b'\n').count();
    Ok((lines, done))
}

/// A transcript that fits goes out whole: its last entry names slot 2^32 - 1. One that names the next slot goes out up
/// to there. No clause says that memory is there.
pub fn write_as_far_as_it_fits(alloc: Global, tried: &mut Tried) -> Result<(), Halt> {
    let last = u32::MAX as usize;
    let fits = fitting(alloc, the_transcript(alloc, None, tried)?, last)?;
    let unfit = fitting(alloc, the_transcript(alloc, None, tried)?, last + 1)?;
    wanted(
        fits == (6, Ok(())),
        "a transcript that fits isn't written whole",
    )
    .and(wanted(
        unfit == (5, Err(Unwritten::Unfit(Unfit::Entry { place: 4 }))),
        "lines go out behind one that doesn't fit, or less before it",
    ))
}
