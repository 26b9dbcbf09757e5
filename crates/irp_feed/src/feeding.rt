//! The lines behind the header of a text.

ghost use Rattle.std.specs.Prelude.{ℕ, ◌≡◌, ◌<◌, ◌≤◌, ◌+◌, List, ◌++◌, length, IfErr, IfOk, IfSome};
ghost use Rattle.irp_fast_reader.specs.Fed.{HasRead};
ghost use Rattle.irp_transcript.specs.Transcripts.{TranscriptValue};
ghost use Rattle.irp_feed.specs.Input.{Bytes, most_bytes};
ghost use Rattle.irp_feed.specs.Feeding.{AreAllBefore, AreRead, FailsBehind, FeedsBlock, FeedsRest, IsHopeless, IsNoBlock, IsSoFar, NextBlock, Starts, header_alone, refused_line};

use crate::header::Start;
use crate::input::{drain, take_block};
use crate::sink::LineSink;
use crate::unfed::{RefusedLine, Unfed, refused_in};
use irp_fast_reader::Reader;
use std::alloc::{AllocError, Global};
use std::io::Read;

/// What the line is that a reader refused in a block, where so many bytes of it stood before the block.
pub fn refused_next(alloc: Global, reader: &Reader, begun: usize, block: &[u8]) -> RefusedLine {
    let beginning = reader.begun().get(..begun).unwrap_or(&[]);
    refused_in(alloc, beginning, block)
}

/// Takes the rest of an input whose text isn't read to its end, and tells why it isn't: that the input failed, where the
/// rest can't be taken or is too long.
pub fn refuse<R: Read>(input: &mut R, buffer: &mut [u8], left: usize, unfed: Unfed) -> Unfed
    requires few { left ≤ most_bytes }
    requires room { 0 < length buffer.old }
    ensures fails { (old : Bytes) (text : List ℕ) → IsSoFar old (R.remaining input.old) left text
        → IsHopeless (refused_line unfed) text
        → FailsBehind text old (R.remaining input.new) (refused_line result) }
    ensures before { (count : ℕ) → AreAllBefore (refused_line unfed) count
        → AreAllBefore (refused_line result) count }
{
    match drain(input, buffer, left) {
        Ok(has_newline) => unfed.behind(has_newline),
        Err(_) => Unfed::Input,
    }
}

/// Takes the next block of an input into the buffer, behind a text of which the reader has read the whole lines, and counts
/// its bytes. None at the end of the input. `left` is how many bytes the input may still have.
///
/// # Errors
///
/// `Input` where the input failed, or has more bytes; `Refused` where the text has no newline at its end, and no other.
pub fn next_block<R: Read>(
    input: &mut R,
    buffer: &mut [u8],
    reader: &Reader,
    left: usize,
) -> Result<Option<usize>, Unfed>
    requires few { left ≤ most_bytes }
    requires room { 0 < length buffer.old }
    ensures room { length buffer.new ≡ length buffer.old }
    ensures bound { IfOk result (λ next. IfSome next (λ count.
        (0 < count) × (count ≤ left) × (count ≤ length buffer.new))) }
    ensures next { (old : Bytes) (text : List ℕ) (before : TranscriptValue)
        → IsSoFar old (R.remaining input.old) left text → HasRead reader.now text before
        → NextBlock result old (R.remaining input.new) left buffer.new text before }
    ensures fault { IfErr result IsNoBlock }
{
    match take_block(input, buffer, left) {
        Ok(0) => match reader.finish() {
            Ok(()) => Ok(None),
            Err(fault) => Err(Unfed::of(fault, RefusedLine::NoNewline)),
        },
        Ok(count) => Ok(Some(count)),
        Err(_) => Err(Unfed::Input),
    }
}

/// Reads the lines that end in a block, behind the header of a text, and gives each to the sink; tells why a line of them
/// isn't read, whatever follows the block. Then the sink has taken the lines before that one.
///
/// # Errors
///
/// `AllocError` where memory ran out for the sink.
fn feed_block<O, S: LineSink<O>>(
    alloc: Global,
    reader: &mut Reader,
    sink: &mut S,
    block: &[u8],
) -> Result<Result<(), Unfed>, AllocError>
    ensures { (output : O) (fixed : S.Fixed) (ended : TranscriptValue) (text : List ℕ)
        → AreRead reader.old text ended → S.has_taken sink.old output fixed ended ended
        → length text + length block.now ≤ most_bytes
        → FeedsBlock result reader.new (S.has_taken sink.new output fixed ended)
        (S.has_left sink.new output fixed ended) (text ++ block.now) }
{
    let begun = reader.begun().len();
    let mut rest = block;
    while !rest.is_empty() {
        let (line, count) = match reader.next(alloc, rest) {
            Ok(Some(taken)) => taken,
            Ok(None) => return Ok(Ok(())),
            Err(fault) => {
                let refused = refused_next(alloc, reader, begun, rest);
                return Ok(Err(Unfed::of(fault, refused)));
            }
        };
        match sink.take(line) {
            Ok(()) => {}
            Err(error) => return Err(error),
        }
        rest = &rest[count..];
    }
    Ok(Ok(()))
}

/// Reads what follows the header of a text, up to the end of the input, and gives each line to the sink; at the end of
/// each block the sink gives the output what it has.
///
/// # Errors
///
/// `Refused` with the number of the first line that is refused; `Input` where the input failed, or has more than
/// 1,073,741,824 bytes; `NoMemory` and `NotTaken` where memory ran out. The input was taken to its end, unless it failed,
/// and at most 1,073,741,825 bytes of it. `NotTaken` also where the sink takes no more at the end of a block: then no more
/// is taken of the input.
pub fn feed_rest<R: Read, O, S: LineSink<O>>(
    alloc: Global,
    input: &mut R,
    output: &mut O,
    buffer: &mut [u8],
    reader: &mut Reader,
    start: &Start,
    sink: &mut S,
) -> Result<(), Unfed>
    requires room { 0 < length buffer.old }
    requires order { start.now.from ≤ start.now.to }
    requires within { start.now.to ≤ length buffer.old }
    requires few { start.now.left ≤ most_bytes }
    ensures { (old : Bytes) (fixed : S.Fixed)
        → Starts old (R.remaining input.old) start.now reader.old buffer.old
        → S.has_taken sink.old output.old fixed (header_alone start.now.header)
        (header_alone start.now.header)
        → FeedsRest result old (R.remaining input.new)
        (λ transcript. S.has_taken sink.new output.new fixed transcript transcript)
        (S.has_left sink.new output.new fixed) }
{
    let (mut from, mut to, mut left) = (start.from, start.to, start.left);
    loop {
        let Ok(read) = feed_block(alloc, reader, sink, &buffer[from..to]) else {
            return Err(refuse(input, buffer, left, Unfed::NotTaken));
        };
        if !sink.end_block(output) {
            return Err(Unfed::NotTaken);
        }
        if let Err(unfed) = read {
            return Err(refuse(input, buffer, left, unfed));
        }
        from = 0;
        to = match next_block(input, buffer, reader, left) {
            Ok(Some(count)) => count,
            Ok(None) => return Ok(()),
            Err(unfed) => return Err(unfed),
        };
        left -= to;
    }
}
