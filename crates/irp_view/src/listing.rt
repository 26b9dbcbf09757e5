//! The words `text` and `packet`: the transcript in an input, shown block after block as it is read.

ghost use Rattle.std.specs.Prelude.{◌<◌, ◌≤◌, length, Err};
ghost use Rattle.irp_transcript.specs.Transcripts.{TranscriptValue};
ghost use Rattle.irp_feed.specs.Feeding.{Starts, Stops, refused_line};
ghost use Rattle.irp_feed.specs.Input.{Bytes, most_bytes};
ghost use Rattle.irp_view.specs.Listed.{Aim, HasSent, ShowsInput, chosen_of};
ghost use Rattle.irp_view.specs.Streams.{Output, output_of, streams_of};

use crate::orders::Span;
use crate::reading::{Unread, unread_behind};
use crate::refusal::Before;
use crate::showing::{Shown, Wanted};
use irp_fast_reader::{Line, Reader};
use irp_feed::{BLOCK, LineSink, Start, Unfed, feed_rest, read_header};
use irp_listing::Choice;
use irp_streams::{Out, StreamFault, send};
use irp_transcript::Header;
use irp_types::IrpRef;
use std::alloc::{AllocError, Global};
use std::io::Read;

/// Why an input's transcript isn't shown.
#[derive(Drop)]
pub enum Unshown {
    /// The input holds no transcript.
    Unread(Unread),
    /// What shows it wasn't written.
    Unwritten(StreamFault),
}

/// Takes the lines of a transcript, gathers what stands for those that are wanted, and sends that at the end of a block.
#[derive(Drop)]
pub struct Gathering {
    /// What is wanted.
    wanted: Wanted,
    /// What is gathered of it.
    shown: Shown,
    /// Why that wasn't sent, if it wasn't.
    fault: Option<StreamFault>,
}

impl<O: Out> LineSink<O> for Gathering {
    ghost use Rattle.irp_view.specs.Listed.{Aim, HasGathered, HasSent};
    ghost use Rattle.irp_view.specs.Streams.{output_of};

    ghost Fixed = { Aim };

    ghost has_taken = { λ gathering output aim ended transcript.
        HasGathered gathering (output_of (O.gone output) (O.failures output)) aim ended transcript };

    ghost has_left = { λ gathering output aim transcript.
        HasSent gathering.fault (output_of (O.gone output) (O.failures output)) aim transcript };

    fn take(&mut self, line: Line) -> Result<(), AllocError> {
        self.shown.line(self.wanted, line)
    }

    fn end_block(&mut self, output: &mut O) -> bool {
        match send(output, self.shown.text.as_slice()) {
            Ok(()) => {
                self.shown.text.clear();
                true
            }
            Err(fault) => {
                self.fault = Some(fault);
                false
            }
        }
    }
}

/// Which lines were taken behind this header.
fn before_of(header: &Header, shown: &Shown) -> Before {
    Before::behind(header, shown.entries(), shown.has_words())
}

/// Why an input's transcript isn't shown behind these lines: what they show wasn't sent, or more isn't read.
fn told(alloc: Global, header: &Header, gathering: &Gathering, unfed: Unfed) -> Unshown
    ensures { (old new : Bytes) (output : Output) (aim : Aim) (transcript : TranscriptValue)
        → Stops old new (refused_line unfed) transcript
        → HasSent gathering.now.fault output aim transcript
        → ShowsInput (Err result) aim.chosen (streams_of old aim.before) (streams_of new output) }
{
    match gathering.fault {
        Some(fault) => Unshown::Unwritten(fault),
        None => {
            let before = before_of(header, &gathering.shown);
            Unshown::Unread(unread_behind(alloc, before, unfed))
        }
    }
}

/// Shows what follows the header of a text: the entries of one use of a packet or of all, and those of a span or of the
/// whole history.
fn show_behind<R: Read, O: Out>(
    alloc: Global,
    input: &mut R,
    output: &mut O,
    buffer: &mut [u8],
    reader: &mut Reader,
    start: &Start,
    only: Option<IrpRef>,
    span: Option<Span>,
) -> Result<(), Unshown>
    requires room { 0 < length buffer.old }
    requires order { start.now.from ≤ start.now.to }
    requires within { start.now.to ≤ length buffer.old }
    requires few { start.now.left ≤ most_bytes }
    ensures { (left : Bytes)
        → Starts left (R.remaining input.old) start.now reader.old buffer.old
        → ShowsInput result (chosen_of only span)
        (streams_of left (output_of (O.gone output.old) (O.failures output.old)))
        (streams_of (R.remaining input.new)
        (output_of (O.gone output.new) (O.failures output.new))) }
{
    let tells_seats = start.header.seats > 1;
    let choice = Choice { only, tells_seats };
    let mut gathering = Gathering {
        wanted: Wanted { choice, span },
        shown: Shown::new(alloc),
        fault: None,
    };
    match feed_rest(alloc, input, output, buffer, reader, start, &mut gathering) {
        Ok(()) => Ok(()),
        Err(unfed) => Err(told(alloc, &start.header, &gathering, unfed)),
    }
}

/// Shows the transcript that the input holds, which is read up to its end: its entries, those of one use of a packet or
/// of all, and those of a span or of the whole history; behind all of them its word lines. What stands for the lines of
/// a block is sent when the block was read. Of the text a block is kept, and the beginning of a line that ends in the
/// next one.
///
/// # Errors
///
/// `Unread` where the input holds no transcript, or memory ran out: what stands for the lines before the one that is
/// refused went out. `Unwritten` where the output failed, and no more is read: a beginning of that went out.
pub fn show_transcript<R: Read, O: Out>(
    alloc: Global,
    input: &mut R,
    output: &mut O,
    only: Option<IrpRef>,
    span: Option<Span>,
) -> Result<(), Unshown>
    ensures { ShowsInput result (chosen_of only span)
        (streams_of (R.remaining input.old) (output_of (O.gone output.old) (O.failures output.old)))
        (streams_of (R.remaining input.new)
        (output_of (O.gone output.new) (O.failures output.new))) }
{
    let mut buffer = [0u8; BLOCK];
    let mut reader = Reader::new(alloc);
    match read_header(alloc, input, &mut buffer, &mut reader) {
        Ok(Some(start)) => show_behind(
            alloc,
            input,
            output,
            &mut buffer,
            &mut reader,
            &start,
            only,
            span,
        ),
        Ok(None) => Ok(()),
        Err(unfed) => {
            let unread = unread_behind(alloc, Before::nothing(), unfed);
            Err(Unshown::Unread(unread))
        }
    }
}
