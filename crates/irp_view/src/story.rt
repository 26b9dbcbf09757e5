//! The word `story`: the story of the transcript in an input, told block after block as it is read.

ghost use Rattle.std.specs.Prelude.{ℕ, ◌≡◌, ◌+◌, ◌<◌, ◌≤◌, ◌^◌, List, ◌++◌, length, Err, None, OnOk};
ghost use Rattle.irp_transcript.specs.Headers.{IsHeader};
ghost use Rattle.irp_transcript.specs.Transcripts.{TranscriptValue, no_lines};
ghost use Rattle.irp_fast_reader.specs.Fed.{IsInPlace};
ghost use Rattle.irp_transcript_reader.specs.Reading.{with_line};
ghost use Rattle.irp_feed.specs.Feeding.{Starts, Stops, refused_line};
ghost use Rattle.irp_feed.specs.Input.{Bytes, Holds, most_bytes};
ghost use Rattle.irp_story.specs.Stories.{HasTold, bare};
ghost use Rattle.irp_view.specs.Story.{HasSentStory, IsSent, IsTelling, TellsInput};
ghost use Rattle.irp_view.specs.Streams.{Output, output_of, streams_of};

use crate::listing::Unshown;
use crate::reading::{Unread, unread_behind};
use crate::refusal::Before;
use irp_fast_reader::{Line, Reader};
use irp_feed::{BLOCK, LineSink, Start, Unfed, feed_rest, read_header};
use irp_judge::Verdict;
use irp_story::{Story, put_verdict};
use irp_streams::{Out, StreamFault, send};
use irp_transcript::Header;
use std::alloc::{AllocError, Global};
use std::io::Read;

/// Takes the lines of a transcript, tells their story, and sends that at the end of a block.
#[derive(Drop)]
pub struct Telling<'a> {
    /// What tells it.
    story: Story<'a>,
    /// What was told and wasn't sent.
    text: Vec<u8>,
    /// Whether there was a word line.
    has_words: bool,
    /// Why the text wasn't sent, if it wasn't.
    fault: Option<StreamFault>,
}

impl Telling<'_> {
    /// Tells the next line. The one error is want of memory.
    fn tell(&mut self, line: Line) -> Result<(), AllocError>
        ensures told { (sent : List ℕ) (before : TranscriptValue)
            → HasTold self.old.story before (sent ++ self.old.text.items)
            → IsInPlace before line → length before.entries + 1 < 2 ^ 64
            → OnOk result (HasTold self.new.story (with_line before line) (sent ++ self.new.text.items)) }
        ensures calm { self.new.fault ≡ self.old.fault }
    {
        match line {
            Line::Entry(entry) => self.story.entry(&mut self.text, &entry),
            Line::Word(word) => {
                self.has_words = true;
                self.story.step(&mut self.text, word)
            }
            Line::Header(_) => Ok(()),
        }
    }
}

impl<O: Out> LineSink<O> for Telling<'_> {
    ghost use Rattle.irp_view.specs.Story.{HasSentStory, IsTelling};
    ghost use Rattle.irp_view.specs.Streams.{Output, output_of};

    ghost Fixed = { Output };

    ghost has_taken = { λ telling output before ended transcript.
        IsTelling telling (output_of (O.gone output) (O.failures output)) before ended transcript };

    ghost has_left = { λ telling output before transcript.
        HasSentStory telling.fault (output_of (O.gone output) (O.failures output)) before transcript };

    fn take(&mut self, line: Line) -> Result<(), AllocError> {
        self.tell(line)
    }

    fn end_block(&mut self, output: &mut O) -> bool {
        match send(output, self.text.as_slice()) {
            Ok(()) => {
                self.text.clear();
                true
            }
            Err(fault) => {
                self.fault = Some(fault);
                false
            }
        }
    }
}

/// Why an input's story isn't told on behind these lines: what was told wasn't sent, or more isn't read.
fn untold(alloc: Global, header: &Header, telling: &Telling, unfed: Unfed) -> Unshown
    ensures { (old new : Bytes) (output before : Output) (transcript : TranscriptValue)
        → Stops old new (refused_line unfed) transcript
        → HasSentStory telling.now.fault output before transcript
        → TellsInput (Err result) (streams_of old before) (streams_of new output) }
{
    match telling.fault {
        Some(fault) => Unshown::Unwritten(fault),
        None => {
            let entries = usize::try_from(telling.story.entries()).unwrap_or(usize::MAX);
            let before = Before::behind(header, entries, telling.has_words);
            Unshown::Unread(unread_behind(alloc, before, unfed))
        }
    }
}

/// Sends a text.
fn send_text<O: Out>(output: &mut O, text: &[u8]) -> Result<(), Unshown>
    ensures { IsSent text.now (output_of (O.gone output.old) (O.failures output.old))
        (output_of (O.gone output.new) (O.failures output.new)) result }
{
    match send(output, text) {
        Ok(()) => Ok(()),
        Err(fault) => Err(Unshown::Unwritten(fault)),
    }
}

/// Sends the end of the story of an input's transcript, all of whose lines were told.
fn send_end<O: Out>(output: &mut O, telling: &mut Telling) -> Result<(), Unshown>
    ensures { (old new : Bytes) (before : Output) (transcript : TranscriptValue)
        → Holds old new transcript
        → IsTelling telling.old (output_of (O.gone output.old) (O.failures output.old)) before
        transcript transcript
        → TellsInput result (streams_of old before)
        (streams_of new (output_of (O.gone output.new) (O.failures output.new))) }
{
    match telling.story.end(&mut telling.text) {
        Ok(()) => send_text(output, telling.text.as_slice()),
        Err(_) => Err(Unshown::Unread(Unread::NoMemory)),
    }
}

/// Tells the story of what follows the header of a text, whose line was told.
fn tell_rest<R: Read, O: Out>(
    alloc: Global,
    input: &mut R,
    output: &mut O,
    buffer: &mut [u8],
    reader: &mut Reader,
    start: &Start,
    telling: &mut Telling,
) -> Result<(), Unshown>
    requires room { 0 < length buffer.old }
    requires order { start.now.from ≤ start.now.to }
    requires within { start.now.to ≤ length buffer.old }
    requires few { start.now.left ≤ most_bytes }
    requires calm { telling.old.fault ≡ None }
    requires told { HasTold telling.old.story (bare start.now.header) telling.old.text.items }
    ensures { (left : Bytes)
        → Starts left (R.remaining input.old) start.now reader.old buffer.old
        → TellsInput result
        (streams_of left (output_of (O.gone output.old) (O.failures output.old)))
        (streams_of (R.remaining input.new)
        (output_of (O.gone output.new) (O.failures output.new))) }
{
    match feed_rest(alloc, input, output, buffer, reader, start, telling) {
        Ok(()) => send_end(output, telling),
        Err(unfed) => Err(untold(alloc, &start.header, telling, unfed)),
    }
}

/// Tells the story of a text whose header was read.
fn tell_behind<R: Read, O: Out>(
    alloc: Global,
    input: &mut R,
    output: &mut O,
    buffer: &mut [u8],
    reader: &mut Reader,
    start: &Start,
) -> Result<(), Unshown>
    requires room { 0 < length buffer.old }
    requires header { IsHeader start.now.header }
    requires order { start.now.from ≤ start.now.to }
    requires within { start.now.to ≤ length buffer.old }
    requires few { start.now.left ≤ most_bytes }
    ensures { (left : Bytes)
        → Starts left (R.remaining input.old) start.now reader.old buffer.old
        → TellsInput result
        (streams_of left (output_of (O.gone output.old) (O.failures output.old)))
        (streams_of (R.remaining input.new)
        (output_of (O.gone output.new) (O.failures output.new))) }
{
    let mut text = Vec::new(alloc);
    match Story::begin(alloc, &mut text, &start.header) {
        Ok(story) => {
            let mut telling = Telling {
                story,
                text,
                has_words: false,
                fault: None,
            };
            tell_rest(alloc, input, output, buffer, reader, start, &mut telling)
        }
        Err(_) => Err(Unshown::Unread(Unread::NoMemory)),
    }
}

/// Tells the story of a text without lines: its verdict.
fn tell_none<O: Out>(alloc: Global, output: &mut O) -> Result<(), Unshown>
    ensures { (old new : Bytes) → Holds old new no_lines
        → TellsInput result
        (streams_of old (output_of (O.gone output.old) (O.failures output.old)))
        (streams_of new (output_of (O.gone output.new) (O.failures output.new))) }
{
    let mut text = Vec::new(alloc);
    match put_verdict(&mut text, 0, Verdict::Legal { entries: 0 }) {
        Ok(()) => send_text(output, text.as_slice()),
        Err(_) => Err(Unshown::Unread(Unread::NoMemory)),
    }
}

/// Tells the story of the transcript that the input holds, which is read up to its end. What was told of the lines of a
/// block is sent when the block was read. Of the text a block is kept, and the beginning of a line that ends in the next
/// one.
///
/// # Errors
///
/// `Unread` where the input holds no transcript, or memory ran out: the story of the lines before the one that is
/// refused went out, without a verdict. `Unwritten` where the output failed: a beginning of that went out.
pub fn tell_transcript<R: Read, O: Out>(
    alloc: Global,
    input: &mut R,
    output: &mut O,
) -> Result<(), Unshown>
    ensures { TellsInput result
        (streams_of (R.remaining input.old) (output_of (O.gone output.old) (O.failures output.old)))
        (streams_of (R.remaining input.new)
        (output_of (O.gone output.new) (O.failures output.new))) }
{
    let mut buffer = [0u8; BLOCK];
    let mut reader = Reader::new(alloc);
    match read_header(alloc, input, &mut buffer, &mut reader) {
        Ok(Some(start)) => tell_behind(alloc, input, output, &mut buffer, &mut reader, &start),
        Ok(None) => tell_none(alloc, output),
        Err(unfed) => {
            let unread = unread_behind(alloc, Before::nothing(), unfed);
            Err(Unshown::Unread(unread))
        }
    }
}
