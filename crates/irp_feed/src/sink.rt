//! What takes the lines of a transcript.

ghost use Rattle.std.specs.Prelude.{◌≡◌, ◌+◌, ◌<◌, ◌^◌, length, true, MatchResult};
ghost use Rattle.irp_transcript.specs.Transcripts.{TranscriptValue};
ghost use Rattle.irp_fast_reader.specs.Fed.{IsInPlace};
ghost use Rattle.irp_transcript_reader.specs.Reading.{with_line};

use irp_fast_reader::Line;
use std::alloc::AllocError;

/// Takes the lines of a transcript, one after another, and gives an output what it makes of them, block after block.
pub trait LineSink<O> {
    // What stays while it takes lines.
    ghost Fixed: { Type 0 };

    // It has taken the lines of the second transcript; those of the first stood in blocks that ended.
    ghost has_taken: { Self → O → Fixed → TranscriptValue → TranscriptValue → Type 0 };

    // It takes no more, and this is left of the lines of this transcript.
    ghost has_left: { Self → O → Fixed → TranscriptValue → Type 0 };

    /// Takes the next line.
    ///
    /// # Errors
    ///
    /// `AllocError` where memory runs out. Then it takes no more.
    fn take(&mut self, line: Line) -> Result<(), AllocError>
        ensures { (output : O) (fixed : Fixed) (ended before : TranscriptValue)
            → has_taken self.old output fixed ended before
            → IsInPlace before line → length before.entries + 1 < 2 ^ 64
            → length before.words + 1 < 2 ^ 64
            → MatchResult result
            (λ done. has_taken self.new output fixed ended (with_line before line))
            (λ error. has_left self.new output fixed ended) };

    /// Gives the output what it has of a block that ends, and tells whether it takes more.
    fn end_block(&mut self, output: &mut O) -> bool
        ensures taken { (fixed : Fixed) (ended before : TranscriptValue)
            → has_taken self.old output.old fixed ended before → result ≡ true
            → has_taken self.new output.new fixed before before }
        ensures left { (fixed : Fixed) (ended before : TranscriptValue)
            → has_taken self.old output.old fixed ended before
            → has_left self.new output.new fixed before };
}
