//! Questions and what came of them, in words.

ghost use Rattle.std.specs.Prelude.{◌≡◌, Some};
ghost use Rattle.irp_listing.specs.Questions.{asked_text, asker_text, question_text, result_told, shown_text, to_completion, to_dispatch, way_of};

use irp_names::{ClosureWords, MajorWords, ResultWords, told_if};
use irp_types::{Asked, DeviceId, Shown, Status};
use std::fmt;

/// A question, behind a mark for the way: `v` down to a dispatch, `^` up to a completion routine, `!` to a cancel
/// routine.
#[derive(Clone, Copy)]
pub struct QuestionWords(pub Asked);

impl fmt::Display for QuestionWords {
    ghost output = { λ words. Some (question_text words.0) };

    fn fmt<W: fmt::Write>(&self, f: &mut fmt::Formatter<W>) -> fmt::Result {
        write!(f, "{} {}", way_of(self.0), AskedWords(self.0))
    }
}

/// A mark for the way to a closure.
fn way_of(question: Asked) -> &'static str
    ensures { result.now ≡ way_of question }
{
    match question {
        Asked::Dispatch { .. } => "v",
        Asked::Completion { .. } => "^",
        Asked::Cancel { .. } => "!",
    }
}

/// A question: whose closure was asked, and what it was shown.
#[derive(Clone, Copy)]
pub struct AskedWords(pub Asked);

impl fmt::Display for AskedWords {
    ghost output = { λ words. Some (asked_text words.0) };

    fn fmt<W: fmt::Write>(&self, f: &mut fmt::Formatter<W>) -> fmt::Result {
        write!(
            f,
            "{} {}{}",
            Asker(self.0.shown().device),
            ClosureWords(self.0),
            ShownWords(self.0)
        )
    }
}

/// Whose closure is asked.
#[derive(Clone, Copy)]
struct Asker(Option<DeviceId>);

impl fmt::Display for Asker {
    ghost output = { λ words. Some (asker_text words.0) };

    fn fmt<W: fmt::Write>(&self, f: &mut fmt::Formatter<W>) -> fmt::Result {
        match self.0 {
            Some(device) => write!(f, "D{}", device.0),
            None => f.write_str("originator"),
        }
    }
}

/// What a closure is shown.
#[derive(Clone, Copy)]
struct ShownWords(Asked);

impl fmt::Display for ShownWords {
    ghost output = { λ words. Some (shown_text words.0) };

    fn fmt<W: fmt::Write>(&self, f: &mut fmt::Formatter<W>) -> fmt::Result {
        match self.0 {
            Asked::Dispatch { shown, .. } => write!(f, "{}", ShownToDispatch(shown)),
            Asked::Completion { shown, .. } => write!(f, "{}", ShownToCompletion(shown)),
            Asked::Cancel { shown, .. } => write!(
                f,
                ": location {}, {}",
                shown.location,
                ResultWords(shown.status, shown.information)
            ),
        }
    }
}

/// What a dispatch is shown; a status and information of zero aren't told.
#[derive(Clone, Copy)]
struct ShownToDispatch(Shown);

impl fmt::Display for ShownToDispatch {
    ghost output = { λ words. Some (to_dispatch words.0) };

    fn fmt<W: fmt::Write>(&self, f: &mut fmt::Formatter<W>) -> fmt::Result {
        let shown = self.0;
        write!(
            f,
            ": {}, location {}, word 0x{:x}{}{}{}",
            MajorWords(shown.major),
            shown.location,
            shown.word,
            ResultTold(shown.status, shown.information),
            told_if(shown.cancel, ", cancelled"),
            told_if(!shown.has_lower, ", nothing below")
        )
    }
}

/// A status and information, where they aren't zero.
#[derive(Clone, Copy)]
struct ResultTold(Status, u64);

impl fmt::Display for ResultTold {
    ghost output = { λ words. Some (result_told words.0 words.1) };

    fn fmt<W: fmt::Write>(&self, f: &mut fmt::Formatter<W>) -> fmt::Result {
        if self.0 == Status::SUCCESS && self.1 == 0 {
            Ok(())
        } else {
            write!(f, ", {}", ResultWords(self.0, self.1))
        }
    }
}

/// What a completion routine is shown.
#[derive(Clone, Copy)]
struct ShownToCompletion(Shown);

impl fmt::Display for ShownToCompletion {
    ghost output = { λ words. Some (to_completion words.0) };

    fn fmt<W: fmt::Write>(&self, f: &mut fmt::Formatter<W>) -> fmt::Result {
        let shown = self.0;
        write!(
            f,
            " (location {}, context 0x{:x}): {}{}{}",
            shown.location,
            shown.context,
            ResultWords(shown.status, shown.information),
            told_if(shown.pending_returned, ", PendingReturned"),
            told_if(shown.cancel, ", cancelled")
        )
    }
}
