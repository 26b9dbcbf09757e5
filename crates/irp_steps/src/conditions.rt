//! When the condition of a step holds. Source: this project's own rule (docs/FORMATS.md).

ghost use Rattle.std.specs.Prelude.{◌≡◌};
ghost use Rattle.irp_steps.specs.Conditions as spec;

use crate::answered::Answered;
use irp_script_reader::{AnswerWord, Condition, ExpectedAnswer};
use irp_transcript::WordReply;
use irp_types::{CancelId, Reply, Status};

/// Whether the one cancel routine is the other, or there is none of both.
fn is_routine(given: Option<CancelId>, wanted: Option<CancelId>) -> bool
    ensures { result ≡ spec.is_routine given wanted }
{
    match (given, wanted) {
        (None, None) => true,
        (Some(given), Some(wanted)) => given.0 == wanted.0,
        _ => false,
    }
}

/// Whether the flag is as it is wanted.
fn is_flag(given: bool, wanted: bool) -> bool
    ensures { result ≡ spec.is_flag given wanted }
{
    if wanted { given } else { !given }
}

/// Whether what the manager replied is the answer that is expected.
pub fn expects_reply(expected: ExpectedAnswer, reply: Reply) -> bool
    ensures { result ≡ spec.expects_reply expected reply }
{
    match (expected, reply) {
        (ExpectedAnswer::AnyRefusal, Reply::Refused(_)) => true,
        (ExpectedAnswer::Refusal(wanted), Reply::Refused(given)) => {
            given.number() == wanted.number()
        }
        (ExpectedAnswer::Success, Reply::Status(given)) => given.is_success(),
        (ExpectedAnswer::Status(wanted), Reply::Status(given)) => given.0 == wanted.0,
        (ExpectedAnswer::AnyRoutine, Reply::Previous(given)) => given.is_some(),
        (ExpectedAnswer::Previous(wanted), Reply::Previous(given)) => is_routine(given, wanted),
        (ExpectedAnswer::Cancelled(wanted), Reply::Cancelled(given)) => is_flag(given, wanted),
        (ExpectedAnswer::Done, Reply::Done) => true,
        _ => false,
    }
}

/// Whether the answer of a remove lock or of a cancel slot is one that refuses.
fn is_refused_word(reply: WordReply) -> bool
    ensures { result ≡ spec.is_refused_word reply }
{
    matches!(
        reply,
        WordReply::SeatFull
            | WordReply::NotHeld
            | WordReply::AlreadyRemoving
            | WordReply::NoLock
            | WordReply::Used
            | WordReply::NotStanding
            | WordReply::NoSlot
            | WordReply::NoToken
    )
}

/// The status that an acquire is answered by. None for other answers.
fn status_of(reply: WordReply) -> Option<Status>
    ensures { result ≡ spec.status_of reply }
{
    match reply {
        WordReply::Acquired => Some(Status::SUCCESS),
        WordReply::DeletePending => Some(Status::DELETE_PENDING),
        _ => None,
    }
}

/// Whether the answer is the word.
fn is_word(word: AnswerWord, reply: WordReply) -> bool
    ensures { result ≡ spec.is_word word reply }
{
    match word {
        AnswerWord::Yes => matches!(reply, WordReply::Yes),
        AnswerWord::Busy => matches!(reply, WordReply::Busy { .. }),
        AnswerWord::SeatFull => matches!(reply, WordReply::SeatFull),
        AnswerWord::NotHeld => matches!(reply, WordReply::NotHeld),
        AnswerWord::AlreadyRemoving => matches!(reply, WordReply::AlreadyRemoving),
        AnswerWord::NoLock => matches!(reply, WordReply::NoLock),
        AnswerWord::Standing => matches!(reply, WordReply::Standing),
        AnswerWord::Taken => matches!(reply, WordReply::Taken { .. }),
        AnswerWord::Lost => matches!(reply, WordReply::Lost),
        AnswerWord::Nothing => matches!(reply, WordReply::Nothing),
        AnswerWord::Used => matches!(reply, WordReply::Used),
        AnswerWord::NotStanding => matches!(reply, WordReply::NotStanding),
        AnswerWord::NoSlot => matches!(reply, WordReply::NoSlot),
        AnswerWord::NoToken => matches!(reply, WordReply::NoToken),
    }
}

/// Whether what a remove lock or a cancel slot answered is the answer that is expected.
pub fn expects_word(expected: ExpectedAnswer, reply: WordReply) -> bool
    ensures { result ≡ spec.expects_word expected reply }
{
    match expected {
        ExpectedAnswer::AnyRefusal => is_refused_word(reply),
        ExpectedAnswer::Success => match status_of(reply) {
            Some(given) => given.is_success(),
            None => false,
        },
        ExpectedAnswer::Status(wanted) => match status_of(reply) {
            Some(given) => given.0 == wanted.0,
            None => false,
        },
        ExpectedAnswer::Done => matches!(reply, WordReply::Done),
        ExpectedAnswer::Word(word) => is_word(word, reply),
        _ => false,
    }
}

/// Whether what was answered is the answer that is expected.
pub fn expects(expected: ExpectedAnswer, answer: Answered) -> bool
    ensures { result ≡ spec.expects expected answer }
{
    match answer {
        Answered::Reply(reply) => expects_reply(expected, reply),
        Answered::Word(reply) => expects_word(expected, reply),
    }
}

/// Whether the step that the condition names was made, and was answered as is wanted. None is the answer of one that
/// wasn't made.
pub fn allows(condition: Condition, answer: Option<Answered>) -> bool
    ensures { result ≡ spec.allows condition answer }
{
    match answer {
        Some(given) => is_flag(expects(condition.answer, given), condition.wanted),
        None => false,
    }
}

/// What the step that a condition names was answered. None where it wasn't made, or where nothing is named.
pub fn named_answer(heard: &[Option<Answered>], condition: Option<Condition>) -> Option<Answered>
    ensures { result ≡ spec.named_answer heard.now condition }
{
    match heard.get(condition?.step as usize) {
        Some(answer) => *answer,
        None => None,
    }
}

/// Whether what hangs on this is made, where the step that is named was answered so: what hangs on nothing is, in any
/// case.
fn is_due(condition: Option<Condition>, answer: Option<Answered>) -> bool
    ensures { result ≡ spec.is_due condition answer }
{
    match condition {
        None => true,
        Some(condition) => allows(condition, answer),
    }
}

/// Whether what hangs on this is made, by what steps were answered.
pub fn holds(heard: &[Option<Answered>], condition: Option<Condition>) -> bool
    ensures { result ≡ spec.holds heard.now condition }
{
    is_due(condition, named_answer(heard, condition))
}
