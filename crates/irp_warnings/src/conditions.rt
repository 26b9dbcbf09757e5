//! Conditions that are never met.

ghost use Rattle.std.specs.Prelude.{◌≡◌};
ghost use Rattle.irp_warnings.specs.Answers as spec;

use irp_script_reader::{AnswerWord, ExpectedAnswer, StepAct};
use irp_types::{Call, LockAct};

/// Whether a lock or a slot may answer a step by a word.
fn may_say(word: AnswerWord, act: StepAct) -> bool
    ensures { result ≡ spec.may_say word act }
{
    match word {
        AnswerWord::Yes | AnswerWord::Busy => {
            matches!(act, StepAct::OnLock(LockAct::Drained { .. }))
        }
        AnswerWord::SeatFull => matches!(
            act,
            StepAct::OnLock(LockAct::Acquire { .. }) | StepAct::Hand(_)
        ),
        AnswerWord::NotHeld => matches!(
            act,
            StepAct::OnLock(LockAct::Release { .. } | LockAct::BeginRemove { .. })
                | StepAct::Hand(_)
        ),
        AnswerWord::AlreadyRemoving => {
            matches!(act, StepAct::OnLock(LockAct::BeginRemove { .. }))
        }
        AnswerWord::NoLock => matches!(act, StepAct::OnLock(_) | StepAct::Hand(_)),
        AnswerWord::Standing | AnswerWord::Used => matches!(act, StepAct::Publish { .. }),
        AnswerWord::Taken => matches!(
            act,
            StepAct::Publish { .. } | StepAct::Withdraw { .. } | StepAct::Request { .. }
        ),
        AnswerWord::Lost => matches!(act, StepAct::Publish { .. } | StepAct::Withdraw { .. }),
        AnswerWord::Nothing | AnswerWord::NoSlot => matches!(act, StepAct::Request { .. }),
        AnswerWord::NotStanding => matches!(act, StepAct::Withdraw { .. }),
        AnswerWord::NoToken => matches!(act, StepAct::Call(Call::FinishTaken { .. })),
    }
}

/// Whether a step may be answered by a status.
fn answers_status(act: StepAct) -> bool
    ensures { result ≡ spec.answers_status act }
{
    matches!(
        act,
        StepAct::Call(Call::CallDriver { .. }) | StepAct::OnLock(LockAct::Acquire { .. })
    )
}

/// Whether a step may be answered by the plain word that it was done.
fn answers_done(act: StepAct) -> bool
    ensures { result ≡ spec.answers_done act }
{
    !matches!(
        act,
        StepAct::Call(
            Call::CreateDevice { .. }
                | Call::CallDriver { .. }
                | Call::SetCancelRoutine { .. }
                | Call::Cancel { .. }
                | Call::Look { .. }
        ) | StepAct::Allocate { .. }
            | StepAct::OnLock(LockAct::Acquire { .. } | LockAct::Drained { .. })
            | StepAct::Publish { .. }
            | StepAct::Withdraw { .. }
            | StepAct::Request { .. }
    )
}

/// Whether a step may ever be answered so.
pub fn may_be_answered(act: StepAct, answer: ExpectedAnswer) -> bool
    ensures { result ≡ spec.may_be_answered act answer }
{
    match answer {
        ExpectedAnswer::AnyRefusal => true,
        ExpectedAnswer::Refusal(_) => { matches!(act, StepAct::Call(_) | StepAct::Allocate { .. }) }
        ExpectedAnswer::Success | ExpectedAnswer::Status(_) => answers_status(act),
        ExpectedAnswer::AnyRoutine | ExpectedAnswer::Previous(_) => {
            matches!(act, StepAct::Call(Call::SetCancelRoutine { .. }))
        }
        ExpectedAnswer::Cancelled(_) => matches!(act, StepAct::Call(Call::Cancel { .. })),
        ExpectedAnswer::Done => answers_done(act),
        ExpectedAnswer::Word(word) => may_say(word, act),
    }
}
