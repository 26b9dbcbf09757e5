//! Which act comes next: one whose condition fails is passed over.

ghost use Rattle.std.specs.Prelude.{◌≡◌};
ghost use Rattle.std.specs.List.{find};
ghost use Rattle.irp_machine.specs.Conditions as spec;

use crate::parts::Planned;
use irp_plain::{Answered, SeatState, Told};
use irp_script_reader::{Condition, ExpectedAnswer};
use irp_steps::{expects_reply, expects_word};

/// Whether what was answered is the answer that is expected.
fn expects(wanted: ExpectedAnswer, given: Answered) -> bool
    ensures { result ≡ spec.expects wanted given }
{
    match given {
        Answered::Reply(given) => expects_reply(wanted, given),
        Answered::Word(given) => expects_word(wanted, given),
    }
}

/// What a step was answered, by what a seat heard. None where that wasn't made.
fn heard_at(heard: &[Told], step: u32) -> Option<Answered>
    ensures { result ≡ spec.heard_at heard.now step }
{
    let one = heard.iter().find(|one| one.step == step)?;
    Some(one.answer)
}

/// Whether the step that the condition names was made, and its answer is the one that is expected, or isn't, as is
/// wanted.
fn passes(heard: &[Told], condition: Condition) -> bool
    ensures { result ≡ spec.passes heard.now condition }
{
    match heard_at(heard, condition.step) {
        Some(given) if condition.wanted => expects(condition.answer, given),
        Some(given) => !expects(condition.answer, given),
        None => false,
    }
}

/// Whether a seat that heard this makes an act with this condition.
fn holds(heard: &[Told], condition: Option<Condition>) -> bool
    ensures { result ≡ spec.holds heard.now condition }
{
    match condition {
        Some(condition) => passes(heard, condition),
        None => true,
    }
}

/// Whether a seat that heard this makes the act.
fn is_due(heard: &[Told], act: &Planned) -> bool
    ensures { result ≡ spec.is_due heard.now act.now }
{
    holds(heard, act.condition)
}

/// Of these acts the first that a seat makes that heard this.
fn first_due(acts: &[Planned], heard: &[Told]) -> Option<Planned>
    ensures { result ≡ find (spec.is_due heard.now) acts.now }
{
    for act in acts {
        if is_due(heard, act) {
            return Some(*act);
        }
    }
    None
}

/// The act that a seat is in, or its next one: of those that it isn't behind, the first that it makes.
pub fn act_now(acts: &[Planned], seat: &SeatState) -> Option<Planned>
    ensures { result ≡ spec.act_now acts.now seat.now }
{
    let left = acts.get(seat.made()..)?;
    first_due(left, seat.heard())
}
