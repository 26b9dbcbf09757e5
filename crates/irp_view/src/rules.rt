//! Which rule of docs/RULES.md a wrong entry breaks, and the section that it stands in.

ghost use Rattle.std.specs.Prelude.{◌≡◌, IfSome};
ghost use Rattle.irp_view.specs.Sections.{section_of, section_of_part};

use crate::answers::broken_rule;
use crate::fields::put_field_rule;
use crate::sections::Section;
use irp_forms::kind_of;
use irp_judge::{Difference, QuestionPart, Wrong};
use irp_names::refusal_name;
use irp_transcript::Header;
use irp_types::{Asked, Call, CancelAnswer, Entry, Plan, Reply};
use std::alloc::AllocError;

/// No routine on the way up is asked.
const NO_FLAG_MET: &str = "no routine on the way up has a flag that is met";

/// No dispatch is asked, and then no routine.
const NO_DISPATCH: &str =
    "the driver has no dispatch for the major, and no routine on the way up has a flag that is met";

/// A rule that is a text, and its section.
type Rule = (&'static str, Section);

/// The checks of a call that names a party come first.
fn party_checks(call: Call) -> &'static str {
    match call.party() {
        Some(_) => "NoIrp, Stale, Ended, NotOwner, SlotHeld, ",
        None => "",
    }
}

/// What a call is answered.
fn reply_rule(call: Call) -> Rule {
    let section = match call {
        Call::CallDriver { .. } => Section::SendingDown,
        Call::Cancel { .. } => Section::Cancelling,
        _ => Section::Calls,
    };
    (kind_of(call).answer(), section)
}

/// Puts the checks of a call, and which of them fails first. The one error is want of memory.
fn put_checks(words: &mut String, call: Call, reply: Reply) -> Result<(), AllocError> {
    let act = kind_of(call);
    let (which, name) = match reply {
        Reply::Refused(refusal) => ("the first that fails is ", refusal_name(refusal)),
        _ => ("none fails", ""),
    };
    write!(
        words,
        "{}'s checks are {}{}: {}{}",
        act.rules_name(),
        party_checks(call),
        act.checks(),
        which,
        name
    )
}

/// Why nobody is asked at first.
fn none_asked(call: Call, reply: Reply) -> Rule {
    if matches!(reply, Reply::Refused(_)) {
        return ("a refused call asks nobody", Section::Histories);
    }
    match call {
        Call::CallDriver { .. } => (NO_DISPATCH, Section::SendingDown),
        Call::Complete { .. } | Call::FinishTaken { .. } => (NO_FLAG_MET, Section::Unwinding),
        Call::Cancel { .. } => (
            "a packet without a cancel routine: nobody is asked",
            Section::Cancelling,
        ),
        _ => ("this call asks nobody", Section::Calls),
    }
}

/// Why nobody is asked behind a dispatch with this plan.
fn none_below(plan: Plan) -> Rule {
    match plan {
        Plan::Finish { .. } => (NO_FLAG_MET, Section::Unwinding),
        Plan::Hold { .. } => ("Hold ends the descent", Section::SendingDown),
        Plan::HoldSlot => ("HoldSlot ends the descent", Section::SendingDown),
        _ => (
            "the driver below has no dispatch for the major, and no routine on the way up has a flag that is met",
            Section::SendingDown,
        ),
    }
}

/// Why nobody is asked behind this question.
fn none_behind(question: Asked) -> Rule {
    match question {
        Asked::Dispatch { plan, .. } => none_below(plan),
        Asked::Completion { answer, .. } if answer.keep => {
            ("Keep: unwinding stops", Section::Unwinding)
        }
        Asked::Completion { .. } => (
            "no routine further up has a flag that is met",
            Section::Unwinding,
        ),
        Asked::Cancel { answer, .. } => match answer {
            CancelAnswer::Finish { .. } => (NO_FLAG_MET, Section::Unwinding),
            CancelAnswer::Leave => ("Leave does no more", Section::Cancelling),
        },
    }
}

/// Why the manager asks nobody at this place.
fn nobody_rule(made: &Entry, at: usize) -> Rule {
    let before = if at == 0 {
        None
    } else {
        made.asked.as_slice().get(at - 1)
    };
    match before {
        Some(question) => none_behind(*question),
        None => none_asked(made.call, made.reply),
    }
}

/// Why the manager asks somebody at this place; where it asks nobody, why not.
fn asking_rule(made: &Entry, at: usize) -> Rule {
    match made.asked.as_slice().get(at) {
        Some(Asked::Dispatch { .. }) => (
            "the dispatch of the device's driver for the major is asked",
            Section::SendingDown,
        ),
        Some(Asked::Completion { .. }) => (
            "a routine with a flag that is met is asked, from the current location up",
            Section::Unwinding,
        ),
        Some(Asked::Cancel { .. }) => (
            "the cancel routine is taken out and asked",
            Section::Cancelling,
        ),
        None => nobody_rule(made, at),
    }
}

/// Puts the rule of a question that differs in this part. The one error is want of memory.
fn put_question_rule(
    words: &mut String,
    header: Option<&Header>,
    entry: &Entry,
    made: &Entry,
    at: usize,
    part: QuestionPart,
) -> Result<(), AllocError> {
    match (part, entry.asked.as_slice().get(at)) {
        (QuestionPart::Shown(field), Some(question)) => put_field_rule(words, field, *question),
        (QuestionPart::Answer, Some(question)) => words.push_str(broken_rule(header, *question)),
        (QuestionPart::TooMany, _) => words.push_str(nobody_rule(made, at).0),
        _ => words.push_str(asking_rule(made, at).0),
    }
}

/// Puts the rule that a wrong entry breaks, which a transcript with this header has. The one error is want of memory.
pub fn put_rule(
    words: &mut String,
    header: Option<&Header>,
    entry: &Entry,
    wrong: &Wrong,
) -> Result<(), AllocError> {
    let made = &wrong.made;
    match wrong.difference {
        Difference::Number => words.push_str(
            "an entry's number is its place in the history, from 0",
        ),
        Difference::Lock => words.push_str(
            "the remove lock that the device was created with, and none where there was no such device",
        ),
        Difference::Drained => words.push_str("without a remove lock nothing is known drained"),
        Difference::Refusal => put_checks(words, made.call, made.reply),
        Difference::Question { at, part } => {
            put_question_rule(words, header, entry, made, at, part)
        }
        Difference::Reply => words.push_str(reply_rule(made.call).0),
    }
}

/// The section of a question that differs in this part.
fn section_of_part(part: QuestionPart, made: &Entry, at: usize) -> Section
    ensures { IfSome (section_of_part part) (λ known. result ≡ known) }
{
    match part {
        QuestionPart::TooMany => nobody_rule(made, at).1,
        QuestionPart::TooFew | QuestionPart::Closure => asking_rule(made, at).1,
        QuestionPart::Shown(_) => Section::Shown,
        QuestionPart::Answer => Section::Closures,
    }
}

/// The section of docs/RULES.md that the rule stands in, where an entry differs so from what the manager makes.
pub fn section_of(difference: Difference, made: &Entry) -> Section
    ensures { IfSome (section_of difference) (λ known. result ≡ known) }
{
    match difference {
        Difference::Number | Difference::Lock | Difference::Drained => Section::Histories,
        Difference::Refusal => Section::Calls,
        Difference::Question { at, part } => section_of_part(part, made, at),
        Difference::Reply => reply_rule(made.call).1,
    }
}
