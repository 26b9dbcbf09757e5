//! Closures, what they answer and what is set for them.

ghost use Rattle.std.specs.Prelude.{◌≡◌, Some};
ghost use Rattle.irp_names.specs.Calls.{flags_words, setting_text};
ghost use Rattle.irp_names.specs.Closures.{PlansAreToldApart, answer_text, answered_text, cancel_answer_text, cancel_set, closure_text, forwarding, kept_words, plan_text, replaced_text, routine_set};

use crate::small::{Hex, RoutineWords, told_if};
use crate::statuses::ResultWords;
use irp_types::{Answer, Asked, CancelAnswer, CancelId, Plan, Replacement, Setting};
use std::fmt;

/// A closure by its name, as `dispatch 2`, `keeper 0` or `cancel routine 1`.
#[derive(Clone, Copy)]
pub struct ClosureWords(pub Asked);

impl fmt::Display for ClosureWords {
    ghost output = { λ words. Some (closure_text words.0) };

    fn fmt<W: fmt::Write>(&self, f: &mut fmt::Formatter<W>) -> fmt::Result {
        match self.0 {
            Asked::Dispatch { id, .. } => write!(f, "dispatch {}", id.0),
            Asked::Completion { id, .. } => write!(f, "{}", RoutineWords(id)),
            Asked::Cancel { id, .. } => write!(f, "cancel routine {}", id.0),
        }
    }
}

/// On what a completion routine is asked, from its flags.
fn flags_words(setting: Setting) -> &'static str
    ensures { result.now ≡ flags_words setting.on_success setting.on_error setting.on_cancel }
{
    match (setting.on_success, setting.on_error, setting.on_cancel) {
        (true, true, true) => "on success, on error, on cancel",
        (true, true, false) => "on success, on error",
        (true, false, true) => "on success, on cancel",
        (true, false, false) => "on success",
        (false, true, true) => "on error, on cancel",
        (false, true, false) => "on error",
        (false, false, true) => "on cancel",
        (false, false, false) => "never",
    }
}

/// A completion routine that is set, with its context and its flags.
#[derive(Clone, Copy)]
pub struct SettingWords(pub Setting);

impl fmt::Display for SettingWords {
    ghost output = { λ words. Some (setting_text words.0) };

    fn fmt<W: fmt::Write>(&self, f: &mut fmt::Formatter<W>) -> fmt::Result {
        write!(
            f,
            "{}, context {}, {}",
            RoutineWords(self.0.routine),
            Hex(self.0.context),
            flags_words(self.0)
        )
    }
}

/// What a dispatch did, as a driver writes it.
#[derive(Clone, Copy)]
pub struct PlanWords(pub Plan);

impl fmt::Display for PlanWords {
    ghost output = { λ words. Some (plan_text words.0) };

    fn fmt<W: fmt::Write>(&self, f: &mut fmt::Formatter<W>) -> fmt::Result {
        match self.0 {
            Plan::Finish {
                status,
                information,
            } => write!(
                f,
                "IoCompleteRequest with {}",
                ResultWords(status, information)
            ),
            Plan::Hold { cancel } => write!(
                f,
                "IoMarkIrpPending, {}keeps the packet, returns STATUS_PENDING",
                CancelSet(cancel)
            ),
            Plan::HoldSlot => f.write_str(
                "IoMarkIrpPending, keeps the packet for a cancel slot, returns STATUS_PENDING",
            ),
            Plan::Skip => f.write_str("IoSkipCurrentIrpStackLocation, IoCallDriver"),
            Plan::Forward { set } => write!(f, "{}", Forwarding(set)),
            Plan::ForwardPend { set } => write!(
                f,
                "IoMarkIrpPending, {}, returns STATUS_PENDING",
                Forwarding(set)
            ),
        }
    }
}

/// Two plans with one text are one plan, numbers and all (this project's own rule).
pub fn plans_are_told_apart()
    ensures { PlansAreToldApart }
{}

/// The cancel routine that is set, where one is.
#[derive(Clone, Copy)]
struct CancelSet(Option<CancelId>);

impl fmt::Display for CancelSet {
    ghost output = { λ words. Some (cancel_set words.0) };

    fn fmt<W: fmt::Write>(&self, f: &mut fmt::Formatter<W>) -> fmt::Result {
        match self.0 {
            Some(id) => write!(f, "IoSetCancelRoutine(cancel routine {}), ", id.0),
            None => f.write_str(""),
        }
    }
}

/// The completion routine that is set, where one is.
#[derive(Clone, Copy)]
struct RoutineSet(Option<Setting>);

impl fmt::Display for RoutineSet {
    ghost output = { λ words. Some (routine_set words.0) };

    fn fmt<W: fmt::Write>(&self, f: &mut fmt::Formatter<W>) -> fmt::Result {
        match self.0 {
            Some(set) => write!(f, "IoSetCompletionRoutine({}), ", SettingWords(set)),
            None => f.write_str(""),
        }
    }
}

/// A copy to the next lower location, with what is set there, and the call of the driver below.
#[derive(Clone, Copy)]
struct Forwarding(Option<Setting>);

impl fmt::Display for Forwarding {
    ghost output = { λ words. Some (forwarding words.0) };

    fn fmt<W: fmt::Write>(&self, f: &mut fmt::Formatter<W>) -> fmt::Result {
        write!(
            f,
            "IoCopyCurrentIrpStackLocationToNext, {}IoCallDriver",
            RoutineSet(self.0)
        )
    }
}

/// What a completion routine did, as a driver writes it.
#[derive(Clone, Copy)]
pub struct AnswerWords(pub Answer);

impl fmt::Display for AnswerWords {
    ghost output = { λ words. Some (answer_text words.0) };

    fn fmt<W: fmt::Write>(&self, f: &mut fmt::Formatter<W>) -> fmt::Result {
        let Answer {
            keep,
            mark,
            replacement,
        } = self.0;
        let marked = told_if(mark, "IoMarkIrpPending, ");
        let kept = kept_words(keep);
        write!(f, "{}{}{}", marked, Replaced(replacement), kept)
    }
}

/// The status and information that a completion routine sets, where it sets them.
#[derive(Clone, Copy)]
struct Replaced(Option<Replacement>);

impl fmt::Display for Replaced {
    ghost output = { λ words. Some (replaced_text words.0) };

    fn fmt<W: fmt::Write>(&self, f: &mut fmt::Formatter<W>) -> fmt::Result {
        match self.0 {
            Some(put) => write!(f, "sets {}, ", ResultWords(put.status, put.information)),
            None => f.write_str(""),
        }
    }
}

/// What a completion routine returns.
fn kept_words(keep: bool) -> &'static str
    ensures { result.now ≡ kept_words keep }
{
    if keep {
        "returns STATUS_MORE_PROCESSING_REQUIRED: keeps the packet"
    } else {
        "returns STATUS_CONTINUE_COMPLETION"
    }
}

/// What a cancel routine did.
#[derive(Clone, Copy)]
pub struct CancelAnswerWords(pub CancelAnswer);

impl fmt::Display for CancelAnswerWords {
    ghost output = { λ words. Some (cancel_answer_text words.0) };

    fn fmt<W: fmt::Write>(&self, f: &mut fmt::Formatter<W>) -> fmt::Result {
        match self.0 {
            CancelAnswer::Finish { information } => write!(
                f,
                "IoCompleteRequest with STATUS_CANCELLED, information {}",
                Hex(information)
            ),
            CancelAnswer::Leave => f.write_str("leaves the packet with its device"),
        }
    }
}

/// What a closure answered.
#[derive(Clone, Copy)]
pub struct AnsweredWords(pub Asked);

impl fmt::Display for AnsweredWords {
    ghost output = { λ words. Some (answered_text words.0) };

    fn fmt<W: fmt::Write>(&self, f: &mut fmt::Formatter<W>) -> fmt::Result {
        match self.0 {
            Asked::Dispatch { plan, .. } => write!(f, "{}", PlanWords(plan)),
            Asked::Completion { answer, .. } => write!(f, "{}", AnswerWords(answer)),
            Asked::Cancel { answer, .. } => write!(f, "{}", CancelAnswerWords(answer)),
        }
    }
}
