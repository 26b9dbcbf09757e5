//! Refusals.

ghost use Rattle.std.specs.Prelude.{◌≡◌, Some};
ghost use Rattle.std.specs.Option.{option_map};
ghost use Rattle.irp_names.specs.Refusals.{completion_name, delete_name, mistake_name, refusal_text, reuse_name, sending_name, windows_name};

use irp_forms::{ActKind, kind_of};
use irp_types::{Call, Refusal, refusal_meaning, refusal_name};
use std::fmt;

/// The name in Windows of the mistake for which this call is refused so: a bug check, a code of Driver Verifier or a
/// rule of Static Driver Verifier. None where there is none (docs/RULES.md, Refusals).
pub fn windows_name(call: Call, refusal: Refusal) -> Option<&'static str>
    ensures { option_map (λ name. name.now) result ≡ windows_name call refusal }
{
    mistake_name(kind_of(call), refusal)
}

/// The same for the call that such a step makes.
pub fn mistake_name(act: ActKind, refusal: Refusal) -> Option<&'static str>
    ensures { option_map (λ name. name.now) result ≡ mistake_name act refusal }
{
    match act {
        ActKind::CallDriver => sending_name(refusal),
        ActKind::Complete | ActKind::FinishTaken => completion_name(refusal),
        ActKind::Reuse => reuse_name(refusal),
        ActKind::Delete => delete_name(refusal),
        _ => None,
    }
}

/// The same for a call of the driver below.
fn sending_name(refusal: Refusal) -> Option<&'static str>
    ensures { option_map (λ name. name.now) result ≡ sending_name refusal }
{
    match refusal {
        Refusal::TooShort => Some("bug check 0x35, NO_MORE_IRP_STACK_LOCATIONS"),
        _ => None,
    }
}

/// The same for a reuse.
fn reuse_name(refusal: Refusal) -> Option<&'static str>
    ensures { option_map (λ name. name.now) result ≡ reuse_name refusal }
{
    match refusal {
        Refusal::InFlight => Some("rule IoReuseIrp"),
        _ => None,
    }
}

/// The same for the deletion of a device.
fn delete_name(refusal: Refusal) -> Option<&'static str>
    ensures { option_map (λ name. name.now) result ≡ delete_name refusal }
{
    match refusal {
        Refusal::NotDrained => Some("the RemoveLock rules"),
        _ => None,
    }
}

/// The same for a completion.
fn completion_name(refusal: Refusal) -> Option<&'static str>
    ensures { option_map (λ name. name.now) result ≡ completion_name refusal }
{
    match refusal {
        Refusal::Ended => {
            Some("bug check 0x44, MULTIPLE_IRP_COMPLETE_REQUESTS; rule DoubleCompletion")
        }
        Refusal::BadStatus => Some("Driver Verifier 0xC9, code 6; rule CompleteRequestStatusCheck"),
        Refusal::CancelRoutineSet => {
            Some("bug check 0x48, CANCEL_STATE_IN_COMPLETED_IRP; Driver Verifier 0xC9, code 7")
        }
        _ => None,
    }
}

/// A refusal, with when it comes, and with its name in Windows where it has one.
#[derive(Clone, Copy)]
pub struct RefusalWords {
    pub call: Call,
    pub refusal: Refusal,
}

impl fmt::Display for RefusalWords {
    ghost output = { λ words. Some (refusal_text words.call words.refusal) };

    fn fmt<W: fmt::Write>(&self, f: &mut fmt::Formatter<W>) -> fmt::Result {
        let name = refusal_name(self.refusal);
        let meaning = refusal_meaning(self.refusal);
        match windows_name(self.call, self.refusal) {
            Some(known) => write!(f, "{}, {} (in Windows: {})", name, meaning, known),
            None => write!(f, "{}, {}", name, meaning),
        }
    }
}
