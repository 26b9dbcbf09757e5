//! Where a packet is after a call that moved it.

ghost use Rattle.std.specs.Prelude.{◌≡◌, Some};
ghost use Rattle.irp_listing.specs.Heads.{moves, sends};
ghost use Rattle.irp_listing.specs.Outcomes.{end_text, first_result, given_by, left_by, outcome_of, outcome_text, settled_by};

use irp_names::{DeviceWords, ReplyWords, ResultWords};
use irp_types::{
    Answer, Asked, Call, CancelAnswer, DeviceId, Entry, Plan, Replacement, Reply, Shown, Status,
};
use std::fmt;

/// Where a packet is after a call that moved it, as its entry tells.
#[derive(Clone, Copy)]
pub enum Outcome {
    /// A device holds it.
    Held(Option<DeviceId>),
    /// A completion routine kept it for a device, or for the originator.
    Kept(Option<DeviceId>, Status, u64),
    /// It stays with the device that had it.
    Stays,
    /// It has completed.
    Completed(Status, u64),
}

/// Whether a call sends or completes its packet; a Cancel does where it asked somebody.
pub fn sends(call: Call, asked: &[Asked]) -> bool
    ensures { result ≡ sends call asked.now }
{
    match call {
        Call::CallDriver { .. } | Call::Complete { .. } | Call::FinishTaken { .. } => true,
        Call::Cancel { .. } => !asked.is_empty(),
        _ => false,
    }
}

/// Whether the call of an entry moved its packet.
pub fn moves(entry: &Entry) -> bool
    ensures { result ≡ moves entry.now entry.now.reply }
{
    match entry.reply {
        Reply::Refused(_) => false,
        _ => sends(entry.call, entry.asked.as_slice()),
    }
}

/// What a packet is completed with where no answer gives anything: what the call says, or what a driver without a
/// dispatch for the major gives.
fn first_result(call: Call) -> Replacement
    ensures { result ≡ first_result call }
{
    match call {
        Call::Complete {
            status,
            information,
            ..
        } => Replacement {
            status,
            information,
        },
        Call::FinishTaken {
            status,
            information,
            ..
        } => Replacement {
            status,
            information,
        },
        _ => Replacement {
            status: Status::INVALID_DEVICE_REQUEST,
            information: 0,
        },
    }
}

/// What a completion routine leaves: what it sets, or what it was shown.
fn left_by(shown: Shown, answer: Answer) -> Replacement
    ensures { result ≡ left_by shown answer }
{
    match answer.replacement {
        Some(put) => put,
        None => Replacement {
            status: shown.status,
            information: shown.information,
        },
    }
}

/// The status and information that an answer gives the packet, if it does.
fn given_by(question: Asked) -> Option<Replacement>
    ensures { result ≡ given_by question }
{
    match question {
        Asked::Dispatch {
            plan: Plan::Finish {
                status,
                information,
            },
            ..
        } => Some(Replacement {
            status,
            information,
        }),
        Asked::Completion { shown, answer, .. } => Some(left_by(shown, answer)),
        Asked::Cancel {
            answer: CancelAnswer::Finish { information },
            ..
        } => Some(Replacement {
            status: Status::CANCELLED,
            information,
        }),
        _ => None,
    }
}

/// Where an answer leaves the packet, if that settles it: a dispatch holds it, a completion routine keeps it, or a
/// cancel routine leaves it with its device.
fn settled_by(question: Asked) -> Option<Outcome>
    ensures { result ≡ settled_by question }
{
    match question {
        Asked::Dispatch {
            shown,
            plan: Plan::Hold { .. } | Plan::HoldSlot,
            ..
        } => Some(Outcome::Held(shown.device)),
        Asked::Completion { shown, answer, .. } => {
            if !answer.keep {
                return None;
            }
            let left = left_by(shown, answer);
            Some(Outcome::Kept(shown.device, left.status, left.information))
        }
        Asked::Cancel {
            answer: CancelAnswer::Leave,
            ..
        } => Some(Outcome::Stays),
        _ => None,
    }
}

/// Where the packet is after the call of this entry, on condition that the call moved it.
pub fn outcome_of(entry: &Entry) -> Outcome
    ensures { result ≡ outcome_of entry.now.call entry.now.asked }
{
    let mut last = first_result(entry.call);
    for question in entry.asked.as_slice() {
        if let Some(settled) = settled_by(*question) {
            return settled;
        }
        if let Some(given) = given_by(*question) {
            last = given;
        }
    }
    Outcome::Completed(last.status, last.information)
}

/// Where a packet is after a call that moved it.
#[derive(Clone, Copy)]
pub struct EndWords(pub Outcome);

impl fmt::Display for EndWords {
    ghost output = { λ words. Some (end_text words.0) };

    fn fmt<W: fmt::Write>(&self, f: &mut fmt::Formatter<W>) -> fmt::Result {
        match self.0 {
            Outcome::Held(device) => write!(f, "{} holds the packet", DeviceWords(device)),
            Outcome::Kept(device, status, information) => write!(
                f,
                "{} has the packet again: {}",
                DeviceWords(device),
                ResultWords(status, information)
            ),
            Outcome::Stays => f.write_str("the packet stays with its device"),
            Outcome::Completed(status, information) => {
                write!(f, "completed: {}", ResultWords(status, information))
            }
        }
    }
}

/// Where the packet is, and what the caller gets.
#[derive(Clone, Copy)]
pub struct OutcomeWords {
    pub outcome: Outcome,
    pub call: Call,
    pub reply: Reply,
}

impl fmt::Display for OutcomeWords {
    ghost output = { λ words. Some (outcome_text words.outcome words.call words.reply) };

    fn fmt<W: fmt::Write>(&self, f: &mut fmt::Formatter<W>) -> fmt::Result {
        let OutcomeWords { call, reply, .. } = *self;
        let end = EndWords(self.outcome);
        match reply {
            Reply::Done => write!(f, "= {}", end),
            _ => write!(
                f,
                "= {}; the caller gets {}",
                end,
                ReplyWords { call, reply }
            ),
        }
    }
}
