//! What calls are answered.

ghost use Rattle.std.specs.Prelude.{◌≡◌, Some};
ghost use Rattle.irp_names.specs.Replies.{RefusalsAreToldApart, answered_device, reply_text, routine_set, seen_text};

use crate::call_names::CancelWords;
use crate::small::{OwnerWords, PacketWords, told_if};
use crate::statuses::{ResultWords, StatusWords};
use irp_types::{Call, CancelId, DeviceId, Reply, Seen, refusal_name};
use std::fmt;

/// What a call was answered.
#[derive(Clone, Copy)]
pub struct ReplyWords {
    pub call: Call,
    pub reply: Reply,
}

impl fmt::Display for ReplyWords {
    ghost output = { λ words. Some (reply_text words.call words.reply) };

    fn fmt<W: fmt::Write>(&self, f: &mut fmt::Formatter<W>) -> fmt::Result {
        match self.reply {
            Reply::Done => f.write_str("done"),
            Reply::Device(device) => write!(f, "{}", AnsweredDevice(self.call, device)),
            Reply::Irp(irp) => write!(f, "{}", PacketWords(irp)),
            Reply::Status(status) => write!(f, "{}", StatusWords(status)),
            Reply::Previous(cancel) => write!(f, "was {}", CancelWords(cancel)),
            Reply::Cancelled(true) => f.write_str("TRUE: its cancel routine ran"),
            Reply::Cancelled(false) => f.write_str("FALSE: no cancel routine was set"),
            Reply::Seen(seen) => write!(f, "{}", SeenWords(seen)),
            Reply::Refused(refusal) => write!(f, "refused: {}", refusal_name(refusal)),
        }
    }
}

/// What has the text of a refusal is that refusal: no two refusals have one text, and none has that of a success.
#[tactic(auto, using(crate::proofs::ToldApart::told_apart))]
pub fn refusals_are_told_apart()
    ensures { RefusalsAreToldApart }
{}

/// The device that a call is answered.
#[derive(Clone, Copy)]
struct AnsweredDevice(Call, DeviceId);

impl fmt::Display for AnsweredDevice {
    ghost output = { λ words. Some (answered_device words.0 words.1) };

    fn fmt<W: fmt::Write>(&self, f: &mut fmt::Formatter<W>) -> fmt::Result {
        match self.0 {
            Call::Attach { .. } => write!(f, "attached above D{}", self.1.0),
            Call::Detach { .. } => write!(f, "D{} is cut off", self.1.0),
            _ => write!(f, "D{}", self.1.0),
        }
    }
}

/// The cancel routine that a packet has, where it has one.
#[derive(Clone, Copy)]
struct RoutineSet(Option<CancelId>);

impl fmt::Display for RoutineSet {
    ghost output = { λ words. Some (routine_set words.0) };

    fn fmt<W: fmt::Write>(&self, f: &mut fmt::Formatter<W>) -> fmt::Result {
        match self.0 {
            Some(id) => write!(f, ", cancel routine {} set", id.0),
            None => f.write_str(""),
        }
    }
}

/// What Look shows, in one line.
#[derive(Clone, Copy)]
pub struct SeenWords(pub Seen);

impl fmt::Display for SeenWords {
    ghost output = { λ words. Some (seen_text words.0) };

    fn fmt<W: fmt::Write>(&self, f: &mut fmt::Formatter<W>) -> fmt::Result {
        let seen = self.0;
        write!(
            f,
            "{}, current location {}, {}{}{}{}{}",
            OwnerWords(seen.owner),
            seen.current,
            ResultWords(seen.status, seen.information),
            told_if(seen.cancel, ", cancelled"),
            RoutineSet(seen.cancel_routine),
            told_if(seen.pending_returned, ", PendingReturned"),
            told_if(seen.marked, ", marked pending")
        )
    }
}
