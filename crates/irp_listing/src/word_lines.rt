//! Word lines: steps on remove locks and on cancel slots.

ghost use Rattle.std.specs.Prelude.{◌≡◌, Some};
ghost use Rattle.irp_listing.specs.WordLines.{act_text, fixed_words, in_flight, reply_text, word_line_text};

use irp_names::{HandWords, LockActWords, SlotActWords};
use irp_transcript::{Act, WordLine, WordReply};
use std::fmt;

/// A word line, in words.
#[derive(Clone, Copy)]
pub struct WordLineWords(pub WordLine);

impl fmt::Display for WordLineWords {
    ghost output = { λ words. Some (word_line_text words.0) };

    fn fmt<W: fmt::Write>(&self, f: &mut fmt::Formatter<W>) -> fmt::Result {
        let WordLine {
            seat,
            step,
            act,
            reply,
        } = self.0;
        write!(
            f,
            "step {}  seat {}: {} -> {}",
            step,
            seat,
            ActWords(act),
            WordReplyWords(reply)
        )
    }
}

/// What was done with a remove lock or a cancel slot.
#[derive(Clone, Copy)]
struct ActWords(Act);

impl fmt::Display for ActWords {
    ghost output = { λ words. Some (act_text words.0) };

    fn fmt<W: fmt::Write>(&self, f: &mut fmt::Formatter<W>) -> fmt::Result {
        match self.0 {
            Act::OnLock(act) => write!(f, "{}", LockActWords(act)),
            Act::Hand(hand) => write!(f, "{}", HandWords(hand)),
            Act::OnSlot(act) => write!(f, "{}", SlotActWords(act)),
            Act::FinishTaken { slot } => {
                write!(f, "would finish what it took from cancel slot {}", slot)
            }
        }
    }
}

/// What a step was answered.
#[derive(Clone, Copy)]
struct WordReplyWords(WordReply);

impl fmt::Display for WordReplyWords {
    ghost output = { λ words. Some (reply_text words.0) };

    fn fmt<W: fmt::Write>(&self, f: &mut fmt::Formatter<W>) -> fmt::Result {
        match self.0 {
            WordReply::Busy { word } => {
                write!(f, "busy: {}{}", word / 2, in_flight(word % 2 == 1))
            }
            WordReply::Taken { use_no } => write!(f, "took use {}", use_no),
            other => f.write_str(fixed_words(other)),
        }
    }
}

/// An answer that has no number.
fn fixed_words(reply: WordReply) -> &'static str
    ensures { result.now ≡ fixed_words reply }
{
    match reply {
        WordReply::Acquired => "STATUS_SUCCESS",
        WordReply::DeletePending => "STATUS_DELETE_PENDING: removal has begun",
        WordReply::Done => "done",
        WordReply::SeatFull => "seat_full: the seat holds 64 references",
        WordReply::NotHeld => "not_held: the seat doesn't hold the lock under this tag",
        WordReply::AlreadyRemoving => "already_removing: another removal came first",
        WordReply::NoLock => "no_lock: there is no such remove lock",
        WordReply::Yes => "yes: it is drained",
        WordReply::Standing => "standing: a request may take it",
        WordReply::Lost => "lost: a request took it",
        WordReply::Nothing => "nothing: the slot is empty",
        WordReply::Used => "used: the slot served before",
        WordReply::NotStanding => "not_standing: nothing of this seat stands there",
        WordReply::NoSlot => "no_slot: there is no such cancel slot",
        WordReply::NoToken => "no_token: the seat took nothing from it",
        WordReply::Busy { .. } | WordReply::Taken { .. } => "",
    }
}

/// What is counted of a lock that is busy, and whether a removal of it has begun.
fn in_flight(has_begun: bool) -> &'static str
    ensures { result.now ≡ in_flight has_begun }
{
    if has_begun {
        " references or attempts in flight, removal has begun"
    } else {
        " references or attempts in flight, removal hasn't begun"
    }
}
