//! Steps on remove locks and on cancel slots.

ghost use Rattle.std.specs.Prelude.{Some};
ghost use Rattle.irp_names.specs.Acts.{hand_text, lock_act_text, lock_and_tag, slot_act_text};

use irp_types::{Hand, LockAct, LockNo, SlotAct};
use std::fmt;

/// A remove lock, and a tag.
#[derive(Clone, Copy)]
struct LockAndTag(LockNo, u32);

impl fmt::Display for LockAndTag {
    ghost output = { λ words. Some (lock_and_tag words.0 words.1) };

    fn fmt<W: fmt::Write>(&self, f: &mut fmt::Formatter<W>) -> fmt::Result {
        write!(f, "remove lock {}, tag {}", self.0.0, self.1)
    }
}

/// A step on a remove lock.
#[derive(Clone, Copy)]
pub struct LockActWords(pub LockAct);

impl fmt::Display for LockActWords {
    ghost output = { λ words. Some (lock_act_text words.0) };

    fn fmt<W: fmt::Write>(&self, f: &mut fmt::Formatter<W>) -> fmt::Result {
        match self.0 {
            LockAct::Acquire { lock, tag } => {
                write!(f, "IoAcquireRemoveLock({})", LockAndTag(lock, tag))
            }
            LockAct::Release { lock, tag } => {
                write!(f, "IoReleaseRemoveLock({})", LockAndTag(lock, tag))
            }
            LockAct::BeginRemove { lock, tag } => {
                write!(f, "begins the removal of {}", LockAndTag(lock, tag))
            }
            LockAct::Drained { lock } => write!(f, "is remove lock {} drained?", lock.0),
        }
    }
}

/// A reference to a remove lock that is handed over.
#[derive(Clone, Copy)]
pub struct HandWords(pub Hand);

impl fmt::Display for HandWords {
    ghost output = { λ words. Some (hand_text words.0) };

    fn fmt<W: fmt::Write>(&self, f: &mut fmt::Formatter<W>) -> fmt::Result {
        let Hand { lock, tag, to } = self.0;
        write!(f, "hands {}, to seat {}", LockAndTag(lock, tag), to)
    }
}

/// A step on a cancel slot.
#[derive(Clone, Copy)]
pub struct SlotActWords(pub SlotAct);

impl fmt::Display for SlotActWords {
    ghost output = { λ words. Some (slot_act_text words.0) };

    fn fmt<W: fmt::Write>(&self, f: &mut fmt::Formatter<W>) -> fmt::Result {
        match self.0 {
            SlotAct::Publish { slot } => write!(f, "publishes in cancel slot {}", slot),
            SlotAct::Withdraw { slot } => write!(f, "withdraws from cancel slot {}", slot),
            SlotAct::Request { slot } => write!(f, "requests cancel slot {}", slot),
        }
    }
}
