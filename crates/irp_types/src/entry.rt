//! The entries of a history. All of this is this project's own rule.

ghost use Rattle.std.specs.Prelude.{◌≡◌, ◌≤◌, [], length, vec_capacity, IsTrue};
ghost use mathlib.Core.Logic.{◌↔◌};

use crate::asked::Asked;
use crate::call::Call;
use crate::names::LockNo;
use crate::questions::Questions;
use crate::reply::Reply;
use std::mem;

/// One recorded call. Large fields come first, since fields lie in this order.
#[derive(Drop)]
pub struct Entry {
    /// The entry's place in the history, from 0.
    pub number: u64,
    pub call: Call,
    /// What was asked of closures, in order.
    pub asked: Questions,
    pub reply: Reply,
    /// The seat that made the call, from 0.
    pub seat: u32,
    /// The lock of the device that a Delete names, where it is one that was created.
    pub lock: Option<LockNo>,
    /// Whether that lock was known to be drained.
    pub drained: bool,
}

/// Whether two lists of questions are equal.
fn are_same(one: &[Asked], other: &[Asked]) -> bool
    ensures { IsTrue result ↔ (one.now ≡ other.now) }
{
    one == other
}

impl Entry {
    /// This entry with these questions, which are its own.
    #[inline]
    fn with(&self, asked: Questions) -> Entry
        requires { asked ≡ self.now.asked }
        ensures { result ≡ self.now }
    {
        Entry {
            number: self.number,
            seat: self.seat,
            call: self.call,
            lock: self.lock,
            drained: self.drained,
            asked,
            reply: self.reply,
        }
    }

    /// An equal entry, whose questions lie in the room given: an empty vector with room for as many as this entry has.
    /// It takes no memory, and can't fail.
    pub fn copy_into(&self, room: Vec<Asked>) -> Entry
        requires empty { room.items ≡ [] }
        requires ample { length self.now.asked ≤ vec_capacity room }
        ensures { result ≡ self.now }
    {
        let mut asked = room;
        for item in self.asked.as_slice() {
            asked.push_reserved(*item);
        }
        self.with(Questions::from_vec(asked))
    }

    /// An equal entry, which shares its questions with this one where it may. Else they are put into the room, which is
    /// an empty vector with room for as many as this entry has, and the room is left without any. It takes no memory,
    /// and can't fail.
    #[inline]
    pub fn shared_copy(&self, room: &mut Vec<Asked>) -> Entry
        requires empty { room.old.items ≡ [] }
        requires ample { length self.now.asked ≤ vec_capacity room.old }
        ensures copied { result ≡ self.now }
        ensures empty { room.new.items ≡ [] }
    {
        if let Some(asked) = self.asked.shared() {
            return self.with(asked);
        }
        let none = Vec::new(*room.allocator());
        self.copy_into(mem::replace(room, none))
    }

    /// Whether the two say the same, each field and each question.
    pub fn is_same(&self, other: &Entry) -> bool
        ensures { IsTrue result ↔ (self.now ≡ other.now) }
    {
        self.number == other.number
            && self.seat == other.seat
            && self.call == other.call
            && self.lock == other.lock
            && self.drained == other.drained
            && self.reply == other.reply
            && are_same(self.asked.as_slice(), other.asked.as_slice())
    }
}
