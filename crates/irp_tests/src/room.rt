//! The seats of a session, and the loop that makes the steps of an example there and tries a refused call again.

use crate::example::{Deed, Example, IRP};
use crate::notes::Notes;
use crate::removes::Removes;
use crate::rows::{ALLOCATE, LOOK};
use crate::tried::{Halt, Tried, wanted};
use irp_manager::{NotRecorded, Receipt};
use irp_routines::Ask;
use irp_shared::{Seat, Session, Shared, learn, needs_token};
use irp_slots::Token;
use irp_types::{Call, KnowsNothing, Reply, Status};
use std::sync::Wait;

/// The seats of a session, the last of which looks on; their remove lock; the token of the first packet's use, until it
/// is spent; how many entries the history has; what closures note; and what became of the refused request.
#[derive(Drop)]
pub struct Room<'a, R, A: Ask, L: Session> {
    pub rt: &'a R,
    pub shared: &'a Shared<A, L>,
    pub seats: &'a mut [Seat<L>],
    pub removes: Removes,
    pub token: Option<Token>,
    pub entries: u64,
    pub notes: &'a Notes,
    pub tried: &'a mut Tried,
}

/// Completes the first packet with the token. A refused call has to hand the token back.
fn finished<A: Ask, L: Session>(
    rt: &impl Wait,
    shared: &Shared<A, L>,
    seat: &mut Seat<L>,
    token: &mut Option<Token>,
) -> Result<Result<Receipt<L>, NotRecorded>, Halt> {
    let Some(own) = token.take() else {
        return Err(Halt::Wrong("the token is spent"));
    };
    match shared.finish_taken(rt, seat, IRP, own, Status::SUCCESS, 5) {
        Ok((receipt, back)) => {
            *token = back;
            Ok(Ok(receipt))
        }
        Err((reason, back)) => {
            *token = Some(back);
            Ok(Err(reason))
        }
    }
}

impl<R: Wait, A: Ask, L: Session> Room<'_, R, A, L> {
    /// Makes a call in a seat, and answers the reply. None where memory was missing in it, and what can be seen of
    /// history and seat is as it was.
    fn make(&mut self, seat: u32, call: Call) -> Result<Option<Reply>, Halt> {
        let Some(own) = self.seats.get_mut(seat as usize) else {
            return Err(Halt::Wrong("there is no such seat"));
        };
        let before = (own.count(), own.seen());
        let (name, made) = if needs_token(call) {
            let made = finished(self.rt, self.shared, own, &mut self.token)?;
            ("Shared::finish_taken", made)
        } else {
            let removes = &self.removes;
            let note = if seat == 0 {
                &removes.first
            } else {
                &removes.second
            };
            ("Shared::call", self.shared.call(self.rt, own, call, note))
        };
        let is_same = (own.count(), own.seen()) == before;
        match made {
            Ok(receipt) if receipt.number() == self.entries => {
                self.entries = self.entries.wrapping_add(1);
                Ok(Some(receipt.reply()))
            }
            Ok(_) => Err(Halt::Wrong("an entry has another number than it should have")),
            Err(NotRecorded::Memory) => {
                self.tried.refused(name, is_same)?;
                Ok(None)
            }
            Err(_) => Err(Halt::Wrong("a call wasn't recorded")),
        }
    }

    /// Looks around, in the seat that looks on: what the first packet looks like, and which digits were noted. A look
    /// that finds no memory is tried again.
    fn look_around(&mut self, looker: u32) -> Result<(Reply, u32), Halt> {
        let mut look = self.make(looker, LOOK)?;
        if look.is_none() {
            look = self.make(looker, LOOK)?;
        }
        match look {
            Some(look) => Ok((look, self.notes.order())),
            None => Err(Halt::Wrong("a look was refused twice")),
        }
    }

    /// Makes a call after a look. What it is answered, and which digits closures note. A call that finds no memory has
    /// to leave everything as it was, and is made again.
    fn outcome(&mut self, looker: u32, seat: u32, call: Call) -> Result<(Reply, u32), Halt> {
        self.notes.clear();
        let before = self.look_around(looker)?;
        let mut made = self.make(seat, call)?;
        if made.is_none() {
            wanted(
                self.look_around(looker)? == before,
                "a refused call changed something, or asked",
            )?;
            made = self.make(seat, call)?;
        }
        match made {
            Some(reply) => Ok((reply, self.notes.order())),
            None => Err(Halt::Wrong("a call was refused twice")),
        }
    }

    /// Tells a seat that it has seen so many entries. Whether its call is behind then, and the history has this length.
    fn is_behind(&mut self, seat: u32, seen: u64, wanted: u64) -> bool {
        let Some(own) = self.seats.get_mut(seat as usize) else {
            return false;
        };
        own.saw(seen);
        let made = self.shared.call(self.rt, own, ALLOCATE, &KnowsNothing);
        matches!(made, Err(NotRecorded::Behind { length }) if length == wanted)
    }

    /// Makes a call in a seat, of whose receipt another one learns. How many entries that one has seen then.
    fn learned(&mut self, seat: u32, other: u32) -> Option<u64> {
        let own = self.seats.get_mut(seat as usize)?;
        let made = self.shared.call(self.rt, own, ALLOCATE, &KnowsNothing);
        let receipt = made.ok()?;
        self.entries = self.entries.wrapping_add(1);
        let own = self.seats.get_mut(other as usize)?;
        learn(own, &receipt);
        Some(own.seen())
    }

    /// Makes the steps of an example, one after the other, each call after a look, and has a last look: each answer has
    /// to be the example's. Answers how many entries there are then. The looks are in the seat behind the example's
    /// own. One look more comes first, so that a history, which grows at even numbers, grows in the steps.
    pub fn play(&mut self, example: &Example) -> Result<u64, Halt> {
        let looker = example.seats;
        self.look_around(looker)?;
        for number in 0..example.steps.len() {
            self.tried.step = number;
            let (seat, deed) = example.steps[number];
            let is_so = match deed {
                Deed::Call(call, reply, order) => {
                    self.outcome(looker, seat, call)? == (reply, order)
                }
                Deed::Act(act) => self.removes.act(seat, act),
                Deed::Behind(seen, length) => self.is_behind(seat, seen, length),
                Deed::Learn(other, seen) => self.learned(seat, other) == Some(seen),
            };
            wanted(is_so, "an answer isn't the example's")?;
        }
        wanted(
            self.look_around(looker)?.0 == example.last,
            "the last look isn't the example's",
        )?;
        Ok(self.entries)
    }
}
