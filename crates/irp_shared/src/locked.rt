//! What lies under the lock.

ghost use Rattle.std.specs.Prelude.{◌≡◌, ◌<◌, ◌+◌, ℕ, length, IfOk, OnErr, Err};
ghost use mathlib.Core.Logic.{◌↔◌};
ghost use Rattle.irp_types.specs.Histories.{IsLegal};
ghost use Rattle.irp_manager.specs.Booked.{CalledIn};
ghost use Rattle.irp_manager.specs.declared.not_recorded.NotRecorded.TheVariants.{Behind, HistoryFull};
ghost use Rattle.irp_shared.specs.Answered.{AnswersSo, EachAnswered};
ghost use Rattle.irp_shared.specs.Sharing.{FindsFull, IsAsBefore, IsBehind, IsFull};

use crate::session::Session;
use irp_manager::{Book, NotRecorded, Receipt, Seat};
use irp_routines::Ask;
use irp_types::{Call, DrainNote};
use std::sync::ledger::Share;

/// What lies under the lock: the session's book, and what is left of the ledger's shares, which has no part and counts
/// nothing. The book has the locks, the tables and the limit that its session fixes, and its asker has the same tables.
/// The session's `may` holds of each answer that the asker may give, and of each answer in the history.
#[derive(Drop)]
pub struct Locked<A: Ask, L: Session> {
    book: Book<A, L>,
    spare: Share<L>,
    pub ghost no_parts: { spare.parts ≡ 0 },
    pub ghost no_amount: { spare.amount ≡ 0 },
    pub ghost fixed: { book.fixed ≡ L.fixed },
    pub ghost tables: { A.tables book.ask ≡ book.fixed.tables },
    pub ghost answers: { AnswersSo (A.may_plan book.ask) (A.may_answer book.ask)
        (A.may_cancel book.ask) L.may },
    pub ghost answered: { EachAnswered L.may book.history },
}

impl<A: Ask, L: Session> Locked<A, L> {
    /// A book under the lock, with the share that is left of its session's ledger. It takes no memory.
    pub fn new(book: Book<A, L>, spare: Share<L>) -> Locked<A, L>
        requires spare { (spare.parts ≡ 0) × (spare.amount ≡ 0) }
        requires fixed { (book.fixed ≡ L.fixed) × (A.tables book.ask ≡ book.fixed.tables) }
        requires answers { AnswersSo (A.may_plan book.ask) (A.may_answer book.ask)
            (A.may_cancel book.ask) L.may }
        requires answered { EachAnswered L.may book.history }
    {
        Locked { book, spare }
    }

    /// Makes a call of a seat and records it in the book, which has the seat keep and count a copy of its entry, on
    /// condition that the seat has room for one more entry.
    ///
    /// # Errors
    ///
    /// Those of `Book::call`. None of them changes anything.
    pub fn call<N: DrainNote>(
        &mut self,
        seat: &mut Seat<L>,
        call: Call,
        note: &N,
    ) -> Result<Receipt<L>, NotRecorded>
        requires room { 0 < seat.old.room }
        ensures called { IfOk result
            (λ receipt. CalledIn self.old.book.history self.new.book.history
            seat.old call (N.knows_drained note.now) receipt seat.new) }
        ensures legal { IsLegal L.fixed self.new.book.history }
        ensures err { OnErr result
            ((self.new.book ≡ self.old.book) × IsAsBefore seat.old seat.new) }
        ensures behind { (told : ℕ) → (result ≡ Err (Behind told))
            ↔ IsBehind self.old.book.history seat.old told }
        ensures full { (result ≡ Err HistoryFull) ↔ IsFull self.old.book.history seat.old }
        ensures finds { result ≡ Err HistoryFull → FindsFull L.fixed L.may seat.old.seen }
    {
        let receipt = self.book.call(seat, call, note)?;
        Ok(receipt)
    }

    /// The book and the share that is left. It takes no memory.
    pub fn into_parts(self) -> (Book<A, L>, Share<L>)
        ensures book { (result.0.fixed ≡ L.fixed) × EachAnswered L.may result.0.history }
        ensures spare { (result.1.parts ≡ 0) × (result.1.amount ≡ 0) }
    {
        let Locked { book, spare } = self;
        (book, spare)
    }
}
