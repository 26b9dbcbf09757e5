//! A book that threads share. Source: this project's own rules.

ghost use Rattle.std.specs.Prelude.{◌≡◌, ◌<◌, ◌+◌, ℕ, if◌then◌else◌, nat_lt, Some, IfSome, IfOk, IfErr, OnErr, Err, Option, false};
ghost use mathlib.Core.Logic.{◌↔◌};
ghost use Rattle.irp_types.specs.declared.limit.Limit.TheVariants.{ThirtyTwo};
ghost use Rattle.irp_types.specs.Histories.{IsLegal};
ghost use Rattle.irp_types.specs.declared.entry.Entry.{Entry};
ghost use Rattle.irp_manager.specs.declared.not_recorded.NotRecorded.TheVariants.{Behind, HistoryFull};
ghost use Rattle.irp_shared.specs.Answered.{AnswersSo, EachAnswered};
ghost use Rattle.irp_shared.specs.Opening.{IsBadCount, IsGoodCount, AreNew};
ghost use Rattle.irp_types.specs.declared.call.Call.TheVariants.{FinishTaken};
ghost use Rattle.irp_slots.specs.declared.answers.Token.{Token};
ghost use Rattle.irp_shared.specs.Sharing.{Called, FindsFull, IsAsBefore, is_done, given_back};
ghost use Rattle.irp_transcript.specs.Tokens.{needs_token};
ghost use Rattle.irp_transcript.specs.Headers.{fixed_of, slots_of};
ghost use Rattle.irp_shared.specs.Closing.{AllHere, Kept, Found, Closes, entry_at};
ghost use Rattle.irp_shared.specs.declared.open_refused.OpenRefused.TheVariants.{BadCount};
ghost use Rattle.irp_shared.specs.declared.mismatch.Mismatch.TheVariants.{Seats as OtherSeats, Entry as OtherEntry};

use crate::closing::{Difference, are_all, gather, taken_out};
use crate::lock_turn::take_turn;
use crate::locked::Locked;
use crate::mismatch::Mismatch;
use crate::open_refused::OpenRefused;
use crate::session::Session;
use irp_manager::{Book, Manager, NotRecorded, Receipt, Recorded, Seat};
use irp_routines::{Ask, FixedTables, Parts};
use irp_slots::Token;
use irp_transcript::{Form, Header, Transcript};
use irp_types::limits::{MOST_LOCKS, MOST_SEATS};
use irp_types::{
    Call, DrainNote, Entry, IrpRef, KnowsNothing, Limit, Reply, Row, Status, history_completes_once,
};
use std::alloc::Global;
use std::sync::ledger::{Blank, Ledger, Share};
use std::sync::{Mutex, Wait};

/// A book that threads share, through the seats that were opened with it.
///
/// However many threads call, the history kept under the lock is one that the sequential manager could have made.
#[derive(Drop)]
pub struct Shared<A: Ask, L: Session> {
    seats: u32,
    alloc: Global,
    lock: Mutex<Locked<A, L>>,
    pub ghost all: { seats ≡ L.seats },
    pub ghost good: { IsGoodCount L.fixed.locks L.seats },
}

/// Makes so many seats, numbered from 0, each with a part of the share.
fn seats_of<L: Ledger>(alloc: Global, share: &mut Share<L>, count: u32) -> Option<Vec<Seat<L>>>
    requires { (share.old.parts ≡ count) × (share.old.amount ≡ 0) }
    ensures seats { IfSome result (λ seats. AreNew count seats.items) }
    ensures left { IfSome result (λ seats. (share.new.parts ≡ 0) × (share.new.amount ≡ 0)) }
{
    let mut seats = Vec::with_capacity(alloc, count as usize).ok()?;
    for number in 0..count {
        seats.push_reserved(Seat::new(alloc, number, share.split_off(1, 0)));
    }
    Some(seats)
}

/// Opens a session: a book over a manager in its opening state, with packets of 32 locations and stacks of 32 devices
/// at most. It has 1 to 64 remove locks and 1 to 64 seats, numbered from 0 in the order of the answer, that have seen
/// nothing and have no entries. The blank names the ledger in which the seats count, and has a part for each seat; what
/// `L` says of the session is so, and whoever is asked answers each question as `L` says.
///
/// # Errors
///
/// `BadCount` exactly where none or more than 64 of either were asked for; else `Memory` where a growth was refused.
/// Who would have been asked is gone then.
pub fn open<A: Ask + Drop, L: Session>(
    alloc: Global,
    blank: Blank,
    ask: A,
    locks: u32,
    seats: u32,
) -> Result<(Shared<A, L>, Vec<Seat<L>>), OpenRefused>
    requires blank { (blank.name ≡ L.name) × (blank.parts ≡ L.parts) }
    requires seats { (L.parts ≡ seats) × (L.seats ≡ seats) }
    requires fixed { L.fixed ≡ record { locks = locks; tables = A.tables ask; limit = ThirtyTwo } }
    requires may { AnswersSo (A.may_plan ask) (A.may_answer ask) (A.may_cancel ask) L.may }
    ensures bad_count { (result ≡ Err BadCount) ↔ IsBadCount locks seats }
    ensures seats { IfOk result (λ opened. AreNew seats opened.1.items) }
{
    open_with_limit::<A, L>(alloc, blank, ask, locks, seats, Limit::ThirtyTwo)
}

/// The same, with packets and stacks within this limit.
///
/// # Errors
///
/// Those of `open`.
pub fn open_with_limit<A: Ask + Drop, L: Session>(
    alloc: Global,
    blank: Blank,
    ask: A,
    locks: u32,
    seats: u32,
    limit: Limit,
) -> Result<(Shared<A, L>, Vec<Seat<L>>), OpenRefused>
    requires blank { (blank.name ≡ L.name) × (blank.parts ≡ L.parts) }
    requires seats { (L.parts ≡ seats) × (L.seats ≡ seats) }
    requires fixed { L.fixed ≡ record { locks = locks; tables = A.tables ask; limit = limit } }
    requires may { AnswersSo (A.may_plan ask) (A.may_answer ask) (A.may_cancel ask) L.may }
    ensures bad_count { (result ≡ Err BadCount) ↔ IsBadCount locks seats }
    ensures seats { IfOk result (λ opened. AreNew seats opened.1.items) }
{
    if locks == 0 || locks > MOST_LOCKS || seats == 0 || seats > MOST_SEATS {
        return Err(OpenRefused::BadCount);
    }
    let Ok((book, mut spare)) = Book::new(Manager::with_limit(alloc, ask, locks, limit), blank)
    else {
        return Err(OpenRefused::Memory);
    };
    let Some(places) = seats_of(alloc, &mut spare, seats) else {
        return Err(OpenRefused::Memory);
    };
    let lock = Mutex::new(Locked::new(book, spare));
    let shared = Shared { seats, alloc, lock };
    Ok((shared, places))
}

impl<A: Ask, L: Session> Shared<A, L> {
    /// Makes a call in a seat that was opened with this book, and records it, on condition that the call needs no
    /// token: a packet that was taken from a cancel slot is finished by `finish_taken`.
    ///
    /// The seat keeps a copy of the entry, which the receipt tells of, and has seen up to it. The entry's number is its
    /// place in the session's history, and at least what the seat had seen. Its `drained` is what the note knows of
    /// the entry's lock, and true where a deletion is answered Done.
    ///
    /// It waits for its turn. All growths come before anything is asked; room for the seat's entry comes before its
    /// turn, and room for the questions in it comes in its turn, when it is known how many can be asked.
    ///
    /// # Errors
    ///
    /// `Memory` where a growth was refused, which may come first; else `Behind` and `HistoryFull` as `Book::call`
    /// answers them. The clauses can't name the history under the lock. So of `Behind` they say that the length that it
    /// gives is below what the seat had seen, and of `HistoryFull` that a legal history of the session, with 1,000,000
    /// entries, has all that the seat had seen. The seat stays as it was, and nothing is recorded.
    pub fn call<N: DrainNote>(
        &self,
        rt: &impl Wait,
        seat: &mut Seat<L>,
        call: Call,
        note: &N,
    ) -> Result<Receipt<L>, NotRecorded>
        requires free { needs_token call ≡ false }
        ensures called { IfOk result (λ receipt.
            Called seat.old call (N.knows_drained note.now) receipt seat.new) }
        ensures legal { IfOk result (λ receipt. IsLegal L.fixed receipt.history) }
        ensures err { OnErr result (IsAsBefore seat.old seat.new) }
        ensures behind { (told : ℕ) → result ≡ Err (Behind told) → told < seat.old.seen }
        ensures full { result ≡ Err HistoryFull → FindsFull L.fixed L.may seat.old.seen }
    {
        if seat.room().is_err() {
            return Err(NotRecorded::Memory);
        }
        take_turn(&self.lock, rt).call(seat, call, note)
    }

    /// Completes a packet that was taken from a cancel slot, with the token that was taken there, in a seat that was
    /// opened with this book, and records it, as `call` does. A packet that is finished spends the token; with every
    /// other reply the token comes back.
    ///
    /// It waits for its turn. All growths come before anything is asked, as in `call`.
    ///
    /// # Errors
    ///
    /// Those of `call`, with the token. The seat stays as it was, and nothing is recorded.
    pub fn finish_taken(
        &self,
        rt: &impl Wait,
        seat: &mut Seat<L>,
        irp: IrpRef,
        token: Token,
        status: Status,
        information: u64,
    ) -> Result<(Receipt<L>, Option<Token>), (NotRecorded, Token)>
        ensures called { IfOk result (λ finished. Called seat.old
            (FinishTaken irp token.use_no status information) (λ lock. false) finished.0 seat.new) }
        ensures legal { IfOk result (λ finished. IsLegal L.fixed finished.0.history) }
        ensures spent { IfOk result (λ finished. finished.1 ≡ given_back finished.0.reply token) }
        ensures err { IfErr result (λ error. IsAsBefore seat.old seat.new × (error.1 ≡ token)) }
        ensures behind { (told : ℕ) (back : Token)
            → result ≡ Err (Behind told, back) → told < seat.old.seen }
        ensures full { (back : Token)
            → result ≡ Err (HistoryFull, back) → FindsFull L.fixed L.may seat.old.seen }
    {
        let call = Call::FinishTaken {
            irp,
            token: token.use_no(),
            status,
            information,
        };
        if seat.room().is_err() {
            return Err((NotRecorded::Memory, token));
        }
        match take_turn(&self.lock, rt).call(seat, call, &KnowsNothing) {
            Err(error) => Err((error, token)),
            Ok(receipt) => {
                if is_done(receipt.reply()) {
                    return Ok((receipt, None));
                }
                Ok((receipt, Some(token)))
            }
        }
    }
}

/// Whether a reply is Done.
fn is_done(reply: Reply) -> bool
    ensures { result ≡ is_done reply }
{
    matches!(reply, Reply::Done)
}

/// A seat that learns of a receipt of its session has seen that entry, and all before it. It takes no memory.
pub fn learn<L: Ledger>(seat: &mut Seat<L>, receipt: &Receipt<L>)
    ensures { seat.new ≡ record seat.old {
      seen = if nat_lt seat.old.seen (receipt.now.number + 1)
          then receipt.now.number + 1 else seat.old.seen;
    } }
{
    seat.saw(receipt.number() + 1)
}

/// The header of a transcript that was made with these.
fn header_of(locks: u32, tables: FixedTables, limit: Limit, seats: u32) -> Header
    ensures fixed { fixed_of result ≡ record { locks = locks; tables = tables; limit = limit } }
    ensures seats { result.seats ≡ seats }
    ensures slots { slots_of result.form ≡ 0 }
{
    let Parts {
        counts,
        drivers,
        dispatches,
        cancel_rules,
    } = tables.into_parts();
    Header {
        cancels: cancel_rules,
        completions: counts,
        dispatches,
        drivers,
        form: Form::with_limit(limit),
        locks,
        seats,
    }
}

/// The mismatch of a difference, with the entry that the history has at its place.
fn mismatch_of<L: Ledger>(difference: Difference, history: Vec<Entry>) -> Mismatch<L>
    ensures { result ≡ OtherEntry difference.seat difference.index difference.kept
        (entry_at history.items difference.place) }
{
    let Difference {
        seat,
        index,
        kept,
        place,
    } = difference;
    let found = match place {
        Some(place) => taken_out(history, place),
        None => None,
    };
    Mismatch::Entry {
        seat,
        index,
        kept,
        found,
    }
}

impl<A: Ask + Drop, L: Session> Shared<A, L> {
    /// Ends a session, with the seats that were opened with it: compares what they kept with the history, and gives the
    /// transcript, without word lines. Its header has the tables of the `ask` that `open` was given, and no cancel
    /// slots. Each entry is of one of the seats; each seat's entries are the history's entries with its number, in
    /// order; and their counts add up to the history's length. Each answer in it is as `L` says that it may be. It
    /// takes no memory.
    ///
    /// # Errors
    ///
    /// `Mismatch::Seats` exactly where the seats handed in are not all seats, each once; else `Mismatch::Entry` where a
    /// seat's entries are not the history's own: with the first that the seat has otherwise, and the one that the
    /// history has in its stead. The book is gone then, so the clause says of the history that it is legal, answered as
    /// `L` says, and as long as the seats' entries are many.
    pub fn close(self, seats: Vec<Seat<L>>) -> Result<Transcript, Mismatch<L>>
        requires { L.seats ≡ L.parts }
        ensures closes { IfOk result (Closes L.fixed L.seats seats.items) }
        ensures answered { IfOk result (λ transcript. EachAnswered L.may transcript.entries) }
        ensures seats { (AllHere seats.items L.seats → ⊥)
            → result ≡ Err (OtherSeats L.seats seats) }
        ensures only_seats { (expected : ℕ) (given : _) → result ≡ Err (OtherSeats expected given)
            → AllHere seats.items L.seats → ⊥ }
        ensures entry { (seat index : ℕ) (kept found : Option Entry)
            → result ≡ Err (OtherEntry seat index kept found)
            → Kept seats.items seat index kept × (kept ≡ found → ⊥)
            × Found L.fixed L.may seats.items seat index found }
    {
        let Shared {
            seats: expected,
            alloc,
            lock,
        } = self;
        if !are_all(seats.as_slice(), expected) {
            let given = seats;
            return Err(Mismatch::Seats { expected, given });
        }
        let (mut book, spare) = lock.into_inner().into_parts();
        let (mut all, difference) = gather(spare, seats, book.entries());
        book.audit(&mut all);
        let Recorded {
            locks,
            limit,
            tables,
            history,
        } = book.end();
        if let Some(difference) = difference {
            return Err(mismatch_of(difference, history));
        }
        tables.agree();
        history_completes_once();
        let header = header_of(locks, tables, limit, expected);
        let words = Row::from_vec(Vec::new(alloc));
        Ok(Transcript::new(header, Row::from_vec(history), words))
    }
}
