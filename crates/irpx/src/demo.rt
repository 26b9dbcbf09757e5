//! The demonstration: one device and one packet, from the first call to the printed history.

ghost use Rattle.std.specs.Prelude.{◌≡◌, [], ◌∷◌, ◌++◌, IfSome, false};
ghost use Rattle.irp_types.specs.declared.limit.Limit.TheVariants.{Sixteen};
ghost use Rattle.irp_shared.specs.Answered.{AnswersSo};
ghost use Rattle.irp_transcript.specs.Tokens.{needs_token};
ghost use Rattle.irpx.specs.Demo.{calls_of, AfterDemo, AreDemoCalls, IsDemoTranscript};
ghost use Rattle.irp_streams.specs.Streams.{output_of};

use crate::not_done::{NotDone, Phase};
use crate::writing::write;
use irp_routines::{Ask, Dispatch, Store};
use irp_shared::{Seat, Session, Shared, Transcript, open_with_limit};
use irp_streams::Out;
use irp_types::{
    Call, DispatchId, DriverId, Known, KnowsNothing, Limit, LockNo, Party, Plan, Reply, Shown,
    Status,
};
use std::alloc::{AllocError, Global};
use std::marker::Brand;
use std::sync::Wait;
use std::sync::ledger::Blank;

/// The major function code of a read, IRP_MJ_READ (WDK: "IRP_MJ_READ").
const READ: u8 = 0x03;

/// The driver's one pair: reads go to the dispatch.
fn read_pair(alloc: Global, dispatch: DispatchId) -> Result<Vec<(u8, DispatchId)>, AllocError> {
    [(READ, dispatch)].to_vec(alloc)
}

/// Makes a call in a seat, and answers the reply. None where the call was not recorded.
fn call<A: Ask, L: Session>(
    rt: &impl Wait,
    shared: &Shared<A, L>,
    seat: &mut Seat<L>,
    call: Call,
) -> Option<Reply>
    requires { needs_token call ≡ false }
    ensures seat { seat.new.number ≡ seat.old.number }
    ensures calls { IfSome result (λ reply. calls_of seat.new.entries
        ≡ calls_of seat.old.entries ++ (seat.old.number, call, reply) ∷ []) }
{
    let receipt = shared.call(rt, seat, call, &KnowsNothing).ok()?;
    Some(receipt.reply())
}

/// The calls of the demonstration. None where one was not recorded, or was answered otherwise than it should be.
fn make_calls<A: Ask, L: Session>(
    rt: &impl Wait,
    shared: &Shared<A, L>,
    seat: &mut Seat<L>,
) -> Option<()>
    requires { (seat.old.number ≡ 0) × (seat.old.entries ≡ []) }
    ensures seat { seat.new.number ≡ seat.old.number }
    ensures calls { IfSome result (λ made. AreDemoCalls (calls_of seat.new.entries)) }
{
    let create = Call::CreateDevice {
        driver: DriverId(0),
        lock: LockNo(0),
    };
    let Reply::Device(target) = call(rt, shared, seat, create)? else {
        return None;
    };
    let Reply::Irp(irp) = call(rt, shared, seat, Call::Allocate { size: 1 })? else {
        return None;
    };
    let party = Party::Originator;
    let fill = Call::SetNext {
        party,
        irp,
        major: READ,
        word: 7,
    };
    let Reply::Done = call(rt, shared, seat, fill)? else {
        return None;
    };
    let send = Call::CallDriver { party, irp, target };
    let Reply::Status(Status::SUCCESS) = call(rt, shared, seat, send)? else {
        return None;
    };
    Some(())
}

/// The transcript of a session with one lock and one seat that makes the calls of the demonstration. None where memory
/// ran out, where a call was not recorded, or was answered otherwise than it should be.
fn session<A: Ask + Drop, L: Session>(
    rt: &impl Wait,
    alloc: Global,
    blank: Blank,
    ask: A,
) -> Option<Transcript>
    requires blank { (blank.name ≡ L.name) × (blank.parts ≡ L.parts) }
    requires seats { (L.parts ≡ 1) × (L.seats ≡ 1) }
    requires fixed { L.fixed ≡ record { locks = 1; tables = A.tables ask; limit = Sixteen } }
    requires may { AnswersSo (A.may_plan ask) (A.may_answer ask) (A.may_cancel ask) L.may }
    ensures { IfSome result IsDemoTranscript }
{
    let limit = Limit::Sixteen;
    let Ok((shared, mut seats)) = open_with_limit::<A, L>(alloc, blank, ask, 1, 1, limit) else {
        return None;
    };
    let mut seat = seats.pop()?;
    make_calls(rt, &shared, &mut seat)?;
    seats.push_reserved(seat);
    let Ok(transcript) = shared.close(seats) else {
        return None;
    };
    transcript.is_one();
    Some(transcript)
}

/// The transcript of the demonstration's calls, with one driver, whose reads go to this dispatch. None where memory ran
/// out, or where the store or the session answered otherwise than they should.
fn transcript(rt: &impl Wait, alloc: Global, dispatch: Dispatch) -> Option<Transcript>
    ensures { IfSome result IsDemoTranscript }
{
    let mut store = Store::new(alloc);
    let Ok(id) = store.add_dispatch(dispatch) else {
        return None;
    };
    let Ok(_driver) = store.add_driver(read_pair(alloc, id).ok()?) else {
        return None;
    };
    session::<Store, Brand>(rt, alloc, Blank::new(1), store)
}

/// Makes the calls of the demonstration, and writes the transcript: one device whose driver finishes reads with success
/// and information 5, and one packet that is sent to it. The calls are made in the one seat of a session with one lock,
/// and each waits for its turn.
///
/// What goes out where all is done is the text of a header and of a history that the sequential manager could have
/// made with the tables that the header tells.
///
/// # Errors
///
/// `NoMemory` of `Running` where memory ran out for the transcript, and nothing went out. Else, after a beginning of
/// such a text that isn't the whole: `Output` where the output failed, and exactly then its count of failures rises;
/// `NoMemory` of `Writing`.
pub fn demo<O: Out>(rt: &impl Wait, alloc: Global, output: &mut O) -> Result<(), NotDone>
    ensures { AfterDemo (output_of (O.gone output.old) (O.failures output.old))
        (output_of (O.gone output.new) (O.failures output.new)) result }
{
    let finish = |_shown: Shown| Plan::Finish {
        status: Status::SUCCESS,
        information: 5,
    };
    let Ok(finish) = Box::new(alloc, finish) else {
        return Err(NotDone::NoMemory(Phase::Running));
    };
    let dispatch = Dispatch::new(Known::NONE, finish);
    let Some(transcript) = transcript(rt, alloc, dispatch) else {
        return Err(NotDone::NoMemory(Phase::Running));
    };
    write(alloc, output, &transcript)
}
