//! Loads of calls: works by the manager alone, and in sessions, where each call is recorded.

ghost use Rattle.std.{specs.Prelude.{◌≡◌, Bool, List, true, IfOk}, proofs.Props.{props}};
ghost use Rattle.irp_types.specs.declared.{asked.Asked.{Asked}, limit.Limit.TheVariants.{ThirtyTwo}};
ghost use Rattle.irp_types.specs.{State.{no_routines}, declared.{reply.Reply.{Reply}, routine.Rule.TheVariants.{Watch}}};
ghost use Rattle.irp_types.specs.{Calls.{Call}, Rules.{is_allowed, is_plan_allowed}, Standing.{StandingFacts}};
ghost use Rattle.irp_manager.specs.{Keeps.{slabbed}, ManagerStates.{state_of, Stepped}};
ghost use Rattle.irp_shared.specs.Answered.{AnswersSo};
ghost use Rattle.irp_bench.specs.Bench.{Keeps, MakesOne, Repeats};

use crate::timed::{Done, Host, NotTimed, Timed};
use irp_manager::{Manager, NotRecorded};
use irp_routines::{Ask, Dispatch, Routine, Store};
use irp_shared::{Seat, Session, Shared, Transcript, needs_token, open};
use irp_types::{
    Answer, Call, DeviceId, DispatchId, DriverId, IrpRef, Known, KnowsNothing, LockNo, Party, Plan,
    Reply, RoutineId, Rule, Setting, Shown, Status,
};
use std::alloc::Global;
use std::marker::Brand;
use std::sync::ledger::Blank;
use std::thread;
use std::time::{Duration, Instant};

/// The major function code of a read, IRP_MJ_READ (WDK: "IRP_MJ_READ").
const READ: u8 = 0x03;
/// How many calls are made in rounds, by all callers together. Their entries fill a history.
const CALLS: u32 = 1_000_000;
/// How often each packet is sent.
const SENDS: u32 = 40;
/// How many packets are allocated and given back.
const UNUSED: u32 = 20_000;
/// The routine of rule Watch, on success, on error and on cancel.
const WATCH: Setting = Setting {
    routine: RoutineId {
        rule: Rule::Watch,
        no: 0,
    },
    context: 8,
    on_success: true,
    on_error: true,
    on_cancel: true,
};

/// Who makes calls of a manager, one after another.
pub trait Caller {
    /// What a call with its reply makes of the caller.
    ghost makes: { Self → Call → Reply → Self → Type 0 };

    /// Makes a call. Answers the reply, and how many questions it asked of dispatches, completion and cancel routines.
    fn make(&mut self, call: Call) -> Timed<(Reply, usize)>
        ensures { IfOk result (λ answered. makes self.old call answered.0 self.new) };
}

/// The manager alone: each call is one of its steps.
#[derive(Drop)]
struct Alone {
    manager: Manager<Store>,
    ghost stands: { StandingFacts manager.ask.tables.counts
        (state_of slabbed manager.state) } by { Prim.hlevel props },
}

impl Caller for Alone {
    ghost makes = { λ old call reply new. (drained : Bool) × (asked : List Asked)
        × Stepped slabbed old.manager.ask.tables drained old.manager.state call asked reply
        new.manager.state };

    fn make(&mut self, call: Call) -> Timed<(Reply, usize)> {
        let applied = self.manager.apply(call, &KnowsNothing)?;
        Ok((applied.reply, applied.asked.len()))
    }
}

/// A seat, whose calls of a shared book are recorded.
#[derive(Drop)]
struct Recorder<'a, R, A: Ask, L: Session> {
    rt: &'a R,
    shared: &'a Shared<A, L>,
    seat: Seat<L>,
}

/// Each call is recorded, and the seat keeps its entry.
impl<R: Host, A: Ask, L: Session> Caller for Recorder<'_, R, A, L> {
    ghost makes = { λ old call reply new. Keeps old.seat call reply new.seat };

    fn make(&mut self, call: Call) -> Timed<(Reply, usize)> {
        if needs_token(call) {
            return Err(NotTimed::Failed);
        }
        let (rt, seat) = (self.rt, &mut self.seat);
        let receipt = match self.shared.call(rt, seat, call, &KnowsNothing) {
            Ok(receipt) => receipt,
            Err(NotRecorded::Memory) => return Err(NotTimed::Memory),
            Err(_) => return Err(NotTimed::Failed),
        };
        let entry = self.seat.entries().last();
        let questions = entry.map_or(0, |entry| entry.asked.as_slice().len());
        Ok((receipt.reply(), questions))
    }
}

/// What is timed, on what is there before. `MakesOne` lists the calls.
#[derive(Clone, Copy)]
pub enum Work {
    /// So many times a packet is allocated, its completion is refused, it is freed, and freeing it again is refused.
    Rounds(u32),
    /// `UNUSED` times a packet is allocated with 16 locations, and given back, while so many are live, this one too.
    Unused(u32),
    /// So many packets, with a location for each device, are sent so often each to this device, the top of a stack.
    Sends(DeviceId, u32, u32),
}

/// What a call is answered with, where this pattern takes it; else the function ends, with an error.
macro_rules! answered {
    ($caller:ident, $call:expr, $reply:pat => $then:expr) => {
        match $caller.make($call)?.0 {
            $reply => $then,
            _ => return Err(NotTimed::Failed),
        }
    };
}

/// Makes a work's calls once. A send is of this packet, which must come back with success, after two questions a level.
fn make<C: Caller>(caller: &mut C, work: Work, irp: Option<IrpRef>) -> Timed<()>
    ensures { IfOk result (λ _. MakesOne C.makes work caller.old caller.new) }
{
    let (party, status, information) = (Party::Originator, Status::PENDING, 0);
    match work {
        Work::Rounds(_) => {
            let irp = answered!(caller, Call::Allocate { size: 1 }, Reply::Irp(irp) => irp);
            answered!(caller, Call::Complete { party, irp, status, information }, Reply::Refused(_) => ());
            answered!(caller, Call::Free { irp }, Reply::Done => ());
            answered!(caller, Call::Free { irp }, Reply::Refused(_) => Ok(()))
        }
        Work::Unused(_) => {
            let irp = answered!(caller, Call::Allocate { size: 16 }, Reply::Irp(irp) => irp);
            answered!(caller, Call::Free { irp }, Reply::Done => Ok(()))
        }
        Work::Sends(target, ..) => {
            let irp = irp.ok_or(NotTimed::Failed)?;
            let (reply, questions) = caller.make(Call::CallDriver { party, irp, target })?;
            let wanted = 2 * (target.0 as usize + 1);
            match reply {
                Reply::Status(Status::SUCCESS) if questions == wanted => Ok(()),
                _ => Err(NotTimed::Failed),
            }
        }
    }
}

/// Makes the calls of a work so many times. It stops at the first that is answered otherwise.
fn repeat<C: Caller>(caller: &mut C, work: Work, count: usize, packets: &[IrpRef]) -> Timed<()>
    ensures { IfOk result (λ _. Repeats (MakesOne C.makes work) count caller.old caller.new) }
{
    for made in 0..count {
        make(caller, work, packets.get(made).copied())?;
    }
    Ok(())
}

/// Makes these packets ready to be sent: a new use of each begins, its highest location gets a read and a routine.
fn make_ready<C: Caller>(caller: &mut C, packets: &mut [IrpRef]) -> Timed<()> {
    let (party, status) = (Party::Originator, Status::SUCCESS);
    for packet in packets.iter_mut() {
        let irp = answered!(caller, Call::Reuse { irp: *packet, status }, Reply::Irp(irp) => irp);
        answered!(caller, Call::SetNext { party, irp, major: READ, word: 7 }, Reply::Done => ());
        answered!(caller, Call::SetRoutine { party, irp, setting: WATCH }, Reply::Done => ());
        *packet = irp;
    }
    Ok(())
}

/// Builds a stack of so many devices, numbered from 0 upwards, of driver 0 and under lock 0, and then allocates so many
/// packets, which it answers: with a location for each device, or 16 where there is none.
fn set_up<C: Caller>(caller: &mut C, alloc: Global, devices: u32, more: u32) -> Timed<Vec<IrpRef>> {
    let (driver, lock) = (DriverId(0), LockNo(0));
    let most = u8::try_from(devices).unwrap_or(u8::MAX);
    let size = if devices == 0 { 16 } else { most };
    for number in 0..devices {
        caller.make(Call::CreateDevice { driver, lock })?;
        if number > 0 {
            let (device, to) = (DeviceId(number), DeviceId(number - 1));
            caller.make(Call::Attach { device, to })?;
        }
    }
    let allocate = |_| answered!(caller, Call::Allocate { size }, Reply::Irp(irp) => Ok(irp));
    (0..more).map(allocate).try_collect(alloc)
}

/// Does a work with this caller. Answers how long the timed calls took, without what came before: the devices and the
/// packets, which are made ready to be sent each time.
fn do_with<C: Caller, R: Host>(rt: &R, caller: &mut C, work: Work) -> Timed<Duration> {
    let (devices, packets, count, batches) = match work {
        Work::Rounds(count) => (0, 0, count, 1),
        Work::Unused(live) => (0, live.saturating_sub(1), UNUSED, 1),
        Work::Sends(target, count, times) => (target.0.saturating_add(1), count, count, times),
    };
    let mut packets = set_up(caller, rt.alloc(), devices, packets)?;
    let mut taken = Duration::ZERO;
    for _ in 0..batches {
        make_ready(caller, packets.as_mut_slice())?;
        let start = Instant::now(rt)?;
        repeat(caller, work, count as usize, packets.as_slice())?;
        taken = taken.saturating_add(start.elapsed(rt)?);
    }
    Ok(taken)
}

/// What the dispatch plans: it passes the packet down with the routine if a device stands below, else it finishes it.
fn forwards(shown: Shown) -> Plan
    ensures { is_plan_allowed (record no_routines { watch = 1 }) shown result ≡ true }
{
    if shown.has_lower {
        Plan::Forward { set: Some(WATCH) }
    } else {
        Plan::Finish {
            status: Status::SUCCESS,
            information: 5,
        }
    }
}

/// What the completion routine answers: it continues, and replaces nothing.
fn watches(shown: Shown) -> Answer
    ensures { is_allowed Watch shown result ≡ true }
{
    Answer {
        mark: Rule::right_mark(shown, false),
        ..Answer::CONTINUES
    }
}

/// How long a work took, and the transcript where it was recorded.
pub type Outcome = (Duration, Option<Transcript>);

/// Does the work in a session of so many seats, each in a thread of its own. Where there is more than one seat it took
/// from the first thread's start to the last thread's end.
fn recorded<A: Ask + Send + Drop, L: Session + Send + Sync, R: Host>(
    rt: &R,
    blank: Blank,
    ask: A,
    seats: u32,
    work: Work,
) -> Timed<Outcome>
    requires blank { (blank.name ≡ L.name) × (blank.parts ≡ L.parts) }
    requires seats { (L.parts ≡ seats) × (L.seats ≡ seats) }
    requires fixed { L.fixed ≡ record { locks = 1; tables = A.tables ask; limit = ThirtyTwo } }
    requires may { AnswersSo (A.may_plan ask) (A.may_answer ask) (A.may_cancel ask) L.may }
{
    let (shared, places) = open(rt.alloc(), blank, ask, 1, seats).map_err(|_| NotTimed::Memory)?;
    let each = &|seat: Seat<L>| -> Timed<(Seat<L>, Duration)> {
        let shared = &shared;
        let mut caller = Recorder { rt, shared, seat };
        let taken = do_with(rt, &mut caller, work)?;
        Ok((caller.seat, taken))
    };
    let start = Instant::now(rt)?;
    let made = thread::map_vec(rt, places, each)?;
    let mut taken = start.elapsed(rt)?;
    let mut places = Vec::new(rt.alloc());
    for one in made {
        let (seat, own) = one?;
        taken = if seats == 1 { own } else { taken };
        places.push(seat).map_err(|_| NotTimed::Memory)?;
    }
    let transcript = shared.close(places).map_err(|_| NotTimed::Failed)?;
    Ok((taken, Some(transcript)))
}

/// Does the work with this store in a session of so many seats; where there are none, by the manager alone.
fn with_store<R: Host>(rt: &R, store: Store, seats: Option<u32>, work: Work) -> Timed<Outcome> {
    let Some(seats) = seats else {
        let manager = Manager::new(rt.alloc(), store, 1);
        return Ok((do_with(rt, &mut Alone { manager }, work)?, None));
    };
    recorded::<Store, Brand, R>(rt, Blank::new(u64::from(seats)), store, seats, work)
}

/// Does the work in a session of so many seats, or by the manager alone where there are none. There is one driver: each
/// device passes its reads down with a routine of rule Watch, and the lowest finishes them.
pub fn do_work<R: Host>(rt: &R, seats: Option<u32>, work: Work) -> Timed<Outcome> {
    let alloc = rt.alloc();
    let reads = [(READ, DispatchId(0))].to_vec(alloc)?;
    let watches = Box::new(alloc, watches).ok().ok_or(NotTimed::Memory)?;
    let forwards = Box::new(alloc, forwards).ok().ok_or(NotTimed::Memory)?;
    let known = Known {
        watch: 1,
        ..Known::NONE
    };
    let watch = Routine::new(Rule::Watch, watches);
    let forward = Dispatch::new(known, forwards);
    let mut store = Store::new(alloc);
    store.add(watch).map_err(|_| NotTimed::Memory)?;
    store.add_dispatch(forward).map_err(|_| NotTimed::Memory)?;
    store.add_driver(reads).map_err(|_| NotTimed::Memory)?;
    with_store(rt, store, seats, work)
}

/// What is done in calls, for a number.
#[derive(Clone, Copy)]
pub enum Calls {
    /// Rounds of four calls, by so many threads.
    Rounds,
    /// Rounds of four calls by one thread, in one session of so many entries after another.
    Entries,
    /// Packets are allocated and given back, while so many are live.
    Unused,
    /// Packets are sent through so many devices.
    Sends,
}

/// Times calls, by the manager alone or in sessions. The time is that of a call of a round, of a packet, or of a send;
/// where there are more threads than one, those of all threads count. Sessions of fewer entries than there are calls
/// follow one another, and their times are added up.
pub fn time_calls<R: Host>(rt: &R, calls: Calls, number: u32, is_recorded: bool) -> Timed<Done> {
    let threads = if is_recorded { number } else { 1 };
    let packets = if is_recorded { 500 } else { 1_000 };
    let part = |number: u32| CALLS.checked_div(number).unwrap_or(0);
    let top = DeviceId(number.saturating_sub(1));
    let (work, seats, sessions, count) = match calls {
        Calls::Rounds => (Work::Rounds(part(threads) / 4), threads, 1, CALLS),
        Calls::Entries => (Work::Rounds(number / 4), 1, part(number), CALLS),
        Calls::Unused => (Work::Unused(number), 1, 1, UNUSED),
        Calls::Sends => (Work::Sends(top, packets, SENDS), 1, 1, packets * SENDS),
    };
    let mut taken = Duration::ZERO;
    for _ in 0..sessions {
        taken = taken.saturating_add(do_work(rt, is_recorded.then_some(seats), work)?.0);
    }
    Ok(Done::of(count, 0, taken))
}
