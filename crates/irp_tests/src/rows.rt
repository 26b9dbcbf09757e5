//! The worked examples that are played: a packet that is finished at once, one that a routine keeps, two that are
//! cancelled, one that is taken from its cancel slot, a remove lock that is drained, a seat that is behind.

use crate::example::{Act, Asked, Deed, Example, IRP, LOCK};
use irp_remove::{AcquireRefusal, DrainRefusal};
use irp_types::{
    Call, CancelAnswer, CancelId, CancelRule, DeviceId, DispatchId, DriverId, IrpRef, Limit, Owner,
    Party, Plan, Refusal, Reply, RoutineId, Rule, Seen, Setting, Status,
};

/// The major function code of a read, IRP_MJ_READ (WDK: "IRP_MJ_READ").
const READ: u8 = 0x03;

/// The first routine of a rule, with a context, and when it is asked.
macro_rules! first_of {
    ($rule:ident, $context:literal, $success:literal, $error:literal, $cancel:literal) => {
        Setting {
            routine: RoutineId { rule: Rule::$rule, no: 0 },
            context: $context,
            on_success: $success,
            on_error: $error,
            on_cancel: $cancel,
        }
    };
}

/// Rows, each on a line of its own.
macro_rules! rows {
    ($($row:expr;)+) => { &[$($row),+] };
}

/// A call of the originator for a packet, with these further fields.
macro_rules! own {
    ($call:ident, $irp:expr, $($field:ident: $value:expr),+) => {
        Call::$call { party: Party::Originator, irp: $irp, $($field: $value),+ }
    };
}

/// The originator fills the next location with a read.
macro_rules! fill {
    ($irp:expr) => { own!(SetNext, $irp, major: READ, word: 7) };
}

/// The originator sends the packet to a device.
macro_rules! send {
    ($irp:expr, $device:literal) => { own!(CallDriver, $irp, target: DeviceId($device)) };
}

/// What a look sees: the owner, the location, the status and the information; whether it was cancelled;
/// PendingReturned; whether it is marked.
macro_rules! seen {
    ($owner:expr, $at:literal, $status:ident, $count:literal, $cancel:literal, $pending:literal, $marked:literal) => {
        Reply::Seen(Seen {
            owner: $owner,
            current: $at,
            status: Status::$status,
            information: $count,
            cancel: $cancel,
            cancel_routine: None,
            pending_returned: $pending,
            marked: $marked,
        })
    };
}

/// A dispatch that plans to finish the packet so.
const FINISH: Plan = Plan::Finish {
    status: Status::SUCCESS,
    information: 5,
};

/// Whoever has the token of its use completes the packet.
const FINISH_TAKEN: Call = Call::FinishTaken {
    irp: IRP,
    token: IRP.use_no,
    status: Status::SUCCESS,
    information: 5,
};

/// A packet of one location.
pub const ALLOCATE: Call = Call::Allocate { size: 1 };

/// The look at the first packet.
pub const LOOK: Call = Call::Look { irp: IRP };

/// A second packet.
const NEXT: IrpRef = IrpRef { slot: 1, use_no: 2 };

/// A driver that has one dispatch for reads.
macro_rules! reads {
    ($no:literal) => { Asked::Driver($no, &[(READ, DispatchId($no))]) };
}

/// One device finishes one packet, while another thread acts on a lock.
macro_rules! finished {
    ($beside:expr) => {
        Example {
            asked: &[Asked::Dispatch(0, FINISH, 1), reads!(0)],
            seats: 1,
            limit: Limit::Sixteen,
            steps: rows! {
                (0, Deed::Call(Call::CreateDevice { driver: DriverId(0), lock: LOCK }, Reply::Device(DeviceId(0)), 0));
                (0, Deed::Call(ALLOCATE, Reply::Irp(IrpRef { slot: 0, use_no: 1 }), 0));
                (0, Deed::Call(fill!(IRP), Reply::Done, 0));
                (0, Deed::Call(send!(IRP, 0), Reply::Status(Status::SUCCESS), 1));
            },
            beside: &$beside,
            last: seen!(Owner::Ended, 2, SUCCESS, 5, false, false, false),
        }
    };
}

/// One device finishes one packet.
static FINISHED: Example = finished!([]);

/// The same, while another thread takes a reference over, acquires the lock itself, and releases both.
static BESIDE: Example = finished! {
    [(1, Act::Hand(1, Ok(()))), (1, Act::Acquire(2, Ok(()))), (1, Act::Release(2, Ok(()))),
        (1, Act::Release(1, Ok(())))]
};

/// A routine keeps a packet, and its device completes it.
static KEPT: Example = Example {
    asked: rows! {
        Asked::Routine(0, Rule::Watch, 4);
        Asked::Routine(0, Rule::Keeper, 5);
        Asked::Dispatch(0, FINISH, 1);
        Asked::Dispatch(1, Plan::ForwardPend { set: Some(first_of!(Keeper, 0, true, true, true)) }, 2);
        Asked::Dispatch(2, Plan::Forward { set: Some(first_of!(Watch, 0, true, true, true)) }, 3);
        reads!(0);
        reads!(1);
        reads!(2);
    },
    seats: 1,
    limit: Limit::Sixteen,
    steps: rows! {
        (0, Deed::Call(Call::CreateDevice { driver: DriverId(0), lock: LOCK }, Reply::Device(DeviceId(0)), 0));
        (0, Deed::Call(Call::CreateDevice { driver: DriverId(1), lock: LOCK }, Reply::Device(DeviceId(1)), 0));
        (0, Deed::Call(Call::CreateDevice { driver: DriverId(2), lock: LOCK }, Reply::Device(DeviceId(2)), 0));
        (0, Deed::Call(Call::Attach { device: DeviceId(1), to: DeviceId(0) }, Reply::Device(DeviceId(0)), 0));
        (0, Deed::Call(Call::Attach { device: DeviceId(2), to: DeviceId(1) }, Reply::Device(DeviceId(1)), 0));
        (0, Deed::Call(Call::Allocate { size: 3 }, Reply::Irp(IRP), 0));
        (0, Deed::Call(fill!(IRP), Reply::Done, 0));
        (0, Deed::Call(send!(IRP, 2), Reply::Status(Status::PENDING), 3215));
        (0, Deed::Call(LOOK, seen!(Owner::Device(DeviceId(1)), 2, SUCCESS, 5, false, false, true), 0));
        (0, Deed::Call(
            Call::Complete { party: Party::Device(DeviceId(1)), irp: IRP, status: Status::SUCCESS, information: 6 },
            Reply::Done, 4));
        (0, Deed::Call(LOOK, seen!(Owner::Ended, 4, SUCCESS, 6, false, true, false), 0));
    },
    beside: &[],
    last: seen!(Owner::Ended, 4, SUCCESS, 6, false, true, false),
};

/// A packet goes down through two devices, and is cancelled; both are tried again and refused. The cancel routine
/// finishes it, and both Watches are asked, the lower one first. A second packet, whose Watch is for a success alone,
/// is sent to the lower device and cancelled: only the cancel routine is asked.
static CANCELLED: Example = Example {
    asked: rows! {
        Asked::Routine(0, Rule::Watch, 0);
        Asked::Cancel(0, CancelRule::MustFinish, CancelAnswer::Finish { information: 0 }, 3);
        Asked::Dispatch(0, Plan::Hold { cancel: Some(CancelId(0)) }, 2);
        Asked::Dispatch(1, Plan::Forward { set: Some(first_of!(Watch, 4, false, false, true)) }, 1);
        reads!(0);
        reads!(1);
    },
    seats: 1,
    limit: Limit::Sixteen,
    steps: rows! {
        (0, Deed::Call(Call::CreateDevice { driver: DriverId(0), lock: LOCK }, Reply::Device(DeviceId(0)), 0));
        (0, Deed::Call(Call::CreateDevice { driver: DriverId(1), lock: LOCK }, Reply::Device(DeviceId(1)), 0));
        (0, Deed::Call(Call::Attach { device: DeviceId(1), to: DeviceId(0) }, Reply::Device(DeviceId(0)), 0));
        (0, Deed::Call(Call::Allocate { size: 2 }, Reply::Irp(IRP), 0));
        (0, Deed::Call(fill!(IRP), Reply::Done, 0));
        (0, Deed::Call(own!(SetRoutine, IRP, setting: first_of!(Watch, 5, false, false, true)), Reply::Done, 0));
        (0, Deed::Call(send!(IRP, 1), Reply::Status(Status::PENDING), 12));
        (0, Deed::Call(send!(IRP, 1), Reply::Refused(Refusal::NotOwner), 0));
        (0, Deed::Call(Call::Cancel { irp: IRP }, Reply::Cancelled(true), 345));
        (0, Deed::Call(Call::Cancel { irp: IRP }, Reply::Refused(Refusal::Ended), 0));
        (0, Deed::Call(ALLOCATE, Reply::Irp(IrpRef { slot: 1, use_no: 2 }), 0));
        (0, Deed::Call(fill!(NEXT), Reply::Done, 0));
        (0, Deed::Call(own!(SetRoutine, NEXT, setting: first_of!(Watch, 5, true, false, false)), Reply::Done, 0));
        (0, Deed::Call(send!(NEXT, 0), Reply::Status(Status::PENDING), 2));
        (0, Deed::Call(Call::Cancel { irp: NEXT }, Reply::Cancelled(true), 3));
    },
    beside: &[],
    last: seen!(Owner::Ended, 3, CANCELLED, 0, true, true, false),
};

/// A packet stands in a cancel slot. Only who has the token completes it, and once.
static TAKEN: Example = Example {
    asked: &[Asked::Dispatch(0, Plan::HoldSlot, 1), reads!(0)],
    seats: 1,
    limit: Limit::ThirtyTwo,
    steps: rows! {
        (0, Deed::Call(Call::CreateDevice { driver: DriverId(0), lock: LOCK }, Reply::Device(DeviceId(0)), 0));
        (0, Deed::Call(ALLOCATE, Reply::Irp(IrpRef { slot: 0, use_no: 1 }), 0));
        (0, Deed::Call(fill!(IRP), Reply::Done, 0));
        (0, Deed::Call(FINISH_TAKEN, Reply::Refused(Refusal::NotSlotHeld), 0));
        (0, Deed::Call(send!(IRP, 0), Reply::Status(Status::PENDING), 1));
        (0, Deed::Call(Call::Cancel { irp: IRP }, Reply::Cancelled(false), 0));
        (0, Deed::Call(FINISH_TAKEN, Reply::Done, 0));
    },
    beside: &[],
    last: seen!(Owner::Ended, 2, SUCCESS, 5, true, true, false),
};

/// A remove lock is drained, and its device deleted.
static DRAINED: Example = Example {
    asked: &[Asked::Driver(0, &[])],
    seats: 2,
    limit: Limit::Sixteen,
    steps: rows! {
        (0, Deed::Call(Call::CreateDevice { driver: DriverId(0), lock: LOCK }, Reply::Device(DeviceId(0)), 0));
        (0, Deed::Act(Act::Acquire(1, Ok(()))));
        (1, Deed::Act(Act::Acquire(2, Ok(()))));
        (0, Deed::Act(Act::BeginRemove(1, Ok(()))));
        (1, Deed::Act(Act::Acquire(3, Err(AcquireRefusal::DeletePending))));
        (0, Deed::Act(Act::Drained(Err(DrainRefusal::Busy(3)))));
        (1, Deed::Act(Act::Release(2, Ok(()))));
        (0, Deed::Act(Act::Drained(Ok(()))));
        (1, Deed::Call(Call::Delete { device: DeviceId(0) }, Reply::Refused(Refusal::NotDrained), 0));
        (0, Deed::Call(Call::Delete { device: DeviceId(0) }, Reply::Done, 0));
    },
    beside: &[],
    last: Reply::Refused(Refusal::NoIrp),
};

/// A seat that has seen more than the history has is behind, until the history is as long; and one that learns of
/// another's receipt has seen up to that entry.
static BEHIND: Example = Example {
    asked: &[],
    seats: 2,
    limit: Limit::ThirtyTwo,
    steps: rows! {
        (0, Deed::Behind(8, 1));
        (1, Deed::Call(ALLOCATE, Reply::Irp(IrpRef { slot: 0, use_no: 1 }), 0));
        (1, Deed::Call(ALLOCATE, Reply::Irp(IrpRef { slot: 1, use_no: 2 }), 0));
        (1, Deed::Call(ALLOCATE, Reply::Irp(IrpRef { slot: 2, use_no: 3 }), 0));
        (0, Deed::Behind(8, 7));
        (0, Deed::Call(ALLOCATE, Reply::Irp(IrpRef { slot: 3, use_no: 4 }), 0));
        (1, Deed::Learn(0, 10));
    },
    beside: &[],
    last: seen!(Owner::Originator, 2, SUCCESS, 0, false, false, false),
};

/// The examples by their names.
#[derive(Clone, Copy)]
pub enum ExampleName {
    Finished,
    Beside,
    Kept,
    Cancelled,
    Taken,
    Drained,
    Behind,
}

/// The example of this name.
pub fn example_of(name: ExampleName) -> &'static Example {
    match name {
        ExampleName::Finished => &FINISHED,
        ExampleName::Beside => &BESIDE,
        ExampleName::Kept => &KEPT,
        ExampleName::Cancelled => &CANCELLED,
        ExampleName::Taken => &TAKEN,
        ExampleName::Drained => &DRAINED,
        ExampleName::Behind => &BEHIND,
    }
}
