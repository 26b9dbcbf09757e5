//! What one thread does. A call that is refused changes nothing. What the manager refuses shows in the transcript, and
//! is counted there; what a remove lock refuses doesn't.

ghost use Rattle.std.specs.Prelude.{◌≡◌};
ghost use Rattle.irp_remove.specs.Pairing.{IsSeatOf};

use crate::drivers::{DISK_DRIVER, FILTER_DRIVER, READ};
use irp_remove::{Locks, RemoveSeat};
use irp_routines::Ask;
use irp_shared::{Seat, Session, Shared, needs_token};
use irp_types::{Call, DeviceId, LockNo, Party, Reply};
use std::sync::Wait;

/// The remove lock of both devices.
const LOCK: LockNo = LockNo(0);

/// The tag under which a caller holds the lock.
const TAG: u32 = 1;

/// The lower device: the first that is created.
const DISK: DeviceId = DeviceId(0);

/// The upper device.
const FILTER: DeviceId = DeviceId(1);

/// How many reads each thread sends.
const READS: u64 = 3;

/// The calls that build the stack.
const BUILD: [Call; 3] = [
    Call::CreateDevice {
        driver: DISK_DRIVER,
        lock: LOCK,
    },
    Call::CreateDevice {
        driver: FILTER_DRIVER,
        lock: LOCK,
    },
    Call::Attach {
        device: FILTER,
        to: DISK,
    },
];

/// The calls that take the stack away.
const TAKE_AWAY: [Call; 3] = [
    Call::Detach { lower: DISK },
    Call::Delete { device: FILTER },
    Call::Delete { device: DISK },
];

/// A seat of the session, with a seat of the remove lock. Both are one thread's own.
#[derive(Drop)]
pub struct Caller<'a, L: Session> {
    seat: Seat<L>,
    remove: RemoveSeat,
    locks: &'a Locks,
    ghost fits: { IsSeatOf locks.now remove },
}

impl<'a, L: Session> Caller<'a, L> {
    /// A caller with these seats, on condition that the second was opened with the locks.
    pub fn new(seat: Seat<L>, remove: RemoveSeat, locks: &'a Locks) -> Caller<'a, L>
        requires { IsSeatOf locks.now remove }
        ensures { result.seat ≡ seat }
    {
        Caller {
            seat,
            remove,
            locks,
        }
    }

    /// The seat of the session, which is handed in when the session is closed.
    pub fn into_seat(self) -> Seat<L>
        ensures { result ≡ self.entry.seat }
    {
        self.seat
    }

    /// Makes a call, with what it knows of the lock. The reply, or none where the call wasn't recorded. A call that
    /// needs a token isn't made: that is for `Shared::finish_taken`.
    fn call<A: Ask>(&mut self, rt: &impl Wait, shared: &Shared<A, L>, call: Call) -> Option<Reply> {
        if needs_token(call) {
            return None;
        }
        match shared.call(rt, &mut self.seat, call, &self.remove) {
            Ok(receipt) => Some(receipt.reply()),
            Err(_) => None,
        }
    }

    /// Makes the calls in order.
    fn make<A: Ask>(&mut self, rt: &impl Wait, shared: &Shared<A, L>, calls: &[Call]) {
        for call in calls {
            let _ = self.call(rt, shared, *call);
        }
    }

    /// Sends a packet down the stack, as a read of so many bytes, and frees it.
    fn send<A: Ask>(&mut self, rt: &impl Wait, shared: &Shared<A, L>, bytes: u64) {
        let allocate = Call::Allocate { size: 2 };
        let Some(Reply::Irp(irp)) = self.call(rt, shared, allocate) else {
            return;
        };
        let party = Party::Originator;
        let fill = Call::SetNext {
            party,
            irp,
            major: READ,
            word: bytes,
        };
        let target = FILTER;
        let send = Call::CallDriver { party, irp, target };
        self.make(rt, shared, &[fill, send, Call::Free { irp }]);
    }

    /// Sends a read, and holds the remove lock meanwhile.
    fn read<A: Ask>(&mut self, rt: &impl Wait, shared: &Shared<A, L>, bytes: u64) {
        if self.locks.acquire(&mut self.remove, LOCK, TAG).is_ok() {
            self.send(rt, shared, bytes);
            let _ = self.locks.release(&mut self.remove, LOCK, TAG);
        }
    }

    /// Sends the reads of one thread.
    pub fn read_all<A: Ask>(mut self, rt: &impl Wait, shared: &Shared<A, L>) -> Caller<'a, L> {
        for bytes in 0..READS {
            self.read(rt, shared, bytes);
        }
        self
    }

    /// Creates both devices, and attaches the filter to the disk.
    pub fn build<A: Ask>(&mut self, rt: &impl Wait, shared: &Shared<A, L>) {
        self.make(rt, shared, &BUILD)
    }

    /// Begins the removal of the lock, and finds it drained, since nobody holds it any more. Then it detaches the
    /// filter, and deletes both devices: each Delete would be refused had the lock not been found drained.
    pub fn take_away<A: Ask>(&mut self, rt: &impl Wait, shared: &Shared<A, L>) {
        let _ = self.locks.acquire(&mut self.remove, LOCK, TAG);
        let _ = self.locks.begin_remove(&mut self.remove, LOCK, TAG);
        let _ = self.locks.drained(&mut self.remove, LOCK);
        self.make(rt, shared, &TAKE_AWAY)
    }
}
