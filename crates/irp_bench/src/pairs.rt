//! Pairs of calls on remove locks and on cancel slots, and bare atomic steps on one word.

ghost use Rattle.std.specs.Prelude.{◌≡◌, [], All, IfOk, length};
ghost use Rattle.irp_remove.specs.Pairing.{IsSeatOf};
ghost use Rattle.irp_slots.specs.Pairing.{IsOwnerOf, IsCancellerOf};
ghost use Rattle.irp_bench.specs.Bench.{TookBack, TookMore};

use crate::timed::{Done, Host, NotTimed, Timed};
use irp_remove::{Locks, RemoveSeat};
use irp_slots::{Canceller, Request, SlotOwner, Slots, Withdrawal};
use irp_types::{IrpRef, LockNo};
use std::sync::atomic::{AtomicU64, Ordering};
use std::thread;
use std::time::{Duration, Instant};

/// How many pairs a thread makes on the lock.
const PAIRS: u32 = 2_000_000;
/// How often so many slots are opened. A slot takes one publication in its life.
const TABLES: u32 = 16_000;
/// The packet that each owner publishes.
const PACKET: IrpRef = IrpRef { slot: 0, use_no: 1 };

/// What is timed of slots.
#[derive(Clone, Copy)]
pub enum Pair {
    /// An owner publishes a packet, and withdraws it.
    Withdrawn,
    /// An owner publishes a packet, and a canceller requests it.
    Requested,
    /// Two swaps and a fetch-or on one word.
    Bare,
}

/// Takes a reference to the lock and gives it back, each time under another tag. It stops at the first that is refused.
fn hold_all(locks: &Locks, seat: &mut RemoveSeat) -> Timed<()>
    requires fits { IsSeatOf locks.now seat.old }
    requires empty { seat.old.held ≡ [] }
    ensures { seat.new.held ≡ [] }
{
    let lock = LockNo(0);
    for tag in 0..PAIRS {
        if locks.acquire(seat, lock, tag).is_err() || locks.release(seat, lock, tag).is_err() {
            return Err(NotTimed::Failed);
        }
    }
    Ok(())
}

/// Adds to the word and takes it back, as often: the two steps that a reference makes on the word of its lock.
fn count_all(word: &AtomicU64) {
    for _ in 0..PAIRS {
        word.fetch_add(2, Ordering::SeqCst);
        word.fetch_sub(2, Ordering::SeqCst);
    }
}

/// Times pairs in so many threads, each with a seat of its own, all on one lock, or on one word where they are bare.
/// Where the system starts no thread, they run one after another.
pub fn time_threads<R: Host>(rt: &R, is_bare: bool, threads: u32) -> Timed<Done> {
    let (locks, seats) = irp_remove::open(rt.alloc(), 1, threads).map_err(|_| NotTimed::Memory)?;
    let (shared, word) = (&locks, &AtomicU64::new(0));
    let each = &|mut seat: RemoveSeat| -> Timed<()>
        requires { IsSeatOf shared.now seat × (seat.held ≡ []) }
    {
        if is_bare {
            count_all(word);
            return Ok(());
        }
        hold_all(shared, &mut seat)
    };
    let start = Instant::now(rt)?;
    let made = thread::map_vec(rt, seats, each)?;
    let taken = start.elapsed(rt)?;
    for outcome in made {
        outcome?;
    }
    Ok(Done::of(PAIRS, 0, taken))
}

/// Each owner publishes the packet, and withdraws it. It stops at the first that doesn't take it.
fn withdraw_all(slots: &Slots, owners: &mut [SlotOwner]) -> Timed<()>
    requires { All (IsOwnerOf slots.now) owners.old }
    ensures { IfOk result (λ _. All TookBack owners.new) }
{
    for owner in owners.iter_mut() {
        slots.publish(owner, PACKET);
        if !matches!(slots.withdraw(owner), Withdrawal::Taken(_)) {
            return Err(NotTimed::Failed);
        }
    }
    Ok(())
}

/// Each owner publishes the packet, and the canceller requests it. It stops at the first that it doesn't take.
fn request_all(slots: &Slots, owners: &mut [SlotOwner], canceller: &mut Canceller) -> Timed<()>
    requires owners { All (IsOwnerOf slots.now) owners.old }
    requires canceller { IsCancellerOf slots.now canceller.old }
    ensures { IfOk result (λ _. TookMore (length owners.old) canceller.old canceller.new) }
{
    for owner in owners.iter_mut() {
        slots.publish(owner, PACKET);
        if !matches!(slots.request(canceller, owner.slot()), Request::Taken(_)) {
            return Err(NotTimed::Failed);
        }
    }
    Ok(())
}

/// Swaps a number into the word and 0 out of it again, and sets its lowest bit, so many times.
fn swap_all(word: &AtomicU64, count: usize) {
    for _ in 0..count {
        word.swap(PACKET.use_no, Ordering::SeqCst);
        word.fetch_or(1, Ordering::SeqCst);
        word.swap(0, Ordering::SeqCst);
    }
}

/// Times pairs of calls on slots, so many opened at once, or as many bare steps. To open them is not in the time.
pub fn time_slots<R: Host>(rt: &R, pair: Pair, slots: u32) -> Timed<Done> {
    let mut taken = Duration::ZERO;
    for _ in 0..TABLES {
        let opened = irp_slots::open(rt.alloc(), slots, 1);
        let (opened, mut owners, mut cancellers) = opened.map_err(|_| NotTimed::Memory)?;
        let mut canceller = cancellers.pop().ok_or(NotTimed::Failed)?;
        let start = Instant::now(rt)?;
        match pair {
            Pair::Withdrawn => withdraw_all(&opened, owners.as_mut_slice())?,
            Pair::Requested => request_all(&opened, owners.as_mut_slice(), &mut canceller)?,
            Pair::Bare => swap_all(&AtomicU64::new(0), owners.len()),
        }
        taken = taken.saturating_add(start.elapsed(rt)?);
    }
    Ok(Done::of(TABLES.saturating_mul(slots), 0, taken))
}
