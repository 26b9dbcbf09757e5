//! What a refusal comes from, in words.

use crate::fields::{put_device, put_numbered};
use irp_judge::Cause;
use irp_names::{CancelWords, OwnerWords, refusal_meaning, windows_name};
use irp_types::{Call, DeviceId, Refusal, Reply};
use std::alloc::AllocError;

/// Puts why the manager refuses a call: when the refusal comes, what of the state it comes from, and its name in
/// Windows; nothing where this isn't a refusal. The one error is want of memory.
pub fn put_reason(
    words: &mut String,
    call: Call,
    reply: Reply,
    cause: Cause,
) -> Result<(), AllocError> {
    let Reply::Refused(refusal) = reply else {
        return Ok(());
    };
    words.push_str(meaning(call, refusal, cause))?;
    put_state(words, cause)?;
    match windows_name(call, refusal) {
        Some(name) => write!(words, " (in Windows: {})", name),
        None => Ok(()),
    }
}

/// When this refusal of a call comes. A FinishTaken is refused as stale also where its token alone is of another use,
/// and a Delete as in flight where the device has a packet, which the call doesn't name.
fn meaning(call: Call, refusal: Refusal, cause: Cause) -> &'static str {
    match (call, refusal, cause) {
        (Call::FinishTaken { irp, .. }, Refusal::Stale, Cause::Use(number))
            if irp.use_no == number => { "the token is of another use" }
        (Call::Delete { .. }, Refusal::InFlight, _) => "the device still has a packet",
        _ => refusal_meaning(refusal),
    }
}

/// Puts what of the manager's state a refusal comes from, behind a colon; nothing where it comes from the call alone.
/// The one error is want of memory.
fn put_state(words: &mut String, cause: Cause) -> Result<(), AllocError> {
    match cause {
        Cause::Nothing => Ok(()),
        Cause::Use(number) => put_numbered(words, ": the slot's packet is in use ", number),
        Cause::Owner(owner) => write!(words, ": {}", OwnerWords(owner)),
        Cause::Location { current, size } => put_location(words, current, size),
        Cause::Room {
            current,
            size,
            needed,
        } => {
            put_location(words, current, size)?;
            put_numbered(words, ", needed below it ", u64::from(needed))
        }
        Cause::Lower(None) => words.push_str(": nothing stands below the sender"),
        Cause::Lower(Some(device)) => {
            put_numbered(
                words,
                ": just below the sender stands D",
                u64::from(device.0),
            )
        }
        Cause::CancelRoutine(id) => write!(words, ": {} is set", CancelWords(id)),
        Cause::Neighbours { lower, upper } => put_neighbours(words, lower, upper),
        Cause::Devices(count) => put_numbered(words, ": devices created: ", u64::from(count)),
        Cause::Stack(count) => put_numbered(words, ": devices in the stack: ", u64::from(count)),
        Cause::Lock(lock) => put_numbered(words, ": remove lock ", u64::from(lock.0)),
        Cause::Packets { live, next_use } => {
            put_numbered(words, ": live packets: ", live as u64)?;
            put_numbered(words, ", next use number ", next_use)
        }
    }
}

/// Puts a packet's current location, and how many it has. The one error is want of memory.
fn put_location(words: &mut String, current: u32, size: u32) -> Result<(), AllocError> {
    write!(words, ": current location {}, size {}", current, size)
}

/// Puts the devices beside another. The one error is want of memory.
fn put_neighbours(
    words: &mut String,
    lower: Option<DeviceId>,
    upper: Option<DeviceId>,
) -> Result<(), AllocError> {
    words.push_str(": below it ")?;
    put_device(words, lower)?;
    words.push_str(", above it ")?;
    put_device(words, upper)
}
