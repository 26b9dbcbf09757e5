//! Guesses of the parts of calls, questions and replies.

use crate::scan::{Guess, Scan};
use irp_forms::{flags_named, named};
use irp_types::{
    CancelId, DeviceId, DriverId, IrpRef, LockNo, Owner, Party, RoutineId, Setting, Status,
};

impl Guess for DeviceId {
    fn guess(scan: &mut Scan) -> Option<DeviceId> {
        Some(DeviceId(scan.after("")?))
    }
}

impl Guess for DriverId {
    fn guess(scan: &mut Scan) -> Option<DriverId> {
        Some(DriverId(scan.after("")?))
    }
}

impl Guess for CancelId {
    fn guess(scan: &mut Scan) -> Option<CancelId> {
        Some(CancelId(scan.after("")?))
    }
}

impl Guess for LockNo {
    fn guess(scan: &mut Scan) -> Option<LockNo> {
        Some(LockNo(scan.after("")?))
    }
}

impl Guess for Status {
    fn guess(scan: &mut Scan) -> Option<Status> {
        Some(Status(scan.after("")?))
    }
}

impl Guess for IrpRef {
    fn guess(scan: &mut Scan) -> Option<IrpRef> {
        let slot = scan.after::<u32>("[")? as usize;
        let use_no = scan.after(",")?;
        scan.pass("]")?;
        Some(IrpRef { slot, use_no })
    }
}

impl Guess for Owner {
    fn guess(scan: &mut Scan) -> Option<Owner> {
        if !scan.is_next(b'"') {
            return Some(Owner::Device(scan.after("")?));
        }
        match scan.word_after("\"")? {
            "o" => Some(Owner::Originator),
            _ => Some(Owner::Ended),
        }
    }
}

impl Guess for Party {
    fn guess(scan: &mut Scan) -> Option<Party> {
        if !scan.is_next(b'"') {
            return Some(Party::Device(scan.after("")?));
        }
        scan.pass("\"o\"")?;
        Some(Party::Originator)
    }
}

/// The completion routine whose rule stands behind as many bytes as the text has.
pub fn routine_after(scan: &mut Scan, text: &str) -> Option<RoutineId> {
    let rule = named(scan.word_after(text)?)?;
    let no = scan.after(",")?;
    Some(RoutineId { rule, no })
}

impl Guess for Setting {
    fn guess(scan: &mut Scan) -> Option<Setting> {
        let routine = routine_after(scan, "[\"")?;
        let context = scan.after(",")?;
        let flags = flags_named(scan.word_after(",\"")?)?;
        scan.pass("]")?;
        Some(Setting {
            routine,
            context,
            on_success: flags.on_success,
            on_error: flags.on_error,
            on_cancel: flags.on_cancel,
        })
    }
}
