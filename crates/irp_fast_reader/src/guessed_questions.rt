//! Guesses of what closures were asked.

use crate::guessed_parts::routine_after;
use crate::scan::{Guess, Scan};
use irp_forms::keep_named;
use irp_types::{
    Answer, Asked, CancelAnswer, CancelId, DispatchId, IrpRef, Plan, Replacement, Shown,
};

impl Guess for Shown {
    fn guess(scan: &mut Scan) -> Option<Shown> {
        let shown = Shown {
            device: scan.after("[")?,
            irp: IrpRef {
                slot: scan.after::<u32>(",")? as usize,
                use_no: scan.after(",")?,
            },
            major: scan.after(",")?,
            location: scan.after(",")?,
            word: scan.after(",")?,
            status: scan.after(",")?,
            information: scan.after(",")?,
            pending_returned: scan.after(",")?,
            cancel: scan.after(",")?,
            context: scan.after(",")?,
            has_lower: scan.after(",")?,
        };
        scan.pass("]")?;
        Some(shown)
    }
}

impl Guess for Plan {
    fn guess(scan: &mut Scan) -> Option<Plan> {
        let plan = match scan.word_after("[\"")? {
            "finish" => Plan::Finish {
                status: scan.after(",")?,
                information: scan.after(",")?,
            },
            "hold" => Plan::Hold {
                cancel: scan.after(",")?,
            },
            "hold_slot" => Plan::HoldSlot,
            "skip" => Plan::Skip,
            "forward" => Plan::Forward {
                set: scan.after(",")?,
            },
            _ => Plan::ForwardPend {
                set: scan.after(",")?,
            },
        };
        scan.pass("]")?;
        Some(plan)
    }
}

impl Guess for Replacement {
    fn guess(scan: &mut Scan) -> Option<Replacement> {
        let status = scan.after("[")?;
        let information = scan.after(",")?;
        scan.pass("]")?;
        Some(Replacement {
            status,
            information,
        })
    }
}

/// The question to a completion routine that keeps the packet or not, from the mark on.
fn guess_completion(scan: &mut Scan, keep: bool) -> Option<Asked> {
    let answer = Answer {
        keep,
        mark: scan.after(",")?,
        replacement: scan.after(",")?,
    };
    let id = routine_after(scan, "],\"completion\":[\"")?;
    let shown = scan.after("],\"shown\":")?;
    Some(Asked::Completion { id, shown, answer })
}

/// The question to a cancel routine whose answer has this name, from behind the name on.
fn guess_cancel(scan: &mut Scan, name: &str) -> Option<Asked> {
    let answer = match name {
        "finish" => CancelAnswer::Finish {
            information: scan.after(",")?,
        },
        _ => CancelAnswer::Leave,
    };
    let id = CancelId(scan.after("],\"cancel\":")?);
    let shown = scan.after(",\"shown\":")?;
    Some(Asked::Cancel { id, shown, answer })
}

impl Guess for Asked {
    fn guess(scan: &mut Scan) -> Option<Asked> {
        if scan.word_after("{\"")? == "dispatch" {
            let id = DispatchId(scan.after(":")?);
            let plan = scan.after(",\"plan\":")?;
            let shown = scan.after(",\"shown\":")?;
            return Some(Asked::Dispatch { id, shown, plan });
        }
        let name = scan.word_after(":[\"")?;
        match keep_named(name) {
            Some(keep) => guess_completion(scan, keep),
            None => guess_cancel(scan, name),
        }
    }
}

/// Puts the questions that are next into `asked`, in place of what it has.
pub fn guess_asked(scan: &mut Scan, asked: &mut Vec<Asked>) -> Option<()> {
    asked.clear();
    for _ in 0..scan.len() {
        if scan.is_next(b',') {
            scan.pass(",")?;
        }
        if !scan.is_next(b'{') {
            break;
        }
        asked.push(scan.after("")?).ok()?;
        scan.pass("}")?;
    }
    Some(())
}
