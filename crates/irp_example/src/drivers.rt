//! The drivers of the two devices.

ghost use Rattle.std.specs.Prelude.{◌≡◌, ◌<◌, true, IfSome};
ghost use Rattle.irp_example.specs.Bench.{HasLegalHistory};
ghost use Rattle.irp_types.specs.Rules.{is_plan_allowed};
ghost use Rattle.irp_types.specs.declared.routine.Known.{Known};

use crate::bench::run;
use irp_routines::{Dispatch, Routine, Store};
use irp_shared::Transcript;
use irp_types::{DriverId, Known, Plan, RoutineId, Rule, Setting, Shown, Status};
use std::alloc::Global;
use std::sync::Wait;
use std::thread::Threads;

/// The major function code of a read, IRP_MJ_READ (WDK: "IRP_MJ_READ").
pub const READ: u8 = 0x03;

/// The filter's driver: the first that is stored.
pub const FILTER_DRIVER: DriverId = DriverId(0);

/// The disk's driver: the second that is stored.
pub const DISK_DRIVER: DriverId = DriverId(1);

/// The routines that the filter may name: one of rule Watch.
pub const FILTER_KNOWS: Known = Known {
    watch: 1,
    ..Known::NONE
};

/// How the filter sets its routine, the first of its rule: it is asked however the read ends.
const WATCHED: Setting = Setting {
    routine: RoutineId {
        rule: Rule::Watch,
        no: 0,
    },
    context: 0,
    on_success: true,
    on_error: true,
    on_cancel: true,
};

/// What the filter plans. It forwards a packet, and watches it come back, where a device stands below. Each dispatch
/// that may name a routine of rule Watch may plan so.
pub fn forwarded(shown: Shown) -> Plan
    ensures { (known : Known) → 0 < known.watch → is_plan_allowed known shown result ≡ true }
{
    if shown.has_lower {
        Plan::Forward { set: Some(WATCHED) }
    } else {
        Plan::Finish {
            status: Status::INVALID_DEVICE_REQUEST,
            information: 0,
        }
    }
}

/// The drivers' own code.
#[derive(Drop)]
pub struct Drivers {
    /// The filter's completion routine.
    pub watch: Routine,
    /// The filter's dispatch of reads.
    pub filter: Dispatch,
    /// The disk's dispatch of reads.
    pub disk: Dispatch,
}

impl Drivers {
    /// Puts these closures and both drivers into a store, and runs the bench over it. The transcript, whose history is
    /// legal. None where memory ran out, or the seats' entries aren't the history's.
    pub fn run<R: Threads + Wait + Sync>(self, rt: &R, alloc: Global) -> Option<Transcript>
        ensures legal { IfSome result HasLegalHistory }
    {
        let Drivers {
            watch,
            filter,
            disk,
        } = self;
        let mut store = Store::new(alloc);
        // The routine comes first: a dispatch may name only what the store has.
        let _watch = store.add(watch).ok()?;
        let filter = store.add_dispatch(filter).ok()?;
        let disk = store.add_dispatch(disk).ok()?;
        for dispatch in [filter, disk] {
            let reads = [(READ, dispatch)].to_vec(alloc).ok()?;
            let _driver = store.add_driver(reads).ok()?;
        }
        run(rt, alloc, store)
    }
}
