//! Why a script isn't run, or not to its end.

use std::alloc::AllocError;

/// Why a script isn't run, or not to its end. Source: this project's own rule.
#[derive(Clone, Copy, PartialEq, Eq, Debug)]
pub enum RunFault {
    /// Memory ran out.
    Memory,
    /// A step took the packet of this label, of this number among the script's labels, from a step of another worker, which
    /// isn't known to have bound it to that packet.
    LabelsDiffer { label: usize },
}

impl From<AllocError> for RunFault {
    ghost use Rattle.std.specs.Prelude.{◌≡◌};
    ghost use Rattle.irp_script.specs.declared.run_fault.RunFault.TheVariants.{Memory};

    ghost from_gives = { λ _ fault. fault ≡ Memory };

    fn from(_error: AllocError) -> RunFault {
        RunFault::Memory
    }
}
