//! What became of the one request for memory that is refused, and what ends a scenario.

ghost use Rattle.std.specs.Prelude.{◌≡◌, IfOk};

use std::alloc::{AllocError, AllocFailed};
use std::io;

/// Why a scenario ended before its end.
#[derive(Clone, Copy)]
pub enum Halt {
    /// Memory was missing. The scenario may be begun anew.
    Memory,
    /// Something isn't as it has to be.
    Wrong(&'static str),
}

impl From<AllocError> for Halt {
    fn from(_error: AllocError) -> Halt {
        Halt::Memory
    }
}

impl<T: Drop> From<AllocFailed<T>> for Halt {
    fn from(_failed: AllocFailed<T>) -> Halt {
        Halt::Memory
    }
}

impl From<io::Error> for Halt {
    fn from(_error: io::Error) -> Halt {
        Halt::Memory
    }
}

/// Ok where something is as it has to be.
pub fn wanted(is_so: bool, what: &'static str) -> Result<(), Halt> {
    if is_so {
        Ok(())
    } else {
        Err(Halt::Wrong(what))
    }
}

/// Carries a value past something that was done: gives both on where that went well, and lets them go otherwise.
pub fn carried<D: Drop, T: Drop>(done: Result<D, Halt>, value: T) -> Result<(D, T), Halt>
    ensures { IfOk result (λ given. given.1 ≡ value) }
{
    match done {
        Ok(done) => Ok((done, value)),
        Err(halt) => Err(halt),
    }
}

/// What was made, or that something is wrong.
pub fn made_or<T: Drop, E: Drop>(made: Result<T, E>, what: &'static str) -> Result<T, Halt> {
    match made {
        Ok(made) => Ok(made),
        Err(_) => Err(Halt::Wrong(what)),
    }
}

/// Where the refused request fell, as far as it showed.
#[derive(Clone, Copy)]
pub enum Fell {
    /// Nothing answered that memory was missing.
    Nowhere,
    /// What the program takes for itself.
    SetUp,
    /// This step, in a call of this name.
    Call(usize, &'static str),
}

/// The step that a scenario is at, from 0, and where the refused request fell.
#[derive(Drop)]
pub struct Tried {
    pub step: usize,
    pub fell: Fell,
}

impl Tried {
    /// Notes that a call of this name was refused. It is wrong where that isn't the first time, or not for want of
    /// memory, or something isn't as it was before the call.
    pub fn refused(&mut self, name: &'static str, is_same: bool) -> Result<(), Halt> {
        if !is_same {
            return Err(Halt::Wrong(
                "a refused call changed something, kept what it got, or had another reason",
            ));
        }
        if !matches!(self.fell, Fell::Nowhere) {
            return Err(Halt::Wrong("a second request was refused"));
        }
        self.fell = Fell::Call(self.step, name);
        Ok(())
    }

    /// Notes that a call of this name was refused, and kept what it got. Answers why that ends the scenario.
    pub fn lost(&mut self, name: &'static str) -> Halt {
        self.refused(name, true).err().unwrap_or(Halt::Memory)
    }
}
