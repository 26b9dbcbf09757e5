//! The words of a command line. Source: this project's own rules.

use std::alloc::AllocError;
use std::rt::Env;
use std::{env, io};

/// Why words ask for nothing.
#[derive(Clone, Copy)]
pub enum Unasked {
    /// The words are none that the program takes, or can't be had.
    Usage,
    /// Memory ran out.
    NoMemory,
}

impl From<AllocError> for Unasked {
    ghost use Rattle.std.specs.Prelude.{◌≡◌};
    ghost use Rattle.irp_program.specs.declared.words.Unasked.TheVariants.{NoMemory};

    ghost from_gives = { λ _ unasked. unasked ≡ NoMemory };

    fn from(_error: AllocError) -> Unasked {
        Unasked::NoMemory
    }
}

/// The words that the program was given; the first is its name.
///
/// # Errors
///
/// `Usage` where they can't be had, as where one isn't UTF-8; `NoMemory` where memory ran out for them.
pub fn words_of<R: Env + AllocGlobal>(rt: &R) -> Result<Vec<String>, Unasked> {
    match env::args(rt) {
        Ok(words) => Ok(words.collect(rt.alloc())?),
        Err(error) if error.kind() == io::ErrorKind::OutOfMemory => Err(Unasked::NoMemory),
        Err(_) => Err(Unasked::Usage),
    }
}
