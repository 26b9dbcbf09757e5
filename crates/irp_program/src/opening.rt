//! Opening an input. Source: this project's own rules.

ghost use Rattle.std.specs.Prelude.{◌≡◌, ◌↔◌, IfErr, IfOk, IfSome, IsOk, None, is_none};
ghost use Rattle.either.specs.Either.{is_left};
ghost use Rattle.irp_program.specs.Opening.{IsUnopened};
ghost use Rattle.irp_program.specs.declared.opening.NoOpen.TheVariants.{Missing, Denied};

use either::{Either, Left, Right};
use std::alloc::Global;
use std::fmt;
use std::fs::File;
use std::io::ErrorKind;
use std::rt::Stdin;

/// Why a file isn't opened.
#[derive(Clone, Copy)]
pub enum NoOpen {
    /// There is no such file.
    Missing,
    /// It may not be read.
    Denied,
    /// The system says something else.
    Other,
}

impl NoOpen {
    /// Why a file isn't opened, by the kind of the system's error.
    fn of(kind: ErrorKind) -> NoOpen
        ensures missing { (result ≡ Missing) ↔ (kind ≡ ErrorKind.NotFound) }
        ensures denied { (result ≡ Denied) ↔ (kind ≡ ErrorKind.PermissionDenied) }
    {
        match kind {
            ErrorKind::NotFound => NoOpen::Missing,
            ErrorKind::PermissionDenied => NoOpen::Denied,
            _ => NoOpen::Other,
        }
    }
}

/// The reason in words.
impl fmt::Display for NoOpen {
    ghost use Rattle.std.specs.Prelude.{Some};
    ghost use Rattle.irp_program.specs.Opening.{reason_text};

    ghost output = { λ reason. Some (reason_text reason) };

    fn fmt<W: fmt::Write>(&self, f: &mut fmt::Formatter<W>) -> fmt::Result {
        match self {
            NoOpen::Missing => f.write_str("there is no such file"),
            NoOpen::Denied => f.write_str("it may not be read"),
            NoOpen::Other => f.write_str("the system refuses it"),
        }
    }
}

/// Why an input isn't opened.
#[derive(Drop)]
pub enum Unopened {
    /// The file of this name can't be opened.
    NoFile { name: String, reason: NoOpen },
    /// It can't, and memory ran out for its name.
    NoMemory,
}

/// Why the file of this name isn't opened, by the kind of the system's error.
fn no_file(alloc: Global, name: &str, kind: ErrorKind) -> Unopened
    ensures { IsUnopened name.now result }
{
    match name.to_string(alloc) {
        Ok(name) => Unopened::NoFile {
            name,
            reason: NoOpen::of(kind),
        },
        Err(_) => Unopened::NoMemory,
    }
}

/// The file of this name, or standard input where there is no name.
///
/// # Errors
///
/// `NoFile`, with the name, where the file can't be opened; `NoMemory` where there is no memory for the name then.
pub fn open_input(rt: &HostRuntime, name: Option<&str>) -> Result<Either<Stdin, File>, Unopened>
    ensures file { IfErr result (λ told. IfSome name.entry (λ text. IsUnopened text.now told)) }
    ensures input { name.entry ≡ None → IsOk result }
    ensures which { IfOk result (λ input. is_left input ≡ is_none name.entry) }
{
    let Some(name) = name else {
        return Ok(Left(rt.stdin()));
    };
    match File::open(rt, name) {
        Ok(file) => Ok(Right(file)),
        Err(error) => Err(no_file(rt.alloc(), name, error.kind())),
    }
}
