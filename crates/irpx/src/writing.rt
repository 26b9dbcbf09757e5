//! Writing a transcript.

ghost use Rattle.std.specs.Prelude.{IfErr, OnOk};
ghost use Rattle.irp_streams.specs.Streams.{output_of};
ghost use Rattle.irpx.specs.Writing.{Prints, StopsShort};

use crate::not_done::{NotDone, Phase};
use irp_fast_reader::{Unwritten, write_fitting};
use irp_shared::Transcript;
use irp_streams::Out;
use std::alloc::Global;

/// Writes a transcript that fits, so that it is read again as the same (this project's own format, docs/FORMATS.md).
///
/// # Errors
///
/// `Unfit` with the first part that doesn't fit: exactly the lines before it went out. `Output` where the output failed,
/// and exactly then its count of failures rose; `NoMemory` where memory ran out. After either, a beginning of the lines
/// that fit went out, and not the whole text.
pub fn write<O: Out>(alloc: Global, output: &mut O, transcript: &Transcript) -> Result<(), NotDone>
    ensures ok { OnOk result (Prints transcript.now
        (output_of (O.gone output.old) (O.failures output.old))
        (output_of (O.gone output.new) (O.failures output.new))) }
    ensures err { IfErr result (StopsShort transcript.now
        (output_of (O.gone output.old) (O.failures output.old))
        (output_of (O.gone output.new) (O.failures output.new))) }
{
    match write_fitting(alloc, output, transcript) {
        Ok(()) => Ok(()),
        Err(Unwritten::Unfit(unfit)) => Err(NotDone::Unfit { unfit }),
        Err(Unwritten::Output) => Err(NotDone::Output),
        Err(Unwritten::NoMemory) => Err(NotDone::NoMemory(Phase::Writing)),
    }
}
