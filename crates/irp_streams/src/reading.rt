//! Reading an input up to a limit. Source: this project's own rules.

ghost use Rattle.std.specs.Prelude.{◌≡◌, ◌≤◌, take, vec_len, IfOk, IfSome};
ghost use Rattle.std.specs.Io.KnownBytes.{Consumes};
ghost use Rattle.irp_streams.specs.Streams.{TakesAtMost};

use std::alloc::{AllocError, Global};
use std::io::Read;

/// How many bytes are asked for in one turn, at most.
const PIECE: usize = 65_536;

/// Why a stream isn't read or written.
#[derive(Clone, Copy)]
pub enum StreamFault {
    /// It failed; an interrupted read is a failed one.
    Failed,
    /// Memory ran out.
    NoMemory,
}

impl From<AllocError> for StreamFault {
    ghost use Rattle.irp_streams.specs.declared.reading.StreamFault.TheVariants.{NoMemory};

    ghost from_gives = { λ _ fault. fault ≡ NoMemory };

    fn from(_error: AllocError) -> StreamFault {
        StreamFault::NoMemory
    }
}

/// The first bytes of the input, at most so many; no more are taken from it. Each turn takes a byte or is the last, and
/// an interrupted read is a failed one.
///
/// # Errors
///
/// `Failed` where a read failed, and `NoMemory` where memory ran out. Then too at most so many bytes are taken from it.
pub fn read_up_to<R: Read>(
    alloc: Global,
    reader: &mut R,
    limit: usize,
) -> Result<Vec<u8>, StreamFault>
    ensures bound { IfOk result (λ read. vec_len read ≤ limit) }
    ensures bytes { IfOk result (λ read.
        IfSome (R.remaining reader.old) (λ input. read.items ≡ take limit input)) }
    ensures took { IfOk result (λ read.
        Consumes (R.remaining reader.old) (R.remaining reader.new) read.items) }
    ensures within { TakesAtMost limit (R.remaining reader.old) (R.remaining reader.new) }
{
    let mut bytes = Vec::new(alloc);
    let mut buffer = [0u8; PIECE];
    while bytes.len() < limit {
        let wanted = PIECE.min(limit - bytes.len());
        let piece = &mut buffer[..wanted];
        let Ok(taken) = reader.read(piece) else {
            return Err(StreamFault::Failed);
        };
        if taken == 0 {
            return Ok(bytes);
        }
        if bytes.extend_from_slice(&piece[..taken]).is_err() {
            return Err(StreamFault::NoMemory);
        }
    }
    Ok(bytes)
}
