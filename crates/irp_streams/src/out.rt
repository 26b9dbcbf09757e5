//! Where a transcript goes. Source: this project's own rules.

ghost use Rattle.std.specs.Prelude.{◌≡◌, ◌<◌, ◌≤◌, ℕ, List, Option, length, take};
ghost use Rattle.std.specs.Prelude.{IfErr, IfOk, OnErr, OnOk};
ghost use Rattle.std.specs.Io.KnownBytes.{Appends, WriteAppends};
ghost use Rattle.irp_streams.specs.Out.{risen, counted};
ghost use Rattle.irp_streams.specs.Writing.{BreaksOff, Written};
ghost use Rattle.irp_streams.specs.declared.reading.StreamFault.TheVariants.{Failed as HasFailed};

use crate::reading::StreamFault;
use thiserror::Error;

/// A put that failed: the output took nothing.
#[derive(Clone, Copy, Debug, PartialEq, Eq, Error)]
#[error("the output failed")]
pub struct Failed;

/// An output that takes bytes in order and counts its failures.
pub trait Out {
    /// What went out, where it is known.
    ghost gone: { Self → Option (List ℕ) };

    /// How often a put failed, modulo 2^64. Taking nothing of a piece that isn't empty is a failure.
    ghost failures: { Self → ℕ };

    /// Takes a front of the piece and answers how many bytes it took, perhaps fewer than the piece has.
    /// On `Failed` it took nothing. Where the put fails the count of failures rises by one, and else it stays.
    fn put(&mut self, piece: &[u8]) -> Result<usize, Failed>
        ensures bound { IfOk result (λ taken. taken ≤ length piece.now) }
        ensures bytes { WriteAppends (gone self.old) (gone self.new) result piece.now }
        ensures count { failures self.new ≡ counted result piece.now (failures self.old) };
}

/// Puts all of the text, in as many puts as the output needs.
///
/// # Errors
///
/// The number of bytes that went out before a put failed: exactly those first bytes of the text went out, and the
/// count of failures rose by one. On `Ok` the count is unchanged.
pub fn put_all<O: Out>(out: &mut O, text: &[u8]) -> Result<(), usize>
    ensures ok { OnOk result (Appends (O.gone out.old) (O.gone out.new) text.now) }
    ensures calm { OnOk result (O.failures out.new ≡ O.failures out.old) }
    ensures short { IfErr result (λ done. done < length text.now) }
    ensures front { IfErr result (λ done.
        Appends (O.gone out.old) (O.gone out.new) (take done text.now)) }
    ensures rose { OnErr result (O.failures out.new ≡ risen (O.failures out.old)) }
{
    let mut done = 0;
    while done < text.len() {
        let Ok(taken) = out.put(&text[done..]) else {
            return Err(done);
        };
        if taken == 0 {
            return Err(done);
        }
        done += taken;
    }
    Ok(())
}

/// Sends these bytes.
///
/// # Errors
///
/// `Failed`, the one error, where the output failed, and exactly then its count of failures rose: a beginning of the
/// bytes went out, and not the whole.
pub fn send<O: Out>(output: &mut O, bytes: &[u8]) -> Result<(), StreamFault>
    ensures ok { OnOk result (Written bytes.now (O.gone output.old) (O.gone output.new)
        (O.failures output.old) (O.failures output.new)) }
    ensures err { IfErr result (BreaksOff bytes.now (O.gone output.old) (O.gone output.new)
        (O.failures output.old) (O.failures output.new)) }
    ensures fault { IfErr result (λ fault. fault ≡ HasFailed) }
{
    match put_all(output, bytes) {
        Ok(()) => Ok(()),
        Err(_) => Err(StreamFault::Failed),
    }
}
