//! Any writer as an output. Source: this project's own rules.

ghost use Rattle.std.specs.Prelude.{◌≡◌};

use crate::out::{Failed, Out};
use std::io::Write;

/// A writer, and how often it failed, modulo 2^64. What went out is what std knows of the writer: all the bytes of a
/// vector, and nothing of a standard stream.
#[derive(Drop)]
pub struct WriterOut<W> {
    writer: W,
    failures: u64,
}

impl<W: Write> WriterOut<W> {
    /// An output to this writer, with no failure so far. It writes nothing yet.
    pub fn new(writer: W) -> WriterOut<W>
        ensures gone { ⟦<WriterOut<W> as Out>⟧.gone result ≡ W.contents writer }
        ensures calm { ⟦<WriterOut<W> as Out>⟧.failures result ≡ 0 }
    {
        WriterOut {
            writer,
            failures: 0,
        }
    }

    /// The writer, as the puts left it: what went out has gone to it. The count of failures is given up.
    pub fn into_writer(self) -> W
        ensures gone { W.contents result ≡ ⟦<WriterOut<W> as Out>⟧.gone self }
    {
        self.writer
    }
}

impl<W: Write> Out for WriterOut<W> {
    ghost gone = { λ out. W.contents out.writer };

    ghost failures = { λ out. out.failures };

    fn put(&mut self, piece: &[u8]) -> Result<usize, Failed> {
        match self.writer.write(piece) {
            Ok(taken) => {
                if taken == 0 && !piece.is_empty() {
                    self.failures = self.failures.wrapping_add(1);
                }
                Ok(taken)
            }
            Err(_) => {
                self.failures = self.failures.wrapping_add(1);
                Err(Failed)
            }
        }
    }
}
