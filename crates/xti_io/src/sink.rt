//! Sinks of bytes.

ghost use Rattle.std.specs.Prelude.{◌≡◌, ◌<◌, ◌≤◌, ℕ, List, Option, length, take, OnOk, OnErr, IfOk, IfErr};
ghost use Rattle.xti_io.specs.Faults.{HasCause};
ghost use Rattle.xti_io.specs.Sink.{Writes, Takes, TakesUpTo};

use crate::source::Failed;
use thiserror::Error;

/// A sink of bytes, which counts its faults.
pub trait Sink {
    /// The bytes that were taken, where the sink tells them.
    ghost held: { Self → Option (List ℕ) };

    /// How many faults there were, up to 2 ^ 64 - 1.
    ghost faults: { Self → ℕ };

    /// Takes bytes from the start of the piece, which isn't empty, and answers how many; at least one.
    fn write(&mut self, piece: &[u8]) -> Result<usize, Failed>
        requires { 0 < length piece.now }
        ensures bytes { Writes (held self.old) (held self.new) result piece.now }
        ensures cause { HasCause (faults self.old) (faults self.new) result };

    /// Is told why the input was refused, once the text that says where is taken: a line without its end. It is no part of
    /// what the sink holds. A sink that has nobody to tell passes over it.
    fn explain(&mut self, _reason: &[u8])
        ensures held { held self.new ≡ held self.old }
        ensures faults { faults self.new ≡ faults self.old }
    {}
}

/// Why not all was written.
#[derive(Clone, Copy, Debug, PartialEq, Eq, Error)]
pub enum WriteEnd {
    /// A write failed.
    #[error("a write failed after {written} bytes")]
    Fault {
        /// How many bytes were taken before.
        written: usize,
    },
}

/// Hands over all bytes in order. Takes no memory.
pub fn write_all<W: Sink>(sink: &mut W, text: &[u8]) -> Result<(), WriteEnd>
    ensures ok { OnOk result (Takes (W.held sink.old) (W.held sink.new) text.now) }
    ensures fault { IfErr result (λ e. TakesUpTo e (W.held sink.old) (W.held sink.new) text.now) }
    ensures cause { HasCause (W.faults sink.old) (W.faults sink.new) result }
{
    let mut written = 0usize;
    while written < text.len() {
        match sink.write(&text[written..]) {
            Err(_) => return Err(WriteEnd::Fault { written }),
            Ok(count) => written += count,
        }
    }
    Ok(())
}
