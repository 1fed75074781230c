//! Sources of bytes.

ghost use Rattle.std.specs.Prelude.{◌≡◌, ◌<◌, ◌≤◌, ℕ, List, Option, ◌+◌, length, IfOk, OnErr, IsErrOf};
ghost use Rattle.xti_io.specs.Faults.{HasCause, Rose};
ghost use Rattle.xti_io.specs.Source.{Reads, GivesAll, GivesAny, GivesOver, GivesUpTo};

use std::alloc::Global;
use thiserror::Error;
use xti_base::Octets;

/// A read or a write failed.
#[derive(Clone, Copy, Debug, PartialEq, Eq, Error)]
#[error("a read or a write failed")]
pub struct Failed;

/// A source of bytes, which counts its faults.
pub trait Source {
    /// The bytes that are left, where the source tells them.
    ghost left: { Self → Option (List ℕ) };

    /// How many faults there were, up to 2 ^ 64 - 1.
    ghost faults: { Self → ℕ };

    /// Fills the start of the buffer, which isn't empty, with the next bytes, and answers how many; 0 means the end.
    fn read(&mut self, buf: &mut [u8]) -> Result<usize, Failed>
        requires { 0 < length buf.old }
        ensures bytes { Reads (left self.old) (left self.new) result buf.new }
        ensures cause { HasCause (faults self.old) (faults self.new) result };
}

/// Why the input was not read to its end.
#[derive(Clone, Copy, Debug, PartialEq, Eq, Error)]
pub enum ReadEnd {
    /// A read failed.
    #[error("a read failed")]
    Fault,
    /// There are more bytes than the limit allows.
    #[error("the input is longer than the limit")]
    TooLong,
    /// Memory is out.
    #[error("out of memory")]
    OutOfMemory,
}

// How many bytes are read at a time.
const PIECE: usize = 16384;

/// Reads all bytes up to the end, at most `limit`.
///
/// Takes at most `limit + 1` bytes from the source, also where it fails.
pub fn read_all<R: Source>(alloc: Global, src: &mut R, limit: usize) -> Result<Octets, ReadEnd>
    ensures all { IfOk result (λ all. GivesAll (R.left src.old) (R.left src.new) all) }
    ensures bound { IfOk result (λ all. length all ≤ limit) }
    ensures too_long { IsErrOf result ReadEnd.TooLong → GivesOver R.left limit src.old src.new }
    ensures memory { IsErrOf result ReadEnd.OutOfMemory → GivesAny R.left src.old src.new }
    ensures fault { IsErrOf result ReadEnd.Fault → Rose (R.faults src.old) (R.faults src.new) }
    ensures front { OnErr result (GivesUpTo (limit + 1) (R.left src.old) (R.left src.new)) }
    ensures later { R.faults src.old ≤ R.faults src.new }
{
    let mut all = Vec::new(alloc);
    let mut buf = [0u8; PIECE];
    while all.len() <= limit {
        let want = (limit - all.len()).min(PIECE - 1) + 1;
        let piece = &mut buf[..want];
        match src.read(piece) {
            Err(_) => return Err(ReadEnd::Fault),
            Ok(0) => return Ok(Octets::from_vec(all)),
            Ok(count) => {
                if all.extend_from_slice(&piece[..count]).is_err() {
                    return Err(ReadEnd::OutOfMemory);
                }
            }
        }
    }
    Err(ReadEnd::TooLong)
}
