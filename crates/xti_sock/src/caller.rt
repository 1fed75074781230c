//! One who makes calls of XTI.

ghost use Rattle.std.specs.Prelude.{◌≡◌, true};
ghost use Rattle.std.specs.Thread.{IsSync};
ghost use Rattle.xti_sock.specs.Calling.{Calls};
ghost use Rattle.xti_sock.specs.Sights.{Sight, IsStanding};

use std::alloc::Global;
use std::sync::Wait;
use xti_model::{Call, Reply};

/// Why a call stops before its reply. The steps that were made stand in the history, and so many bytes are taken.
#[derive(Clone, Copy, Debug, PartialEq, Eq)]
pub enum CallEnd {
    /// Out of memory.
    OutOfMemory { taken: u32 },
    /// The call is blocked after so many entries of the history, and nobody can go on.
    Stalled { taken: u32, at: u64 },
}

/// One who makes calls of XTI, one after the other.
pub trait Caller {
    /// What contracts see of a caller.
    ghost sight: { Self → Sight };

    /// All steps of a call, where none is unfinished. `sync` says what the bound says, to those who implement it.
    fn call<R: Wait + Sync>(&mut self, rt: &R, alloc: Global, made: &Call) -> Result<Reply, CallEnd>
        requires free { (sight self.old).free ≡ true }
        requires sync { IsSync R.row }
        ensures made { Calls (sight self.old) made.now result (sight self.new) };

    /// Whether no call is unfinished. `standing` is true of every caller. Takes no memory.
    fn free(&self) -> bool
        ensures free { result ≡ (sight self.now).free }
        ensures standing { IsStanding (sight self.now) };
}
