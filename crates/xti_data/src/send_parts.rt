//! The parts of a vector send.

ghost use Rattle.std.specs.Prelude.{◌≡◌, ◌++◌, ◌∷◌, [], OnOk, OnErr};

use std::alloc::{AllocError, Global};
use std::fmt;
use std::marker::Model;
use xti_base::{Octets, Parts};

/// The parts that a t_sndv sends joined, added piece by piece. Contracts see the list of the parts.
#[derive(Drop)]
pub struct SendParts {
    alloc: Global,
    parts: Parts,
}

impl Model for SendParts {
    ghost use Rattle.std.specs.Prelude.{ℕ, List};

    ghost Value = { List (List ℕ) };

    ghost view = { λ g. g.parts };
}

impl fmt::Debug for SendParts {
    fn fmt<W: fmt::Write>(&self, f: &mut fmt::Formatter<W>) -> fmt::Result {
        write!(f, "{:?}", self.parts)
    }
}

impl SendParts {
    /// No parts. Takes no memory.
    pub fn new(alloc: Global) -> SendParts
        ensures { result ≡ [] }
    {
        SendParts {
            alloc,
            parts: Parts::new(alloc),
        }
    }

    /// Adds a copy of the bytes as one more part; where memory runs out the parts are as before.
    pub fn add(&mut self, piece: &[u8]) -> Result<(), AllocError>
        ensures ok { OnOk result (self.new ≡ self.old ++ piece.now ∷ []) }
        ensures err { OnErr result (self.new ≡ self.old) }
    {
        let part = Octets::copy_of(self.alloc, piece)?;
        self.parts.push(part)
    }

    /// The parts in their order.
    pub fn parts(&self) -> &Parts
        ensures { result.now ≡ self.now }
    {
        &self.parts
    }
}
