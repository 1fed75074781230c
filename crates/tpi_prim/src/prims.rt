//! Lists of primitives.

ghost use Rattle.std.specs.Prelude.{◌≡◌, ◌++◌, ◌∷◌, ◌==◌, [], OnOk, OnErr, length, slice_get};
ghost use Rattle.std.specs.Option.{option_copied};

use crate::primitive::Prim;
use std::alloc::{AllocError, Global};
use std::marker::Model;

/// A list of primitives.
#[derive(Drop)]
pub struct Prims {
    members: Vec<Prim>,
}

impl Model for Prims {
    ghost use Rattle.std.specs.Prelude.{List};
    ghost use Rattle.tpi_prim.specs.declared.primitive.Prim.{Prim};

    ghost Value = { List Prim };

    ghost view = { λ l. l.members.items };
}

impl Prims {
    /// The empty list. Takes no memory.
    pub fn new(alloc: Global) -> Prims
        ensures { result ≡ [] }
    {
        Prims {
            members: Vec::new(alloc),
        }
    }

    /// Adds a primitive at the end; where memory runs out the list is as before.
    pub fn push(&mut self, prim: Prim) -> Result<(), AllocError>
        ensures ok { OnOk result (self.new ≡ self.old ++ prim ∷ []) }
        ensures err { OnErr result (self.new ≡ self.old) }
    {
        self.members.push(prim)?;
        Ok(())
    }

    /// The primitive at this place, from 0; `None` exactly past the end. Takes no memory.
    pub fn get(&self, place: usize) -> Option<&Prim>
        ensures { option_copied result ≡ slice_get self.now place }
    {
        self.members.get(place)
    }

    /// How many primitives there are.
    pub fn len(&self) -> usize
        ensures { result ≡ length self.now }
    {
        self.members.len()
    }

    /// Whether there are no primitives.
    pub fn is_empty(&self) -> bool
        ensures { result ≡ (length self.now == 0) }
    {
        self.members.is_empty()
    }
}
