//! A list of bytes in room that was taken before.

ghost use Rattle.std.specs.Prelude.{◌≡◌, ◌≤◌, ◌+◌, ◌++◌, [], IfOk, length};

use crate::octets::Octets;
use std::alloc::{AllocError, Global};
use std::marker::Model;

/// Bytes, and spare room for more.
#[derive(Drop)]
pub struct Room {
    bytes: Vec<u8>,
}

impl Model for Room {
    ghost use Rattle.std.specs.Prelude.{◌-◌, vec_len, vec_capacity};
    ghost use Rattle.xti_base.specs.Room.{Roomy};

    ghost Value = { Roomy };

    ghost view = { λ r. record { bytes = r.bytes.items; spare = vec_capacity r.bytes - vec_len r.bytes } };
}

impl Room {
    /// No bytes, and spare room for `n`.
    pub fn new(alloc: Global, n: usize) -> Result<Room, AllocError>
        ensures bytes { IfOk result (λ r. r.bytes ≡ []) }
        ensures spare { IfOk result (λ r. r.spare ≡ n) }
    {
        Ok(Room {
            bytes: Vec::with_capacity(alloc, n)?,
        })
    }

    /// Adds these bytes at the end, for which there must be spare room. Takes no memory.
    pub fn append(&mut self, bytes: &[u8])
        requires { length bytes.now ≤ self.old.spare }
        ensures bytes { self.new.bytes ≡ self.old.bytes ++ bytes.now }
        ensures spare { self.old.spare ≤ self.new.spare + length bytes.now }
    {
        self.bytes.extend_from_slice(bytes).unwrap();
    }

    /// The bytes. Takes no memory.
    pub fn finish(self) -> Octets
        ensures { result ≡ self.bytes }
    {
        let Room { bytes } = self;
        Octets::from_vec(bytes)
    }
}
