//! Lists of bytes.

ghost use Rattle.std.specs.Prelude.{◌≡◌, ◌≤◌, ◌++◌, ◌∷◌, [], ℕ, List, length, OnOk, OnErr, IfOk, IsOk};

use smallvec::SmallVec;
use std::alloc::{AllocError, Global};
use std::fmt;
use std::marker::Model;

/// How many bytes a list of bytes holds in the value itself, for which it takes no memory.
pub const BYTES_IN_VALUE: usize = 16;

/// A list of bytes: an address, options or data (XNS, netbuf). Up to 16 bytes stand in the value itself and take no memory.
pub struct Octets {
    bytes: SmallVec<u8, BYTES_IN_VALUE>,
}

// Written out, so that a crate that lets one go proves a call of this, and nothing of what is in it.
impl Drop for Octets {
    #[inline(always)]
    fn drop(self) {
        let Octets { bytes: _ } = self;
    }
}

impl Model for Octets {
    ghost Value = { List ℕ };

    ghost view = { λ o. o.bytes.items };
}

impl fmt::Debug for Octets {
    fn fmt<W: fmt::Write>(&self, f: &mut fmt::Formatter<W>) -> fmt::Result {
        write!(f, "{:?}", self.as_slice())
    }
}

impl Octets {
    /// No bytes. Takes no memory.
    pub fn new(alloc: Global) -> Octets
        ensures { result ≡ [] }
    {
        Octets {
            bytes: SmallVec::new(alloc),
        }
    }

    /// A copy of these bytes; of up to 16 bytes it takes no memory.
    pub fn copy_of(alloc: Global, bytes: &[u8]) -> Result<Octets, AllocError>
        ensures copy { IfOk result (λ o. o ≡ bytes.now) }
        ensures sure { length bytes.now ≤ 16 → IsOk result }
    {
        // Most options are empty.
        if bytes.is_empty() {
            return Ok(Octets::new(alloc));
        }
        Ok(Octets {
            bytes: SmallVec::from_slice(alloc, bytes)?,
        })
    }

    /// The list of these bytes. Takes no memory.
    pub fn from_vec(bytes: Vec<u8>) -> Octets
        ensures { result ≡ bytes.items }
    {
        Octets {
            bytes: SmallVec::from_vec(bytes),
        }
    }

    /// The bytes, given back.
    pub fn into_vec(self) -> Result<Vec<u8>, AllocError>
        ensures { IfOk result (λ bytes. bytes.items ≡ self) }
    {
        let Octets { bytes } = self;
        Ok(bytes.into_vec()?)
    }

    /// The same bytes once more; up to 16 bytes take no memory.
    pub fn copy(&self) -> Result<Octets, AllocError>
        ensures copy { IfOk result (λ o. o ≡ self.now) }
        ensures sure { length self.now ≤ 16 → IsOk result }
    {
        Octets::copy_of(*self.bytes.allocator(), self.bytes.as_slice())
    }

    /// Adds a byte at the end; where memory runs out the bytes are as before.
    pub fn push(&mut self, b: u8) -> Result<(), AllocError>
        ensures ok { OnOk result (self.new ≡ self.old ++ b ∷ []) }
        ensures err { OnErr result (self.new ≡ self.old) }
    {
        self.bytes.push(b)?;
        Ok(())
    }

    /// The bytes in order. Takes no memory.
    pub fn as_slice(&self) -> &[u8]
        ensures { result.now ≡ self.now }
    {
        self.bytes.as_slice()
    }
}
