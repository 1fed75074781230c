//! An address that takes no memory.

ghost use Rattle.std.specs.Prelude.{◌≤◌};
ghost use Rattle.xti_base.specs.declared.limits.TheConstants.{MOST_ADDRESS};

use std::fmt;
use xti_base::limits::MOST_ADDRESS;

/// An address of at most `MOST_ADDRESS` bytes, held in the value itself.
#[derive(Clone, Copy, Drop)]
pub struct Spot {
    len: u32,
    bytes: [u8; MOST_ADDRESS],
    ghost fits: { len ≤ MOST_ADDRESS },
}

impl fmt::Debug for Spot {
    fn fmt<W: fmt::Write>(&self, f: &mut fmt::Formatter<W>) -> fmt::Result {
        write!(f, "{:?}", self.as_slice())
    }
}

impl Spot {
    ghost use Rattle.std.specs.Prelude.{◌≡◌};
    ghost use Rattle.xti_model.specs.Spot.{spot_bytes, held_of};

    /// The address; no bytes where it has more than `MOST_ADDRESS`.
    pub fn of(address: &[u8]) -> Spot
        ensures { spot_bytes result ≡ held_of address.now }
    {
        let mut bytes = [0; MOST_ADDRESS];
        if address.len() > MOST_ADDRESS {
            return Spot { len: 0, bytes };
        }
        bytes[..address.len()].copy_from_slice(address);
        Spot {
            len: address.len() as u32,
            bytes,
        }
    }

    /// The bytes in order.
    pub fn as_slice(&self) -> &[u8]
        ensures { result.now ≡ spot_bytes self.now }
    {
        &self.bytes[..self.len as usize]
    }
}
