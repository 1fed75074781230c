//! Names in scripts.

ghost use Rattle.std.specs.Prelude.{◌≡◌, ◌≤◌, length, IfOk, IsOk};

use std::alloc::{AllocError, Global};
use std::marker::Model;
use xti_base::Octets;

/// How many bytes a name holds in the value itself.
const INLINE: usize = 14;

/// The bytes of a name, where they stand.
#[derive(Drop)]
enum Text {
    Short { len: u8, bytes: [u8; 14] },
    Long(Box<Octets>),
}

/// A short text that stands for a descriptor or a sequence number. Up to 14 bytes stand in the value itself and take no memory.
#[derive(Drop)]
pub struct Name {
    text: Text,
}

impl Model for Name {
    ghost use Rattle.std.specs.Prelude.{ℕ, List};
    ghost use Rattle.xti_model.specs.Names.{text_bytes, fits};

    ghost Value = { List ℕ };

    ghost view = { λ n. text_bytes n.text };

    ghost invariant = { λ n. fits n.text };
}

impl Name {
    /// A copy of these bytes; of up to 14 bytes it takes no memory.
    pub fn copy_of(alloc: Global, bytes: &[u8]) -> Result<Name, AllocError>
        ensures copy { IfOk result (λ n. n ≡ bytes.now) }
        ensures sure { length bytes.now ≤ 14 → IsOk result }
    {
        if bytes.len() > INLINE {
            let long = Box::new(alloc, Octets::copy_of(alloc, bytes)?)?;
            return Ok(Name {
                text: Text::Long(long),
            });
        }
        let mut short = [0; 14];
        short[..bytes.len()].copy_from_slice(bytes);
        Ok(Name {
            text: Text::Short {
                len: bytes.len() as u8,
                bytes: short,
            },
        })
    }

    /// The bytes in order. Takes no memory.
    pub fn as_slice(&self) -> &[u8]
        ensures { result.now ≡ self.now }
    {
        match &self.text {
            Text::Short { len, bytes } => &bytes[..*len as usize],
            Text::Long(bytes) => bytes.as_slice(),
        }
    }
}
