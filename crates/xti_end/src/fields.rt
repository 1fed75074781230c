//! Fields that are returned to a caller who takes so many bytes.

ghost use Rattle.std.specs.Prelude.{◌≡◌, ◌≤◌, [], length, IfOk, IsOk, if◌then◌else◌, ◌==◌};
ghost use Rattle.xti_model.specs.Plan.{field, is_too_long, trimmed};

use std::alloc::{AllocError, Global};
use xti_base::Octets;

/// Whether the bytes are more than a caller takes who takes at most `max`, or none where that is 0.
pub fn is_too_long(bytes: &[u8], max: u32) -> bool
    ensures { result ≡ is_too_long (field bytes.now max) }
{
    max != 0 && bytes.len() > max as usize
}

/// A field as it is returned: no bytes to a caller who takes none.
pub fn trimmed(alloc: Global, bytes: Octets, max: u32) -> Octets
    ensures { result ≡ trimmed bytes max }
{
    if max == 0 { Octets::new(alloc) } else { bytes }
}

/// A copy of a field as it is returned; of up to 16 bytes it takes no memory.
pub fn trimmed_copy(alloc: Global, bytes: &[u8], max: u32) -> Result<Octets, AllocError>
    ensures copy { IfOk result (λ copy. copy ≡ trimmed bytes.now max) }
    ensures sure { length bytes.now ≤ 16 → IsOk result }
{
    if max == 0 {
        Ok(Octets::new(alloc))
    } else {
        Octets::copy_of(alloc, bytes)
    }
}
