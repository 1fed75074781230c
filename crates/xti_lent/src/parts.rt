//! The parts of a send.

ghost use Rattle.std.specs.Prelude.{◌≡◌, ◌^◌, ◌-◌, length, min};
ghost use Rattle.std.specs.List.{concat};

use xti_base::Octets;

/// How many bytes the parts have, up to the greatest number.
pub fn total(parts: &[Octets]) -> usize
    ensures { result ≡ min (length (concat parts.now)) (2 ^ 64 - 1) }
{
    let mut total = 0usize;
    for part in parts {
        total = total.saturating_add(part.as_slice().len());
    }
    total
}
