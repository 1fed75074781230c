//! Copies of several lists of bytes.

ghost use Rattle.std.specs.Prelude.{◌≡◌, IfOk};

use std::alloc::AllocError;
use xti_base::{Octets, let_go};

/// These two lists once more.
#[inline(always)]
pub(crate) fn copy_two(first: &Octets, second: &Octets) -> Result<(Octets, Octets), AllocError>
    ensures { IfOk result (λ copies. copies ≡ (first.now, second.now)) }
{
    let first = made!(first.copy());
    match second.copy() {
        Ok(second) => Ok((first, second)),
        Err(fail) => {
            let_go(first);
            Err(fail)
        }
    }
}

/// These three lists once more.
#[inline(always)]
pub(crate) fn copy_three(
    first: &Octets,
    second: &Octets,
    third: &Octets,
) -> Result<(Octets, Octets, Octets), AllocError>
    ensures { IfOk result (λ copies. copies ≡ (first.now, second.now, third.now)) }
{
    let (first, second) = made!(copy_two(first, second));
    match third.copy() {
        Ok(third) => Ok((first, second, third)),
        Err(fail) => {
            let_go(first);
            let_go(second);
            Err(fail)
        }
    }
}
