//! The names of errors, and what the system sets.

ghost use Rattle.std.specs.Prelude.{◌≡◌, codes};
ghost use Rattle.xti_base.specs.Errno.{IsErrnoNumber};
ghost use Rattle.xti_base.specs.Words.{IsNameOf, sysconf};

use crate::Errno;
use crate::limits::MOST_PARTS;

/// The name of the parameter T_IOV_MAX.
const IOV_MAX: u32 = 0;

/// The name of the error with this number (XNS, t_strerror), and `unknown` outside 1 to 29. Takes no memory.
pub fn t_strerror(n: u32) -> &'static str
    ensures name { IsErrnoNumber n → IsNameOf n result.now }
    ensures unknown { (IsErrnoNumber n → ⊥) → result.now ≡ codes "unknown" }
{
    match Errno::of_number(n) {
        Some(errno) => errno.name(),
        None => "unknown",
    }
}

/// The value of a parameter (XNS, t_sysconf): the most parts of a vector for 0, which stands for T_IOV_MAX, and TBADFLAG for
/// every other name. Takes no memory.
pub fn t_sysconf(name: u32) -> Result<u32, Errno>
    ensures { result ≡ sysconf name }
{
    if name == IOV_MAX {
        Ok(MOST_PARTS as u32)
    } else {
        Err(Errno::TBADFLAG)
    }
}
