//! Answers of socket calls that fail only where memory runs out.

ghost use Rattle.std.specs.Prelude.{◌≡◌, Err, IfErr, IsErr, MatchResult, Ok};
ghost use Rattle.xti_sock.specs.declared.fail.SockFail.TheVariants.{WouldBlock};
ghost use Rattle.xti_copy.specs.Going.{IsMemory, IsWaiting};

use std::alloc::AllocError;
use xti_sock::{CallEnd, SockFail};

/// The error of a socket call for which memory ran out.
pub(crate) fn out_of_memory(fail: SockFail) -> AllocError
    requires { IsMemory fail }
{
    match fail {
        SockFail::OutOfMemory | SockFail::Ended(CallEnd::OutOfMemory { .. }) => AllocError,
        _ => unreachable!(),
    }
}

/// What a socket call made, unless memory ran out.
pub(crate) fn made<T: Drop>(answer: Result<T, SockFail>) -> Result<T, AllocError>
    requires { IfErr answer IsMemory }
    ensures { MatchResult result (λ value. answer ≡ Ok value) (λ _. IsErr answer) }
{
    match answer {
        Ok(value) => Ok(value),
        Err(fail) => Err(out_of_memory(fail)),
    }
}

/// That a socket call would have to wait, unless memory ran out.
pub(crate) fn waiting(answer: Result<(), SockFail>) -> Result<(), AllocError>
    requires { IsWaiting answer }
    ensures { MatchResult result (λ _. answer ≡ Err WouldBlock) (λ _. IsErr answer) }
{
    match answer {
        Err(SockFail::WouldBlock) => Ok(()),
        Err(SockFail::OutOfMemory | SockFail::Ended(CallEnd::OutOfMemory { .. })) => Err(
            AllocError,
        ),
        _ => unreachable!(),
    }
}
