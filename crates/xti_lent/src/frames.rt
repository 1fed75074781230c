//! What is common to the frames that a step makes of lent cells.

ghost use Rattle.std.specs.Prelude.{◌≡◌, Ok, IfOk, IsErrOf, true};
ghost use Rattle.xti_model.specs.Endpoint.{address_of};
ghost use Rattle.xti_end.specs.Held as Held;

use std::alloc::AllocError;
use tpi_prim::{EncodeFail, Frame};
use xti_end::Endpoint;

/// The frame of a primitive that isn't too big.
pub fn unless_too_big(encoded: Result<Frame, EncodeFail>) -> Result<Frame, AllocError>
    requires { IsErrOf encoded EncodeFail.TooBig → ⊥ }
    ensures { IfOk result (λ frame. encoded ≡ Ok frame) }
{
    match encoded {
        Ok(frame) => Ok(frame),
        Err(EncodeFail::OutOfMemory) => Err(AllocError),
        Err(EncodeFail::TooBig) => unreachable!(),
    }
}

/// The address of an open endpoint; empty where there is none.
pub fn address_of(e: &Endpoint) -> &[u8]
    requires { Held.is_open e.now ≡ true }
    ensures { result.now ≡ address_of (Held.parts e.now) }
{
    match e.address() {
        Some(address) => address.as_slice(),
        None => &[],
    }
}
