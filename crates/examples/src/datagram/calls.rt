//! The calls of the example as values: each is what a C program hands to the function of XTI.

ghost use Rattle.std.specs.Prelude.{◌≡◌, [], true, IfOk};
ghost use Rattle.xti_base.specs.declared.kinds.Prov.TheVariants.{Ticlts};
ghost use Rattle.xti_model.specs.declared.call.Call.TheVariants as call;

use std::alloc::{AllocError, Global};
use xti_base::{Fd, Octets, Prov};
use xti_model::Call;

/// t_open of the provider of datagrams, with O_NONBLOCK.
pub fn open() -> Call
    ensures { result ≡ call.TOpen Ticlts true }
{
    Call::TOpen {
        prov: Prov::Ticlts,
        nonblock: true,
    }
}

/// t_bind to an address, of which the caller takes up to 64 bytes back.
pub fn bind(alloc: Global, fd: Fd, address: &[u8]) -> Result<Call, AllocError>
    ensures { IfOk result (λ c. c ≡ call.TBind fd address.now 0 64) }
{
    Ok(Call::TBind {
        fd,
        addr: Octets::copy_of(alloc, address)?,
        qlen: 0,
        amax: 64,
    })
}

/// t_sndudata of these bytes to an address, without options.
pub fn send(alloc: Global, fd: Fd, address: &[u8], bytes: &[u8]) -> Result<Call, AllocError>
    ensures { IfOk result (λ c. c ≡ call.TSndUData fd address.now [] bytes.now) }
{
    Ok(Call::TSndUData {
        fd,
        addr: Octets::copy_of(alloc, address)?,
        opt: Octets::new(alloc),
        bytes: Octets::copy_of(alloc, bytes)?,
    })
}

/// t_rcvudata of up to 65,536 bytes, with an address of up to 64 bytes and options of up to 256.
pub fn receive(fd: Fd) -> Call
    ensures { result ≡ call.TRcvUData fd 65536 64 256 }
{
    Call::TRcvUData {
        fd,
        max: 65536,
        amax: 64,
        omax: 256,
    }
}
