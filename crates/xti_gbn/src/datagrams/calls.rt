//! The calls of the carrier.

ghost use Rattle.std.specs.Prelude.{◌≡◌, IfOk};
ghost use Rattle.xti_gbn.specs.Calls.{opening_call, binding_call, sending_call, receiving_call};

use std::alloc::{AllocError, Global};
use xti_base::{Fd, Octets, Prov, build_or_drop};
use xti_model::Call;

/// The most bytes that are carried at once.
pub(crate) const MOST_CARRIED: u32 = 517;

/// t_open of the provider of datagrams, with O_NONBLOCK.
pub(crate) fn open() -> Call
    ensures { result ≡ opening_call }
{
    Call::TOpen {
        prov: Prov::Ticlts,
        nonblock: true,
    }
}

/// t_bind to an address.
pub(crate) fn bind(alloc: Global, fd: Fd, address: &[u8]) -> Result<Call, AllocError>
    ensures { IfOk result (λ call. call ≡ binding_call fd address.now) }
{
    Ok(Call::TBind {
        fd,
        addr: Octets::copy_of(alloc, address)?,
        qlen: 0,
        amax: 0,
    })
}

/// t_sndudata of these bytes to an address, without options.
pub(crate) fn send(alloc: Global, fd: Fd, address: &[u8], bytes: &[u8]) -> Result<Call, AllocError>
    ensures { IfOk result (λ call. call ≡ sending_call fd address.now bytes.now) }
{
    let opt = Octets::new(alloc);
    Ok(build_or_drop!(Call::TSndUData {
        fd, opt;
        addr: Octets::copy_of(alloc, address),
        bytes: Octets::copy_of(alloc, bytes),
    }))
}

/// t_rcvudata of a whole datagram, without its source and options.
pub(crate) fn receive(fd: Fd) -> Call
    ensures { result ≡ receiving_call fd }
{
    Call::TRcvUData {
        fd,
        max: MOST_CARRIED,
        amax: 0,
        omax: 0,
    }
}
