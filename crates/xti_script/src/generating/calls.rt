//! Calls, with the usual values of the fields that they don't name.

ghost use Rattle.std.specs.Prelude.{◌≡◌, ◌∷◌, [], ◌++◌, OnOk, IfOk};
ghost use Rattle.xti_script.specs.Generated.{line, opening, binding, listening, accepting, connecting, sending, sending_to, receiving, receiving_datagram};

use crate::generating::sizes::MOST_SENT;
use std::alloc::{AllocError, Global};
use xti_base::limits::{MOST_ADDRESS, MOST_CONNECT_DATA, MOST_OPTIONS};
use xti_base::{Octets, Prov, build_or_drop};
use xti_model::{Line, Name, NamedCall};

/// Appends a line.
pub(crate) fn put(lines: &mut Vec<Line>, worker: u32, call: NamedCall) -> Result<(), AllocError>
    ensures { OnOk result (lines.new.items ≡ lines.old.items ++ line worker call ∷ []) }
{
    lines.push(Line { worker, call })?;
    Ok(())
}

pub(crate) fn open(alloc: Global, name: &[u8], prov: Prov) -> Result<NamedCall, AllocError>
    ensures { IfOk result (λ call. call ≡ opening name.now prov) }
{
    Ok(NamedCall::TOpen {
        name: Name::copy_of(alloc, name)?,
        prov,
        nonblock: false,
    })
}

fn bind(alloc: Global, name: &[u8], addr: &[u8], qlen: u32) -> Result<NamedCall, AllocError>
    ensures { IfOk result (λ call. call ≡ binding name.now addr.now qlen) }
{
    Ok(build_or_drop!(NamedCall::TBind {
        qlen,
        amax: MOST_ADDRESS as u32;
        fd: Name::copy_of(alloc, name),
        addr: Octets::copy_of(alloc, addr),
    }))
}

/// Appends the lines of worker 0 that open an endpoint and bind it.
pub(crate) fn put_bound(
    lines: &mut Vec<Line>,
    prov: Prov,
    name: &[u8],
    addr: &[u8],
    qlen: u32,
) -> Result<(), AllocError>
    ensures { OnOk result (lines.new.items
        ≡ lines.old.items ++ line 0 (opening name.now prov) ∷ line 0 (binding name.now addr.now qlen) ∷ []) }
{
    let alloc = *lines.allocator();
    put(lines, 0, open(alloc, name, prov)?)?;
    put(lines, 0, bind(alloc, name, addr, qlen)?)
}

pub(crate) fn listen(alloc: Global, name: &[u8], seq: &[u8]) -> Result<NamedCall, AllocError>
    ensures { IfOk result (λ call. call ≡ listening name.now seq.now) }
{
    Ok(build_or_drop!(NamedCall::TListen {
        amax: MOST_ADDRESS as u32,
        omax: MOST_OPTIONS as u32,
        umax: MOST_CONNECT_DATA as u32;
        fd: Name::copy_of(alloc, name),
        name: Name::copy_of(alloc, seq),
    }))
}

pub(crate) fn accept(
    alloc: Global,
    name: &[u8],
    resfd: &[u8],
    seq: &[u8],
) -> Result<NamedCall, AllocError>
    ensures { IfOk result (λ call. call ≡ accepting name.now resfd.now seq.now) }
{
    Ok(build_or_drop!(NamedCall::TAccept {
        opt: Octets::new(alloc),
        udata: Octets::new(alloc);
        fd: Name::copy_of(alloc, name),
        resfd: Name::copy_of(alloc, resfd),
        seq: Name::copy_of(alloc, seq),
    }))
}

pub(crate) fn connect(alloc: Global, name: &[u8], addr: &[u8]) -> Result<NamedCall, AllocError>
    ensures { IfOk result (λ call. call ≡ connecting name.now addr.now) }
{
    Ok(build_or_drop!(NamedCall::TConnect {
        opt: Octets::new(alloc),
        udata: Octets::new(alloc),
        amax: MOST_ADDRESS as u32,
        omax: MOST_OPTIONS as u32,
        umax: MOST_CONNECT_DATA as u32;
        fd: Name::copy_of(alloc, name),
        addr: Octets::copy_of(alloc, addr),
    }))
}

pub(crate) fn send(alloc: Global, name: &[u8], bytes: Octets) -> Result<NamedCall, AllocError>
    ensures { IfOk result (λ call. call ≡ sending name.now bytes) }
{
    Ok(NamedCall::TSnd {
        fd: Name::copy_of(alloc, name)?,
        bytes,
        flags: 0,
    })
}

pub(crate) fn send_to(
    alloc: Global,
    name: &[u8],
    addr: &[u8],
    bytes: Octets,
) -> Result<NamedCall, AllocError>
    ensures { IfOk result (λ call. call ≡ sending_to name.now addr.now bytes) }
{
    Ok(NamedCall::TSndUData {
        fd: Name::copy_of(alloc, name)?,
        addr: Octets::copy_of(alloc, addr)?,
        opt: Octets::new(alloc),
        bytes,
    })
}

pub(crate) fn receive(alloc: Global, name: &[u8]) -> Result<NamedCall, AllocError>
    ensures { IfOk result (λ call. call ≡ receiving name.now) }
{
    Ok(NamedCall::TRcv {
        fd: Name::copy_of(alloc, name)?,
        max: MOST_SENT,
    })
}

pub(crate) fn receive_datagram(alloc: Global, name: &[u8]) -> Result<NamedCall, AllocError>
    ensures { IfOk result (λ call. call ≡ receiving_datagram name.now) }
{
    Ok(NamedCall::TRcvUData {
        fd: Name::copy_of(alloc, name)?,
        max: MOST_SENT,
        amax: MOST_ADDRESS as u32,
        omax: MOST_OPTIONS as u32,
    })
}
