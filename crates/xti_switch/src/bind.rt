//! t_bind.

ghost use Rattle.std.specs.Prelude.{◌≡◌, true, is_some, IfOk, OnOk, OnErr};
ghost use Rattle.xti_model.specs.Switch.{chosen, has_listener};
ghost use Rattle.xti_model.specs.Calls.Bind as Bind;
ghost use Rattle.xti_end.specs.Held.{is_open, with_parts};
ghost use Rattle.xti_lent.specs.Answers.{Changed, IsSureBy, MakesBy, StaysBlocked};
ghost use Rattle.xti_lent.specs.Fit.{IsFit, SameCells};
ghost use Rattle.xti_switch.specs.Taken.{binding, IsBound, IsOpen};

use std::alloc::{AllocError, Global};
use xti_base::limits::{MOST_ADDRESS, MOST_QUEUE};
use xti_base::{Errno, Fd, Octets, Prov, State};
use xti_end::{Endpoint, has_datagrams, is_too_long, trimmed_copy};
use xti_lent::{Lent, done, overflow, refused};
use xti_model::{Applied, Reply};
use xti_registry::Registry;

pub(crate) fn bind(
    lent: &mut Lent,
    fd: Fd,
    addr: &[u8],
    qlen: u32,
    amax: u32,
) -> Result<Applied, AllocError>
    requires fit { IsFit lent.old }
    requires switch { is_some lent.old.registry ≡ true }
    ensures step { MakesBy (binding lent.old fd.0 addr.now qlen amax) lent.old lent.new result }
    ensures still { IfOk result (StaysBlocked lent.old lent.new) }
    ensures kept { SameCells lent.old lent.new }
    ensures err { OnErr result (lent.new ≡ lent.old) }
    ensures sure { IsSureBy (binding lent.old fd.0 addr.now qlen amax) result }
{
    let (prov, state) = match lent.open_endpoint(fd) {
        None => return Ok(refused(lent, fd, Errno::TBADF)),
        Some(e) => (e.prov(), e.state()),
    };
    if !state.is(State::T_UNBND) {
        return Ok(refused(lent, fd, Errno::TOUTSTATE));
    }
    if addr.len() > MOST_ADDRESS {
        return Ok(refused(lent, fd, Errno::TBADADDR));
    }
    if is_busy(lent.registry_ref(), prov, addr, qlen) {
        return Ok(refused(lent, fd, Errno::TADDRBUSY));
    }
    let address = chosen(lent.registry_ref(), lent.alloc(), prov, addr)?;
    let answer = bind_to(lent, fd, prov, address, queue(prov, qlen), amax)?;
    Ok(answer)
}

/// Whether the address can't be given.
fn is_busy(registry: &Registry, prov: Prov, addr: &[u8], qlen: u32) -> bool
    ensures { result ≡ Bind.is_busy registry.now.switch prov addr.now qlen }
{
    if has_datagrams(prov) {
        registry.bound(prov, addr, false).is_some()
    } else {
        qlen > 0 && has_listener(registry, prov, addr)
    }
}

/// Whether an endpoint with a queue is bound to the address.
fn has_listener(registry: &Registry, prov: Prov, addr: &[u8]) -> bool
    ensures { result ≡ has_listener registry.now.switch prov addr.now }
{
    registry.bound(prov, addr, true).is_some()
}

/// The queue length that is given.
fn queue(prov: Prov, qlen: u32) -> u32
    ensures { result ≡ Bind.queue prov qlen }
{
    if has_datagrams(prov) {
        0
    } else {
        qlen.min(MOST_QUEUE)
    }
}

/// A copy of the address, or the provider's choice where it is empty.
fn chosen(registry: &Registry, alloc: Global, prov: Prov, addr: &[u8]) -> Result<Octets, AllocError>
    ensures { IfOk result (λ address. address ≡ chosen registry.now.switch prov addr.now) }
{
    match addr {
        [] => registry.free_address(alloc, prov),
        [..] => Octets::copy_of(alloc, addr),
    }
}

/// Binds an endpoint to a free address.
fn bind_to(
    lent: &mut Lent,
    fd: Fd,
    prov: Prov,
    address: Octets,
    qlen: u32,
    amax: u32,
) -> Result<Applied, AllocError>
    requires fit { IsFit lent.old }
    requires switch { is_some lent.old.registry ≡ true }
    requires open { IsOpen lent.old fd.0 }
    ensures step { IfOk result (IsBound lent.old lent.new fd.0 prov address qlen amax) }
    ensures kept { SameCells lent.old lent.new }
    ensures err { OnErr result (lent.new ≡ lent.old) }
{
    if is_too_long(address.as_slice(), amax) {
        give(lent, fd, prov, address, qlen)?;
        return Ok(overflow(lent, fd));
    }
    let addr = or_drop!(
        trimmed_copy(lent.alloc(), address.as_slice(), amax),
        address
    );
    or_drop!(give(lent, fd, prov, address, qlen), addr);
    Ok(done(lent, fd, Reply::Bound { addr, qlen }))
}

/// Gives the open endpoint the address; where memory runs out all is as before.
fn give(lent: &mut Lent, fd: Fd, prov: Prov, address: Octets, qlen: u32) -> Result<(), AllocError>
    requires fit { IsFit lent.old }
    requires switch { is_some lent.old.registry ≡ true }
    requires open { IsOpen lent.old fd.0 }
    ensures ok { OnOk result (Changed (Bind.changes fd.0 prov address qlen) lent.old lent.new) }
    ensures kept { SameCells lent.old lent.new }
    ensures err { OnErr result (lent.new ≡ lent.old) }
{
    let known = or_drop!(address.copy(), address);
    or_drop!(lent.registry().reserve(), address, known);
    lent.registry().put(prov, known, fd, qlen > 0);
    let place = lent.place_of(fd);
    bind_endpoint(lent.endpoint(place), address, qlen);
    Ok(())
}

/// The open endpoint has the address.
fn bind_endpoint(e: &mut Endpoint, address: Octets, qlen: u32)
    requires { is_open e.old ≡ true }
    ensures { e.new ≡ with_parts (Bind.bound_to address qlen) e.old }
{
    e.set_state(State::T_IDLE);
    e.set_address(Some(address));
    e.set_qlen(qlen);
}
