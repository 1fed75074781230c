//! What refuses to ask for a connection, and to accept one.

ghost use Rattle.std.specs.Prelude.{◌≡◌, ◌&&◌, ◌∷◌, [], nat_lt, not, true};
ghost use Rattle.xti_model.specs.Endpoint.{ocnt};
ghost use Rattle.xti_model.specs.Events.{looks_connecting};
ghost use Rattle.xti_model.specs.Plan.{first, looks};
ghost use Rattle.xti_model.specs.Calls.Connect as Connect;
ghost use Rattle.xti_model.specs.Calls.Listen as Listen;
ghost use Rattle.xti_end.specs.Held.{is_open, parts};
ghost use Rattle.xti_end.specs.Taken.{answered};
ghost use Rattle.xti_switch.specs.Accepts.{is_at_bad_address, is_engaged, RefusesAccept};

use xti_base::{Errno, Event, Seq, State};
use xti_end::{Endpoint, has_connections, profile};
use xti_lent::{address_of, is_bad_address, is_bad_options, is_bad_udata};
use xti_model::{Providers, Reply};

/// TLOOK, where a disconnect or a request waits at the open endpoint.
fn looked(e: &Endpoint) -> Option<Reply>
    requires { is_open e.now ≡ true }
    ensures { answered result ≡ first (looks looks_connecting (parts e.now) ∷ []) }
{
    let event = if e.has_disconnect() {
        Event::T_DISCONNECT
    } else if e.has_pending() {
        Event::T_LISTEN
    } else {
        return None;
    };
    Some(Reply::Look { event })
}

/// What refuses the request of an open endpoint.
pub(crate) fn connect_refusal(e: &Endpoint, addr: &[u8], opt: &[u8], udata: &[u8]) -> Option<Reply>
    requires { is_open e.now ≡ true }
    ensures { answered result ≡ first (Connect.rows addr.now opt.now udata.now (parts e.now)) }
{
    let errno = if !has_connections(e.prov()) {
        Errno::TNOTSUPPORT
    } else if !e.state().is(State::T_IDLE) {
        Errno::TOUTSTATE
    } else if is_bad_address(addr) {
        Errno::TBADADDR
    } else if is_bad_options(opt) {
        Errno::TBADOPT
    } else if is_bad_udata(udata) {
        Errno::TBADDATA
    } else {
        return looked(e);
    };
    Some(Reply::Refused { errno })
}

/// Whether another endpoint than the listener isn't in a state to answer.
fn is_engaged(r: &Endpoint, is_same: bool) -> bool
    requires { is_open r.now ≡ true }
    ensures { result ≡ is_engaged is_same (parts r.now) }
{
    !is_same && !r.state().is(State::T_UNBND) && !r.state().is(State::T_IDLE)
}

/// Whether the listener itself can't answer, as other requests are outstanding there.
fn has_more_requests(e: &Endpoint, is_same: bool) -> bool
    requires { is_open e.now ≡ true }
    ensures { result ≡ (is_same && nat_lt 1 (ocnt (parts e.now))) }
{
    is_same && e.ocnt() > 1
}

/// Whether another endpoint than the listener has a queue of its own.
fn is_listener_too(r: &Endpoint, is_same: bool) -> bool
    requires { is_open r.now ≡ true }
    ensures { result ≡ (not is_same && nat_lt 0 (parts r.now).qlen) }
{
    !is_same && r.qlen() > 0
}

/// Whether the responding endpoint is bound to another address than the listener.
fn is_elsewhere(e: &Endpoint, r: &Endpoint) -> bool
    requires listener { is_open e.now ≡ true }
    requires responding { is_open r.now ≡ true }
    ensures { result ≡ Listen.is_elsewhere (parts e.now) (parts r.now).address }
{
    match r.address() {
        Some(address) => address.as_slice() != address_of(e),
        None => false,
    }
}

/// Whether the provider doesn't let the endpoint answer from its address.
fn is_at_bad_address(p: &Providers, e: &Endpoint, r: &Endpoint) -> bool
    requires listener { is_open e.now ≡ true }
    requires responding { is_open r.now ≡ true }
    ensures { result ≡ is_at_bad_address p.now (parts e.now) (parts r.now) }
{
    profile(p, e.prov()).same_addr && is_elsewhere(e, r)
}

/// Which request of a listener is answered, and whether by the listener itself.
#[derive(Clone, Copy)]
pub(crate) struct Answering {
    pub(crate) seq: Seq,
    pub(crate) is_same: bool,
}

/// What refuses to accept a request of the open endpoint `e` on the open endpoint `r`, which is the same one or another.
pub(crate) fn accept_refusal(
    p: &Providers,
    e: &Endpoint,
    r: &Endpoint,
    answering: Answering,
    opt: &[u8],
    udata: &[u8],
) -> Option<Reply>
    requires listener { is_open e.now ≡ true }
    requires responding { is_open r.now ≡ true }
    ensures { RefusesAccept p.now answering opt.now udata.now (parts e.now) (parts r.now) result }
{
    let errno = if !has_connections(e.prov()) {
        Errno::TNOTSUPPORT
    } else if !e.state().is(State::T_INCON) {
        Errno::TOUTSTATE
    } else if !e.prov().is(r.prov()) {
        Errno::TPROVMISMATCH
    } else if is_engaged(r, answering.is_same) {
        Errno::TOUTSTATE
    } else if e.request(answering.seq).is_none() {
        Errno::TBADSEQ
    } else if has_more_requests(e, answering.is_same) {
        Errno::TINDOUT
    } else if is_listener_too(r, answering.is_same) {
        Errno::TRESQLEN
    } else if is_at_bad_address(p, e, r) {
        Errno::TRESADDR
    } else if is_bad_options(opt) {
        Errno::TBADOPT
    } else if is_bad_udata(udata) {
        Errno::TBADDATA
    } else {
        return looked(e);
    };
    Some(Reply::Refused { errno })
}
