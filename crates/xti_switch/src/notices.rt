//! What endpoints are told of a connection or a request that ended.

ghost use Rattle.std.specs.Prelude.{◌≡◌, ◌≤◌, ◌∷◌, [], None, true, length, IfOk, IfSome, IsOk};
ghost use Rattle.tpi_grammar.specs.declared.kind.Kind.TheVariants.{T_DISCON_IND};
ghost use Rattle.tpi_prim.specs.Fields.{kind_in};
ghost use Rattle.xti_base.specs.declared.limits.TheConstants.{MOST_CONNECT_DATA};
ghost use Rattle.xti_end.specs.Frames.{disconnect_in};
ghost use Rattle.xti_model.specs.Endpoint.{is_target};
ghost use Rattle.xti_model.specs.Links.{names};
ghost use Rattle.xti_end.specs.Held.{is_open, parts};
ghost use Rattle.xti_lent.specs.Answers.{Changed};
ghost use Rattle.xti_lent.specs.Fit.{AtOwnPlaces, SameCells};
ghost use Rattle.xti_lent.specs.Lends.{IsHeld, IsPlaceOf};
ghost use Rattle.xti_switch.specs.Hearing.{told_number, is_told, telling, telling_any, HasRoom, Hears, IsNotice, IsNoticeOf, IsReady, KeepsReady, KeepsReadyAny, TakesRoom};

use crate::frames::disconnect;
use std::alloc::{AllocError, Global};
use tpi_prim::Frame;
use xti_base::{Fd, Seq, let_go};
use xti_end::Endpoint;
use xti_lent::Lent;
use xti_model::Providers;

/// What an endpoint is told of a connection or a request that ended.
#[derive(Clone, Copy)]
pub(crate) enum News {
    /// The endpoint with this descriptor ended the connection with it.
    Broken { by: Fd },
    /// The caller of the request with this number took it back.
    TakenBack { number: Seq },
    /// This listener closed before it answered the request with this number.
    GivenUp { listener: Fd, number: Seq },
    /// The listener rejected its request.
    Rejected,
}

/// News for the endpoint with this descriptor, and the T_DISCON_IND that tells them.
#[derive(Drop)]
pub(crate) struct Notice {
    to: Fd,
    news: News,
    frame: Frame,
}

/// The number that the disconnect tells.
fn told_number(news: News) -> u32
    ensures { result ≡ told_number news }
{
    match news {
        News::TakenBack { number } => number.0,
        News::Broken { .. } | News::GivenUp { .. } | News::Rejected => 0,
    }
}

/// The endpoint asks this listener, and its request has this number.
fn asks(at: &Endpoint, listener: Fd, number: Seq) -> bool
    requires { is_open at.now ≡ true }
    ensures { result ≡ is_target listener.0 number.0 (parts at.now).target }
{
    match (at.target(), at.target_seq()) {
        (Some(target), Some(seq)) => target.0 == listener.0 && seq.0 == number.0,
        _ => false,
    }
}

/// The endpoint's peer is this one.
fn is_peer(at: &Endpoint, fd: Fd) -> bool
    requires { is_open at.now ≡ true }
    ensures { result ≡ names fd.0 (parts at.now).peer }
{
    match at.peer() {
        Some(peer) => peer.0 == fd.0,
        None => false,
    }
}

/// The endpoint at a place hears the news, if it is open with this descriptor and they concern it. Takes no memory.
fn hear(at: &mut Endpoint, p: &Providers, fd: Fd, news: News, frame: Frame)
    requires place { IsPlaceOf p.now fd.0 at.old }
    requires room { is_told p.now fd.0 news at.old ≡ true → HasRoom at.old }
    requires kind { kind_in frame ≡ T_DISCON_IND }
    ensures { Hears p.now fd.0 news (disconnect_in frame) at.old at.new }
{
    if !at.is(p, fd) {
        let_go(frame);
        return;
    }
    match news {
        News::Broken { by } => {
            if is_peer(at, by) {
                at.reset();
                at.push_disconnect(frame);
            } else {
                let_go(frame);
            }
        }
        News::TakenBack { number } => {
            if at.is_pending(number) {
                at.drop_pending(number);
                let_go(frame);
            } else if at.caller(number).is_some() {
                at.push_disconnect(frame);
            } else {
                let_go(frame);
            }
        }
        News::GivenUp { listener, number } => {
            if asks(at, listener, number) {
                at.push_disconnect(frame);
                at.set_target(None);
            } else {
                let_go(frame);
            }
        }
        News::Rejected => {
            at.push_disconnect(frame);
            at.set_target(None);
        }
    }
}

/// The endpoint of the notice hears it. Takes no memory.
pub(crate) fn tell(lent: &mut Lent, notice: Notice)
    requires own { AtOwnPlaces lent.old }
    requires ready { IsReady lent.old notice }
    ensures cells { Changed (telling notice ∷ []) lent.old lent.new }
    ensures kept { SameCells lent.old lent.new }
    ensures registry { lent.new.registry ≡ lent.old.registry }
    ensures ready { KeepsReady lent.old lent.new notice }
{
    let p = *lent.providers();
    let Notice { to, news, frame } = notice;
    hear(lent.endpoint(p.place_of(to)), &p, to, news, frame);
}

/// A notice for an endpoint, and room for it there; where memory runs out the cells are as before.
pub(crate) fn prepare(
    lent: &mut Lent,
    to: Fd,
    news: News,
    reason: u32,
    udata: &[u8],
) -> Result<Notice, AllocError>
    requires there { IsHeld lent.old to.0 }
    requires udata { length udata.now ≤ MOST_CONNECT_DATA }
    ensures room { TakesRoom lent.old lent.new }
    ensures notice { IfOk result (IsNotice to news reason udata.now) }
    ensures ready { IfOk result (IsReady lent.new) }
{
    let frame = disconnect(lent.alloc(), reason, told_number(news), udata)?;
    let place = lent.place_of(to);
    or_drop!(lent.endpoint(place).reserve_disconnects(), frame);
    Ok(Notice { to, news, frame })
}

/// A notice and room for it where there are news; where memory runs out the cells are as before.
pub(crate) fn prepare_any(
    lent: &mut Lent,
    news: Option<(Fd, News)>,
    reason: u32,
    udata: &[u8],
) -> Result<Option<Notice>, AllocError>
    requires there { IfSome news (λ n. IsHeld lent.old n.0.0) }
    requires udata { length udata.now ≤ MOST_CONNECT_DATA }
    ensures room { TakesRoom lent.old lent.new }
    ensures notice { IfOk result (IsNoticeOf news reason udata.now) }
    ensures ready { IfOk result (λ n. IfSome n (IsReady lent.new)) }
    ensures sure { news ≡ None → IsOk result }
{
    match news {
        Some((to, news)) => Ok(Some(prepare(lent, to, news, reason, udata)?)),
        None => Ok(None),
    }
}

/// The endpoint of the notice, if there is one, hears it. Takes no memory.
pub(crate) fn tell_any(lent: &mut Lent, notice: Option<Notice>)
    requires own { AtOwnPlaces lent.old }
    requires ready { IfSome notice (IsReady lent.old) }
    ensures cells { Changed (telling_any notice) lent.old lent.new }
    ensures kept { SameCells lent.old lent.new }
    ensures registry { lent.new.registry ≡ lent.old.registry }
    ensures ready { KeepsReadyAny lent.old lent.new notice }
{
    if let Some(notice) = notice {
        tell(lent, notice);
    }
}
