//! t_sndrel and t_sndreldata.

ghost use Rattle.std.specs.Prelude.{◌≡◌, ◌≤◌, None, length, true, IfOk, IfSome, OnOk, OnErr};
ghost use Rattle.std.specs.List.{list_any};
ghost use Rattle.tpi_grammar.specs.declared.kind.Kind.TheVariants.{T_ORDREL_IND};
ghost use Rattle.tpi_prim.specs.Fields.{kind_in};
ghost use Rattle.xti_base.specs.Kinds.{same_state};
ghost use Rattle.xti_base.specs.declared.limits.TheConstants.{MOST_CONNECT_DATA};
ghost use Rattle.xti_model.specs.Events.{sending};
ghost use Rattle.xti_end.specs.Frames.{release_in};
ghost use Rattle.xti_end.specs.Held as Held;
ghost use Rattle.xti_end.specs.Taken.{answered};
ghost use Rattle.xti_lent.specs.Answers.{Changed, IsSureBy, MakesBy, StaysBlocked};
ghost use Rattle.xti_lent.specs.Fit.{AtOwnPlaces, IsFit, SameCells};
ghost use Rattle.xti_lent.specs.Lending.{number_of};
ghost use Rattle.xti_lent.specs.Lends.{IsHeld};
ghost use Rattle.xti_data.specs.Reach.{CanReach};
ghost use Rattle.xti_data.specs.Sends.{release_refusal, releasing, telling};

use crate::writes::{release, tell_release};
use std::alloc::{AllocError, Global};
use tpi_prim::{Frame, encode_ordrel_ind};
use xti_base::{Errno, Event, Fd, State};
use xti_end::{Endpoint, has_release, release_limit};
use xti_lent::{Lent, done, refused, unless_too_big};
use xti_model::{Applied, Providers, Reply};

/// Whether data are sent in the state.
pub(crate) fn is_sending(state: State) -> bool
    ensures { result ≡ list_any (same_state state) sending }
{
    match state {
        State::T_DATAXFER | State::T_INREL => true,
        State::T_UNINIT
        | State::T_UNBND
        | State::T_IDLE
        | State::T_OUTCON
        | State::T_INCON
        | State::T_OUTREL => false,
    }
}

/// What refuses a release of the open endpoint with these data.
fn refusal(p: &Providers, e: &Endpoint, udata: &[u8]) -> Option<Reply>
    requires { Held.is_open e.now ≡ true }
    ensures refusal { answered result ≡ release_refusal p.now udata.now e.now }
    ensures data { result ≡ None → length udata.now ≤ MOST_CONNECT_DATA }
{
    let errno = if !has_release(e.prov()) {
        Errno::TNOTSUPPORT
    } else if !is_sending(e.state()) {
        Errno::TOUTSTATE
    } else if udata.len() > release_limit(p, e.prov()) {
        Errno::TBADDATA
    } else if e.has_disconnect() {
        let event = Event::T_DISCONNECT;
        return Some(Reply::Look { event });
    } else {
        return None;
    };
    Some(Reply::Refused { errno })
}

/// The T_ORDREL_IND with these data.
fn indication(alloc: Global, udata: &[u8]) -> Result<Frame, AllocError>
    requires { length udata.now ≤ MOST_CONNECT_DATA }
    ensures kind { IfOk result (λ frame. kind_in frame ≡ T_ORDREL_IND) }
    ensures release { IfOk result (λ frame. release_in frame ≡ udata.now) }
{
    unless_too_big(encode_ordrel_ind(alloc, udata))
}

/// The linked peer is told of the release and of the data that go with it, and the sender sends no more; where memory runs out all is
/// as before.
fn tell(lent: &mut Lent, fd: Fd, peer: Option<Fd>, udata: &[u8]) -> Result<(), AllocError>
    requires own { AtOwnPlaces lent.old }
    requires sender { IsHeld lent.old fd.0 }
    requires peer { IfSome peer (λ peer. IsHeld lent.old peer.0) }
    requires data { length udata.now ≤ MOST_CONNECT_DATA }
    ensures ok { OnOk result (Changed (telling fd.0 (number_of peer) udata.now) lent.old lent.new) }
    ensures kept { SameCells lent.old lent.new }
    ensures err { OnErr result (lent.new ≡ lent.old) }
{
    if let Some(peer) = peer {
        let frame = indication(lent.alloc(), udata)?;
        tell_release(lent, peer, fd, frame);
    }
    release(lent, fd);
    Ok(())
}

/// t_sndreldata; with no data, t_sndrel.
pub(crate) fn sndrel(lent: &mut Lent, fd: Fd, udata: &[u8]) -> Result<Applied, AllocError>
    requires fit { IsFit lent.old }
    requires reach { CanReach lent.old fd.0 }
    ensures step { MakesBy (releasing lent.old fd.0 udata.now) lent.old lent.new result }
    ensures still { IfOk result (StaysBlocked lent.old lent.new) }
    ensures kept { SameCells lent.old lent.new }
    ensures err { OnErr result (lent.new ≡ lent.old) }
    ensures sure { IsSureBy (releasing lent.old fd.0 udata.now) result }
{
    let Some(e) = lent.open_endpoint(fd) else {
        return Ok(refused(lent, fd, Errno::TBADF));
    };
    if let Some(reply) = refusal(lent.providers(), e, udata) {
        return Ok(done(lent, fd, reply));
    }
    let peer = e.peer();
    tell(lent, fd, peer, udata)?;
    Ok(done(lent, fd, Reply::Plain))
}
