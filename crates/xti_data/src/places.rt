//! What a send makes of one place.

ghost use Rattle.std.specs.Prelude.{◌≡◌, ◌&&◌, true, IfSome, OnOk, OnErr};
ghost use Rattle.tpi_grammar.specs.declared.kind.Kind.TheVariants.{T_ORDREL_IND};
ghost use Rattle.tpi_prim.specs.Fields.{kind_in};
ghost use Rattle.tpi_prim.specs.Indication.{kind_for};
ghost use Rattle.xti_model.specs.Calls.Release as Release;
ghost use Rattle.xti_model.specs.Calls.Send as Send;
ghost use Rattle.xti_model.specs.Links.{names};
ghost use Rattle.xti_end.specs.Frames.{release_in};
ghost use Rattle.xti_end.specs.Held.{is_open, is_open_as, parts, peer_at, with_parts};
ghost use Rattle.xti_lent.specs.Lends.{ChangesAt, IsPlaceOf};
ghost use Rattle.xti_data.specs.Portions.{counted, open_in, IsWithin, TakesData};
ghost use Rattle.xti_data.specs.Sends.{released_by};

use crate::limits::count_more;
use crate::portions::Portion;
use std::alloc::AllocError;
use tpi_prim::Frame;
use xti_base::{Fd, State};
use xti_end::Endpoint;
use xti_model::Providers;

/// Whether the endpoint with this descriptor is open at the place, and names `from` as its peer.
fn names(at: &Endpoint, p: &Providers, fd: Fd, from: Fd) -> bool
    requires { IsPlaceOf p.now fd.0 at.now }
    ensures { result ≡ (is_open_as p.now fd.0 at.now && names from.0 (peer_at at.now.body)) }
{
    at.is(p, fd)
        && match at.peer() {
            Some(peer) => peer.0 == from.0,
            None => false,
        }
}

/// The endpoint with this descriptor is told of a release and of its data, where it is open and names `from` as its peer. Takes no
/// memory.
pub(crate) fn tell_release(at: &mut Endpoint, p: &Providers, fd: Fd, from: Fd, frame: Frame)
    requires place { IsPlaceOf p.now fd.0 at.old }
    requires kind { kind_in frame ≡ T_ORDREL_IND }
    ensures cell { ChangesAt p.now fd.0 (released_by from.0 (release_in frame)) at.old at.new }
    ensures place { at.new.place ≡ at.old.place }
{
    if names(at, p, fd, from) {
        at.set_release(frame);
    }
}

/// The open endpoint sends no more; where the other side doesn't either, nothing of the connection is left. Takes no memory.
fn end_sending(e: &mut Endpoint)
    requires { is_open e.old ≡ true }
    ensures { e.new ≡ with_parts Release.after_send e.old }
{
    if e.state().is(State::T_DATAXFER) {
        e.set_state(State::T_OUTREL);
    } else {
        e.reset();
        e.set_state(State::T_IDLE);
    }
}

/// The endpoint with this descriptor sends no more, where it is open. Takes no memory.
pub(crate) fn release(at: &mut Endpoint, p: &Providers, fd: Fd)
    requires { IsPlaceOf p.now fd.0 at.old }
    ensures cell { ChangesAt p.now fd.0 Release.after_send at.old at.new }
    ensures place { at.new.place ≡ at.old.place }
{
    if at.is(p, fd) {
        end_sending(at);
    }
}

/// Data wait at the endpoint with this descriptor, where it is open and names `from` as its peer; where memory runs out all is as
/// before.
pub(crate) fn push_data(
    at: &mut Endpoint,
    p: &Providers,
    fd: Fd,
    from: Fd,
    expedited: bool,
    frame: Frame,
) -> Result<(), AllocError>
    requires place { IsPlaceOf p.now fd.0 at.old }
    requires kind { kind_in frame ≡ kind_for expedited }
    ensures cell { OnOk result (TakesData p.now fd.0 from.0 expedited frame at.old at.new) }
    ensures place { at.new.place ≡ at.old.place }
    ensures err { OnErr result (at.new ≡ at.old) }
{
    if !names(at, p, fd, from) {
        return Ok(());
    }
    if expedited {
        at.reserve_expedited()?;
        at.push_expedited(frame);
    } else {
        at.reserve_normal()?;
        at.push_normal(frame);
    }
    Ok(())
}

/// The open endpoint counts what it sent, and waits to send no more. Takes no memory.
fn count(e: &mut Endpoint, p: &Providers, portion: Portion)
    requires open { is_open e.old ≡ true }
    requires within { IsWithin p.now portion (parts e.old) }
    ensures { e.new ≡ with_parts (counted p.now portion) e.old }
{
    let bytes = count_more(p, e, portion.expedited, portion.ends, portion.count);
    if portion.expedited {
        e.set_flow_expedited(false);
        e.set_unfinished_expedited(bytes);
    } else {
        e.set_flow_normal(false);
        e.set_unfinished_normal(bytes);
    }
}

/// The endpoint with this descriptor counts what it sent, where it is open. Takes no memory.
pub(crate) fn count_sent(at: &mut Endpoint, p: &Providers, fd: Fd, portion: Portion)
    requires place { IsPlaceOf p.now fd.0 at.old }
    requires within { IfSome (open_in p.now fd.0 at.old) (IsWithin p.now portion) }
    ensures cell { ChangesAt p.now fd.0 (counted p.now portion) at.old at.new }
    ensures place { at.new.place ≡ at.old.place }
{
    if at.is(p, fd) {
        count(at, p, portion);
    }
}

/// The endpoint with this descriptor waits to send data of the kind, where it is open. Takes no memory.
pub(crate) fn mark_flow(at: &mut Endpoint, p: &Providers, fd: Fd, expedited: bool)
    requires { IsPlaceOf p.now fd.0 at.old }
    ensures cell { ChangesAt p.now fd.0 (Send.mark_flow expedited true) at.old at.new }
    ensures place { at.new.place ≡ at.old.place }
{
    if !at.is(p, fd) {
        return;
    }
    if expedited {
        at.set_flow_expedited(true);
    } else {
        at.set_flow_normal(true);
    }
}
