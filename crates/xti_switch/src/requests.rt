//! What a request to connect makes of lent cells.

ghost use Rattle.std.specs.Prelude.{◌≡◌, ◌∷◌, [], true, OnOk, OnErr};
ghost use Rattle.tpi_grammar.specs.declared.kind.Kind.TheVariants.{T_CONN_IND, T_DISCON_IND};
ghost use Rattle.tpi_prim.specs.Fields.{kind_in};
ghost use Rattle.xti_model.specs.World.{at_endpoint};
ghost use Rattle.xti_model.specs.Calls.Connect.{asking};
ghost use Rattle.xti_end.specs.Held.{is_open, with_parts};
ghost use Rattle.xti_lent.specs.Answers.{Changed};
ghost use Rattle.xti_lent.specs.Fit.{AtOwnPlaces, SameCells};
ghost use Rattle.xti_switch.specs.Connects.{queuing, turning_away, Queues, TurnsAway};

use crate::frames;
use std::alloc::AllocError;
use tpi_prim::Frame;
use xti_base::{Fd, Seq, State, let_go};
use xti_end::Endpoint;
use xti_lent::Lent;

/// One more request is pending at the open endpoint, under this number; where memory runs out all is as before.
fn push_request(l: &mut Endpoint, caller: Fd, seq: Seq, frame: Frame) -> Result<(), AllocError>
    requires open { is_open l.old ≡ true }
    requires kind { kind_in frame ≡ T_CONN_IND }
    ensures cell { OnOk result (Queues caller.0 seq.0 frame l.old l.new) }
    ensures place { l.new.place ≡ l.old.place }
    ensures err { OnErr result (l.new ≡ l.old) }
{
    or_drop!(l.reserve_pending(), frame);
    l.push_pending(caller, frame);
    l.set_last_number(seq);
    Ok(())
}

/// One more disconnect waits at the open endpoint, which asked for a connection; where memory runs out all is as before.
fn push_refusal(e: &mut Endpoint, frame: Frame) -> Result<(), AllocError>
    requires open { is_open e.old ≡ true }
    requires kind { kind_in frame ≡ T_DISCON_IND }
    ensures cell { OnOk result (TurnsAway frame e.old e.new) }
    ensures place { e.new.place ≡ e.old.place }
    ensures err { OnErr result (e.new ≡ e.old) }
{
    or_drop!(e.reserve_disconnects(), frame);
    e.push_disconnect(frame);
    e.set_state(State::T_OUTCON);
    Ok(())
}

/// The open endpoint asks a listener, under this number.
fn ask(e: &mut Endpoint, listener: Fd, seq: Seq)
    requires { is_open e.old ≡ true }
    ensures { e.new ≡ with_parts (asking listener.0 seq.0) e.old }
{
    e.set_state(State::T_OUTCON);
    e.set_target(Some((listener, seq)));
}

/// A request is pending at the listener, where that is open, under this number; where memory runs out all is as before.
pub(crate) fn queue(
    lent: &mut Lent,
    listener: Fd,
    caller: Fd,
    seq: Seq,
    frame: Frame,
) -> Result<(), AllocError>
    requires own { AtOwnPlaces lent.old }
    requires kind { kind_in frame ≡ T_CONN_IND }
    ensures ok { OnOk result (Changed (queuing listener.0 caller.0 seq.0 frame) lent.old lent.new) }
    ensures kept { SameCells lent.old lent.new }
    ensures err { OnErr result (lent.new ≡ lent.old) }
{
    match lent.open_place(listener) {
        Some(place) => push_request(lent.endpoint(place), caller, seq, frame),
        None => {
            let_go(frame);
            Ok(())
        }
    }
}

/// The endpoint asks a listener, where it is open. Takes no memory.
pub(crate) fn set_target(lent: &mut Lent, fd: Fd, listener: Fd, seq: Seq)
    requires { AtOwnPlaces lent.old }
    ensures changed { Changed (at_endpoint fd.0 (asking listener.0 seq.0) ∷ []) lent.old lent.new }
    ensures kept { SameCells lent.old lent.new }
{
    if let Some(place) = lent.open_place(fd) {
        ask(lent.endpoint(place), listener, seq);
    }
}

/// A disconnect answers the request of the endpoint, where that is open; where memory runs out all is as before.
pub(crate) fn turn_away(lent: &mut Lent, fd: Fd, reason: u32) -> Result<(), AllocError>
    requires { AtOwnPlaces lent.old }
    ensures ok { OnOk result (Changed (turning_away fd.0 reason) lent.old lent.new) }
    ensures kept { SameCells lent.old lent.new }
    ensures err { OnErr result (lent.new ≡ lent.old) }
{
    let frame = frames::disconnect(lent.alloc(), reason, 0, &[])?;
    match lent.open_place(fd) {
        Some(place) => push_refusal(lent.endpoint(place), frame),
        None => {
            let_go(frame);
            Ok(())
        }
    }
}
