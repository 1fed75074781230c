//! t_snddis.

ghost use Rattle.std.specs.Prelude.{◌≡◌, ◌≤◌, ◌∷◌, [], Some, true, is_some, length, option_map, IfOk, IfSome, OnErr, OnOk};
ghost use Rattle.xti_base.specs.declared.limits.TheConstants.{MOST_CONNECT_DATA};
ghost use Rattle.xti_model.specs.Calls.Disconnect as Disconnect;
ghost use Rattle.xti_model.specs.Calls.Listen.{taken_out};
ghost use Rattle.xti_model.specs.Plan.{first};
ghost use Rattle.xti_model.specs.World.{at_endpoint};
ghost use Rattle.xti_end.specs.Held.{is_open, parts};
ghost use Rattle.xti_end.specs.Taken.{answered};
ghost use Rattle.xti_lent.specs.Answers.{Changed, IsSureBy, IsUnchanged, MakesBy, StaysBlocked};
ghost use Rattle.xti_lent.specs.Fit.{AtOwnPlaces, HasCellsOf, IsFit, SameCells};
ghost use Rattle.xti_lent.specs.Lending.{open_at};
ghost use Rattle.xti_lent.specs.Lends.{ChangesAt, IsHeld, IsPlaceOf};
ghost use Rattle.xti_switch.specs.Hearing.{CanBreak, KeepsRejections};
ghost use Rattle.xti_switch.specs.Disconnects.{asked, disconnecting, rejecting, EndsOwn};
ghost use Rattle.xti_switch.specs.Taken.{IsOpen};

use crate::breaking::break_off;
use crate::notices::{News, prepare, tell};
use std::alloc::AllocError;
use xti_base::limits::MOST_CONNECT_DATA;
use xti_base::reasons::{ABORTED, REJECTED};
use xti_base::{Errno, Event, Fd, Seq, State};
use xti_end::{Endpoint, has_connections, is_connected_or_asking};
use xti_lent::{Lent, done, refused};
use xti_model::{Applied, Call, Providers, Reply};

/// What refuses the disconnect of an open endpoint.
fn refusal(e: &Endpoint, seq: Seq, udata: &[u8]) -> Option<Reply>
    requires { is_open e.now ≡ true }
    ensures { answered result ≡ first (Disconnect.send_rows seq.0 udata.now (parts e.now)) }
{
    let errno = if !has_connections(e.prov()) {
        Errno::TNOTSUPPORT
    } else if !is_connected_or_asking(e.state()) {
        Errno::TOUTSTATE
    } else if e.state().is(State::T_INCON) && e.caller(seq).is_none() {
        Errno::TBADSEQ
    } else if udata.len() > MOST_CONNECT_DATA {
        Errno::TBADDATA
    } else if e.has_disconnect() {
        let event = Event::T_DISCONNECT;
        return Some(Reply::Look { event });
    } else {
        return None;
    };
    Some(Reply::Refused { errno })
}

/// The request with this number is taken out of the endpoint at a place, if that is open with the descriptor. Takes no memory.
fn take_out_at(at: &mut Endpoint, p: &Providers, fd: Fd, seq: Seq)
    requires { IsPlaceOf p.now fd.0 at.old }
    ensures cell { ChangesAt p.now fd.0 (taken_out seq.0) at.old at.new }
    ensures place { at.new.place ≡ at.old.place }
    ensures room { at.new.spare_disconnects ≡ at.old.spare_disconnects }
{
    if at.is(p, fd) {
        at.take_out(seq);
    }
}

/// The same of a lent endpoint.
fn take_out(lent: &mut Lent, fd: Fd, seq: Seq)
    requires own { AtOwnPlaces lent.old }
    requires there { IsHeld lent.old fd.0 }
    ensures cells { Changed (at_endpoint fd.0 (taken_out seq.0) ∷ []) lent.old lent.new }
    ensures kept { SameCells lent.old lent.new }
    ensures registry { lent.new.registry ≡ lent.old.registry }
    ensures ready { KeepsRejections lent.old lent.new }
{
    let p = *lent.providers();
    take_out_at(lent.endpoint(p.place_of(fd)), &p, fd, seq);
}

/// Nothing of a connection is left of the endpoint at a place, if that is open with the descriptor. Takes no memory.
fn make_idle_at(at: &mut Endpoint, p: &Providers, fd: Fd)
    requires { IsPlaceOf p.now fd.0 at.old }
    ensures cell { ChangesAt p.now fd.0 Disconnect.idle at.old at.new }
    ensures place { at.new.place ≡ at.old.place }
{
    if at.is(p, fd) {
        at.reset();
        at.set_state(State::T_IDLE);
    }
}

/// The same of a lent endpoint.
fn make_idle(lent: &mut Lent, fd: Fd)
    requires own { AtOwnPlaces lent.old }
    requires there { IsHeld lent.old fd.0 }
    ensures cells { Changed (at_endpoint fd.0 Disconnect.idle ∷ []) lent.old lent.new }
    ensures kept { SameCells lent.old lent.new }
{
    let p = *lent.providers();
    make_idle_at(lent.endpoint(p.place_of(fd)), &p, fd);
}

/// The caller of an outstanding request of the open endpoint.
fn caller(lent: &Lent, fd: Fd, seq: Seq) -> Fd
    requires own { AtOwnPlaces lent.now }
    requires asked { is_some (asked lent.now fd.0 seq.0) ≡ true }
    ensures { Some result.0 ≡ option_map (λ i. i.caller) (asked lent.now fd.0 seq.0) }
{
    match lent.open_endpoint(fd) {
        Some(e) => match e.caller(seq) {
            Some(caller) => caller,
            None => unreachable!(),
        },
        None => unreachable!(),
    }
}

/// The open endpoint rejects an outstanding request; where memory runs out the cells are as before.
fn reject(lent: &mut Lent, fd: Fd, seq: Seq, udata: &[u8]) -> Result<(), AllocError>
    requires own { AtOwnPlaces lent.old }
    requires there { IsHeld lent.old fd.0 }
    requires asked { is_some (asked lent.old fd.0 seq.0) ≡ true }
    requires reach { IfSome (asked lent.old fd.0 seq.0) (λ i. IsHeld lent.old i.caller) }
    requires udata { length udata.now ≤ MOST_CONNECT_DATA }
    ensures ok { OnOk result (Changed (rejecting lent.old fd.0 seq.0 udata.now) lent.old lent.new) }
    ensures kept { SameCells lent.old lent.new }
    ensures err { OnErr result (IsUnchanged lent.old lent.new) }
{
    let caller = caller(lent, fd, seq);
    let notice = prepare(lent, caller, News::Rejected, REJECTED, udata)?;
    take_out(lent, fd, seq);
    tell(lent, notice);
    Ok(())
}

/// The open endpoint ends its connection, or takes its request back, and is idle; where memory runs out the cells are as before.
fn end_own(lent: &mut Lent, fd: Fd, udata: &[u8]) -> Result<(), AllocError>
    requires fit { IsFit lent.old }
    requires open { IsOpen lent.old fd.0 }
    requires reach { IfSome (open_at lent.old fd.0) (CanBreak lent.old) }
    requires udata { length udata.now ≤ MOST_CONNECT_DATA }
    ensures ok { OnOk result (EndsOwn lent.old lent.new fd.0 udata.now) }
    ensures kept { SameCells lent.old lent.new }
    ensures err { OnErr result (IsUnchanged lent.old lent.new) }
{
    break_off(lent, fd, ABORTED, udata)?;
    make_idle(lent, fd);
    Ok(())
}

pub(crate) fn snddis(lent: &mut Lent, fd: Fd, seq: Seq, udata: &[u8]) -> Result<Applied, AllocError>
    requires fit { IsFit lent.old }
    requires lent { HasCellsOf lent.old (Call.TSndDis fd seq udata.now) }
    ensures step { MakesBy (disconnecting lent.old fd.0 seq.0 udata.now) lent.old lent.new result }
    ensures still { IfOk result (StaysBlocked lent.old lent.new) }
    ensures kept { SameCells lent.old lent.new }
    ensures err { OnErr result (IsUnchanged lent.old lent.new) }
    ensures sure { IsSureBy (disconnecting lent.old fd.0 seq.0 udata.now) result }
{
    let Some(e) = lent.open_endpoint(fd) else {
        return Ok(refused(lent, fd, Errno::TBADF));
    };
    if let Some(reply) = refusal(e, seq, udata) {
        return Ok(done(lent, fd, reply));
    }
    if e.state().is(State::T_INCON) {
        reject(lent, fd, seq, udata)?;
    } else {
        end_own(lent, fd, udata)?;
    }
    Ok(done(lent, fd, Reply::Plain))
}
