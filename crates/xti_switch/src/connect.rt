//! t_connect, whose second step is t_rcvconnect.

ghost use Rattle.std.specs.Prelude.{◌≡◌, ◌≤◌, Ok, true, is_some, length, IfOk, OnErr, OnOk};
ghost use Rattle.tpi_grammar.specs.declared.kind.Kind.TheVariants.{T_CONN_IND};
ghost use Rattle.tpi_prim.specs.Fields.{kind_in};
ghost use Rattle.xti_base.specs.declared.limits.TheConstants.{MOST_CONNECT_DATA, MOST_OPTIONS};
ghost use Rattle.xti_model.specs.Sound.{is_sound_body};
ghost use Rattle.xti_model.specs.Calls.Connect as Connect;
ghost use Rattle.xti_end.specs.Held.{is_open, parts};
ghost use Rattle.xti_lent.specs.Answers.{IsSureBy, StaysBlocked};
ghost use Rattle.xti_lent.specs.Fit.{IsFit, SameCells};
ghost use Rattle.xti_lent.specs.Lending.{open_at};
ghost use Rattle.xti_switch.specs.Connects.{connecting, first_outcome, number_for, Asks, IsConnecting, IsRequestAt, IsRequested};

use crate::frames;
use crate::refusals::connect_refusal;
use crate::requests::{queue, set_target, turn_away};
use std::alloc::AllocError;
use tpi_prim::Frame;
use xti_base::limits::LAST_SEQUENCE;
use xti_base::reasons::{NO_LISTENER, QUEUE_FULL};
use xti_base::{Errno, Fd, Seq};
use xti_end::{Endpoint, is_listening};
use xti_lent::{Lent, done, refused, with_outcome};
use xti_model::{Applied, Outcome, Reply};

/// Whether the open endpoint takes no more requests.
fn is_full(l: &Endpoint) -> bool
    requires open { is_open l.now ≡ true }
    requires sound { is_sound_body l.now.body ≡ true }
    ensures { result ≡ Connect.is_full (parts l.now) }
{
    l.requests() == l.qlen() as usize || l.last_number().0 == LAST_SEQUENCE
}

/// The number that the endpoint gives the next request, or the reason why it takes none.
fn number_for(lent: &Lent, listener: Fd) -> Result<Seq, u32>
    requires { IsFit lent.now }
    ensures { result ≡ number_for (open_at lent.now listener.0) }
{
    match lent.open_endpoint(listener) {
        None => Err(NO_LISTENER),
        Some(l) if !is_listening(l.state()) => Err(NO_LISTENER),
        Some(l) if is_full(l) => Err(QUEUE_FULL),
        Some(l) => Ok(Seq(l.last_number().0 + 1)),
    }
}

/// The T_CONN_IND of the open endpoint's request, under this number.
fn request_frame(
    lent: &Lent,
    fd: Fd,
    seq: Seq,
    opt: &[u8],
    udata: &[u8],
) -> Result<Frame, AllocError>
    requires fit { IsFit lent.now }
    requires open { is_some (open_at lent.now fd.0) ≡ true }
    requires options { length opt.now ≤ MOST_OPTIONS }
    requires data { length udata.now ≤ MOST_CONNECT_DATA }
    ensures kind { IfOk result (λ frame. kind_in frame ≡ T_CONN_IND) }
    ensures request { IfOk result (IsRequestAt lent.now fd.0 seq.0 opt.now udata.now) }
{
    match lent.open_endpoint(fd) {
        Some(e) => frames::request(lent.alloc(), e, seq, opt, udata),
        None => unreachable!(),
    }
}

/// The open endpoint asks a listener, which gives the request this number; where memory runs out all is as before.
fn ask(
    lent: &mut Lent,
    fd: Fd,
    listener: Fd,
    seq: Seq,
    opt: &[u8],
    udata: &[u8],
) -> Result<(), AllocError>
    requires fit { IsFit lent.old }
    requires open { is_some (open_at lent.old fd.0) ≡ true }
    requires number { number_for (open_at lent.old listener.0) ≡ Ok seq }
    requires options { length opt.now ≤ MOST_OPTIONS }
    requires data { length udata.now ≤ MOST_CONNECT_DATA }
    ensures ok { OnOk result (Asks lent.old lent.new fd.0 listener.0 seq.0 opt.now udata.now) }
    ensures kept { SameCells lent.old lent.new }
    ensures err { OnErr result (lent.new ≡ lent.old) }
{
    let frame = request_frame(lent, fd, seq, opt, udata)?;
    queue(lent, listener, fd, seq, frame)?;
    set_target(lent, fd, listener, seq);
    Ok(())
}

/// The request of the open endpoint goes to whoever listens; where memory runs out all is as before.
fn request(
    lent: &mut Lent,
    fd: Fd,
    listener: Option<Fd>,
    opt: &[u8],
    udata: &[u8],
) -> Result<(), AllocError>
    requires fit { IsFit lent.old }
    requires open { is_some (open_at lent.old fd.0) ≡ true }
    requires options { length opt.now ≤ MOST_OPTIONS }
    requires data { length udata.now ≤ MOST_CONNECT_DATA }
    ensures ok { IsRequested lent.old lent.new fd.0 listener opt.now udata.now result }
    ensures kept { SameCells lent.old lent.new }
    ensures err { OnErr result (lent.new ≡ lent.old) }
{
    let Some(listener) = listener else {
        return turn_away(lent, fd, NO_LISTENER);
    };
    match number_for(lent, listener) {
        Ok(seq) => ask(lent, fd, listener, seq, opt, udata),
        Err(reason) => turn_away(lent, fd, reason),
    }
}

/// A caller that waits for the answer makes a second step.
fn outcome(nonblock: bool) -> Outcome
    ensures { result ≡ first_outcome nonblock }
{
    if nonblock {
        let errno = Errno::TNODATA;
        Outcome::Done(Reply::Refused { errno })
    } else {
        Outcome::Part { taken: 0 }
    }
}

pub(crate) fn connect(
    lent: &mut Lent,
    fd: Fd,
    addr: &[u8],
    opt: &[u8],
    udata: &[u8],
) -> Result<Applied, AllocError>
    requires fit { IsFit lent.old }
    requires switch { is_some lent.old.registry ≡ true }
    ensures step { IsConnecting lent.old lent.new fd.0 addr.now opt.now udata.now result }
    ensures still { IfOk result (StaysBlocked lent.old lent.new) }
    ensures kept { SameCells lent.old lent.new }
    ensures err { OnErr result (lent.new ≡ lent.old) }
    ensures sure { IsSureBy (connecting lent.old fd.0 addr.now opt.now udata.now) result }
{
    let Some(e) = lent.open_endpoint(fd) else {
        return Ok(refused(lent, fd, Errno::TBADF));
    };
    if let Some(reply) = connect_refusal(e, addr, opt, udata) {
        return Ok(done(lent, fd, reply));
    }
    let nonblock = e.nonblock();
    let listener = lent.registry_ref().listener(e.prov(), addr, fd);
    request(lent, fd, listener, opt, udata)?;
    Ok(with_outcome(lent, fd, outcome(nonblock)))
}
