//! Sending a datagram, whole or in parts.

ghost use Rattle.std.specs.Prelude.{◌≡◌, ◌≤◌, true, IfOk, IfSome, IsErrOf, OnErr, is_some, length};
ghost use Rattle.xti_base.specs.declared.limits.TheConstants.{MOST_ADDRESS, MOST_OPTIONS, MOST_SEND};
ghost use Rattle.std.specs.List.{concat};
ghost use Rattle.tpi_grammar.specs.declared.kind.Kind.TheVariants.{T_UNITDATA_IND};
ghost use Rattle.tpi_prim.specs.Fields.{kind_in};
ghost use Rattle.xti_model.specs.Sending.{takes_datagram};
ghost use Rattle.xti_model.specs.Switch.{bound};
ghost use Rattle.xti_lent.specs.Answers.{IsSureBy, StaysBlocked};
ghost use Rattle.xti_lent.specs.Fit.{AtOwnPlaces, IsFit, SameCells};
ghost use Rattle.xti_lent.specs.Lending.{lent_switch, number_of};
ghost use Rattle.xti_lent.specs.Lends.{IsHeld};
ghost use Rattle.xti_data.specs.DatagramReach.{CanReach};
ghost use Rattle.xti_data.specs.DatagramSends.{receiver_at, sender, sending, IsDatagramOf, IsDelivered, IsSent};

use crate::datagrams::indications::{datagram, datagram_error};
use crate::datagrams::refusals::refusal;
use crate::datagrams::writes::{give, mark_flow, push_error};
use std::alloc::AllocError;
use tpi_prim::{EncodeFail, Frame};
use xti_base::{Errno, Fd, Octets, Prov};
use xti_lent::{Lent, done, refused};
use xti_model::{Applied, Reply, Spot};

/// The endpoint that is bound to the address; of several the least descriptor.
fn receiver(lent: &Lent, prov: Prov, address: &[u8]) -> Option<Fd>
    requires { is_some lent.now.registry ≡ true }
    ensures { number_of result ≡ bound (lent_switch lent.now) prov address.now }
{
    lent.registry_ref().bound(prov, address, false)
}

/// Whether the receiver takes one more datagram; where nobody is bound it is lost.
fn takes_datagram(lent: &Lent, to: Option<Fd>) -> bool
    requires { AtOwnPlaces lent.now }
    ensures { result ≡ takes_datagram (receiver_at lent.now to) }
{
    match to {
        None => true,
        Some(to) => match lent.open_endpoint(to) {
            None => true,
            Some(e) => e.takes_datagram(),
        },
    }
}

/// The T_UNITDATA_IND of a datagram that the open endpoint sends.
fn indication(lent: &Lent, fd: Fd, options: &[u8], parts: &[Octets]) -> Result<Frame, EncodeFail>
    requires fit { IsFit lent.now }
    requires open { is_some (sender lent.now fd.0) ≡ true }
    requires options { length options.now ≤ MOST_OPTIONS }
    requires data { length (concat parts.now) ≤ MOST_SEND }
    ensures kind { IfOk result (λ frame. kind_in frame ≡ T_UNITDATA_IND) }
    ensures datagram { IfOk result (IsDatagramOf (sender lent.now fd.0) options.now parts.now) }
    ensures fits { IsErrOf result EncodeFail.TooBig → ⊥ }
{
    match lent.open_endpoint(fd) {
        Some(e) => datagram(lent.alloc(), e, options, parts),
        None => unreachable!(),
    }
}

/// The datagram waits at the receiver, and else an error at the sender; where memory runs out all is as before.
fn deliver(
    lent: &mut Lent,
    fd: Fd,
    to: Option<Fd>,
    address: &[u8],
    options: &[u8],
    parts: &[Octets],
) -> Result<(), AllocError>
    requires fit { IsFit lent.old }
    requires open { is_some (sender lent.old fd.0) ≡ true }
    requires sender { IsHeld lent.old fd.0 }
    requires receiver { IfSome to (λ to. IsHeld lent.old to.0) }
    requires address { length address.now ≤ MOST_ADDRESS }
    requires options { length options.now ≤ MOST_OPTIONS }
    requires data { length (concat parts.now) ≤ MOST_SEND }
    ensures ok { IsDelivered lent.old lent.new fd.0 address.now options.now parts.now to result }
    ensures kept { SameCells lent.old lent.new }
    ensures err { OnErr result (lent.new ≡ lent.old) }
{
    match to {
        Some(to) => match indication(lent, fd, options, parts) {
            Ok(frame) => give(lent, fd, to, frame),
            Err(EncodeFail::OutOfMemory) => Err(AllocError),
            Err(EncodeFail::TooBig) => unreachable!(),
        },
        None => {
            let frame = datagram_error(lent.alloc(), address, options)?;
            push_error(lent, fd, frame)
        }
    }
}

/// Sends the parts as one datagram.
pub(crate) fn send(
    lent: &mut Lent,
    fd: Fd,
    address: &[u8],
    options: &[u8],
    parts: &[Octets],
) -> Result<Applied, AllocError>
    requires fit { IsFit lent.old }
    requires reach { CanReach lent.old fd.0 address.now }
    ensures step { IsSent lent.old lent.new fd.0 address.now options.now parts.now result }
    ensures still { IfOk result (StaysBlocked lent.old lent.new) }
    ensures kept { SameCells lent.old lent.new }
    ensures err { OnErr result (lent.new ≡ lent.old) }
    ensures sure { IsSureBy (sending lent.old fd.0 address.now options.now parts.now) result }
{
    let Some(e) = lent.open_endpoint(fd) else {
        return Ok(refused(lent, fd, Errno::TBADF));
    };
    if let Some(reply) = refusal(e, lent.providers(), address, options, parts) {
        return Ok(done(lent, fd, reply));
    }
    let nonblock = e.nonblock();
    let to = receiver(lent, e.prov(), address);
    if takes_datagram(lent, to) {
        deliver(lent, fd, to, address, options, parts)?;
        Ok(done(lent, fd, Reply::Plain))
    } else if nonblock {
        mark_flow(lent, fd, Some(Spot::of(address)));
        Ok(refused(lent, fd, Errno::TFLOW))
    } else {
        Ok(Applied::Blocked)
    }
}
