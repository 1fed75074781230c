//! t_accept.

ghost use Rattle.std.specs.Prelude.{◌≡◌, ◌≤◌, true, is_some, length, IfOk, OnErr, OnOk};
ghost use Rattle.tpi_grammar.specs.declared.kind.Kind.TheVariants.{T_CONN_CON};
ghost use Rattle.tpi_prim.specs.Fields.{kind_in};
ghost use Rattle.xti_base.specs.declared.limits.TheConstants.{MOST_ADDRESS, MOST_CONNECT_DATA, MOST_OPTIONS};
ghost use Rattle.xti_model.specs.Endpoint.{address_of, find_number};
ghost use Rattle.xti_model.specs.Calls.Listen.{bound_like};
ghost use Rattle.xti_end.specs.Held.{is_open, parts};
ghost use Rattle.xti_lent.specs.Answers.{Changed, IsSureBy, StaysBlocked};
ghost use Rattle.xti_lent.specs.Fit.{AtOwnPlaces, IsFit, SameCells};
ghost use Rattle.xti_switch.specs.Accepts.{accepting, linking, AcceptsAt, IsAccepted, IsGiven};

use crate::frames;
use crate::links::{Given, confirm, give, reserve, respond, take_out};
use crate::refusals::{Answering, accept_refusal};
use std::alloc::{AllocError, Global};
use tpi_prim::Frame;
use xti_base::{Errno, Fd, Octets, Seq, State};
use xti_end::{Endpoint, caller_address};
use xti_lent::{Lent, address_of, done, refused};
use xti_model::{Applied, Reply};

/// What an accept keeps of the request and of both endpoints, all of it made before anything changes.
#[derive(Drop)]
struct Acceptance {
    /// Who asked, and from which address.
    caller: Fd,
    source: Octets,
    /// The address of who answers, and the T_CONN_CON.
    address: Octets,
    confirmation: Frame,
    given: Option<Given>,
}

/// The address that the responding endpoint is given: the listener's, where it has none.
fn given(alloc: Global, e: &Endpoint, r: &Endpoint) -> Result<Option<Given>, AllocError>
    requires listener { is_open e.now ≡ true }
    requires responding { is_open r.now ≡ true }
    ensures { IfOk result (IsGiven (parts e.now) (parts r.now)) }
{
    if !r.state().is(State::T_UNBND) {
        return Ok(None);
    }
    let address = Octets::copy_of(alloc, address_of(e))?;
    let known = or_drop!(Octets::copy_of(alloc, address_of(e)), address);
    Ok(Some(Given {
        prov: r.prov(),
        address,
        known,
    }))
}

/// The address with which the responding endpoint answers.
fn answering_address<'a>(e: &'a Endpoint, r: &'a Endpoint) -> &'a [u8]
    requires listener { is_open e.now ≡ true }
    requires responding { is_open r.now ≡ true }
    ensures { result.now ≡ address_of (bound_like (parts e.now) (parts r.now)) }
{
    if r.state().is(State::T_UNBND) {
        address_of(e)
    } else {
        address_of(r)
    }
}

/// What is kept of the outstanding request with this number, and of both endpoints.
fn prepare(
    alloc: Global,
    e: &Endpoint,
    r: &Endpoint,
    seq: Seq,
    opt: &[u8],
    udata: &[u8],
) -> Result<Acceptance, AllocError>
    requires listener { is_open e.now ≡ true }
    requires responding { is_open r.now ≡ true }
    requires request { is_some (find_number seq.0 (parts e.now).outstanding) ≡ true }
    requires address { length (address_of (bound_like (parts e.now) (parts r.now))) ≤ MOST_ADDRESS }
    requires options { length opt.now ≤ MOST_OPTIONS }
    requires data { length udata.now ≤ MOST_CONNECT_DATA }
    ensures { IfOk result (AcceptsAt (parts e.now) (parts r.now) seq.0 opt.now udata.now) }
{
    let Some(ind) = e.request(seq) else {
        unreachable!();
    };
    let answering = answering_address(e, r);
    let source = Octets::copy_of(alloc, caller_address(ind))?;
    let address = or_drop!(Octets::copy_of(alloc, answering), source);
    let confirmation = or_drop!(
        frames::confirmation(alloc, answering, opt, udata),
        source,
        address
    );
    let given = or_drop!(given(alloc, e, r), source, address, confirmation);
    Ok(Acceptance {
        caller: ind.caller,
        source,
        address,
        confirmation,
        given,
    })
}

/// The request with this number is taken out, and both ends are connected; where memory runs out all is as before.
fn link(
    lent: &mut Lent,
    fd: Fd,
    resfd: Fd,
    seq: Seq,
    acceptance: Acceptance,
) -> Result<(), AllocError>
    requires own { AtOwnPlaces lent.old }
    requires switch { is_some lent.old.registry ≡ true }
    requires kind { kind_in acceptance.confirmation ≡ T_CONN_CON }
    ensures ok { OnOk result (Changed (linking fd.0 resfd.0 seq.0 acceptance) lent.old lent.new) }
    ensures kept { SameCells lent.old lent.new }
    ensures err { OnErr result (lent.new ≡ lent.old) }
{
    or_drop!(reserve(lent, &acceptance.given), acceptance);
    let Acceptance {
        caller,
        source,
        address,
        confirmation,
        given,
    } = acceptance;
    take_out(lent, fd, seq);
    give(lent, resfd, given);
    respond(lent, resfd, caller, source);
    confirm(lent, caller, resfd, address, confirmation);
    Ok(())
}

pub(crate) fn accept(
    lent: &mut Lent,
    fd: Fd,
    resfd: Fd,
    seq: Seq,
    opt: &[u8],
    udata: &[u8],
) -> Result<Applied, AllocError>
    requires fit { IsFit lent.old }
    requires switch { is_some lent.old.registry ≡ true }
    ensures step { IsAccepted lent.old lent.new fd.0 resfd.0 seq.0 opt.now udata.now result }
    ensures still { IfOk result (StaysBlocked lent.old lent.new) }
    ensures kept { SameCells lent.old lent.new }
    ensures err { OnErr result (lent.new ≡ lent.old) }
    ensures sure { IsSureBy (accepting lent.old fd.0 resfd.0 seq.0 opt.now udata.now) result }
{
    let Some(e) = lent.open_endpoint(fd) else {
        return Ok(refused(lent, fd, Errno::TBADF));
    };
    let Some(r) = lent.open_endpoint(resfd) else {
        return Ok(refused(lent, fd, Errno::TBADF));
    };
    let is_same = fd == resfd;
    if let Some(reply) = accept_refusal(
        lent.providers(),
        e,
        r,
        Answering { seq, is_same },
        opt,
        udata,
    ) {
        return Ok(done(lent, fd, reply));
    }
    let acceptance = prepare(lent.alloc(), e, r, seq, opt, udata)?;
    link(lent, fd, resfd, seq, acceptance)?;
    Ok(done(lent, fd, Reply::Plain))
}
