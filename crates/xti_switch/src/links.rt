//! What an accept makes of lent cells. None of it takes memory, but room for an address.

ghost use Rattle.std.specs.Prelude.{◌≡◌, ◌∷◌, [], None, Some, true, is_some, OnErr, OnOk};
ghost use Rattle.tpi_grammar.specs.declared.kind.Kind.TheVariants.{T_CONN_CON};
ghost use Rattle.tpi_prim.specs.Fields.{kind_in};
ghost use Rattle.xti_model.specs.World.{at_endpoint};
ghost use Rattle.xti_model.specs.Calls.Listen.{taken_out};
ghost use Rattle.xti_end.specs.Held.{is_open, with_parts};
ghost use Rattle.xti_lent.specs.Answers.{Changed, IsUnchanged};
ghost use Rattle.xti_lent.specs.Fit.{AtOwnPlaces, SameCells};
ghost use Rattle.xti_switch.specs.Accepts.{confirmed_by, confirming, giving, giving_if, responding, responding_to, with_address, HasRoomFor, TakesOne};

use std::alloc::AllocError;
use tpi_prim::Frame;
use xti_base::{Fd, Octets, Prov, Seq, State, let_go};
use xti_end::Endpoint;
use xti_lent::Lent;

/// The address that an endpoint is given which has none, once for itself and once for the switch.
#[derive(Drop)]
pub(crate) struct Given {
    pub(crate) prov: Prov,
    pub(crate) address: Octets,
    pub(crate) known: Octets,
}

/// The open endpoint has the address, if it isn't bound.
fn set_address(r: &mut Endpoint, address: Octets)
    requires { is_open r.old ≡ true }
    ensures { r.new ≡ with_parts (with_address address) r.old }
{
    if r.state().is(State::T_UNBND) {
        r.set_address(Some(address));
        r.set_qlen(0);
    } else {
        let_go(address);
    }
}

/// The open endpoint is connected with a caller, which has this address.
fn set_responding(r: &mut Endpoint, caller: Fd, source: Octets)
    requires { is_open r.old ≡ true }
    ensures { r.new ≡ with_parts (responding_to caller.0 source) r.old }
{
    r.set_state(State::T_DATAXFER);
    r.set_peer(Some(caller));
    r.set_peer_address(Some(source));
}

/// The open endpoint's request was accepted, and the confirmation waits.
fn set_accepted(c: &mut Endpoint, resfd: Fd, address: Octets, confirmation: Frame)
    requires open { is_open c.old ≡ true }
    requires kind { kind_in confirmation ≡ T_CONN_CON }
    ensures { c.new ≡ with_parts (confirmed_by resfd.0 address confirmation) c.old }
{
    c.set_target(None);
    c.set_peer(Some(resfd));
    c.set_peer_address(Some(address));
    c.set_confirmation(confirmation);
}

/// The request is taken out of the listener, where that is open.
pub(crate) fn take_out(lent: &mut Lent, fd: Fd, seq: Seq)
    requires { AtOwnPlaces lent.old }
    ensures changed { Changed (at_endpoint fd.0 (taken_out seq.0) ∷ []) lent.old lent.new }
    ensures kept { SameCells lent.old lent.new }
    ensures table { lent.new.registry ≡ lent.old.registry }
{
    if let Some(place) = lent.open_place(fd) {
        lent.endpoint(place).take_out(seq);
    }
}

/// The endpoint has the address, where it is open and isn't bound.
fn bind(lent: &mut Lent, resfd: Fd, address: Octets)
    requires { AtOwnPlaces lent.old }
    ensures changed { Changed (at_endpoint resfd.0 (with_address address) ∷ []) lent.old lent.new }
    ensures kept { SameCells lent.old lent.new }
    ensures table { lent.new.registry ≡ lent.old.registry }
{
    if let Some(place) = lent.open_place(resfd) {
        set_address(lent.endpoint(place), address);
    } else {
        let_go(address);
    }
}

/// Makes room for the address in the switch's table, where one is given; where memory runs out all is as before.
pub(crate) fn reserve(lent: &mut Lent, given: &Option<Given>) -> Result<(), AllocError>
    requires { is_some lent.old.registry ≡ true }
    ensures cells { IsUnchanged lent.old lent.new }
    ensures kept { SameCells lent.old lent.new }
    ensures room { OnOk result (HasRoomFor given.now lent.new) }
    ensures err { OnErr result (lent.new ≡ lent.old) }
{
    match given {
        Some(_) => lent.registry().reserve(),
        None => Ok(()),
    }
}

/// The endpoint and the switch have the address, for which there must be room.
fn give_address(lent: &mut Lent, resfd: Fd, given: Given)
    requires own { AtOwnPlaces lent.old }
    requires room { TakesOne lent.old.registry }
    ensures changed { Changed (giving resfd.0 given) lent.old lent.new }
    ensures kept { SameCells lent.old lent.new }
{
    let Given {
        prov,
        address,
        known,
    } = given;
    bind(lent, resfd, address);
    lent.registry().put(prov, known, resfd, false);
}

/// The same, where an address is given.
pub(crate) fn give(lent: &mut Lent, resfd: Fd, given: Option<Given>)
    requires own { AtOwnPlaces lent.old }
    requires room { HasRoomFor given lent.old }
    ensures changed { Changed (giving_if resfd.0 given) lent.old lent.new }
    ensures kept { SameCells lent.old lent.new }
{
    if let Some(given) = given {
        give_address(lent, resfd, given);
    }
}

/// The endpoint is connected with a caller, where it is open.
pub(crate) fn respond(lent: &mut Lent, resfd: Fd, caller: Fd, source: Octets)
    requires { AtOwnPlaces lent.old }
    ensures changed { Changed (responding resfd.0 caller.0 source) lent.old lent.new }
    ensures kept { SameCells lent.old lent.new }
{
    if let Some(place) = lent.open_place(resfd) {
        set_responding(lent.endpoint(place), caller, source);
    } else {
        let_go(source);
    }
}

/// The caller's request was accepted, where the caller is open.
pub(crate) fn confirm(lent: &mut Lent, caller: Fd, resfd: Fd, address: Octets, confirmation: Frame)
    requires own { AtOwnPlaces lent.old }
    requires kind { kind_in confirmation ≡ T_CONN_CON }
    ensures changed { Changed (confirming caller.0 resfd.0 address confirmation) lent.old lent.new }
    ensures kept { SameCells lent.old lent.new }
{
    if let Some(place) = lent.open_place(caller) {
        set_accepted(lent.endpoint(place), resfd, address, confirmation);
    } else {
        let_go(address);
        let_go(confirmation);
    }
}
