//! Calls by their word and all their fields.

ghost use Rattle.std.specs.Prelude.{◌≡◌, ◌++◌, OnOk, IsTrue, true, codes, decimal};
ghost use Rattle.xti_script.specs.Canonical.{acceptance_text, address_limits_text, address_text, call_text, request_text};
ghost use Rattle.xti_verbs.specs.Verbs.{is_plain, verb_of_named};
ghost use Rattle.xti_script.specs.Families.{is_address_or_options, is_connection_request, is_connection_receipt, is_send, is_receive};

use crate::values::{
    put_bytes, put_mode, put_name, put_name_or_none, put_parts, put_provider, put_sizes,
};
use std::alloc::AllocError;
use xti_base::Octets;
use xti_model::{Name, NamedCall};
use xti_verbs::Verb;
use xti_words::put_number;

// The most bytes that the caller takes of an address and of options.
fn put_address_limits(out: &mut Vec<u8>, amax: u32, omax: u32) -> Result<(), AllocError>
    ensures { OnOk result (out.new.items ≡ out.old.items ++ address_limits_text amax omax) }
{
    put_number(out, " amax=", amax as u64).and(put_number(out, " omax=", omax as u64))
}

// The most bytes that the caller takes of address, options and data.
fn put_most(out: &mut Vec<u8>, amax: u32, omax: u32, umax: u32) -> Result<(), AllocError>
    ensures { OnOk result (out.new.items
        ≡ out.old.items ++ (codes " amax=" ++ decimal amax) ++ (codes " omax=" ++ decimal omax) ++ (codes " umax=" ++ decimal umax)) }
{
    put_address_limits(out, amax, omax).and(put_number(out, " umax=", umax as u64))
}

// The address and the options of a call.
fn put_address_and_options(out: &mut Vec<u8>, addr: &Octets, opt: &Octets) -> Result<(), AllocError>
    ensures { OnOk result (out.new.items ≡ out.old.items ++ address_text addr.now opt.now) }
{
    put_bytes(out, " addr=", addr).and(put_bytes(out, " opt=", opt))
}

// The address, the options and the data of a request.
fn put_request(
    out: &mut Vec<u8>,
    addr: &Octets,
    opt: &Octets,
    udata: &Octets,
) -> Result<(), AllocError>
    ensures { OnOk result (out.new.items
        ≡ out.old.items ++ request_text addr.now opt.now udata.now) }
{
    put_address_and_options(out, addr, opt).and(put_bytes(out, " udata=", udata))
}

// Where a request is accepted, with which options and data.
fn put_acceptance(
    out: &mut Vec<u8>,
    resfd: &Name,
    seq: &Name,
    opt: &Octets,
    udata: &Octets,
) -> Result<(), AllocError>
    ensures { OnOk result (out.new.items
        ≡ out.old.items ++ acceptance_text resfd.now seq.now opt.now udata.now) }
{
    put_name(out, " ", resfd)
        .and(put_name(out, " ", seq))
        .and(put_bytes(out, " opt=", opt))
        .and(put_bytes(out, " udata=", udata))
}

// A call that names an address, asks for addresses or settles options.
#[tactic(auto, unfolding(crate::specs::Canonical::written_call, xti_script_reader::specs::Calls::form, xti_verbs::specs::Verbs::row_of, xti_script_reader::specs::Fields::field))]
fn put_address_or_options(out: &mut Vec<u8>, call: &NamedCall) -> Result<(), AllocError>
    requires { IsTrue (is_address_or_options call.now) }
    ensures { OnOk result (out.new.items ≡ out.old.items ++ call_text call.now) }
{
    match call {
        NamedCall::TBind {
            fd,
            addr,
            qlen,
            amax,
        } => {
            put_name(out, "bind ", fd)
                .and(put_bytes(out, " addr=", addr))
                .and(put_number(out, " qlen=", *qlen as u64))
                .and(put_number(out, " amax=", *amax as u64))
        }
        NamedCall::TGetProtAddr { fd, amax, pmax } => {
            put_name(out, "getprotaddr ", fd)
                .and(put_number(out, " amax=", *amax as u64))
                .and(put_number(out, " pmax=", *pmax as u64))
        }
        NamedCall::TOptMgmt {
            fd,
            action,
            opt,
            omax,
        } => {
            put_name(out, "optmgmt ", fd)
                .and(put_number(out, " ", *action as u64))
                .and(put_bytes(out, " opt=", opt))
                .and(put_number(out, " omax=", *omax as u64))
        }
        _ => unreachable!(),
    }
}

// A call that asks for a connection, takes one, ends one or sends data with its release.
#[tactic(auto, unfolding(crate::specs::Canonical::written_call, xti_script_reader::specs::Calls::form, xti_verbs::specs::Verbs::row_of, xti_script_reader::specs::Fields::field))]
fn put_connection_request(out: &mut Vec<u8>, call: &NamedCall) -> Result<(), AllocError>
    requires { IsTrue (is_connection_request call.now) }
    ensures { OnOk result (out.new.items ≡ out.old.items ++ call_text call.now) }
{
    match call {
        NamedCall::TConnect {
            fd,
            addr,
            opt,
            udata,
            amax,
            omax,
            umax,
        } => {
            put_name(out, "connect ", fd)
                .and(put_request(out, addr, opt, udata))
                .and(put_most(out, *amax, *omax, *umax))
        }
        NamedCall::TAccept {
            fd,
            resfd,
            seq,
            opt,
            udata,
        } => { put_name(out, "accept ", fd).and(put_acceptance(out, resfd, seq, opt, udata)) }
        NamedCall::TSndDis { fd, seq, udata } => {
            put_name(out, "snddis ", fd)
                .and(put_name_or_none(out, " ", seq))
                .and(put_bytes(out, " udata=", udata))
        }
        NamedCall::TSndRelData { fd, udata } => {
            put_name(out, "sndreldata ", fd).and(put_bytes(out, " udata=", udata))
        }
        _ => unreachable!(),
    }
}

// A call that takes what the other side asked or answered about a connection.
#[tactic(auto, unfolding(crate::specs::Canonical::written_call, xti_script_reader::specs::Calls::form, xti_verbs::specs::Verbs::row_of, xti_script_reader::specs::Fields::field))]
fn put_connection_receipt(out: &mut Vec<u8>, call: &NamedCall) -> Result<(), AllocError>
    requires { IsTrue (is_connection_receipt call.now) }
    ensures { OnOk result (out.new.items ≡ out.old.items ++ call_text call.now) }
{
    match call {
        NamedCall::TRcvConnect {
            fd,
            amax,
            omax,
            umax,
        } => { put_name(out, "rcvconnect ", fd).and(put_most(out, *amax, *omax, *umax)) }
        NamedCall::TListen {
            fd,
            name,
            amax,
            omax,
            umax,
        } => {
            put_name(out, "listen ", fd)
                .and(put_name(out, " ", name))
                .and(put_most(out, *amax, *omax, *umax))
        }
        NamedCall::TRcvDis { fd, umax } => {
            put_name(out, "rcvdis ", fd).and(put_number(out, " umax=", *umax as u64))
        }
        NamedCall::TRcvRelData { fd, umax } => {
            put_name(out, "rcvreldata ", fd).and(put_number(out, " umax=", *umax as u64))
        }
        _ => unreachable!(),
    }
}

// A call that sends data or a datagram.
#[tactic(auto, unfolding(crate::specs::Canonical::written_call, xti_script_reader::specs::Calls::form, xti_verbs::specs::Verbs::row_of, xti_script_reader::specs::Fields::field))]
fn put_send(out: &mut Vec<u8>, call: &NamedCall) -> Result<(), AllocError>
    requires { IsTrue (is_send call.now) }
    ensures { OnOk result (out.new.items ≡ out.old.items ++ call_text call.now) }
{
    match call {
        NamedCall::TSnd { fd, bytes, flags } => {
            put_name(out, "snd ", fd)
                .and(put_bytes(out, " data=", bytes))
                .and(put_number(out, " flags=", *flags as u64))
        }
        NamedCall::TSndV { fd, parts, flags } => {
            put_name(out, "sndv ", fd)
                .and(put_parts(out, " parts=", parts.as_slice()))
                .and(put_number(out, " flags=", *flags as u64))
        }
        NamedCall::TSndUData {
            fd,
            addr,
            opt,
            bytes,
        } => {
            put_name(out, "sndudata ", fd)
                .and(put_address_and_options(out, addr, opt))
                .and(put_bytes(out, " data=", bytes))
        }
        NamedCall::TSndVUData {
            fd,
            addr,
            opt,
            parts,
        } => {
            put_name(out, "sndvudata ", fd)
                .and(put_address_and_options(out, addr, opt))
                .and(put_parts(out, " parts=", parts.as_slice()))
        }
        _ => unreachable!(),
    }
}

// A call that takes data, a datagram or the error of a datagram.
#[tactic(auto, unfolding(crate::specs::Canonical::written_call, xti_script_reader::specs::Calls::form, xti_verbs::specs::Verbs::row_of, xti_script_reader::specs::Fields::field))]
fn put_receive(out: &mut Vec<u8>, call: &NamedCall) -> Result<(), AllocError>
    requires { IsTrue (is_receive call.now) }
    ensures { OnOk result (out.new.items ≡ out.old.items ++ call_text call.now) }
{
    match call {
        NamedCall::TRcv { fd, max } => {
            put_name(out, "rcv ", fd).and(put_number(out, " max=", *max as u64))
        }
        NamedCall::TRcvV { fd, sizes } => {
            put_name(out, "rcvv ", fd).and(put_sizes(out, " sizes=", sizes.as_slice()))
        }
        NamedCall::TRcvUData {
            fd,
            max,
            amax,
            omax,
        } => {
            put_name(out, "rcvudata ", fd)
                .and(put_number(out, " max=", *max as u64))
                .and(put_address_limits(out, *amax, *omax))
        }
        NamedCall::TRcvVUData {
            fd,
            sizes,
            amax,
            omax,
        } => {
            put_name(out, "rcvvudata ", fd)
                .and(put_sizes(out, " sizes=", sizes.as_slice()))
                .and(put_address_limits(out, *amax, *omax))
        }
        NamedCall::TRcvUDErr { fd, amax, omax } => {
            put_name(out, "rcvuderr ", fd).and(put_address_limits(out, *amax, *omax))
        }
        _ => unreachable!(),
    }
}

// A call that says no more than which endpoint.
#[tactic(auto, unfolding(crate::specs::Canonical::written_call, xti_script_reader::specs::Calls::form, xti_script_reader::specs::Fields::field))]
fn put_plain(out: &mut Vec<u8>, call: &NamedCall) -> Result<(), AllocError>
    requires { is_plain (verb_of_named call.now) ≡ true }
    ensures { OnOk result (out.new.items ≡ out.old.items ++ call_text call.now) }
{
    out.extend_from_slice(Verb::of_named(call).word())?;
    match Verb::plain_name(call) {
        Some(name) => put_name(out, " ", name),
        None => unreachable!(),
    }
}

/// Appends a call by its word and all its fields.
#[tactic(auto, unfolding(crate::specs::Canonical::written_call, xti_script_reader::specs::Calls::form, xti_verbs::specs::Verbs::row_of, xti_script_reader::specs::Fields::field))]
pub(crate) fn put_call(out: &mut Vec<u8>, call: &NamedCall) -> Result<(), AllocError>
    ensures { OnOk result (out.new.items ≡ out.old.items ++ call_text call.now) }
{
    match call {
        NamedCall::TOpen {
            name,
            prov,
            nonblock,
        } => {
            put_name(out, "open ", name)
                .and(put_provider(out, " ", *prov))
                .and(put_mode(out, " ", *nonblock))
        }
        NamedCall::SetMode { fd, nonblock } => {
            put_name(out, "mode ", fd).and(put_mode(out, " ", *nonblock))
        }
        NamedCall::TBind { .. } | NamedCall::TGetProtAddr { .. } | NamedCall::TOptMgmt { .. } => {
            put_address_or_options(out, call)
        }
        NamedCall::TConnect { .. }
        | NamedCall::TAccept { .. }
        | NamedCall::TSndDis { .. }
        | NamedCall::TSndRelData { .. } => put_connection_request(out, call),
        NamedCall::TRcvConnect { .. }
        | NamedCall::TListen { .. }
        | NamedCall::TRcvDis { .. }
        | NamedCall::TRcvRelData { .. } => put_connection_receipt(out, call),
        NamedCall::TSnd { .. }
        | NamedCall::TSndV { .. }
        | NamedCall::TSndUData { .. }
        | NamedCall::TSndVUData { .. } => put_send(out, call),
        NamedCall::TRcv { .. }
        | NamedCall::TRcvV { .. }
        | NamedCall::TRcvUData { .. }
        | NamedCall::TRcvVUData { .. }
        | NamedCall::TRcvUDErr { .. } => put_receive(out, call),
        _ => put_plain(out, call),
    }
}
