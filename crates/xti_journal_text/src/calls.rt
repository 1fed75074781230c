//! Calls with their numbers, each after a space.

ghost use Rattle.std.specs.Prelude.{◌≡◌, ◌++◌, OnOk, IsTrue, codes};
ghost use Rattle.xti_journal_text.specs.JournalText.{call_text, plain_text, act_text};
ghost use Rattle.xti_model.specs.Families.{is_address_or_options, is_connection_request, is_connection_receipt, is_send, is_receive};

use crate::words::{
    put_address_and_options, put_address_limits, put_mode, put_most, put_pairs, put_parts,
    put_sizes,
};
use std::alloc::AllocError;
use xti_model::{Act, Call};
use xti_verbs::Verb;
use xti_words::{put_number, put_text};

// A call that names an address, asks for addresses or settles options.
fn put_address_or_options(out: &mut Vec<u8>, call: &Call) -> Result<(), AllocError>
    requires { IsTrue (is_address_or_options call.now) }
    ensures { OnOk result (out.new.items ≡ out.old.items ++ codes " " ++ call_text call.now) }
{
    match call {
        Call::TBind {
            fd,
            addr,
            qlen,
            amax,
        } => {
            put_number(out, " bind ", fd.0 as u64)
                .and(put_pairs(out, " addr=x:", addr))
                .and(put_number(out, " qlen=", *qlen as u64))
                .and(put_number(out, " amax=", *amax as u64))
        }
        Call::TGetProtAddr { fd, amax, pmax } => {
            put_number(out, " getprotaddr ", fd.0 as u64)
                .and(put_number(out, " amax=", *amax as u64))
                .and(put_number(out, " pmax=", *pmax as u64))
        }
        Call::TOptMgmt {
            fd,
            action,
            opt,
            omax,
        } => {
            put_number(out, " optmgmt ", fd.0 as u64)
                .and(put_number(out, " ", *action as u64))
                .and(put_pairs(out, " opt=x:", opt))
                .and(put_number(out, " omax=", *omax as u64))
        }
        _ => unreachable!(),
    }
}

// A call that asks for a connection, takes one, ends one or sends data with its release.
fn put_connection_request(out: &mut Vec<u8>, call: &Call) -> Result<(), AllocError>
    requires { IsTrue (is_connection_request call.now) }
    ensures { OnOk result (out.new.items ≡ out.old.items ++ codes " " ++ call_text call.now) }
{
    match call {
        Call::TConnect {
            fd,
            addr,
            opt,
            udata,
            amax,
            omax,
            umax,
        } => {
            put_number(out, " connect ", fd.0 as u64)
                .and(put_address_and_options(out, addr, opt))
                .and(put_pairs(out, " udata=x:", udata))
                .and(put_most(out, *amax, *omax, *umax))
        }
        Call::TAccept {
            fd,
            resfd,
            seq,
            opt,
            udata,
        } => {
            put_number(out, " accept ", fd.0 as u64)
                .and(put_number(out, " ", resfd.0 as u64))
                .and(put_number(out, " ", seq.0 as u64))
                .and(put_pairs(out, " opt=x:", opt))
                .and(put_pairs(out, " udata=x:", udata))
        }
        Call::TSndDis { fd, seq, udata } => {
            put_number(out, " snddis ", fd.0 as u64)
                .and(put_number(out, " ", seq.0 as u64))
                .and(put_pairs(out, " udata=x:", udata))
        }
        Call::TSndRelData { fd, udata } => {
            put_number(out, " sndreldata ", fd.0 as u64).and(put_pairs(out, " udata=x:", udata))
        }
        _ => unreachable!(),
    }
}

// A call that takes what the other side asked or answered about a connection.
#[tactic(auto, using(crate::proofs::Spaces::space_first))]
fn put_connection_receipt(out: &mut Vec<u8>, call: &Call) -> Result<(), AllocError>
    requires { IsTrue (is_connection_receipt call.now) }
    ensures { OnOk result (out.new.items ≡ out.old.items ++ codes " " ++ call_text call.now) }
{
    match call {
        Call::TRcvConnect {
            fd,
            amax,
            omax,
            umax,
        } => {
            put_number(out, " rcvconnect ", fd.0 as u64).and(put_most(out, *amax, *omax, *umax))
        }
        Call::TListen {
            fd,
            amax,
            omax,
            umax,
        } => { put_number(out, " listen ", fd.0 as u64).and(put_most(out, *amax, *omax, *umax)) }
        Call::TRcvDis { fd, umax } => {
            put_number(out, " rcvdis ", fd.0 as u64).and(put_number(out, " umax=", *umax as u64))
        }
        Call::TRcvRelData { fd, umax } => {
            put_number(out, " rcvreldata ", fd.0 as u64).and(put_number(
                out,
                " umax=",
                *umax as u64,
            ))
        }
        _ => unreachable!(),
    }
}

// A call that sends data or a datagram.
#[inline(never)]
fn put_send(out: &mut Vec<u8>, call: &Call) -> Result<(), AllocError>
    requires { IsTrue (is_send call.now) }
    ensures { OnOk result (out.new.items ≡ out.old.items ++ codes " " ++ call_text call.now) }
{
    match call {
        Call::TSnd { fd, bytes, flags } => {
            put_number(out, " snd ", fd.0 as u64)
                .and(put_pairs(out, " data=x:", bytes))
                .and(put_number(out, " flags=", *flags as u64))
        }
        Call::TSndV { fd, parts, flags } => {
            put_number(out, " sndv ", fd.0 as u64)
                .and(put_parts(out, parts.as_slice()))
                .and(put_number(out, " flags=", *flags as u64))
        }
        Call::TSndUData {
            fd,
            addr,
            opt,
            bytes,
        } => {
            put_number(out, " sndudata ", fd.0 as u64)
                .and(put_address_and_options(out, addr, opt))
                .and(put_pairs(out, " data=x:", bytes))
        }
        Call::TSndVUData {
            fd,
            addr,
            opt,
            parts,
        } => {
            put_number(out, " sndvudata ", fd.0 as u64)
                .and(put_address_and_options(out, addr, opt))
                .and(put_parts(out, parts.as_slice()))
        }
        _ => unreachable!(),
    }
}

// A call that takes data, a datagram or the error of a datagram.
#[inline(never)]
fn put_receive(out: &mut Vec<u8>, call: &Call) -> Result<(), AllocError>
    requires { IsTrue (is_receive call.now) }
    ensures { OnOk result (out.new.items ≡ out.old.items ++ codes " " ++ call_text call.now) }
{
    match call {
        Call::TRcv { fd, max } => {
            put_number(out, " rcv ", fd.0 as u64).and(put_number(out, " max=", *max as u64))
        }
        Call::TRcvV { fd, sizes } => {
            put_number(out, " rcvv ", fd.0 as u64).and(put_sizes(out, sizes.as_slice()))
        }
        Call::TRcvUData {
            fd,
            max,
            amax,
            omax,
        } => {
            put_number(out, " rcvudata ", fd.0 as u64)
                .and(put_number(out, " max=", *max as u64))
                .and(put_address_limits(out, *amax, *omax))
        }
        Call::TRcvVUData {
            fd,
            sizes,
            amax,
            omax,
        } => {
            put_number(out, " rcvvudata ", fd.0 as u64)
                .and(put_sizes(out, sizes.as_slice()))
                .and(put_address_limits(out, *amax, *omax))
        }
        Call::TRcvUDErr { fd, amax, omax } => {
            put_number(out, " rcvuderr ", fd.0 as u64).and(put_address_limits(out, *amax, *omax))
        }
        _ => unreachable!(),
    }
}

// A call that says no more than which endpoint.
fn put_plain(out: &mut Vec<u8>, call: &Call) -> Result<(), AllocError>
    ensures { OnOk result (out.new.items ≡ out.old.items ++ codes " " ++ plain_text call.now) }
{
    put_text(out, " ")?;
    out.extend_from_slice(Verb::of_call(call).word())?;
    match call.fd() {
        Some(fd) => put_number(out, " ", fd.0 as u64),
        None => Ok(()),
    }
}

pub(crate) fn put_call(out: &mut Vec<u8>, call: &Call) -> Result<(), AllocError>
    ensures { OnOk result (out.new.items ≡ out.old.items ++ codes " " ++ call_text call.now) }
{
    match call {
        Call::TOpen { prov, nonblock } => {
            put_text(out, " open ")
                .and(put_text(out, prov.name()))
                .and(put_mode(out, " ", *nonblock))
        }
        Call::SetMode { fd, nonblock } => {
            put_number(out, " mode ", fd.0 as u64).and(put_mode(out, " ", *nonblock))
        }
        Call::TBind { .. } | Call::TGetProtAddr { .. } | Call::TOptMgmt { .. } => {
            put_address_or_options(out, call)
        }
        Call::TConnect { .. }
        | Call::TAccept { .. }
        | Call::TSndDis { .. }
        | Call::TSndRelData { .. } => put_connection_request(out, call),
        Call::TRcvConnect { .. }
        | Call::TListen { .. }
        | Call::TRcvDis { .. }
        | Call::TRcvRelData { .. } => put_connection_receipt(out, call),
        Call::TSnd { .. } | Call::TSndV { .. } | Call::TSndUData { .. } | Call::TSndVUData { .. } =>
            put_send(out, call),
        Call::TRcv { .. }
        | Call::TRcvV { .. }
        | Call::TRcvUData { .. }
        | Call::TRcvVUData { .. }
        | Call::TRcvUDErr { .. } => put_receive(out, call),
        _ => put_plain(out, call),
    }
}

pub(crate) fn put_act(out: &mut Vec<u8>, act: &Act) -> Result<(), AllocError>
    ensures { OnOk result (out.new.items ≡ out.old.items ++ codes " " ++ act_text act.now) }
{
    match act {
        Act::Begin(call) => put_call(out, call),
        Act::More => put_text(out, " more"),
    }
}
