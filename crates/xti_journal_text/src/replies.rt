//! What calls answered, each after an arrow.

ghost use Rattle.std.specs.Prelude.{◌≡◌, ◌++◌, OnOk, IsTrue, codes};
ghost use Rattle.xti_journal_text.specs.JournalText.{event_text, sizes_text, info_text, data_text, reply_text, arrow_text};
ghost use Rattle.xti_model.specs.Families.{is_connection_news, is_received, is_error};

use crate::words::{put_limit, put_pairs};
use std::alloc::AllocError;
use xti_base::{Event, Info, Octets};
use xti_model::{Outcome, Reply};
use xti_words::{put_number, put_text};

fn event_name(event: &Option<Event>) -> &'static str
    ensures { result.now ≡ event_text event.now }
{
    match event {
        Some(event) => event.name(),
        None => "0",
    }
}

fn put_sizes_of(out: &mut Vec<u8>, info: &Info) -> Result<(), AllocError>
    ensures { OnOk result (out.new.items ≡ out.old.items ++ sizes_text info.now) }
{
    put_limit(out, " ", info.addr)
        .and(put_limit(out, " ", info.options))
        .and(put_limit(out, " ", info.tsdu))
        .and(put_limit(out, " ", info.etsdu))
}

fn put_info(out: &mut Vec<u8>, info: &Info) -> Result<(), AllocError>
    ensures { OnOk result (out.new.items ≡ out.old.items ++ info_text info.now) }
{
    put_sizes_of(out, info)
        .and(put_limit(out, " ", info.connect))
        .and(put_limit(out, " ", info.discon))
        .and(put_number(out, " ", info.servtype.number() as u64))
        .and(put_number(out, " ", info.flags as u64))
}

// What the other side asked or answered about a connection.
fn put_connection_news(out: &mut Vec<u8>, reply: &Reply) -> Result<(), AllocError>
    requires { IsTrue (is_connection_news reply.now) }
    ensures { OnOk result (out.new.items ≡ out.old.items ++ codes " => " ++ reply_text reply.now) }
{
    match reply {
        Reply::Connected { addr, opt, udata } => {
            put_pairs(out, " => ok x:", addr)
                .and(put_pairs(out, " x:", opt))
                .and(put_pairs(out, " x:", udata))
        }
        Reply::Listened {
            seq,
            addr,
            opt,
            udata,
        } => {
            put_number(out, " => ok ", seq.0 as u64)
                .and(put_pairs(out, " x:", addr))
                .and(put_pairs(out, " x:", opt))
                .and(put_pairs(out, " x:", udata))
        }
        Reply::Discon { reason, seq, udata } => {
            put_number(out, " => ok ", *reason as u64)
                .and(put_number(out, " ", seq.0 as u64))
                .and(put_pairs(out, " x:", udata))
        }
        Reply::RelData { udata } => put_pairs(out, " => ok x:", udata),
        _ => unreachable!(),
    }
}

// The data of a datagram, and its flags.
#[inline(never)]
fn put_data(out: &mut Vec<u8>, bytes: &Octets, flags: u32) -> Result<(), AllocError>
    ensures { OnOk result (out.new.items ≡ out.old.items ++ data_text bytes.now flags) }
{
    put_pairs(out, " x:", bytes).and(put_number(out, " ", flags as u64))
}

// Data, a datagram or the error of a datagram.
#[inline(never)]
fn put_received(out: &mut Vec<u8>, reply: &Reply) -> Result<(), AllocError>
    requires { IsTrue (is_received reply.now) }
    ensures { OnOk result (out.new.items ≡ out.old.items ++ codes " => " ++ reply_text reply.now) }
{
    match reply {
        Reply::Got { bytes, flags } => {
            put_pairs(out, " => ok x:", bytes).and(put_number(out, " ", *flags as u64))
        }
        Reply::UData {
            addr,
            opt,
            bytes,
            flags,
        } => {
            put_pairs(out, " => ok x:", addr)
                .and(put_pairs(out, " x:", opt))
                .and(put_data(out, bytes, *flags))
        }
        Reply::UDErr { addr, opt, code } => {
            put_pairs(out, " => ok x:", addr)
                .and(put_pairs(out, " x:", opt))
                .and(put_number(out, " ", *code as u64))
        }
        _ => unreachable!(),
    }
}

// The error of a call that failed.
fn put_error(out: &mut Vec<u8>, reply: &Reply) -> Result<(), AllocError>
    requires { IsTrue (is_error reply.now) }
    ensures { OnOk result (out.new.items ≡ out.old.items ++ codes " => " ++ reply_text reply.now) }
{
    match reply {
        Reply::Refused { errno } => { put_text(out, " => err ").and(put_text(out, errno.name())) }
        Reply::Look { event } => {
            put_text(out, " => err TLOOK ").and(put_text(out, event.name()))
        }
        Reply::Overflow { seq } => put_number(out, " => err TBUFOVFLW ", seq.0 as u64),
        _ => unreachable!(),
    }
}

fn put_reply(out: &mut Vec<u8>, reply: &Reply) -> Result<(), AllocError>
    ensures { OnOk result (out.new.items ≡ out.old.items ++ codes " => " ++ reply_text reply.now) }
{
    match reply {
        Reply::Plain => put_text(out, " => ok"),
        Reply::Opened { fd } => put_number(out, " => ok ", fd.0 as u64),
        Reply::Bound { addr, qlen } => {
            put_pairs(out, " => ok x:", addr).and(put_number(out, " ", *qlen as u64))
        }
        Reply::Sent { n } => put_number(out, " => ok ", *n as u64),
        Reply::Seen { event } => { put_text(out, " => ok ").and(put_text(out, event_name(event))) }
        Reply::Stands { state } => { put_text(out, " => ok ").and(put_text(out, state.name())) }
        Reply::Limits { info } => { put_text(out, " => ok").and(put_info(out, info)) }
        Reply::Addresses { local, peer } => {
            put_pairs(out, " => ok x:", local).and(put_pairs(out, " x:", peer))
        }
        Reply::Options { result, opt } => {
            put_number(out, " => ok ", *result as u64).and(put_pairs(out, " x:", opt))
        }
        Reply::Connected { .. }
        | Reply::Listened { .. }
        | Reply::Discon { .. }
        | Reply::RelData { .. } => put_connection_news(out, reply),
        Reply::Got { .. } | Reply::UData { .. } | Reply::UDErr { .. } => put_received(out, reply),
        Reply::Refused { .. } | Reply::Look { .. } | Reply::Overflow { .. } => {
            put_error(out, reply)
        }
    }
}

pub(crate) fn put_outcome(out: &mut Vec<u8>, outcome: &Outcome) -> Result<(), AllocError>
    ensures { OnOk result (out.new.items ≡ out.old.items ++ arrow_text outcome.now) }
{
    match outcome {
        Outcome::Done(reply) => put_reply(out, reply),
        Outcome::Part { taken } => put_number(out, " => part ", *taken as u64),
    }
}
