//! Whether two answers are the same.

ghost use Rattle.std.specs.Prelude.{◌≡◌, IsTrue};
ghost use Rattle.xti_model.specs.Families.{is_connection_news, is_received, is_error};
ghost use Rattle.xti_check.specs.Answers.{Tells, limits_of};

use xti_base::{Info, Limit, Octets};
use xti_model::{Outcome, Reply};

fn same_bytes(bytes: &Octets, others: &Octets) -> bool
    ensures { Tells result bytes.now others.now }
{
    bytes.as_slice() == others.as_slice()
}

fn same_limit(limit: Limit, other: Limit) -> bool
    ensures { Tells result limit other }
{
    match (limit, other) {
        (Limit::At(bytes), Limit::At(other_bytes)) => bytes == other_bytes,
        (Limit::Infinite, Limit::Infinite) | (Limit::Invalid, Limit::Invalid) => true,
        _ => false,
    }
}

fn same_limits(info: &Info, other: &Info) -> bool
    ensures { Tells result (limits_of info.now) (limits_of other.now) }
{
    same_limit(info.addr, other.addr)
        && same_limit(info.options, other.options)
        && same_limit(info.tsdu, other.tsdu)
        && same_limit(info.etsdu, other.etsdu)
        && same_limit(info.connect, other.connect)
        && same_limit(info.discon, other.discon)
}

fn same_info(info: &Info, other: &Info) -> bool
    ensures { Tells result info.now other.now }
{
    same_limits(info, other) && info.servtype == other.servtype && info.flags == other.flags
}

/// Whether the reply, which tells of a connection, is the other one.
fn same_connection_news(reply: &Reply, other: &Reply) -> bool
    requires { IsTrue (is_connection_news reply.now) }
    ensures { Tells result reply.now other.now }
{
    match (reply, other) {
        (
            Reply::Connected { addr, opt, udata },
            Reply::Connected {
                addr: other_addr,
                opt: other_opt,
                udata: other_udata,
            },
        ) => same_bytes(addr, other_addr)
            && same_bytes(opt, other_opt)
            && same_bytes(udata, other_udata),
        (
            Reply::Listened {
                seq,
                addr,
                opt,
                udata,
            },
            Reply::Listened {
                seq: other_seq,
                addr: other_addr,
                opt: other_opt,
                udata: other_udata,
            },
        ) => seq == other_seq
            && same_bytes(addr, other_addr)
            && same_bytes(opt, other_opt)
            && same_bytes(udata, other_udata),
        (
            Reply::Discon { reason, seq, udata },
            Reply::Discon {
                reason: other_reason,
                seq: other_seq,
                udata: other_udata,
            },
        ) => reason == other_reason && seq == other_seq && same_bytes(udata, other_udata),
        (Reply::RelData { udata }, Reply::RelData { udata: other_udata }) => {
            same_bytes(udata, other_udata)
        }
        _ => false,
    }
}

/// Whether the reply, which has data, a datagram or the error of one, is the other one.
fn same_received(reply: &Reply, other: &Reply) -> bool
    requires { IsTrue (is_received reply.now) }
    ensures { Tells result reply.now other.now }
{
    match (reply, other) {
        (
            Reply::Got { bytes, flags },
            Reply::Got {
                bytes: other_bytes,
                flags: other_flags,
            },
        ) => same_bytes(bytes, other_bytes) && flags == other_flags,
        (
            Reply::UData {
                addr,
                opt,
                bytes,
                flags,
            },
            Reply::UData {
                addr: other_addr,
                opt: other_opt,
                bytes: other_bytes,
                flags: other_flags,
            },
        ) => same_bytes(addr, other_addr)
            && same_bytes(opt, other_opt)
            && same_bytes(bytes, other_bytes)
            && flags == other_flags,
        (
            Reply::UDErr { addr, opt, code },
            Reply::UDErr {
                addr: other_addr,
                opt: other_opt,
                code: other_code,
            },
        ) => same_bytes(addr, other_addr) && same_bytes(opt, other_opt) && code == other_code,
        _ => false,
    }
}

/// Whether the reply, which is an error, is the other one.
fn same_error(reply: &Reply, other: &Reply) -> bool
    requires { IsTrue (is_error reply.now) }
    ensures { Tells result reply.now other.now }
{
    match (reply, other) {
        (Reply::Refused { errno }, Reply::Refused { errno: other_errno }) => errno == other_errno,
        (Reply::Look { event }, Reply::Look { event: other_event }) => event == other_event,
        (Reply::Overflow { seq }, Reply::Overflow { seq: other_seq }) => seq == other_seq,
        _ => false,
    }
}

/// Whether the reply is the other one.
fn same_reply(reply: &Reply, other: &Reply) -> bool
    ensures { Tells result reply.now other.now }
{
    match (reply, other) {
        (Reply::Plain, Reply::Plain) => true,
        (Reply::Opened { fd }, Reply::Opened { fd: other_fd }) => fd == other_fd,
        (
            Reply::Bound { addr, qlen },
            Reply::Bound {
                addr: other_addr,
                qlen: other_qlen,
            },
        ) => same_bytes(addr, other_addr) && qlen == other_qlen,
        (Reply::Sent { n }, Reply::Sent { n: other_n }) => n == other_n,
        (Reply::Seen { event }, Reply::Seen { event: other_event }) => event == other_event,
        (Reply::Stands { state }, Reply::Stands { state: other_state }) => state == other_state,
        (Reply::Limits { info }, Reply::Limits { info: other_info }) => same_info(info, other_info),
        (
            Reply::Addresses { local, peer },
            Reply::Addresses {
                local: other_local,
                peer: other_peer,
            },
        ) => same_bytes(local, other_local) && same_bytes(peer, other_peer),
        (
            Reply::Options { result, opt },
            Reply::Options {
                result: other_result,
                opt: other_opt,
            },
        ) => result == other_result && same_bytes(opt, other_opt),
        (
            Reply::Connected { .. }
            | Reply::Listened { .. }
            | Reply::Discon { .. }
            | Reply::RelData { .. },
            _,
        ) => same_connection_news(reply, other),
        (Reply::Got { .. } | Reply::UData { .. } | Reply::UDErr { .. }, _) => {
            same_received(reply, other)
        }
        (Reply::Refused { .. } | Reply::Look { .. } | Reply::Overflow { .. }, _) => {
            same_error(reply, other)
        }
        _ => false,
    }
}

/// Whether the outcome is the other one.
pub(crate) fn same_outcome(outcome: &Outcome, other: &Outcome) -> bool
    ensures { Tells result outcome.now other.now }
{
    match (outcome, other) {
        (Outcome::Done(reply), Outcome::Done(other)) => same_reply(reply, other),
        (Outcome::Part { taken }, Outcome::Part { taken: other_taken }) => taken == other_taken,
        _ => false,
    }
}
