//! The frames of requests to connect, of their answers, and of disconnects.

ghost use Rattle.std.specs.Prelude.{◌≡◌, ◌≤◌, length, true, IfOk};
ghost use Rattle.xti_base.specs.declared.limits.TheConstants.{MOST_ADDRESS, MOST_CONNECT_DATA, MOST_OPTIONS};
ghost use Rattle.tpi_grammar.specs.declared.kind.Kind.TheVariants.{T_CONN_IND, T_CONN_CON, T_DISCON_IND};
ghost use Rattle.tpi_prim.specs.Fields.{kind_in};
ghost use Rattle.xti_model.specs.Endpoint.{address_of};
ghost use Rattle.xti_end.specs.Held as Held;
ghost use Rattle.xti_switch.specs.Frames.{IsConfirmation, IsDisconnect, IsRequestBy};

use std::alloc::{AllocError, Global};
use tpi_prim::{Frame, encode_conn_con, encode_conn_ind, encode_discon_ind};
use xti_base::Seq;
use xti_end::Endpoint;
use xti_lent::{address_of, unless_too_big};

/// The T_CONN_IND of an open endpoint's request, under this number.
pub(crate) fn request(
    alloc: Global,
    e: &Endpoint,
    seq: Seq,
    options: &[u8],
    udata: &[u8],
) -> Result<Frame, AllocError>
    requires open { Held.is_open e.now ≡ true }
    requires source { length (address_of (Held.parts e.now)) ≤ MOST_ADDRESS }
    requires options { length options.now ≤ MOST_OPTIONS }
    requires data { length udata.now ≤ MOST_CONNECT_DATA }
    ensures kind { IfOk result (λ frame. kind_in frame ≡ T_CONN_IND) }
    ensures request { IfOk result (IsRequestBy (Held.parts e.now) seq.0 options.now udata.now) }
{
    unless_too_big(encode_conn_ind(alloc, address_of(e), options, seq.0, udata))
}

/// The T_CONN_CON of an endpoint with this address.
pub(crate) fn confirmation(
    alloc: Global,
    address: &[u8],
    options: &[u8],
    udata: &[u8],
) -> Result<Frame, AllocError>
    requires address { length address.now ≤ MOST_ADDRESS }
    requires options { length options.now ≤ MOST_OPTIONS }
    requires data { length udata.now ≤ MOST_CONNECT_DATA }
    ensures kind { IfOk result (λ frame. kind_in frame ≡ T_CONN_CON) }
    ensures confirmation { IfOk result (IsConfirmation address.now options.now udata.now) }
{
    unless_too_big(encode_conn_con(alloc, address, options, udata))
}

/// The T_DISCON_IND with a reason, the number of a request or 0, and data.
pub(crate) fn disconnect(
    alloc: Global,
    reason: u32,
    number: u32,
    udata: &[u8],
) -> Result<Frame, AllocError>
    requires { length udata.now ≤ MOST_CONNECT_DATA }
    ensures kind { IfOk result (λ frame. kind_in frame ≡ T_DISCON_IND) }
    ensures disconnect { IfOk result (IsDisconnect reason number udata.now) }
{
    unless_too_big(encode_discon_ind(alloc, reason, number, udata))
}
