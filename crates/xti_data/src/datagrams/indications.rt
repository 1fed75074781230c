//! The indications of datagrams and their errors, as frames.

ghost use Rattle.std.specs.Prelude.{◌≡◌, ◌≤◌, length, true, Some, IfOk, IsErrOf};
ghost use Rattle.std.specs.List.{concat};
ghost use Rattle.xti_base.specs.declared.limits.TheConstants.{MOST_ADDRESS, MOST_OPTIONS, MOST_SEND};
ghost use Rattle.tpi_grammar.specs.declared.kind.Kind.TheVariants.{T_UNITDATA_IND, T_UDERROR_IND};
ghost use Rattle.tpi_prim.specs.Fields.{kind_in};
ghost use Rattle.xti_model.specs.Endpoint.{address_of};
ghost use Rattle.xti_model.specs.Calls.Datagrams.{error_to};
ghost use Rattle.xti_end.specs.Frames.{error_in};
ghost use Rattle.xti_end.specs.Held as Held;
ghost use Rattle.xti_data.specs.DatagramSends.{HoldsDatagram, IsDatagramOf};

use std::alloc::{AllocError, Global};
use tpi_prim::{EncodeFail, Frame, encode_uderror_ind, encode_unitdata_ind};
use xti_base::Octets;
use xti_base::reasons::UNDELIVERABLE;
use xti_end::Endpoint;
use xti_lent::{address_of, total, unless_too_big};

/// The parts, joined.
fn joined(alloc: Global, parts: &[Octets]) -> Result<Vec<u8>, AllocError>
    requires { length (concat parts.now) ≤ MOST_SEND }
    ensures { IfOk result (λ bytes. bytes.items ≡ concat parts.now) }
{
    let mut bytes = Vec::with_capacity(alloc, total(parts))?;
    for part in parts {
        bytes.extend_from_slice(part.as_slice())?;
    }
    Ok(bytes)
}

/// The T_UNITDATA_IND of a datagram that the open endpoint sends, which isn't too big. A datagram of one part is copied once.
pub(crate) fn datagram(
    alloc: Global,
    e: &Endpoint,
    options: &[u8],
    parts: &[Octets],
) -> Result<Frame, EncodeFail>
    requires open { Held.is_open e.now ≡ true }
    requires source { length (address_of (Held.parts e.now)) ≤ MOST_ADDRESS }
    requires options { length options.now ≤ MOST_OPTIONS }
    requires data { length (concat parts.now) ≤ MOST_SEND }
    ensures kind { IfOk result (λ frame. kind_in frame ≡ T_UNITDATA_IND) }
    ensures datagram { IfOk result (IsDatagramOf (Some (Held.parts e.now)) options.now parts.now) }
    ensures fits { IsErrOf result EncodeFail.TooBig → ⊥ }
{
    match parts {
        [only] => datagram_of(alloc, address_of(e), options, only.as_slice()),
        _ => datagram_of(
            alloc,
            address_of(e),
            options,
            joined(alloc, parts)?.as_slice(),
        ),
    }
}

/// The T_UNITDATA_IND of a datagram from an address.
fn datagram_of(
    alloc: Global,
    source: &[u8],
    options: &[u8],
    bytes: &[u8],
) -> Result<Frame, EncodeFail>
    requires source { length source.now ≤ MOST_ADDRESS }
    requires options { length options.now ≤ MOST_OPTIONS }
    requires data { length bytes.now ≤ MOST_SEND }
    ensures kind { IfOk result (λ frame. kind_in frame ≡ T_UNITDATA_IND) }
    ensures datagram { IfOk result (HoldsDatagram source.now options.now bytes.now) }
    ensures fits { IsErrOf result EncodeFail.TooBig → ⊥ }
{
    encode_unitdata_ind(alloc, source, options, bytes)
}

/// The T_UDERROR_IND of a datagram that nobody was there to take.
pub(crate) fn datagram_error(
    alloc: Global,
    address: &[u8],
    options: &[u8],
) -> Result<Frame, AllocError>
    requires address { length address.now ≤ MOST_ADDRESS }
    requires options { length options.now ≤ MOST_OPTIONS }
    ensures kind { IfOk result (λ frame. kind_in frame ≡ T_UDERROR_IND) }
    ensures error { IfOk result (λ frame. error_in frame ≡ error_to address.now options.now) }
{
    unless_too_big(encode_uderror_ind(alloc, address, options, UNDELIVERABLE))
}
