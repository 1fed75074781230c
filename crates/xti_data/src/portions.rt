//! What the peer takes of a send in one step.

ghost use Rattle.std.specs.Prelude.{◌≡◌, ◌≤◌, true, length, IfOk};
ghost use Rattle.std.specs.List.{concat};
ghost use Rattle.xti_base.specs.declared.limits.TheConstants.{MOST_SEND};
ghost use Rattle.tpi_prim.specs.Fields.{kind_in};
ghost use Rattle.tpi_prim.specs.Indication.{kind_for};
ghost use Rattle.xti_end.specs.Held as Held;
ghost use Rattle.xti_data.specs.Portions.{portion_of, IsIndication, IsOfParts, IsPiece};

use crate::limits::{has_ends, has_more, is_expedited};
use std::alloc::{AllocError, Global};
use tpi_prim::{Frame, IndicationWriter};
use xti_base::Octets;
use xti_end::Endpoint;
use xti_lent::total;
use xti_model::Providers;

/// The bytes of a send that the peer takes in one step.
#[derive(Clone, Copy)]
pub(crate) struct Portion {
    pub(crate) expedited: bool,
    /// How many bytes were taken before.
    pub(crate) before: usize,
    /// How many of the next are taken.
    pub(crate) count: usize,
    /// Whether the message ends after them.
    pub(crate) ends: bool,
}

/// What is taken of the parts where the peer has room for so many bytes.
pub(crate) fn next_portion(
    p: &Providers,
    e: &Endpoint,
    parts: &[Octets],
    flags: u32,
    before: usize,
    room: usize,
) -> Portion
    requires open { Held.is_open e.now ≡ true }
    requires few { length (concat parts.now) ≤ MOST_SEND }
    ensures { result ≡ portion_of p.now parts.now flags before room (Held.parts e.now) }
{
    let left = total(parts).saturating_sub(before);
    let count = left.min(room);
    let expedited = is_expedited(flags);
    Portion {
        expedited,
        before,
        count,
        ends: count == left && !has_more(flags) && has_ends(p, e, expedited),
    }
}

/// The T_DATA_IND or T_EXDATA_IND of a portion of the parts. Each of its bytes is copied once.
fn fill(alloc: Global, parts: &[Octets], portion: Portion) -> Result<Frame, AllocError>
    requires { IsOfParts parts.now portion }
    ensures { IfOk result (IsIndication parts.now portion) }
{
    let mut writer = IndicationWriter::begin(
        alloc,
        portion.expedited,
        !portion.ends,
        portion.count,
    )?;
    let mut skip = portion.before;
    let mut left = portion.count;
    for part in parts {
        let bytes = part.as_slice();
        let skipped = skip.min(bytes.len());
        let rest = &bytes[skipped..];
        let taken = left.min(rest.len());
        writer.put(&rest[..taken]);
        skip -= skipped;
        left -= taken;
    }
    Ok(writer.finish())
}

/// The same, as what waits at the peer.
pub(crate) fn indication(
    alloc: Global,
    parts: &[Octets],
    portion: Portion,
) -> Result<Frame, AllocError>
    requires { IsOfParts parts.now portion }
    ensures kind { IfOk result (λ frame. kind_in frame ≡ kind_for portion.expedited) }
    ensures symbols { IfOk result (IsPiece parts.now portion) }
{
    fill(alloc, parts, portion)
}
