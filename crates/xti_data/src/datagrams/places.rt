//! What a send makes of one place.

ghost use Rattle.std.specs.Prelude.{◌≡◌, OnOk, OnErr, option_map};
ghost use Rattle.tpi_grammar.specs.declared.kind.Kind.TheVariants.{T_UNITDATA_IND, T_UDERROR_IND};
ghost use Rattle.tpi_prim.specs.Fields.{kind_in};
ghost use Rattle.xti_model.specs.Spot.{spot_bytes};
ghost use Rattle.xti_model.specs.Calls.Datagrams.{mark_flow};
ghost use Rattle.xti_lent.specs.Lends.{ChangesAt, IsPlaceOf};
ghost use Rattle.xti_data.specs.DatagramSends.{TakesDatagram, TakesError};

use std::alloc::AllocError;
use tpi_prim::Frame;
use xti_base::Fd;
use xti_end::Endpoint;
use xti_model::{Providers, Spot};

/// Sets the datagram flow mark of the endpoint with this descriptor, or clears it, where it is open. Takes no memory.
pub(crate) fn mark_flow(at: &mut Endpoint, p: &Providers, fd: Fd, to: Option<Spot>)
    requires { IsPlaceOf p.now fd.0 at.old }
    ensures cell { ChangesAt p.now fd.0 (mark_flow (option_map spot_bytes to)) at.old at.new }
    ensures place { at.new.place ≡ at.old.place }
{
    if at.is(p, fd) {
        at.set_flow_datagram(to);
    }
}

/// A datagram waits at the endpoint with this descriptor, where it is open; where memory runs out all is as before.
pub(crate) fn push_datagram(
    at: &mut Endpoint,
    p: &Providers,
    fd: Fd,
    frame: Frame,
) -> Result<(), AllocError>
    requires place { IsPlaceOf p.now fd.0 at.old }
    requires kind { kind_in frame ≡ T_UNITDATA_IND }
    ensures cell { OnOk result (TakesDatagram p.now fd.0 frame at.old at.new) }
    ensures place { at.new.place ≡ at.old.place }
    ensures err { OnErr result (at.new ≡ at.old) }
{
    if at.is(p, fd) {
        at.reserve_datagrams()?;
        at.push_datagram(frame);
    }
    Ok(())
}

/// A datagram error waits at the endpoint with this descriptor, where it is open, and its flow mark is cleared; where
/// memory runs out all is as before.
pub(crate) fn push_error(
    at: &mut Endpoint,
    p: &Providers,
    fd: Fd,
    frame: Frame,
) -> Result<(), AllocError>
    requires place { IsPlaceOf p.now fd.0 at.old }
    requires kind { kind_in frame ≡ T_UDERROR_IND }
    ensures cell { OnOk result (TakesError p.now fd.0 frame at.old at.new) }
    ensures place { at.new.place ≡ at.old.place }
    ensures err { OnErr result (at.new ≡ at.old) }
{
    if at.is(p, fd) {
        at.reserve_datagram_errors()?;
        at.push_datagram_error(frame);
        at.set_flow_datagram(None);
    }
    Ok(())
}
