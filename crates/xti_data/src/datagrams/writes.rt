//! What a send makes of lent cells.

ghost use Rattle.std.specs.Prelude.{◌≡◌, OnOk, OnErr};
ghost use Rattle.tpi_grammar.specs.declared.kind.Kind.TheVariants.{T_UNITDATA_IND, T_UDERROR_IND};
ghost use Rattle.tpi_prim.specs.Fields.{kind_in};
ghost use Rattle.xti_end.specs.Frames.{datagram_in, error_in};
ghost use Rattle.xti_lent.specs.Answers.{Changed};
ghost use Rattle.xti_lent.specs.Fit.{AtOwnPlaces, SameCells};
ghost use Rattle.xti_lent.specs.Lends.{IsHeld};
ghost use Rattle.xti_data.specs.DatagramSends.{failing, giving, marking, receiving};

use crate::datagrams::places;
use std::alloc::AllocError;
use tpi_prim::Frame;
use xti_base::Fd;
use xti_lent::Lent;
use xti_model::Spot;

/// Sets the datagram flow mark, or clears it, where the endpoint is open. Takes no memory.
pub(crate) fn mark_flow(lent: &mut Lent, fd: Fd, to: Option<Spot>)
    requires own { AtOwnPlaces lent.old }
    requires there { IsHeld lent.old fd.0 }
    ensures cells { Changed (marking fd.0 to) lent.old lent.new }
    ensures kept { SameCells lent.old lent.new }
{
    let p = *lent.providers();
    places::mark_flow(lent.endpoint(p.place_of(fd)), &p, fd, to);
}

/// A datagram waits at an endpoint, where that is open; where memory runs out all is as before.
fn push_datagram(lent: &mut Lent, fd: Fd, frame: Frame) -> Result<(), AllocError>
    requires own { AtOwnPlaces lent.old }
    requires there { IsHeld lent.old fd.0 }
    requires kind { kind_in frame ≡ T_UNITDATA_IND }
    ensures ok { OnOk result (Changed (receiving fd.0 frame) lent.old lent.new) }
    ensures kept { SameCells lent.old lent.new }
    ensures err { OnErr result (lent.new ≡ lent.old) }
{
    let p = *lent.providers();
    places::push_datagram(lent.endpoint(p.place_of(fd)), &p, fd, frame)
}

/// A datagram error waits at the sender, where that is open, and its flow mark is cleared; where memory runs out all is as before.
pub(crate) fn push_error(lent: &mut Lent, fd: Fd, frame: Frame) -> Result<(), AllocError>
    requires own { AtOwnPlaces lent.old }
    requires there { IsHeld lent.old fd.0 }
    requires kind { kind_in frame ≡ T_UDERROR_IND }
    ensures ok { OnOk result (Changed (failing fd.0 (error_in frame)) lent.old lent.new) }
    ensures kept { SameCells lent.old lent.new }
    ensures err { OnErr result (lent.new ≡ lent.old) }
{
    let p = *lent.providers();
    places::push_error(lent.endpoint(p.place_of(fd)), &p, fd, frame)
}

/// A datagram waits at an endpoint, and the sender's flow mark is cleared; where memory runs out all is as before.
pub(crate) fn give(lent: &mut Lent, fd: Fd, to: Fd, frame: Frame) -> Result<(), AllocError>
    requires own { AtOwnPlaces lent.old }
    requires sender { IsHeld lent.old fd.0 }
    requires receiver { IsHeld lent.old to.0 }
    requires kind { kind_in frame ≡ T_UNITDATA_IND }
    ensures ok { OnOk result (Changed (giving fd.0 to.0 (datagram_in frame)) lent.old lent.new) }
    ensures kept { SameCells lent.old lent.new }
    ensures err { OnErr result (lent.new ≡ lent.old) }
{
    push_datagram(lent, to, frame)?;
    mark_flow(lent, fd, None);
    Ok(())
}
