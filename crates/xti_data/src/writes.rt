//! What a send makes of lent cells.

ghost use Rattle.std.specs.Prelude.{◌≡◌, ◌∷◌, [], IfSome, OnOk, OnErr};
ghost use Rattle.tpi_grammar.specs.declared.kind.Kind.TheVariants.{T_ORDREL_IND};
ghost use Rattle.tpi_prim.specs.Fields.{kind_in};
ghost use Rattle.tpi_prim.specs.Indication.{kind_for};
ghost use Rattle.xti_model.specs.Calls.Release as Release;
ghost use Rattle.xti_model.specs.World.{at_endpoint};
ghost use Rattle.xti_end.specs.Frames.{release_in};
ghost use Rattle.xti_lent.specs.Answers.{Changed};
ghost use Rattle.xti_lent.specs.Fit.{AtOwnPlaces, SameCells};
ghost use Rattle.xti_lent.specs.Lends.{IsHeld};
ghost use Rattle.xti_data.specs.Portions.{counting, taking_data, IsWithin};
ghost use Rattle.xti_data.specs.Sends.{marking, sender, told_of_release};

use crate::places;
use crate::portions::Portion;
use std::alloc::AllocError;
use tpi_prim::Frame;
use xti_base::Fd;
use xti_lent::Lent;

/// An endpoint is told of a release and of its data, where it is open and names `from` as its peer. Takes no memory.
pub(crate) fn tell_release(lent: &mut Lent, fd: Fd, from: Fd, frame: Frame)
    requires own { AtOwnPlaces lent.old }
    requires there { IsHeld lent.old fd.0 }
    requires kind { kind_in frame ≡ T_ORDREL_IND }
    ensures cells { Changed (told_of_release fd.0 from.0 (release_in frame)) lent.old lent.new }
    ensures kept { SameCells lent.old lent.new }
{
    let p = *lent.providers();
    places::tell_release(lent.endpoint(p.place_of(fd)), &p, fd, from, frame);
}

/// The endpoint sends no more, where it is open. Takes no memory.
pub(crate) fn release(lent: &mut Lent, fd: Fd)
    requires own { AtOwnPlaces lent.old }
    requires there { IsHeld lent.old fd.0 }
    ensures cells { Changed (at_endpoint fd.0 Release.after_send ∷ []) lent.old lent.new }
    ensures kept { SameCells lent.old lent.new }
{
    let p = *lent.providers();
    places::release(lent.endpoint(p.place_of(fd)), &p, fd);
}

/// Data wait at an endpoint, where it is open and names `from` as its peer; where memory runs out all is as before.
pub(crate) fn push_data(
    lent: &mut Lent,
    fd: Fd,
    from: Fd,
    expedited: bool,
    frame: Frame,
) -> Result<(), AllocError>
    requires own { AtOwnPlaces lent.old }
    requires there { IsHeld lent.old fd.0 }
    requires kind { kind_in frame ≡ kind_for expedited }
    ensures ok { OnOk result (Changed (taking_data fd.0 from.0 expedited frame) lent.old lent.new) }
    ensures kept { SameCells lent.old lent.new }
    ensures err { OnErr result (lent.new ≡ lent.old) }
{
    let p = *lent.providers();
    places::push_data(
        lent.endpoint(p.place_of(fd)),
        &p,
        fd,
        from,
        expedited,
        frame,
    )
}

/// The endpoint counts what it sent, where it is open. Takes no memory.
pub(crate) fn count_sent(lent: &mut Lent, fd: Fd, portion: Portion)
    requires own { AtOwnPlaces lent.old }
    requires there { IsHeld lent.old fd.0 }
    requires within { IfSome (sender lent.old fd.0) (IsWithin lent.old.providers portion) }
    ensures cells { Changed (counting lent.old.providers fd.0 portion) lent.old lent.new }
    ensures kept { SameCells lent.old lent.new }
{
    let p = *lent.providers();
    places::count_sent(lent.endpoint(p.place_of(fd)), &p, fd, portion);
}

/// The endpoint waits to send data of the kind, where it is open. Takes no memory.
pub(crate) fn mark_flow(lent: &mut Lent, fd: Fd, expedited: bool)
    requires own { AtOwnPlaces lent.old }
    requires there { IsHeld lent.old fd.0 }
    ensures cells { Changed (marking fd.0 expedited) lent.old lent.new }
    ensures kept { SameCells lent.old lent.new }
{
    let p = *lent.providers();
    places::mark_flow(lent.endpoint(p.place_of(fd)), &p, fd, expedited);
}
