//! t_close.

ghost use Rattle.std.specs.Prelude.{◌≡◌, ◌||◌, false, true, is_some, IfOk, IfSome, IsOk, OnErr, OnOk};
ghost use Rattle.xti_model.specs.Calls.Close as Close;
ghost use Rattle.xti_model.specs.Events.{some_wait};
ghost use Rattle.xti_model.specs.Memory.{has_others};
ghost use Rattle.xti_model.specs.World.{close_cell, generation_of};
ghost use Rattle.xti_end.specs.Held.{cell, is_open, parts};
ghost use Rattle.xti_lent.specs.Answers.{Changed, IsUnchanged, MakesBy, StaysBlocked};
ghost use Rattle.xti_lent.specs.Fit.{AtOwnPlaces, HasCellsOf, IsFit, SameCells};
ghost use Rattle.xti_lent.specs.Lending.{open_at};
ghost use Rattle.xti_lent.specs.Lends.{IsHeld, IsPlaceOf};
ghost use Rattle.xti_switch.specs.Closes.{closing, CanGiveUp, IsKnownOpen, TellsOthers};
ghost use Rattle.xti_switch.specs.Hearing.{CanBreak};
ghost use Rattle.xti_switch.specs.Taken.{IsOpen};

use crate::breaking::break_off;
use crate::callers::give_up_callers;
use std::alloc::AllocError;
use xti_base::reasons::PEER_CLOSED;
use xti_base::{Errno, Fd};
use xti_end::Endpoint;
use xti_lent::{Lent, done, refused};
use xti_model::{Applied, Call, Providers, Reply};

/// Whether the open endpoint has a request that it didn't answer.
fn is_asked(e: &Endpoint) -> bool
    requires { is_open e.now ≡ true }
    ensures { result ≡ (some_wait (parts e.now).pending || some_wait (parts e.now).outstanding) }
{
    e.has_pending() || e.outstanding(0).is_some()
}

/// Whoever is linked with the open endpoint, or asked by it, or asks it, hears that it closes; where memory runs out the cells
/// are as before.
fn tell_others(lent: &mut Lent, fd: Fd) -> Result<(), AllocError>
    requires fit { IsFit lent.old }
    requires open { IsOpen lent.old fd.0 }
    requires links { IfSome (open_at lent.old fd.0) (CanBreak lent.old) }
    requires callers { CanGiveUp lent.old fd.0 }
    ensures ok { OnOk result (TellsOthers lent.old lent.new fd.0) }
    ensures kept { SameCells lent.old lent.new }
    ensures registry { lent.new.registry ≡ lent.old.registry }
    ensures err { OnErr result (IsUnchanged lent.old lent.new) }
    ensures sure { has_others (open_at lent.old fd.0) ≡ false → IsOk result }
{
    let asked = match lent.open_endpoint(fd) {
        Some(e) => is_asked(e),
        None => unreachable!(),
    };
    if asked {
        give_up_callers(lent, fd)
    } else {
        break_off(lent, fd, PEER_CLOSED, &[])
    }
}

/// The endpoint at a place closes, if it is open with this descriptor. Takes no memory.
fn close_at(at: &mut Endpoint, p: &Providers, fd: Fd)
    requires { IsPlaceOf p.now fd.0 at.old }
    ensures cell { cell at.new ≡ close_cell (generation_of p.now fd.0) (cell at.old) }
    ensures place { at.new.place ≡ at.old.place }
{
    if at.is(p, fd) {
        at.close();
    }
}

/// The endpoint closes, and its address and its place are free again. Takes no memory.
fn close_own(lent: &mut Lent, fd: Fd)
    requires own { AtOwnPlaces lent.old }
    requires there { IsHeld lent.old fd.0 }
    requires switch { is_some lent.old.registry ≡ true }
    requires known { IsKnownOpen lent.old fd.0 }
    ensures cells { Changed (Close.closing lent.old.providers fd.0) lent.old lent.new }
    ensures kept { SameCells lent.old lent.new }
{
    let p = *lent.providers();
    let place = p.place_of(fd);
    let registry = lent.registry();
    registry.remove(fd);
    registry.close_place(place);
    close_at(lent.endpoint(place), &p, fd);
}

pub(crate) fn close(lent: &mut Lent, fd: Fd) -> Result<Applied, AllocError>
    requires fit { IsFit lent.old }
    requires lent { HasCellsOf lent.old (Call.TClose fd) }
    ensures step { MakesBy (closing lent.old fd.0) lent.old lent.new result }
    ensures still { IfOk result (StaysBlocked lent.old lent.new) }
    ensures kept { SameCells lent.old lent.new }
    ensures err { OnErr result (IsUnchanged lent.old lent.new) }
    ensures sure { has_others (open_at lent.old fd.0) ≡ false → IsOk result }
{
    if lent.open_endpoint(fd).is_none() {
        return Ok(refused(lent, fd, Errno::TBADF));
    }
    tell_others(lent, fd)?;
    close_own(lent, fd);
    Ok(done(lent, fd, Reply::Plain))
}
