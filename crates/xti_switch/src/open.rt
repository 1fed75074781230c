//! t_open.

ghost use Rattle.std.specs.Prelude.{◌≡◌, ◌<◌, true, is_some};
ghost use Rattle.xti_model.specs.Provider.{is_provider};
ghost use Rattle.xti_model.specs.World.{places};
ghost use Rattle.xti_lent.specs.Answers.{Answers, AnswersBy, StaysBlocked};
ghost use Rattle.xti_lent.specs.Lending.{held_at};
ghost use Rattle.xti_lent.specs.Fit.{HasCellsOf, IsFit, SameCells};
ghost use Rattle.xti_switch.specs.Taken.{opening, opening_at, IsFreeAt};

use xti_base::limits::NO_NUMBER;
use xti_base::{Errno, Fd, Prov};
use xti_lent::{Lent, done, is_provider, refused};
use xti_model::{Applied, Call, Reply};

pub(crate) fn open(lent: &mut Lent, prov: Prov, nonblock: bool) -> Applied
    requires fit { IsFit lent.old }
    requires switch { is_some lent.old.registry ≡ true }
    requires lent { HasCellsOf lent.old (Call.TOpen prov nonblock) }
    ensures step { AnswersBy (opening lent.old prov nonblock) lent.old lent.new result }
    ensures still { StaysBlocked lent.old lent.new result }
    ensures kept { SameCells lent.old lent.new }
{
    if !is_provider(prov) {
        return refused(lent, Fd(NO_NUMBER), Errno::TBADNAME);
    }
    match lent.registry_ref().free_place(lent.providers()) {
        None => refused(lent, Fd(NO_NUMBER), Errno::TSYSERR),
        Some(place) => open_at(lent, place, prov, nonblock),
    }
}

/// An endpoint opens at a free place.
fn open_at(lent: &mut Lent, place: u32, prov: Prov, nonblock: bool) -> Applied
    requires fit { IsFit lent.old }
    requires switch { is_some lent.old.registry ≡ true }
    requires provider { is_provider prov ≡ true }
    requires place { place < places lent.old.providers }
    requires free { IsFreeAt lent.old place }
    requires lent { is_some (held_at lent.old place) ≡ true }
    ensures step { Answers (opening_at lent.old place prov nonblock) lent.new result }
    ensures kept { SameCells lent.old lent.new }
{
    let providers = *lent.providers();
    let fd = lent.registry().open_place(&providers, place);
    lent.endpoint(place).open(prov, nonblock, &providers);
    done(lent, fd, Reply::Opened { fd })
}
