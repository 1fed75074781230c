//! A glance at a descriptor.

ghost use Rattle.std.specs.Prelude.{◌≡◌, false, MatchOption};
ghost use Rattle.std.specs.List.{AllByRecursion};
ghost use Rattle.xti_model.specs.declared.call.Call.TheVariants.{TLookAt};
ghost use Rattle.xti_model.specs.Touched.{touched};
ghost use Rattle.xti_lent.specs.Fit.{AllLent, AtOwnPlaces, IsSound};
ghost use Rattle.xti_lent.specs.Lending.{cells};
ghost use Rattle.xti_hall.specs.Seats.{HoldsNone};
ghost use Rattle.xti_hall.specs.Words.{IsSameSeat};
ghost use Rattle.xti_gather.specs.Cells.{InHall};
ghost use Rattle.xti_gather.specs.Lends.{IsEmpty};
ghost use Rattle.xti_gather.specs.Orders.{IsLeastMissing};
ghost use Rattle.xti_gather.specs.Glances.{IsSameLater, Finds};

mod entering;
mod found;
mod marking;
mod surveying;

use crate::{Cell, leave_all, missing, try_enter};
pub use found::Glance;
pub use surveying::survey;
use xti_base::Fd;
use xti_core::{Sight, sight_of, touch};
use xti_hall::{Hall, Seat};
use xti_lent::Lent;
use xti_model::Call;

/// The least cell that isn't lent and that a look at the descriptor touches, as the lent cells tell; `None` exactly where all
/// that it touches are lent.
fn next_cell(lent: &Lent, fd: Fd) -> Option<u32>
    requires places { AtOwnPlaces lent.now }
    requires sound { AllByRecursion IsSound lent.now.held }
    ensures { MatchOption result
        (AllLent lent.now (touched lent.now.providers (cells lent.now) (TLookAt fd)))
        (IsLeastMissing lent.now (touched lent.now.providers (cells lent.now) (TLookAt fd))) }
{
    missing(lent, &touch(&Call::TLookAt { fd }, lent))
}

/// What the endpoint with the descriptor shows, found without waiting for anybody: each cell that a look at it touches, and no
/// other, is tried once.
///
/// The lent cells tell what a look touches: at first the descriptor's own cell, then that of its peer, and the switch and the
/// endpoint at the address of its datagram mark. Where one is held by another seat, the glance ends, as it may not wait. Once
/// all are lent, the whole history is looked at: the cells are then as after it, and what they show is what the world shows. All
/// are given back. Takes no memory, and changes nothing that another seat can see but that these turns are held meanwhile.
pub fn glance(hall: &Hall<Cell>, seat: &mut Seat<Cell>, lent: &mut Lent, fd: Fd) -> Glance
    requires hall { InHall hall.now seat.old lent.old.providers }
    requires free { seat.old.view.journal ≡ false }
    requires none { HoldsNone seat.old.view }
    requires empty { IsEmpty lent.old }
    ensures hall { IsSameSeat seat.old seat.new }
    ensures none { HoldsNone seat.new.view }
    ensures empty { IsEmpty lent.new × (lent.new.providers ≡ lent.old.providers) }
    ensures same { IsSameLater seat.old.view seat.new.view }
    ensures finds { Finds seat.old.view seat.new.view fd result }
{
    while let Some(cell) = next_cell(lent, fd) {
        if !try_enter(hall, seat, lent, cell) {
            leave_all(hall, seat, lent);
            return Glance::Busy { cell };
        }
    }
    let at = hall.length(seat);
    let shown = sight_of(lent, fd);
    leave_all(hall, seat, lent);
    match shown {
        Some(Sight { state, event }) => Glance::Seen { state, event, at },
        None => Glance::Gone { at },
    }
}
