//! A hall at its end.

ghost use Rattle.std.specs.Prelude.{◌≡◌};
ghost use mathlib.Core.List.{IsPrefix};
ghost use Rattle.xti_hall.specs.Seats.{AreOfOneHall, IsStanding, Meets};
ghost use Rattle.xti_hall.specs.Words.{IsSameSeat};

use crate::hall::Hall;
use crate::seat::Seat;
use std::marker::Model;
use xti_hall_rule::Stands;
use xti_model::Entries;

/// A hall whose history was taken out, so that nobody steps any more, and the seat that took it. Contracts see the seat, which has
/// seen the whole history.
#[derive(Drop)]
pub struct Ended<C: Stands> {
    pub(crate) hall: Hall<C>,
    pub(crate) seat: Seat<C>,
    pub(crate) history: Entries,
}

impl<C: Stands> Model for Ended<C> {
    ghost use Rattle.xti_hall.specs.Seats.{SeatView, shut, HasTaken};
    ghost use Rattle.xti_hall.specs.Words.{IsSeatOf};

    ghost Value = { SeatView };

    ghost view = { λ e. shut e.seat };

    ghost invariant = { λ e. IsSeatOf e.hall e.seat × HasTaken e.seat.view e.history };
}

impl<C: Stands> Ended<C> {
    /// Another seat of the hall, which has then seen the whole history. `whole`: it hadn't seen more. Takes no memory, and waits
    /// for nobody.
    pub fn meet(&mut self, other: Seat<C>) -> Seat<C>
        requires { AreOfOneHall other self.old }
        ensures hall { IsSameSeat other result × (self.new ≡ self.old) }
        ensures met { Meets other.view self.old.view result.view }
        ensures whole { IsPrefix other.view.seen self.old.view.seen }
        ensures standing { IsStanding result.view }
    {
        let mut other = other;
        self.hall.tell(&mut self.seat, &mut other);
        let _length = self.hall.length(&mut self.seat);
        self.hall.meet(other, &mut self.seat)
    }

    /// The history. Takes no memory.
    pub fn into_history(self) -> Entries
        ensures { result ≡ self.view.seen }
    {
        let Ended { history, .. } = self;
        history
    }
}
