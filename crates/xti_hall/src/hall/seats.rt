ghost use Rattle.std.specs.Prelude.{◌≡◌, ◌<◌, ◌≤◌, false, IfOk};
ghost use Rattle.xti_hall_rule.specs.Steps.{giver, given, told};
ghost use Rattle.xti_hall.specs.Seats.{IsStanding, Meets, SeesLength, Splits};
ghost use Rattle.xti_hall.specs.Words.{IsSeatOf, IsSameSeat};

use super::Hall;
use crate::seat::Seat;
use std::sync::Wait;
use thiserror::Error;
use xti_hall_rule::{Give, Look, Mark, Note, Stands};

/// The given seat has no spare number.
#[derive(Drop, Debug, Error)]
#[error("the seat has no spare number")]
pub struct NoSeat;

impl<C: Stands> Hall<C> {
    /// Cuts a seat in two. The new one isn't out yet.
    fn cut(&self, seat: &mut Seat<C>) -> Seat<C>
        requires hall { IsSeatOf self.now seat.old }
        requires some { seat.old.view.next < 33 }
        requires free { seat.old.view.journal ≡ false }
        ensures hall { IsSameSeat seat.old seat.new × (result.hall ≡ seat.old.hall) }
        ensures giver { seat.new.view ≡ giver seat.old.view }
        ensures given { result.view ≡ given seat.old.view }
    {
        let number = seat.next;
        let pass = self.table.shared.split_seat::<Give>(&mut seat.pass);
        seat.next = number + 1;
        Seat {
            pass,
            number,
            next: 33,
            steps: 0,
            unfinished: None,
        }
    }

    /// A seat with the least spare number of the given one, which has seen as much, made no call and has no spare number. The
    /// given seat has that number no more. `NoSeat` exactly where it has no spare number; then it stays as it was. Takes no
    /// memory.
    pub fn split<R: Wait>(&self, rt: &R, seat: &mut Seat<C>) -> Result<Seat<C>, NoSeat>
        requires hall { IsSeatOf self.now seat.old }
        requires free { seat.old.view.journal ≡ false }
        ensures hall { IsSameSeat seat.old seat.new }
        ensures seats { Splits seat.old seat.new result }
        ensures standing { IsStanding seat.new.view × IfOk result (λ s. IsStanding s.view) }
    {
        if seat.next >= 33 {
            return Err(NoSeat);
        }
        let mut fresh = self.cut(seat);
        let mut journal = self.look(rt, &mut fresh);
        journal.marks[fresh.number as usize] = Mark::Free;
        self.give_pen_unseen(&mut fresh.pass, journal);
        Ok(fresh)
    }

    /// The first seat, which has then seen what both had seen. Takes no memory, and waits for nobody.
    pub fn meet(&self, seat: Seat<C>, other: &mut Seat<C>) -> Seat<C>
        requires hall { IsSeatOf self.now seat × IsSeatOf self.now other.old }
        ensures hall { (result.hall ≡ seat.hall) × (result.id ≡ seat.id) × (other.new ≡ other.old) }
        ensures met { Meets seat.view other.old.view result.view }
        ensures standing { IsStanding result.view }
    {
        let mut first = seat;
        self.tell(&mut first, other);
        let _length = self.length(&mut first);
        first
    }

    /// The first seat is told what the second has seen.
    pub(crate) fn tell(&self, seat: &mut Seat<C>, other: &mut Seat<C>)
        requires hall { IsSeatOf self.now seat.old × IsSeatOf self.now other.old }
        ensures hall { IsSameSeat seat.old seat.new × (other.new ≡ other.old) }
        ensures told { seat.new.view ≡ told seat.old.view other.old.view }
    {
        let note = self.table.shared.split_seat::<Note>(&mut other.pass);
        self.table.shared.join_seat::<Note>(&mut seat.pass, note);
    }

    /// The length of the history, all of which the seat has then seen. Takes no memory, and waits for nobody.
    pub fn length(&self, seat: &mut Seat<C>) -> u64
        requires hall { IsSeatOf self.now seat.old }
        ensures hall { IsSameSeat seat.old seat.new }
        ensures seen { SeesLength seat.old.view result seat.new.view }
    {
        self.table.shared.load::<Look>(&mut seat.pass, 0)
    }
}
