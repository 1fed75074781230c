ghost use Rattle.std.specs.Prelude.{◌≡◌, ◌<◌, false, ℕ, Some, None, IfSome, IfNone};
ghost use Rattle.xti_model.specs.World.{Cell as MCell};
ghost use Rattle.xti_hall_rule.specs.Steps.{at, refused_at};
ghost use Rattle.xti_hall.specs.Seats.{Enters, MayLeave, Left};
ghost use Rattle.xti_hall.specs.Words.{setting_of, IsSeatOf, IsSameSeat};

use super::Hall;
use crate::seat::Seat;
use std::sync::Wait;
use xti_hall_rule::Stands;

impl<C: Stands> Hall<C> {
    /// Takes a cell's turn and its value, and waits for the turn. The value stands for the cell after a legal history that
    /// begins with all that the seat had seen, and all the cells that the seat then holds are as after that one history. Cells
    /// are entered in rising order, and the journal last. Takes no memory.
    pub fn enter<R: Wait>(&self, rt: &R, seat: &mut Seat<C>, cell: u32) -> C
        requires hall { IsSeatOf self.now seat.old }
        requires cell { cell < (setting_of self.now).cells }
        requires order { (i : ℕ) (m : MCell) → at seat.old.view i ≡ Some m → i < cell }
        requires free { seat.old.view.journal ≡ false }
        ensures hall { IsSameSeat seat.old seat.new }
        ensures value { Enters C.stands seat.old.view cell result seat.new.view }
    {
        self.take(rt, &mut seat.pass, cell);
        self.take_out(&mut seat.pass, cell)
    }

    /// One try at a cell's turn, and its value where the turn was free. `None` exactly where it was held at that step; the seat's
    /// view has then one refusal more, with the cell and the recorded values of the cells held. Cells may be tried in any order.
    /// Takes no memory, and waits for nobody.
    pub fn try_enter(&self, seat: &mut Seat<C>, cell: u32) -> Option<C>
        requires hall { IsSeatOf self.now seat.old }
        requires cell { cell < (setting_of self.now).cells }
        requires other { at seat.old.view cell ≡ None }
        requires free { seat.old.view.journal ≡ false }
        ensures hall { IsSameSeat seat.old seat.new }
        ensures value { IfSome result (λ x. Enters C.stands seat.old.view cell x seat.new.view) }
        ensures refused { IfNone result (seat.new.view ≡ refused_at seat.old.view cell) }
    {
        if self.try_once(&mut seat.pass, cell) {
            Some(self.take_out(&mut seat.pass, cell))
        } else {
            None
        }
    }

    /// Gives a cell back. The value stands for what is recorded for the cell: what it had at `enter`, or what the seat's
    /// `commit` since then gave it. Takes no memory, and waits for nobody.
    pub fn leave(&self, seat: &mut Seat<C>, cell: u32, value: C)
        requires hall { IsSeatOf self.now seat.old }
        requires cell { cell < (setting_of self.now).cells }
        requires stands { MayLeave C.stands seat.old.view cell value }
        ensures hall { IsSameSeat seat.old seat.new }
        ensures gone { Left seat.old.view cell seat.new.view }
    {
        self.put_back(&mut seat.pass, cell, value);
    }
}
