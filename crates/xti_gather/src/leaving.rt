//! Cells are given back.

ghost use Rattle.std.specs.Prelude.{◌≡◌, ◌≢◌, ◌<◌, ◌+◌, ℕ, None, true, false, MatchOption};
ghost use Rattle.xti_model.specs.World.{is_among, places};
ghost use Rattle.xti_lent.specs.Lending.{cell_lent, is_lent};
ghost use Rattle.xti_core.specs.Standing.{IsLoan};
ghost use Rattle.xti_hall.specs.Seats.{bare, HoldsNone};
ghost use Rattle.xti_hall.specs.Words.{IsSameSeat};
ghost use Rattle.xti_gather.specs.Cells.{InHall};
ghost use Rattle.xti_gather.specs.Lends.{KeepsOf, Lends, LendsNone, IsEmpty};
ghost use Rattle.xti_gather.specs.Orders.{AllBelow, InOrder, IsLeastMissing};

use crate::cell::Cell;
use crate::choosing::{all_below, surplus};
use crate::lending::take_cell;
use xti_hall::{Hall, Seat};
use xti_lent::Lent;
use xti_model::Cells;

/// Gives back a cell that is lent.
fn leave(hall: &Hall<Cell>, seat: &mut Seat<Cell>, lent: &mut Lent, cell: u32)
    requires hall { InHall hall.now seat.old lent.old.providers }
    requires lends { Lends seat.old.view lent.old }
    requires lent { is_lent lent.old cell ≡ true }
    ensures hall { IsSameSeat seat.old seat.new }
    ensures rest { bare seat.new.view ≡ bare seat.old.view }
    ensures refused { seat.new.view.refused ≡ seat.old.view.refused }
    ensures lends { Lends seat.new.view lent.new }
    ensures gone { cell_lent lent.new cell ≡ None }
    ensures others { (n : ℕ) → n ≢ cell → cell_lent lent.new n ≡ cell_lent lent.old n }
{
    let Some(value) = take_cell(lent, cell) else {
        unreachable!()
    };
    hall.leave(seat, cell, value);
}

/// Gives back the cells that are not among these.
pub(crate) fn give_back(hall: &Hall<Cell>, seat: &mut Seat<Cell>, lent: &mut Lent, cells: &Cells)
    requires hall { InHall hall.now seat.old lent.old.providers }
    requires lends { Lends seat.old.view lent.old }
    ensures hall { IsSameSeat seat.old seat.new }
    ensures rest { bare seat.new.view ≡ bare seat.old.view }
    ensures refused { seat.new.view.refused ≡ seat.old.view.refused }
    ensures lends { Lends seat.new.view lent.new }
    ensures kept { KeepsOf cells.now lent.old lent.new }
    ensures only { (n : ℕ) → is_among cells.now n ≡ false → cell_lent lent.new n ≡ None }
{
    while let Some(cell) = surplus(lent, cells) {
        leave(hall, seat, lent, cell);
    }
}

/// A cell that is lent, first the switch, for which most others wait, and then the place that was lent last; `None` exactly where
/// nothing is lent.
fn last_lent(lent: &Lent) -> Option<u32>
    requires { IsLoan lent.now }
    ensures { MatchOption result (LendsNone lent.now) (λ n. is_lent lent.now n ≡ true) }
{
    let switch = lent.providers().switch_number();
    if lent.has(switch) {
        return Some(switch);
    }
    lent.places().last().copied()
}

/// Gives every cell back. Takes no memory, and waits for nobody.
pub fn leave_all(hall: &Hall<Cell>, seat: &mut Seat<Cell>, lent: &mut Lent)
    requires hall { InHall hall.now seat.old lent.old.providers }
    requires lends { Lends seat.old.view lent.old }
    ensures hall { IsSameSeat seat.old seat.new }
    ensures rest { bare seat.new.view ≡ bare seat.old.view }
    ensures refused { seat.new.view.refused ≡ seat.old.view.refused }
    ensures none { HoldsNone seat.new.view }
    ensures lends { Lends seat.new.view lent.new }
    ensures empty { IsEmpty lent.new }
{
    while let Some(cell) = last_lent(lent) {
        leave(hall, seat, lent, cell);
    }
}

/// Gives every cell back, unless each has a lower number than the least of these cells that is missing.
pub(crate) fn leave_unless_in_order(
    hall: &Hall<Cell>,
    seat: &mut Seat<Cell>,
    lent: &mut Lent,
    cells: &Cells,
    least: u32,
)
    requires hall { InHall hall.now seat.old lent.old.providers }
    requires lends { Lends seat.old.view lent.old }
    requires cell { least < places lent.old.providers + 1 }
    requires least { IsLeastMissing lent.old cells.now least }
    ensures hall { IsSameSeat seat.old seat.new }
    ensures rest { bare seat.new.view ≡ bare seat.old.view }
    ensures lends { Lends seat.new.view lent.new }
    ensures order { InOrder lent.new cells.now }
    ensures kept { AllBelow lent.old least → (n : ℕ) → cell_lent lent.new n ≡ cell_lent lent.old n }
{
    if all_below(lent, least) {
        return;
    }
    leave_all(hall, seat, lent);
}
