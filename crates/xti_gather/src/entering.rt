//! Cells are entered.

ghost use Rattle.std.specs.Prelude.{◌≡◌, ◌≢◌, ◌<◌, ◌+◌, ℕ, true, false, MatchBool};
ghost use Rattle.xti_model.specs.World.{is_among, places};
ghost use Rattle.xti_lent.specs.Fit.{AllLent};
ghost use Rattle.xti_lent.specs.Lending.{cell_lent, is_lent};
ghost use Rattle.xti_hall_rule.specs.Steps.{refused_at};
ghost use Rattle.xti_hall.specs.Seats.{bare};
ghost use Rattle.xti_hall.specs.Words.{IsSameSeat};
ghost use Rattle.xti_gather.specs.Cells.{InHall};
ghost use Rattle.xti_gather.specs.Lends.{KeepsBut, Lends};
ghost use Rattle.xti_gather.specs.Orders.{AreCells, AllBelow, InOrder};

use crate::cell::Cell;
use std::sync::Wait;
use xti_hall::{Hall, Seat};
use xti_lent::Lent;
use xti_model::Cells;

/// Enters a cell and lends it, unless it is lent already. A cell that is entered has a higher number than all that are
/// lent. Takes no memory.
pub fn enter<R: Wait>(rt: &R, hall: &Hall<Cell>, seat: &mut Seat<Cell>, lent: &mut Lent, cell: u32)
    requires hall { InHall hall.now seat.old lent.old.providers }
    requires free { seat.old.view.journal ≡ false }
    requires lends { Lends seat.old.view lent.old }
    requires cell { cell < places lent.old.providers + 1 }
    requires order { is_lent lent.old cell ≡ false → AllBelow lent.old cell }
    ensures hall { IsSameSeat seat.old seat.new }
    ensures rest { bare seat.new.view ≡ bare seat.old.view }
    ensures refused { seat.new.view.refused ≡ seat.old.view.refused }
    ensures lends { Lends seat.new.view lent.new }
    ensures here { is_lent lent.new cell ≡ true }
    ensures others { (n : ℕ) → n ≢ cell → cell_lent lent.new n ≡ cell_lent lent.old n }
{
    if lent.has(cell) {
        return;
    }
    let value = hall.enter(rt, seat, cell);
    value.lend_cell(lent, cell);
}

/// One try at a cell, which is lent where its turn is free; whether it is lent then, as it may have been before. Where the turn
/// was held, nothing changes but that the seat's view has one refusal more. Takes no memory, and waits for nobody.
pub fn try_enter(hall: &Hall<Cell>, seat: &mut Seat<Cell>, lent: &mut Lent, cell: u32) -> bool
    requires hall { InHall hall.now seat.old lent.old.providers }
    requires free { seat.old.view.journal ≡ false }
    requires lends { Lends seat.old.view lent.old }
    requires cell { cell < places lent.old.providers + 1 }
    ensures hall { IsSameSeat seat.old seat.new }
    ensures rest { bare seat.new.view ≡ bare seat.old.view }
    ensures lends { Lends seat.new.view lent.new }
    ensures others { (n : ℕ) → n ≢ cell → cell_lent lent.new n ≡ cell_lent lent.old n }
    ensures tried { MatchBool result
        ((is_lent lent.new cell ≡ true) × (seat.new.view.refused ≡ seat.old.view.refused))
        (seat.new.view ≡ refused_at seat.old.view cell) }
{
    if lent.has(cell) {
        return true;
    }
    match hall.try_enter(seat, cell) {
        Some(value) => {
            value.lend_cell(lent, cell);
            true
        }
        None => false,
    }
}

/// Enters those of these cells that are missing, in their order, up to the first whose turn is held; whether all are lent then.
/// Waits for nobody.
pub(crate) fn try_missing(
    hall: &Hall<Cell>,
    seat: &mut Seat<Cell>,
    lent: &mut Lent,
    cells: &Cells,
) -> bool
    requires hall { InHall hall.now seat.old lent.old.providers }
    requires free { seat.old.view.journal ≡ false }
    requires lends { Lends seat.old.view lent.old }
    requires cells { AreCells lent.old.providers cells.now }
    ensures hall { IsSameSeat seat.old seat.new }
    ensures rest { bare seat.new.view ≡ bare seat.old.view }
    ensures lends { Lends seat.new.view lent.new }
    ensures all { result ≡ true → AllLent lent.new cells.now }
    ensures others { KeepsBut cells.now lent.old lent.new }
{
    for place in 0..cells.len() {
        let Some(cell) = cells.get(place) else {
            unreachable!()
        };
        if !try_enter(hall, seat, lent, cell) {
            return false;
        }
    }
    true
}

/// Enters those of these cells that are missing, in rising order.
pub(crate) fn enter_missing<R: Wait>(
    rt: &R,
    hall: &Hall<Cell>,
    seat: &mut Seat<Cell>,
    lent: &mut Lent,
    cells: &Cells,
)
    requires hall { InHall hall.now seat.old lent.old.providers }
    requires free { seat.old.view.journal ≡ false }
    requires lends { Lends seat.old.view lent.old }
    requires cells { AreCells lent.old.providers cells.now }
    requires order { InOrder lent.old cells.now }
    ensures hall { IsSameSeat seat.old seat.new }
    ensures rest { bare seat.new.view ≡ bare seat.old.view }
    ensures lends { Lends seat.new.view lent.new }
    ensures all { AllLent lent.new cells.now }
{
    for place in 0..cells.len() {
        let Some(cell) = cells.get(place) else {
            unreachable!()
        };
        enter(rt, hall, seat, lent, cell);
    }
}
