//! The cells that a call touches are entered, and no others.

ghost use Rattle.std.specs.Prelude.{◌≡◌, false, IfSome};
ghost use Rattle.xti_lent.specs.Lending.{cell_lent};
ghost use Rattle.xti_hall.specs.Seats.{bare, HoldsNone};
ghost use Rattle.xti_hall.specs.Words.{IsSameSeat};
ghost use Rattle.xti_gather.specs.Cells.{InHall};
ghost use Rattle.xti_gather.specs.Lends.{Lends, IsEmpty, Just};
ghost use Rattle.xti_gather.specs.Orders.{AreCells, TouchesAlone};

use crate::cell::Cell;
use crate::choosing::{are_same, missing};
use crate::entering::{enter, enter_missing, try_missing};
use crate::leaving::{give_back, leave_unless_in_order};
use std::sync::Wait;
use xti_core::touch;
use xti_hall::{Hall, Seat};
use xti_lent::Lent;
use xti_model::{Call, Cells};

/// The place of a call that touches the cell of its descriptor alone, whatever the world is.
#[tactic(auto, unfolding(xti_model::specs::Cells::listed))]
fn own_place(call: &Call, lent: &Lent) -> Option<u32>
    ensures { IfSome result (λ n. TouchesAlone lent.now.providers n call.now) }
{
    match call {
        Call::TOpen { .. }
        | Call::TClose { .. }
        | Call::TBind { .. }
        | Call::TUnbind { .. }
        | Call::TConnect { .. }
        | Call::TAccept { .. }
        | Call::TSnd { .. }
        | Call::TSndV { .. }
        | Call::TSndRel { .. }
        | Call::TSndRelData { .. }
        | Call::TSndDis { .. }
        | Call::TSndUData { .. }
        | Call::TSndVUData { .. }
        | Call::TLookAt { .. } => None,
        _ => call.fd().map(|fd| lent.place_of(fd)),
    }
}

/// Gives back the lent cells that the call doesn't touch, enters those that are missing, in rising order, and asks the lent cells
/// again, until just those are lent that it touches, whose numbers `first` then has. Where a missing cell has a lower number than
/// one that is lent, all are given back first. How often it asks has no bound, since others change what the cells tell.
#[inline(never)]
fn settle<R: Wait>(
    rt: &R,
    hall: &Hall<Cell>,
    seat: &mut Seat<Cell>,
    lent: &mut Lent,
    call: &Call,
    first: &mut Cells,
)
    requires hall { InHall hall.now seat.old lent.old.providers }
    requires free { seat.old.view.journal ≡ false }
    requires lends { Lends seat.old.view lent.old }
    ensures hall { IsSameSeat seat.old seat.new }
    ensures rest { bare seat.new.view ≡ bare seat.old.view }
    ensures lends { Lends seat.new.view lent.new }
    ensures providers { lent.new.providers ≡ lent.old.providers }
    ensures just { Just lent.old.providers (cell_lent lent.new) call.now }
    ensures first { AreCells lent.old.providers first.new }
{
    for _ in rt.forever() {
        let cells = touch(call, lent);
        give_back(hall, seat, lent, &cells);
        let Some(least) = missing(lent, &cells) else {
            *first = cells;
            return;
        };
        leave_unless_in_order(hall, seat, lent, &cells, least);
        enter_missing(rt, hall, seat, lent, &cells);
    }
    unreachable!()
}

/// Enters the cells that the call touches, and no others, and lends them.
///
/// A call that touches one cell alone enters it. Another begins with the cells in `first`, a hint of this step alone: it may well
/// touch the same as the step that they are of. It tries each, and waits for none. The lent cells tell what the call touches, as
/// far as they go. Where these are just the cells in `first`, and all were entered, it is done. Else it goes on until just those
/// are lent that it touches. `first` then has the cells of this step; a call that touches one cell alone leaves it as it was.
/// Takes no memory.
pub fn gather<R: Wait>(
    rt: &R,
    hall: &Hall<Cell>,
    seat: &mut Seat<Cell>,
    lent: &mut Lent,
    call: &Call,
    first: &mut Cells,
)
    requires hall { InHall hall.now seat.old lent.old.providers }
    requires free { seat.old.view.journal ≡ false }
    requires none { HoldsNone seat.old.view }
    requires empty { IsEmpty lent.old }
    requires first { AreCells lent.old.providers first.old }
    ensures hall { IsSameSeat seat.old seat.new }
    ensures rest { bare seat.new.view ≡ bare seat.old.view }
    ensures lends { Lends seat.new.view lent.new }
    ensures providers { lent.new.providers ≡ lent.old.providers }
    ensures just { Just lent.old.providers (cell_lent lent.new) call.now }
    ensures first { AreCells lent.old.providers first.new }
{
    if let Some(own) = own_place(call, lent) {
        enter(rt, hall, seat, lent, own);
        return;
    }
    if try_missing(hall, seat, lent, first) {
        let cells = touch(call, lent);
        if are_same(&cells, first) {
            return;
        }
    }
    settle(rt, hall, seat, lent, call, first);
}
