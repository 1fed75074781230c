//! The cells that looks at several descriptors touch are entered.

ghost use Rattle.std.specs.Prelude.{◌≡◌, ◌<◌, ◌+◌, false, length, MatchOption};
ghost use Rattle.std.specs.List.{AllByRecursion};
ghost use Rattle.xti_model.specs.World.{places};
ghost use Rattle.xti_lent.specs.Fit.{AtOwnPlaces, IsSound};
ghost use Rattle.xti_hall.specs.Seats.{bare};
ghost use Rattle.xti_hall.specs.Words.{IsSameSeat};
ghost use Rattle.xti_gather.specs.Cells.{InHall};
ghost use Rattle.xti_gather.specs.Lends.{Lends};
ghost use Rattle.xti_gather.specs.Marks.{CanBeEntered, CanMark, HaveRoomFor, IsFirstUnlent, IsSeen, Keep, MarkedAreLent, StayBelow};

use crate::glancing::marking::{first_unlent, is_marked, mark_looks};
use crate::{Cell, all_below, enter, leave_all};
use std::sync::Wait;
use xti_base::Fd;
use xti_hall::{Hall, Seat};
use xti_lent::Lent;

/// Enters the marked cells that aren't lent, in rising order.
fn enter_marked<R: Wait>(
    rt: &R,
    hall: &Hall<Cell>,
    seat: &mut Seat<Cell>,
    lent: &mut Lent,
    marks: &[bool],
)
    requires hall { InHall hall.now seat.old lent.old.providers }
    requires free { seat.old.view.journal ≡ false }
    requires lends { Lends seat.old.view lent.old }
    requires room { HaveRoomFor lent.old marks.now }
    requires order { CanBeEntered lent.old marks.now }
    ensures hall { IsSameSeat seat.old seat.new }
    ensures rest { bare seat.new.view ≡ bare seat.old.view }
    ensures refused { seat.new.view.refused ≡ seat.old.view.refused }
    ensures lends { Lends seat.new.view lent.new }
    ensures all { MarkedAreLent lent.new marks.now }
{
    for cell in 0..lent.providers().places() + 1 {
        if is_marked(marks, cell) {
            enter(rt, hall, seat, lent, cell);
        }
    }
}

/// Gives every cell back, unless each has a lower number than this one.
fn leave_unless_below(hall: &Hall<Cell>, seat: &mut Seat<Cell>, lent: &mut Lent, cell: u32)
    requires hall { InHall hall.now seat.old lent.old.providers }
    requires lends { Lends seat.old.view lent.old }
    requires cell { cell < places lent.old.providers + 1 }
    ensures hall { IsSameSeat seat.old seat.new }
    ensures rest { bare seat.new.view ≡ bare seat.old.view }
    ensures refused { seat.new.view.refused ≡ seat.old.view.refused }
    ensures lends { Lends seat.new.view lent.new }
    ensures below { StayBelow cell lent.old lent.new }
{
    if all_below(lent, cell) {
        return;
    }
    leave_all(hall, seat, lent);
}

/// Enters the marked cells that aren't lent, the first of which is this one. Where a cell that is lent has a higher number, all
/// are given back first.
fn enter_from<R: Wait>(
    rt: &R,
    hall: &Hall<Cell>,
    seat: &mut Seat<Cell>,
    lent: &mut Lent,
    marks: &[bool],
    first: u32,
)
    requires hall { InHall hall.now seat.old lent.old.providers }
    requires free { seat.old.view.journal ≡ false }
    requires lends { Lends seat.old.view lent.old }
    requires room { HaveRoomFor lent.old marks.now }
    requires first { IsFirstUnlent lent.old marks.now first }
    ensures hall { IsSameSeat seat.old seat.new }
    ensures rest { bare seat.new.view ≡ bare seat.old.view }
    ensures refused { seat.new.view.refused ≡ seat.old.view.refused }
    ensures lends { Lends seat.new.view lent.new }
    ensures all { MarkedAreLent lent.new marks.now }
{
    leave_unless_below(hall, seat, lent, first);
    enter_marked(rt, hall, seat, lent, marks);
}

/// Marks the cells that looks at the descriptors touch, as the lent cells tell. The first marked cell that isn't lent; `None`
/// exactly where all are, and so all that the looks touch.
fn next_wanted(marks: &mut [bool], lent: &Lent, fds: &[Fd]) -> Option<u32>
    requires places { AtOwnPlaces lent.now }
    requires sound { AllByRecursion IsSound lent.now.held }
    requires room { HaveRoomFor lent.now marks.old }
    requires cells { CanMark lent.now marks.old }
    ensures length { length marks.new ≡ length marks.old }
    ensures kept { Keep marks.old marks.new }
    ensures next { MatchOption result
        (AllByRecursion (IsSeen lent.now) fds.now)
        (IsFirstUnlent lent.now marks.new) }
{
    mark_looks(marks, lent, fds);
    first_unlent(marks, lent)
}

/// Enters cells until all are lent that looks at the descriptors touch.
///
/// A cell that is marked once is entered in each round, and each round marks one more at least: there are no more rounds than
/// cells.
pub(crate) fn enter_looks<R: Wait>(
    rt: &R,
    hall: &Hall<Cell>,
    seat: &mut Seat<Cell>,
    lent: &mut Lent,
    marks: &mut [bool],
    fds: &[Fd],
)
    requires hall { InHall hall.now seat.old lent.old.providers }
    requires free { seat.old.view.journal ≡ false }
    requires lends { Lends seat.old.view lent.old }
    requires room { HaveRoomFor lent.old marks.old }
    requires marks { MarkedAreLent lent.old marks.old }
    ensures hall { IsSameSeat seat.old seat.new }
    ensures rest { bare seat.new.view ≡ bare seat.old.view }
    ensures refused { seat.new.view.refused ≡ seat.old.view.refused }
    ensures lends { Lends seat.new.view lent.new }
    ensures seen { AllByRecursion (IsSeen lent.new) fds.now }
{
    while let Some(first) = next_wanted(marks, lent, fds) {
        enter_from(rt, hall, seat, lent, marks, first);
    }
}
