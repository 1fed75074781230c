//! A survey of descriptors.

ghost use Rattle.std.specs.Prelude.{◌≡◌, ◌≤◌, ◌+◌, ◌++◌, false, length, map, vec_capacity, vec_len, IfOk, OnErr};
ghost use Rattle.xti_lent.specs.Fit.{AtOwnPlaces};
ghost use Rattle.xti_core.specs.Looks.{events_among};
ghost use Rattle.xti_hall.specs.Seats.{HoldsNone};
ghost use Rattle.xti_hall.specs.Words.{IsSameSeat};
ghost use Rattle.xti_gather.specs.Cells.{InHall};
ghost use Rattle.xti_gather.specs.Lends.{IsEmpty};
ghost use Rattle.xti_gather.specs.Glances.{IsSameLater};
ghost use Rattle.xti_gather.specs.Surveys.{all_events_after};

use crate::glancing::entering::enter_looks;
use crate::{Cell, leave_all};
use std::alloc::{AllocError, Global};
use std::sync::Wait;
use xti_base::Fd;
use xti_core::events_of;
use xti_hall::{Hall, Seat};
use xti_lent::Lent;

/// Adds what is pending at each of the descriptors among the lent cells, for which there is room.
fn add_events(found: &mut Vec<Option<u32>>, lent: &Lent, fds: &[Fd])
    requires places { AtOwnPlaces lent.now }
    requires room { vec_len found.old + length fds.now ≤ vec_capacity found.old }
    ensures { found.new.items ≡ found.old.items ++ map (λ fd. events_among lent.now fd.0) fds.now }
{
    for fd in fds {
        found.push_reserved(events_of(lent, *fd));
    }
}

/// All events that are pending at each of the descriptors, as the sum of their numbers; `None` exactly where no endpoint is open
/// with it. All is told of one point of the history, which is all that the seat has then seen.
///
/// The cells that looks at the descriptors touch, and no others, are entered in rising order, as a step enters its cells: it may
/// wait for the steps of other seats that hold one, and for nothing else. While all are lent, the history is looked at; then
/// they are given back. No entry is made, no flow mark is cleared, and the seat's own entries and its mark stay. Room is taken
/// before the first cell is entered: after the error, that memory ran out, all is as before.
pub fn survey<R: Wait>(
    rt: &R,
    alloc: Global,
    hall: &Hall<Cell>,
    seat: &mut Seat<Cell>,
    lent: &mut Lent,
    fds: &[Fd],
) -> Result<Vec<Option<u32>>, AllocError>
    requires hall { InHall hall.now seat.old lent.old.providers }
    requires free { seat.old.view.journal ≡ false }
    requires none { HoldsNone seat.old.view }
    requires empty { IsEmpty lent.old }
    ensures hall { IsSameSeat seat.old seat.new }
    ensures none { HoldsNone seat.new.view }
    ensures empty { IsEmpty lent.new × (lent.new.providers ≡ lent.old.providers) }
    ensures same { IsSameLater seat.old.view seat.new.view }
    ensures refused { seat.new.view.refused ≡ seat.old.view.refused }
    ensures found { IfOk result (λ found. found.items ≡ all_events_after seat.new.view fds.now) }
    ensures err { OnErr result (seat.new ≡ seat.old) }
{
    let mut found = Vec::with_capacity(alloc, fds.len())?;
    let mut marks = vec![in alloc; false; lent.providers().places() as usize + 1]?;
    enter_looks(rt, hall, seat, lent, &mut marks, fds);
    hall.length(seat);
    add_events(&mut found, lent, fds);
    leave_all(hall, seat, lent);
    Ok(found)
}
