//! One step of a call.

ghost use Rattle.std.specs.Prelude.{◌≡◌, true, IfOk, OnErr};
ghost use Rattle.xti_model.specs.Robin.{act_of};
ghost use Rattle.xti_hall_rule.specs.declared.view.Mark.TheVariants.{Free};
ghost use Rattle.xti_hall_rule.specs.Steps.{without_pen, Holds, Commits};
ghost use Rattle.xti_hall.specs.Pens.{IsPenOf};
ghost use Rattle.xti_hall.specs.Seats.{bare, entry_of_step, HoldsNone, IsStanding, Writes};
ghost use Rattle.xti_hall.specs.Words.{setting_of, IsSeatOf, IsSameSeat};
ghost use Rattle.xti_gather.specs.Cells.{InHall};
ghost use Rattle.xti_gather.specs.Lends.{Lends, IsEmpty};
ghost use Rattle.xti_gather.specs.Orders.{AreCells};
ghost use Rattle.xti_laws.specs.Replies.{lengths_of, IsShortOutcome};
ghost use Rattle.xti_step.specs.Copies.{AreCopies, IsCopy, entry_with};
ghost use Rattle.xti_step.specs.Steps.{IsReady, KeepsOrFreesMark, HoldsNothing, Later, MayGo, Tells, SeenAt};

use crate::gate::Gate;
use crate::waking::concerned;
use std::alloc::{AllocError, Global};
use std::sync::Wait;
use xti_base::let_go;
use xti_core::{Spare, apply};
use xti_gather::{Cell, gather, leave_all};
use xti_hall::{Hall, MadeStep, Pen, Rings, Seat};
use xti_lent::Lent;
use xti_model::{Act, Applied, Call, Cells, Entry, Go, calls_send_bytes};

/// What the entry of a step shows of its call.
fn act(call: &Call, go: Go) -> Result<Act, AllocError>
    ensures { IfOk result (λ a. a ≡ act_of go call.now) }
{
    match go {
        Go::Begin => Ok(Act::Begin(call.copy()?)),
        Go::More(_) => Ok(Act::More),
    }
}

/// What the entry shows of the call, and room for the caller's copy of the reply.
#[inline(never)]
fn copied(alloc: Global, call: &Call, go: Go) -> Result<Box<(Act, Spare)>, AllocError>
    ensures { IfOk result (IsCopy call.now go) }
{
    let spare = Spare::of(alloc, call)?;
    let act = or_drop!(act(call, go), spare);
    Ok(Box::new(alloc, (act, spare))?)
}

/// What an entry that is kept shows of its call, and room for the caller's copy of the reply; none where entries aren't kept. They
/// stand in a box, so that a step whose entry isn't kept moves as little as it may.
fn copies(
    alloc: Global,
    hall: &Hall<Cell>,
    call: &Call,
    go: Go,
) -> Result<Option<Box<(Act, Spare)>>, AllocError>
    ensures { IfOk result (AreCopies (setting_of hall.now).keeps call.now go) }
{
    if !hall.keeps() {
        return Ok(None);
    }
    Ok(Some(copied(alloc, call, go)?))
}

/// Gives the journal back without an entry, and then the cells; what was copied is let go.
#[inline(never)]
fn give_up(
    hall: &Hall<Cell>,
    seat: &mut Seat<Cell>,
    lent: &mut Lent,
    pen: Pen<Cell>,
    copies: Option<Box<(Act, Spare)>>,
)
    requires hall { InHall hall.now seat.old lent.old.providers }
    requires holds { Holds seat.old.view }
    requires pen { IsPenOf seat.old pen }
    requires lends { Lends seat.old.view lent.old }
    ensures hall { IsSameSeat seat.old seat.new }
    ensures view { bare seat.new.view ≡ bare (without_pen seat.old.view Free) }
    ensures none { HoldsNone seat.new.view }
    ensures empty { IsEmpty lent.new × (lent.new.providers ≡ lent.old.providers) }
{
    hall.return_pen(seat, pen);
    leave_all(hall, seat, lent);
    let_go(copies);
}

/// Writes an entry that is kept, of a copy of what the step answered, and gives the journal back. It is called and not inlined, so that
/// a step whose entry isn't kept has none of its room to clear.
#[inline(never)]
fn write_kept(
    hall: &Hall<Cell>,
    seat: &mut Seat<Cell>,
    pen: Pen<Cell>,
    copies: Box<(Act, Spare)>,
    made: MadeStep<'_>,
    wakes: u64,
) -> Rings
    requires hall { IsSeatOf hall.now seat.old }
    requires holds { Holds seat.old.view }
    requires pen { IsPenOf seat.old pen }
    requires keeps { (setting_of hall.now).keeps ≡ true }
    requires short { IsShortOutcome copies.value.1 made.outcome.now }
    requires entry { Commits seat.old.view (entry_with copies seat.old.view made) }
    ensures hall { IsSameSeat seat.old seat.new }
    ensures view { Writes seat.old.view (entry_with copies seat.old.view made.entry) seat.new.view }
    ensures standing { IsStanding seat.new.view }
{
    let (act, spare) = Box::into_inner(copies);
    let entry = Entry {
        worker: seat.number(),
        act,
        outcome: spare.copy(made.outcome),
        after: made.after,
    };
    hall.commit(seat, pen, entry, wakes)
}

/// Writes the entry of a step, and gives the journal back. What the step answered is copied where the entry is kept.
fn write(
    hall: &Hall<Cell>,
    seat: &mut Seat<Cell>,
    pen: Pen<Cell>,
    copies: Option<Box<(Act, Spare)>>,
    made: MadeStep<'_>,
    wakes: u64,
) -> Rings
    requires hall { IsSeatOf hall.now seat.old }
    requires holds { Holds seat.old.view }
    requires pen { IsPenOf seat.old pen }
    requires copies { AreCopies (setting_of hall.now).keeps made.call.now made.go copies }
    requires short { IsShortOutcome (lengths_of made.call.now) made.outcome.now }
    requires entry { Commits seat.old.view (entry_of_step seat.old.view made) }
    ensures hall { IsSameSeat seat.old seat.new }
    ensures view { Writes seat.old.view (entry_of_step seat.old.view made.entry) seat.new.view }
    ensures standing { IsStanding seat.new.view }
{
    match copies {
        Some(kept) => write_kept(hall, seat, pen, kept, made, wakes),
        None => hall.commit_unkept(seat, pen, made, wakes),
    }
}

/// Enters the cells that the call touches, asks the gate, and takes the journal. Out of memory nothing is held or lent.
#[inline(always)]
fn begin<G: Gate, R: Wait + Sync>(
    rt: &R,
    hall: &Hall<Cell>,
    seat: &mut Seat<Cell>,
    lent: &mut Lent,
    first: &mut Cells,
    gate: &G,
    worker: u32,
    call: &Call,
) -> Result<Pen<Cell>, AllocError>
    requires hall { InHall hall.now seat.old lent.old.providers }
    requires worker { worker ≡ seat.old.view.number }
    requires standing { IsStanding seat.old.view }
    requires idle { HoldsNothing seat.old.view }
    requires empty { IsEmpty lent.old }
    requires first { AreCells lent.old.providers first.old }
    ensures hall { IsSameSeat seat.old seat.new }
    ensures first { AreCells lent.old.providers first.new }
    ensures providers { lent.new.providers ≡ lent.old.providers }
    ensures ready { IfOk result (IsReady seat.old.view seat.new.view lent.new call.now) }
    ensures pen { IfOk result (IsPenOf seat.new) }
    ensures later { OnErr result (Later seat.old.view seat.new.view) }
    ensures err { OnErr result (seat.new.view.mine ≡ seat.old.view.mine) }
    ensures mark { OnErr result (KeepsOrFreesMark seat.old.view seat.new.view) }
    ensures idle { OnErr result (HoldsNothing seat.new.view × IsEmpty lent.new) }
    ensures standing { IsStanding seat.new.view }
{
    calls_send_bytes(call);
    gather(rt, hall, seat, lent, call, first);
    gate.pause(rt, worker, seat.steps(), seat, call);
    let Ok(pen) = hall.begin(rt, seat) else {
        leave_all(hall, seat, lent);
        return Err(AllocError);
    };
    Ok(pen)
}

/// One step of a call by a seat that holds nothing, in a hall that has all cells. The call begins, or it is the seat's
/// unfinished one with so many bytes taken.
///
/// It answers what the step answers, and the length of the history that it saw. Where the step was made, its entry is the
/// next after that history; where it is blocked, it is so after just that history. Out of memory no entry was made. Nothing
/// is lent before and after. `first` has the cells of an earlier step, made or not, with which one of several cells begins.
pub fn step<G: Gate, R: Wait + Sync>(
    rt: &R,
    alloc: Global,
    hall: &Hall<Cell>,
    seat: &mut Seat<Cell>,
    lent: &mut Lent,
    first: &mut Cells,
    gate: &G,
    call: &Call,
    go: Go,
) -> Result<(Applied, u64), AllocError>
    requires hall { InHall hall.now seat.old lent.old.providers }
    requires idle { HoldsNothing seat.old.view }
    requires empty { IsEmpty lent.old }
    requires first { AreCells lent.old.providers first.old }
    requires go { MayGo seat.old.view call.now go }
    ensures hall { IsSameSeat seat.old seat.new }
    ensures idle { HoldsNothing seat.new.view }
    ensures empty { IsEmpty lent.new × (lent.new.providers ≡ lent.old.providers) }
    ensures first { AreCells lent.new.providers first.new }
    ensures later { Later seat.old.view seat.new.view }
    ensures standing { IsStanding seat.new.view }
    ensures ok { IfOk result (λ r. Tells seat.old.view call.now go seat.new.view r.0) }
    ensures free { IfOk result (λ r. seat.new.view.mark ≡ Free) }
    ensures at { IfOk result (λ r. SeenAt r.0 r.1 seat.new.view) }
    ensures err { OnErr result (seat.new.view.mine ≡ seat.old.view.mine) }
    ensures mark { OnErr result (KeepsOrFreesMark seat.old.view seat.new.view) }
{
    let worker = seat.number();
    let copies = copies(alloc, hall, call, go)?;
    let pen = or_drop!(
        begin(rt, hall, seat, lent, first, gate, worker, call),
        copies
    );
    let at = pen.at();
    match apply(lent, call, go) {
        Err(error) => {
            give_up(hall, seat, lent, pen, copies);
            Err(error)
        }
        Ok(Applied::Blocked) => {
            give_up(hall, seat, lent, pen, copies);
            Ok((Applied::Blocked, at))
        }
        Ok(Applied::Step { outcome, after }) => {
            let wakes = concerned(&pen, lent, call);
            let made = MadeStep {
                call,
                go,
                outcome: &outcome,
                after,
            };
            let rings = write(hall, seat, pen, copies, made, wakes);
            leave_all(hall, seat, lent);
            hall.wake(seat, rings);
            Ok((Applied::Step { outcome, after }, at))
        }
    }
}
