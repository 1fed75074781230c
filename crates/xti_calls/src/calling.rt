//! All steps of a call.

ghost use Rattle.std.specs.Prelude.{◌≡◌, false, MatchResult};
ghost use Rattle.xti_model.specs.declared.entry.Go.TheVariants.{Begin};
ghost use Rattle.xti_model.specs.Wants.{HasLeft};
ghost use Rattle.xti_hall.specs.Seats.{IsStanding};
ghost use Rattle.xti_hall.specs.Stalls.{waits};
ghost use Rattle.xti_hall.specs.Words.{IsSameSeat};
ghost use Rattle.xti_gather.specs.Cells.{InHall};
ghost use Rattle.xti_gather.specs.Lends.{IsEmpty};
ghost use Rattle.xti_gather.specs.Orders.{AreCells};
ghost use Rattle.xti_step.specs.Steps.{HoldsNothing, Later};
ghost use Rattle.xti_calls.specs.Calling.{IsAt, IsUnfinished, Answered, Halted, going_at, where_left};
ghost use Rattle.xti_calls.specs.Library.{IsFree};

use std::alloc::Global;
use std::fmt;
use std::sync::Wait;
use thiserror::Error;
use xti_gather::Cell;
use xti_hall::{Hall, Seat, Stall, Waited};
use xti_lent::Lent;
use xti_model::{Applied, Call, Cells, Go, Outcome, Reply};
use xti_step::{Gate, step};
use xti_wants::{blocked_calls_have_wants, want_of};

/// Why a call stops before its reply. The steps that were made stand in the history, and so many bytes are taken.
#[derive(Clone, Copy, Error)]
pub enum Halt {
    /// Out of memory.
    #[error("out of memory")]
    OutOfMemory { taken: u32 },
    /// The call is blocked, and each other seat that is out rests, or waits for what is blocked too.
    #[error("blocked, and nobody can go on")]
    Stalled { taken: u32, stall: Stall },
}

impl fmt::Debug for Halt {
    fn fmt<W: fmt::Write>(&self, f: &mut fmt::Formatter<W>) -> fmt::Result {
        match self {
            Halt::OutOfMemory { taken } => write!(f, "OutOfMemory {{ taken: {taken} }}"),
            Halt::Stalled { taken, stall } => write!(
                f,
                "Stalled {{ taken: {taken}, at: {}, waiting: {}, resting: {} }}",
                stall.at, stall.waiting, stall.resting
            ),
        }
    }
}

/// The steps of a call from this one on, waiting where it is blocked. `first` has the cells of the seat's last step, with which
/// each begins.
fn go_on<G: Gate, R: Wait + Sync>(
    rt: &R,
    alloc: Global,
    hall: &Hall<Cell>,
    seat: &mut Seat<Cell>,
    lent: &mut Lent,
    first: &mut Cells,
    gate: &G,
    call: &Call,
    from: Go,
) -> Result<Reply, Halt>
    requires hall { InHall hall.now seat.old lent.old.providers }
    requires idle { HoldsNothing seat.old.view }
    requires empty { IsEmpty lent.old }
    requires first { AreCells lent.old.providers first.old }
    requires from { IsAt seat.old.view call.now from }
    requires left { HasLeft call.now from }
    ensures hall { IsSameSeat seat.old seat.new }
    ensures idle { HoldsNothing seat.new.view }
    ensures empty { IsEmpty lent.new × (lent.new.providers ≡ lent.old.providers) }
    ensures first { AreCells lent.new.providers first.new }
    ensures later { Later seat.old.view seat.new.view }
    ensures standing { IsStanding seat.new.view }
    ensures mark { waits seat.old.view.mark ≡ false → waits seat.new.view.mark ≡ false }
    ensures made { MatchResult result
        (Answered seat.old.view call.now from seat.new.view)
        (Halted seat.old.view call.now from seat.new.view) }
{
    blocked_calls_have_wants();
    let mut go = from;
    for _ in rt.forever() {
        match step(rt, alloc, hall, seat, lent, first, gate, call, go) {
            Err(_) => {
                return Err(Halt::OutOfMemory {
                    taken: go.taken_before(),
                });
            }
            Ok((Applied::Step { outcome, .. }, _)) => match outcome {
                Outcome::Done(reply) => return Ok(reply),
                Outcome::Part { taken } => go = Go::More(taken),
            },
            Ok((Applied::Blocked, at)) => {
                let Some(want) = want_of(call, go) else {
                    unreachable!()
                };
                match hall.wait(rt, seat, want, at) {
                    Waited::Again => {}
                    Waited::Stalled(stall) => {
                        return Err(Halt::Stalled {
                            taken: go.taken_before(),
                            stall,
                        });
                    }
                }
            }
        }
    }
    unreachable!()
}

/// All steps of a call by a seat that has none unfinished, waiting where it is blocked.
///
/// It answers the call's reply, which the last entry that the seat has seen has too, or why it stopped.
pub fn call<G: Gate, R: Wait + Sync>(
    rt: &R,
    alloc: Global,
    hall: &Hall<Cell>,
    seat: &mut Seat<Cell>,
    lent: &mut Lent,
    first: &mut Cells,
    gate: &G,
    call: &Call,
) -> Result<Reply, Halt>
    requires hall { InHall hall.now seat.old lent.old.providers }
    requires idle { HoldsNothing seat.old.view }
    requires empty { IsEmpty lent.old }
    requires first { AreCells lent.old.providers first.old }
    requires none { IsFree seat.old }
    ensures hall { IsSameSeat seat.old seat.new }
    ensures idle { HoldsNothing seat.new.view }
    ensures empty { IsEmpty lent.new × (lent.new.providers ≡ lent.old.providers) }
    ensures first { AreCells lent.new.providers first.new }
    ensures later { Later seat.old.view seat.new.view }
    ensures standing { IsStanding seat.new.view }
    ensures mark { waits seat.old.view.mark ≡ false → waits seat.new.view.mark ≡ false }
    ensures made { MatchResult result
        (Answered seat.old.view call.now Begin seat.new.view)
        (Halted seat.old.view call.now Begin seat.new.view) }
{
    go_on(rt, alloc, hall, seat, lent, first, gate, call, Go::Begin)
}

/// The steps that are left of the seat's unfinished call, which this must be, waiting where it is blocked.
pub fn resume<G: Gate, R: Wait + Sync>(
    rt: &R,
    alloc: Global,
    hall: &Hall<Cell>,
    seat: &mut Seat<Cell>,
    lent: &mut Lent,
    first: &mut Cells,
    gate: &G,
    call: &Call,
) -> Result<Reply, Halt>
    requires hall { InHall hall.now seat.old lent.old.providers }
    requires idle { HoldsNothing seat.old.view }
    requires empty { IsEmpty lent.old }
    requires first { AreCells lent.old.providers first.old }
    requires unfinished { IsUnfinished seat.old.view call.now }
    ensures hall { IsSameSeat seat.old seat.new }
    ensures idle { HoldsNothing seat.new.view }
    ensures empty { IsEmpty lent.new × (lent.new.providers ≡ lent.old.providers) }
    ensures first { AreCells lent.new.providers first.new }
    ensures later { Later seat.old.view seat.new.view }
    ensures standing { IsStanding seat.new.view }
    ensures mark { waits seat.old.view.mark ≡ false → waits seat.new.view.mark ≡ false }
    ensures made { MatchResult result
        (Answered seat.old.view call.now (where_left seat.old.view) seat.new.view)
        (Halted seat.old.view call.now (where_left seat.old.view) seat.new.view) }
{
    let Some(taken) = seat.unfinished() else {
        unreachable!()
    };
    go_on(
        rt,
        alloc,
        hall,
        seat,
        lent,
        first,
        gate,
        call,
        Go::More(taken),
    )
}
