//! A worker's lines, made on its thread.

ghost use Rattle.std.specs.Prelude.{◌≡◌, None, true};
ghost use Rattle.xti_model.specs.declared.entry.Act.TheVariants.{Begin};
ghost use Rattle.xti_hall.specs.Seats.{IsStanding};
ghost use Rattle.xti_calls.specs.Library.{GoesOn, MayCall};
ghost use Rattle.xti_replay.specs.Progress.{MayTake};
ghost use Rattle.xti_threads.specs.Working.{AfterSetup, HasBegun, HasSteps, Hears, IsNewJob, JobBack, MayComeBack, MayWork, Stays};

use crate::stage::{Shared, Stage};
use std::alloc::Global;
use std::sync::Wait;
use std::sync::atomic::Ordering;
use xti_calls::{Gate, Seat, Xti};
use xti_model::{Act, Call, Line, Outcome, Reply};
use xti_replay::Worker;

/// A worker's seat, and what it knows of its lines.
#[derive(Drop)]
pub(crate) struct Job {
    pub(crate) seat: Seat,
    pub(crate) worker: Worker,
}

/// The worker has begun its next line, and learns what was answered; false out of memory.
fn begin_line(alloc: Global, lines: &[Line], worker: &mut Worker, call: Call, reply: Reply) -> bool
    requires { MayTake lines.now worker.old (Begin call) }
    ensures { result ≡ true → HasBegun lines.now reply worker.old worker.new }
{
    let act = Act::Begin(call);
    let outcome = Outcome::Done(reply);
    let begun = worker.advance(alloc, lines, &act, &outcome).is_ok();
    drop(act);
    drop(outcome);
    begun
}

/// Makes the call of the worker's next line, and the worker learns what was answered; false where the call stops, or out of
/// memory.
pub(crate) fn make_call<G: Gate, R: Wait + Sync>(
    stage: &Stage<'_, G, R>,
    xti: &Xti,
    seat: &mut Seat,
    worker: &mut Worker,
    call: Call,
) -> bool
    requires seat { MayCall xti.now seat.old }
    requires takes { MayTake stage.now.lines.now worker.old (Begin call) }
    ensures seat { GoesOn seat.old seat.new }
    ensures standing { IsStanding seat.new.view }
    ensures made { HasSteps seat.old.view call seat.new.view }
    ensures begun { result ≡ true → Hears stage.now seat.old call seat.new worker.old worker.new }
{
    match xti.call(stage.rt, stage.alloc, seat, stage.gate, &call) {
        Ok(reply) => begin_line(stage.alloc, stage.lines, worker, call, reply),
        Err(_) => {
            drop(call);
            false
        }
    }
}

/// Makes the call of the worker's next line; false where there is none, or it stops.
fn make_line<G: Gate, R: Wait + Sync>(
    shared: &Shared<'_, G, R>,
    _number: u32,
    seat: &mut Seat,
    worker: &mut Worker,
) -> bool
    requires works { MayWork shared.now _number seat.old worker.old }
    requires whole { worker.old.part ≡ None }
    ensures on { result ≡ true → Stays shared.now _number seat.old worker.old seat.new worker.new }
    ensures whole { result ≡ true → worker.new.part ≡ None }
    ensures back { MayComeBack shared.now _number seat.old worker.old seat.new }
{
    let Ok(next) = worker.next_call(shared.stage.lines, shared.setup) else {
        return false;
    };
    let Some(next) = next else {
        return false;
    };
    make_call(&shared.stage, shared.xti, seat, worker, next)
}

/// Makes the worker's lines one after the other, until it is finished, stops, or is told that a thread is lacking.
fn make_lines<G: Gate, R: Wait + Sync>(
    shared: &Shared<'_, G, R>,
    number: u32,
    seat: &mut Seat,
    worker: &mut Worker,
)
    requires works { MayWork shared.now number seat.old worker.old }
    requires whole { worker.old.part ≡ None }
    ensures { MayComeBack shared.now number seat.old worker.old seat.new }
{
    for _ in shared.stage.rt.forever() {
        if shared.lacking.load(Ordering::SeqCst) {
            return;
        }
        if !make_line(shared, number, seat, worker) {
            return;
        }
    }
    unreachable!()
}

/// Makes the worker's lines; its seat then rests, and comes back.
pub(crate) fn work<G: Gate, R: Wait + Sync>(
    shared: &Shared<'_, G, R>,
    number: u32,
    job: Job,
) -> Seat
    requires setup { AfterSetup shared.now.stage.lines.now job.seat.view.seen shared.now.setup.now }
    requires job { IsNewJob shared.now.xti.now shared.now.stage.lines.now number job }
    ensures { JobBack shared.now.xti.now shared.now.stage.lines.now job number result }
{
    let Job {
        mut seat,
        mut worker,
    } = job;
    make_lines(shared, number, &mut seat, &mut worker);
    drop(worker);
    shared.xti.rest(shared.stage.rt, &mut seat);
    seat
}
