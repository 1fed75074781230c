//! A thread for each worker that has lines, and their seats back.

ghost use Rattle.std.specs.Prelude.{◌≡◌, ◌<◌, ◌≤◌, [], IfOk, vec_len, vec_capacity};
ghost use Rattle.xti_base.specs.declared.limits.TheConstants.{WORKERS};
ghost use Rattle.xti_threads.specs.Working.{AfterSetup, CameBack, IsNewJob, JobBack};
ghost use Rattle.xti_threads.specs.Starting.{AreStarted, EachBack, EachStarted, HandBackAll, HandsBack, HasStartedJob, IsStarted, MayRun};

use crate::stage::{Shared, Stage};
use crate::working::{Job, work};
use std::alloc::AllocError;
use std::snapshot::Snapshot;
use std::sync::Wait;
use std::sync::atomic::{AtomicBool, Ordering};
use std::thread;
use std::thread::{Promise, PromisedHandle, Scope, Threads};
use xti_calls::{Gate, Seat, Xti};
use xti_model::Line;
use xti_replay::Worker;

/// The promise of a worker's thread: it hands its seat back, which has made calls of its lines alone.
#[derive(Drop)]
pub(crate) struct Back<'a> {
    xti: &'a Xti,
    lines: &'a [Line],
    number: u32,
    was: Snapshot<Job>,
}

impl<'a> Promise<Seat> for Back<'a> {
    ghost kept_by = { λ p r. CameBack p.xti.now p.lines.now p.was.value.seat.view.seen p.number r };
}

/// A thread that runs, or the seat of a worker that has none.
#[derive(Drop)]
pub(crate) enum Started<'a> {
    Runs(PromisedHandle<Seat, Back<'a>>),
    Ended(Seat),
}

/// Starts a thread that makes the worker's lines. Where a thread is lacking, no worker begins a further line, and the seat
/// rests.
fn spawn<'s, E, G: Gate, R: Threads + Wait + Sync>(
    scope: &Scope<'s, E>,
    shared: &Shared<'s, G, R>,
    number: u32,
    job: Job,
) -> Started<'s>
    requires setup { AfterSetup shared.now.stage.lines.now job.seat.view.seen shared.now.setup.now }
    requires job { IsNewJob shared.now.xti.now shared.now.stage.lines.now number job }
    ensures { HasStartedJob shared.now.xti.now shared.now.stage.lines.now job number result }
{
    let Shared {
        stage: Stage {
            rt,
            alloc,
            lines,
            gate,
        },
        xti,
        setup,
        lacking,
    } = *shared;
    let was = Snapshot::of(&job);
    let promise = Back {
        xti,
        lines,
        number,
        was,
    };
    let body = move || -> Seat
        requires setup { AfterSetup lines.now job.seat.view.seen setup.now }
        requires job { IsNewJob xti.now lines.now number job }
        ensures { JobBack xti.entry.now lines.entry.now job number result }
    {
        let stage = Stage {
            rt,
            alloc,
            lines,
            gate,
        };
        let shared = Shared {
            stage,
            xti,
            setup,
            lacking,
        };
        work(&shared, number, job)
    };
    match scope.spawn_with(promise, body) {
        Ok(handle) => Started::Runs(handle),
        Err(refused) => {
            lacking.store(true, Ordering::SeqCst);
            Started::Ended((refused.value)())
        }
    }
}

/// Starts the worker's thread where it has lines; its seat rests where it has none.
fn start<'s, E, G: Gate, R: Threads + Wait + Sync>(
    scope: &Scope<'s, E>,
    shared: &Shared<'s, G, R>,
    number: u32,
    job: Job,
) -> Started<'s>
    requires setup { AfterSetup shared.now.stage.lines.now job.seat.view.seen shared.now.setup.now }
    requires job { IsNewJob shared.now.xti.now shared.now.stage.lines.now number job }
    ensures { HasStartedJob shared.now.xti.now shared.now.stage.lines.now job number result }
{
    if job.worker.is_finished() {
        return Started::Ended(work(shared, number, job));
    }
    spawn(scope, shared, number, job)
}

/// Starts the workers, whose numbers are 1 and on. Out of memory none was started.
fn start_all<'s, E, G: Gate, R: Threads + Wait + Sync>(
    scope: &Scope<'s, E>,
    shared: &Shared<'s, G, R>,
    jobs: Vec<Job>,
) -> Result<Vec<Started<'s>>, AllocError>
    requires many { vec_len jobs < WORKERS }
    requires jobs { MayRun shared.now.xti.now shared.now.stage.lines.now shared.now.setup.now jobs }
    ensures many { IfOk result (λ v. vec_len v ≡ vec_len jobs) }
    ensures started { IfOk result (EachStarted shared.now.xti.now shared.now.stage.lines.now jobs) }
{
    let mut started = Vec::with_capacity(shared.stage.alloc, jobs.len())?;
    let mut number = 0;
    for job in jobs {
        number += 1;
        started.push_reserved(start(scope, shared, number, job));
    }
    Ok(started)
}

/// Joins the thread, where there is one.
fn join<R: Threads>(rt: &R, started: Started<'_>) -> Seat
    requires { IsStarted started }
    ensures { HandsBack started.entry result }
{
    match started {
        Started::Runs(handle) => handle.join(rt),
        Started::Ended(seat) => seat,
    }
}

/// Joins all threads: their seats, in the same order, for which `seats` has room.
fn join_all<R: Threads>(rt: &R, started: Vec<Started<'_>>, seats: &mut Vec<Seat>)
    requires room { vec_len started ≤ vec_capacity seats.old }
    requires empty { (vec_len seats.old ≡ 0) × (seats.old.items ≡ []) }
    requires started { AreStarted started.items }
    ensures many { vec_len seats.new ≡ vec_len started.entry }
    ensures back { HandBackAll started.entry.items seats.new.items }
{
    for one in started {
        seats.push_reserved(join(rt, one));
    }
}

/// Starts the workers, whose numbers are 1 and on, and joins all; the seats in the same order.
fn run_scope<'s, E, G: Gate, R: Threads + Wait + Sync>(
    scope: &Scope<'s, E>,
    shared: &Shared<'s, G, R>,
    jobs: Vec<Job>,
) -> Result<Vec<Seat>, AllocError>
    requires many { vec_len jobs < WORKERS }
    requires jobs { MayRun shared.now.xti.now shared.now.stage.lines.now shared.now.setup.now jobs }
    ensures many { IfOk result (λ v. vec_len v ≡ vec_len jobs) }
    ensures back { IfOk result (EachBack shared.now.xti.now shared.now.stage.lines.now jobs) }
{
    let mut seats = Vec::with_capacity(shared.stage.alloc, jobs.len())?;
    let started = start_all(scope, shared, jobs)?;
    join_all(shared.stage.rt, started, &mut seats);
    Ok(seats)
}

/// The workers' lines, each on a thread of a scope: their seats, in the order of the numbers. Out of memory no thread was started.
pub(crate) fn run_all<G: Gate, R: Threads + Wait + Sync>(
    stage: &Stage<'_, G, R>,
    xti: &Xti,
    setup: &Worker,
    jobs: Vec<Job>,
) -> Result<Vec<Seat>, AllocError>
    requires many { vec_len jobs < WORKERS }
    requires jobs { MayRun xti.now stage.now.lines.now setup.now jobs }
    ensures many { IfOk result (λ v. vec_len v ≡ vec_len jobs) }
    ensures back { IfOk result (EachBack xti.now stage.now.lines.now jobs) }
{
    let Stage {
        rt,
        alloc,
        lines,
        gate,
    } = *stage;
    let lacking = AtomicBool::new(false);
    let flag = &lacking;
    thread::scope(
        thread::scope_env(),
        rt,
        |scope| -> Result<Vec<Seat>, AllocError>
            requires many { vec_len jobs < WORKERS }
            requires jobs { MayRun xti.now lines.now setup.now jobs }
            ensures many { IfOk result (λ v. vec_len v ≡ vec_len jobs) }
            ensures back { IfOk result (EachBack xti.entry.now lines.entry.now jobs) }
        {
            let stage = Stage {
                rt,
                alloc,
                lines,
                gate,
            };
            let shared = Shared {
                stage,
                xti,
                setup,
                lacking: flag,
            };
            run_scope(scope, &shared, jobs)
        },
    )
}
