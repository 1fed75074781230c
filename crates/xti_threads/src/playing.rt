//! A script's workers, each on a thread.

ghost use Rattle.std.specs.Prelude.{◌≡◌, ◌<◌, [], None, true, IfOk, vec_len};
ghost use Rattle.xti_base.specs.declared.limits.TheConstants.{WORKERS};
ghost use Rattle.xti_model.specs.Complete.{IsHistoryOf};
ghost use Rattle.xti_calls.specs.Library.{keeps_of, providers_of};
ghost use Rattle.xti_replay.specs.Playable.{IsPlayable, are_playable};
ghost use Rattle.xti_replay.specs.Progress.{Told};
ghost use Rattle.xti_threads.specs.Setting.{HasSetUp, IsNewMain, SetsUp};
ghost use Rattle.xti_threads.specs.Starting.{EachFrom};
ghost use Rattle.xti_threads.specs.Meeting.{AllPlayed, HasPlayed, HasSeated, MayPlayOthers, MaySeat};

use crate::meeting::meet_all;
use crate::setting::set_up;
use crate::stage::Stage;
use crate::starting::run_all;
use crate::working::Job;
use std::alloc::{AllocError, Global};
use std::sync::Wait;
use std::thread::Threads;
use xti_calls::{Gate, Seat, Xti};
use xti_model::{Entries, Line, Script};
use xti_replay::{Worker, fresh_workers};

/// A seat for each of these workers, whose numbers are 1 and on.
fn seat_all<G, R: Wait>(
    stage: &Stage<'_, G, R>,
    xti: &Xti,
    main: &mut Seat,
    workers: Vec<Worker>,
) -> Result<Vec<Job>, AllocError>
    requires many { vec_len workers < WORKERS }
    requires before { MaySeat xti.now stage.now.lines.now main.old workers.items }
    ensures many { IfOk result (λ v. vec_len v ≡ vec_len workers) }
    ensures jobs { IfOk result (HasSeated xti.now stage.now.lines.now main.old workers main.new) }
{
    let mut jobs = Vec::with_capacity(stage.alloc, workers.len())?;
    for worker in workers {
        let Ok(seat) = xti.split(stage.rt, stage.alloc, main) else {
            unreachable!()
        };
        jobs.push_reserved(Job { seat, worker });
    }
    Ok(jobs)
}

/// Plays the workers but 0 after the setup, each on a thread, while main's seat rests: the seats of all.
fn play_others<G: Gate, R: Threads + Wait + Sync>(
    stage: &Stage<'_, G, R>,
    xti: &Xti,
    setup: &Worker,
    main: &mut Seat,
    workers: Vec<Worker>,
) -> Result<Vec<Seat>, AllocError>
    requires many { vec_len workers < WORKERS }
    requires setup { MayPlayOthers xti.now stage.now.lines.now setup.now main.old workers.items }
    ensures { IfOk result (AllPlayed xti.now stage.now.lines.now main.new) }
{
    let jobs = seat_all(stage, xti, main, workers)?;
    xti.rest(stage.rt, main);
    run_all(stage, xti, setup, jobs)
}

/// Makes worker 0's lines, and once it is finished plays the others: the seats of all others, or `None` where worker 0
/// stopped.
fn play_from<G: Gate, R: Threads + Wait + Sync>(
    stage: &Stage<'_, G, R>,
    xti: &Xti,
    setup: &mut Worker,
    main: &mut Seat,
    workers: Vec<Worker>,
) -> Result<Option<Vec<Seat>>, AllocError>
    requires many { vec_len workers < WORKERS }
    requires sets { SetsUp xti.now stage.now.lines.now main.old setup.old }
    requires whole { setup.old.part ≡ None }
    requires workers { EachFrom (Told stage.now.lines.now []) 1 workers.items }
    ensures { IfOk result (HasPlayed xti.now stage.now.lines.now main.new) }
{
    if set_up(stage, xti, main, setup) {
        let seats = play_others(stage, xti, setup, main, workers)?;
        return Ok(Some(seats));
    }
    drop(workers);
    Ok(None)
}

/// Plays all workers: the seats of all but worker 0, or `None` where worker 0 stopped.
fn play_workers<G: Gate, R: Threads + Wait + Sync>(
    stage: &Stage<'_, G, R>,
    xti: &Xti,
    main: &mut Seat,
) -> Result<Option<Vec<Seat>>, AllocError>
    requires lines { are_playable stage.now.lines.now ≡ true }
    requires main { IsNewMain xti.now main.old }
    ensures { IfOk result (HasPlayed xti.now stage.now.lines.now main.new) }
{
    let mut workers = fresh_workers(stage.alloc, stage.lines)?;
    let mut setup = workers.remove(0);
    let seats = play_from(stage, xti, &mut setup, main, workers);
    drop(setup);
    seats
}

/// The history that main's seat alone has made.
fn read_alone<R: Wait>(rt: &R, xti: Xti, _lines: &[Line], main: Seat) -> Entries
    requires keeps { keeps_of xti ≡ true }
    requires setup { HasSetUp xti _lines.now main }
    ensures { IsHistoryOf (providers_of xti) _lines.now result }
{
    xti.end(rt, main).into_history()
}

/// The history that main's seat and those of all others have made, or main's alone.
fn history_of<R: Wait>(
    rt: &R,
    xti: Xti,
    lines: &[Line],
    main: Seat,
    seats: Option<Vec<Seat>>,
) -> Entries
    requires keeps { keeps_of xti ≡ true }
    requires played { HasPlayed xti lines.now main seats }
    ensures { IsHistoryOf (providers_of xti) lines.now result }
{
    match seats {
        Some(seats) => meet_all(rt, xti, lines, main, seats),
        None => read_alone(rt, xti, lines, main),
    }
}

/// Plays the workers of these lines by the library and its first seat: the history that all have made.
fn play_lines<G: Gate, R: Threads + Wait + Sync>(
    stage: &Stage<'_, G, R>,
    xti: Xti,
    mut main: Seat,
) -> Result<Entries, AllocError>
    requires keeps { keeps_of xti ≡ true }
    requires lines { are_playable stage.now.lines.now ≡ true }
    requires main { IsNewMain xti main }
    ensures { IfOk result (IsHistoryOf (providers_of xti) stage.now.lines.now) }
{
    let seats = play_workers(stage, &xti, &mut main)?;
    Ok(history_of(stage.rt, xti, stage.lines, main, seats))
}

/// Plays a script's workers by threads: worker 0 on this thread, and once it is finished each other that has lines on a
/// thread of its own. Each makes its calls in the order of its lines, until it is finished, or a call stops because it is
/// blocked for good or out of memory.
///
/// The history that they have made together. `Err` is out of memory.
pub fn play<G: Gate, R: Threads + Wait + Sync>(
    rt: &R,
    alloc: Global,
    s: &Script,
    gate: &G,
) -> Result<Entries, AllocError>
    requires { IsPlayable s.now }
    ensures { IfOk result (IsHistoryOf s.now.providers s.now.lines) }
{
    let (xti, main) = Xti::new(alloc, &s.providers, true)?;
    let stage = Stage {
        rt,
        alloc,
        lines: s.lines.as_slice(),
        gate,
    };
    play_lines(&stage, xti, main)
}
