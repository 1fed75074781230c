//! What workers and their world are after a history of their script.

ghost use Rattle.std.specs.Prelude.{◌≡◌, ◌+◌, ◌++◌, ◌≤◌, ◌<◌, ℕ, List, [], length, take, IfOk, OnOk, true};
ghost use Rattle.xti_base.specs.declared.limits.TheConstants.{WORKERS};
ghost use Rattle.xti_model.specs.declared.entry.Entry.{Entry};
ghost use Rattle.xti_model.specs.declared.profile.Providers.{Providers};
ghost use Rattle.xti_model.specs.declared.script.Line.{Line};
ghost use Rattle.xti_model.specs.Complete.{IsHistoryOf};
ghost use Rattle.xti_model.specs.History.{after};
ghost use Rattle.xti_model.specs.Robin.{is_through, last_worker, order_after};
ghost use Rattle.xti_model.specs.World.{opening};
ghost use Rattle.xti_core.specs.Standing.{Standing};
ghost use Rattle.xti_replay.specs.Playable.{are_playable};
ghost use Rattle.xti_replay.specs.Progress.{AreKept, AreFresh, Repeats, cells_after};
ghost use Rattle.xti_replay.specs.Turns.{AddsTurnsFrom, AreTurnsOf};

use crate::workers::{Worker, put_back};
use std::alloc::{AllocError, Global};
use std::collections::VecDeque;
use xti_base::let_go;
use xti_base::limits::WORKERS;
use xti_core::World;
use xti_model::{Act, Call, Entry, Go, Line};

/// Workers without lines.
fn idle_workers(alloc: Global) -> Result<Vec<Worker>, AllocError>
    ensures { IfOk result (λ ws. AreFresh [] ws.items) }
{
    let mut workers = Vec::with_capacity(alloc, WORKERS)?;
    for _number in 0..WORKERS {
        workers.push(Worker::idle(alloc))?;
    }
    Ok(workers)
}

/// Workers with their lines, of which they have begun none; the worker of each number stands at it.
pub fn fresh_workers(alloc: Global, lines: &[Line]) -> Result<Vec<Worker>, AllocError>
    requires { are_playable lines.now ≡ true }
    ensures { IfOk result (λ ws. AreFresh lines.now ws.items) }
{
    let mut workers = idle_workers(alloc)?;
    for place in 0..lines.len() {
        let worker = &mut workers[lines[place].worker as usize];
        worker.hand(place)?;
    }
    Ok(workers)
}

/// Makes a step once more.
fn step_again(world: &mut World, call: &Call, go: Go) -> Result<(), AllocError>
    ensures cells { OnOk result (world.new.cells ≡ cells_after world.old call.now go) }
    ensures providers { world.new.providers ≡ world.old.providers }
{
    let_go(world.step(call, go)?);
    Ok(())
}

/// Makes the step of the worker's next entry once more.
fn repeat(world: &mut World, worker: &Worker, act: &Act) -> Result<(), AllocError>
    ensures { OnOk result (Repeats worker.now.part act.now world.old world.new) }
{
    match act {
        Act::Begin(call) => step_again(world, call, Go::Begin),
        Act::More => match &worker.part {
            None => Ok(()),
            Some(part) => step_again(world, &part.call, Go::More(part.taken)),
        },
    }
}

/// The workers after the history.
pub(crate) fn workers_after(
    alloc: Global,
    lines: &[Line],
    history: &[Entry],
) -> Result<Vec<Worker>, AllocError>
    requires lines { are_playable lines.now ≡ true }
    requires history { (p : Providers) × IsHistoryOf p lines.now history.now }
    ensures { IfOk result (λ ws. AreKept lines.now history.now ws.items) }
{
    let mut workers = fresh_workers(alloc, lines)?;
    for entry in history {
        let worker = &mut workers[entry.worker as usize];
        worker.advance(alloc, lines, &entry.act, &entry.outcome)?;
    }
    Ok(workers)
}

/// The world goes through the history, from the opening one on.
pub(crate) fn go_through(
    alloc: Global,
    world: &mut World,
    history: &[Entry],
) -> Result<(), AllocError>
    requires history { (lines : List Line) × IsHistoryOf world.old.providers lines history.now }
    requires opening { world.old.cells ≡ opening world.old.providers }
    ensures cells { OnOk result (world.new.cells ≡ after world.old.providers history.now) }
    ensures providers { OnOk result (world.new.providers ≡ world.old.providers) }
{
    if history.is_empty() {
        return Ok(());
    }
    // Of these no more is kept than their calls that are part way.
    let mut workers = idle_workers(alloc)?;
    for entry in history {
        let worker = &mut workers[entry.worker as usize];
        repeat(world, worker, &entry.act)?;
        worker.keep_left(&entry.act, &entry.outcome)?;
    }
    Ok(())
}

/// The worker of the last entry; 0 where there is none.
fn last_worker(history: &[Entry]) -> u32
    ensures { result ≡ last_worker 0 history.now }
{
    match history.last() {
        None => 0,
        Some(entry) => entry.worker,
    }
}

/// Adds the numbers from one on, up to another, of the workers that are not finished.
fn add_turns(
    turns: &mut VecDeque<usize>,
    workers: &[Worker],
    from: usize,
    to: usize,
) -> Result<(), AllocError>
    requires from { from ≤ to }
    requires to { to ≤ length workers.now }
    ensures { OnOk result (AddsTurnsFrom from to workers.now turns.old.items turns.new.items) }
{
    for number in from..to {
        put_back(turns, &workers[number], number)?;
    }
    Ok(())
}

/// The workers but 0 that are not finished, in the order of their turns.
pub(crate) fn turns_after(
    alloc: Global,
    workers: &[Worker],
    history: &[Entry],
) -> Result<VecDeque<usize>, AllocError>
    requires workers { (lines : List Line) × AreKept lines history.now workers.now }
    requires last { last_worker 0 history.now < WORKERS }
    ensures { IfOk result (λ turns. AreTurnsOf workers.now history.now turns.items) }
{
    let after = last_worker(history) as usize + 1;
    let mut turns = VecDeque::with_capacity(alloc, WORKERS)?;
    add_turns(&mut turns, workers, after, WORKERS)?;
    add_turns(&mut turns, workers, 1, after)?;
    Ok(turns)
}
