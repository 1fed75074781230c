//! Stall lines.

ghost use Rattle.std.specs.Prelude.{◌≡◌, ◌++◌, ◌<◌, List, IfOk, OnOk, true, if◌then◌else◌};
ghost use Rattle.xti_base.specs.declared.limits.TheConstants.{WORKERS};
ghost use Rattle.xti_model.specs.declared.entry.Entry.{Entry};
ghost use Rattle.xti_replay.specs.Progress.{AreKept, MayBeAsked, is_finished};
ghost use Rattle.xti_replay.specs.Stalling.{AddsOne, AreStalls};

use crate::asking::find_next;
use crate::workers::Worker;
use std::alloc::{AllocError, Global};
use xti_base::limits::WORKERS;
use xti_model::{Line, StallLine, Stalls};

/// Adds the worker's stall line, where it isn't finished.
fn add_stall(
    lines: &[Line],
    workers: &mut Vec<Worker>,
    number: usize,
    stalls: &mut Stalls,
) -> Result<(), AllocError>
    requires kept { MayBeAsked lines.now number workers.old.items }
    requires number { number < WORKERS }
    ensures { OnOk result (AddsOne lines.now number workers.old workers.new stalls.old stalls.new) }
{
    find_next(lines, workers, number)?;
    let worker = &mut workers[number];
    if worker.is_finished() {
        return Ok(());
    }
    let act = worker.take_act();
    stalls.push(StallLine {
        worker: number as u32,
        act,
    })
}

/// How many of the workers may have stall lines: worker 0 alone where it isn't finished.
fn stalling(setup: &Worker) -> usize
    ensures { result ≡ (if is_finished setup.now then WORKERS else 1) }
{
    if setup.is_finished() { WORKERS } else { 1 }
}

/// The stall lines: the next step of worker 0 where it isn't finished, else that of each worker that isn't.
pub(crate) fn stall_lines(
    alloc: Global,
    lines: &[Line],
    workers: &mut Vec<Worker>,
) -> Result<Stalls, AllocError>
    requires kept { (past : List Entry) × AreKept lines.now past workers.old.items }
    ensures { IfOk result (λ stalls. AreStalls lines.now workers.old.items stalls) }
{
    let mut stalls = Stalls::new(alloc);
    for number in 0..stalling(&workers[0]) {
        add_stall(lines, workers, number, &mut stalls)?;
    }
    Ok(stalls)
}
