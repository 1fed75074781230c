//! A worker is asked for its next step.

ghost use Rattle.std.specs.Prelude.{◌≡◌, ◌<◌, List, None, false, IfOk, OnOk, OnErr};
ghost use Rattle.xti_base.specs.declared.limits.TheConstants.{WORKERS};
ghost use Rattle.xti_model.specs.declared.entry.Act.TheVariants.{More};
ghost use Rattle.xti_model.specs.declared.entry.Entry.{Entry};
ghost use Rattle.xti_replay.specs.Asking.{FailsAsked, FailsBegun, FailsTurn, FindsNext, MakesBegun, MakesTurn, TakesTurn};
ghost use Rattle.xti_replay.specs.Progress.{AreKept, IsReadyNow, MayBeAsked, OfMade, with_begun};

use crate::workers::Worker;
use std::alloc::{AllocError, Global};
use std::mem;
use xti_core::World;
use xti_model::{Act, Entry, Go, Line};

/// The call that the entry begins is blocked: its worker keeps it until it is asked again.
fn hold(worker: &mut Worker, act: &mut Act)
    requires idle { worker.old.next ≡ None }
    ensures held { worker.new ≡ with_begun worker.old act.old }
    ensures left { act.new ≡ More }
{
    match mem::replace(act, Act::More) {
        Act::Begin(call) => worker.set_next(Some(call)),
        Act::More => {}
    }
}

/// Makes the worker's next step, which is known, and the entry of it; none where the worker is finished or blocked.
#[inline(never)]
fn make(
    alloc: Global,
    lines: &[Line],
    number: u32,
    worker: &mut Worker,
    world: &mut World,
    entry: &mut Entry,
) -> Result<bool, AllocError>
    requires ready { IsReadyNow lines.now number worker.old }
    requires none { entry.old.act ≡ More }
    ensures makes { OfMade result entry.new
        (MakesTurn lines.now number world.old world.new worker.old worker.new) }
    ensures left { IfOk result (λ made. made ≡ false → entry.new.act ≡ More) }
    ensures err { OnErr result
        (FailsTurn lines.now number world.old world.new worker.old worker.old worker.new) }
    ensures providers { world.new.providers ≡ world.old.providers }
{
    let Some(call) = worker.call() else {
        return Ok(false);
    };
    if world.waits(call) {
        return Ok(false);
    }
    if !world.step_into(call, worker.so_far(), &mut entry.outcome, &mut entry.after)? {
        return Ok(false);
    }
    drop(mem::replace(&mut entry.act, worker.take_act()));
    entry.worker = number;
    worker.advance(alloc, lines, &entry.act, &entry.outcome)?;
    Ok(true)
}

/// Finds the call of the worker's next line, where it isn't known.
#[inline(always)]
pub(crate) fn find_next(
    lines: &[Line],
    workers: &mut Vec<Worker>,
    number: usize,
) -> Result<(), AllocError>
    requires kept { (past : List Entry) × AreKept lines.now past workers.old.items }
    requires number { number < WORKERS }
    ensures { OnOk result (FindsNext lines.now number workers.old workers.new) }
{
    let worker = &workers[number];
    if worker.next.is_some() || worker.part.is_some() {
        return Ok(());
    }
    match worker.next_call(lines, &workers[0]) {
        Err(error) => Err(error),
        Ok(next) => {
            workers[number].set_next(next);
            Ok(())
        }
    }
}

/// Makes the first step of the call that the entry begins, and the rest of the entry; the call is kept where it is blocked.
#[inline(always)]
fn begin(
    alloc: Global,
    lines: &[Line],
    number: u32,
    worker: &mut Worker,
    world: &mut World,
    entry: &mut Entry,
) -> Result<bool, AllocError>
    requires ready { IsReadyNow lines.now number (with_begun worker.old entry.old.act) }
    requires idle { worker.old.next ≡ None }
    requires whole { worker.old.part ≡ None }
    ensures makes { OfMade result entry.new
        (MakesBegun lines.now number world.old world.new entry.old.act worker.old worker.new) }
    ensures left { IfOk result (λ made. made ≡ false → entry.new.act ≡ More) }
    ensures err { OnErr result
        (FailsBegun lines.now number world.old world.new entry.old.act worker.old worker.new) }
    ensures providers { world.new.providers ≡ world.old.providers }
{
    let Act::Begin(call) = &entry.act else {
        return Ok(false);
    };
    if world.waits(call) {
        hold(worker, &mut entry.act);
        return Ok(false);
    }
    if !world.step_into(call, Go::Begin, &mut entry.outcome, &mut entry.after)? {
        hold(worker, &mut entry.act);
        return Ok(false);
    }
    entry.worker = number;
    worker.advance(alloc, lines, &entry.act, &entry.outcome)?;
    Ok(true)
}

/// Makes the next step of the worker with this number, and the entry of it; none where the worker is finished or blocked.
#[inline(always)]
pub(crate) fn ask(
    alloc: Global,
    lines: &[Line],
    workers: &mut Vec<Worker>,
    world: &mut World,
    number: usize,
    entry: &mut Entry,
) -> Result<bool, AllocError>
    requires kept { MayBeAsked lines.now number workers.old.items }
    requires number { number < WORKERS }
    requires none { entry.old.act ≡ More }
    ensures asked { OfMade result entry.new
        (TakesTurn lines.now number world.old world.new workers.old workers.new) }
    ensures left { IfOk result (λ made. made ≡ false → entry.new.act ≡ More) }
    ensures err { OnErr result
        (FailsAsked lines.now number world.old world.new workers.old workers.new) }
    ensures providers { world.new.providers ≡ world.old.providers }
{
    let worker = &workers[number];
    if worker.next.is_some() || worker.part.is_some() {
        return make(
            alloc,
            lines,
            number as u32,
            &mut workers[number],
            world,
            entry,
        );
    }
    worker.begin_next(lines, &workers[0], &mut entry.act)?;
    begin(
        alloc,
        lines,
        number as u32,
        &mut workers[number],
        world,
        entry,
    )
}
