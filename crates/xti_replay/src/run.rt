//! A run of a script in which the workers take turns.

ghost use Rattle.std.specs.Prelude.{◌≡◌, List, None, IfOk, OnOk, OnErr, true, false};
ghost use Rattle.std.specs.Option.{option_copied};
ghost use Rattle.xti_model.specs.declared.entry.Act.TheVariants.{More};
ghost use Rattle.xti_model.specs.declared.entry.Entry.{Entry};
ghost use Rattle.xti_model.specs.Complete.{IsHistoryOf};
ghost use Rattle.xti_replay.specs.Playable.{IsPlayable};
ghost use Rattle.xti_replay.specs.Runs.{IsRunOf, StandsAfter, StandsPastSetup, AsksOthers, AsksFirst, FailsFirst, FailsNextTurn, FailsTurnOfOthers, TakesNextTurn, TakesTurnOfOthers, AreStallsOf, made_of};
ghost use Rattle.xti_replay.specs.Stalls.{gone_on};
ghost use Rattle.xti_replay.specs.Progress.{OfMade};

use crate::asking::ask;
use crate::beginning::{go_through, turns_after, workers_after};
use crate::stalling::stall_lines;
use crate::workers::{Worker, put_back};
use std::alloc::{AllocError, Global};
use std::collections::VecDeque;
use std::mem;
use xti_base::{State, let_go, write_over};
use xti_core::World;
use xti_model::{Act, Entry, Line, Outcome, Script, Stalls};

/// An entry that says nothing.
fn blank() -> Entry {
    Entry {
        worker: 0,
        act: Act::More,
        outcome: Outcome::Part { taken: 0 },
        after: State::T_UNINIT,
    }
}

/// A run of a script's lines that has come so far, and is asked for its next entry.
#[derive(Drop)]
pub struct Run<'a> {
    alloc: Global,
    lines: &'a [Line],
    world: World,
    workers: Vec<Worker>,
    /// The workers but 0 that are not finished, in the order of their turns.
    turns: VecDeque<usize>,
    /// The entry of the last step, if one was made. It stays in its place, where the next one is written.
    entry: Entry,
    /// Whether the last step was made.
    made: bool,
}

impl<'a> Run<'a> {
    /// The run of a script that goes on from a legal history of it.
    pub fn after(alloc: Global, s: &'a Script, history: &[Entry]) -> Result<Run<'a>, AllocError>
        requires script { IsPlayable s.now }
        requires history { IsHistoryOf s.now.providers s.now.lines history.now }
        ensures { IfOk result (λ run. IsRunOf s.now (gone_on s.now history.now) history.now run) }
    {
        let lines = s.lines.as_slice();
        let workers = workers_after(alloc, lines, history)?;
        let turns = turns_after(alloc, workers.as_slice(), history)?;
        let mut world = World::fresh(alloc, &s.providers)?;
        let done = workers[0].is_finished() && turns.is_empty();
        if !done {
            // Where nobody is left no step is made in the world any more.
            go_through(alloc, &mut world, history)?;
        }
        Ok(Run {
            alloc,
            lines,
            world,
            workers,
            turns,
            entry: blank(),
            made: false,
        })
    }

    /// Asks the worker whose turn it is; then it comes last, where it isn't finished.
    #[inline(always)]
    fn ask_first(&mut self) -> Result<bool, AllocError>
        requires asks { (past : List Entry) × AsksOthers past self.old }
        requires none { self.old.entry.act ≡ More }
        ensures asked { OfMade result self.new.entry (AsksFirst self.old self.new) }
        ensures err { OnErr result (FailsFirst self.old self.new) }
        ensures made { self.new.made ≡ self.old.made }
        ensures left { IfOk result (λ made. made ≡ false → self.new.entry.act ≡ More) }
        ensures providers { self.new.world.providers ≡ self.old.world.providers }
        ensures lines { self.new.lines.now ≡ self.old.lines.now }
    {
        let Some(number) = self.turns.pop_front() else {
            return Ok(false);
        };
        let made = ask(
            self.alloc,
            self.lines,
            &mut self.workers,
            &mut self.world,
            number,
            &mut self.entry,
        )?;
        put_back(&mut self.turns, &self.workers[number], number)?;
        Ok(made)
    }

    /// The next step of the workers but 0, and the entry of it.
    fn ask_others(&mut self) -> Result<bool, AllocError>
        requires stands { StandsPastSetup self.old }
        requires none { self.old.entry.act ≡ More }
        ensures goes_on { OfMade result self.new.entry (TakesTurnOfOthers self.old self.new) }
        ensures err { OnErr result (FailsTurnOfOthers self.old self.new) }
        ensures made { self.new.made ≡ self.old.made }
        ensures providers { self.new.world.providers ≡ self.old.world.providers }
        ensures lines { self.new.lines.now ≡ self.old.lines.now }
    {
        for _asked in 0..self.turns.len() {
            if self.ask_first()? {
                return Ok(true);
            }
        }
        Ok(false)
    }

    /// The next step of the run, and the entry of it.
    fn make(&mut self) -> Result<bool, AllocError>
        requires stands { (past : List Entry) × StandsAfter past self.old }
        requires none { self.old.entry.act ≡ More }
        ensures goes_on { OfMade result self.new.entry (TakesNextTurn self.old self.new) }
        ensures err { OnErr result (FailsNextTurn self.old self.new) }
        ensures made { self.new.made ≡ self.old.made }
        ensures providers { self.new.world.providers ≡ self.old.world.providers }
        ensures lines { self.new.lines.now ≡ self.old.lines.now }
    {
        if self.workers[0].is_finished() {
            return self.ask_others();
        }
        ask(
            self.alloc,
            self.lines,
            &mut self.workers,
            &mut self.world,
            0,
            &mut self.entry,
        )
    }

    /// Makes the next step of the run, and keeps the entry of it; none where nobody can make a step.
    /// After an error none is kept: no step was made, and the world and each worker's lines and names are as before; or the step
    /// was made, in the world alone.
    pub fn step(&mut self) -> Result<(), AllocError>
        requires { (past : List Entry) × StandsAfter past self.old }
        ensures goes_on { OnOk result (TakesNextTurn self.old self.new (made_of self.new)) }
        ensures err { OnErr result (FailsNextTurn self.old self.new) }
        ensures none { OnErr result (made_of self.new ≡ None) }
        ensures providers { self.new.world.providers ≡ self.old.world.providers }
        ensures lines { self.new.lines.now ≡ self.old.lines.now }
    {
        self.made = false;
        write_over(&mut self.entry.act, Act::More);
        self.made = self.make()?;
        Ok(())
    }

    /// The entry that is kept of the last step.
    #[inline(always)]
    pub fn made(&self) -> Option<&Entry>
        ensures { option_copied result ≡ made_of self.now }
    {
        if self.made { Some(&self.entry) } else { None }
    }

    /// The next entry of the run; `None` where nobody can make a step. After an error the run is as `step` leaves it.
    pub fn next(&mut self) -> Result<Option<Entry>, AllocError>
        requires { (past : List Entry) × StandsAfter past self.old }
        ensures goes_on { IfOk result (λ entry. TakesNextTurn self.old self.new entry) }
        ensures err { OnErr result (FailsNextTurn self.old self.new) }
        ensures none { OnErr result (made_of self.new ≡ None) }
        ensures handed_out { IfOk result (λ _. made_of self.new ≡ None) }
        ensures providers { self.new.world.providers ≡ self.old.world.providers }
        ensures lines { self.new.lines.now ≡ self.old.lines.now }
    {
        self.step()?;
        if self.made {
            self.made = false;
            return Ok(Some(mem::replace(&mut self.entry, blank())));
        }
        Ok(None)
    }

    /// The stall lines of the run as it stands: the next step of worker 0 where it isn't finished, else that of each worker
    /// that isn't.
    pub fn stalls(mut self) -> Result<Stalls, AllocError>
        requires { (past : List Entry) × StandsAfter past self }
        ensures { IfOk result (λ stalls. AreStallsOf self.entry stalls) }
    {
        let stalls = stall_lines(self.alloc, self.lines, &mut self.workers);
        let_go(self);
        stalls
    }
}
