//! What is kept of each worker.

ghost use Rattle.std.specs.Prelude.{◌≡◌, ◌+◌, ◌<◌, ◌++◌, ◌∷◌, [], List, ℕ, None, Some, slice_get, length, IfOk, OnOk, OnErr};
ghost use Rattle.std.specs.Option.{option_copied};
ghost use Rattle.xti_model.specs.declared.entry.Act.TheVariants.{More};
ghost use Rattle.xti_model.specs.History.{going_after};
ghost use Rattle.xti_replay.specs.Known.{known_in};
ghost use Rattle.xti_replay.specs.Progress.{is_finished, turns_with, next_place, HaveHistory, IsNextCall, MayTake, KeepsAllButLines, KeepsLinesAndCalls, KeepsAllButPart, LearnsNextLine, LearnsEntry, HasBegunNone, HasBegunOrNot, HasPart, KeepsLeft, begun_by, next_act, part_call, under_way, going_of, call_of, so_far_of, begun_call};

use crate::names::Names;
use crate::resolving::Scope;
use std::alloc::{AllocError, Global};
use std::collections::VecDeque;
use xti_base::{let_go, write_over};
use xti_model::{Act, Call, Go, Line, Outcome};

/// A call that is part way.
#[derive(Drop)]
pub struct Part {
    /// The call.
    pub call: Call,
    /// How many bytes it has taken so far.
    pub taken: u32,
}

/// How far a worker has come.
#[derive(Drop)]
pub struct Worker {
    /// Where its lines stand in the script.
    pub(crate) places: Vec<usize>,
    /// How many of them it has begun.
    pub(crate) begun: usize,
    /// What the names stand for that its lines have defined.
    pub names: Names,
    /// Its call that is part way.
    pub(crate) part: Option<Part>,
    /// The call of its next line, once it is found.
    pub(crate) next: Option<Call>,
}

impl Worker {
    /// A worker without lines.
    pub fn idle(alloc: Global) -> Worker
        ensures places { result.places.items ≡ [] }
        ensures begun { result.begun ≡ 0 }
        ensures endpoints { (name : List ℕ) → known_in result.names.endpoints name ≡ None }
        ensures sequences { (name : List ℕ) → known_in result.names.sequences name ≡ None }
        ensures part { result.part ≡ None }
        ensures next { result.next ≡ None }
    {
        Worker {
            places: Vec::new(alloc),
            begun: 0,
            names: Names::new(alloc),
            part: None,
            next: None,
        }
    }

    /// The line at this place is the worker's too. After an error its lines are as before.
    pub fn hand(&mut self, place: usize) -> Result<(), AllocError>
        ensures places { OnOk result (self.new.places.items ≡ self.old.places.items ++ place ∷ []) }
        ensures err { OnErr result (self.new.places.items ≡ self.old.places.items) }
        ensures others { KeepsAllButLines self.old self.new }
    {
        self.places.push(place)?;
        Ok(())
    }

    /// Whether it has made all its calls.
    #[inline(always)]
    pub fn is_finished(&self) -> bool
        ensures { result ≡ is_finished self.now }
    {
        self.part.is_none() && self.places.len() <= self.begun
    }

    /// Where its next line stands; `None` where it has begun them all.
    pub fn place(&self) -> Option<usize>
        ensures { result ≡ slice_get self.now.places.items self.now.begun }
    {
        self.places.get(self.begun).copied()
    }

    /// Begins the call of its next line, with numbers in place of names, unless it has begun them all.
    #[inline(always)]
    pub(crate) fn begin_next(
        &self,
        lines: &[Line],
        setup: &Worker,
        act: &mut Act,
    ) -> Result<(), AllocError>
        requires told { HaveHistory lines.now self.now setup.now }
        requires whole { self.now.part ≡ None }
        requires none { act.old ≡ More }
        ensures { OnOk result (IsNextCall lines.now self.now setup.now (begun_call act.new)) }
    {
        match self.place() {
            None => Ok(()),
            Some(place) => {
                let line = &lines[place];
                let scope = Scope {
                    place,
                    own: &self.names,
                    setup: &setup.names,
                };
                scope.call(&line.call, act)
            }
        }
    }

    /// The call of its next line, with numbers in place of names; `None` where it has begun them all.
    pub fn next_call(&self, lines: &[Line], setup: &Worker) -> Result<Option<Call>, AllocError>
        requires told { HaveHistory lines.now self.now setup.now }
        requires whole { self.now.part ≡ None }
        ensures { IfOk result (λ next. IsNextCall lines.now self.now setup.now next) }
    {
        let mut act = Act::More;
        if let Err(fail) = self.begin_next(lines, setup, &mut act) {
            let_go(act);
            return Err(fail);
        }
        match act {
            Act::Begin(call) => Ok(Some(call)),
            Act::More => Ok(None),
        }
    }

    /// The call of its next step, as far as it is known.
    #[inline(always)]
    pub(crate) fn call(&self) -> Option<&Call>
        ensures { option_copied result ≡ call_of (going_of self.now) }
    {
        match &self.next {
            Some(call) => Some(call),
            None => match &self.part {
                Some(part) => Some(&part.call),
                None => None,
            },
        }
    }

    /// How far that call has come.
    #[inline(always)]
    pub(crate) fn so_far(&self) -> Go
        ensures { result ≡ so_far_of (going_of self.now) }
    {
        match &self.next {
            Some(_) => Go::Begin,
            None => match &self.part {
                Some(part) => Go::More(part.taken),
                None => Go::Begin,
            },
        }
    }

    /// Sets the call of its next line.
    #[inline(always)]
    pub fn set_next(&mut self, next: Option<Call>)
        ensures { self.new ≡ record self.old { next = next } }
    {
        write_over(&mut self.next, next);
    }

    /// How its next step begins or goes on, in an entry.
    #[inline(always)]
    pub(crate) fn take_act(&mut self) -> Act
        ensures act { result ≡ next_act self.old }
        ensures left { self.new ≡ record self.old { next = None } }
    {
        match self.next.take() {
            None => Act::More,
            Some(call) => Act::Begin(call),
        }
    }

    /// The worker's next line is begun: learns what its entry answered.
    #[inline(always)]
    fn begin(&mut self, alloc: Global, lines: &[Line], outcome: &Outcome) -> Result<(), AllocError>
        requires more { self.old.begun < length self.old.places.items }
        requires within { next_place self.old < length lines.now }
        ensures others { KeepsLinesAndCalls self.old self.new }
        ensures count { OnOk result (self.new.begun ≡ self.old.begun + 1) }
        ensures names { OnOk result (LearnsNextLine lines.now outcome.now self.old self.new) }
        ensures err { OnErr result (HasBegunNone self.old self.new) }
    {
        let place = self.places[self.begun];
        let line = &lines[place];
        self.names.learn(alloc, place, &line.call, outcome)?;
        self.begun += 1;
        Ok(())
    }

    /// No call of it is part way any more.
    #[inline(always)]
    fn end_part(&mut self)
        ensures { self.new ≡ record self.old { part = None } }
    {
        if self.part.is_some() {
            write_over(&mut self.part, None);
        }
    }

    /// A call of it is part way. Apart, since most are done in one step.
    #[inline(never)]
    fn keep_part(&mut self, call: &Call, taken: u32) -> Result<(), AllocError>
        ensures part { OnOk result (HasPart self.new (Some (under_way call.now taken))) }
        ensures err { OnErr result (self.new ≡ self.old) }
        ensures others { KeepsAllButPart self.old self.new }
    {
        let call = call.copy()?;
        write_over(&mut self.part, Some(Part { call, taken }));
        Ok(())
    }

    /// What is left of its call after its first step.
    #[inline(always)]
    fn begin_part(&mut self, call: &Call, outcome: &Outcome) -> Result<(), AllocError>
        ensures part { OnOk result (HasPart self.new (going_after (Some call.now) outcome.now)) }
        ensures err { OnErr result (self.new ≡ self.old) }
        ensures others { KeepsAllButPart self.old self.new }
    {
        match outcome {
            Outcome::Done(_) => {
                self.end_part();
                Ok(())
            }
            Outcome::Part { taken } => self.keep_part(call, *taken),
        }
    }

    /// What is left of its call after a further step.
    #[inline(always)]
    fn go_on(&mut self, outcome: &Outcome)
        ensures part { HasPart self.new (going_after (part_call self.old.part) outcome.now) }
        ensures others { KeepsAllButPart self.old self.new }
    {
        match outcome {
            Outcome::Done(_) => self.end_part(),
            Outcome::Part { taken } => {
                if let Some(part) = &mut self.part {
                    part.taken = *taken;
                }
            }
        }
    }

    /// Keeps what is left of its call after an entry of it.
    #[inline(always)]
    pub(crate) fn keep_left(&mut self, act: &Act, outcome: &Outcome) -> Result<(), AllocError>
        ensures part { OnOk result (KeepsLeft self.old act.now outcome.now self.new) }
        ensures err { OnErr result (self.new ≡ self.old) }
        ensures others { KeepsAllButPart self.old self.new }
    {
        match act {
            Act::Begin(call) => self.begin_part(call, outcome),
            Act::More => {
                self.go_on(outcome);
                Ok(())
            }
        }
    }

    /// An entry of the worker is made: its next line is begun, or its call goes on.
    /// After an error its lines, its next call and its call that is part way are as before. No line is begun, and each name
    /// stands for what it did; or the line is begun, and its answer learnt.
    #[inline(always)]
    pub fn advance(
        &mut self,
        alloc: Global,
        lines: &[Line],
        act: &Act,
        outcome: &Outcome,
    ) -> Result<(), AllocError>
        requires { MayTake lines.now self.old act.now }
        ensures places { self.new.places ≡ self.old.places }
        ensures next { self.new.next ≡ self.old.next }
        ensures count { OnOk result (self.new.begun ≡ self.old.begun + begun_by act.now) }
        ensures part { OnOk result (KeepsLeft self.old act.now outcome.now self.new) }
        ensures names { OnOk result (LearnsEntry lines.now act.now outcome.now self.old self.new) }
        ensures err_part { OnErr result (self.new.part ≡ self.old.part) }
        ensures err { OnErr result (HasBegunOrNot lines.now act.now outcome.now self.old self.new) }
    {
        if let Act::Begin(_) = act {
            self.begin(alloc, lines, outcome)?;
        }
        self.keep_left(act, outcome)
    }
}

/// The worker comes last, where it isn't finished.
#[inline(always)]
pub(crate) fn put_back(
    turns: &mut VecDeque<usize>,
    worker: &Worker,
    number: usize,
) -> Result<(), AllocError>
    ensures { OnOk result (turns.new.items ≡ turns_with worker.now number turns.old.items) }
{
    if worker.is_finished() {
        return Ok(());
    }
    turns.push_back(number)?;
    Ok(())
}
