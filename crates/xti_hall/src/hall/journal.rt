ghost use Rattle.std.specs.Prelude.{◌≡◌, ◌<◌, true, false, IfOk, OnErr};
ghost use Rattle.xti_hall_rule.specs.declared.view.Mark.TheVariants.{Free};
ghost use Rattle.xti_hall_rule.specs.Rule.{mark_of};
ghost use Rattle.xti_hall_rule.specs.Steps.{with_pen, without_pen, Holds, Commits, Marked, shown};
ghost use Rattle.xti_hall.specs.Pens.{IsPenOf};
ghost use Rattle.xti_hall.specs.Seats.{HasLogWith, IsStanding, LookedAt, Looks, Writes, entry_of_step, taken_in};
ghost use Rattle.xti_hall.specs.Words.{IsSeatOf, IsSameSeat, setting_of};

use super::Hall;
use crate::ended::Ended;
use crate::made_step::MadeStep;
use crate::pen::Pen;
use crate::record::{add, length, reserve};
use crate::seat::Seat;
use std::alloc::{AllocError, Global};
use std::snapshot::Snapshot;
use std::sync::Wait;
use xti_base::let_go;
use xti_hall_rule::{Journal, Mark, Shown, Stands};
use xti_model::{Entries, Entry, Outcome};

/// How many bytes are taken of a call that goes on after this outcome.
fn taken_in(outcome: &Outcome) -> Option<u32>
    ensures { result ≡ taken_in outcome.now }
{
    match outcome {
        Outcome::Done(_) => None,
        Outcome::Part { taken } => Some(*taken),
    }
}

/// The entries once more.
fn copy_of(alloc: Global, entries: &[Entry]) -> Result<Entries, AllocError>
    ensures { IfOk result (λ copy. copy ≡ entries.now) }
{
    let mut copy = Vec::with_capacity(alloc, entries.len())?;
    for entry in entries {
        match entry.copy() {
            Ok(entry) => {
                if let Err(failed) = copy.push(entry) {
                    let_go(failed);
                    let_go(copy);
                    return Err(AllocError);
                }
            }
            Err(error) => {
                let_go(copy);
                return Err(error);
            }
        }
    }
    Ok(Entries::from_vec(copy))
}

/// Whom a commit wakes, once `wake` is called. No clause speaks of it.
#[derive(Drop)]
pub struct Rings {
    seats: u64,
}

impl<C: Stands> Hall<C> {
    /// Whether the entries of the history are kept. Takes no memory.
    pub fn keeps(&self) -> bool
        ensures { result ≡ (setting_of self.now).keeps }
    {
        self.keeps
    }

    /// Takes the journal's turn, and the room of one entry where entries are kept, and waits for the turn. Out of memory the
    /// journal isn't held; and where the history has 2^64 - 1 entries, which counts as out of memory.
    pub fn begin<R: Wait>(&self, rt: &R, seat: &mut Seat<C>) -> Result<Pen<C>, AllocError>
        requires hall { IsSeatOf self.now seat.old }
        requires free { seat.old.view.journal ≡ false }
        ensures hall { IsSameSeat seat.old seat.new }
        ensures ok { IfOk result (λ p. seat.new.view ≡ with_pen seat.old.view p.history p.marks) }
        ensures pen { IfOk result (λ p. Holds seat.new.view × IsPenOf seat.new p) }
        ensures err { OnErr result (LookedAt seat.old.view seat.new.view) }
        ensures standing { IsStanding seat.new.view }
    {
        let mut journal = self.look(rt, seat);
        if !reserve(&mut journal) {
            self.give_marked(seat, journal, Mark::Free);
            return Err(AllocError);
        }
        Ok(Pen::of(seat, journal))
    }

    /// Gives the journal back without an entry. The seat has then seen the whole history. Takes no memory, and waits for
    /// nobody.
    pub fn return_pen(&self, seat: &mut Seat<C>, pen: Pen<C>)
        requires hall { IsSeatOf self.now seat.old }
        requires holds { Holds seat.old.view }
        requires pen { IsPenOf seat.old pen }
        ensures hall { IsSameSeat seat.old seat.new }
        ensures view { seat.new.view ≡ without_pen seat.old.view Free }
        ensures standing { IsStanding seat.new.view }
    {
        self.give_marked(seat, pen.into_journal(), Mark::Free);
    }

    /// Appends the entry, adds 1 to the length, and gives the journal back. The seat has then seen the history that ends with the
    /// entry, and the recorded values of its cells are those after it. Takes no memory, and waits for nobody.
    ///
    /// Of the seats told, each by the bit of its number, it answers those that wait, whom `wake` wakes once the cells are given back;
    /// one that an earlier commit has answered, and that hasn't looked since, isn't answered again.
    pub fn commit(&self, seat: &mut Seat<C>, pen: Pen<C>, entry: Entry, wakes: u64) -> Rings
        requires hall { IsSeatOf self.now seat.old }
        requires holds { Holds seat.old.view }
        requires pen { IsPenOf seat.old pen }
        requires entry { Commits seat.old.view entry }
        requires keeps { (setting_of self.now).keeps ≡ true }
        ensures hall { IsSameSeat seat.old seat.new }
        ensures view { Writes seat.old.view entry seat.new.view }
        ensures standing { IsStanding seat.new.view }
    {
        let unfinished = taken_in(&entry.outcome);
        let shown = Shown::Whole(Snapshot::of(&entry));
        let mut journal = pen.into_journal();
        add(&mut journal, entry);
        journal.marks[seat.number as usize] = Mark::Free;
        let rings = Rings {
            seats: journal.bells.ring(wakes),
        };
        self.append(seat, journal, shown, unfinished);
        rings
    }

    /// The same of a hall that doesn't keep its entries: the entry is that of a step of the call, and is not made. Takes no
    /// memory, and waits for nobody.
    pub fn commit_unkept(
        &self,
        seat: &mut Seat<C>,
        pen: Pen<C>,
        step: MadeStep<'_>,
        wakes: u64,
    ) -> Rings
        requires hall { IsSeatOf self.now seat.old }
        requires holds { Holds seat.old.view }
        requires pen { IsPenOf seat.old pen }
        requires entry { Commits seat.old.view (entry_of_step seat.old.view step) }
        requires keeps { (setting_of self.now).keeps ≡ false }
        ensures hall { IsSameSeat seat.old seat.new }
        ensures view { Writes seat.old.view (entry_of_step seat.old.view step.entry) seat.new.view }
        ensures standing { IsStanding seat.new.view }
    {
        let unfinished = taken_in(step.outcome);
        let shown = Shown::Parts {
            worker: seat.number(),
            call: Snapshot::of(step.call),
            go: step.go,
            outcome: Snapshot::of(step.outcome),
            after: step.after,
        };
        let mut journal = pen.into_journal();
        journal.length += 1;
        journal.marks[seat.number as usize] = Mark::Free;
        let rings = Rings {
            seats: journal.bells.ring(wakes),
        };
        self.append(seat, journal, shown, unfinished);
        rings
    }

    /// Wakes those whom a commit tells. Takes no memory, and waits for nobody.
    pub fn wake(&self, seat: &mut Seat<C>, rings: Rings)
        requires hall { IsSeatOf self.now seat.old }
        ensures { seat.new ≡ seat.old }
    {
        self.ring_all(seat, rings.seats);
    }

    /// Adds the entry that is shown, with which the journal is, and gives the journal back.
    fn append(
        &self,
        seat: &mut Seat<C>,
        journal: Box<Journal>,
        entry: Shown,
        unfinished: Option<u32>,
    )
        requires hall { IsSeatOf self.now seat.old }
        requires holds { Holds seat.old.view }
        requires log { HasLogWith seat.old.view journal.value (shown entry) }
        requires marks { Marked seat.old.view journal.value.marks.items }
        requires freed { mark_of journal.value.marks.items seat.old.view.number ≡ Free }
        requires entry { Commits seat.old.view (shown entry) }
        requires unfinished { unfinished ≡ taken_in (shown entry).outcome }
        ensures hall { IsSameSeat seat.old seat.new }
        ensures view { Writes seat.old.view (shown entry) seat.new.view }
        ensures standing { IsStanding seat.new.view }
    {
        let _length = length(&journal);
        self.write(&mut seat.pass, journal, entry);
        seat.steps += 1;
        seat.unfinished = unfinished;
    }

    /// Ends the hall, which must have kept its history: that is handed out as it is, all of which the seat has then seen, and
    /// nobody steps any more. Takes no memory.
    pub fn end<R: Wait>(self, rt: &R, mut seat: Seat<C>) -> Ended<C>
        requires hall { IsSeatOf self seat }
        requires keeps { (setting_of self).keeps ≡ true }
        requires free { seat.view.journal ≡ false }
        ensures hall { IsSameSeat seat result }
        ensures looks { Looks seat.view result.view }
        ensures standing { IsStanding result.view }
    {
        let journal = self.look(rt, &mut seat);
        let _length = self.length(&mut seat);
        let Journal { kept, .. } = Box::into_inner(journal);
        let Some(entries) = kept else { unreachable!() };
        let history = Entries::from_vec(entries);
        Ended {
            hall: self,
            seat,
            history,
        }
    }

    /// A copy of the history at this point, which is what the seat has then seen. The hall must keep it.
    pub fn history<R: Wait>(
        &self,
        rt: &R,
        alloc: Global,
        seat: &mut Seat<C>,
    ) -> Result<Entries, AllocError>
        requires hall { IsSeatOf self.now seat.old }
        requires keeps { (setting_of self.now).keeps ≡ true }
        requires free { seat.old.view.journal ≡ false }
        ensures hall { IsSameSeat seat.old seat.new }
        ensures looks { Looks seat.old.view seat.new.view }
        ensures standing { IsStanding seat.new.view }
        ensures free { seat.new.view.mark ≡ Free }
        ensures history { IfOk result (λ h. h ≡ seat.new.view.seen) }
    {
        let journal = self.look(rt, seat);
        let copy = match &journal.kept {
            Some(entries) => copy_of(alloc, entries.as_slice()),
            None => unreachable!(),
        };
        self.give_marked(seat, journal, Mark::Free);
        copy
    }
}
