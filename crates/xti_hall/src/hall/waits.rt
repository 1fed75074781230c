ghost use Rattle.std.specs.Prelude.{◌≡◌, ◌<◌, ◌≤◌, ◌+◌, true, false, length, take};
ghost use Rattle.xti_hall_rule.specs.declared.view.Mark.TheVariants.{Resting, Waiting};
ghost use Rattle.xti_hall_rule.specs.Rule.{MarkFits, HasLog};
ghost use Rattle.xti_hall_rule.specs.Steps.{without_pen, Holds};
ghost use Rattle.xti_hall.specs.Seats.{HoldsNone, IsStanding, Looks, TakesJournal};
ghost use Rattle.xti_hall.specs.Stalls.{WasBlocked, Sees, WaitedFor};
ghost use Rattle.xti_hall.specs.Words.{IsSeatOf, IsSameSeat};

use super::Hall;
use crate::marks::{all_settled, left_behind, resting, waiting, waits};
use crate::seat::Seat;
use crate::stall::{Sight, Stall, Waited};
use std::sync::Wait;
use xti_hall_rule::{Journal, Mark, Ring, Stands};
use xti_wants::Want;

/// All seats, by their bits.
const EVERYONE: u64 = u64::MAX;

impl<C: Stands> Hall<C> {
    /// Takes the journal without the room of an entry.
    pub(super) fn look<R: Wait>(&self, rt: &R, seat: &mut Seat<C>) -> Box<Journal>
        requires hall { IsSeatOf self.now seat.old }
        requires free { seat.old.view.journal ≡ false }
        ensures hall { IsSameSeat seat.old seat.new }
        ensures look { TakesJournal seat.old.view result.value seat.new.view }
        ensures log { HasLog seat.new.view.setting result.value seat.new.view.history }
        ensures holds { Holds seat.new.view × (seat.new.view.numbered ≡ true) }
        ensures standing { IsStanding seat.new.view }
    {
        self.take_pen(rt, &mut seat.pass);
        self.take_journal(&mut seat.pass)
    }

    /// Gives the journal back with a mark.
    pub(super) fn give_marked(&self, seat: &mut Seat<C>, mut journal: Box<Journal>, mark: Mark)
        requires hall { IsSeatOf self.now seat.old }
        requires holds { Holds seat.old.view }
        requires log { HasLog seat.old.view.setting journal.value seat.old.view.history }
        requires marks { journal.value.marks.items ≡ seat.old.view.marks }
        requires mark { MarkFits seat.old.view.setting seat.old.view.history mark }
        ensures hall { IsSameSeat seat.old seat.new }
        ensures view { seat.new.view ≡ without_pen seat.old.view mark }
        ensures standing { IsStanding seat.new.view }
    {
        journal.bells.looked(seat.number, waits(&mark));
        journal.marks[seat.number as usize] = mark;
        self.give_pen(&mut seat.pass, journal);
    }

    /// Rings the bell of the seat with this number, and wakes it.
    fn ring(&self, seat: &mut Seat<C>, number: u32)
        requires hall { IsSeatOf self.now seat.old }
        requires number { number < 33 }
        ensures { seat.new ≡ seat.old }
    {
        let bell = self.cells as usize + 2 + number as usize;
        self.table.shared.fetch_add::<Ring>(&mut seat.pass, bell, 1);
        self.table.shared.wake_all(bell);
    }

    /// Rings the bells of these seats, each told by the bit of its number.
    pub(super) fn ring_all(&self, seat: &mut Seat<C>, seats: u64)
        requires hall { IsSeatOf self.now seat.old }
        ensures { seat.new ≡ seat.old }
    {
        for number in 0u32..33 {
            if seats >> number == 0 {
                return;
            }
            if seats & (1u64 << number) != 0 {
                self.ring(seat, number);
            }
        }
    }

    /// Gives the journal back, with the seat at rest, and wakes all that wait.
    fn give_resting(&self, seat: &mut Seat<C>, mut journal: Box<Journal>)
        requires hall { IsSeatOf self.now seat.old }
        requires holds { Holds seat.old.view }
        requires log { HasLog seat.old.view.setting journal.value seat.old.view.history }
        requires marks { journal.value.marks.items ≡ seat.old.view.marks }
        ensures hall { IsSameSeat seat.old seat.new }
        ensures view { seat.new.view ≡ without_pen seat.old.view Resting }
        ensures standing { IsStanding seat.new.view }
    {
        let rings = journal.bells.ring(EVERYONE);
        self.give_marked(seat, journal, Mark::Resting);
        self.ring_all(seat, rings);
    }

    /// Gives the journal back, with the mark of a wait in the history of this length, which `set` says that the seat had already.
    /// Where no other seat goes on, those are woken that wait since an earlier length.
    fn give_waiting(
        &self,
        seat: &mut Seat<C>,
        mut journal: Box<Journal>,
        want: Want,
        at: u64,
        set: bool,
    ) -> Sight
        requires hall { IsSeatOf self.now seat.old }
        requires holds { Holds seat.old.view }
        requires log { HasLog seat.old.view.setting journal.value seat.old.view.history }
        requires marks { journal.value.marks.items ≡ seat.old.view.marks }
        requires at { at ≡ length seat.old.view.history }
        requires mark { MarkFits seat.old.view.setting seat.old.view.history (Waiting want at) }
        ensures hall { IsSameSeat seat.old seat.new }
        ensures view { seat.new.view ≡ without_pen seat.old.view (Waiting want at) }
        ensures standing { IsStanding seat.new.view }
        ensures sight { Sees seat.new.view want at result }
    {
        let behind = left_behind(journal.marks.as_slice(), &journal.bells, seat.number, at);
        let rings = match behind {
            Some(seats) if set => journal.bells.ring(seats),
            _ => 0,
        };
        let bell = self
            .table
            .shared
            .peek(self.cells as usize + 2 + seat.number as usize);
        self.give_marked(seat, journal, Mark::Waiting(want, at));
        self.ring_all(seat, rings);
        if set || behind.is_none() {
            Sight::Parks(bell)
        } else {
            Sight::Alone
        }
    }

    /// Until its next call gives the journal back, the seat counts as resting.
    pub fn rest<R: Wait>(&self, rt: &R, seat: &mut Seat<C>)
        requires hall { IsSeatOf self.now seat.old }
        requires free { seat.old.view.journal ≡ false }
        requires nothing { HoldsNone seat.old.view }
        ensures hall { IsSameSeat seat.old seat.new }
        ensures mark { seat.new.view.mark ≡ Resting }
        ensures standing { IsStanding seat.new.view }
        ensures looks { Looks seat.old.view seat.new.view }
    {
        let journal = self.look(rt, seat);
        self.give_resting(seat, journal);
    }

    /// One look of a waiter. A stall is looked for where the seat's own mark is that of this wait. Where it is none, though no
    /// other seat goes on, those are woken that wait since an earlier length.
    fn look_once<R: Wait>(
        &self,
        rt: &R,
        seat: &mut Seat<C>,
        want: Want,
        at: u64,
        set: bool,
    ) -> Sight
        requires hall { IsSeatOf self.now seat.old }
        requires free { seat.old.view.journal ≡ false }
        requires want { WasBlocked seat.old.view at want }
        requires set { set ≡ true → seat.old.view.mark ≡ Waiting want at }
        ensures hall { IsSameSeat seat.old seat.new }
        ensures setting { seat.new.view.setting ≡ seat.old.view.setting }
        ensures sight { Sees seat.new.view want at result }
        ensures looks { Looks seat.old.view seat.new.view }
        ensures free { seat.new.view.journal ≡ false }
        ensures want { WasBlocked seat.new.view at want }
        ensures standing { IsStanding seat.new.view }
    {
        let journal = self.look(rt, seat);
        if journal.length > at {
            self.give_marked(seat, journal, Mark::Free);
            return Sight::Again;
        }
        if set && all_settled(journal.marks.as_slice(), at) {
            let stall = Stall {
                at,
                waiting: waiting(journal.marks.as_slice()),
                resting: resting(journal.marks.as_slice()),
            };
            self.give_resting(seat, journal);
            return Sight::Stalls(stall);
        }
        self.give_waiting(seat, journal, want, at, set)
    }

    /// Waits until the history is longer than `at`, or until each seat that is out rests, or waits for what is blocked in the
    /// history as it is. Its mark is set, and all are looked at once more unless another seat goes on, so the last seat to wait
    /// finds the stall itself. It is woken by a commit that tells its number, by a stall, and where nobody else goes on; it may
    /// find a longer history by itself too. It holds nothing while it waits. Takes no memory.
    pub fn wait<R: Wait>(&self, rt: &R, seat: &mut Seat<C>, want: Want, at: u64) -> Waited
        requires hall { IsSeatOf self.now seat.old }
        requires free { seat.old.view.journal ≡ false }
        requires nothing { HoldsNone seat.old.view }
        requires want { WasBlocked seat.old.view at want }
        ensures hall { IsSameSeat seat.old seat.new }
        ensures waited { WaitedFor seat.new.view want at result }
        ensures looks { Looks seat.old.view seat.new.view }
        ensures standing { IsStanding seat.new.view }
    {
        let mut set = false;
        for _ in rt.forever() {
            match self.look_once(rt, seat, want, at, set) {
                Sight::Again => return Waited::Again,
                Sight::Stalls(stall) => return Waited::Stalled(stall),
                Sight::Alone => {}
                Sight::Parks(bell) => self.linger_for_bell(rt, seat.number, bell),
            }
            set = true;
        }
        unreachable!()
    }
}
