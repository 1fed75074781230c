//! The steps on the journal's turn.

ghost use Rattle.std.specs.Prelude.{◌≡◌, ◌<◌, true, None};
ghost use Rattle.xti_hall_rule.specs.Rule.{Boxed};
ghost use Rattle.xti_hall_rule.specs.Steps.{Began, Commits, Marked, shown};
ghost use Rattle.xti_hall.specs.Seats.{Sits, HasBook, HasJournal, HasLogWith, HasOpen, MayGoBack, TriesPen};
ghost use Rattle.xti_hall.specs.Seats.{gave, gave_unseen, gave_with, with_book, with_open};
ghost use Rattle.xti_hall.specs.Words.{IsOf, IsSame, cells_of, setting_of};

use super::Hall;
use crate::record::length;
use std::sync::Wait;
use xti_hall_rule::{
    Begin, Commit, Held, Journal, Last, Pass, Return, ReturnUnseen, Shown, Stands,
};

impl<C: Stands> Hall<C> {
    /// One try at the journal's turn.
    fn try_pen(&self, pass: &mut Pass<C>) -> bool
        requires hall { IsOf self.now pass.old }
        requires seat { Sits pass.old.me.0 }
        ensures hall { IsSame pass.old pass.new }
        ensures began { TriesPen pass.old.me (cells_of self.now) result pass.new.me }
    {
        self.table
            .shared
            .compare_exchange::<Begin>(pass, self.cells as usize + 1, 0, 1)
            == 0
    }

    /// Waits for the journal's turn, and takes it.
    pub(super) fn take_pen<R: Wait>(&self, rt: &R, pass: &mut Pass<C>)
        requires hall { IsOf self.now pass.old }
        requires seat { Sits pass.old.me.0 }
        ensures hall { IsSame pass.old pass.new }
        ensures began { Began pass.old.me (cells_of self.now) pass.new.me }
    {
        if self.try_pen(pass) {
            return;
        }
        for _ in rt.forever() {
            self.linger_for_turn(rt, self.cells);
            if self.try_pen(pass) {
                return;
            }
        }
        unreachable!()
    }

    /// Takes the journal out of its slot.
    pub(super) fn take_journal(&self, pass: &mut Pass<C>) -> Box<Journal>
        requires hall { IsOf self.now pass.old }
        requires taken { (b : Boxed) × HasBook pass.old.me (cells_of self.now) b }
        ensures hall { IsSame pass.old pass.new }
        ensures journal { HasBook pass.old.me (cells_of self.now) result }
        ensures view { pass.new.me ≡ with_open pass.old.me (cells_of self.now) None }
    {
        match self.table.shared.exchange(pass, self.cells as usize, None) {
            Some(Held::Journal(journal)) => journal,
            _ => unreachable!(),
        }
    }

    /// Puts the journal into its slot.
    fn put_journal(&self, pass: &mut Pass<C>, journal: Box<Journal>)
        requires hall { IsOf self.now pass.old }
        requires taken { HasOpen pass.old.me (cells_of self.now) None }
        ensures hall { IsSame pass.old pass.new }
        ensures view { pass.new.me ≡ with_book pass.old.me (cells_of self.now) journal }
    {
        let empty = self
            .table
            .shared
            .exchange(pass, self.cells as usize, Some(Held::Journal(journal)));
        let None = empty else { unreachable!() };
    }

    /// Gives the journal back. The seat has then seen the history.
    pub(super) fn give_pen(&self, pass: &mut Pass<C>, journal: Box<Journal>)
        requires hall { IsOf self.now pass.old }
        requires seat { Sits pass.old.me.0 }
        requires taken { HasJournal (cells_of self.now) pass.old.me }
        requires journal { MayGoBack pass.old.me.0 journal.value }
        requires setting { pass.old.me.0.setting ≡ setting_of self.now }
        ensures hall { IsSame pass.old pass.new }
        ensures view { pass.new.me ≡ gave pass.old.me journal.value }
    {
        self.put_journal(pass, journal);
        self.table
            .shared
            .store::<Return>(pass, self.cells as usize + 1, 0);
        self.wake_for_turn(self.cells);
    }

    /// Gives the journal back. The seat has seen as much as before.
    pub(super) fn give_pen_unseen(&self, pass: &mut Pass<C>, journal: Box<Journal>)
        requires hall { IsOf self.now pass.old }
        requires seat { Sits pass.old.me.0 }
        requires taken { HasJournal (cells_of self.now) pass.old.me }
        requires journal { MayGoBack pass.old.me.0 journal.value }
        requires setting { pass.old.me.0.setting ≡ setting_of self.now }
        ensures hall { IsSame pass.old pass.new }
        ensures view { pass.new.me ≡ gave_unseen pass.old.me journal.value }
    {
        self.put_journal(pass, journal);
        self.table
            .shared
            .store::<ReturnUnseen>(pass, self.cells as usize + 1, 0);
        self.wake_for_turn(self.cells);
    }

    /// Adds 1 to the length, as the journal is that of the history with the entry that is shown, and gives the journal back.
    pub(super) fn write(&self, pass: &mut Pass<C>, mut journal: Box<Journal>, entry: Shown)
        requires hall { IsOf self.now pass.old }
        requires seat { Sits pass.old.me.0 }
        requires taken { HasJournal (cells_of self.now) pass.old.me }
        requires log { HasLogWith pass.old.me.0 journal.value (shown entry) }
        requires marks { Marked pass.old.me.0 journal.value.marks.items }
        requires entry { Commits pass.old.me.0 (shown entry) }
        requires setting { pass.old.me.0.setting ≡ setting_of self.now }
        ensures hall { IsSame pass.old pass.new }
        ensures view { pass.new.me ≡ gave_with pass.old.me journal.value (shown entry) }
    {
        let _length = length(&journal);
        let last = Some(entry);
        journal.last = Last::of(&last);
        self.put_journal(pass, journal);
        self.table.shared.fetch_add::<Commit>(pass, 0, 1);
        self.table
            .shared
            .store::<Return>(pass, self.cells as usize + 1, 0);
        self.wake_for_turn(self.cells);
    }
}
