ghost use Rattle.std.specs.Prelude.{◌≡◌, length};
ghost use Rattle.xti_hall_rule.specs.Rule.{HasLog};
ghost use Rattle.xti_hall.specs.Pens.{HasFound, IsJournalOf, IsOfSeat};
ghost use Rattle.xti_hall.specs.Records.{HasRoom};

use crate::seat::Seat;
use std::marker::Model;
use std::snapshot::Snapshot;
use xti_hall_rule::{Journal, Mark, Pass};

/// The journal while a seat holds its turn, with room for one entry where entries are kept. It can't be let go: `commit` or
/// `return_pen` gives it back.
pub struct Pen<C> {
    journal: Box<Journal>,
    of: Snapshot<Pass<C>>,
}

impl<C> Model for Pen<C> {
    ghost use Rattle.xti_hall_rule.specs.Rule.{HasLog};
    ghost use Rattle.xti_hall.specs.Pens.{PenView, pen_view};
    ghost use Rattle.xti_hall.specs.Records.{HasRoom};

    ghost Value = { PenView };

    ghost view = { λ p. pen_view p.of.value.table_id p.of.value.me.0 p.journal.value };

    ghost invariant = { λ p. HasRoom p.journal.value × HasLog p.of.value.me.0.setting p.journal.value p.of.value.me.0.history };
}

impl<C> Pen<C> {
    /// The pen of a seat.
    pub(crate) fn of(seat: &Seat<C>, journal: Box<Journal>) -> Pen<C>
        requires room { HasRoom journal.value }
        requires log { HasLog seat.now.view.setting journal.value seat.now.view.history }
        ensures seat { IsOfSeat seat.now result }
        ensures journal { HasFound seat.now journal.value result }
    {
        Pen {
            journal,
            of: Snapshot::of(&seat.pass),
        }
    }

    /// The journal, which has room for one more entry.
    pub(crate) fn into_journal(self) -> Box<Journal>
        ensures room { HasRoom result.value }
        ensures journal { IsJournalOf self result.value }
    {
        let Pen { journal, of: _ } = self;
        journal
    }

    /// The seats that wait, each by the bit of its number, as far as it concerns whom a commit wakes. Takes no memory.
    pub fn waiting(&self) -> u64 {
        self.journal.bells.waiting()
    }

    /// The mark of each number. Takes no memory.
    pub fn marks(&self) -> &[Mark]
        ensures { result.now ≡ self.now.marks }
    {
        self.journal.marks.as_slice()
    }

    /// The length of the history. Takes no memory.
    pub fn at(&self) -> u64
        ensures { result ≡ length self.now.history }
    {
        self.journal.length
    }
}
