//! The steps on a cell's turn. Between two calls a seat has no cell's slot open: the slot of a cell that is held is at home, and
//! empty.

ghost use Rattle.std.specs.Prelude.{◌≡◌, ◌+◌, ◌<◌, ◌∷◌, true, Some};
ghost use Rattle.atomic_table.specs.Table.{rest};
ghost use Rattle.xti_hall_rule.specs.declared.view.Held.TheVariants.{Cell};
ghost use Rattle.xti_hall_rule.specs.Steps.{Took, settled};
ghost use Rattle.xti_hall.specs.Seats.{Sits, StandsForHeld, TriesCell, TriesOnce, without_cell};
ghost use Rattle.xti_hall.specs.Words.{IsOf, IsSame, setting_of};

use super::Hall;
use std::sync::Wait;
use xti_hall_rule::{Held, Leave, Pass, Reopen, Settle, Stands, Take, Try};

impl<C: Stands> Hall<C> {
    /// One try at a cell's turn.
    fn try_take(&self, pass: &mut Pass<C>, cell: u32) -> bool
        requires hall { IsOf self.now pass.old }
        requires cell { cell < (setting_of self.now).cells }
        requires seat { Sits pass.old.me.0 }
        ensures hall { IsSame pass.old pass.new }
        ensures took { TriesCell C.stands pass.old.me cell result pass.new.me }
    {
        self.table
            .shared
            .compare_exchange::<Take>(pass, cell as usize + 1, 0, 1)
            == 0
    }

    /// One try at a cell's turn that isn't made again. Where the turn is held, that is recorded.
    pub(super) fn try_once(&self, pass: &mut Pass<C>, cell: u32) -> bool
        requires hall { IsOf self.now pass.old }
        requires cell { cell < (setting_of self.now).cells }
        requires seat { Sits pass.old.me.0 }
        ensures hall { IsSame pass.old pass.new }
        ensures took { TriesOnce C.stands pass.old.me cell result pass.new.me }
    {
        self.table
            .shared
            .compare_exchange::<Try>(pass, cell as usize + 1, 0, 1)
            == 0
    }

    /// Waits for a cell's turn, and takes it.
    pub(super) fn take<R: Wait>(&self, rt: &R, pass: &mut Pass<C>, cell: u32)
        requires hall { IsOf self.now pass.old }
        requires cell { cell < (setting_of self.now).cells }
        requires seat { Sits pass.old.me.0 }
        ensures hall { IsSame pass.old pass.new }
        ensures took { Took C.stands pass.old.me cell pass.new.me }
    {
        if self.try_take(pass, cell) {
            return;
        }
        for _ in rt.forever() {
            self.linger_for_turn(rt, cell);
            if self.try_take(pass, cell) {
                return;
            }
        }
        unreachable!()
    }

    /// Takes the value out of the slot of a turn that was just taken.
    pub(super) fn take_out(&self, pass: &mut Pass<C>, cell: u32) -> C
        requires hall { IsOf self.now pass.old }
        requires cell { cell < (setting_of self.now).cells }
        requires live { pass.old.me.0.live ≡ true }
        requires opened { pass.old.me.0.opened ≡ cell + 1 }
        requires taken { (x : C) × (pass.old.me.1 ≡ (cell, Some (Cell x)) ∷ rest pass.old.me.1) }
        ensures hall { IsSame pass.old pass.new }
        ensures value { pass.old.me.1 ≡ (cell, Some (Cell result)) ∷ rest pass.old.me.1 }
        ensures view { settled pass.old.me pass.new.me }
    {
        let shared = &self.table.shared;
        let value = shared.exchange(pass, cell as usize, None);
        shared.store::<Settle>(pass, cell as usize + 1, 1);
        match value {
            Some(Held::Cell(value)) => value,
            _ => unreachable!(),
        }
    }

    /// Puts the value into the slot of a turn that is held, and gives the turn back.
    pub(super) fn put_back(&self, pass: &mut Pass<C>, cell: u32, value: C)
        requires hall { IsOf self.now pass.old }
        requires cell { cell < (setting_of self.now).cells }
        requires seat { Sits pass.old.me.0 }
        requires setting { pass.old.me.0.setting ≡ setting_of self.now }
        requires held { StandsForHeld C.stands (setting_of self.now) pass.old.me.0 cell value }
        ensures hall { IsSame pass.old pass.new }
        ensures gone { pass.new.me ≡ (without_cell pass.old.me.0 cell, pass.old.me.1) }
    {
        let shared = &self.table.shared;
        let turn = cell as usize + 1;
        shared.store::<Reopen>(pass, turn, 1);
        let empty = shared.exchange(pass, cell as usize, Some(Held::Cell(value)));
        shared.store::<Leave>(pass, turn, 0);
        self.wake_for_turn(cell);
        let None = empty else { unreachable!() };
    }
}
