//! Who waits looks for a while before it sleeps. A look changes nothing and tells nothing: what was seen may be over at once.
//!
//! No wake is lost at a turn. Who sleeps first counts itself among the sleepers, and the sleep looks at the turn's word once
//! more. Who gives the turn back first sets the word to 0, and then reads the count. All of these are sequentially consistent:
//! so either the sleep finds that the word isn't 1, or the count is found above 0, and one is woken. Where the word is 1 again,
//! the same holds of whoever holds the turn now. One that is woken tries to take the turn: it wakes the next when it gives the
//! turn back, or whoever was faster does.

ghost use Rattle.std.specs.Prelude.{◌<◌, ◌≤◌, ◌+◌};
ghost use Rattle.xti_hall.specs.Words.{setting_of};

use super::Hall;
use std::sync::Wait;
use xti_hall_rule::Stands;

/// So often the word of a turn is read before who waits for it sleeps.
const LOOKS_AT_TURN: u32 = 16_000;

/// So often a seat's bell is read before the seat sleeps.
const LOOKS_AT_BELL: u32 = 100;

impl<C: Stands> Hall<C> {
    /// Looks for a while whether this turn is given back; if it isn't, sleeps until one who gives it back wakes it. It may also
    /// return for no reason. The turn of the journal comes after those of the cells.
    pub(super) fn linger_for_turn<R: Wait>(&self, rt: &R, turn: u32)
        requires turn { turn ≤ (setting_of self.now).cells }
    {
        let word = turn as usize + 1;
        for _ in 0..LOOKS_AT_TURN {
            if self.table.shared.peek(word) == 0 {
                return;
            }
        }
        self.sleepers.add(turn, self.cells);
        self.table.shared.park(rt, word, 1);
        self.sleepers.remove(turn, self.cells);
    }

    /// Wakes one that sleeps for this turn, which was just given back.
    pub(super) fn wake_for_turn(&self, turn: u32)
        requires turn { turn ≤ (setting_of self.now).cells }
    {
        if self.sleepers.are_some(turn, self.cells) {
            self.table.shared.wake_one(turn as usize + 1);
        }
    }

    /// Looks for a while whether the bell of this number rings; if it doesn't, sleeps until it does. It may also return for no
    /// reason.
    pub(super) fn linger_for_bell<R: Wait>(&self, rt: &R, number: u32, bell: u64)
        requires number { number < 33 }
    {
        let word = self.cells as usize + 2 + number as usize;
        for _ in 0..LOOKS_AT_BELL {
            if self.table.shared.peek(word) != bell {
                return;
            }
        }
        self.table.shared.park(rt, word, (bell % (1 << 32)) as u32);
    }
}
