//! How many callers sleep for turns.

use std::sync::atomic::{AtomicU32, Ordering};

/// How many callers sleep for the turn of the journal, for that of the last cell, which the most steps take, and for any other.
/// They tell who gives a turn back whether there may be one to wake, and no clause speaks of them.
#[derive(Drop)]
pub(crate) struct Sleepers {
    journal: AtomicU32,
    last: AtomicU32,
    others: AtomicU32,
}

impl Sleepers {
    /// Nobody sleeps.
    pub(crate) fn none() -> Sleepers {
        Sleepers {
            journal: AtomicU32::new(0),
            last: AtomicU32::new(0),
            others: AtomicU32::new(0),
        }
    }

    /// The count of a turn in a hall of so many cells, of which the journal's comes after those of the cells.
    fn of(&self, turn: u32, cells: u32) -> &AtomicU32 {
        if turn >= cells {
            &self.journal
        } else if cells - turn == 1 {
            &self.last
        } else {
            &self.others
        }
    }

    /// One more sleeps for the turn.
    pub(crate) fn add(&self, turn: u32, cells: u32) {
        self.of(turn, cells).fetch_add(1, Ordering::SeqCst);
    }

    /// One less sleeps for the turn.
    pub(crate) fn remove(&self, turn: u32, cells: u32) {
        self.of(turn, cells).fetch_sub(1, Ordering::SeqCst);
    }

    /// Whether one may sleep for the turn.
    pub(crate) fn are_some(&self, turn: u32, cells: u32) -> bool {
        self.of(turn, cells).load(Ordering::SeqCst) != 0
    }
}
