//! What a glance finds.

use xti_base::{Event, State};

/// What a glance at a descriptor found.
#[derive(Clone, Copy, Debug, PartialEq, Eq)]
pub enum Glance {
    /// What the endpoint that is open with the descriptor shows in the world after the first `at` entries of the history: its
    /// state, and the first event that is pending, in the order of `t_look`.
    Seen {
        state: State,
        event: Option<Event>,
        at: u64,
    },
    /// No endpoint is open with the descriptor in that world.
    Gone {
        at: u64,
    },
    /// The turn of this cell was held when it was tried.
    Busy {
        cell: u32,
    },
}
