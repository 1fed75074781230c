//! What a waiter is told.

use thiserror::Error;

/// In the history of this length so many seats waited, each for what is blocked there, so many rested, and no other was
/// out.
#[derive(Clone, Copy, Debug, Error)]
#[error("{waiting} seats wait for what is blocked, and {resting} rest")]
pub struct Stall {
    /// The length of the history.
    pub at: u64,
    /// How many seats waited, the one that is told among them.
    pub waiting: u32,
    /// How many seats rested.
    pub resting: u32,
}

/// How a wait ended.
#[derive(Clone, Copy)]
pub enum Waited {
    /// The history went on.
    Again,
    /// Each seat that is out rests, or waits for what is blocked.
    Stalled(Stall),
}

/// One look of a waiter.
#[derive(Clone, Copy)]
pub(crate) enum Sight {
    /// The history went on.
    Again,
    /// It may park while its bell has this number.
    Parks(u64),
    /// Its mark is set now, and nobody goes on, so it looks once more.
    Alone,
    /// Each seat that is out rests, or waits for what is blocked.
    Stalls(Stall),
}
