//! What is kept of a worker.

ghost use Rattle.std.specs.Prelude.{◌≡◌, None};
ghost use Rattle.xti_journal_text.specs.Counting.{Keeps, Sends, Steps};

use crate::payload::Payload;
use xti_model::{Act, Outcome};

/// The call that a worker began last.
#[derive(Clone, Copy)]
pub(crate) struct Worker {
    /// What it sends, if there is one.
    payload: Option<Payload>,
    /// How many of its bytes are taken, where it is part way.
    taken: Option<u32>,
}

impl Worker {
    /// A worker that has begun no call.
    pub(crate) fn new() -> Worker
        ensures { Keeps None None result }
    {
        Worker {
            payload: None,
            taken: None,
        }
    }

    /// Makes the worker's next step, and answers how many bytes that sends. An entry that doesn't go with the worker's
    /// last call is no step of any, and sends nothing.
    pub(crate) fn step(&mut self, act: &Act, outcome: &Outcome) -> u64
        ensures sent { Sends self.old act.now outcome.now result }
        ensures stands { Steps self.old act.now outcome.now self.new }
    {
        let (payload, before) = match (act, self.taken) {
            (Act::Begin(call), None) => (Some(Payload::of(call)), Some(0)),
            (Act::Begin(call), Some(_)) => (Some(Payload::of(call)), None),
            (Act::More, taken) => (self.payload, taken),
        };
        let sent = match (payload, before) {
            (Some(payload), Some(before)) => payload.sent(before, outcome),
            _ => 0,
        };
        self.payload = payload;
        self.taken = match (payload, outcome) {
            (Some(_), Outcome::Part { taken }) => Some(*taken),
            _ => None,
        };
        sent
    }
}
