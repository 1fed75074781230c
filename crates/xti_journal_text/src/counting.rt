//! The summary of a run while its entries come.

ghost use Rattle.std.specs.Prelude.{◌≤◌, [], IfOk};
ghost use Rattle.xti_base.specs.declared.limits.TheConstants.{LAST_WORKER};
ghost use Rattle.xti_journal_text.specs.Counting.{Counts, CountsOneMore, IsLine};

use crate::totals::Totals;
use crate::worker::Worker;
use std::alloc::{AllocError, Global};
use xti_base::Octets;
use xti_base::limits::WORKERS;
use xti_model::{Entry, Stalls};
use xti_words::{put_number, put_text};

/// What the entries of a run did so far, in numbers. It takes no memory, however many entries there are.
#[derive(Drop)]
pub struct Summary {
    totals: Totals,
    /// The last call of each worker.
    workers: [Worker; WORKERS],
}

impl Summary {
    /// The summary of no entries. Takes no memory.
    pub fn new() -> Summary
        ensures { Counts [] result }
    {
        Summary {
            totals: Totals::new(),
            workers: [Worker::new(); WORKERS],
        }
    }

    /// Counts the next entry, of a worker from 0 to `LAST_WORKER`. Takes no memory.
    pub fn add(&mut self, entry: &Entry)
        requires { entry.now.worker ≤ LAST_WORKER }
        ensures { CountsOneMore self.old entry.now self.new }
    {
        let sent = self.workers[entry.worker as usize].step(&entry.act, &entry.outcome);
        self.totals.add(&entry.outcome, sent);
    }

    /// The line of the entries so far and of these stall lines, with its LF; `Err` is out of memory, or a number that
    /// 64 bits don't hold.
    pub fn text(&self, alloc: Global, stalls: &Stalls) -> Result<Octets, AllocError>
        ensures { IfOk result (λ text. IsLine self.now stalls.now text) }
    {
        if self.totals.is_full() {
            return Err(AllocError);
        }
        let mut out = Vec::new(alloc);
        self.totals
            .put(&mut out)
            .and(put_number(&mut out, " stalled ", stalls.len() as u64))
            .and(put_text(&mut out, "\n"))?;
        Ok(Octets::from_vec(out))
    }
}
