//! What is written of a run.

ghost use Rattle.std.specs.Prelude.{◌≤◌, [], IfOk, OnOk};
ghost use Rattle.xti_base.specs.declared.limits.TheConstants.{LAST_WORKER};
ghost use Rattle.xti_outputs.specs.Entries.{IsReport, Reports, ReportsOneMore};

use std::alloc::{AllocError, Global};
use xti_base::Octets;
use xti_journal_text::{JournalWriter, Summary};
use xti_model::{Entry, Providers, Stalls};

/// What is written of a run, made while its entries come.
#[derive(Drop)]
pub(crate) enum Report {
    /// The journal.
    Journal(JournalWriter),
    /// The summary of the journal, whose memory doesn't grow.
    Summary(Summary),
}

impl Report {
    /// The report of no entries yet; a journal is written in the room of bytes that are done with.
    pub(crate) fn begin(summary: bool, room: Octets, p: &Providers) -> Result<Report, AllocError>
        ensures { IfOk result (Reports summary p.now []) }
    {
        if summary {
            Ok(Report::Summary(Summary::new()))
        } else {
            let writer = JournalWriter::begin(room.into_vec()?, p)?;
            Ok(Report::Journal(writer))
        }
    }

    /// Reports the next entry; `Err` is out of memory.
    #[inline(always)]
    pub(crate) fn add(&mut self, entry: &Entry) -> Result<(), AllocError>
        requires { entry.now.worker ≤ LAST_WORKER }
        ensures { OnOk result (ReportsOneMore self.old entry.now self.new) }
    {
        match self {
            Report::Journal(writer) => writer.add(entry),
            Report::Summary(summary) => {
                summary.add(entry);
                Ok(())
            }
        }
    }

    /// The whole text, with the stall lines or their number; `Err` is out of memory.
    pub(crate) fn end(self, alloc: Global, stalls: &Stalls) -> Result<Octets, AllocError>
        ensures { IfOk result (IsReport self stalls.now) }
    {
        match self {
            Report::Journal(writer) => writer.end(stalls),
            Report::Summary(summary) => summary.text(alloc, stalls),
        }
    }
}
