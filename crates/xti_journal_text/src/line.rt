//! The summary of a journal.

ghost use Rattle.std.specs.Prelude.{◌≡◌, IfOk};
ghost use Rattle.xti_journal_text.specs.Summaries.{summary_text};
ghost use Rattle.xti_journal_text.specs.Counting.{HaveWorkers};

use crate::counting::Summary;
use std::alloc::{AllocError, Global};
use xti_base::Octets;
use xti_model::Journal;

/// The summary line of a journal, with its LF; `Err` is out of memory, or a number that 64 bits don't hold.
pub fn summary(alloc: Global, journal: &Journal) -> Result<Octets, AllocError>
    requires { HaveWorkers journal.now.entries }
    ensures { IfOk result (λ text. text ≡ summary_text journal.now) }
{
    let mut summary = Summary::new();
    let entries = journal.entries.as_slice();
    for entry in entries {
        summary.add(entry);
    }
    summary.text(alloc, &journal.stalls)
}
