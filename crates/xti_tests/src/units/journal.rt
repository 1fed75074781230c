//! The text of a journal, whole and entry by entry.

ghost use Rattle.xti_journal_text.specs.Counting.{HaveWorkers};

use crate::cases::are_bytes;
use std::alloc::{AllocError, Global};
use xti_base::{Octets, Prov, State};
use xti_journal_text::{JournalWriter, StallLine, write_entry, write_journal};
use xti_model::{Act, Call, Entries, Entry, Journal, Outcome, Providers, Reply, Stalls};

const TEXT: &[u8] = b"xti-journal 1
provider ticots tsdu=65536 sendzero=1 same_addr=0 sndbuf=16384 rcvbuf=16384
provider ticotsord tsdu=0 sendzero=0 same_addr=0 sndbuf=16384 rcvbuf=16384
provider ticlts tsdu=8192 sendzero=1 same_addr=0 sndbuf=16384 rcvbuf=16384
1 7 open ticlts nonblock => ok x:61 0 T_IDLE
stall 32 more
end 1
";

/// The line of its entry.
const LINE: &[u8] = b"2 7 open ticlts nonblock => ok x:61 0 T_IDLE\n";

/// A journal without entries.
pub(super) fn empty(alloc: Global) -> Journal
    ensures { HaveWorkers result.entries }
{
    Journal {
        providers: Providers::usual(),
        entries: Entries::new(alloc),
        stalls: Stalls::new(alloc),
    }
}

/// Adds an entry with a call and an answer that takes memory, and a stall line.
fn fill(alloc: Global, journal: &mut Journal) -> Result<(), AllocError> {
    let addr = Octets::copy_of(alloc, b"a")?;
    journal.entries.push(Entry {
        worker: 7,
        act: Act::Begin(Call::TOpen {
            prov: Prov::Ticlts,
            nonblock: true,
        }),
        outcome: Outcome::Done(Reply::Bound { addr, qlen: 0 }),
        after: State::T_IDLE,
    })?;
    journal.stalls.push(StallLine {
        worker: 32,
        act: Act::More,
    })
}

/// The text that is made by its entries, of which this is the only one.
fn written_by_entries(alloc: Global, j: &Journal, entry: &Entry) -> Result<Octets, AllocError> {
    let mut writer = JournalWriter::begin(Vec::new(alloc), &j.providers)?;
    match writer.add(entry) {
        Ok(()) => writer.end(&j.stalls),
        Err(fail) => {
            drop(writer);
            Err(fail)
        }
    }
}

/// Whether the journal has one entry, and the text is right, whole, by entries, and of the entry as the second one.
fn is_written(alloc: Global, j: &Journal) -> bool {
    match j.entries.as_slice() {
        [entry] => {
            are_bytes(write_journal(alloc, j), TEXT)
                && are_bytes(written_by_entries(alloc, j, entry), TEXT)
                && are_bytes(write_entry(alloc, 2, entry), LINE)
        }
        _ => false,
    }
}

#[test]
fn journals(rt: HostRuntime) {
    let mut journal = empty(rt.alloc());
    let is_filled = fill(rt.alloc(), &mut journal).is_ok();
    let is_written = is_written(rt.alloc(), &journal);
    drop(journal);
    assert!(rt; is_filled && is_written);
}
