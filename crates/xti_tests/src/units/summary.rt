//! The line of a worked history.

use super::journal::empty;
use crate::cases::are_bytes;
use std::alloc::{AllocError, Global};
use xti_base::Octets;
use xti_journal::read_journal;
use xti_journal_text::{Summary, summary};
use xti_model::Journal;

/// Two sends in two steps each, of which the second fails after its first step; a datagram to nobody, one that is refused, and
/// a part of one that is received.
const HISTORY: &[u8] = b"xti-journal 1
provider ticots tsdu=65536 sendzero=1 same_addr=0 sndbuf=16384 rcvbuf=16384
provider ticotsord tsdu=0 sendzero=0 same_addr=0 sndbuf=16384 rcvbuf=16384
provider ticlts tsdu=8192 sendzero=1 same_addr=0 sndbuf=16384 rcvbuf=16384
1 1 snd 3 data=x:6162636465666768 flags=0 => part 5 T_DATAXFER
2 2 rcv 4 max=64 => ok x:6162636465 0 T_DATAXFER
3 1 more => ok 8 T_DATAXFER
4 2 rcv 4 max=64 => err TNODATA T_DATAXFER
5 1 sndv 3 parts=x:616263,x:646566 flags=0 => part 4 T_DATAXFER
6 1 more => err TLOOK T_DISCONNECT T_DATAXFER
7 32 sndvudata 5 addr=x:6e6f626f6479 opt=x: parts=x:6162,x:63 => ok T_DATAXFER
8 32 sndvudata 5 addr=x:6e6f626f6479 opt=x: parts=x:6162,x:63 => err TFLOW T_DATAXFER
9 32 rcvudata 5 max=2 amax=0 omax=0 => ok x: x: x:7879 1 T_DATAXFER
stall 2 rcv 4 max=64
end 9
";

const LINE: &[u8] = b"entries 9 ok 4 err 3 part 2 sent 15 got 7 stalled 1\n";

const NOTHING: &[u8] = b"entries 0 ok 0 err 0 part 0 sent 0 got 0 stalled 0\n";

/// The line, where each entry is of one of the workers.
fn counted(alloc: Global, journal: &Journal) -> Result<Octets, AllocError> {
    let mut summary = Summary::new();
    for entry in journal.entries.as_slice() {
        if entry.worker <= 32 {
            summary.add(entry);
        }
    }
    let text = summary.text(alloc, &journal.stalls);
    drop(summary);
    text
}

#[test]
fn summaries(rt: HostRuntime) {
    let journal = read_journal(rt.alloc(), HISTORY).expect(&rt, "a journal");
    let text = counted(rt.alloc(), &journal);
    drop(journal);
    let nothing = empty(rt.alloc());
    let no_entries = summary(rt.alloc(), &nothing);
    drop(nothing);
    assert!(rt; are_bytes(text, LINE) & are_bytes(no_entries, NOTHING));
}
