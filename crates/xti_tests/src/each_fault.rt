//! The run of an empty script, in which each read fails in turn, and each write.

use crate::cases::expect;
use crate::running::{Faults, NEVER, Run, WRITE, holds};
use xti_run::NoGate;

/// A script of 13 bytes.
const SCRIPT: &[u8] = b"xti-script 1\n";

/// The journal of the script, of 246 bytes.
const JOURNAL: &[u8] = b"xti-journal 1
provider ticots tsdu=65536 sendzero=1 same_addr=0 sndbuf=16384 rcvbuf=16384
provider ticotsord tsdu=0 sendzero=0 same_addr=0 sndbuf=16384 rcvbuf=16384
provider ticlts tsdu=8192 sendzero=1 same_addr=0 sndbuf=16384 rcvbuf=16384
end 0
";

/// The reads that a whole run makes, one for each byte and one that finds the end, and its writes.
const READS: u32 = 14;

const WRITES: u32 = 25;

/// The run in which these fail, and which ends with the status when it has written so many bytes of the journal.
fn failing(faults: Faults, status: u8, written: u32) -> Run<'static> {
    let (output, _) = JOURNAL.split_at(JOURNAL.len().min(written as usize));
    Run {
        command: "replay",
        input: SCRIPT,
        read: 1,
        faults,
        status,
        output,
    }
}

#[test]
fn each_fault(rt: HostRuntime) {
    for number in 0..=WRITES {
        let read = if number < READS {
            failing((number, NEVER), 5, 0)
        } else {
            failing((number, NEVER), 0, 246)
        };
        expect(&rt, holds(&rt, rt.alloc(), read, &NoGate), &number);
        let status = if number < WRITES { 6 } else { 0 };
        let write = failing((NEVER, number), status, WRITE.saturating_mul(number));
        expect(&rt, holds(&rt, rt.alloc(), write, &NoGate), &number);
    }
}
