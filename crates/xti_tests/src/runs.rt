//! Runs of the program: every status, and reads and writes that fail in the middle.

use crate::cases::expect;
use crate::running::{Faults, NEVER, NO_FAULTS, Run, holds};
use std::mem::ManuallyDrop;
use xti_run::{NoGate, replay};
use xti_script_reader::read_script;

/// A command, its input, the calls that fail, and the status and what is written.
type Case = (&'static str, &'static [u8], Faults, u8, &'static [u8]);

const SCRIPT: &[u8] = b"xti-script 1\n";

const EMPTY_JOURNAL: &[u8] = b"xti-journal 1
provider ticots tsdu=65536 sendzero=1 same_addr=0 sndbuf=16384 rcvbuf=16384
provider ticotsord tsdu=0 sendzero=0 same_addr=0 sndbuf=16384 rcvbuf=16384
provider ticlts tsdu=8192 sendzero=1 same_addr=0 sndbuf=16384 rcvbuf=16384
end 0
";

/// T_UNITDATA_REQ to `b` with the datagram `hello`.
const REQUEST: &[u8] = b"\0\0\0\x15\0\0\0\x05\0\0\0\x08\0\0\0\x01\0\0\0\x14\0\0\0\0\0\0\0\0bhello";

/// A journal of one entry, which is not what XTI gives.
const JOURNAL: &[u8] = b"xti-journal 1
provider ticots tsdu=65536 sendzero=1 same_addr=0 sndbuf=16384 rcvbuf=16384
provider ticotsord tsdu=0 sendzero=0 same_addr=0 sndbuf=16384 rcvbuf=16384
provider ticlts tsdu=8192 sendzero=1 same_addr=0 sndbuf=16384 rcvbuf=16384
1 0 look 0 => ok 0 T_UNINIT
end 1
";

const VERDICT: &[u8] = b"wrong line 5
expected err TBADF T_UNINIT
found ok 0 T_UNINIT
";

static CASES: [Case; 12] = [
    ("replay", SCRIPT, NO_FAULTS, 0, EMPTY_JOURNAL),
    ("replay", SCRIPT, (1, NEVER), 5, b""),
    // the read that would find the end
    ("replay", SCRIPT, (2, NEVER), 5, b""),
    ("replay", SCRIPT, (NEVER, 0), 6, b""),
    ("replay", SCRIPT, (NEVER, 1), 6, b"xti-journa"),
    ("replay", SCRIPT, (1, 0), 5, b""),
    // about an input that is refused
    ("replay", b"", (NEVER, 1), 6, b"refused li"),
    ("check", JOURNAL, NO_FAULTS, 7, VERDICT),
    ("check", JOURNAL, (1, NEVER), 5, b""),
    ("check", JOURNAL, (NEVER, 1), 6, b"wrong line"),
    ("frames", REQUEST, (3, NEVER), 5, b""),
    ("frames", REQUEST, (NEVER, 1), 6, b"T_UNITDATA"),
];

#[test]
fn runs(rt: HostRuntime) {
    for (number, (command, input, faults, status, output)) in CASES.iter().enumerate() {
        let run = Run {
            command,
            input,
            read: 7,
            faults: *faults,
            status: *status,
            output,
        };
        expect(&rt, holds(&rt, rt.alloc(), run, &NoGate), &number);
    }
}

/// With memory at hand the library's function doesn't answer out of memory either.
#[test]
fn a_script_is_replayed(rt: HostRuntime) {
    let script = b"xti-script 1\n0 open a ticlts nonblock\n".as_slice();
    let script = read_script(rt.alloc(), script).expect(&rt, "a script");
    let journal = replay(rt.alloc(), &script).expect(&rt, "a journal");
    assert!(rt; journal.entries.as_slice().len() == 1);
    // Not dropped, as that would be proved here for each type of their parts, and each test has a process of its own.
    let _kept = (ManuallyDrop::new(script), ManuallyDrop::new(journal));
}
