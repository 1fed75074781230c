//! Datagrams.

use crate::calls::asks::{Ask, Do, Give, NEW, Row, Take, Tell};
use crate::calls::conversations::{Part, Topic, talk_about};
use std::test::*;
use xti_base::Fd;
use xti_calls::Providers;

const A: Fd = Fd(0);

const B: Fd = Fd(1);

/// Two endpoints, bound to `a` and `b`.
pub(crate) const TWO_ENDPOINTS: Part = (
    &[
        (NEW, Ask::Open(b"ticlts", false)),
        (A, Ask::Give(Give::Address(b"a", 0))),
        (NEW, Ask::Open(b"ticlts", false)),
        (B, Ask::Give(Give::Address(b"b", 0))),
    ],
    "Fd(0)
 [97] 0
Fd(1)
 [98] 0
",
);

/// A datagram to nobody, whose error waits, and one to the sender itself.
const TO_NOBODY: Part = (
    &[
        (NEW, Ask::Open(b"ticlts", false)),
        (A, Ask::Give(Give::Address(b"a", 0))),
        (A, Ask::Give(Give::Datagram(b"zz", b"x"))),
        (A, Ask::Give(Give::Datagram(b"zz", b"x"))),
        (A, Ask::Tell(Tell::Event)),
        (A, Ask::Take(Take::DatagramError)),
        (A, Ask::Give(Give::Datagram(b"a", b"x"))),
        (A, Ask::Take(Take::DatagramError)),
    ],
    "Fd(0)
 [97] 0
()
Look(T_UDERR)
Some(T_UDERR)
 [122, 122] [] 1
()
Err(TNOUDERR)
",
);

/// A datagram of two parts, received by buffers.
const IN_PARTS: Part = (
    &[
        (A, Ask::SendParts(Some(b"b"), &[b"ab", b"cde"])),
        (B, Ask::ReceiveParts(true, &[2, 1])),
        (B, Ask::ReceiveParts(true, &[9])),
    ],
    "()
 TCall { seq: Seq(0), addr: [97], opt: [], udata: [] } [97, 98] [99] 1
 TCall { seq: Seq(0), addr: [], opt: [], udata: [] } [100, 101] 0
",
);

/// A receive for which nothing waits, without O_NONBLOCK and with it.
const NOTHING_WAITS: Part = (
    &[
        (B, Ask::Take(Take::Datagram(64))),
        (B, Ask::Do(Do::Mode(true))),
        (B, Ask::Take(Take::Datagram(64))),
    ],
    "Halt(Stalled { taken: 0, at: 4, waiting: 1, resting: 0 })
()
Err(TNODATA)
",
);

/// O_NONBLOCK for the sender.
const NONBLOCK: Part = (&[(A, Ask::Do(Do::Mode(true)))], "()\n");

/// One datagram more.
const ONE_MORE: Row = (A, Ask::Give(Give::Datagram(b"b", b"x")));

/// As many datagrams as there is room for.
const SIXTEEN_MORE: Part = (
    &[ONE_MORE; 16],
    "()\n()\n()\n()\n()\n()\n()\n()\n()\n()\n()\n()\n()\n()\n()\n()\n",
);

/// A datagram for which there is no room, and the event that there is room again.
const FLOW: Part = (
    &[
        ONE_MORE,
        (A, Ask::Tell(Tell::Event)),
        (B, Ask::Take(Take::Datagram(64))),
        (A, Ask::Tell(Tell::Event)),
        (A, Ask::Tell(Tell::Event)),
    ],
    "Err(TFLOW)
None
(TCall { seq: Seq(0), addr: [97], opt: [], udata: [120] }, 0)
Some(T_GODATA)
None
",
);

static TOPICS: [Topic; 4] = [
    ("a datagram to nobody", &[TO_NOBODY]),
    ("a datagram in parts", &[TWO_ENDPOINTS, IN_PARTS]),
    ("nothing waits", &[TWO_ENDPOINTS, NOTHING_WAITS]),
    (
        "the flow of datagrams",
        &[TWO_ENDPOINTS, NONBLOCK, SIXTEEN_MORE, FLOW],
    ),
];

#[test]
fn datagrams(rt: HostRuntime) {
    talk_about(&rt, rt.alloc(), &Providers::usual(), true, &TOPICS);
}
