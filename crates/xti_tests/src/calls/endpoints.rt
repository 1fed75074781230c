//! Endpoints by themselves: what they tell, their options, and how many there may be.

use crate::calls::asks::{Ask, Do, Give, NEW, Row, Tell};
use crate::calls::conversations::{Part, Topic, talk_about};
use std::test::*;
use xti_base::Fd;
use xti_calls::Providers;

/// T_NEGOTIATE.
const NEGOTIATE: u32 = 4;

/// XTI_SNDBUF of 1 byte, and an option of another level.
const TWO_LEVELS: &[u8] =
    b"\0\0\0\x14\0\0\xff\xff\0\0\x10\x01\0\0\0\0\0\0\0\x01\0\0\0\x14\0\0\0\x01\0\0\x10\x01\0\0\0\0\0\0\0\x01";

/// XTI_RCVBUF of 70,000 bytes, and XTI_SNDLOWAT of 5.
const SIZES: &[u8] =
    b"\0\0\0\x14\0\0\xff\xff\0\0\x10\x02\0\0\0\0\0\x01\x11\x70\0\0\0\x14\0\0\xff\xff\0\0\x10\x03\0\0\0\0\0\0\0\x05";

/// What the three providers tell.
const TOLD: Part = (
    &[
        (NEW, Ask::Open(b"ticots", false)),
        (NEW, Ask::Open(b"ticotsord", false)),
        (NEW, Ask::Open(b"ticlts", false)),
        (Fd(0), Ask::Tell(Tell::Info)),
        (Fd(1), Ask::Tell(Tell::Info)),
        (Fd(2), Ask::Tell(Tell::Info)),
        (Fd(0), Ask::Tell(Tell::Sync)),
    ],
    "Fd(0)
Fd(1)
Fd(2)
Info { addr: At(64), options: At(256), tsdu: At(65536), etsdu: At(128), connect: At(64), discon: At(64), servtype: T_COTS, flags: 1 }
Info { addr: At(64), options: At(256), tsdu: At(0), etsdu: At(128), connect: At(64), discon: At(64), servtype: T_COTS_ORD, flags: 0 }
Info { addr: At(64), options: At(256), tsdu: At(8192), etsdu: Invalid, connect: Invalid, discon: Invalid, servtype: T_CLTS, flags: 1 }
T_UNBND
",
);

/// Options of two levels, sizes of buffers out of their limits, and an action that there isn't.
const OPTIONS: Part = (
    &[
        (Fd(0), Ask::Tell(Tell::Options(NEGOTIATE, TWO_LEVELS))),
        (Fd(0), Ask::Tell(Tell::Options(NEGOTIATE, SIZES))),
        (Fd(0), Ask::Tell(Tell::Options(7, b""))),
    ],
    "Err(TBADOPT)
 512 [0, 0, 0, 20, 0, 0, 255, 255, 0, 0, 16, 2, 0, 0, 1, 0, 0, 1, 0, 0, 0, 0, 0, 20, 0, 0, 255, 255, 0, 0, 16, 3, 0, 0, 2, 0, 0, 0, 0, 1]
Err(TBADFLAG)
",
);

/// One more endpoint.
const ONE_MORE: Row = (NEW, Ask::Open(b"ticlts", false));

/// As many endpoints as there may be.
const ALL: Part = (
    &[ONE_MORE; 64],
    "Fd(0)\nFd(1)\nFd(2)\nFd(3)\nFd(4)\nFd(5)\nFd(6)\nFd(7)\nFd(8)\nFd(9)\nFd(10)\nFd(11)\n\
     Fd(12)\nFd(13)\nFd(14)\nFd(15)\nFd(16)\nFd(17)\nFd(18)\nFd(19)\nFd(20)\nFd(21)\nFd(22)\n\
     Fd(23)\nFd(24)\nFd(25)\nFd(26)\nFd(27)\nFd(28)\nFd(29)\nFd(30)\nFd(31)\nFd(32)\nFd(33)\n\
     Fd(34)\nFd(35)\nFd(36)\nFd(37)\nFd(38)\nFd(39)\nFd(40)\nFd(41)\nFd(42)\nFd(43)\nFd(44)\n\
     Fd(45)\nFd(46)\nFd(47)\nFd(48)\nFd(49)\nFd(50)\nFd(51)\nFd(52)\nFd(53)\nFd(54)\nFd(55)\n\
     Fd(56)\nFd(57)\nFd(58)\nFd(59)\nFd(60)\nFd(61)\nFd(62)\nFd(63)\n",
);

/// One endpoint too many, an endpoint at a place that was given back, and a name of no provider.
const TOO_MANY: Part = (
    &[
        ONE_MORE,
        (Fd(5), Ask::Do(Do::Close)),
        ONE_MORE,
        (Fd(5), Ask::Tell(Tell::State)),
        (NEW, Ask::Open(b"other", false)),
    ],
    "Err(TSYSERR)
()
Fd(69)
Err(TBADF)
Err(TBADNAME)
",
);

/// Addresses that another endpoint has.
const BOUND_ADDRESSES: Part = (
    &[
        (NEW, Ask::Open(b"ticots", false)),
        (NEW, Ask::Open(b"ticots", false)),
        (Fd(0), Ask::Give(Give::Address(b"l", 1))),
        (Fd(1), Ask::Give(Give::Address(b"l", 1))),
        (Fd(1), Ask::Give(Give::Address(b"l", 0))),
        (NEW, Ask::Open(b"ticlts", false)),
        (NEW, Ask::Open(b"ticlts", false)),
        (Fd(2), Ask::Give(Give::Address(b"a", 0))),
        (Fd(3), Ask::Give(Give::Address(b"a", 0))),
    ],
    "Fd(0)
Fd(1)
 [108] 1
Err(TADDRBUSY)
 [108] 0
Fd(2)
Fd(3)
 [97] 0
Err(TADDRBUSY)
",
);

static TOPICS: [Topic; 3] = [
    ("what endpoints tell", &[TOLD, OPTIONS]),
    ("addresses that are bound", &[BOUND_ADDRESSES]),
    ("too many endpoints", &[ALL, TOO_MANY]),
];

#[test]
fn endpoints(rt: HostRuntime) {
    talk_about(&rt, rt.alloc(), &Providers::usual(), true, &TOPICS);
}
