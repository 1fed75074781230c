//! Connections, from their requests to their ends.

use crate::calls::asks::{Ask, Do, Give, NEW, Request, Row, Take, Tell};
use crate::calls::conversations::{Part, Topic, talk_about};
use std::test::*;
use xti_base::{Fd, Seq};
use xti_calls::Providers;

/// The listener, bound to `l`.
pub(crate) const LISTENER: Fd = Fd(0);

/// The endpoint that asks for a connection.
pub(crate) const CALLER: Fd = Fd(1);

/// The endpoint onto which the request is accepted.
pub(crate) const ANSWERER: Fd = Fd(2);

/// What is answered where a listener and two endpoints are opened.
const OPENED: &str = "Fd(0)
 [108] 1
Fd(1)
 [35, 48] 0
Fd(2)
";

/// A listener of the provider without orderly release, and two endpoints with O_NONBLOCK.
pub(crate) const OF_TICOTS: Part = (
    &[
        (NEW, Ask::Open(b"ticots", false)),
        (LISTENER, Ask::Give(Give::Address(b"l", 1))),
        (NEW, Ask::Open(b"ticots", true)),
        (CALLER, Ask::Give(Give::Address(b"", 0))),
        (NEW, Ask::Open(b"ticots", true)),
    ],
    OPENED,
);

/// A listener of the provider with orderly release, and two endpoints with O_NONBLOCK.
pub(crate) const OF_TICOTSORD: Part = (
    &[
        (NEW, Ask::Open(b"ticotsord", false)),
        (LISTENER, Ask::Give(Give::Address(b"l", 1))),
        (NEW, Ask::Open(b"ticotsord", true)),
        (CALLER, Ask::Give(Give::Address(b"", 0))),
        (NEW, Ask::Open(b"ticotsord", true)),
    ],
    OPENED,
);

/// A connection from the caller to the answerer.
pub(crate) const CONNECT: Part = (
    &[
        (CALLER, Ask::Request(Request::Connect(b"l"))),
        (LISTENER, Ask::Request(Request::Listen(64))),
        (LISTENER, Ask::Do(Do::Accept(ANSWERER, Seq(1)))),
        (CALLER, Ask::Request(Request::Confirm)),
    ],
    "Err(TNODATA)
TCall { seq: Seq(1), addr: [35, 48], opt: [], udata: [] }
()
TCall { seq: Seq(0), addr: [108], opt: [], udata: [] }
",
);

/// The endpoints without O_NONBLOCK.
pub(crate) const BLOCKING: Part = (
    &[
        (CALLER, Ask::Do(Do::Mode(false))),
        (ANSWERER, Ask::Do(Do::Mode(false))),
    ],
    "()
()
",
);

/// Messages and expedited data.
const MESSAGES: Part = (
    &[
        (CALLER, Ask::Give(Give::Bytes(b"abcd", 3))),
        (CALLER, Ask::Give(Give::Bytes(b"n", 0))),
        (ANSWERER, Ask::Take(Take::Bytes(2))),
        (ANSWERER, Ask::Take(Take::Bytes(2))),
        (ANSWERER, Ask::Take(Take::Bytes(2))),
        (ANSWERER, Ask::Tell(Tell::Event)),
        (CALLER, Ask::Give(Give::Bytes(b"ef", 2))),
        (ANSWERER, Ask::Take(Take::Bytes(9))),
        (ANSWERER, Ask::Take(Take::Bytes(9))),
    ],
    "4
1
 [97, 98] 3
 [99, 100] 3
Err(TNODATA)
None
2
 [101, 102] 2
 [110] 0
",
);

/// A message that is received into a buffer of four bytes: a part of it, its rest, and nothing more. Then one of 40 bytes, of which
/// the second half comes in the memory that the first has left, and 20 more in memory that was taken before.
const INTO: Part = (
    &[
        (CALLER, Ask::Give(Give::Bytes(b"abcdef", 0))),
        (ANSWERER, Ask::Take(Take::Into(4))),
        (ANSWERER, Ask::Take(Take::Into(4))),
        (ANSWERER, Ask::Take(Take::Into(4))),
        (
            CALLER,
            Ask::Give(Give::Bytes(b"aaaaaaaaaaaaaaaaaaaabbbbbbbbbbbbbbbbbbbb", 0)),
        ),
        (ANSWERER, Ask::Take(Take::Into(20))),
        (ANSWERER, Ask::Take(Take::Into(20))),
        (ANSWERER, Ask::Take(Take::Reserve(30))),
        (CALLER, Ask::Give(Give::Bytes(b"ccccccccccdddddddddd", 0))),
        (ANSWERER, Ask::Take(Take::Into(20))),
    ],
    "6
 4 1
 [97, 98, 99, 100]
 2 0
 [101, 102, 46, 46]
Err(TNODATA)
 [46, 46, 46, 46]
40
 20 1
 [97, 97, 97, 97, 97, 97, 97, 97, 97, 97, 97, 97, 97, 97, 97, 97, 97, 97, 97, 97]
 20 0
 [98, 98, 98, 98, 98, 98, 98, 98, 98, 98, 98, 98, 98, 98, 98, 98, 98, 98, 98, 98]
()
20
 20 0
 [99, 99, 99, 99, 99, 99, 99, 99, 99, 99, 100, 100, 100, 100, 100, 100, 100, 100, 100, 100]
",
);

/// One byte more than a release may carry.
const TOO_LONG: &[u8] = b"01234567890123456789012345678901234567890123456789012345678901234";

/// One part more than a vector may have.
const SEVENTEEN: &[&[u8]] = &[
    b"x", b"x", b"x", b"x", b"x", b"x", b"x", b"x", b"x", b"x", b"x", b"x", b"x", b"x", b"x", b"x",
    b"x",
];

/// An empty message, a message that is sent in parts and received by buffers, and too many parts.
const VECTORS: Part = (
    &[
        (CALLER, Ask::Give(Give::Bytes(b"", 0))),
        (ANSWERER, Ask::Take(Take::Bytes(9))),
        (CALLER, Ask::SendParts(None, &[b"ab", b"c"])),
        (ANSWERER, Ask::ReceiveParts(false, &[1, 9])),
        (CALLER, Ask::SendParts(None, SEVENTEEN)),
    ],
    "0
 [] 0
3
 [97] [98, 99] 0
Err(TBADDATA)
",
);

/// What is told of both ends, and a disconnect before the data are received.
const DISCONNECT: Part = (
    &[
        (ANSWERER, Ask::Tell(Tell::Addresses)),
        (LISTENER, Ask::Tell(Tell::State)),
        (CALLER, Ask::Do(Do::Release)),
        (CALLER, Ask::Give(Give::Bytes(b"hi", 0))),
        (CALLER, Ask::Do(Do::Disconnect(Seq(0)))),
        (ANSWERER, Ask::Take(Take::Bytes(9))),
        (ANSWERER, Ask::Take(Take::Disconnect)),
        (ANSWERER, Ask::Do(Do::Close)),
        (ANSWERER, Ask::Tell(Tell::State)),
    ],
    " [108] [35, 48]
T_IDLE
Err(TNOTSUPPORT)
2
()
Look(T_DISCONNECT)
 4 Seq(0) []
()
Err(TBADF)
",
);

/// Data, an orderly release from both sides, and the states afterwards.
const RELEASE: Part = (
    &[
        (CALLER, Ask::Tell(Tell::State)),
        (CALLER, Ask::Give(Give::Bytes(b"", 0))),
        (CALLER, Ask::Give(Give::Bytes(b"hi", 0))),
        (CALLER, Ask::Do(Do::Release)),
        (ANSWERER, Ask::Do(Do::TakeRelease)),
        (ANSWERER, Ask::Take(Take::Bytes(9))),
        (ANSWERER, Ask::Take(Take::Bytes(9))),
        (ANSWERER, Ask::Do(Do::TakeRelease)),
        (ANSWERER, Ask::Do(Do::Release)),
        (CALLER, Ask::Do(Do::TakeRelease)),
        (CALLER, Ask::Tell(Tell::State)),
        (ANSWERER, Ask::Tell(Tell::State)),
    ],
    "T_DATAXFER
Err(TBADDATA)
2
()
Err(TNOREL)
 [104, 105] 0
Look(T_ORDREL)
()
()
()
T_IDLE
T_IDLE
",
);

/// A release with data in one direction, and without any in the other; data that are too long for a release, or for what is
/// asked.
const WITH_DATA: &[Row] = &[
    (CALLER, Ask::Tell(Tell::Info)),
    (CALLER, Ask::Give(Give::Release(TOO_LONG))),
    (CALLER, Ask::Give(Give::Release(b"bye"))),
    (ANSWERER, Ask::Take(Take::Release(2))),
    (ANSWERER, Ask::Give(Give::Release(b""))),
    (CALLER, Ask::Take(Take::Release(64))),
    (CALLER, Ask::Tell(Tell::State)),
    (ANSWERER, Ask::Tell(Tell::State)),
];

/// What they answer where releases may carry data: those are lost that are too long for what is asked.
const RELEASED: Part = (
    WITH_DATA,
    "Info { addr: At(64), options: At(256), tsdu: At(0), etsdu: At(128), connect: At(64), discon: At(64), servtype: T_COTS_ORD, flags: 2 }
Err(TBADDATA)
()
Overflow(Seq(0))
()
 []
T_IDLE
T_IDLE
",
);

/// What they answer where releases carry none.
const RELEASED_WITHOUT: Part = (
    WITH_DATA,
    "Info { addr: At(64), options: At(256), tsdu: At(0), etsdu: At(128), connect: At(64), discon: At(64), servtype: T_COTS_ORD, flags: 0 }
Err(TBADDATA)
Err(TBADDATA)
Err(TNOREL)
()
 []
T_INREL
T_OUTREL
",
);

/// The same data that are asked for whole.
const WHOLE: &[Row] = &[
    (ANSWERER, Ask::Take(Take::Release(64))),
    (CALLER, Ask::Give(Give::Release(b"bye"))),
    (ANSWERER, Ask::Take(Take::Release(64))),
    (ANSWERER, Ask::Give(Give::Release(b"and you"))),
    (CALLER, Ask::Do(Do::TakeRelease)),
];

/// What they answer where releases may carry data: one is taken with its data and one without.
const RELEASED_WHOLE: Part = (
    WHOLE,
    "Err(TNOREL)
()
 [98, 121, 101]
()
()
",
);

/// What they answer where there are no releases.
const NOT_RELEASED: Part = (
    WHOLE,
    "Err(TNOTSUPPORT)
Err(TNOTSUPPORT)
Err(TNOTSUPPORT)
Err(TNOTSUPPORT)
Err(TNOTSUPPORT)
",
);

/// A send until there is no room, and the event that there is room again, in buffers of two and of three bytes.
const SMALL_BUFFERS: Part = (
    &[
        (CALLER, Ask::Give(Give::Bytes(b"\x00\x01\x02\x03\x04", 0))),
        (CALLER, Ask::Give(Give::Bytes(b"z", 0))),
        (CALLER, Ask::Tell(Tell::Event)),
        (ANSWERER, Ask::Take(Take::Bytes(1))),
        (CALLER, Ask::Tell(Tell::Event)),
        (CALLER, Ask::Tell(Tell::Event)),
    ],
    "5
Err(TFLOW)
None
 [0] 0
Some(T_GODATA)
None
",
);

static TOPICS: [Topic; 4] = [
    (
        "messages",
        &[OF_TICOTS, CONNECT, MESSAGES, INTO, VECTORS, DISCONNECT],
    ),
    ("a release", &[OF_TICOTSORD, CONNECT, RELEASE]),
    (
        "a release without data, as the provider has none",
        &[OF_TICOTSORD, CONNECT, RELEASED_WITHOUT],
    ),
    (
        "a release of a provider without it",
        &[OF_TICOTS, CONNECT, NOT_RELEASED],
    ),
];

static OF_SMALL_BUFFERS: [Topic; 1] = [("small buffers", &[OF_TICOTSORD, CONNECT, SMALL_BUFFERS])];

static RELEASES: [Topic; 2] = [
    ("releases with data", &[OF_TICOTSORD, CONNECT, RELEASED]),
    (
        "releases with data that are taken whole",
        &[OF_TICOTSORD, CONNECT, RELEASED_WHOLE],
    ),
];

#[test]
fn connections(rt: HostRuntime) {
    talk_about(&rt, rt.alloc(), &Providers::usual(), true, &TOPICS);
}

#[test]
fn buffers(rt: HostRuntime) {
    let mut providers = Providers::usual();
    providers.ticotsord.sndbuf = 2;
    providers.ticotsord.rcvbuf = 3;
    talk_about(&rt, rt.alloc(), &providers, true, &OF_SMALL_BUFFERS);
}

#[test]
fn releases(rt: HostRuntime) {
    let mut providers = Providers::usual();
    providers.ticotsord.reldata = true;
    talk_about(&rt, rt.alloc(), &providers, true, &RELEASES);
}
