//! Requests for connections that aren't accepted at once.

use crate::calls::asks::{Ask, Do, Give, NEW, Request, Take};
use crate::calls::conversations::{Part, Topic, talk_about};
use std::test::*;
use xti_base::{Fd, Seq};
use xti_calls::Providers;

/// The listener, bound to `l`.
const LISTENER: Fd = Fd(0);

/// An endpoint that asks for a connection.
const ONE: Fd = Fd(1);

/// Another.
const OTHER: Fd = Fd(2);

/// An endpoint that is open, and not bound.
const FRESH: Fd = Fd(3);

/// A listener with a queue of one request.
const SHORT_LISTENER: Part = (
    &[
        (NEW, Ask::Open(b"ticots", false)),
        (LISTENER, Ask::Give(Give::Address(b"l", 1))),
    ],
    "Fd(0)
 [108] 1
",
);

/// A listener with a queue of two requests.
const LONG_LISTENER: Part = (
    &[
        (NEW, Ask::Open(b"ticots", false)),
        (LISTENER, Ask::Give(Give::Address(b"l", 2))),
    ],
    "Fd(0)
 [108] 2
",
);

/// Two requests to the listener.
const TWO_REQUESTS: Part = (
    &[
        (NEW, Ask::Open(b"ticots", true)),
        (ONE, Ask::Give(Give::Address(b"", 0))),
        (NEW, Ask::Open(b"ticots", true)),
        (OTHER, Ask::Give(Give::Address(b"", 0))),
        (ONE, Ask::Request(Request::Connect(b"l"))),
        (OTHER, Ask::Request(Request::Connect(b"l"))),
    ],
    "Fd(1)
 [35, 48] 0
Fd(2)
 [35, 49] 0
Err(TNODATA)
Err(TNODATA)
",
);

/// Of two requests the other one is refused.
const SHORT_QUEUE: Part = (
    &[
        (OTHER, Ask::Take(Take::Disconnect)),
        (LISTENER, Ask::Request(Request::Listen(64))),
        (LISTENER, Ask::Request(Request::Listen(64))),
    ],
    " 2 Seq(0) []
TCall { seq: Seq(1), addr: [35, 48], opt: [], udata: [] }
Err(TQFULL)
",
);

/// Two requests, which are accepted on another endpoint and on the listener.
const LONG_QUEUE: Part = (
    &[
        (LISTENER, Ask::Request(Request::Listen(64))),
        (LISTENER, Ask::Do(Do::Accept(LISTENER, Seq(1)))),
        (LISTENER, Ask::Request(Request::Listen(64))),
        (LISTENER, Ask::Do(Do::Accept(LISTENER, Seq(1)))),
        (NEW, Ask::Open(b"ticots", false)),
        (LISTENER, Ask::Do(Do::Accept(FRESH, Seq(1)))),
        (LISTENER, Ask::Do(Do::Accept(LISTENER, Seq(2)))),
    ],
    "TCall { seq: Seq(1), addr: [35, 48], opt: [], udata: [] }
Look(T_LISTEN)
TCall { seq: Seq(2), addr: [35, 49], opt: [], udata: [] }
Err(TINDOUT)
Fd(3)
()
()
",
);

/// An indication whose address is too long for the caller, and which is rejected.
const REJECTED: Part = (
    &[
        (NEW, Ask::Open(b"ticots", true)),
        (ONE, Ask::Give(Give::Address(b"", 0))),
        (ONE, Ask::Request(Request::Connect(b"l"))),
        (LISTENER, Ask::Request(Request::Listen(1))),
        (LISTENER, Ask::Do(Do::Disconnect(Seq(1)))),
        (ONE, Ask::Take(Take::Disconnect)),
    ],
    "Fd(1)
 [35, 48] 0
Err(TNODATA)
Overflow(Seq(1))
()
 3 Seq(0) []
",
);

/// A request to an address that nobody has.
const TO_NOBODY: Part = (
    &[
        (NEW, Ask::Open(b"ticots", false)),
        (LISTENER, Ask::Give(Give::Address(b"", 0))),
        (LISTENER, Ask::Request(Request::Connect(b"no"))),
        (LISTENER, Ask::Take(Take::Disconnect)),
        (LISTENER, Ask::Take(Take::Disconnect)),
    ],
    "Fd(0)
 [35, 48] 0
Look(T_DISCONNECT)
 1 Seq(0) []
Err(TOUTSTATE)
",
);

/// One indication, and endpoints onto which it can't be accepted: another provider, an endpoint that listens; a sequence number
/// of none.
const NOT_ACCEPTED: Part = (
    &[
        (NEW, Ask::Open(b"ticots", true)),
        (ONE, Ask::Give(Give::Address(b"", 0))),
        (ONE, Ask::Request(Request::Connect(b"l"))),
        (LISTENER, Ask::Request(Request::Listen(64))),
        (NEW, Ask::Open(b"ticotsord", false)),
        (NEW, Ask::Open(b"ticots", false)),
        (FRESH, Ask::Give(Give::Address(b"m", 1))),
        (LISTENER, Ask::Do(Do::Accept(OTHER, Seq(1)))),
        (LISTENER, Ask::Do(Do::Accept(FRESH, Seq(1)))),
        (LISTENER, Ask::Do(Do::Accept(LISTENER, Seq(2)))),
        (LISTENER, Ask::Do(Do::Accept(LISTENER, Seq(1)))),
    ],
    "Fd(1)
 [35, 48] 0
Err(TNODATA)
TCall { seq: Seq(1), addr: [35, 48], opt: [], udata: [] }
Fd(2)
Fd(3)
 [109] 1
Err(TPROVMISMATCH)
Err(TRESQLEN)
Err(TBADSEQ)
()
",
);

/// An address that the listener has, and the listener, which can't be unbound while a request waits.
const UNBINDING: Part = (
    &[
        (NEW, Ask::Open(b"ticots", true)),
        (ONE, Ask::Give(Give::Address(b"l", 1))),
        (ONE, Ask::Give(Give::Address(b"l", 0))),
        (ONE, Ask::Request(Request::Connect(b"l"))),
        (LISTENER, Ask::Do(Do::Unbind)),
        (LISTENER, Ask::Request(Request::Listen(64))),
        (LISTENER, Ask::Do(Do::Disconnect(Seq(1)))),
        (LISTENER, Ask::Do(Do::Unbind)),
    ],
    "Fd(1)
Err(TADDRBUSY)
 [108] 0
Err(TNODATA)
Look(T_LISTEN)
TCall { seq: Seq(1), addr: [108], opt: [], udata: [] }
()
()
",
);

static TOPICS: [Topic; 6] = [
    (
        "a short queue",
        &[SHORT_LISTENER, TWO_REQUESTS, SHORT_QUEUE],
    ),
    ("a long queue", &[LONG_LISTENER, TWO_REQUESTS, LONG_QUEUE]),
    ("a request that is rejected", &[SHORT_LISTENER, REJECTED]),
    ("a request to nobody", &[TO_NOBODY]),
    (
        "a request that isn't accepted",
        &[SHORT_LISTENER, NOT_ACCEPTED],
    ),
    ("unbinding", &[SHORT_LISTENER, UNBINDING]),
];

#[test]
fn requests(rt: HostRuntime) {
    talk_about(&rt, rt.alloc(), &Providers::usual(), true, &TOPICS);
}
