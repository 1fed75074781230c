//! A thread that is held at its gate holds up no step on other cells.

use crate::calls::asks::{Ask, Do, Give, NEW, Request, Take, Tell};
use crate::calls::conversations::{Part, holds};
use crate::calls::datagrams;
use crate::calls::looks::Look;
use crate::library::{another_caller, expect_free, library};
use crate::waiting::comes;
use std::process::Abort;
use std::sync::Wait;
use std::sync::atomic::{AtomicBool, Ordering};
use std::test::*;
use std::thread::{self, Threads};
use xti_base::{Fd, Octets, Seq, let_go};
use xti_calls::{Call, Caller, Cell, Gate};
use xti_hall::Seat as HallSeat;

/// A gate at which a step is held until it is let go.
#[derive(Drop)]
struct Holding {
    held: AtomicBool,
    freed: AtomicBool,
    in_time: AtomicBool,
}

impl Gate for Holding {
    fn pause<R: Wait + Sync>(
        &self,
        _rt: &R,
        _worker: u32,
        _point: u64,
        _seat: &HallSeat<Cell>,
        _call: &Call,
    ) {
        self.held.store(true, Ordering::SeqCst);
        let freed = comes(&self.freed);
        self.in_time.store(freed, Ordering::SeqCst);
    }
}

/// A third endpoint of datagrams.
const THIRD: Part = (
    &[
        (NEW, Ask::Open(b"ticlts", false)),
        (Fd(2), Ask::Give(Give::Address(b"c", 0))),
    ],
    "Fd(2)
 [99] 0
",
);

/// Calls of two endpoints, and a datagram between them.
const ON_ENDPOINTS: Part = (
    &[
        (Fd(0), Ask::Tell(Tell::State)),
        (Fd(0), Ask::Give(Give::Datagram(b"b", b"hello"))),
        (Fd(1), Ask::Take(Take::Datagram(64))),
        (Fd(1), Ask::Tell(Tell::State)),
        (Fd(0), Ask::Tell(Tell::State)),
    ],
    "T_IDLE
()
(TCall { seq: Seq(0), addr: [97], opt: [], udata: [104, 101, 108, 108, 111] }, 0)
T_IDLE
T_IDLE
",
);

/// A connection between two more endpoints, a listener and a caller, which get these descriptors.
macro_rules! connection {
    ($listener:expr, $caller:expr, $address:expr, $wanted:expr) => {
        (
            &[
                (NEW, Ask::Open(b"ticots", true)),
                ($listener, Ask::Give(Give::Address($address, 1))),
                (NEW, Ask::Open(b"ticots", true)),
                ($caller, Ask::Give(Give::Address(b"", 0))),
                ($caller, Ask::Request(Request::Connect($address))),
                ($listener, Ask::Request(Request::Listen(64))),
                ($listener, Ask::Do(Do::Accept($listener, Seq(1)))),
                ($caller, Ask::Request(Request::Confirm)),
            ],
            $wanted,
        )
    };
}

const FIRST_CONNECTION: Part = connection!(
    Fd(0),
    Fd(1),
    b"1",
    "Fd(0)
 [49] 1
Fd(1)
 [35, 48] 0
Err(TNODATA)
TCall { seq: Seq(1), addr: [35, 48], opt: [], udata: [] }
()
TCall { seq: Seq(0), addr: [49], opt: [], udata: [] }
"
);

const SECOND_CONNECTION: Part = connection!(
    Fd(2),
    Fd(3),
    b"2",
    "Fd(2)
 [50] 1
Fd(3)
 [35, 49] 0
Err(TNODATA)
TCall { seq: Seq(1), addr: [35, 49], opt: [], udata: [] }
()
TCall { seq: Seq(0), addr: [50], opt: [], udata: [] }
"
);

const THIRD_CONNECTION: Part = connection!(
    Fd(4),
    Fd(5),
    b"3",
    "Fd(4)
 [51] 1
Fd(5)
 [35, 50] 0
Err(TNODATA)
TCall { seq: Seq(1), addr: [35, 50], opt: [], udata: [] }
()
TCall { seq: Seq(0), addr: [51], opt: [], udata: [] }
"
);

/// A listener and two endpoints that ask it for connections, with descriptors from 6 on.
const TWO_REQUESTS: Part = (
    &[
        (NEW, Ask::Open(b"ticots", true)),
        (Fd(6), Ask::Give(Give::Address(b"l", 2))),
        (NEW, Ask::Open(b"ticots", true)),
        (Fd(7), Ask::Give(Give::Address(b"", 0))),
        (NEW, Ask::Open(b"ticots", true)),
        (Fd(8), Ask::Give(Give::Address(b"", 0))),
        (Fd(7), Ask::Request(Request::Connect(b"l"))),
        (Fd(8), Ask::Request(Request::Connect(b"l"))),
    ],
    "Fd(6)
 [108] 2
Fd(7)
 [35, 51] 0
Fd(8)
 [35, 52] 0
Err(TNODATA)
Err(TNODATA)
",
);

/// Data on two connections, a step that touches both, and one that touches those that are asked for.
const ON_CONNECTIONS: Part = (
    &[
        (Fd(1), Ask::Give(Give::Bytes(b"hi", 0))),
        (Fd(0), Ask::Take(Take::Bytes(9))),
        (Fd(3), Ask::Give(Give::Bytes(b"hi", 0))),
        (Fd(2), Ask::Take(Take::Bytes(9))),
        (Fd(0), Ask::Do(Do::Accept(Fd(2), Seq(1)))),
        (Fd(6), Ask::Do(Do::Close)),
        (Fd(7), Ask::Tell(Tell::Event)),
        (Fd(8), Ask::Tell(Tell::Event)),
    ],
    "2
 [104, 105] 0
2
 [104, 105] 0
Err(TOUTSTATE)
()
Some(T_DISCONNECT)
Some(T_DISCONNECT)
",
);

/// Glances at the endpoint of the step that is held, and at another. One lock round everything would be met at either, or nobody
/// would be held.
const GLANCES: Part = (
    &[
        (Fd(0), Ask::Look(Look::Glance)),
        (Fd(1), Ask::Look(Look::Glance)),
    ],
    "Busy { cell: 0 }
Seen { state: T_IDLE, event: None, at: 4 }
",
);

/// What a thread is held at.
#[derive(Clone, Copy)]
enum Held {
    /// A call of one endpoint, while others make steps on two other endpoints, or glance.
    Endpoint(Fd),
    /// A send on a connection, while others make steps on two other connections, and on two that are asked for.
    Connection,
}

/// What is talked about, whether the library keeps its history, what is held, what the endpoints are before, and the other
/// thread's calls meanwhile.
static CASES: [(&str, bool, Held, &[Part], Part); 3] = [
    (
        "held on an endpoint",
        true,
        Held::Endpoint(Fd(2)),
        &[datagrams::TWO_ENDPOINTS, THIRD],
        ON_ENDPOINTS,
    ),
    (
        "glances beside a step",
        false,
        Held::Endpoint(Fd(0)),
        &[datagrams::TWO_ENDPOINTS],
        GLANCES,
    ),
    (
        "held on a connection",
        true,
        Held::Connection,
        &[
            FIRST_CONNECTION,
            SECOND_CONNECTION,
            THIRD_CONNECTION,
            TWO_REQUESTS,
        ],
        ON_CONNECTIONS,
    ),
];

/// The call of the thread that is held.
fn held_call<R: Abort>(caller: &Caller<R>, held: Held) -> Call {
    match held {
        Held::Endpoint(fd) => Call::TGetState { fd },
        Held::Connection => Call::TSnd {
            fd: Fd(5),
            bytes: Octets::copy_of(caller.alloc(), b"hi").expect(caller.rt(), "memory"),
            flags: 0,
        },
    }
}

/// Makes the call, held at the gate; whether it was answered.
fn held_side<R: Wait + Sync + Abort>(caller: &mut Caller<R>, gate: &Holding, held: Held) -> bool {
    let call = held_call(caller, held);
    expect_free(caller);
    let answer = caller.call(gate, &call);
    let is_answered = answer.is_ok();
    let_go((call, answer));
    is_answered
}

/// Makes these calls once the other thread is held, and then lets it go; whether they answered so. Where nobody is held it makes
/// none.
fn free_side<R: Wait + Sync + Abort>(caller: &mut Caller<R>, gate: &Holding, part: Part) -> bool {
    let holds = comes(&gate.held) && holds(caller, &[part]);
    gate.freed.store(true, Ordering::SeqCst);
    holds
}

/// Whether the held call was answered, and let go in time, and the other calls answered so.
fn goes_on<R: Threads + Wait + Sync + Abort>(
    rt: &R,
    free: &mut Caller<R>,
    held: Held,
    before: &[Part],
    part: Part,
) -> bool {
    let is_prepared = holds(free, before);
    let mut holding = another_caller(free);
    let gate = Holding {
        held: AtomicBool::new(false),
        freed: AtomicBool::new(false),
        in_time: AtomicBool::new(false),
    };
    let (is_answered, holds) = thread::join(
        rt,
        || held_side(&mut holding, &gate, held),
        || free_side(free, &gate, part),
    );
    let_go(holding);
    is_prepared && is_answered && holds && gate.in_time.load(Ordering::SeqCst)
}

#[test]
fn gates(rt: HostRuntime) {
    for (topic, keeps, held, before, part) in &CASES {
        let (xti, seat) = library(&rt, rt.alloc(), *keeps);
        let mut free = xti.caller(&rt, rt.alloc(), seat);
        let goes_on = goes_on(&rt, &mut free, *held, before, *part);
        let_go(free);
        let_go(xti);
        if !goes_on {
            rt.panic(topic);
        }
    }
}
