//! What is seen of a connection by glances, in their table, and by polls.

use crate::calls::asks::{Ask, Do, Give, NEW, Row};
use crate::calls::connections::{ANSWERER, CALLER, CONNECT, LISTENER, OF_TICOTS};
use crate::calls::conversations::{Part, Topic, talk_about};
use crate::calls::looks::{Look, Pair};
use std::test::*;
use xti_base::Fd;
use xti_calls::Providers;

/// A descriptor that is never opened.
const NOBODY: Fd = Fd(70);

/// The numbers of T_DATA, of it and T_EXDATA, and of T_DISCONNECT.
const DATA: u32 = 0x004;

const BOTH_DATA: u32 = 0x00c;

const DISCONNECT: u32 = 0x010;

/// A glance at the caller.
const GLANCE: Row = (CALLER, Ask::Look(Look::Glance));

/// The listener, the caller, nobody, and the answerer before and after a byte was sent to it.
const GLANCES: Part = (
    &[
        (LISTENER, Ask::Look(Look::Glance)),
        GLANCE,
        (NOBODY, Ask::Look(Look::Glance)),
        (ANSWERER, Ask::Look(Look::Glance)),
        (CALLER, Ask::Give(Give::Bytes(b"x", 0))),
        (ANSWERER, Ask::Look(Look::Glance)),
    ],
    "Seen { state: T_IDLE, event: None, at: 9 }
Seen { state: T_DATAXFER, event: None, at: 9 }
Gone { at: 9 }
Seen { state: T_DATAXFER, event: None, at: 9 }
1
Seen { state: T_DATAXFER, event: Some(T_DATA), at: 10 }
",
);

/// The table of the listener and of nobody.
const TABLE: Part = (
    &[(
        NEW,
        Ask::Look(Look::Table(&[LISTENER, NOBODY], b"0 T_IDLE 0 9\n70 gone 9\n")),
    )],
    "true\n",
);

/// The caller is asked for data, and the answerer for data of both kinds.
const PAIRS: &[Pair] = &[(CALLER, DATA), (ANSWERER, BOTH_DATA)];

/// The same, and then the caller for a disconnect in place of data.
const OTHER_PAIRS: &[Pair] = &[(CALLER, DATA), (ANSWERER, BOTH_DATA), (CALLER, DISCONNECT)];

const POLL: Row = (NEW, Ask::Look(Look::Poll(PAIRS)));

/// Data are found twice, and a closed endpoint is gone; polls make no entries.
const POLLS: Part = (
    &[
        POLL,
        (CALLER, Ask::Give(Give::Bytes(b"x", 0))),
        GLANCE,
        POLL,
        POLL,
        GLANCE,
        (ANSWERER, Ask::Do(Do::Close)),
        POLL,
        (NEW, Ask::Look(Look::PollAll(PAIRS))),
        (NEW, Ask::Look(Look::Poll(OTHER_PAIRS))),
    ],
    "Ok(())
Ok(())
Ok(None)
1
Seen { state: T_DATAXFER, event: None, at: 10 }
Ok(())
Ok(())
Ok(Event { fd: Fd(2), event: T_DATA })
Ok(())
Ok(())
Ok(Event { fd: Fd(2), event: T_DATA })
Seen { state: T_DATAXFER, event: None, at: 10 }
()
Ok(())
Ok(())
Ok(Gone { fd: Fd(2) })
Ok(())
Ok(())
Ok([None, Gone { fd: Fd(2) }])
Ok(())
Ok(())
Ok(())
Ok(Event { fd: Fd(1), event: T_DISCONNECT })
",
);

static TOPICS: [Topic; 3] = [
    ("glances", &[OF_TICOTS, CONNECT, GLANCES]),
    ("a table of glances", &[OF_TICOTS, CONNECT, TABLE]),
    ("polls", &[OF_TICOTS, CONNECT, POLLS]),
];

/// In libraries that keep their history, and in others that keep none.
#[test]
fn sights(rt: HostRuntime) {
    for keeps in [true, false] {
        talk_about(&rt, rt.alloc(), &Providers::usual(), keeps, &TOPICS);
    }
}
