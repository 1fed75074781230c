//! Conversations on one thread, in which no call is blocked, and what their calls answer.

use crate::calls::answers::is_text;
use crate::calls::asks::{Row, make};
use crate::library::expect_free;
use std::alloc::Global;
use std::process::Abort;
use std::sync::Wait;
use std::test::*;
use xti_base::let_go;
use xti_calls::{Caller, Providers, Xti};

/// Calls, and what they answer, a line each.
pub(crate) type Part = (&'static [Row], &'static str);

/// What is talked about, and the parts of the conversation.
pub(crate) type Topic = (&'static str, &'static [Part]);

/// Whether the calls of each part answer so. The test fails where one is left unfinished.
pub(crate) fn holds<R: Wait + Sync + Abort>(caller: &mut Caller<R>, parts: &[Part]) -> bool {
    let mut holds = true;
    for (rows, wanted) in parts {
        let mut log = String::new(caller.alloc());
        for (fd, ask) in *rows {
            make(caller, &mut log, *fd, ask);
        }
        holds &= is_text(log, wanted);
    }
    expect_free(caller);
    holds
}

/// Has each conversation with these providers, in a library of its own, which keeps its history or doesn't; the test fails where
/// one doesn't go so.
pub(crate) fn talk_about<R: Wait + Sync + Abort>(
    rt: &R,
    alloc: Global,
    providers: &Providers,
    keeps: bool,
    topics: &[Topic],
) {
    assert!(rt; providers.valid());
    for (topic, parts) in topics {
        let (xti, seat) = Xti::new(alloc, providers, keeps).expect(rt, "a library");
        let mut caller = xti.caller(rt, alloc, seat);
        let holds = holds(&mut caller, parts);
        let_go(caller);
        let_go(xti);
        if !holds {
            rt.panic(topic);
        }
    }
}
