//! Looks at endpoints, as tables tell them: they are no calls, and make no entries.

use crate::calls::answers::note;
use std::sync::Wait;
use xti_base::{Fd, let_go};
use xti_calls::Caller;
use xti_poll::{PollSet, table};

/// A descriptor, and the events that are asked of it.
pub(crate) type Pair = (Fd, u32);

/// A look at one endpoint, or at several.
pub(crate) enum Look {
    /// A glance at the endpoint.
    Glance,
    /// The table of glances at these; whether it is this one.
    Table(&'static [Fd], &'static [u8]),
    /// What a poll finds first, where these pairs are put into a set.
    Poll(&'static [Pair]),
    /// All that it finds.
    PollAll(&'static [Pair]),
}

/// Whether the table of these is this one.
fn is_told<R>(caller: &mut Caller<R>, fds: &[Fd], wanted: &[u8]) -> bool {
    let told = table(caller, fds);
    let is_told = matches!(&told, Ok(text) if text.as_slice() == wanted);
    let_go(told);
    is_told
}

/// Writes down what is answered where these are put into a set, and what is found then: first, or all.
fn poll<R: Wait>(caller: &mut Caller<R>, log: &mut String, pairs: &[Pair], all: bool) {
    let mut set = PollSet::new(caller.alloc());
    for (fd, events) in pairs {
        let _ = writeln!(log, "{:?}", set.set(*fd, *events));
    }
    if all {
        let finds = set.poll_all(caller);
        let _ = writeln!(log, "{finds:?}");
        let_go(finds);
    } else {
        let _ = writeln!(log, "{:?}", set.poll(caller));
    }
    let_go(set);
}

/// Looks, and writes down what is found.
pub(crate) fn make_look<R: Wait>(caller: &mut Caller<R>, log: &mut String, fd: Fd, look: &Look) {
    match *look {
        Look::Glance => note(log, Ok(caller.glance(fd))),
        Look::Table(fds, wanted) => note(log, Ok(is_told(caller, fds, wanted))),
        Look::Poll(pairs) => poll(caller, log, pairs, false),
        Look::PollAll(pairs) => poll(caller, log, pairs, true),
    }
}
