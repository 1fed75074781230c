//! Pairs that are put into a set and taken out.

use std::test::*;
use xti_calls::{Event, Fd};
use xti_poll::{Asked, PollFail, PollSet};

/// A bit that is no event's number.
const NO_EVENT: u32 = 0x020;

/// The set has 64 descriptors, which are asked for data.
#[test]
fn refused(rt: HostRuntime) {
    let data = Event::T_DATA.number();
    let mut set = PollSet::new(rt.alloc());
    let mut is_taken = true;
    for fd in 0..64 {
        is_taken &= set.set(Fd(fd), data) == Ok(());
    }
    let no_event = set.set(Fd(1), NO_EVENT);
    let also_no_event = set.set(Fd(1), data | NO_EVENT);
    let nothing = set.set(Fd(64), 0);
    let full = set.set(Fd(64), data);
    let replaced = set.set(Fd(63), Event::T_LISTEN.number());
    let dropped = [set.drop_fd(Fd(64)), set.drop_fd(Fd(63))];
    let added = set.set(Fd(64), data);
    drop(set);
    assert!(rt; is_taken && dropped == [false, true]);
    assert!(rt; [no_event, also_no_event, nothing] == [Err(PollFail::BadEvents); 3]);
    assert!(rt; [full, replaced, added] == [Err(PollFail::Full), Ok(()), Ok(())]);
}

#[test]
fn replaced_in_place(rt: HostRuntime) {
    let mut set = PollSet::new(rt.alloc());
    let asked = [set.set(Fd(5), 1), set.set(Fd(7), 2), set.set(Fd(5), 4)];
    let pairs = [
        Asked {
            fd: Fd(5),
            events: 4,
        },
        Asked {
            fd: Fd(7),
            events: 2,
        },
    ];
    let is_replaced = set.pairs() == pairs.as_slice();
    drop(set);
    assert!(rt; is_replaced && asked == [Ok(()); 3]);
}
