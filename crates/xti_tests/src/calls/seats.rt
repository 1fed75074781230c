//! Seats: their numbers, what they have seen, and the one history.

ghost use Rattle.xti_hall.specs.Seats.{AreOfOneHall};
ghost use Rattle.xti_calls.specs.Library.{IsOf};

use crate::calls::answers::{is_text, note, note_bytes};
use crate::library::{another_caller, another_seat, library};
use std::alloc::Global;
use std::sync::Wait;
use std::test::*;
use xti_base::{Fd, let_go};
use xti_calls::{Caller, Entry, Max, Seat, Xti};
use xti_journal_text::write_entry;

/// What the calls of a datagram answer that the second seat sends and receives: first those that make two endpoints.
const ENDPOINTS: &str = "Fd(0)
 [97] 0
Fd(1)
 [98] 0
";

const DATAGRAM: &str = "()
(TCall { seq: Seq(0), addr: [97], opt: [], udata: [104, 101, 108] }, 1)
(TCall { seq: Seq(0), addr: [], opt: [], udata: [108, 111] }, 0)
";

/// The lines of their history.
const HISTORY: &str = "1 0 open ticlts block => ok 0 T_UNBND
2 0 bind 0 addr=x:61 qlen=0 amax=64 => ok x:61 0 T_IDLE
3 0 open ticlts block => ok 1 T_UNBND
4 0 bind 1 addr=x:62 qlen=0 amax=64 => ok x:62 0 T_IDLE
5 1 sndudata 0 addr=x:62 opt=x: data=x:68656c6c6f => ok T_IDLE
6 1 rcvudata 1 max=3 amax=64 omax=256 => ok x:61 x: x:68656c 1 T_IDLE
7 1 rcvudata 1 max=3 amax=64 omax=256 => ok x: x: x:6c6f 0 T_IDLE
";

/// Three bytes of data at most.
const THREE_BYTES: Max = Max {
    addr: 64,
    opt: 256,
    udata: 3,
};

/// The number of one more seat that this one gives, if it gives one.
fn given<R: Wait>(rt: &R, alloc: Global, xti: &Xti, seat: &mut Seat) -> Option<u32>
    requires { IsOf xti.now seat.old }
    ensures { IsOf xti.now seat.new }
{
    match xti.split(rt, alloc, seat) {
        Ok(other) => {
            let number = other.number();
            let_go(other);
            Some(number)
        }
        Err(_) => None,
    }
}

/// How many more seats the first gives, if their numbers are 2, 3 and so on.
fn splits<R: Wait>(rt: &R, alloc: Global, xti: &Xti, seat: &mut Seat) -> u32
    requires { IsOf xti.now seat.old }
    ensures { IsOf xti.now seat.new }
{
    for number in 2..100 {
        if given(rt, alloc, xti, seat) != Some(number) {
            return number - 2;
        }
    }
    98
}

/// The first seat gives 31 more once it gave one. That one, with number 1, gives none, and when it has met the first it tells no
/// entry.
#[test]
fn numbers(rt: HostRuntime) {
    let alloc = rt.alloc();
    let (xti, mut first) = library(&rt, alloc, true);
    let mut one = another_seat(&rt, alloc, &xti, &mut first);
    let more = splits(&rt, alloc, &xti, &mut first);
    let none = given(&rt, alloc, &xti, &mut one);
    let mut one = xti.meet(one, &mut first);
    let number = one.number();
    let history = xti.history(&rt, alloc, &mut one);
    let is_empty = matches!(&history, Ok(entries) if entries.as_slice().is_empty());
    let_go((xti, first));
    let_go((one, history));
    assert!(rt; more == 31 && none == None && number == 1 && is_empty);
}

/// Whether the calls that make two endpoints of datagrams answer so.
fn makes_endpoints<R: Wait + Sync>(first: &mut Caller<R>) -> bool
    ensures { AreOfOneHall first.old first.new }
{
    let mut log = String::new(first.alloc());
    note(&mut log, first.t_open(b"ticlts", false));
    note_bytes(&mut log, first.t_bind(Fd(0), b"a", 0, 64));
    note(&mut log, first.t_open(b"ticlts", false));
    note_bytes(&mut log, first.t_bind(Fd(1), b"b", 0, 64));
    is_text(log, ENDPOINTS)
}

/// Whether a datagram from one to the other is received in two parts.
fn moves_datagram<R: Wait + Sync>(second: &mut Caller<R>) -> bool
    ensures { AreOfOneHall second.old second.new }
{
    let mut log = String::new(second.alloc());
    note(&mut log, second.t_sndudata(Fd(0), b"b", b"", b"hello"));
    note(&mut log, second.t_rcvudata(Fd(1), THREE_BYTES));
    note(&mut log, second.t_rcvudata(Fd(1), THREE_BYTES));
    is_text(log, DATAGRAM)
}

/// Whether these entries have this text.
fn are_told(alloc: Global, entries: &[Entry], wanted: &str) -> bool {
    let mut text = Vec::new(alloc);
    for (index, entry) in entries.iter().enumerate() {
        if let Ok(line) = write_entry(alloc, index as u64 + 1, entry) {
            let _ = text.extend_from_slice(line.as_slice());
            let_go(line);
        }
    }
    let are_told = text.as_slice() == wanted.as_bytes();
    let_go(text);
    are_told
}

/// The first seat takes the history from the library at its end.
#[test]
fn histories(rt: HostRuntime) {
    let alloc = rt.alloc();
    let (xti, mut first) = library(&rt, alloc, true);
    let second = another_seat(&rt, alloc, &xti, &mut first);
    let mut first = xti.caller(&rt, alloc, first);
    let mut second = xti.caller(&rt, alloc, second);
    let is_answered = makes_endpoints(&mut first) & moves_datagram(&mut second);
    second.rest();
    let first = first.into_seat();
    let second = second.into_seat();
    let mut ended = xti.end(&rt, first);
    let_go(ended.meet(second));
    let history = ended.into_history();
    let are_told = are_told(alloc, history.as_slice(), HISTORY);
    let_go(history);
    assert!(rt; is_answered && are_told);
}

/// The same calls in a library that keeps no history.
#[test]
fn answers_without_a_history(rt: HostRuntime) {
    let alloc = rt.alloc();
    let (xti, seat) = library(&rt, alloc, false);
    let mut first = xti.caller(&rt, alloc, seat);
    let mut second = another_caller(&mut first);
    let is_answered = makes_endpoints(&mut first) & moves_datagram(&mut second);
    let_go((first, second));
    let_go(xti);
    assert!(rt; is_answered);
}
