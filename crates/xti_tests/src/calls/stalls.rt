//! Three callers, of which one rests and two wait for data that nobody sends: what each of these is told.

use crate::calls::connections::{ANSWERER, BLOCKING, CONNECT, OF_TICOTS};
use crate::calls::conversations::holds;
use crate::library::{another_caller, library};
use std::process::Abort;
use std::sync::Wait;
use std::test::*;
use std::thread::{self, Threads};
use xti_base::let_go;
use xti_calls::{Caller, Fail as CallFail, Halt};

/// How many seats waited, and how many rested.
type Told = (u32, u32);

/// What the first that finds the stall is told, and then the other, for which the first rests.
const FIRST: Option<Told> = Some((2, 1));

const OTHER: Option<Told> = Some((1, 2));

/// Receives where nothing is sent. What the receive was told; nothing where it was answered, or bytes were taken.
fn receive<R: Wait + Sync>(caller: &mut Caller<R>) -> Option<Told> {
    let answer = caller.t_rcv(ANSWERER, 9);
    let told = match &answer {
        Err(CallFail::Halt(Halt::Stalled { taken: 0, stall })) => {
            Some((stall.waiting, stall.resting))
        }
        _ => None,
    };
    let_go(answer);
    told
}

/// Whether the two are told so where the endpoints are connected, without O_NONBLOCK, and nothing is sent.
fn are_told<R: Threads + Wait + Sync + Abort>(rt: &R, first: &mut Caller<R>) -> bool {
    let is_connected = holds(first, &[OF_TICOTS, CONNECT, BLOCKING]);
    let mut one = another_caller(first);
    let mut other = another_caller(first);
    first.rest();
    let told = thread::join(rt, || receive(&mut one), || receive(&mut other));
    let_go((one, other));
    is_connected && [(FIRST, OTHER), (OTHER, FIRST)].contains(&told)
}

#[test]
fn stalls(rt: HostRuntime) {
    let alloc = rt.alloc();
    let (xti, seat) = library(&rt, alloc, true);
    let mut first = xti.caller(&rt, alloc, seat);
    let are_told = are_told(&rt, &mut first);
    let_go(first);
    let_go(xti);
    assert!(rt; are_told);
}
