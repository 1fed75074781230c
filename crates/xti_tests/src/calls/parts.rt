//! A send that is taken in two parts, by calls and by steps.

ghost use Rattle.std.specs.Prelude.{IfSome};
ghost use Rattle.xti_model.specs.declared.entry.Go.TheVariants.{More};
ghost use Rattle.xti_step.specs.Steps.{MayGo, Tells};
ghost use Rattle.xti_calls.specs.Calling.{IsAt, IsUnfinished};
ghost use Rattle.xti_tests.specs.Parts.{IsPart};

use crate::calls::connections::{ANSWERER, BLOCKING, CALLER, CONNECT, OF_TICOTSORD};
use crate::calls::conversations::holds;
use crate::library::{another_caller, expect_free, library};
use std::alloc::Global;
use std::process::Abort;
use std::sync::Wait;
use std::test::*;
use xti_base::{Octets, let_go};
use xti_calls::{Call, Caller, Fail as CallFail, Halt, NoGate, Outcome, Reply};
use xti_model::{Applied, Go};

/// More bytes than both buffers have room for, of which the first step takes so many.
const BYTES: usize = 40_000;

const FIRST: u32 = 32_768;

/// How many bytes are received: after each step of the send, by calls and then by steps.
const RECEIVED: [usize; 4] = [32_768, 7_232, 32_768, 7_232];

/// Receives what waits; how many bytes they are. The caller rests afterwards.
fn receive<R: Wait + Sync>(caller: &mut Caller<R>) -> usize {
    let answer = caller.t_rcv(ANSWERER, 65_536);
    let length = match &answer {
        Ok((bytes, _flags)) => bytes.as_slice().len(),
        Err(_) => 0,
    };
    let_go(answer);
    caller.rest();
    length
}

/// Begins the send, which stops with a part of it made; why.
fn begin<R: Wait + Sync + Abort>(caller: &mut Caller<R>, call: &Call) -> Halt
    ensures { IsUnfinished caller.new.view call.now }
{
    expect_free(caller);
    let answer = caller.call(&NoGate, call);
    let Err(halt) = &answer else {
        caller.rt().panic("the send is made at once")
    };
    let halt = *halt;
    let_go(answer);
    if caller.unfinished().is_none() {
        caller.rt().panic("no part is made");
    }
    halt
}

/// Whether a send stalled after the entry with this number, while the other caller rested.
fn is_stalled(halt: &Halt, after: u64) -> bool {
    matches!(halt, Halt::Stalled { taken: FIRST, stall }
        if stall.at == after && stall.waiting == 1 && stall.resting == 1)
}

/// Goes on with the send to its end; how many bytes it has sent.
fn finish<R: Wait + Sync>(caller: &mut Caller<R>, call: &Call) -> u32
    requires { IsUnfinished caller.old.view call.now }
{
    let answer = caller.resume(&NoGate, call);
    let sent = match &answer {
        Ok(Reply::Sent { n }) => *n,
        _ => 0,
    };
    let_go(answer);
    sent
}

/// One step of the send.
fn step<R: Wait + Sync + Abort>(caller: &mut Caller<R>, call: &Call, go: Go) -> Applied
    requires { MayGo caller.old.view call.now go }
    ensures { Tells caller.old.view call.now go caller.new.view result }
{
    caller.step(&NoGate, call, go).expect(caller.rt(), "memory")
}

/// How many bytes are taken of a call that goes on after a step.
fn part_of(applied: &Applied) -> Option<u32>
    ensures { IfSome result (IsPart applied.now) }
{
    match applied {
        Applied::Step {
            outcome: Outcome::Part { taken },
            ..
        } => Some(*taken),
        _ => None,
    }
}

/// A part of the send, and a step that is blocked; how many bytes are taken.
#[tactic(auto, using(crate::proofs::Sends::may_begin, crate::proofs::Sends::may_go_on, crate::proofs::Sends::part_is_at, crate::proofs::Sends::blocked_is_at))]
fn two_steps<R: Wait + Sync + Abort>(caller: &mut Caller<R>, call: &Call) -> u32
    ensures { IsAt caller.new.view call.now (More result) }
{
    expect_free(caller);
    let part = step(caller, call, Go::Begin);
    let taken = part_of(&part).expect(caller.rt(), "a part");
    let blocked = step(caller, call, Go::More(taken));
    let Applied::Blocked = &blocked else {
        caller.rt().panic("the step isn't blocked")
    };
    let_go((part, blocked));
    taken
}

/// The last step of the send; how many bytes it has sent.
#[tactic(auto, using(crate::proofs::Sends::may_go_on))]
fn last_step<R: Wait + Sync + Abort>(caller: &mut Caller<R>, call: &Call, taken: u32) -> u32
    requires { IsAt caller.old.view call.now (More taken) }
{
    let last = step(caller, call, Go::More(taken));
    let sent = match &last {
        Applied::Step {
            outcome: Outcome::Done(Reply::Sent { n }),
            ..
        } => *n,
        _ => 0,
    };
    let_go(last);
    sent
}

/// Whether the send goes so by calls, and then by steps, where the first caller receives what the second sends.
fn goes_by_parts<R: Wait + Sync + Abort>(
    first: &mut Caller<R>,
    second: &mut Caller<R>,
    call: &Call,
) -> bool {
    let halt = begin(second, call);
    let part = receive(first);
    let sent = finish(second, call);
    let rest = receive(first);
    let taken = two_steps(second, call);
    let part_of_step = receive(first);
    let last = last_step(second, call, taken);
    let rest_of_step = receive(first);
    expect_free(first);
    is_stalled(&halt, 12)
        && [sent, taken, last] == [40_000, FIRST, 40_000]
        && [part, rest, part_of_step, rest_of_step] == RECEIVED
}

/// Whether another call beside the unfinished send is refused, and makes no step.
fn is_refused_beside<R: Wait + Sync + Abort>(caller: &mut Caller<R>, call: &Call) -> bool {
    let halt = begin(caller, call);
    let beside = caller.t_look(CALLER);
    is_stalled(&halt, 20) && matches!(beside, Err(CallFail::Unfinished)) && caller.steps() == 5
}

/// The send.
fn send<R: Abort>(rt: &R, alloc: Global) -> Call {
    let bytes = Vec::from_elem(alloc, b'f', BYTES).expect(rt, "memory");
    Call::TSnd {
        fd: CALLER,
        bytes: Octets::from_vec(bytes),
        flags: 0,
    }
}

/// Whether all this holds where the endpoints are connected, without O_NONBLOCK.
fn all_hold<R: Wait + Sync + Abort>(rt: &R, alloc: Global, first: &mut Caller<R>) -> bool {
    let is_connected = holds(first, &[OF_TICOTSORD, CONNECT, BLOCKING]);
    let mut second = another_caller(first);
    first.rest();
    let call = send(rt, alloc);
    let is_by_parts = goes_by_parts(first, &mut second, &call);
    let is_refused = is_refused_beside(&mut second, &call);
    let_go((second, call));
    is_connected && is_by_parts && is_refused
}

#[test]
fn parts(rt: HostRuntime) {
    let alloc = rt.alloc();
    let (xti, seat) = library(&rt, alloc, true);
    let mut first = xti.caller(&rt, alloc, seat);
    let all_hold = all_hold(&rt, alloc, &mut first);
    let_go(first);
    let_go(xti);
    assert!(rt; all_hold);
}
