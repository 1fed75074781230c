//! Libraries, their seats and their callers, each ready for a call. The test fails where there are none.

ghost use Rattle.std.specs.Prelude.{◌≡◌};
ghost use Rattle.xti_calls.specs.Library.{IsFree, IsOf, keeps_of};

use std::alloc::Global;
use std::process::Abort;
use std::sync::Wait;
use std::test::*;
use xti_calls::{Caller, Providers, Seat, Xti};

/// A library with the usual providers, and its first seat.
pub(crate) fn library<R: Abort>(rt: &R, alloc: Global, keeps: bool) -> (Xti, Seat)
    ensures seat { IsOf result.0 result.1 }
    ensures keeps { keeps_of result.0 ≡ keeps }
{
    Xti::new(alloc, &Providers::usual(), keeps).expect(rt, "a library")
}

/// One more seat, of the numbers that the first has to spare.
pub(crate) fn another_seat<R: Wait + Abort>(
    rt: &R,
    alloc: Global,
    xti: &Xti,
    first: &mut Seat,
) -> Seat
    requires { IsOf xti.now first.old }
    ensures seat { IsOf xti.now first.new }
    ensures other { IsOf xti.now result }
{
    xti.split(rt, alloc, first).expect(rt, "a seat")
}

/// One more caller, with a number that the first has to spare.
pub(crate) fn another_caller<'a, R: Wait + Abort>(first: &mut Caller<'a, R>) -> Caller<'a, R> {
    first.split().expect(first.rt(), "a seat")
}

/// The caller has no call unfinished; else the test fails.
pub(crate) fn expect_free<R: Abort>(caller: &Caller<R>)
    ensures { IsFree caller.now }
{
    if caller.unfinished().is_some() {
        caller.rt().panic("a call is unfinished");
    }
}
