//! The calls of XTI in their own types: a method of `Caller` for each, with the name that it has in XNS, and `set_mode`. Each
//! says what it does, for what it waits and which errors it answers; `Fail` says what they have in common where they fail.

ghost use Rattle.std.specs.Prelude.{◌≡◌, IfOk, MatchResult};
ghost use Rattle.xti_verbs.specs.Verbs.{answer_of, verb_of};
ghost use Rattle.xti_laws.specs.Replies.{lengths_of, IsShort};
ghost use Rattle.xti_calls.specs.Forms.{Fails, IsAnswered};
ghost use Rattle.xti_calls.specs.Typed.{MayBe};
ghost use Rattle.xti_calls.specs.Library.{GoesOn, IsOf};

use crate::answers::Fail;
use crate::caller::Caller;
use crate::library::Seat;
use crate::shared::Xti;
use std::alloc::{AllocError, Global};
use std::sync::Wait;
use xti_base::{Octets, let_go, or_drop};
use xti_laws::steps_answer_in_form;
use xti_model::{Call, Reply};
use xti_step::NoGate;

/// What was made of memory for a call of the caller; where memory ran out, the call has that error. That another call is
/// unfinished comes before it.
macro_rules! made_or_fail {
    ($caller:expr, $made:expr) => {
        match $made {
            Ok(made) => made,
            Err(error) => {
                $caller.ready()?;
                return Err(Fail::Memory(error));
            }
        }
    };
}

mod connections;
mod datagrams;
mod endpoints;
mod streams;

/// A copy of each.
fn two_copies(alloc: Global, one: &[u8], two: &[u8]) -> Result<(Octets, Octets), AllocError>
    ensures { IfOk result (λ r. (r.0 ≡ one.now) × (r.1 ≡ two.now)) }
{
    let one = Octets::copy_of(alloc, one)?;
    let two = or_drop!(Octets::copy_of(alloc, two), one);
    Ok((one, two))
}

/// A copy of each.
fn three_copies(
    alloc: Global,
    one: &[u8],
    two: &[u8],
    three: &[u8],
) -> Result<(Octets, Octets, Octets), AllocError>
    ensures { IfOk result (λ r. (r.0 ≡ one.now) × (r.1 ≡ two.now) × (r.2 ≡ three.now)) }
{
    let (one, two) = two_copies(alloc, one, two)?;
    let three = or_drop!(Octets::copy_of(alloc, three), one, two);
    Ok((one, two, three))
}

impl Xti {
    /// The reply of a call, which is of the call's kind, and no longer than the call allows; else why it has none. Every call in
    /// its typed form is made here.
    fn reply<R: Wait + Sync>(
        &self,
        rt: &R,
        alloc: Global,
        seat: &mut Seat,
        call: Call,
    ) -> Result<Reply, Fail>
        requires seat { IsOf self.now seat.old }
        ensures seat { GoesOn seat.old seat.new }
        ensures made { MatchResult result
            (IsAnswered call seat.old seat.new)
            (Fails call seat.old seat.new) }
        ensures kind { IfOk result (MayBe (answer_of (verb_of call))) }
        ensures short { IfOk result (IsShort (lengths_of call)) }
    {
        if seat.unfinished().is_some() {
            let_go(call);
            return Err(Fail::Unfinished);
        }
        steps_answer_in_form();
        let reply = self.call(rt, alloc, seat, &NoGate, &call);
        let_go(call);
        match reply {
            Ok(reply) => Ok(reply),
            Err(halt) => Err(Fail::Halt(halt)),
        }
    }
}

impl<'a, R: Wait + Sync> Caller<'a, R> {
    /// The reply of a call, or why it has none, as above.
    fn reply(&mut self, call: Call) -> Result<Reply, Fail>
        ensures seat { GoesOn self.old self.new }
        ensures made { MatchResult result
            (IsAnswered call self.old self.new)
            (Fails call self.old self.new) }
        ensures kind { IfOk result (MayBe (answer_of (verb_of call))) }
        ensures short { IfOk result (IsShort (lengths_of call)) }
    {
        self.xti.reply(self.rt, self.alloc, &mut self.seat, call)
    }
}
