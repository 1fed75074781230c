//! One step over lent cells.

ghost use Rattle.std.specs.Prelude.{◌≡◌, true, IfOk, OnErr};
ghost use Rattle.xti_model.specs.World.{place_of};
ghost use Rattle.xti_model.specs.declared.entry.Go.{Go};
ghost use Rattle.xti_model.specs.Touched.{touched};
ghost use Rattle.xti_end.specs.Taken.{IsAt};
ghost use Rattle.xti_lent.specs.Answers.{AnswersCall, IsSureOf, IsUnchanged, StaysBlocked};
ghost use Rattle.xti_lent.specs.Lending.{cells, is_lent};
ghost use Rattle.xti_lent.specs.Fit.{AllLent, AtOwnPlaces, IsFit, SameCells};
ghost use Rattle.xti_switch.specs.Calls.{goes_through_switch};
ghost use Rattle.xti_data.specs.Sends.{IsData};
ghost use Rattle.xti_data.specs.DatagramSends.{IsSend};
ghost use Rattle.xti_core.specs.Written.{told, AlwaysSteps, IsLook, IsWritten, Steps, StepsBySwitch, StayUnmade};

use crate::looking::look;
use std::alloc::AllocError;
use xti_base::{Fd, State, write_over};
use xti_data::{data_step, dgram_step};
use xti_lent::Lent;
use xti_model::{Applied, Call, Go, Outcome};
use xti_switch::switch_step;

/// One step of a call that touches the cell of its descriptor alone.
#[inline(always)]
fn in_cell(lent: &mut Lent, call: &Call, fd: Fd, go: Go) -> Result<Applied, AllocError>
    requires at { IsAt lent.old.providers (place_of lent.old.providers fd.0) call.now go }
    requires places { AtOwnPlaces lent.old }
    requires lent { is_lent lent.old (place_of lent.old.providers fd.0) ≡ true }
    ensures step { Steps call.now go lent.old lent.new result }
    ensures kept { SameCells lent.old lent.new }
    ensures err { OnErr result (lent.new ≡ lent.old) }
{
    let p = *lent.providers();
    let e = lent.endpoint(p.place_of(fd));
    e.local(call, go, &p)
}

/// The same; the bytes of t_rcv stand in the memory that is kept for them, where that is large enough.
#[inline(always)]
fn local(lent: &mut Lent, call: &Call, fd: Fd, go: Go) -> Result<Applied, AllocError>
    requires at { IsAt lent.old.providers (place_of lent.old.providers fd.0) call.now go }
    requires places { AtOwnPlaces lent.old }
    requires lent { is_lent lent.old (place_of lent.old.providers fd.0) ≡ true }
    ensures step { Steps call.now go lent.old lent.new result }
    ensures kept { SameCells lent.old lent.new }
    ensures err { OnErr result (lent.new ≡ lent.old) }
{
    let has_room = match call {
        Call::TRcv { .. } => lent.lend_room(fd),
        _ => false,
    };
    let applied = in_cell(lent, call, fd, go);
    if has_room {
        lent.take_room(fd);
    }
    applied
}

/// One step of t_look.
#[inline(always)]
fn seen(lent: &mut Lent, fd: Fd) -> Result<Applied, AllocError>
    requires { AtOwnPlaces lent.old }
    ensures step { IsLook fd lent.old lent.new result }
    ensures kept { SameCells lent.old lent.new }
    ensures err { OnErr result (lent.new ≡ lent.old) }
{
    Ok(look(lent, fd))
}

/// Writes what a step answered where the caller keeps it, and answers whether a step was made. Each family of calls does so by
/// itself below, so that the place for its answer is cleared where it is needed alone.
#[inline(always)]
fn write(
    applied: Result<Applied, AllocError>,
    outcome: &mut Outcome,
    after: &mut State,
) -> Result<bool, AllocError>
    ensures { IsWritten applied result outcome.old outcome.new after.old after.new }
{
    match applied {
        Ok(
            Applied::Step {
                outcome: told,
                after: state,
            },
        ) => {
            write_over(outcome, told);
            *after = state;
            Ok(true)
        }
        Ok(Applied::Blocked) => Ok(false),
        Err(error) => Err(error),
    }
}

/// `local`, written where the caller keeps it.
#[inline(always)]
fn local_into(
    lent: &mut Lent,
    call: &Call,
    fd: Fd,
    go: Go,
    outcome: &mut Outcome,
    after: &mut State,
) -> Result<bool, AllocError>
    requires at { IsAt lent.old.providers (place_of lent.old.providers fd.0) call.now go }
    requires places { AtOwnPlaces lent.old }
    requires lent { is_lent lent.old (place_of lent.old.providers fd.0) ≡ true }
    ensures step { Steps call.now go lent.old lent.new (told result outcome.new after.new) }
    ensures unmade { StayUnmade result outcome.old outcome.new after.old after.new }
    ensures kept { SameCells lent.old lent.new }
    ensures err { OnErr result (lent.new ≡ lent.old) }
{
    write(local(lent, call, fd, go), outcome, after)
}

/// The same of a call that opens, closes, binds, unbinds, accepts or disconnects, or of a connect that begins.
#[inline(always)]
fn switch_into(
    lent: &mut Lent,
    call: &Call,
    outcome: &mut Outcome,
    after: &mut State,
) -> Result<bool, AllocError>
    requires call { goes_through_switch call.now Go.Begin ≡ true }
    requires fit { IsFit lent.old }
    requires lent { AllLent lent.old (touched lent.old.providers (cells lent.old) call.now) }
    ensures step { StepsBySwitch call.now lent.old lent.new (told result outcome.new after.new) }
    ensures unmade { StayUnmade result outcome.old outcome.new after.old after.new }
    ensures kept { SameCells lent.old lent.new }
    ensures err { OnErr result (IsUnchanged lent.old lent.new) }
{
    write(switch_step(lent, call), outcome, after)
}

/// The same of a call that sends on a connection, or releases it.
#[inline(always)]
fn data_into(
    lent: &mut Lent,
    call: &Call,
    go: Go,
    outcome: &mut Outcome,
    after: &mut State,
) -> Result<bool, AllocError>
    requires call { IsData call.now }
    requires fit { IsFit lent.old }
    requires lent { AllLent lent.old (touched lent.old.providers (cells lent.old) call.now) }
    ensures step { Steps call.now go lent.old lent.new (told result outcome.new after.new) }
    ensures unmade { StayUnmade result outcome.old outcome.new after.old after.new }
    ensures kept { SameCells lent.old lent.new }
    ensures err { OnErr result (lent.new ≡ lent.old) }
{
    write(data_step(lent, call, go), outcome, after)
}

/// The same of a call that sends a datagram.
#[inline(always)]
fn dgram_into(
    lent: &mut Lent,
    call: &Call,
    outcome: &mut Outcome,
    after: &mut State,
) -> Result<bool, AllocError>
    requires call { IsSend call.now }
    requires fit { IsFit lent.old }
    requires lent { AllLent lent.old (touched lent.old.providers (cells lent.old) call.now) }
    ensures step { AlwaysSteps call.now lent.old lent.new (told result outcome.new after.new) }
    ensures unmade { StayUnmade result outcome.old outcome.new after.old after.new }
    ensures kept { SameCells lent.old lent.new }
    ensures err { OnErr result (lent.new ≡ lent.old) }
{
    write(dgram_step(lent, call), outcome, after)
}

/// The same of t_look.
#[inline(always)]
fn seen_into(
    lent: &mut Lent,
    fd: Fd,
    outcome: &mut Outcome,
    after: &mut State,
) -> Result<bool, AllocError>
    requires { AtOwnPlaces lent.old }
    ensures step { IsLook fd lent.old lent.new (told result outcome.new after.new) }
    ensures unmade { StayUnmade result outcome.old outcome.new after.old after.new }
    ensures kept { SameCells lent.old lent.new }
    ensures err { OnErr result (lent.new ≡ lent.old) }
{
    write(seen(lent, fd), outcome, after)
}

/// One step of a call, by that of these functions which its family has; they are handed the places too that follow.
macro_rules! by_family {
    (
        $lent:ident, $call:ident, $go:ident,
        $switch:ident, $data:ident, $dgram:ident, $seen:ident, $local:ident $(, $place:ident)*
    ) => {{
        let Some(fd) = $call.fd() else {
            return $switch($lent, $call $(, $place)*);
        };
        match $call {
            Call::TConnect { .. } => match $go {
                Go::Begin => $switch($lent, $call $(, $place)*),
                Go::More(_) => $local($lent, $call, fd, $go $(, $place)*),
            },
            Call::TClose { .. }
            | Call::TBind { .. }
            | Call::TUnbind { .. }
            | Call::TAccept { .. }
            | Call::TSndDis { .. } => $switch($lent, $call $(, $place)*),
            Call::TSnd { .. }
            | Call::TSndV { .. }
            | Call::TSndRel { .. }
            | Call::TSndRelData { .. } => $data($lent, $call, $go $(, $place)*),
            Call::TSndUData { .. } | Call::TSndVUData { .. } => $dgram($lent, $call $(, $place)*),
            Call::TLookAt { fd } => $seen($lent, *fd $(, $place)*),
            _ => $local($lent, $call, fd, $go $(, $place)*),
        }
    }};
}

/// One step of a call over the lent cells, which are to be those that it touches. What it answers, and the state of its endpoint
/// afterwards, are written where the caller keeps them; whether a step was made. Where it is blocked, and where it runs out of
/// memory, both are as before, and so are the cells; where it runs out of memory room for more may have been taken.
#[inline(always)]
pub(crate) fn apply_into(
    lent: &mut Lent,
    call: &Call,
    go: Go,
    outcome: &mut Outcome,
    after: &mut State,
) -> Result<bool, AllocError>
    requires fit { IsFit lent.old }
    requires lent { AllLent lent.old (touched lent.old.providers (cells lent.old) call.now) }
    ensures step { Steps call.now go lent.old lent.new (told result outcome.new after.new) }
    ensures unmade { StayUnmade result outcome.old outcome.new after.old after.new }
    ensures kept { SameCells lent.old lent.new }
    ensures err { OnErr result (IsUnchanged lent.old lent.new) }
{
    by_family!(
        lent,
        call,
        go,
        switch_into,
        data_into,
        dgram_into,
        seen_into,
        local_into,
        outcome,
        after
    )
}

/// One step of a call over the lent cells, which are to be those that it touches: what it answers, and the state of its endpoint
/// afterwards. Where it is blocked all is as before; where it runs out of memory the cells are, and room for more may have been
/// taken.
#[inline(always)]
pub fn apply(lent: &mut Lent, call: &Call, go: Go) -> Result<Applied, AllocError>
    requires fit { IsFit lent.old }
    requires lent { AllLent lent.old (touched lent.old.providers (cells lent.old) call.now) }
    ensures step { IfOk result (AnswersCall call.now go lent.old lent.new) }
    ensures still { IfOk result (StaysBlocked lent.old lent.new) }
    ensures kept { SameCells lent.old lent.new }
    ensures err { OnErr result (IsUnchanged lent.old lent.new) }
    ensures sure { IsSureOf call.now go lent.old result }
{
    by_family!(
        lent,
        call,
        go,
        switch_step,
        data_step,
        dgram_step,
        seen,
        local
    )
}
