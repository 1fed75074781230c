//! One step of the call that is asked for.

ghost use Rattle.std.specs.Prelude.{◌≡◌};
ghost use Rattle.xti_c.specs.Answers.{places_of, Answers, IsSure, RunsOutRightly, Steps, TellsNoCall};
ghost use Rattle.xti_c.specs.Lines.{TellsLine, TellsStep};

use crate::recording::{Place, tell_step};
use std::alloc::Global;
use xti_base::{State, let_go};
use xti_core::World;
use xti_flat::{Asked, Bytes, Told, call_of, go_of, tell};
use xti_model::{Call, Go, Outcome};

/// How a step ended, and how many bytes its line in the journal has; 0 where no line is told.
#[derive(Clone, Copy)]
pub(crate) struct Ended {
    pub(crate) end: u32,
    pub(crate) line: usize,
}

/// One step of the call. 0: the call is done; 1: a part of it is made; 2: it is blocked; 3: out of memory.
#[tactic(none)]
fn step_call(
    alloc: Global,
    world: &mut World,
    call: Call,
    go: Go,
    place: Place,
    told: &mut Told,
    addr: &mut [u8],
    opt: &mut [u8],
    udata: &mut [u8],
    room: &mut [u8],
) -> Ended
    ensures steps { Steps call go world.old world.new result.end
        (places_of told.old addr.old opt.old udata.old)
        (places_of told.new addr.new opt.new udata.new) }
    ensures line { TellsStep place call go world.old result room.old room.new }
    ensures sure { IsSure call go world.old result.end }
{
    let mut outcome = Outcome::Part { taken: 0 };
    let mut after = State::T_UNINIT;
    let end = match world.step_into(&call, go, &mut outcome, &mut after) {
        Ok(true) => tell(&outcome, after, told, addr, opt, udata),
        Ok(false) => 2,
        Err(_) => 3,
    };
    if end > 1 || room.is_empty() {
        let_go(outcome);
        let_go(call);
        return Ended { end, line: 0 };
    }
    let line = tell_step(alloc, place, call, go, outcome, after, room);
    Ended { end, line }
}

/// One step of the call that is asked for. 0: the call is done; 1: a part of it is made; 2: it is blocked; 3: out of memory; 4: no
/// call has the number.
#[tactic(none)]
pub(crate) fn make_step(
    alloc: Global,
    world: &mut World,
    asked: &Asked,
    bytes: &Bytes,
    place: Place,
    told: &mut Told,
    addr: &mut [u8],
    opt: &mut [u8],
    udata: &mut [u8],
    room: &mut [u8],
) -> Ended
    ensures answers { Answers asked.now bytes.now world.old world.new result.end
        (places_of told.old addr.old opt.old udata.old)
        (places_of told.new addr.new opt.new udata.new) }
    ensures line { TellsLine place asked.now bytes.now world.old result room.old room.new }
    ensures sure { RunsOutRightly world.old asked.now bytes.now result.end }
    ensures no_call { TellsNoCall asked.now result.end }
{
    match call_of(alloc, asked, bytes) {
        Ok(Some(call)) => {
            step_call(
                alloc,
                world,
                call,
                go_of(asked),
                place,
                told,
                addr,
                opt,
                udata,
                room,
            )
        }
        Ok(None) => Ended { end: 4, line: 0 },
        Err(_) => Ended { end: 3, line: 0 },
    }
}
