//! One step.

ghost use Rattle.std.specs.Prelude.{◌≡◌, IfOk, OnErr};
ghost use Rattle.xti_model.specs.Touched.{touched};
ghost use Rattle.xti_lent.specs.Answers.{AnswersCall, IsSureOf, StaysBlocked};
ghost use Rattle.xti_lent.specs.Fit.{AllLent, IsFit, SameCells};
ghost use Rattle.xti_lent.specs.Lending.{cells};
ghost use Rattle.xti_data.specs.Sends.{IsData};

use crate::releasing::sndrel;
use crate::sending::send;
use std::alloc::AllocError;
use std::slice;
use xti_lent::Lent;
use xti_model::{Applied, Call, Go};

/// One step of t_snd, t_sndv, t_sndrel or t_sndreldata: what it answers, and the state of its endpoint afterwards. The cells of the call must be
/// lent. Where it is blocked, and where memory runs out, all is as before.
#[inline(always)]
#[tactic(auto, unfolding(xti_model::specs::Step::step, xti_model::specs::Step::plan))]
pub fn data_step(lent: &mut Lent, call: &Call, go: Go) -> Result<Applied, AllocError>
    requires call { IsData call.now }
    requires fit { IsFit lent.old }
    requires lent { AllLent lent.old (touched lent.old.providers (cells lent.old) call.now) }
    ensures step { IfOk result (AnswersCall call.now go lent.old lent.new) }
    ensures still { IfOk result (StaysBlocked lent.old lent.new) }
    ensures kept { SameCells lent.old lent.new }
    ensures err { OnErr result (lent.new ≡ lent.old) }
    ensures sure { IsSureOf call.now go lent.old result }
{
    match call {
        Call::TSnd { fd, bytes, flags } => send(lent, *fd, slice::from_ref(bytes), *flags, go),
        Call::TSndV { fd, parts, flags } => send(lent, *fd, parts.as_slice(), *flags, go),
        Call::TSndRel { fd } => sndrel(lent, *fd, &[]),
        Call::TSndRelData { fd, udata } => sndrel(lent, *fd, udata.as_slice()),
        _ => unreachable!(),
    }
}
