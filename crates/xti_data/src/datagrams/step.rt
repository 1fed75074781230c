//! One step.

ghost use Rattle.std.specs.Prelude.{◌≡◌, IfOk, OnErr};
ghost use Rattle.xti_model.specs.Touched.{touched};
ghost use Rattle.xti_model.specs.declared.entry.Go.{Go};
ghost use Rattle.xti_lent.specs.Answers.{AnswersCall, IsSureOf, StaysBlocked};
ghost use Rattle.xti_lent.specs.Fit.{AllLent, IsFit, SameCells};
ghost use Rattle.xti_lent.specs.Lending.{cells};
ghost use Rattle.xti_data.specs.DatagramSends.{IsSend};

use crate::datagrams::sending::send;
use std::alloc::AllocError;
use std::slice;
use xti_lent::Lent;
use xti_model::{Applied, Call};

/// One step of t_sndudata or t_sndvudata: what it answers, and the state of its endpoint afterwards. The cells of the call must be
/// lent. Where it is blocked, and where memory runs out, all is as before.
#[inline(always)]
#[tactic(auto, unfolding(xti_model::specs::Step::step, xti_model::specs::Step::plan))]
pub fn dgram_step(lent: &mut Lent, call: &Call) -> Result<Applied, AllocError>
    requires call { IsSend call.now }
    requires fit { IsFit lent.old }
    requires lent { AllLent lent.old (touched lent.old.providers (cells lent.old) call.now) }
    ensures step { IfOk result (λ a. (g : Go) → AnswersCall call.now g lent.old lent.new a) }
    ensures still { IfOk result (StaysBlocked lent.old lent.new) }
    ensures kept { SameCells lent.old lent.new }
    ensures err { OnErr result (lent.new ≡ lent.old) }
    ensures sure { (g : Go) → IsSureOf call.now g lent.old result }
{
    match call {
        Call::TSndUData {
            fd,
            addr,
            opt,
            bytes,
        } => send(
            lent,
            *fd,
            addr.as_slice(),
            opt.as_slice(),
            slice::from_ref(bytes),
        ),
        Call::TSndVUData {
            fd,
            addr,
            opt,
            parts,
        } => send(lent, *fd, addr.as_slice(), opt.as_slice(), parts.as_slice()),
        _ => unreachable!(),
    }
}
