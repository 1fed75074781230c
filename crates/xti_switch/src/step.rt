//! One step of a call that goes through the switch.

ghost use Rattle.std.specs.Prelude.{◌≡◌, true, IfOk, OnErr};
ghost use Rattle.xti_model.specs.declared.entry.Go.{Go};
ghost use Rattle.xti_model.specs.Touched.{touched};
ghost use Rattle.xti_lent.specs.Answers.{IsUnchanged, StaysBlocked};
ghost use Rattle.xti_lent.specs.Lending.{cells};
ghost use Rattle.xti_lent.specs.Fit.{IsFit, AllLent, SameCells};
ghost use Rattle.xti_switch.specs.Calls.{goes_through_switch, AnswersThroughSwitch, IsSureThroughSwitch};

use crate::accept::accept;
use crate::bind::bind;
use crate::close::close;
use crate::connect::connect;
use crate::disconnect::snddis;
use crate::open::open;
use crate::unbind::unbind;
use std::alloc::AllocError;
use xti_lent::Lent;
use xti_model::{Applied, Call};

/// One step of t_open, t_close, t_bind, t_unbind, t_accept or t_snddis, or the first step of t_connect, on the cells that the call
/// touches: what it answers, and the state of its endpoint afterwards. None of them is ever blocked. Where memory runs out the cells are as before,
/// and room for more may have been taken.
#[inline(always)]
#[tactic(auto, unfolding(xti_model::specs::Step::step, xti_model::specs::Step::plan))]
pub fn switch_step(lent: &mut Lent, call: &Call) -> Result<Applied, AllocError>
    requires call { goes_through_switch call.now Go.Begin ≡ true }
    requires fit { IsFit lent.old }
    requires lent { AllLent lent.old (touched lent.old.providers (cells lent.old) call.now) }
    ensures step { IfOk result (AnswersThroughSwitch call.now lent.old lent.new) }
    ensures still { IfOk result (StaysBlocked lent.old lent.new) }
    ensures kept { SameCells lent.old lent.new }
    ensures err { OnErr result (IsUnchanged lent.old lent.new) }
    ensures sure { IsSureThroughSwitch call.now lent.old result }
{
    match call {
        Call::TOpen { prov, nonblock } => Ok(open(lent, *prov, *nonblock)),
        Call::TClose { fd } => close(lent, *fd),
        Call::TBind {
            fd,
            addr,
            qlen,
            amax,
        } => bind(lent, *fd, addr.as_slice(), *qlen, *amax),
        Call::TUnbind { fd } => Ok(unbind(lent, *fd)),
        Call::TConnect {
            fd,
            addr,
            opt,
            udata,
            ..
        } => connect(lent, *fd, addr.as_slice(), opt.as_slice(), udata.as_slice()),
        Call::TAccept {
            fd,
            resfd,
            seq,
            opt,
            udata,
        } => accept(lent, *fd, *resfd, *seq, opt.as_slice(), udata.as_slice()),
        Call::TSndDis { fd, seq, udata } => snddis(lent, *fd, *seq, udata.as_slice()),
        _ => unreachable!(),
    }
}
