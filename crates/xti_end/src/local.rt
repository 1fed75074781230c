//! The calls that touch one cell.

ghost use Rattle.std.specs.Prelude.{◌≡◌, false, IsOk, OnErr};
ghost use Rattle.xti_model.specs.Memory.{may_run_out};
ghost use Rattle.xti_model.specs.Step.{step};
ghost use Rattle.xti_end.specs.Held.{alone, SameRoom};
ghost use Rattle.xti_end.specs.Taken.{IsAt, Makes, StillBlocked};

use crate::endpoint::Endpoint;
use crate::negotiating::Request;
use crate::receiving::Sizes;
use std::alloc::AllocError;
use xti_model::{Applied, Call, Go, Providers};

impl Endpoint {
    /// One step of a call that touches this cell alone, as t_connect does once it has asked: what it answers, and the state of
    /// its endpoint afterwards. Where it is blocked, and where memory runs out, all is as before.
    #[inline(always)]
    #[tactic(auto, unfolding(xti_model::specs::Step::step, xti_model::specs::Step::plan))]
    pub fn local(&mut self, call: &Call, _go: Go, p: &Providers) -> Result<Applied, AllocError>
        requires { IsAt p.now self.old.place call.now _go }
        ensures step { Makes (step p.now (alone self.old) call.now _go) self.new result }
        ensures still { StillBlocked self.old self.new result }
        ensures room { SameRoom self.old self.new }
        ensures err { OnErr result (self.new ≡ self.old) }
        ensures sure { may_run_out p.now (alone self.old) call.now _go ≡ false → IsOk result }
    {
        let shown = match call {
            Call::TListen {
                fd,
                amax,
                omax,
                umax,
            } => return self.listen(p, *fd, *amax, *omax, *umax),
            Call::TRcvConnect {
                fd,
                amax,
                omax,
                umax,
            }
            | Call::TConnect {
                fd,
                amax,
                omax,
                umax,
                ..
            } => return self.rcvconnect(p, *fd, *amax, *omax, *umax),
            Call::TRcv { fd, max } => return self.rcv(p, *fd, Sizes::one(*max)),
            Call::TRcvV { fd, sizes } => return self.rcvv(p, *fd, sizes.as_slice()),
            Call::TRcvDis { fd, umax } => return self.rcvdis(p, *fd, *umax),
            Call::TRcvRel { fd } => self.rcvrel(p, *fd),
            Call::TRcvRelData { fd, umax } => return self.rcvreldata(p, *fd, *umax),
            Call::TRcvUData {
                fd,
                max,
                amax,
                omax,
            } => return self.rcvudata(p, *fd, Sizes::one(*max), *amax, *omax),
            Call::TRcvVUData {
                fd,
                sizes,
                amax,
                omax,
            } => return self.rcvvudata(p, *fd, sizes.as_slice(), *amax, *omax),
            Call::TRcvUDErr { fd, amax, omax } => return self.rcvuderr(p, *fd, *amax, *omax),
            Call::TGetState { fd } | Call::TSync { fd } => self.getstate(p, *fd),
            Call::TGetInfo { fd } => self.getinfo(p, *fd),
            Call::TGetProtAddr { fd, amax, pmax } => return self.getprotaddr(p, *fd, *amax, *pmax),
            Call::TOptMgmt {
                fd,
                action,
                opt,
                omax,
            } => {
                let asked = Request {
                    action: *action,
                    options: opt.as_slice(),
                };
                return self.optmgmt(p, *fd, asked, *omax);
            }
            Call::SetMode { fd, nonblock } => self.set_mode(p, *fd, *nonblock),
            _ => unreachable!(),
        };
        Ok(shown)
    }
}
