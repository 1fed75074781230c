//! The world for one thread.

ghost use Rattle.std.specs.Prelude.{◌≡◌, true, false, None, IfOk, OnErr};
ghost use Rattle.xti_model.specs.Profile.{valid};
ghost use Rattle.xti_model.specs.World.{opening};
ghost use Rattle.xti_end.specs.Taken.{taken};
ghost use Rattle.xti_core.specs.Looks.{events_in, shown, sight_in};
ghost use Rattle.xti_core.specs.Standing.{IsStep, IsSureAt};
ghost use Rattle.xti_core.specs.Waits.{IsBlocked};
ghost use Rattle.xti_core.specs.Written.{StayUnmade, StepsTo};

use crate::applying::{apply, apply_into};
use crate::looking::{Sight, events_of, sight_of};
use crate::waiting::waits;
use std::alloc::{AllocError, Global};
use std::marker::Model;
use xti_base::{Fd, State, let_go};
use xti_end::Endpoint;
use xti_lent::Lent;
use xti_model::{Applied, Call, Go, Outcome, Providers};
use xti_registry::Registry;

/// All cells, for one thread: contracts see the providers, and the cells by rising number.
#[derive(Drop)]
pub struct World {
    /// All cells stay lent to the steps of the one thread, the endpoints in the order of their places, so that no step has to move one.
    lent: Lent,
}

impl Model for World {
    ghost use Rattle.xti_lent.specs.Lending.{cells};
    ghost use Rattle.xti_core.specs.Standing.{Standing, IsStanding};

    ghost Value = { Standing };

    ghost view = { λ w. record { providers = w.lent.providers; cells = cells w.lent } };

    ghost invariant = { λ w. IsStanding w.lent };
}

impl World {
    /// The opening world of the providers.
    pub fn fresh(alloc: Global, p: &Providers) -> Result<World, AllocError>
        requires { valid p.now ≡ true }
        ensures { IfOk result (λ w. w ≡ record { providers = p.now; cells = opening p.now }) }
    {
        let registry = Box::new(alloc, Registry::fresh(alloc, p)?)?;
        let mut lent = Lent::new(alloc, p);
        for place in 0..p.places() {
            let closed = match Box::new(alloc, Endpoint::closed(alloc, place)) {
                Ok(closed) => closed,
                Err(failed) => {
                    let_go(failed);
                    let_go(registry);
                    let_go(lent);
                    return Err(AllocError);
                }
            };
            lent.lend(place, closed);
        }
        lent.lend_registry(registry);
        Ok(World { lent })
    }

    /// One step of a call: what it answers, and the state of its endpoint afterwards. Where it is blocked, and where it
    /// runs out of memory, all is as before. The cost is in proportion to the touched cells and to the bytes that move.
    ///
    /// A step that is refused, blocked, or not ready with O_NONBLOCK can't run out of memory; nor can t_open, t_unbind, t_look,
    /// t_getstate, t_sync, t_getinfo and the mode, and t_close of an endpoint that has no peer and takes part in no request.
    ///
    /// The cells are fit for the step, as those of every world that `worlds_stay_sound` speaks of; the world stays one of these.
    #[inline(always)]
    pub fn step(&mut self, call: &Call, go: Go) -> Result<Applied, AllocError>
        ensures step { IfOk result (IsStep call.now go self.old self.new) }
        ensures still { IfOk result (λ a. taken a self.new.cells ≡ None → self.new ≡ self.old) }
        ensures providers { self.new.providers ≡ self.old.providers }
        ensures err { OnErr result (self.new ≡ self.old) }
        ensures sure { IsSureAt self.old call.now go result }
    {
        apply(&mut self.lent, call, go)
    }

    /// The same step, whose outcome and state are written where the caller keeps them, which costs less than to move them there.
    /// Whether a step was made; where it is blocked, and where it runs out of memory, both are as before too.
    #[inline(always)]
    pub fn step_into(
        &mut self,
        call: &Call,
        go: Go,
        outcome: &mut Outcome,
        after: &mut State,
    ) -> Result<bool, AllocError>
        ensures step { IfOk result (StepsTo call.now go self.old self.new outcome.new after.new) }
        ensures still { IfOk result (λ made. made ≡ false → self.new ≡ self.old) }
        ensures places { StayUnmade result outcome.old outcome.new after.old after.new }
        ensures providers { self.new.providers ≡ self.old.providers }
        ensures err { OnErr result (self.new ≡ self.old) }
        ensures sure { IsSureAt self.old call.now go result }
    {
        apply_into(&mut self.lent, call, go, outcome, after)
    }

    /// Whether the call is seen to be blocked, for less than its step costs: only t_rcvudata is. `false` says nothing.
    #[inline(always)]
    pub fn waits(&self, call: &Call) -> bool
        ensures { result ≡ true → IsBlocked self.now.providers self.now.cells call.now }
    {
        waits(&self.lent, call)
    }

    /// What the endpoint that is open with the descriptor shows; `None` where none is open. Unlike `t_look` it changes nothing.
    /// Takes no memory.
    pub fn sight(&self, fd: Fd) -> Option<Sight>
        ensures { shown result ≡ sight_in self.now.providers self.now.cells fd.0 }
    {
        sight_of(&self.lent, fd)
    }

    /// The sum of the numbers of the events that are pending at the endpoint that is open with the descriptor, whether or not a
    /// `t_look` would show them first; `None` where none is open. It changes nothing, and takes no memory.
    pub fn events(&self, fd: Fd) -> Option<u32>
        ensures { result ≡ events_in self.now.providers self.now.cells fd.0 }
    {
        events_of(&self.lent, fd)
    }
}
