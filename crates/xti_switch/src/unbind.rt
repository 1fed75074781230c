//! t_unbind.

ghost use Rattle.std.specs.Prelude.{◌≡◌, true, is_some};
ghost use Rattle.xti_base.specs.Kinds.{same_state};
ghost use Rattle.xti_base.specs.declared.kinds.State.TheVariants.{T_IDLE};
ghost use Rattle.xti_model.specs.declared.entry.Reply.TheVariants.{Plain};
ghost use Rattle.xti_model.specs.Events.{looked, looks_unbind};
ghost use Rattle.xti_model.specs.Calls.Bind as Bind;
ghost use Rattle.xti_end.specs.Held.{is_open, parts, with_parts};
ghost use Rattle.xti_lent.specs.Answers.{AnswersBy, IsDoneAfter, StaysBlocked};
ghost use Rattle.xti_lent.specs.Fit.{IsFit, SameCells};
ghost use Rattle.xti_switch.specs.Taken.{giving_up_address, unbinding, IsOpen};

use xti_base::{Errno, Event, Fd, State};
use xti_end::Endpoint;
use xti_lent::{Lent, done, refused};
use xti_model::{Applied, Reply};

pub(crate) fn unbind(lent: &mut Lent, fd: Fd) -> Applied
    requires fit { IsFit lent.old }
    requires switch { is_some lent.old.registry ≡ true }
    ensures step { AnswersBy (giving_up_address lent.old fd.0) lent.old lent.new result }
    ensures still { StaysBlocked lent.old lent.new result }
    ensures kept { SameCells lent.old lent.new }
{
    let event = match lent.open_endpoint(fd) {
        None => return refused(lent, fd, Errno::TBADF),
        Some(e) => {
            if !e.state().is(State::T_IDLE) {
                return refused(lent, fd, Errno::TOUTSTATE);
            }
            looked(e)
        }
    };
    match event {
        Some(event) => done(lent, fd, Reply::Look { event }),
        None => unbind_open(lent, fd),
    }
}

/// The event that keeps the endpoint bound, which is in T_IDLE.
fn looked(e: &Endpoint) -> Option<Event>
    requires open { is_open e.now ≡ true }
    requires idle { same_state (parts e.now).state T_IDLE ≡ true }
    ensures { result ≡ looked looks_unbind (parts e.now) }
{
    if e.has_pending() {
        Some(Event::T_LISTEN)
    } else if e.has_datagram() {
        Some(Event::T_DATA)
    } else {
        None
    }
}

/// The open endpoint has no address any more, nor errors or marks.
fn unbind_endpoint(e: &mut Endpoint)
    requires { is_open e.old ≡ true }
    ensures { e.new ≡ with_parts Bind.unbound e.old }
{
    e.set_state(State::T_UNBND);
    e.set_address(None);
    e.set_qlen(0);
    e.clear_datagram_errors();
    e.set_flow_normal(false);
    e.set_flow_expedited(false);
    e.set_flow_datagram(None);
}

/// The open endpoint's address is given up.
fn unbind_open(lent: &mut Lent, fd: Fd) -> Applied
    requires fit { IsFit lent.old }
    requires switch { is_some lent.old.registry ≡ true }
    requires open { IsOpen lent.old fd.0 }
    ensures step { IsDoneAfter (unbinding fd.0) lent.old lent.new fd.0 Plain result }
    ensures kept { SameCells lent.old lent.new }
{
    lent.registry().remove(fd);
    let place = lent.place_of(fd);
    unbind_endpoint(lent.endpoint(place));
    done(lent, fd, Reply::Plain)
}
