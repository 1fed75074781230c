//! t_look.

ghost use Rattle.std.specs.Prelude.{◌≡◌, ◌≤◌, ◌∷◌, [], ℕ, true, is_some, find};
ghost use Rattle.xti_model.specs.Calls.Show as Show;
ghost use Rattle.xti_model.specs.Events.{is_here, is_state, receiving};
ghost use Rattle.xti_model.specs.declared.entry.Go.{Go};
ghost use Rattle.xti_model.specs.World.{at_endpoint, place_of};
ghost use Rattle.xti_end.specs.Held.{is_open, parts, with_parts};
ghost use Rattle.xti_lent.specs.Answers.{AnswersCall, Changed, StaysBlocked};
ghost use Rattle.xti_lent.specs.Fit.{AtOwnPlaces, SameCells};
ghost use Rattle.xti_lent.specs.Lending.{cells, held_at};
ghost use Rattle.xti_lent.specs.Lends.{ChangesAt};
ghost use Rattle.xti_core.specs.Looks.{can_send_among, goes_again, is_pending_among, sight_among, shown};
ghost use Rattle.xti_core.specs.Looks.{events_among, events_by, number_where};

use crate::touching::bound;
use xti_base::{Errno, Event, Fd, State};
use xti_end::Endpoint;
use xti_lent::{Lent, done, is_ready, refused};
use xti_model::{Applied, Call, Providers, Reply};

/// The events in the order in which they are shown.
pub const EVENTS: [Event; 9] = [
    Event::T_DISCONNECT,
    Event::T_LISTEN,
    Event::T_CONNECT,
    Event::T_UDERR,
    Event::T_EXDATA,
    Event::T_DATA,
    Event::T_ORDREL,
    Event::T_GOEXDATA,
    Event::T_GODATA,
];

/// Whether an open endpoint receives data in its state.
fn is_receiving(e: &Endpoint) -> bool
    requires { is_open e.now ≡ true }
    ensures { result ≡ is_state receiving (parts e.now) }
{
    matches!(e.state(), State::T_DATAXFER | State::T_OUTREL)
}

/// Whether the event is there at an open endpoint, as far as that alone settles it.
fn is_here(e: &Endpoint, event: Event) -> bool
    requires { is_open e.now ≡ true }
    ensures { result ≡ is_here (parts e.now) event }
{
    match event {
        Event::T_DISCONNECT => e.has_disconnect(),
        Event::T_LISTEN => e.has_pending(),
        Event::T_CONNECT => e.state() == State::T_OUTCON && e.has_confirmation(),
        Event::T_UDERR => e.has_datagram_error(),
        Event::T_EXDATA => e.has_expedited() && is_receiving(e),
        Event::T_DATA => {
            (e.has_normal() && !e.mid_expedited() && is_receiving(e)) || e.has_datagram()
        }
        Event::T_ORDREL => {
            e.release().is_some() && !e.has_normal() && !e.has_expedited() && is_receiving(e)
        }
        Event::T_GOEXDATA | Event::T_GODATA => false,
    }
}

/// Whether the endpoint is linked, and its peer takes one more byte of the kind.
fn can_send_again(lent: &Lent, fd: Fd, e: &Endpoint, expedited: bool) -> bool
    requires own { AtOwnPlaces lent.now }
    requires open { is_open e.now ≡ true }
    ensures { result ≡ can_send_among lent.now fd.0 expedited (parts e.now) }
{
    match lent.linked(fd, e) {
        Some(peer) => is_ready(e, peer, expedited),
        None => false,
    }
}

/// Whether the endpoint has its datagram mark set, and the one that is bound there takes one more datagram.
fn goes_again(lent: &Lent, e: &Endpoint) -> bool
    requires own { AtOwnPlaces lent.now }
    requires open { is_open e.now ≡ true }
    ensures { (fd : ℕ) → result ≡ goes_again lent.now fd (parts e.now) }
{
    let Some(address) = e.flow_datagram() else {
        return false;
    };
    let Some(to) = bound(lent, e.prov(), address.as_slice()) else {
        return true;
    };
    match lent.open_endpoint(to) {
        Some(there) => there.takes_datagram(),
        None => true,
    }
}

/// Whether the event is there at an open endpoint among lent cells.
fn is_pending(lent: &Lent, fd: Fd, e: &Endpoint, event: Event) -> bool
    requires own { AtOwnPlaces lent.now }
    requires open { is_open e.now ≡ true }
    ensures { result ≡ is_pending_among lent.now fd.0 (parts e.now) event }
{
    match event {
        Event::T_GOEXDATA => e.flow_expedited() && can_send_again(lent, fd, e, true),
        Event::T_GODATA => {
            (e.flow_normal() && can_send_again(lent, fd, e, false)) || goes_again(lent, e)
        }
        _ => is_here(e, event),
    }
}

/// The first of these events that is pending at an open endpoint among lent cells.
fn first_pending(lent: &Lent, fd: Fd, e: &Endpoint, events: &[Event]) -> Option<Event>
    requires own { AtOwnPlaces lent.now }
    requires open { is_open e.now ≡ true }
    ensures { result ≡ find (is_pending_among lent.now fd.0 (parts e.now)) events.now }
{
    events
        .iter()
        .copied()
        .find(|event| is_pending(lent, fd, e, *event))
}

/// What an open endpoint shows: its state, and the first event that is pending, in the order of `t_look`.
#[derive(Clone, Copy, Debug, PartialEq, Eq)]
pub struct Sight {
    pub state: State,
    pub event: Option<Event>,
}

/// What the endpoint that is open with the descriptor shows, in the world of the cells that are lent, which are to be those that
/// a `t_look` of it touches; `None` where none is open. Unlike `t_look` it changes nothing. Takes no memory.
pub fn sight_of(lent: &Lent, fd: Fd) -> Option<Sight>
    requires { AtOwnPlaces lent.now }
    ensures { shown result ≡ sight_among lent.now fd.0 }
{
    let e = lent.open_endpoint(fd)?;
    Some(Sight {
        state: e.state(),
        event: first_pending(lent, fd, e, &EVENTS),
    })
}

/// The number of the event, if it is pending at an open endpoint among lent cells, else 0.
fn number_where(lent: &Lent, fd: Fd, e: &Endpoint, event: Event) -> u32
    requires own { AtOwnPlaces lent.now }
    requires open { is_open e.now ≡ true }
    ensures value { result ≡ number_where (is_pending_among lent.now fd.0 (parts e.now)) event }
    ensures small { result ≤ 512 }
{
    if is_pending(lent, fd, e, event) {
        event.number()
    } else {
        0
    }
}

/// The sum of the numbers of the events that are pending at an open endpoint among lent cells.
fn pending_events(lent: &Lent, fd: Fd, e: &Endpoint) -> u32
    requires own { AtOwnPlaces lent.now }
    requires open { is_open e.now ≡ true }
    ensures { result ≡ events_by lent.now.providers (cells lent.now) fd.0 (parts e.now) }
{
    let mut sum = 0;
    for event in &EVENTS {
        sum += number_where(lent, fd, e, *event);
    }
    sum
}

/// The sum of the numbers of all events that are pending at the endpoint that is open with the descriptor, in the world of the
/// cells that are lent, which are to be those that a `t_look` of it touches; `None` where none is open. It changes nothing, and
/// takes no memory.
pub fn events_of(lent: &Lent, fd: Fd) -> Option<u32>
    requires { AtOwnPlaces lent.now }
    ensures { result ≡ events_among lent.now fd.0 }
{
    let e = lent.open_endpoint(fd)?;
    Some(pending_events(lent, fd, e))
}

/// What showing the event makes of an open endpoint: a flow event clears its marks.
fn show_in(e: &mut Endpoint, event: Option<Event>)
    requires { is_open e.old ≡ true }
    ensures { e.new ≡ with_parts (Show.shown event) e.old }
{
    match event {
        Some(Event::T_GODATA) => {
            e.set_flow_normal(false);
            e.set_flow_datagram(None);
        }
        Some(Event::T_GOEXDATA) => e.set_flow_expedited(false),
        _ => {}
    }
}

/// The same of the endpoint with this descriptor, where it is open.
fn show_at(e: &mut Endpoint, p: &Providers, fd: Fd, event: Option<Event>)
    requires { e.old.place ≡ place_of p.now fd.0 }
    ensures cell { ChangesAt p.now fd.0 (Show.shown event) e.old e.new }
    ensures place { e.new.place ≡ e.old.place }
{
    if e.is(p, fd) {
        show_in(e, event);
    }
}

/// The same of a lent endpoint.
fn show(lent: &mut Lent, fd: Fd, event: Option<Event>)
    requires own { AtOwnPlaces lent.old }
    requires there { is_some (held_at lent.old (place_of lent.old.providers fd.0)) ≡ true }
    ensures cells { Changed (at_endpoint fd.0 (Show.shown event) ∷ []) lent.old lent.new }
    ensures kept { SameCells lent.old lent.new }
{
    let p = *lent.providers();
    show_at(lent.endpoint(p.place_of(fd)), &p, fd, event);
}

/// t_look: the first pending event; a flow event is then cleared. Takes no memory.
pub(crate) fn look(lent: &mut Lent, fd: Fd) -> Applied
    requires { AtOwnPlaces lent.old }
    ensures step { (g : Go) → AnswersCall (Call.TLookAt fd) g lent.old lent.new result }
    ensures still { StaysBlocked lent.old lent.new result }
    ensures kept { SameCells lent.old lent.new }
{
    let event = match lent.open_endpoint(fd) {
        None => return refused(lent, fd, Errno::TBADF),
        Some(e) => first_pending(lent, fd, e, &EVENTS),
    };
    show(lent, fd, event);
    done(lent, fd, Reply::Seen { event })
}
