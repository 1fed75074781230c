//! What single words stand for: names, truth values and limits.

ghost use Rattle.std.specs.Prelude.{◌≡◌};
ghost use Rattle.xti_journal.specs.Values.{truth_in, limit_in, service_in, states, state_among, state_in, events, event_among, event_in, event_or_none_in, errnos, errno_among, errno_in};

use xti_base::{Errno, Event, Limit, ServType, State};
use xti_words::number_in;

/// A truth value, 1 or 0.
#[tactic(auto, unfolding(crate::specs::Values::truth_in))]
pub fn truth_in(word: &[u8]) -> Option<bool>
    ensures { result ≡ truth_in word.now }
{
    if word == b"1".as_slice() {
        Some(true)
    } else if word == b"0".as_slice() {
        Some(false)
    } else {
        None
    }
}

/// A limit: a number, -1 for none, -2 for what isn't offered.
#[tactic(auto, unfolding(crate::specs::Values::limit_in))]
pub fn limit_in(word: &[u8]) -> Option<Limit>
    ensures { result ≡ limit_in word.now }
{
    if word == b"-1".as_slice() {
        Some(Limit::Infinite)
    } else if word == b"-2".as_slice() {
        Some(Limit::Invalid)
    } else {
        Some(Limit::At(number_in(word)?))
    }
}

/// The service type with this number.
#[tactic(auto, unfolding(crate::specs::Values::service_in))]
pub fn service_in(word: &[u8]) -> Option<ServType>
    ensures { result ≡ service_in word.now }
{
    if word == b"1".as_slice() {
        Some(ServType::T_COTS)
    } else if word == b"2".as_slice() {
        Some(ServType::T_COTS_ORD)
    } else if word == b"3".as_slice() {
        Some(ServType::T_CLTS)
    } else {
        None
    }
}

/// All states.
#[tactic(auto, unfolding(crate::specs::Values::states))]
fn states() -> &'static [State]
    ensures { result.now ≡ states }
{
    &[
        State::T_IDLE,
        State::T_DATAXFER,
        State::T_UNINIT,
        State::T_UNBND,
        State::T_OUTCON,
        State::T_INCON,
        State::T_OUTREL,
        State::T_INREL,
    ]
}

/// The first of these states that has the name.
fn state_among(word: &[u8], states: &[State]) -> Option<State>
    ensures { result ≡ state_among word.now states.now }
{
    match states {
        [] => None,
        [state, others @ ..] => {
            if word == state.name().as_bytes() {
                Some(*state)
            } else {
                state_among(word, others)
            }
        }
    }
}

/// The state with this name.
pub fn state_in(word: &[u8]) -> Option<State>
    ensures { result ≡ state_in word.now }
{
    state_among(word, states())
}

/// All events.
#[tactic(auto, unfolding(crate::specs::Values::events))]
fn events() -> &'static [Event]
    ensures { result.now ≡ events }
{
    &[
        Event::T_LISTEN,
        Event::T_CONNECT,
        Event::T_DATA,
        Event::T_EXDATA,
        Event::T_DISCONNECT,
        Event::T_UDERR,
        Event::T_ORDREL,
        Event::T_GODATA,
        Event::T_GOEXDATA,
    ]
}

/// The first of these events that has the name.
fn event_among(word: &[u8], events: &[Event]) -> Option<Event>
    ensures { result ≡ event_among word.now events.now }
{
    match events {
        [] => None,
        [event, others @ ..] => {
            if word == event.name().as_bytes() {
                Some(*event)
            } else {
                event_among(word, others)
            }
        }
    }
}

/// The event with this name.
pub fn event_in(word: &[u8]) -> Option<Event>
    ensures { result ≡ event_in word.now }
{
    event_among(word, events())
}

/// The event with this name, or `None` for 0.
#[tactic(auto, unfolding(crate::specs::Values::event_or_none_in))]
pub fn event_or_none_in(word: &[u8]) -> Option<Option<Event>>
    ensures { result ≡ event_or_none_in word.now }
{
    if word == b"0".as_slice() {
        return Some(None);
    }
    Some(Some(event_in(word)?))
}

/// All errors but TLOOK and TBUFOVFLW.
#[tactic(auto, unfolding(crate::specs::Values::errnos))]
fn errnos() -> &'static [Errno]
    ensures { result.now ≡ errnos }
{
    &[
        Errno::TBADADDR,
        Errno::TBADOPT,
        Errno::TACCES,
        Errno::TBADF,
        Errno::TNOADDR,
        Errno::TOUTSTATE,
        Errno::TBADSEQ,
        Errno::TSYSERR,
        Errno::TBADDATA,
        Errno::TFLOW,
        Errno::TNODATA,
        Errno::TNODIS,
        Errno::TNOUDERR,
        Errno::TBADFLAG,
        Errno::TNOREL,
        Errno::TNOTSUPPORT,
        Errno::TSTATECHNG,
        Errno::TNOSTRUCTYPE,
        Errno::TBADNAME,
        Errno::TBADQLEN,
        Errno::TADDRBUSY,
        Errno::TINDOUT,
        Errno::TPROVMISMATCH,
        Errno::TRESQLEN,
        Errno::TRESADDR,
        Errno::TQFULL,
        Errno::TPROTO,
    ]
}

/// The first of these errors that has the name.
fn errno_among(word: &[u8], errnos: &[Errno]) -> Option<Errno>
    ensures { result ≡ errno_among word.now errnos.now }
{
    match errnos {
        [] => None,
        [errno, others @ ..] => {
            if word == errno.name().as_bytes() {
                Some(*errno)
            } else {
                errno_among(word, others)
            }
        }
    }
}

/// The error with this name that stands alone: neither TLOOK nor TBUFOVFLW.
pub fn errno_in(word: &[u8]) -> Option<Errno>
    ensures { result ≡ errno_in word.now }
{
    errno_among(word, errnos())
}
