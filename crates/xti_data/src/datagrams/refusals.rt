//! What refuses a datagram before its flow is looked at.

ghost use Rattle.std.specs.Prelude.{◌≡◌, ◌^◌, ◌-◌, ℕ, true, min};
ghost use Rattle.std.specs.List.{concat};
ghost use Rattle.xti_model.specs.Calls.Datagrams.{is_over, is_bad_datagram};
ghost use Rattle.xti_end.specs.Held as Held;
ghost use Rattle.xti_end.specs.Taken.{answered};
ghost use Rattle.xti_data.specs.DatagramSends.{refusal_of};

use xti_base::limits::MOST_PARTS;
use xti_base::{Errno, Event, Limit, Octets, State};
use xti_end::{Endpoint, has_datagrams, profile};
use xti_lent::{is_bad_address, is_bad_options, total};
use xti_model::{Profile, Providers, Reply};

/// Whether so many bytes are over the limit, where those are counted up to the greatest number.
fn is_over(limit: Limit, n: usize) -> bool
    ensures { (bytes : ℕ) → n ≡ min bytes (2 ^ 64 - 1) → result ≡ is_over limit bytes }
{
    match limit {
        Limit::At(most) => n > most as usize,
        Limit::Infinite => false,
        Limit::Invalid => true,
    }
}

/// Whether the provider doesn't send the parts as one datagram.
fn is_bad_datagram(profile: &Profile, parts: &[Octets]) -> bool
    ensures { result ≡ is_bad_datagram profile.now (concat parts.now) }
{
    let n = total(parts);
    is_over(profile.tsdu, n) || (n == 0 && !profile.sendzero)
}

/// What refuses the datagram of an open endpoint, whoever is bound to the address.
pub(crate) fn refusal(
    e: &Endpoint,
    p: &Providers,
    address: &[u8],
    options: &[u8],
    parts: &[Octets],
) -> Option<Reply>
    requires { Held.is_open e.now ≡ true }
    ensures { answered result ≡ refusal_of p.now address.now options.now parts.now e.now }
{
    let errno = if !has_datagrams(e.prov()) {
        Errno::TNOTSUPPORT
    } else if !e.state().is(State::T_IDLE) {
        Errno::TOUTSTATE
    } else if is_bad_address(address) {
        Errno::TBADADDR
    } else if is_bad_options(options) {
        Errno::TBADOPT
    } else if parts.len() > MOST_PARTS || is_bad_datagram(profile(p, e.prov()), parts) {
        Errno::TBADDATA
    } else if e.has_datagram_error() {
        let event = Event::T_UDERR;
        return Some(Reply::Look { event });
    } else {
        return None;
    };
    Some(Reply::Refused { errno })
}
