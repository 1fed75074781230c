//! What refuses a send before its flow is looked at.

ghost use Rattle.std.specs.Prelude.{◌≡◌, ◌≤◌, true, length};
ghost use Rattle.std.specs.List.{concat};
ghost use Rattle.xti_base.specs.declared.limits.TheConstants.{MOST_SEND};
ghost use Rattle.xti_model.specs.Arguments as Arguments;
ghost use Rattle.xti_model.specs.Calls.Send as Send;
ghost use Rattle.xti_end.specs.Held as Held;
ghost use Rattle.xti_end.specs.Taken.{answered};
ghost use Rattle.xti_data.specs.Sends.{are_bad_parts, refusal_of};

use crate::limits::{is_expedited, is_over};
use crate::releasing::is_sending;
use xti_base::limits::{MOST_PARTS, MOST_SEND};
use xti_base::{Errno, Octets};
use xti_end::{Endpoint, has_connections, profile};
use xti_lent::total;
use xti_model::{Providers, Reply};

/// Whether there are too many parts, or too many bytes in them.
fn is_too_much(parts: &[Octets]) -> bool
    ensures { result ≡ Send.is_too_much (length parts.now) (concat parts.now) }
{
    parts.len() > MOST_PARTS || total(parts) > MOST_SEND
}

/// Whether the provider doesn't send the bytes of the parts, of which so many were taken before.
fn is_bad_data(p: &Providers, e: &Endpoint, parts: &[Octets], expedited: bool, taken: usize) -> bool
    requires open { Held.is_open e.now ≡ true }
    requires few { length (concat parts.now) ≤ MOST_SEND }
    ensures { result ≡ are_bad_parts p.now parts.now expedited taken (Held.parts e.now) }
{
    let len = total(parts);
    len == 0 && !profile(p, e.prov()).sendzero
        || is_over(p, e, expedited, len.saturating_sub(taken))
}

/// What refuses the send of the parts at the open endpoint, before its flow is looked at; so many of their bytes were taken before.
pub(crate) fn refusal(
    e: &Endpoint,
    p: &Providers,
    parts: &[Octets],
    flags: u32,
    taken: usize,
) -> Option<Reply>
    requires { Held.is_open e.now ≡ true }
    ensures { answered result ≡ refusal_of p.now parts.now flags taken e.now }
{
    let errno = if !has_connections(e.prov()) {
        Errno::TNOTSUPPORT
    } else if flags > 3 {
        Errno::TBADFLAG
    } else if !is_sending(e.state()) {
        Errno::TOUTSTATE
    } else if is_too_much(parts) || is_bad_data(p, e, parts, is_expedited(flags), taken) {
        Errno::TBADDATA
    } else {
        let event = e.event_before_data()?;
        return Some(Reply::Look { event });
    };
    Some(Reply::Refused { errno })
}
