//! Messages: their limits, their ends, and what of them was sent.

ghost use Rattle.std.specs.Prelude.{◌≡◌, ◌≤◌, true, false};
ghost use Rattle.xti_base.specs.declared.limits.TheConstants.{MOST_SEND};
ghost use Rattle.xti_model.specs.Arguments as Arguments;
ghost use Rattle.xti_model.specs.Sending as Sending;
ghost use Rattle.xti_end.specs.Held as Held;
ghost use Rattle.xti_data.specs.Portions.{count_after, passes_limit};

use xti_base::Limit;
use xti_base::limits::MOST_EXPEDITED_MESSAGE;
use xti_end::{Endpoint, is_stream, profile};
use xti_model::Providers;

/// Whether the flags have T_MORE.
pub(crate) fn has_more(flags: u32) -> bool
    ensures { result ≡ Arguments.has_more flags }
{
    flags % 2 == 1
}

/// Whether the flags have T_EXPEDITED.
pub(crate) fn is_expedited(flags: u32) -> bool
    ensures { result ≡ Arguments.is_expedited flags }
{
    flags / 2 % 2 == 1
}

/// The most bytes of one message of the kind; `None` where there is no limit.
pub(crate) fn message_limit(p: &Providers, e: &Endpoint, expedited: bool) -> Option<u32>
    requires { Held.is_open e.now ≡ true }
    ensures { result ≡ Sending.message_limit p.now (Held.parts e.now) expedited }
{
    if expedited {
        return Some(MOST_EXPEDITED_MESSAGE);
    }
    match profile(p, e.prov()).tsdu {
        Limit::At(bytes) if bytes > 0 => Some(bytes),
        _ => None,
    }
}

/// Whether messages of the kind have ends.
pub(crate) fn has_ends(p: &Providers, e: &Endpoint, expedited: bool) -> bool
    requires { Held.is_open e.now ≡ true }
    ensures { result ≡ Sending.has_ends p.now (Held.parts e.now) expedited }
{
    expedited || !is_stream(p, e.prov())
}

/// The bytes so far of the message of the kind whose end was not sent.
pub(crate) fn unfinished(e: &Endpoint, expedited: bool) -> u32
    requires { Held.is_open e.now ≡ true }
    ensures { result ≡ Sending.unfinished expedited (Held.parts e.now) }
{
    if expedited {
        e.unfinished_expedited()
    } else {
        e.unfinished_normal()
    }
}

/// Whether so many bytes more pass the limit of the message of the kind.
pub(crate) fn is_over(p: &Providers, e: &Endpoint, expedited: bool, more: usize) -> bool
    requires open { Held.is_open e.now ≡ true }
    requires few { more ≤ MOST_SEND }
    ensures { result ≡ passes_limit p.now expedited more (Held.parts e.now) }
{
    match message_limit(p, e, expedited) {
        Some(limit) => unfinished(e, expedited) as usize + more > limit as usize,
        None => false,
    }
}

/// How long the unfinished message of the kind is once so many bytes more were sent.
pub(crate) fn count_more(
    p: &Providers,
    e: &Endpoint,
    expedited: bool,
    ends: bool,
    more: usize,
) -> u32
    requires open { Held.is_open e.now ≡ true }
    requires within { passes_limit p.now expedited more (Held.parts e.now) ≡ false }
    ensures { result ≡ count_after p.now expedited ends more (Held.parts e.now) }
{
    match message_limit(p, e, expedited) {
        Some(_) if !ends => unfinished(e, expedited) + more as u32,
        _ => 0,
    }
}
