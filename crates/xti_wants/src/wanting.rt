//! The want of a step.

ghost use Rattle.std.specs.Prelude.{◌≡◌, ◌<◌, ◌^◌, None, MatchOption};
ghost use Rattle.xti_model.specs.Wants.{want_of};
ghost use Rattle.xti_wants.specs.Wanted.{IsWant, IsMade};

use crate::want::{Want, WantKind};
use xti_base::Fd;
use xti_lent::total;
use xti_model::{Call, Go, Spot};

/// The number, where it has 32 bits.
fn low(n: usize) -> u32
    ensures { n < 2 ^ 32 → result ≡ n }
{
    (n % (1 << 32)) as u32
}

/// A want of these fields.
fn want(kind: WantKind, fd: Fd, left: usize, flags: u32, to: &[u8]) -> Want
    ensures { IsMade kind fd left flags to.now result }
{
    Want {
        kind,
        fd,
        left: low(left),
        flags,
        to: Spot::of(to),
    }
}

/// What a step of the call waits for, where it is blocked; `None` where the call has no such step. Takes no memory.
pub fn want_of(call: &Call, go: Go) -> Option<Want>
    ensures { MatchOption result (want_of call.now go ≡ None) (IsWant call.now go) }
{
    match call {
        Call::TConnect { fd, .. } => match go {
            Go::Begin => None,
            Go::More(_) => Some(want(WantKind::RcvConnect, *fd, 0, 0, &[])),
        },
        Call::TRcvConnect { fd, .. } => Some(want(WantKind::RcvConnect, *fd, 0, 0, &[])),
        Call::TListen { fd, .. } => Some(want(WantKind::Listen, *fd, 0, 0, &[])),
        Call::TSnd { fd, bytes, flags } => {
            let left = bytes
                .as_slice()
                .len()
                .saturating_sub(go.taken_before() as usize);
            Some(want(WantKind::Snd, *fd, left, *flags, &[]))
        }
        Call::TSndV { fd, parts, flags } => {
            let left = total(parts.as_slice()).saturating_sub(go.taken_before() as usize);
            Some(want(WantKind::Snd, *fd, left, *flags, &[]))
        }
        Call::TRcv { fd, .. } => Some(want(WantKind::Rcv, *fd, 0, 0, &[])),
        Call::TRcvV { fd, .. } => Some(want(WantKind::Rcv, *fd, 0, 0, &[])),
        Call::TSndUData {
            fd,
            addr,
            bytes,
            ..
        } => {
            let left = bytes.as_slice().len();
            Some(want(WantKind::SndUData, *fd, left, 0, addr.as_slice()))
        }
        Call::TSndVUData {
            fd,
            addr,
            parts,
            ..
        } => {
            let left = total(parts.as_slice());
            Some(want(WantKind::SndUData, *fd, left, 0, addr.as_slice()))
        }
        Call::TRcvUData { fd, .. } => Some(want(WantKind::RcvUData, *fd, 0, 0, &[])),
        Call::TRcvVUData { fd, .. } => Some(want(WantKind::RcvUData, *fd, 0, 0, &[])),
        _ => None,
    }
}
