//! t_snd and t_sndv.

ghost use Rattle.std.specs.Prelude.{◌≡◌, ◌≤◌, ◌==◌, ◌||◌, length, true, IfOk, IfSome, OnOk, OnErr};
ghost use Rattle.std.specs.List.{concat};
ghost use Rattle.xti_base.specs.declared.limits.TheConstants.{MOST_SEND};
ghost use Rattle.xti_end.specs.Held as Held;
ghost use Rattle.xti_lent.specs.Answers.{IsSureBy, MakesBy, StaysBlocked};
ghost use Rattle.xti_lent.specs.Fit.{AtOwnPlaces, IsFit, SameCells};
ghost use Rattle.xti_lent.specs.Lends.{IsHeld};
ghost use Rattle.xti_data.specs.Portions.{Gives, IsOfParts, IsWithin, Pushes};
ghost use Rattle.xti_data.specs.Reach.{CanReach};
ghost use Rattle.xti_data.specs.Sends.{outcome_of, sender, sending, told, RefusesFlow};

use crate::limits::is_expedited;
use crate::portions::{Portion, indication, next_portion};
use crate::refusals::refusal;
use crate::writes::{count_sent, mark_flow, push_data};
use std::alloc::AllocError;
use xti_base::{Errno, Fd, Octets, let_go};
use xti_end::Endpoint;
use xti_lent::{Lent, done, refused, room, total, with_outcome};
use xti_model::{Applied, Go, Outcome, Reply};

/// What a step answers that is refused so: a later one how many bytes were taken before.
fn told(go: Go, reply: Reply) -> Reply
    ensures { result ≡ told go reply }
{
    match go {
        Go::Begin => reply,
        Go::More(n) => {
            let_go(reply);
            Reply::Sent { n }
        }
    }
}

/// Whether the send is done once so many bytes were taken: all of them, or what there was room for where it doesn't wait.
fn is_done(e: &Endpoint, parts: &[Octets], taken: usize) -> bool
    requires open { Held.is_open e.now ≡ true }
    requires few { length (concat parts.now) ≤ MOST_SEND }
    ensures { result ≡ ((taken == length (concat parts.now)) || (Held.parts e.now).nonblock) }
{
    taken == total(parts) || e.nonblock()
}

/// What a step comes to that isn't refused.
fn outcome(is_done: bool, taken: u32) -> Outcome
    ensures { result ≡ outcome_of is_done taken }
{
    if is_done {
        Outcome::Done(Reply::Sent { n: taken })
    } else {
        Outcome::Part { taken }
    }
}

/// The portion waits at the peer, where there is one that is open and names the sender; where memory runs out all is as before.
fn push(
    lent: &mut Lent,
    fd: Fd,
    peer: Option<Fd>,
    parts: &[Octets],
    portion: Portion,
) -> Result<(), AllocError>
    requires own { AtOwnPlaces lent.old }
    requires peer { IfSome peer (λ peer. IsHeld lent.old peer.0) }
    requires parts { IsOfParts parts.now portion }
    ensures ok { OnOk result (Pushes lent.old lent.new fd.0 peer parts.now portion) }
    ensures kept { SameCells lent.old lent.new }
    ensures err { OnErr result (lent.new ≡ lent.old) }
{
    let Some(peer) = peer else {
        return Ok(());
    };
    if portion.count == 0 && !portion.ends {
        return Ok(());
    }
    let frame = indication(lent.alloc(), parts, portion)?;
    push_data(lent, peer, fd, portion.expedited, frame)
}

/// The portion waits at the linked peer, and the sender counts it; where memory runs out all is as before.
fn give(
    lent: &mut Lent,
    fd: Fd,
    peer: Option<Fd>,
    parts: &[Octets],
    portion: Portion,
) -> Result<(), AllocError>
    requires own { AtOwnPlaces lent.old }
    requires sender { IsHeld lent.old fd.0 }
    requires peer { IfSome peer (λ peer. IsHeld lent.old peer.0) }
    requires within { IfSome (sender lent.old fd.0) (IsWithin lent.old.providers portion) }
    requires parts { IsOfParts parts.now portion }
    ensures ok { OnOk result (Gives lent.old lent.new fd.0 peer parts.now portion) }
    ensures kept { SameCells lent.old lent.new }
    ensures err { OnErr result (lent.new ≡ lent.old) }
{
    push(lent, fd, peer, parts, portion)?;
    count_sent(lent, fd, portion);
    Ok(())
}

/// The endpoint waits to send data where the send begins, and is told that there is no room; a later step, how many bytes were taken.
fn refuse_flow(lent: &mut Lent, fd: Fd, flags: u32, go: Go) -> Applied
    requires own { AtOwnPlaces lent.old }
    requires there { IsHeld lent.old fd.0 }
    ensures step { RefusesFlow fd.0 flags go lent.old lent.new result }
    ensures kept { SameCells lent.old lent.new }
{
    match go {
        Go::Begin => {
            mark_flow(lent, fd, is_expedited(flags));
            refused(lent, fd, Errno::TFLOW)
        }
        Go::More(n) => done(lent, fd, Reply::Sent { n }),
    }
}

/// t_snd of one part, or t_sndv of any.
pub(crate) fn send(
    lent: &mut Lent,
    fd: Fd,
    parts: &[Octets],
    flags: u32,
    go: Go,
) -> Result<Applied, AllocError>
    requires fit { IsFit lent.old }
    requires reach { CanReach lent.old fd.0 }
    ensures step { MakesBy (sending lent.old fd.0 parts.now flags go) lent.old lent.new result }
    ensures still { IfOk result (StaysBlocked lent.old lent.new) }
    ensures kept { SameCells lent.old lent.new }
    ensures err { OnErr result (lent.new ≡ lent.old) }
    ensures sure { IsSureBy (sending lent.old fd.0 parts.now flags go) result }
{
    let Some(e) = lent.open_endpoint(fd) else {
        let errno = Errno::TBADF;
        return Ok(done(lent, fd, told(go, Reply::Refused { errno })));
    };
    let before = go.taken_before() as usize;
    if let Some(reply) = refusal(e, lent.providers(), parts, flags, before) {
        return Ok(done(lent, fd, told(go, reply)));
    }
    let peer = e.peer();
    match room(e, lent.linked_with(fd, peer), is_expedited(flags)) {
        Some(room) => {
            let portion = next_portion(lent.providers(), e, parts, flags, before, room);
            let taken = before + portion.count;
            let is_done = is_done(e, parts, taken);
            give(lent, fd, peer, parts, portion)?;
            Ok(with_outcome(lent, fd, outcome(is_done, taken as u32)))
        }
        None if e.nonblock() => Ok(refuse_flow(lent, fd, flags, go)),
        None => Ok(Applied::Blocked),
    }
}
