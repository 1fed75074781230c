//! Polls.

ghost use Rattle.std.specs.Prelude.{◌≡◌, ◌≤◌, ◌+◌, ◌++◌, length, map, vec_capacity, vec_len, IfOk, OnErr};
ghost use Rattle.xti_hall.specs.Words.{IsSameSeat};
ghost use Rattle.xti_gather.specs.Glances.{IsSameLater};
ghost use Rattle.xti_poll.specs.Polls.{all_found_after, first_found};
ghost use Rattle.xti_poll.specs.Sums.{all_pending_after, all_told, told_of};

use crate::asked::Asked;
use crate::bits::first_in_both;
use crate::found::Found;
use crate::set::PollSet;
use std::alloc::{AllocError, Global};
use std::sync::Wait;
use xti_base::Fd;
use xti_calls::Caller;

/// What is told of one pair, where these events are pending at its descriptor, or no endpoint is open with it.
fn told(asked: Asked, pending: Option<u32>) -> Found
    ensures { result ≡ told_of asked pending }
{
    let fd = asked.fd;
    let Some(pending) = pending else {
        return Found::Gone { fd };
    };
    match first_in_both(pending, asked.events) {
        Some(event) => Found::Event { fd, event },
        None => Found::None,
    }
}

/// The descriptors of the pairs.
fn descriptors(alloc: Global, pairs: &[Asked]) -> Result<Vec<Fd>, AllocError>
    ensures { IfOk result (λ fds. fds.items ≡ map (λ a. a.fd) pairs.now) }
{
    let mut fds = Vec::with_capacity(alloc, pairs.len())?;
    for asked in pairs {
        fds.push_reserved(asked.fd);
    }
    Ok(fds)
}

/// The first of what is told of the pairs that is something.
fn first_told(pairs: &[Asked], pending: &[Option<u32>]) -> Found
    requires { length pending.now ≡ length pairs.now }
    ensures { result ≡ first_found (all_told pairs.now pending.now) }
{
    for place in 0..pairs.len() {
        let found = told(pairs[place], pending[place]);
        if !found.is_none() {
            return found;
        }
    }
    Found::None
}

/// Adds what is told of each pair, for which there is room.
fn add_told(finds: &mut Vec<Found>, pairs: &[Asked], pending: &[Option<u32>])
    requires many { length pending.now ≡ length pairs.now }
    requires room { vec_len finds.old + length pairs.now ≤ vec_capacity finds.old }
    ensures { finds.new.items ≡ finds.old.items ++ all_told pairs.now pending.now }
{
    for place in 0..pairs.len() {
        finds.push_reserved(told(pairs[place], pending[place]));
    }
}

impl PollSet {
    /// All events that are pending at each pair's descriptor, all at one point of the history.
    fn survey<R: Wait>(&self, caller: &mut Caller<R>) -> Result<Vec<Option<u32>>, AllocError>
        ensures seat { IsSameSeat caller.old caller.new }
        ensures same { IsSameLater caller.old.view caller.new.view }
        ensures refused { caller.new.view.refused ≡ caller.old.view.refused }
        ensures pending { IfOk result
            (λ pending. pending.items ≡ all_pending_after caller.new.view self.now) }
        ensures err { OnErr result (caller.new ≡ caller.old) }
    {
        let fds = descriptors(caller.alloc(), self.pairs())?;
        let pending = caller.survey(fds.as_slice());
        drop(fds);
        pending
    }

    /// The first pair, in the set's order, at whose descriptor an event is pending that is asked of it, or with whose descriptor
    /// no endpoint is open. All is told of one point of the history, which is all that the caller has then seen.
    ///
    /// It doesn't wait for an event. It makes no entry and clears no event, so a second poll finds the same where nothing was
    /// made in between, and a caller may poll while a call of its own is unfinished. The error says that memory ran out; then all
    /// is as before.
    pub fn poll<R: Wait>(&self, caller: &mut Caller<R>) -> Result<Found, AllocError>
        ensures seat { IsSameSeat caller.old caller.new }
        ensures same { IsSameLater caller.old.view caller.new.view }
        ensures refused { caller.new.view.refused ≡ caller.old.view.refused }
        ensures found { IfOk result
            (λ found. found ≡ first_found (all_found_after caller.new.view self.now)) }
        ensures err { OnErr result (caller.new ≡ caller.old) }
    {
        let pending = self.survey(caller)?;
        let found = first_told(self.pairs(), pending.as_slice());
        drop(pending);
        Ok(found)
    }

    /// What is found of each pair, in the set's order, all at one point of the history, as `poll`.
    pub fn poll_all<R: Wait>(&self, caller: &mut Caller<R>) -> Result<Vec<Found>, AllocError>
        ensures seat { IsSameSeat caller.old caller.new }
        ensures same { IsSameLater caller.old.view caller.new.view }
        ensures refused { caller.new.view.refused ≡ caller.old.view.refused }
        ensures found { IfOk result
            (λ finds. finds.items ≡ all_found_after caller.new.view self.now) }
        ensures err { OnErr result (caller.new ≡ caller.old) }
    {
        let mut finds = Vec::with_capacity(caller.alloc(), self.pairs().len())?;
        let pending = self.survey(caller)?;
        add_told(&mut finds, self.pairs(), pending.as_slice());
        drop(pending);
        Ok(finds)
    }
}
