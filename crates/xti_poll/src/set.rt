//! The set of pairs that is polled.

ghost use Rattle.std.specs.Prelude.{◌≡◌, ◌↔◌, ◌∷◌, ◌++◌, [], true, false, length, nat_le, MatchOption, OnErr, OnOk};
ghost use Rattle.std.specs.Prelude.{Err};
ghost use Rattle.xti_poll.specs.declared.set.PollFail.TheVariants.{BadEvents, Full};
ghost use Rattle.xti_poll.specs.Sets.{are_apart, are_events, has, is_full_for, with_pair, without, IsFirstOf};

use crate::asked::Asked;
use crate::bits::are_events;
use std::alloc::Global;
use std::marker::Model;
use thiserror::Error;
use xti_base::Fd;

/// How many descriptors a set has at most.
pub const MOST_POLLED: usize = 64;

/// Why a pair was not put into a set.
#[derive(Clone, Copy, Debug, PartialEq, Eq, Error)]
pub enum PollFail {
    /// The events are none, or have a bit that is no event's number.
    #[error("the events are none, or one has no number")]
    BadEvents,
    /// The set has as many other descriptors as it may have.
    #[error("the set is full")]
    Full,
    /// Memory ran out.
    #[error("out of memory")]
    OutOfMemory,
}

/// Descriptors, each with the events that are asked of it, in order. Contracts see the list of pairs.
#[derive(Debug, Drop)]
pub struct PollSet {
    pairs: Vec<Asked>,
}

impl Model for PollSet {
    ghost use Rattle.std.specs.Prelude.{◌≡◌, true, List};
    ghost use Rattle.xti_poll.specs.declared.asked.Asked.{Asked};
    ghost use Rattle.xti_poll.specs.Sets.{are_apart};

    ghost Value = { List Asked };

    ghost view = { λ s. s.pairs.items };

    ghost invariant = { λ s. are_apart s.pairs.items ≡ true };
}

/// The place of the pair of the descriptor.
fn place_of(pairs: &[Asked], fd: Fd) -> Option<usize>
    ensures { MatchOption result (has fd pairs.now ≡ false) (IsFirstOf fd pairs.now) }
{
    for place in 0..pairs.len() {
        if pairs[place].fd.0 == fd.0 {
            return Some(place);
        }
    }
    None
}

impl PollSet {
    /// A set without pairs. Takes no memory.
    pub fn new(alloc: Global) -> PollSet
        ensures { result ≡ [] }
    {
        PollSet {
            pairs: Vec::new(alloc),
        }
    }

    /// The pairs, in order, each of another descriptor. Takes no memory.
    pub fn pairs(&self) -> &[Asked]
        ensures pairs { result.now ≡ self.now }
        ensures apart { are_apart self.now ≡ true }
    {
        self.pairs.as_slice()
    }

    /// Puts a pair of another descriptor last.
    fn add(&mut self, asked: Asked) -> Result<(), PollFail>
        requires { has asked.fd self.old ≡ false }
        ensures added { OnOk result (self.new ≡ self.old ++ asked ∷ []) }
        ensures full { (result ≡ Err Full) ↔ (nat_le 64 (length self.old) ≡ true) }
        ensures other { result ≡ Err BadEvents → ⊥ }
        ensures err { OnErr result (self.new ≡ self.old) }
    {
        if self.pairs.len() >= MOST_POLLED {
            return Err(PollFail::Full);
        }
        match self.pairs.push(asked) {
            Ok(()) => Ok(()),
            Err(_) => Err(PollFail::OutOfMemory),
        }
    }

    /// Asks these events of the descriptor, and no others: the pair replaces one of the same descriptor in its place, or goes
    /// last. After an error the set is as before.
    pub fn set(&mut self, fd: Fd, events: u32) -> Result<(), PollFail>
        ensures set { OnOk result
            (self.new ≡ with_pair (record { fd = fd; events = events }) self.old) }
        ensures bad { (result ≡ Err BadEvents) ↔ (are_events events ≡ false) }
        ensures full { (result ≡ Err Full)
            ↔ ((are_events events ≡ true) × (is_full_for fd self.old ≡ true)) }
        ensures err { OnErr result (self.new ≡ self.old) }
    {
        if !are_events(events) {
            return Err(PollFail::BadEvents);
        }
        let asked = Asked { fd, events };
        match place_of(self.pairs.as_slice(), fd) {
            Some(place) => {
                self.pairs[place] = asked;
                Ok(())
            }
            None => self.add(asked),
        }
    }

    /// Takes the pair of the descriptor out; `false` exactly where there is none. Takes no memory.
    pub fn drop_fd(&mut self, fd: Fd) -> bool
        ensures left { self.new ≡ without fd self.old }
        ensures there { result ≡ has fd self.old }
    {
        match place_of(self.pairs.as_slice(), fd) {
            Some(place) => {
                self.pairs.remove(place);
                true
            }
            None => false,
        }
    }
}
