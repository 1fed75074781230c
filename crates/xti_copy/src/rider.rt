//! One who makes calls of XTI on one thread.

ghost use Rattle.std.specs.Prelude.{◌≡◌, [], length, true, IfOk, OnErr};
ghost use Rattle.xti_model.specs.Profile.{valid};
ghost use Rattle.xti_sock.specs.Sights.{IsStanding};
ghost use Rattle.xti_copy.specs.Rides.{IsAt, Steps, is_done, sight_of};

use crate::preparing::prepared;
use std::alloc::{AllocError, Global};
use std::marker::Model;
use std::sync::Wait;
use xti_base::let_go;
use xti_core::World;
use xti_model::{Applied, Call, Entries, Entry, Go, Outcome, Providers, Reply, calls_send_bytes};
use xti_sock::{CallEnd, Caller};

/// Whether the call is done.
fn is_done(outcome: &Outcome) -> bool
    ensures { result ≡ is_done outcome.now }
{
    matches!(outcome, Outcome::Done(_))
}

/// One who makes calls of XTI on one thread, number 0, alone in a world of its own; it keeps all entries. Contracts see
/// the providers, the entries, and whether no call is unfinished.
#[derive(Drop)]
pub struct Rider {
    world: World,
    entries: Vec<Entry>,
    free: bool,
}

impl Model for Rider {
    ghost use Rattle.xti_copy.specs.Rides.{Ride, IsRiding, ride};

    ghost Value = { Ride };

    ghost view = { λ r. ride r.world.providers r.entries.items r.free };

    ghost invariant = { λ r. IsRiding r.world r.entries.items r.free };
}

impl Rider {
    /// A rider of the providers, without entries.
    pub fn new(alloc: Global, p: &Providers) -> Result<Rider, AllocError>
        requires { valid p.now ≡ true }
        ensures providers { IfOk result (λ r. r.providers ≡ p.now) }
        ensures entries { IfOk result (λ r. r.entries ≡ []) }
        ensures free { IfOk result (λ r. r.free ≡ true) }
    {
        Ok(Rider {
            world: World::fresh(alloc, p)?,
            entries: Vec::new(alloc),
            free: true,
        })
    }

    /// All entries. Takes no memory.
    pub fn into_entries(self) -> Entries
        ensures { result ≡ self.entries }
    {
        let Rider { world, entries, .. } = self;
        let_go(world);
        Entries::from_vec(entries)
    }

    /// How many entries there are.
    fn count(&self) -> u64
        ensures { result ≡ length self.now.entries }
    {
        self.entries.len() as u64
    }

    /// The next step of a call, and its entry. Where it is blocked, and where memory runs out, all is as before.
    fn step(&mut self, alloc: Global, call: &Call, go: Go) -> Result<Applied, AllocError>
        requires { IsAt self.old call.now go }
        ensures steps { IfOk result (Steps self.old call.now go self.new) }
        ensures err { OnErr result (self.new ≡ self.old) }
        ensures standing { IsStanding (sight_of self.new) }
    {
        calls_send_bytes(call);
        let (act, spare) = prepared(alloc, &mut self.entries, call, go)?;
        match self.world.step(call, go) {
            Err(error) => {
                let_go(act);
                let_go(spare);
                Err(error)
            }
            Ok(Applied::Blocked) => {
                let_go(act);
                let_go(spare);
                Ok(Applied::Blocked)
            }
            Ok(Applied::Step { outcome, after }) => {
                self.entries.push_reserved(Entry {
                    worker: 0,
                    act,
                    outcome: spare.copy(&outcome),
                    after,
                });
                self.free = is_done(&outcome);
                Ok(Applied::Step { outcome, after })
            }
        }
    }
}

impl Caller for Rider {
    ghost use Rattle.xti_copy.specs.Rides.{sight_of};

    ghost sight = { λ r. sight_of r };

    fn call<R: Wait + Sync>(
        &mut self,
        _rt: &R,
        alloc: Global,
        made: &Call,
    ) -> Result<Reply, CallEnd> {
        prove!(self.free);
        let mut go = Go::Begin;
        loop {
            match self.step(alloc, made, go) {
                Err(_) => {
                    return Err(CallEnd::OutOfMemory {
                        taken: go.taken_before(),
                    });
                }
                Ok(Applied::Blocked) => {
                    return Err(CallEnd::Stalled {
                        taken: go.taken_before(),
                        at: self.count(),
                    });
                }
                Ok(Applied::Step { outcome, .. }) => match outcome {
                    Outcome::Done(reply) => return Ok(reply),
                    Outcome::Part { taken } => go = Go::More(taken),
                },
            }
        }
    }

    fn free(&self) -> bool {
        self.free
    }
}
