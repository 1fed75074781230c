//! A place and the endpoint that is open there.

ghost use Rattle.std.specs.Prelude.{◌≡◌, ◌+◌, ◌<◌, None, false, true};
ghost use Rattle.xti_model.specs.Endpoint.{reset};
ghost use Rattle.xti_model.specs.Provider.{is_provider};
ghost use Rattle.xti_model.specs.World.{last_generation, place_of};
ghost use Rattle.xti_end.specs.Held.{is_open, is_open_as, with_opened, with_parts, IsMadeOf};
ghost use Rattle.xti_end.specs.Kept.{IsConfirmed, IsReleased};

use crate::parts::{Connection, Parts, Waiting};
use crate::providers::profile;
use std::alloc::Global;
use std::default::MadeWith;
use std::marker::Model;
use std::mem;
use xti_base::{Fd, Prov, State, write_over};
use xti_model::Providers;

/// A place, and the endpoint that is open there. Contracts see the place's cell, and how many more members each of its lists takes
/// with no memory.
pub struct Endpoint {
    pub(crate) alloc: Global,
    pub(crate) place: u32,
    pub(crate) generation: u32,
    pub(crate) body: Option<Parts>,
    pub(crate) waiting: Waiting,
    /// Memory, lent for a step, for the bytes that it receives. Contracts don't see it.
    pub(crate) room: Vec<u8>,
}

// Written out, so that a crate that lets one go proves a call of this, and nothing of what is in it.
impl Drop for Endpoint {
    fn drop(self) {
        let Endpoint {
            alloc: _,
            place: _,
            generation: _,
            body: _,
            waiting: _,
            room: _,
        } = self;
    }
}

impl Model for Endpoint {
    ghost use Rattle.xti_end.specs.Held.{Held, body_of};
    ghost use Rattle.xti_end.specs.Kept.{IsKept};

    ghost Value = { Held };

    ghost view = { λ e. record {
      place = e.place;
      generation = e.generation;
      body = body_of e.body e.waiting;
      spare_pending = e.waiting.pending.spare;
      spare_outstanding = e.waiting.outstanding.spare;
      spare_disconnects = e.waiting.disconnects.spare;
      spare_normal = e.waiting.normal.spare;
      spare_expedited = e.waiting.expedited.spare;
      spare_datagrams = e.waiting.datagrams.spare;
      spare_datagram_errors = e.waiting.datagram_errors.spare;
    } };

    ghost invariant = { λ e. IsKept e.generation e.body e.waiting };
}

impl MadeWith<Global> for Endpoint {
    ghost use Rattle.xti_end.specs.Held.{IsUnused};

    ghost is_made_with = { IsUnused 0 };

    fn made_with(alloc: Global) -> Endpoint {
        Endpoint::closed(alloc, 0)
    }
}

impl Endpoint {
    /// A place where no endpoint was open yet. Takes no memory.
    pub fn closed(alloc: Global, place: u32) -> Endpoint
        ensures place { result.place ≡ place }
        ensures generation { result.generation ≡ 0 }
        ensures body { result.body ≡ None }
    {
        Endpoint {
            alloc,
            place,
            generation: 0,
            body: None,
            waiting: Waiting::new(alloc),
            room: Vec::new(alloc),
        }
    }

    /// Lends memory for the bytes that the next step receives; none is taken for them where this is large enough.
    pub fn lend_room(&mut self, room: Vec<u8>)
        ensures { self.new ≡ self.old }
    {
        self.room = room;
    }

    /// What is left of the memory that was lent. Takes no memory.
    pub fn take_room(&mut self) -> Vec<u8>
        ensures { self.new ≡ self.old }
    {
        mem::replace(&mut self.room, Vec::new(self.alloc))
    }

    /// An endpoint opens at the closed place, which may not have been closed too often. Takes no memory.
    pub fn open(&mut self, prov: Prov, nonblock: bool, p: &Providers)
        requires closed { is_open self.old ≡ false }
        requires counted { self.old.generation < last_generation p.now }
        requires provider { is_provider prov ≡ true }
        ensures { self.new ≡ with_opened p.now prov nonblock self.old }
    {
        let profile = profile(p, prov);
        let parts = Parts {
            prov,
            nonblock,
            state: State::T_UNBND,
            address: None,
            qlen: 0,
            begun: false,
            flow_datagram: None,
            sndbuf: profile.sndbuf,
            rcvbuf: profile.rcvbuf,
            connection: Connection::none(),
        };
        write_over(&mut self.body, Some(parts));
    }

    /// Nothing of a connection of the open endpoint is left. Takes no memory.
    pub fn reset(&mut self)
        requires { is_open self.old ≡ true }
        ensures { self.new ≡ with_parts reset self.old }
    {
        self.waiting.disconnects.clear();
        self.waiting.normal.discard_stream();
        self.waiting.expedited.discard_stream();
        if let Some(parts) = &mut self.body {
            let last_number = parts.connection.last_number;
            write_over(&mut parts.connection, Connection::none());
            parts.connection.last_number = last_number;
            parts.flow_datagram = None;
        }
    }

    /// The open endpoint closes, and all that waits there is gone. Takes no memory.
    pub fn close(&mut self)
        requires { is_open self.old ≡ true }
        ensures { self.new ≡ record self.old { generation = self.old.generation + 1; body = None } }
    {
        self.generation += 1;
        write_over(&mut self.body, None);
        self.waiting.discard();
    }

    /// The parts of the open endpoint.
    pub(crate) fn open_parts(&self) -> &Parts
        requires { is_open self.now ≡ true }
        ensures parts { IsMadeOf self.now result.now }
        ensures confirmation { IsConfirmed result.now }
        ensures release { IsReleased result.now }
    {
        match &self.body {
            Some(parts) => parts,
            None => unreachable!(),
        }
    }

    /// The place.
    pub fn place(&self) -> u32
        ensures { result ≡ self.now.place }
    {
        self.place
    }

    /// Whether the endpoint is open with this descriptor, whose place is its own.
    pub fn is(&self, p: &Providers, fd: Fd) -> bool
        requires { place_of p.now fd.0 ≡ self.now.place }
        ensures { result ≡ is_open_as p.now fd.0 self.now }
    {
        self.body.is_some() && self.generation == p.generation_of(fd)
    }
}
