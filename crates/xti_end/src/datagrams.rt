//! The datagrams that wait at an endpoint, and the errors of those that it sent.

ghost use Rattle.std.specs.Prelude.{◌≡◌, ◌≤◌, ◌<◌, ◌+◌, [], true, Some, length, map, max, IfSome, OnOk, OnErr};
ghost use Rattle.tpi_grammar.specs.declared.kind.Kind.TheVariants.{T_UNITDATA_IND, T_UDERROR_IND};
ghost use Rattle.tpi_prim.specs.Fields.{kind_in};
ghost use Rattle.xti_model.specs.Events.{some_wait};
ghost use Rattle.xti_model.specs.Sending.{takes_datagram};
ghost use Rattle.xti_queue.specs.Queue.{frames};
ghost use Rattle.xti_end.specs.Frames.{datagram_of, datagram_in, error_in, seen_as, AreDatagrams};
ghost use Rattle.xti_end.specs.Held.{is_open, parts, with_parts, datagrams_at, error_at, errors_at, without_error_at, AddsDatagram, AddsError, OnlyRoomForErrors};

use crate::endpoint::Endpoint;
use std::alloc::AllocError;
use tpi_prim::Frame;
use xti_base::limits::MOST_DATAGRAMS;
use xti_queue::ReadQueue;

impl Endpoint {
    /// The datagrams that wait, as T_UNITDATA_IND frames. Takes no memory.
    pub fn datagrams(&self) -> &ReadQueue
        ensures datagrams { map datagram_of (frames result.now) ≡ datagrams_at self.now.body }
        ensures kind { AreDatagrams result.now.pushed }
    {
        &self.waiting.datagrams
    }

    /// Whether a datagram waits at the open endpoint.
    pub fn has_datagram(&self) -> bool
        requires { is_open self.now ≡ true }
        ensures { result ≡ some_wait (parts self.now).datagrams }
    {
        self.waiting.datagrams.frames_len() != 0
    }

    /// Whether the provider takes one more datagram for the endpoint; as at a closed place, where a datagram is lost.
    pub fn takes_datagram(&self) -> bool
        ensures { result ≡ takes_datagram self.now.body }
    {
        self.waiting.datagrams.frames_len() < MOST_DATAGRAMS
    }

    /// Makes room for one more datagram; where memory runs out all is as before.
    pub fn reserve_datagrams(&mut self) -> Result<(), AllocError>
        ensures same { self.new ≡ record self.old { spare_datagrams = self.new.spare_datagrams } }
        ensures kept { self.old.spare_datagrams ≤ self.new.spare_datagrams }
        ensures spare { OnOk result (1 ≤ self.new.spare_datagrams) }
        ensures most { self.new.spare_datagrams ≤ max self.old.spare_datagrams 1 }
        ensures err { OnErr result (self.new ≡ self.old) }
    {
        self.waiting.datagrams.reserve(1)
    }

    /// Adds a datagram, a T_UNITDATA_IND for which there must be spare room. Takes no memory.
    pub fn push_datagram(&mut self, frame: Frame)
        requires open { is_open self.old ≡ true }
        requires room { 1 ≤ self.old.spare_datagrams }
        requires kind { kind_in frame ≡ T_UNITDATA_IND }
        ensures added { AddsDatagram (datagram_in frame) self.old self.new }
        ensures spare { self.old.spare_datagrams ≤ self.new.spare_datagrams + 1 }
    {
        self.waiting.datagrams.push(frame);
    }

    /// Whether the first datagram of the open endpoint was begun, so that its address and options are no longer told.
    pub fn begun(&self) -> bool
        requires { is_open self.now ≡ true }
        ensures { result ≡ (parts self.now).begun }
    {
        self.open_parts().begun
    }

    /// Sets whether the first datagram of the open endpoint was begun. Takes no memory.
    pub fn set_begun(&mut self, begun: bool)
        requires { is_open self.old ≡ true }
        ensures { self.new ≡ with_parts (λ e. record e { begun = begun }) self.old }
    {
        if let Some(parts) = &mut self.body {
            parts.begun = begun;
        }
    }

    /// The datagram error at a place, as a T_UDERROR_IND frame; `None` exactly past the end. Takes no memory.
    pub fn datagram_error(&self, place: usize) -> Option<&Frame>
        ensures error { seen_as error_in result ≡ error_at self.now place }
        ensures kind { IfSome result (λ frame. kind_in frame.now ≡ T_UDERROR_IND) }
    {
        self.waiting.datagram_errors.get(place)
    }

    /// Takes the datagram error at a place out, a T_UDERROR_IND frame; the others stay in their order. Takes no memory.
    pub fn take_datagram_error(&mut self, place: usize) -> Frame
        requires { place < length (errors_at self.old.body) }
        ensures error { Some (error_in result) ≡ error_at self.old place }
        ensures kind { kind_in result ≡ T_UDERROR_IND }
        ensures taken { self.new ≡ with_parts (without_error_at place) self.old }
    {
        self.waiting.datagram_errors.remove(place)
    }

    /// Takes all datagram errors out. Takes no memory.
    pub fn clear_datagram_errors(&mut self)
        ensures { self.new ≡ with_parts (λ e. record e { datagram_errors = [] }) self.old }
    {
        self.waiting.datagram_errors.clear();
    }

    /// Whether a datagram error waits.
    pub fn has_datagram_error(&self) -> bool
        requires { is_open self.now ≡ true }
        ensures { result ≡ some_wait (parts self.now).datagram_errors }
    {
        !self.waiting.datagram_errors.is_empty()
    }

    /// Makes room for one more datagram error; where memory runs out all is as before.
    pub fn reserve_datagram_errors(&mut self) -> Result<(), AllocError>
        ensures same { OnlyRoomForErrors self.old self.new }
        ensures kept { self.old.spare_datagram_errors ≤ self.new.spare_datagram_errors }
        ensures spare { OnOk result (1 ≤ self.new.spare_datagram_errors) }
        ensures most { self.new.spare_datagram_errors ≤ max self.old.spare_datagram_errors 1 }
        ensures err { OnErr result (self.new ≡ self.old) }
    {
        self.waiting.datagram_errors.reserve()
    }

    /// Adds a datagram error, a T_UDERROR_IND for which there must be spare room. Takes no memory.
    pub fn push_datagram_error(&mut self, frame: Frame)
        requires open { is_open self.old ≡ true }
        requires room { 1 ≤ self.old.spare_datagram_errors }
        requires kind { kind_in frame ≡ T_UDERROR_IND }
        ensures added { AddsError (error_in frame) self.old self.new }
        ensures spare { self.old.spare_datagram_errors ≤ self.new.spare_datagram_errors + 1 }
    {
        self.waiting.datagram_errors.push(frame);
    }
}
