//! A source and a sink in memory that never fail.

ghost use Rattle.std.specs.Prelude.{◌≡◌, ◌<◌, ◌≤◌, ℕ, List, Option, Some, Ok, [], IfOk, IsOk, length, min, take, drop};
ghost use Rattle.xti_io.specs.Faults.{HasCause};
ghost use Rattle.xti_io.specs.Source.{Reads};
ghost use Rattle.xti_io.specs.Sink.{Writes};

use crate::sink::Sink;
use crate::source::{Failed, Source};
use std::alloc::{AllocError, Global};
use std::marker::Model;
use xti_base::Octets;

/// A source that gives these bytes and never fails. Contracts see the bytes that are left.
#[derive(Drop)]
pub struct SureSource {
    bytes: Octets,
    place: usize,
}

impl Model for SureSource {
    ghost use Rattle.std.specs.Prelude.{◌≤◌, ℕ, List, drop, length};

    ghost Value = { List ℕ };

    ghost view = { λ s. drop s.place s.bytes };

    ghost invariant = { λ s. s.place ≤ length s.bytes };
}

impl SureSource {
    /// A source of these bytes.
    pub fn new(bytes: Octets) -> SureSource
        ensures { result ≡ bytes }
    {
        SureSource { bytes, place: 0 }
    }

    // Gives the next bytes, at most so many, in the start of the buffer.
    pub(crate) fn give(&mut self, buf: &mut [u8], most: usize) -> usize
        ensures count { result ≡ min most (min (length buf.old) (length self.old)) }
        ensures bytes { take result buf.new ≡ take result self.old }
        ensures rest { self.new ≡ drop result self.old }
    {
        let (_, rest) = self.bytes.as_slice().split_at(self.place);
        let count = most.min(buf.len().min(rest.len()));
        let (front, _) = rest.split_at(count);
        let (target, _) = buf.split_at_mut(count);
        target.copy_from_slice(front);
        self.place += count;
        count
    }
}

impl Source for SureSource {
    ghost left = { λ s. Some s };

    ghost faults = { λ s. 0 };

    /// Fills the whole buffer while enough bytes are left. Never fails.
    fn read(&mut self, buf: &mut [u8]) -> Result<usize, Failed>
        requires { 0 < length buf.old }
        ensures bytes { Reads (Some self.old) (Some self.new) result buf.new }
        ensures cause { HasCause 0 0 result }
        ensures sure { IsOk result }
        ensures count { IfOk result (λ n. n ≡ min (length buf.old) (length self.old)) }
    {
        let most = buf.len();
        Ok(self.give(buf, most))
    }
}

/// A sink that keeps the first `room` bytes and never fails.
///
/// It takes all bytes, and tells what it holds while that is all that was written.
#[derive(Drop)]
pub struct SureSink {
    bytes: Vec<u8>,
    room: usize,
    whole: bool,
}

impl Model for SureSink {
    ghost use Rattle.std.specs.Prelude.{◌≤◌, vec_len, vec_capacity};
    ghost use Rattle.xti_io.specs.Sure.{Kept};

    ghost Value = { Kept };

    ghost view = { λ s. record { bytes = s.bytes.items; room = s.room; whole = s.whole } };

    ghost invariant = { λ s. (vec_len s.bytes ≤ s.room) × (s.room ≤ vec_capacity s.bytes) };
}

impl SureSink {
    ghost use Rattle.xti_io.specs.Sure.{empty, keeping};

    /// A sink that keeps the first `room` bytes; takes its room now, and no memory later.
    pub fn new(alloc: Global, room: usize) -> Result<SureSink, AllocError>
        ensures { IfOk result (λ s. s ≡ empty room) }
    {
        Ok(SureSink {
            bytes: Vec::with_capacity(alloc, room)?,
            room,
            whole: true,
        })
    }

    /// The bytes that it keeps.
    pub fn held(&self) -> &[u8]
        ensures bytes { result.now ≡ self.now.bytes }
        ensures bound { length self.now.bytes ≤ self.now.room }
    {
        self.bytes.as_slice()
    }

    // Keeps of the piece what there is room for.
    pub(crate) fn keep(&mut self, piece: &[u8])
        ensures { self.new ≡ keeping self.old piece.now }
    {
        let spare = self.room - self.bytes.len();
        let count = piece.len().min(spare);
        let (front, _) = piece.split_at(count);
        self.bytes.extend_from_slice(front).unwrap();
        self.whole = self.whole && piece.len() <= spare;
    }
}

impl Sink for SureSink {
    ghost use Rattle.xti_io.specs.Sure.{told, keeping};

    ghost held = { told };

    ghost faults = { λ s. 0 };

    /// Takes all of the piece, and keeps of it what there is room for. Never fails.
    fn write(&mut self, piece: &[u8]) -> Result<usize, Failed>
        requires { 0 < length piece.now }
        ensures bytes { Writes (told self.old) (told self.new) result piece.now }
        ensures cause { HasCause 0 0 result }
        ensures kept { self.new ≡ keeping self.old piece.now }
        ensures sure { result ≡ Ok (length piece.now) }
    {
        self.keep(piece);
        Ok(piece.len())
    }
}
