//! A source and a sink in memory that move a few bytes at a time and fail at chosen calls.

ghost use Rattle.std.specs.Prelude.{◌≡◌, ◌<◌, ◌≤◌, ◌-◌, ◌^◌, Some, IfOk, is_err, length, false};
ghost use Rattle.xti_io.specs.Faults.{HasCause};
ghost use Rattle.xti_io.specs.Source.{Reads};
ghost use Rattle.xti_io.specs.Sink.{Writes};
ghost use Rattle.xti_io.specs.Sure.{told};
ghost use Rattle.xti_io.specs.Turns.{is_listed, fails_now};

use crate::sink::Sink;
use crate::source::{Failed, Source};
use crate::sure::{SureSink, SureSource};
use crate::turns::Turns;
use std::alloc::{AllocError, Global};
use std::marker::Model;
use xti_base::{Calls, Octets};

/// A source that gives these bytes, a few at a time, and fails at chosen calls.
#[derive(Drop)]
pub struct MemSource {
    source: SureSource,
    piece: usize,
    turns: Turns,
}

impl Model for MemSource {
    ghost use Rattle.std.specs.Prelude.{◌<◌};
    ghost use Rattle.xti_io.specs.Memory.{Giving};

    ghost Value = { Giving };

    ghost view = { λ s. record { left = s.source; piece = s.piece; turns = s.turns } };

    ghost invariant = { λ s. 0 < s.piece };
}

impl MemSource {
    ghost use Rattle.xti_io.specs.Memory.{giving};

    /// A source of these bytes that gives at most `piece` of them in a read, at least 1, and fails at exactly the calls
    /// whose numbers, from 0, are listed. The last number, 2 ^ 64 - 1, can't be listed (`is_listed` tells).
    pub fn new(bytes: Octets, piece: u32, fails: Calls) -> MemSource
        requires piece { 1 ≤ piece }
        requires fails { is_listed (2 ^ 64 - 1) fails ≡ false }
        ensures { result ≡ giving bytes piece fails }
    {
        MemSource {
            source: SureSource::new(bytes),
            piece: piece as usize,
            turns: Turns::new(fails),
        }
    }
}

impl Source for MemSource {
    ghost use Rattle.xti_io.specs.Memory.{read_count, after_read};

    ghost left = { λ s. Some s.left };

    ghost faults = { λ s. s.turns.faults };

    /// Fails where the call's number is listed; takes no memory.
    fn read(&mut self, buf: &mut [u8]) -> Result<usize, Failed>
        requires { 0 < length buf.old }
        ensures bytes { Reads (Some self.old.left) (Some self.new.left) result buf.new }
        ensures cause { HasCause self.old.turns.faults self.new.turns.faults result }
        ensures fails { is_err result ≡ fails_now self.old.turns }
        ensures count { IfOk result (λ n. n ≡ read_count self.old (length buf.old)) }
        ensures after { self.new ≡ after_read self.old (length buf.old) }
        ensures few { self.new.turns.faults < 2 ^ 64 - 1 }
    {
        if self.turns.turn() {
            return Err(Failed);
        }
        Ok(self.source.give(buf, self.piece))
    }
}

/// A sink that takes a few bytes at a time, keeps the first `room` bytes, and fails at chosen calls.
#[derive(Drop)]
pub struct MemSink {
    sink: SureSink,
    piece: usize,
    turns: Turns,
}

impl Model for MemSink {
    ghost use Rattle.std.specs.Prelude.{◌<◌};
    ghost use Rattle.xti_io.specs.Memory.{Taking};

    ghost Value = { Taking };

    ghost view = { λ s. record { kept = s.sink; piece = s.piece; turns = s.turns } };

    ghost invariant = { λ s. 0 < s.piece };
}

impl MemSink {
    ghost use Rattle.xti_io.specs.Memory.{taking};

    /// A sink that takes at most `piece` bytes in a write, at least 1, and fails at exactly the calls whose numbers,
    /// from 0, are listed. The last number, 2 ^ 64 - 1, can't be listed (`is_listed` tells). It takes its room now, and
    /// no memory later.
    pub fn new(alloc: Global, room: usize, piece: u32, fails: Calls) -> Result<MemSink, AllocError>
        requires piece { 1 ≤ piece }
        requires fails { is_listed (2 ^ 64 - 1) fails ≡ false }
        ensures { IfOk result (λ s. s ≡ taking room piece fails) }
    {
        Ok(MemSink {
            sink: SureSink::new(alloc, room)?,
            piece: piece as usize,
            turns: Turns::new(fails),
        })
    }

    /// The bytes that it keeps.
    pub fn held(&self) -> &[u8]
        ensures bytes { result.now ≡ self.now.kept.bytes }
        ensures bound { length self.now.kept.bytes ≤ self.now.kept.room }
    {
        self.sink.held()
    }
}

impl Sink for MemSink {
    ghost use Rattle.xti_io.specs.Memory.{write_count, after_write};

    ghost held = { λ s. told s.kept };

    ghost faults = { λ s. s.turns.faults };

    /// Fails where the call's number is listed; takes no memory.
    fn write(&mut self, piece: &[u8]) -> Result<usize, Failed>
        requires { 0 < length piece.now }
        ensures bytes { Writes (told self.old.kept) (told self.new.kept) result piece.now }
        ensures cause { HasCause self.old.turns.faults self.new.turns.faults result }
        ensures fails { is_err result ≡ fails_now self.old.turns }
        ensures count { IfOk result (λ n. n ≡ write_count self.old piece.now) }
        ensures after { self.new ≡ after_write self.old piece.now }
        ensures few { self.new.turns.faults < 2 ^ 64 - 1 }
    {
        if self.turns.turn() {
            return Err(Failed);
        }
        let count = self.piece.min(piece.len());
        let (front, _) = piece.split_at(count);
        self.sink.keep(front);
        Ok(count)
    }
}
