//! Reading primitives from bytes that come in pieces.

ghost use Rattle.std.specs.Prelude.{◌≡◌, ◌≤◌, length, None, [], IsOk, MatchResult};
ghost use Rattle.tpi_grammar.specs.Form.{short};
ghost use Rattle.tpi_grammar.specs.Measured.{MeansFrame};
ghost use Rattle.tpi_prim.specs.Reading.{Feeds, IsFrontOf, IsStop};

use crate::decoding::{Decoded, decode};
use crate::prims::Prims;
use bytes::BytesMut;
use std::alloc::{AllocError, Global};
use std::marker::Model;
use thiserror::Error;

/// Why a piece gives no primitives.
#[derive(Debug, Drop, Clone, Copy, PartialEq, Eq, Error)]
pub enum FeedFail {
    /// The bytes fed can't go on as frames: `at` is the least place, counted from the first byte ever fed, such that the
    /// bytes up to and with it begin no frames; from 2^64 - 1 on it is 2^64 - 1.
    #[error("no frame has the byte at {at}")]
    Bad { at: u64 },
    /// Memory ran out.
    #[error("out of memory")]
    OutOfMemory,
}

impl From<AllocError> for FeedFail {
    ghost use Rattle.std.specs.Prelude.{◌≡◌};
    ghost use Rattle.tpi_prim.specs.declared.reading.FeedFail.TheVariants.{OutOfMemory};

    ghost from_gives = { λ _ e. e ≡ OutOfMemory };

    fn from(_error: AllocError) -> FeedFail {
        FeedFail::OutOfMemory
    }
}

/// A reader that is fed bytes in pieces and gives the primitives that they complete.
#[derive(Drop)]
pub struct FrameReader {
    alloc: Global,
    passed: u64,
    rest: BytesMut,
    wrong: Option<u64>,
}

impl Model for FrameReader {
    ghost use Rattle.tpi_grammar.specs.Form.{short};
    ghost use Rattle.tpi_grammar.specs.Measured.{MeansFrame};
    ghost use Rattle.tpi_prim.specs.Fed.{Fed};

    ghost Value = { Fed };

    ghost view = { λ r. record { passed = r.passed; rest = r.rest.items; wrong = r.wrong } };

    ghost invariant = { λ r. MeansFrame r.rest.items short };
}

impl FrameReader {
    /// A reader that was fed nothing. Takes no memory.
    pub fn new(alloc: Global) -> FrameReader
        ensures { result ≡ record { passed = 0; rest = []; wrong = None } }
    {
        FrameReader {
            alloc,
            passed: 0,
            rest: BytesMut::new(alloc),
            wrong: None,
        }
    }

    /// Feeds a piece, and gives the primitives that it completes. After `Bad` each feed answers the same; where memory runs out
    /// the reader is as before. A piece of no bytes takes no memory.
    pub fn feed(&mut self, piece: &[u8]) -> Result<Prims, FeedFail>
        ensures fed { Feeds self.old self.new piece.now result }
        ensures sure { self.old.wrong ≡ None → piece.now ≡ [] → IsOk result }
    {
        let passed = self.passed;
        if let Some(at) = self.wrong {
            return Err(FeedFail::Bad { at });
        }
        if piece.is_empty() {
            return Ok(Prims::new(self.alloc));
        }
        let held = self.rest.len();
        self.rest.extend_from_slice(piece)?;
        match read_frames(self.alloc, self.rest.as_slice()) {
            Ok(Front { prims, used }) => {
                self.rest.advance(used);
                self.passed = passed.saturating_add(used as u64);
                Ok(prims)
            }
            Err(Stop::Bad(place)) => {
                self.rest.clear();
                let at = passed.saturating_add(place as u64);
                self.wrong = Some(at);
                Err(FeedFail::Bad { at })
            }
            Err(Stop::OutOfMemory) => {
                self.rest.truncate(held);
                Err(FeedFail::OutOfMemory)
            }
        }
    }

    /// How many bytes after the frames that were given are kept: a proper prefix of a frame.
    pub fn rest(&self) -> usize
        ensures len { result ≡ length self.now.rest }
        ensures short { MeansFrame self.now.rest short }
    {
        self.rest.len()
    }
}

/// The primitives at the start of bytes, and how long their frames are.
#[derive(Drop)]
struct Front {
    prims: Prims,
    used: usize,
}

/// Why the rest isn't read.
#[derive(Clone, Copy)]
enum Stop {
    Bad(usize),
    OutOfMemory,
}

impl From<AllocError> for Stop {
    ghost use Rattle.std.specs.Prelude.{◌≡◌};
    ghost use Rattle.tpi_prim.specs.declared.reading.Stop.TheVariants.{OutOfMemory};

    ghost from_gives = { λ _ e. e ≡ OutOfMemory };

    fn from(_error: AllocError) -> Stop {
        Stop::OutOfMemory
    }
}

/// Reads frames one after the other, up to one that isn't whole.
fn read_frames(alloc: Global, bytes: &[u8]) -> Result<Front, Stop>
    ensures { MatchResult result (IsFrontOf bytes.now) (IsStop bytes.now) }
{
    let mut prims = Prims::new(alloc);
    let mut used = 0;
    loop {
        match decode(alloc, &bytes[used..]) {
            Decoded::Value { prim, used: more } => {
                prims.push(prim)?;
                used += more;
            }
            Decoded::Short => return Ok(Front { prims, used }),
            Decoded::Bad { at } => return Err(Stop::Bad(used + at)),
            Decoded::OutOfMemory => return Err(Stop::OutOfMemory),
        }
    }
}
