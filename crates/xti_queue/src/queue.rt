//! The queue that an endpoint keeps.

ghost use Rattle.std.specs.Prelude.{◌≡◌, ◌≤◌, ◌<◌, ◌+◌, ◌-◌, ◌++◌, [], ◌∷◌, ℕ, List, true, length, drop, max, slice_get, vec_capacity, IfOk, IsOk, OnOk, OnErr};
ghost use Rattle.std.specs.Option.{option_copied, option_map};
ghost use Rattle.tpi_prim.specs.Primitive.{kind_of, user_of};
ghost use Rattle.tpi_prim.specs.Fields.{kind_in, primitive_in};
ghost use Rattle.xti_model.specs.Symbols as waiting;
ghost use Rattle.xti_queue.specs.Indications.{can_wait, symbols_of, left_behind};
ghost use Rattle.xti_queue.specs.Front.{AreLastOf};
ghost use Rattle.xti_queue.specs.Queue.{frames, symbols, StoodFirst};

use crate::front::{ends, rest_of, take_piece};
use std::alloc::{AllocError, Global};
use std::collections::VecDeque;
use std::marker::Model;
use tpi_grammar::MOST_DATA;
use tpi_prim::{Frame, Kind};
use xti_base::Octets;

/// The most symbols of one frame: the bytes of its user data, and an end.
const MOST_SYMBOLS: usize = MOST_DATA as usize + 1;

/// Encoded T_DATA_IND, T_EXDATA_IND and T_UNITDATA_IND that wait to be received, seen as a list of symbols: their bytes, and an
/// end after each frame whose MORE_flag is 0 and after each datagram.
#[derive(Drop)]
pub struct ReadQueue {
    alloc: Global,
    held: VecDeque<Frame>,
    taken: usize,
    bytes: usize,
    ends: usize,
    spare: usize,
}

impl Model for ReadQueue {
    ghost use Rattle.std.specs.VecDeque.{deque_capacity};
    ghost use Rattle.xti_queue.specs.Queue.{Queue};
    ghost use Rattle.xti_queue.specs.Kept.{IsKept};

    ghost Value = { Queue };

    ghost view = { λ q. record { pushed = q.held.items; taken = q.taken; spare = q.spare } };

    ghost invariant = { λ q. IsKept q.held.items q.taken q.bytes q.ends q.spare (deque_capacity q.held) };
}

/// Bytes of one message, and whether the message ended after them.
#[derive(Drop)]
pub struct Piece {
    pub bytes: Octets,
    pub ended: bool,
}

impl ReadQueue {
    /// The empty queue. Takes no memory.
    pub fn new(alloc: Global) -> ReadQueue
        ensures pushed { result.pushed ≡ [] }
        ensures frames { frames result ≡ [] }
        ensures symbols { symbols result ≡ [] }
    {
        ReadQueue {
            alloc,
            held: VecDeque::new(alloc),
            taken: 0,
            bytes: 0,
            ends: 0,
            spare: 0,
        }
    }

    /// Makes room for `n` more frames; where memory runs out the queue is as before.
    pub fn reserve(&mut self, n: usize) -> Result<(), AllocError>
        ensures pushed { self.new.pushed ≡ self.old.pushed }
        ensures taken { self.new.taken ≡ self.old.taken }
        ensures kept { self.old.spare ≤ self.new.spare }
        ensures spare { OnOk result (n ≤ self.new.spare) }
        ensures most { self.new.spare ≤ max self.old.spare n }
        ensures err { OnErr result (self.new ≡ self.old) }
    {
        if n <= self.spare {
            return Ok(());
        }
        if n > (usize::MAX - self.bytes - self.ends) / MOST_SYMBOLS {
            return Err(AllocError);
        }
        self.held.reserve(n)?;
        self.spare = n;
        Ok(())
    }

    /// Adds a data indication at the end, for which there must be spare room. Takes no memory.
    pub fn push(&mut self, frame: Frame)
        requires room { 1 ≤ self.old.spare }
        requires kind { can_wait (kind_in frame) ≡ true }
        ensures pushed { self.new.pushed ≡ self.old.pushed ++ frame ∷ [] }
        ensures frames { frames self.new ≡ frames self.old ++ primitive_in frame ∷ [] }
        ensures symbols { symbols self.new ≡ symbols self.old ++ symbols_of (primitive_in frame) }
        ensures spare { self.old.spare ≤ self.new.spare + 1 }
    {
        self.bytes += rest_of(&frame, 0).len();
        self.ends += usize::from(ends(&frame));
        self.spare -= 1;
        self.held.push_back_reserved(frame);
    }

    /// Takes the longest run of bytes at the start, at most `max`, that passes no end of a message, and the end where it comes right
    /// after the run. Of a datagram the rest stays. Where memory runs out the queue is as before. The cost is in proportion to the
    /// bytes taken and the frames passed. The bytes stand in the caller's `room` where it is large enough for them, which is then
    /// empty; no memory is taken then.
    pub fn take(&mut self, max: usize, room: &mut Vec<u8>) -> Result<Piece, AllocError>
        ensures bytes { IfOk result (λ p. p.bytes ≡ waiting.front max (symbols self.old)) }
        ensures ended { IfOk result (λ p. p.ended ≡ waiting.ended max (symbols self.old)) }
        ensures rest { OnOk result (symbols self.new ≡ waiting.rest max (symbols self.old)) }
        ensures moved { IfOk result (λ p. StoodFirst p.bytes p.ended self.old self.new) }
        ensures frames { OnOk result (frames self.new ≡ left_behind max (frames self.old)) }
        ensures pushed { AreLastOf self.old.pushed self.new.pushed }
        ensures spare { self.new.spare ≡ self.old.spare }
        ensures sure { max ≤ vec_capacity room.old → IsOk result }
        ensures err { OnErr result (self.new ≡ self.old) }
    {
        let piece = take_piece(self.alloc, &mut self.held, &mut self.taken, max, room)?;
        self.bytes -= piece.bytes.as_slice().len();
        self.ends -= usize::from(piece.ended);
        Ok(piece)
    }

    /// Takes the first frame out, also where a part of it was taken before. Takes no memory.
    pub fn drop_front(&mut self)
        ensures pushed { self.new.pushed ≡ drop 1 self.old.pushed }
        ensures frames { frames self.new ≡ drop 1 (frames self.old) }
        ensures spare { self.new.spare ≡ self.old.spare }
    {
        let Some(frame) = self.held.pop_front() else {
            return;
        };
        self.bytes -= rest_of(&frame, self.taken).len();
        self.ends -= usize::from(ends(&frame));
        self.taken = 0;
    }

    /// Takes all frames out. Takes no memory.
    pub fn discard_stream(&mut self)
        ensures pushed { self.new.pushed ≡ [] }
        ensures frames { frames self.new ≡ [] }
        ensures symbols { symbols self.new ≡ [] }
        ensures spare { self.new.spare ≡ self.old.spare }
    {
        self.held.clear();
        self.taken = 0;
        self.bytes = 0;
        self.ends = 0;
    }

    /// The first frame as it was pushed, also where a part of it was taken; `None` exactly where the queue is empty. Takes no memory.
    pub fn front(&self) -> Option<&Frame>
        ensures { option_copied result ≡ slice_get self.now.pushed 0 }
    {
        self.held.front()
    }

    /// What is left of the first frame's user data; `None` exactly where the queue is empty. Takes no memory.
    pub fn front_rest(&self) -> Option<&[u8]>
        ensures { option_copied result ≡ option_map user_of (slice_get (frames self.now) 0) }
    {
        let frame = self.held.front()?;
        Some(rest_of(frame, self.taken))
    }

    /// How many frames wait.
    pub fn frames_len(&self) -> usize
        ensures pushed { result ≡ length self.now.pushed }
        ensures frames { result ≡ length (frames self.now) }
    {
        self.held.len()
    }

    /// How many bytes wait.
    pub fn bytes_len(&self) -> usize
        ensures { result ≡ waiting.bytes_waiting (symbols self.now) }
    {
        self.bytes
    }

    /// How many ends of messages wait.
    pub fn ends_len(&self) -> usize
        ensures { result ≡ waiting.ends_waiting (symbols self.now) }
    {
        self.ends
    }
}
