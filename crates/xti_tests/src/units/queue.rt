//! What waits in a queue, taken in parts.

ghost use Rattle.std.specs.Prelude.{◌≡◌};
ghost use Rattle.tpi_prim.specs.Fields.{kind_in};
ghost use Rattle.xti_queue.specs.Indications.{can_wait};

use crate::cases::expect;
use bytes::Bytes;
use std::alloc::Global;
use tpi_prim::primitive::Prim;
use tpi_prim::{Frame, Kind, encode};
use xti_base::BYTES_IN_VALUE;
use xti_queue::{Piece, ReadQueue};

/// What is done with the queue, or asked and answered.
enum Step {
    /// A datagram waits.
    Datagram(&'static [u8]),
    /// Normal data wait, with this MORE_flag.
    Data(bool, &'static [u8]),
    /// At most so many bytes are taken: these, and whether a message ends with them.
    Take(usize, &'static [u8], bool),
    /// Nothing waits.
    Empty,
}

use Step::{Data, Datagram, Empty, Take};

static STEPS: [Step; 29] = [
    // a datagram in two parts
    Datagram(b"hello"),
    Take(3, b"hel", false),
    Take(3, b"lo", true),
    Empty,
    // a message of three frames, and the start of another one
    Data(true, b"ab"),
    Data(true, b"cd"),
    Data(false, b"e"),
    Data(true, b"f"),
    Take(3, b"abc", false),
    Take(9, b"de", true),
    Take(9, b"f", false),
    Empty,
    // a frame without bytes, and an end alone
    Data(true, b""),
    Data(true, b"ab"),
    Data(false, b""),
    Take(1, b"a", false),
    Take(1, b"b", true),
    Take(1, b"", false),
    Empty,
    // no bytes are asked for
    Datagram(b""),
    Datagram(b"a"),
    Take(0, b"", true),
    Take(0, b"", false),
    Take(1, b"a", true),
    // so many that they stand in the caller's room, of one frame and of two
    Datagram(b"seventeen letters"),
    Take(17, b"seventeen letters", true),
    Data(true, b"nine and "),
    Data(false, b"eight are seventeen"),
    Take(20, b"nine and eight are s", false),
];

fn can_wait(frame: &Frame) -> bool
    ensures { result ≡ can_wait (kind_in frame.now) }
{
    matches!(
        frame.kind(),
        Kind::T_DATA_IND | Kind::T_EXDATA_IND | Kind::T_UNITDATA_IND
    )
}

/// Whether the primitive's frame, which may wait, waits in the queue.
fn push(alloc: Global, queue: &mut ReadQueue, prim: Prim) -> bool {
    let frame = encode(alloc, &prim);
    drop(prim);
    let Ok(frame) = frame else {
        return false;
    };
    if can_wait(&frame) && queue.reserve(1).is_ok() {
        queue.push(frame);
        true
    } else {
        drop(frame);
        false
    }
}

/// Whether the queue gives just this, in the room that it is handed where it doesn't stand in the value itself.
fn gives(alloc: Global, queue: &mut ReadQueue, max: usize, wanted: &[u8], closes: bool) -> bool {
    let Ok(mut room) = Vec::with_capacity(alloc, 32) else {
        return false;
    };
    let is_given = match queue.take(max, &mut room) {
        Ok(Piece { bytes, ended }) => {
            let is_wanted = bytes.as_slice() == wanted && ended == closes;
            drop(bytes);
            is_wanted
        }
        Err(_) => false,
    };
    let is_used = room.capacity() == 0;
    drop(room);
    is_given && is_used == (wanted.len() > BYTES_IN_VALUE)
}

/// Whether the step is done, or answered so.
fn holds(alloc: Global, queue: &mut ReadQueue, step: &Step) -> bool {
    match step {
        Datagram(bytes) => {
            let datagram = Prim::T_UNITDATA_IND {
                src: Bytes::from_static(b"a"),
                opt: Bytes::new(),
                user: Bytes::from_static(bytes),
            };
            push(alloc, queue, datagram)
        }
        Data(more, bytes) => {
            let data = Prim::T_DATA_IND {
                more: *more,
                user: Bytes::from_static(bytes),
            };
            push(alloc, queue, data)
        }
        Take(max, bytes, closes) => gives(alloc, queue, *max, bytes, *closes),
        Empty => queue.frames_len() == 0,
    }
}

#[test]
fn takes(rt: HostRuntime) {
    let mut queue = ReadQueue::new(rt.alloc());
    for (number, step) in STEPS.iter().enumerate() {
        expect(&rt, holds(rt.alloc(), &mut queue, step), &number);
    }
    let left = queue.frames_len();
    drop(queue);
    assert!(rt; left == 1);
}
