//! Damaged frames: what `decode` answers, and a reader that is fed them in pieces of each size.

ghost use Rattle.std.specs.Prelude.{◌≤◌};

use super::frames::{RELEASE, feed};
use crate::cases::expect;
use std::alloc::Global;
use tpi_prim::{Decoded, FeedFail, FrameReader, decode};

/// Whole frames, a frame with a wrong byte, the place of that byte in it, and what the case is about.
type Case = (&'static [u8], &'static [u8], usize, &'static str);

/// T_UNITDATA_REQ to "b" with the datagram "hello".
const REQUEST: &[u8] = b"\0\0\0\x15\0\0\0\x05\0\0\0\x08\0\0\0\x01\0\0\0\x14\0\0\0\0\0\0\0\0bhello";

static DAMAGED: [Case; 8] = [
    (
        b"",
        b"\0\0\0\x08\0\0\0\0\0\0\0\x05",
        11,
        "a number of no primitive",
    ),
    (
        b"",
        b"\0\0\0\x08\0\0\0\0\0\0\0\x0e\0\0\0\x02",
        15,
        "a MORE_flag of 2",
    ),
    (
        b"",
        b"\0\0\0\x08\0\x01\0\x01",
        7,
        "a byte of user data too much",
    ),
    (
        b"",
        b"\0\0\0\x04\0\0\0\x01\0\0\0\x07",
        11,
        "user data of T_UNBIND_REQ",
    ),
    (
        b"",
        b"\0\0\0\x15\0\0\0\x05\0\0\0\x08\0\0\0\x01\0\0\0\x15\0\0\0\0\0\0\0\0bhello",
        19,
        "a gap before the address",
    ),
    (
        RELEASE,
        b"\0\0\0\x04\0\0\0\0\0\0\0\xff",
        11,
        "a number of no primitive in a second frame",
    ),
    (REQUEST, b"\xff and more", 0, "other bytes after a frame"),
    (
        REQUEST,
        b"\0\0\0\x08\0\0\0\0\0\0\0\x0e\0\0\x01\0",
        14,
        "a MORE_flag of 256 in a second frame",
    ),
];

/// The place of the first wrong byte, or `Some(None)` where the input is a proper prefix of a frame; `None` where it has a frame.
fn wrong_place(alloc: Global, input: &[u8]) -> Option<Option<usize>> {
    let decoded = decode(alloc, input);
    let place = match &decoded {
        Decoded::Bad { at } => Some(Some(*at)),
        Decoded::Short => Some(None),
        _ => None,
    };
    drop(decoded);
    place
}

/// Whether the input is a proper prefix of a frame wherever it is cut before this length.
fn is_short_before(alloc: Global, input: &[u8], length: usize) -> bool {
    for cut in 0..length.min(input.len()) {
        let (front, _) = input.split_at(cut);
        if wrong_place(alloc, front) != Some(None) {
            return false;
        }
    }
    true
}

/// How many frames the pieces of this size complete, how many bytes are read before a piece is refused, and why it is.
fn feed_all(reader: &mut FrameReader, input: &[u8], size: usize) -> (usize, usize, Option<FeedFail>)
    requires { 1 ≤ size }
{
    let mut completed = 0usize;
    let mut read = 0usize;
    for piece in input.chunks(size) {
        match feed(reader, piece) {
            Ok(count) => {
                completed = completed.saturating_add(count);
                read = read.saturating_add(piece.len());
            }
            Err(fail) => return (completed, read, Some(fail)),
        }
    }
    (completed, read, None)
}

/// Whether a reader of its own reads what is before, and finds the wrong byte in the input by pieces of this size: those before
/// the one that has it are read, and complete nothing; it is refused, and whatever comes after.
fn is_found(alloc: Global, before: &[u8], input: &[u8], size: usize, place: usize) -> bool
    requires { 1 ≤ size }
{
    let mut reader = FrameReader::new(alloc);
    let is_read = feed(&mut reader, before).is_ok();
    let found = feed_all(&mut reader, input, size);
    let again = feed(&mut reader, REQUEST);
    drop(reader);
    let at = (before.len() as u64).saturating_add(place as u64);
    let wrong = FeedFail::Bad { at };
    let read = place.saturating_sub(place % size);
    is_read && found == (0, read, Some(wrong)) && again == Err(wrong)
}

/// Whether the last of the pieces of this size completes the request, and none before.
fn is_completed(alloc: Global, size: usize) -> bool
    requires { 1 ≤ size }
{
    let length = REQUEST.len().saturating_sub(1);
    let (front, last) = REQUEST.split_at(length.saturating_sub(length % size));
    let mut reader = FrameReader::new(alloc);
    let before = feed_all(&mut reader, front, size);
    let at_last = feed(&mut reader, last);
    drop(reader);
    before == (0, front.len(), None) && at_last == Ok(1)
}

#[test]
fn damaged_frames(rt: HostRuntime) {
    for (before, input, place, case) in &DAMAGED {
        let is_refused = is_short_before(rt.alloc(), input, place.saturating_add(1))
            && wrong_place(rt.alloc(), input) == Some(Some(*place));
        expect(&rt, is_refused, case);
        for size in 1..=input.len() {
            let is_found = is_found(rt.alloc(), before, input, size, *place);
            assert!(rt; is_found, "this case is wrong in pieces of {size}: {case}");
        }
    }
    let is_short = is_short_before(rt.alloc(), REQUEST, REQUEST.len());
    expect(&rt, is_short, &"a cut frame");
    for size in 1..=REQUEST.len() {
        expect(&rt, is_completed(rt.alloc(), size), &size);
    }
}
