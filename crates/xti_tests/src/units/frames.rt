//! Frames: how much of an input is one, and reading them in pieces.

use crate::cases::expect;
use bytes::Bytes;
use std::alloc::Global;
use tpi_grammar::{Measure, measure_frame};
use tpi_prim::primitive::Prim;
use tpi_prim::{FeedFail, FrameReader, IndicationWriter, encode};

/// T_DATA_IND, MORE_flag 0, two bytes of user data.
const DATA: &[u8] = b"\0\0\0\x08\0\0\0\x02\0\0\0\x0e\0\0\0\0hi";

/// T_ORDREL_IND, three bytes of user data.
pub(super) const RELEASE: &[u8] = b"\0\0\0\x04\0\0\0\x03\0\0\0\x17bye";

/// T_UNITDATA_IND from "ab", with no options and three bytes of user data.
const DATAGRAM: &[u8] = b"\0\0\0\x16\0\0\0\x03\0\0\0\x14\0\0\0\x02\0\0\0\x14\0\0\0\0\0\0\0\0abxyz";

/// An input, what is at its start, and what the case is about.
type Case = (&'static [u8], Measure, &'static str);

static MEASURES: [Case; 29] = [
    (DATA, Measure::Whole(18), "a frame"),
    (DATAGRAM, Measure::Whole(33), "an empty part, and user data"),
    (
        RELEASE,
        Measure::Whole(15),
        "user data of an orderly release",
    ),
    (
        b"\0\0\0\x08\0\0\0\x02\0\0\0\x0e\0\0\0\0hi\xff",
        Measure::Whole(18),
        "a byte behind",
    ),
    (
        b"\0\0\0\x04\0\0\0\0\0\0\0\x07",
        Measure::Whole(12),
        "nothing but a head",
    ),
    (
        b"\0\0\0\x12\0\0\0\0\0\0\0\x06\0\0\0\x02\0\0\0\x10\0\0\0\x05ab",
        Measure::Whole(26),
        "an address",
    ),
    (
        b"\0\0\0\x10\0\0\0\0\0\0\0\x12\0\0\0\x03\xff\xff\xff\xff\x80\0\0\0",
        Measure::Whole(24),
        "words of any value",
    ),
    (b"", Measure::Short, "nothing"),
    (
        b"\0\0\0\x08\0\x01\0\0\0\0\0\x03\0\0\0\x01",
        Measure::Short,
        "the most user data",
    ),
    (
        b"\0\0\0\x05",
        Measure::Bad(3),
        "a control length of no primitive",
    ),
    (b"\0\0\0\x0d\0\0\0\0", Measure::Bad(3), "another one"),
    (b"\0\0\x05", Measure::Bad(2), "a control length over 1024"),
    (b"\0\0\x04\x01", Measure::Bad(3), "a control length of 1025"),
    (b"\x01", Measure::Bad(0), "a control length over 16777215"),
    (
        b"\0\0\0\x10\0\0\0\x01",
        Measure::Bad(7),
        "user data where none may be",
    ),
    (b"\0\0\0\x10\0\x01", Measure::Bad(5), "much of it"),
    (
        b"\0\0\0\x04\0\0\0\x01\0\0\0\x07",
        Measure::Bad(11),
        "user data of T_UNBIND_REQ",
    ),
    (
        b"\0\0\0\x08\0\x01\0\x01",
        Measure::Bad(7),
        "a data length of 65537",
    ),
    (
        b"\0\0\0\x08\0\0\0\0\0\0\0\x05",
        Measure::Bad(11),
        "an unknown number",
    ),
    (
        b"\0\0\0\x08\0\0\0\0\0\0\0\x18",
        Measure::Bad(11),
        "a number over all",
    ),
    (
        b"\0\0\0\x08\0\0\0\0\0\0\0\x01",
        Measure::Bad(11),
        "the number of a longer one",
    ),
    (
        b"\0\0\0\x08\0\0\0\x01\0\0\0\x13",
        Measure::Bad(11),
        "user data of T_OK_ACK",
    ),
    (
        b"\0\0\0\x08\0\0\0\0\0\0\0\x0e\0\0\0\x02",
        Measure::Bad(15),
        "MORE_flag 2",
    ),
    (
        b"\0\0\0\x12\0\0\0\0\0\0\0\x06\0\0\0\x02\0\0\0\x11\0\0\0\x05ab",
        Measure::Bad(19),
        "a gap before the address",
    ),
    (
        b"\0\0\0\x12\0\0\0\0\0\0\0\x06\0\0\0\x01",
        Measure::Bad(15),
        "a gap behind the address",
    ),
    (
        b"\0\0\0\x16\0\0\0\0\0\0\0\x08\0\0\0\x03",
        Measure::Bad(15),
        "a length over what is left",
    ),
    (
        b"\0\0\0\x16\0\0\0\0\0\0\0\x08\0\0\0\x01\0\0\0\x14\0\0\0\x02",
        Measure::Bad(23),
        "a second length over what is left",
    ),
    (
        b"\0\0\0\x16\0\0\0\0\0\0\0\x08\0\0\0\x01\0\0\0\x14\0\0\0\x01\0\0\0\x14",
        Measure::Bad(27),
        "parts that overlap",
    ),
    (
        b"\0\0\0\x14\0\0\0\0\0\0\0\x08\0\0\0\0\0\0\0\x14",
        Measure::Bad(19),
        "an offset of an empty part",
    ),
];

#[test]
fn measures(rt: HostRuntime) {
    for (input, wanted, case) in &MEASURES {
        expect(&rt, measure_frame(input) == *wanted, case);
    }
    for length in 0..DATAGRAM.len() {
        let is_short = measure_frame(&DATAGRAM[..length]) == Measure::Short;
        expect(&rt, is_short, &length);
    }
}

/// Whether the primitive's frame is these bytes.
fn is_encoded(alloc: Global, prim: Prim, bytes: &[u8]) -> bool {
    let frame = encode(alloc, &prim);
    drop(prim);
    let is_same = matches!(&frame, Ok(frame) if frame.bytes() == bytes);
    drop(frame);
    is_same
}

/// Whether user data in pieces make the frame.
fn is_written(alloc: Global) -> bool {
    let Ok(mut writer) = IndicationWriter::begin(alloc, false, false, 2) else {
        return false;
    };
    writer.put(b"h");
    writer.put(b"");
    writer.put(b"i");
    let frame = writer.finish();
    let is_data = frame.bytes() == DATA;
    drop(frame);
    is_data
}

#[test]
fn encodes(rt: HostRuntime) {
    let data = Prim::T_DATA_IND {
        more: false,
        user: Bytes::from_static(b"hi"),
    };
    let is_data = is_encoded(rt.alloc(), data, DATA);
    let release = Prim::T_ORDREL_IND {
        user: Bytes::from_static(b"bye"),
    };
    let is_release = is_encoded(rt.alloc(), release, RELEASE);
    assert!(rt; is_data && is_release && is_written(rt.alloc()));
}

/// Three frames and the start of a fourth one, in these pieces, and how many frames each piece completes.
static PIECES: [(&'static [u8], usize); 5] = [
    (b"\0\0\0\x08\0", 0),
    (b"\0\0\x02\0\0\0\x0e\0\0\0\0hi\0\0\0\x04", 1),
    (b"", 0),
    (b"\0\0\0\0\0\0\0\x07\0\0\0\x04\0\0\0\0\0\0\0\x07", 2),
    (b"\0\0\0", 0),
];

/// How many frames the piece completes, or why it is refused.
pub(super) fn feed(reader: &mut FrameReader, piece: &[u8]) -> Result<usize, FeedFail> {
    match reader.feed(piece) {
        Ok(prims) => {
            let count = prims.len();
            drop(prims);
            Ok(count)
        }
        Err(fail) => Err(fail),
    }
}

#[test]
fn feeds(rt: HostRuntime) {
    let mut reader = FrameReader::new(rt.alloc());
    for (number, (piece, wanted)) in PIECES.iter().enumerate() {
        let found = feed(&mut reader, piece);
        expect(&rt, found == Ok(*wanted), &number);
    }
    let rest = reader.rest();
    drop(reader);
    assert!(rt; rest == 3);
}
