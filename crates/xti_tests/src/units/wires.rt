//! Packets and acknowledgements as bytes.

ghost use Rattle.xti_gbn.specs.Wire.{HasSmallBody};

use crate::cases::{are_bytes, expect};
use std::alloc::Global;
use xti_base::Octets;
use xti_gbn::{MOST_BODY, Packet, Wire, WireFail, read_wire, write_wire};

/// What bytes are read as.
enum Meaning {
    /// A packet with this number and body.
    Packet(u32, &'static [u8]),
    Acknowledgement(u32),
    Neither,
}

/// A body of as many bytes as it may have, all `D`.
const BODY: &[u8] = &[0x44; 512];

/// Its packet, of which every byte is `D`.
const LONG: &[u8] = &[0x44; 517];

/// One with a byte more than may stand.
const LONGER: &[u8] = &[0x44; 518];

static TEXTS: [(&[u8], Meaning); 18] = [
    (b"D\0\0\0\0", Meaning::Packet(0, b"")),
    (b"D\0\0\0\x07a", Meaning::Packet(7, b"a")),
    (
        b"D\x01\x02\x03\x04abc",
        Meaning::Packet(0x0102_0304, b"abc"),
    ),
    (
        b"D\xff\xff\xff\xffA\0\0\0\0",
        Meaning::Packet(u32::MAX, b"A\0\0\0\0"),
    ),
    (LONG, Meaning::Packet(0x4444_4444, BODY)),
    (b"A\0\0\0\0", Meaning::Acknowledgement(0)),
    (b"A\0\0\0\x02", Meaning::Acknowledgement(2)),
    (b"A\xff\xff\xff\xff", Meaning::Acknowledgement(u32::MAX)),
    (b"", Meaning::Neither),
    (b"A", Meaning::Neither),
    (b"A\0\0\0", Meaning::Neither),
    (b"A\0\0\0\x02\0", Meaning::Neither),
    (b"D", Meaning::Neither),
    (b"D\0\0\0", Meaning::Neither),
    (b"a\0\0\0\x02", Meaning::Neither),
    (b"E\0\0\0\x02abc", Meaning::Neither),
    (b"\0\0\0\0\x02", Meaning::Neither),
    (LONGER, Meaning::Neither),
];

/// Whether the bytes are read so.
fn is_read(alloc: Global, text: &[u8], meaning: &Meaning) -> bool {
    let read = read_wire(alloc, text);
    let is_same = match (&read, meaning) {
        (Ok(Wire::Data(packet)), Meaning::Packet(number, body)) => {
            packet.seq == *number && packet.body.as_slice() == *body
        }
        (Ok(Wire::Ack(read)), Meaning::Acknowledgement(number)) => read == number,
        (Err(WireFail::Bad), Meaning::Neither) => true,
        _ => false,
    };
    drop(read);
    is_same
}

/// Whether the wire is written as these bytes; it is let go.
fn is_written(alloc: Global, wire: Wire, text: &[u8]) -> bool
    requires { HasSmallBody wire }
{
    let written = write_wire(alloc, &wire);
    drop(wire);
    are_bytes(written, text)
}

/// Whether what is to be read of the bytes, with a body of at most 512 bytes, is written as these bytes.
fn is_written_back(alloc: Global, text: &[u8], meaning: &Meaning) -> bool {
    match meaning {
        Meaning::Packet(number, body) => {
            if body.len() > MOST_BODY {
                return false;
            }
            match Octets::copy_of(alloc, body) {
                Ok(body) => is_written(alloc, Wire::Data(Packet { seq: *number, body }), text),
                Err(_) => false,
            }
        }
        Meaning::Acknowledgement(number) => is_written(alloc, Wire::Ack(*number), text),
        Meaning::Neither => true,
    }
}

#[test]
fn packets_and_acknowledgements(rt: HostRuntime) {
    for (place, (text, meaning)) in TEXTS.iter().enumerate() {
        let is_right = is_read(rt.alloc(), text, meaning)
            && is_written_back(rt.alloc(), text, meaning);
        expect(&rt, is_right, &place);
    }
}
