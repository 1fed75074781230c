//! Packets and acknowledgements as bytes.

ghost use Rattle.std.specs.Prelude.{◌≡◌, ◌≤◌, ◌++◌, ◌∷◌, [], ℕ, List, ◌<◌, ◌↔◌, IfOk, IfSome, IfNone, length};
ghost use Rattle.std.specs.Int.{w32, to_be_bytes, from_be_bytes};
ghost use Rattle.xti_gbn.specs.declared.wire.Packet.{Packet};
ghost use Rattle.xti_gbn.specs.declared.wire.Wire.{Wire};
ghost use Rattle.xti_gbn.specs.Wire.{wire_text, packet_text, acknowledgement_text, numbered, most_body, IsWire, IsNumbered, IsNoWire, OfItsWires, HasSmallBody};

use std::alloc::{AllocError, Global};
use thiserror::Error;
use xti_base::Octets;

/// The most bytes of a body.
pub const MOST_BODY: usize = 512;

/// The first byte of a packet, `D`.
const DATA: u8 = 0x44;

/// The first byte of an acknowledgement, `A`.
const ACK: u8 = 0x41;

/// A numbered body.
#[derive(Drop)]
pub struct Packet {
    /// The number of the body among all that were offered, from 0.
    pub seq: u32,
    /// The bytes, at most [`MOST_BODY`] where the packet is written.
    pub body: Octets,
}

/// What is carried from end to end.
#[derive(Drop)]
pub enum Wire {
    /// To the receiver: a packet.
    Data(Packet),
    /// To the sender: the number that is expected next.
    Ack(u32),
}

/// Why bytes are not read.
#[derive(Debug, Drop, Clone, Copy, PartialEq, Eq, Error)]
pub enum WireFail {
    /// The bytes are neither a packet nor an acknowledgement.
    #[error("the bytes are neither a packet nor an acknowledgement")]
    Bad,
    /// Memory ran out.
    #[error("out of memory")]
    OutOfMemory,
}

impl From<AllocError> for WireFail {
    ghost use Rattle.std.specs.Prelude.{◌≡◌};
    ghost use Rattle.xti_gbn.specs.declared.wire.WireFail.TheVariants.{OutOfMemory};

    ghost from_gives = { λ _ e. e ≡ OutOfMemory };

    fn from(_error: AllocError) -> WireFail {
        WireFail::OutOfMemory
    }
}

// A byte, a number and the bytes after it.
fn write_numbered(alloc: Global, kind: u8, number: u32, rest: &[u8]) -> Result<Octets, AllocError>
    requires { length rest.now ≤ most_body }
    ensures { IfOk result (λ text. text ≡ numbered kind number rest.now) }
{
    let mut text = Vec::with_capacity(alloc, 1 + 4 + rest.len())?;
    text.push(kind)?;
    text.extend_from_slice(&number.to_be_bytes())?;
    text.extend_from_slice(rest)?;
    Ok(Octets::from_vec(text))
}

/// The bytes of a packet, whose body has at most [`MOST_BODY`] bytes, or of an acknowledgement.
pub fn write_wire(alloc: Global, w: &Wire) -> Result<Octets, AllocError>
    requires { HasSmallBody w.now }
    ensures { IfOk result (λ text. text ≡ wire_text w.now) }
{
    match w {
        Wire::Data(packet) => write_packet(alloc, packet),
        Wire::Ack(number) => write_numbered(alloc, ACK, *number, &[]),
    }
}

/// The bytes of a packet, whose body has at most [`MOST_BODY`] bytes.
pub(crate) fn write_packet(alloc: Global, packet: &Packet) -> Result<Octets, AllocError>
    requires { length packet.now.body ≤ most_body }
    ensures { IfOk result (λ text. text ≡ packet_text packet.now) }
{
    write_numbered(alloc, DATA, packet.seq, packet.body.as_slice())
}

// The first byte, the number after it, and the bytes after that; `None` where there are fewer than five.
fn split_number(bytes: &[u8]) -> Option<(u8, u32, &[u8])>
    ensures found { IfSome result (λ parts. IsNumbered bytes.now parts.0 parts.1 parts.2.now) }
    ensures short { IfNone result (length bytes.now < 5) }
{
    let [kind, a, b, c, d, rest @ ..] = bytes else {
        return None;
    };
    Some((*kind, u32::from_be_bytes([*a, *b, *c, *d]), rest))
}

/// The packet or the acknowledgement whose bytes these are; `Bad` exactly where they are those of none.
pub fn read_wire(alloc: Global, bytes: &[u8]) -> Result<Wire, WireFail>
    ensures found { IfOk result (λ w. IsWire w × (bytes.now ≡ wire_text w)) }
    ensures only { OfItsWires bytes.now (λ w. IfOk result (λ read. read ≡ w)) }
    ensures bad { (result ≡ Err WireFail.Bad) ↔ IsNoWire bytes.now }
{
    let Some((kind, number, rest)) = split_number(bytes) else {
        return Err(WireFail::Bad);
    };
    if kind == DATA && rest.len() <= MOST_BODY {
        let body = Octets::copy_of(alloc, rest)?;
        return Ok(Wire::Data(Packet { seq: number, body }));
    }
    if kind == ACK && rest.is_empty() {
        return Ok(Wire::Ack(number));
    }
    Err(WireFail::Bad)
}

/// No two of them have the same bytes.
pub fn texts_tell_wires()
    ensures { (v w : Wire) → IsWire v → IsWire w → wire_text v ≡ wire_text w → v ≡ w }
{}
