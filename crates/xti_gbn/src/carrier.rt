//! What carries bytes from end to end.

ghost use Rattle.std.specs.Prelude.{◌≡◌, ◌≤◌, ◌<◌, ◌^◌, ◌⊎◌, ℕ, List, IfOk, OnOk, OnErr, length};
ghost use Rattle.xti_gbn.specs.declared.wire.Wire.TheVariants.{Data};
ghost use Rattle.xti_gbn.specs.Carrying.{IsLeft};
ghost use Rattle.xti_gbn.specs.Wire.{packet_text, acknowledgement_text, IsWire, IsPacketText, IsAcknowledgementText};

use crate::wire::{Packet, Wire, WireFail, read_wire, write_wire};
use std::alloc::{AllocError, Global};
use xti_base::Octets;

/// A carrier of datagrams between the two ends.
pub trait Carrier {
    /// Whether it is ready to carry.
    ghost is_ready: { Self → Type 0 };

    /// Whether these bytes wait in it, which were to be carried and have not come out.
    ghost holds: { List ℕ → Self → Type 0 };

    /// Carries 1 to 517 bytes, to the receiver or back to the sender, and answers what came out there: the same bytes.
    /// After an error it is ready still, or the bytes wait in it.
    fn carry(
        &mut self,
        alloc: Global,
        to_receiver: bool,
        bytes: &[u8],
    ) -> Result<Octets, AllocError>
        requires ready { is_ready self.old }
        requires some { 1 ≤ length bytes.now }
        requires most { length bytes.now ≤ 517 }
        ensures same { IfOk result (λ came. came ≡ bytes.now) }
        ensures stays_ready { OnOk result (is_ready self.new) }
        ensures left { OnErr result (is_ready self.new ⊎ holds bytes.now self.new) };
}

// The packet whose bytes these are.
fn read_packet(alloc: Global, bytes: &[u8]) -> Result<Packet, AllocError>
    requires { IsPacketText bytes.now }
    ensures { IfOk result (λ p. IsWire (Data p) × (bytes.now ≡ packet_text p)) }
{
    match read_wire(alloc, bytes) {
        Ok(Wire::Data(packet)) => Ok(packet),
        Ok(Wire::Ack(_)) => unreachable!(),
        Err(WireFail::Bad) => unreachable!(),
        Err(WireFail::OutOfMemory) => Err(AllocError),
    }
}

// The acknowledgement whose bytes these are.
fn read_acknowledgement(alloc: Global, bytes: &[u8]) -> Result<u32, AllocError>
    requires { IsAcknowledgementText bytes.now }
    ensures { IfOk result (λ n. (n < 2 ^ 32) × (bytes.now ≡ acknowledgement_text n)) }
{
    match read_wire(alloc, bytes) {
        Ok(Wire::Ack(number)) => Ok(number),
        Ok(Wire::Data(_)) => unreachable!(),
        Err(WireFail::Bad) => unreachable!(),
        Err(WireFail::OutOfMemory) => Err(AllocError),
    }
}

/// Carries a packet, given by its bytes, to the receiver.
pub(crate) fn carry_packet<C: Carrier>(
    alloc: Global,
    text: &[u8],
    carrier: &mut C,
) -> Result<Packet, AllocError>
    requires ready { C.is_ready carrier.old }
    requires text { IsPacketText text.now }
    ensures packet { IfOk result (λ p. IsWire (Data p) × (text.now ≡ packet_text p)) }
    ensures stays_ready { OnOk result (C.is_ready carrier.new) }
    ensures left { OnErr result (IsLeft C.is_ready C.holds carrier.new) }
{
    let came = carrier.carry(alloc, true, text)?;
    read_packet(alloc, came.as_slice())
}

/// Carries an acknowledgement to the sender.
pub(crate) fn carry_acknowledgement<C: Carrier>(
    alloc: Global,
    number: u32,
    carrier: &mut C,
) -> Result<u32, AllocError>
    requires ready { C.is_ready carrier.old }
    ensures number { IfOk result (λ n. n ≡ number) }
    ensures stays_ready { OnOk result (C.is_ready carrier.new) }
    ensures left { OnErr result (IsLeft C.is_ready C.holds carrier.new) }
{
    let text = write_wire(alloc, &Wire::Ack(number))?;
    let came = carrier.carry(alloc, false, text.as_slice())?;
    read_acknowledgement(alloc, came.as_slice())
}
