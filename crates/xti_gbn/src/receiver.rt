//! The end that takes packets.

ghost use Rattle.std.specs.Prelude.{◌≡◌, ◌+◌, ◌-◌, ◌^◌, ◌<◌, ◌==◌, Some, None, if◌then◌else◌, IfOk, OnOk, OnErr};
ghost use Rattle.xti_gbn.specs.Receiving.{taken_body, expected_after};

use crate::wire::Packet;
use std::alloc::{AllocError, Global};
use std::marker::Model;
use xti_base::Octets;

/// The receiver, which takes each packet in its order: contracts see the number that it expects next.
#[derive(Drop)]
pub struct Receiver {
    expected: u32,
}

impl Model for Receiver {
    ghost use Rattle.std.specs.Prelude.{ℕ};

    ghost Value = { ℕ };

    ghost view = { λ r. r.expected };
}

/// What the receiver makes of a packet.
#[derive(Drop)]
pub struct Taken {
    /// The body, where the packet was the expected one.
    pub body: Option<Octets>,
    /// The number that is expected afterwards, which is the acknowledgement.
    pub ack: u32,
}

impl Receiver {
    /// A receiver that expects number 0. Takes no memory.
    pub fn new() -> Receiver
        ensures { result ≡ 0 }
    {
        Receiver { expected: 0 }
    }

    /// The number that is expected next: how many bodies were taken.
    pub fn expected(&self) -> u32
        ensures { result ≡ self.now }
    {
        self.expected
    }

    /// Takes a packet: its body exactly where its number is the expected one, which then rises by 1. Where memory runs out the
    /// receiver is as before.
    pub fn data(&mut self, alloc: Global, p: &Packet) -> Result<Taken, AllocError>
        requires { p.now.seq < 2 ^ 32 - 1 }
        ensures body { IfOk result (λ taken. taken.body ≡ taken_body self.old p.now) }
        ensures expected { OnOk result (self.new ≡ expected_after self.old p.now) }
        ensures ack { IfOk result (λ taken. taken.ack ≡ self.new) }
        ensures err { OnErr result (self.new ≡ self.old) }
    {
        if p.seq != self.expected {
            return Ok(Taken {
                body: None,
                ack: self.expected,
            });
        }
        let body = Octets::copy_of(alloc, p.body.as_slice())?;
        self.expected += 1;
        Ok(Taken {
            body: Some(body),
            ack: self.expected,
        })
    }
}
