//! The end that offers packets.

ghost use Rattle.std.specs.Prelude.{◌≡◌, ◌≢◌, ℕ, ◌-◌, ◌^◌, ◌<◌, ◌≤◌, [], ◌↔◌, ◌⊎◌, drop, length, IfOk, OnOk, OnErr};
ghost use Rattle.std.specs.List.{AllByRecursion};
ghost use Rattle.xti_gbn.specs.Wire.{most_body};
ghost use Rattle.xti_gbn.specs.Numbered.{packet};
ghost use Rattle.xti_gbn.specs.Sending.{window, keeping, next_of, packets_of, IsSpent};

use crate::wire::{MOST_BODY, Packet};
use std::alloc::{AllocError, Global};
use std::collections::VecDeque;
use std::marker::Model;
use thiserror::Error;
use xti_base::{Items, Octets};

/// How many packets may wait for their acknowledgement.
const WINDOW: usize = 8;

/// Packets in order.
pub type Packets = Items<Packet>;

/// The sender, which keeps up to 8 packets until they are acknowledged: contracts see the least number that isn't, and the bodies
/// from it on.
#[derive(Drop)]
pub struct Sender {
    base: u32,
    kept: VecDeque<Octets>,
}

impl Model for Sender {
    ghost use Rattle.xti_gbn.specs.Sending.{Sending, IsWithin};

    ghost Value = { Sending };

    ghost view = { λ s. record { base = s.base; kept = s.kept.items } };

    ghost invariant = { λ s. IsWithin s.base s.kept.items };
}

/// Why a body is not taken.
#[derive(Debug, Drop, Clone, Copy, PartialEq, Eq, Error)]
pub enum OfferFail {
    /// The body has over 512 bytes.
    #[error("the body is longer than 512 bytes")]
    TooLong,
    /// Eight packets wait for their acknowledgement.
    #[error("the packets from {base} up to {next} are not acknowledged")]
    Full {
        /// The least number that isn't acknowledged.
        base: u32,
        /// The number after the last.
        next: u32,
    },
    /// All numbers are used.
    #[error("all numbers are used")]
    Spent,
    /// Memory ran out.
    #[error("out of memory")]
    OutOfMemory,
}

impl From<AllocError> for OfferFail {
    ghost use Rattle.std.specs.Prelude.{◌≡◌};
    ghost use Rattle.xti_gbn.specs.declared.sender.OfferFail.TheVariants.{OutOfMemory};

    ghost from_gives = { λ _ e. e ≡ OutOfMemory };

    fn from(_error: AllocError) -> OfferFail {
        OfferFail::OutOfMemory
    }
}

impl Sender {
    /// A sender of no packets yet. Takes no memory.
    pub fn new(alloc: Global) -> Sender
        ensures { result ≡ record { base = 0; kept = [] } }
    {
        Sender {
            base: 0,
            kept: VecDeque::new(alloc),
        }
    }

    /// The least number that isn't acknowledged.
    pub fn base(&self) -> u32
        ensures { result ≡ self.now.base }
    {
        self.base
    }

    /// The number of the next packet.
    pub fn next(&self) -> u32
        ensures { result ≡ next_of self.now }
    {
        self.base + self.kept.len() as u32
    }

    // The body as it is kept, at the end, and once more.
    fn keep(&mut self, alloc: Global, body: &[u8]) -> Result<Octets, AllocError>
        requires small { length body.now ≤ most_body }
        requires room { length self.old.kept < window }
        requires numbers { next_of self.old < 2 ^ 32 - 1 }
        ensures copy { IfOk result (λ copy. copy ≡ body.now) }
        ensures kept { OnOk result (self.new ≡ keeping body.now self.old) }
        ensures err { OnErr result (self.new ≡ self.old) }
    {
        let copy = Octets::copy_of(alloc, body)?;
        self.kept.push_back(Octets::copy_of(alloc, body)?)?;
        Ok(copy)
    }

    /// Takes a body as the packet of the next number, which is kept until it is acknowledged. After an error the sender is as before.
    pub fn offer(&mut self, alloc: Global, body: &[u8]) -> Result<Packet, OfferFail>
        ensures packet { IfOk result (λ p. p ≡ packet (next_of self.old) body.now) }
        ensures kept { OnOk result (self.new ≡ keeping body.now self.old) }
        ensures room { OnOk result (length self.old.kept < window) }
        ensures err { OnErr result (self.new ≡ self.old) }

        // In this order.
        ensures too_long { (result ≡ Err OfferFail.TooLong) ↔ (most_body < length body.now) }
        ensures full { (base next : ℕ) → (result ≡ Err (OfferFail.Full base next))
            ↔ ((length body.now ≤ most_body) × (length self.old.kept ≡ window) × (base ≡ self.old.base) × (next ≡ next_of self.old)) }
        ensures spent { (result ≡ Err OfferFail.Spent)
            ↔ ((length body.now ≤ most_body) × (length self.old.kept ≢ window) × IsSpent self.old) }
    {
        let next = self.next();
        if body.len() > MOST_BODY {
            return Err(OfferFail::TooLong);
        }
        if self.kept.len() == WINDOW {
            return Err(OfferFail::Full {
                base: self.base,
                next,
            });
        }
        if next == u32::MAX {
            return Err(OfferFail::Spent);
        }
        Ok(Packet {
            seq: next,
            body: self.keep(alloc, body)?,
        })
    }

    /// The packets that are kept once more, in order. They stay unacknowledged.
    pub fn timeout(&self, alloc: Global) -> Result<Packets, AllocError>
        ensures packets { IfOk result (λ packets. packets ≡ packets_of self.now) }
        ensures few { length self.now.kept ≤ window }
        ensures small { AllByRecursion (λ body. length body ≤ most_body) self.now.kept }
    {
        let mut packets = Packets::new(alloc);
        for i in 0..self.kept.len() {
            packets.push(Packet {
                seq: self.base + i as u32,
                body: self.kept[i].copy()?,
            })?;
        }
        Ok(packets)
    }

    /// Takes an acknowledgement: the packets below this number are let go, where it is above the least that isn't acknowledged, and
    /// at most the next one. Else nothing changes. Takes no memory.
    pub fn ack(&mut self, n: u32)
        ensures moves { self.old.base < n → n ≤ next_of self.old
            → self.new ≡ record { base = n; kept = drop (n - self.old.base) self.old.kept } }
        ensures stays { ((n ≤ self.old.base) ⊎ (next_of self.old < n)) → self.new ≡ self.old }
    {
        if n <= self.base || n > self.next() {
            return;
        }
        while self.base < n {
            self.kept.pop_front();
            self.base += 1;
        }
    }
}
