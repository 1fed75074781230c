//! A binding of an address, with the word by which its chain is found.

ghost use Rattle.std.specs.Prelude.{◌≡◌, ◌<◌};
ghost use Rattle.xti_model.specs.Switch.{is_bound};
ghost use Rattle.xti_registry.specs.Known.{binding_to};
ghost use Rattle.xti_registry.specs.Word.{word_of, chain_of, binding_chain};

use std::marker::Model;
use xti_base::{Fd, Octets, Prov};

/// How many chains there are: as many as places, so that most have one binding or none.
pub(crate) const CHAINS: usize = 64;

/// How many bytes of an address its word is made of.
const MIXED: usize = 8;

/// What a word is multiplied by before a byte is added, so that numbers of two digits fall apart.
const FACTOR: u32 = 9;

/// An address that an endpoint is bound to, with the address's word.
#[derive(Drop)]
pub(crate) struct Binding {
    pub(crate) prov: Prov,
    pub(crate) address: Octets,
    pub(crate) fd: Fd,
    pub(crate) listening: bool,
    word: u32,
}

impl Model for Binding {
    ghost use Rattle.std.specs.Prelude.{◌≡◌};
    ghost use Rattle.xti_model.specs.World.{Binding};
    ghost use Rattle.xti_registry.specs.Word.{word_of};

    ghost Value = { Binding };

    ghost view = { λ b. record { prov = b.prov; address = b.address; fd = b.fd.0; listening = b.listening } };

    ghost invariant = { λ b. b.word ≡ word_of b.prov b.address };
}

/// The word of an address: equal addresses of a provider have the same.
pub(crate) fn word_of(prov: Prov, address: &[u8]) -> u32
    ensures { result ≡ word_of prov address.now }
{
    let mut word = prov as u32;
    let end = &address[address.len().saturating_sub(MIXED)..];
    for byte in end {
        word = word.wrapping_mul(FACTOR).wrapping_add(*byte as u32);
    }
    word
}

/// The chain of a word.
pub(crate) fn chain_of(word: u32) -> usize
    ensures chain { result ≡ chain_of word }
    ensures bound { result < CHAINS }
{
    word as usize % CHAINS
}

impl Binding {
    pub(crate) fn new(prov: Prov, address: Octets, fd: Fd, listening: bool) -> Binding
        ensures { result ≡ binding_to prov address fd listening }
    {
        let word = word_of(prov, address.as_slice());
        Binding {
            prov,
            address,
            fd,
            listening,
            word,
        }
    }

    /// The chain in which it stands.
    pub(crate) fn chain(&self) -> usize
        ensures chain { result ≡ binding_chain self.now }
        ensures bound { result < CHAINS }
    {
        chain_of(self.word)
    }

    /// Whether the address, whose word is given, is bound here.
    pub(crate) fn is_bound(&self, prov: Prov, address: &[u8], word: u32) -> bool
        requires { word ≡ word_of prov address.now }
        ensures { result ≡ is_bound prov address.now self.now }
    {
        self.word == word && self.prov.is(prov) && self.address.as_slice() == address
    }
}
