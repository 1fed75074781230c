//! The addresses that are bound, each under a key of its own as long as it is, in chains of those whose words fall together.

ghost use Rattle.std.specs.Prelude.{◌≡◌, ◌≤◌, ◌<◌, ◌+◌, ◌++◌, ◌∷◌, [], ℕ, Some, None, if◌then◌else◌, length, map, replicate, position, vec_capacity, IfOk, OnOk, IfSome, IfNone};
ghost use Rattle.slab.specs.Slab.{get, ContainsKey, slab_len};
ghost use Rattle.xti_model.specs.Switch.{less};
ghost use Rattle.xti_registry.specs.Chains.{IsChained, HasRoom};
ghost use Rattle.xti_registry.specs.Known.{is_asked, is_other, number_of};
ghost use Rattle.xti_registry.specs.Links.{IsLink, IsRelinked, IsLedBy, IsKeyOf, KeepsOtherBindings, bindings_of, bindings_without, is_of, keys_without, least_here, other_keys};
ghost use Rattle.xti_registry.specs.Word.{word_of};

use crate::binding::{Binding, CHAINS, chain_of, word_of};
use slab::Slab;
use std::alloc::{AllocError, Global};
use xti_base::{Fd, Prov};

/// What leads to an entry: the head of its chain, or the entry before it.
#[derive(Clone, Copy)]
pub(crate) enum Link {
    Head(usize),
    After(usize),
}

/// A binding in its chain.
#[derive(Drop)]
pub(crate) struct Entry {
    binding: Binding,
    from: Link,
    next: Option<usize>,
}

/// The bindings under their keys, the first key of each chain, and the keys in the order in which the addresses were given.
#[derive(Drop)]
pub(crate) struct Addresses {
    entries: Slab<Entry>,
    heads: Vec<Option<usize>>,
    order: Vec<usize>,
}

/// The lesser of a number and another, where there is one.
fn less(n: u32, other: Option<u32>) -> Option<u32>
    ensures { result ≡ less n other }
{
    match other {
        None => Some(n),
        Some(m) => Some(n.min(m)),
    }
}

/// The lesser of what was found and of a binding, where that is asked for.
fn least_with(b: &Binding, asked: bool, least: Option<u32>) -> Option<u32>
    ensures { result ≡ (if asked then less b.now.fd least else least) }
{
    if asked { less(b.fd.0, least) } else { least }
}

/// Whether a binding is of another descriptor than this one, where one is named.
fn is_other(b: &Binding, except: Option<Fd>) -> bool
    ensures { result ≡ is_other (number_of except) b.now }
{
    match except {
        Some(fd) => b.fd != fd,
        None => true,
    }
}

/// Whether a binding of another descriptor is to the address, whose word is given, and listens there if it should.
fn is_asked(
    b: &Binding,
    prov: Prov,
    address: &[u8],
    word: u32,
    listening: bool,
    except: Option<Fd>,
) -> bool
    requires { word ≡ word_of prov address.now }
    ensures { result ≡ is_asked prov address.now listening (number_of except) b.now }
{
    is_other(b, except) && b.is_bound(prov, address, word) && (!listening || b.listening)
}

impl Addresses {
    /// No addresses.
    pub(crate) fn new(alloc: Global) -> Result<Addresses, AllocError>
        ensures chained { IfOk result IsChained }
        ensures none { IfOk result (λ a. bindings_of a ≡ []) }
        ensures room { IfOk result (λ a. HasRoom a 0) }
    {
        let mut heads = Vec::new(alloc);
        heads.resize(CHAINS, None)?;
        Ok(Addresses {
            entries: Slab::new(alloc),
            heads,
            order: Vec::new(alloc),
        })
    }

    /// How many addresses are bound.
    pub(crate) fn len(&self) -> usize
        ensures { result ≡ length (bindings_of self.now) }
    {
        self.order.len()
    }

    /// The least descriptor that is bound to the address, or that listens there, but for one that is named.
    pub(crate) fn least_at(
        &self,
        prov: Prov,
        address: &[u8],
        listening: bool,
        except: Option<Fd>,
    ) -> Option<u32>
        requires { IsChained self.now }
        ensures { result ≡ least_here self.now prov address.now listening except }
    {
        let word = word_of(prov, address);
        let mut least = None;
        let mut at = self.heads[chain_of(word)];
        while let Some(key) = at {
            let entry = &self.entries[key];
            let b = &entry.binding;
            let asked = is_asked(b, prov, address, word, listening, except);
            least = least_with(b, asked, least);
            at = entry.next;
        }
        least
    }

    /// Makes room for one more address.
    pub(crate) fn reserve(&mut self) -> Result<(), AllocError>
        requires { IsChained self.old }
        ensures chained { IsChained self.new }
        ensures same { bindings_of self.new ≡ bindings_of self.old }
        ensures room { OnOk result (HasRoom self.new 1) }
        ensures kept { (n : ℕ) → HasRoom self.old n → HasRoom self.new n }
    {
        self.entries.reserve(1)?;
        self.order.reserve(1)
    }

    /// Lets a link lead elsewhere.
    fn set_link(&mut self, link: Link, to: Option<usize>)
        requires { IsLink self.old link }
        ensures relinked { IsRelinked self.old self.new link to }
        ensures heads { length self.new.heads.items ≡ length self.old.heads.items }
        ensures order { self.new.order ≡ self.old.order }
        ensures len { slab_len self.new.entries ≡ slab_len self.old.entries }
        ensures capacity { self.new.entries.capacity ≡ self.old.entries.capacity }
    {
        match link {
            Link::Head(chain) => self.heads[chain] = to,
            Link::After(key) => self.entries[key].next = to,
        }
    }

    /// The entry under the key, if there is one, says that the link leads to it.
    fn set_from(&mut self, to: Option<usize>, link: Link)
        requires { IfSome to (ContainsKey self.old.entries) }
        ensures led { IsLedBy self.old self.new to link }
        ensures heads { self.new.heads ≡ self.old.heads }
        ensures order { self.new.order ≡ self.old.order }
        ensures len { slab_len self.new.entries ≡ slab_len self.old.entries }
        ensures capacity { self.new.entries.capacity ≡ self.old.entries.capacity }
    {
        if let Some(key) = to {
            self.entries[key].from = link;
        }
    }

    /// An address is bound, for which there must be room. Takes no memory.
    pub(crate) fn add(&mut self, binding: Binding)
        requires chained { IsChained self.old }
        requires room { HasRoom self.old 1 }
        ensures chained { IsChained self.new }
        ensures added { bindings_of self.new ≡ bindings_of self.old ++ binding ∷ [] }
        ensures room { (n : ℕ) → HasRoom self.old (n + 1) → HasRoom self.new n }
    {
        let chain = binding.chain();
        let from = Link::Head(chain);
        let next = self.heads[chain];
        let key = self.entries.insert_reserved(Entry {
            binding,
            from,
            next,
        });
        self.set_from(next, Link::After(key));
        self.set_link(from, Some(key));
        self.order.push_reserved(key);
    }

    /// The entry under the key goes.
    fn take_out(&mut self, key: usize)
        requires chained { IsChained self.old }
        requires known { ContainsKey self.old.entries key }
        ensures chained { IsChained self.new }
        ensures order { self.new.order.items ≡ other_keys key self.old }
        ensures bindings { KeepsOtherBindings key self.old self.new }
        ensures room { (n : ℕ) → HasRoom self.old n → HasRoom self.new n }
    {
        let entry = &self.entries[key];
        let (from, next) = (entry.from, entry.next);
        self.set_link(from, next);
        self.set_from(next, from);
        self.entries.remove(key);
        self.order.retain(|other| *other != key);
    }

    /// Whether the entry under the key is the descriptor's.
    fn is_of(&self, key: usize, fd: Fd) -> bool
        ensures { result ≡ is_of self.now fd.0 key }
    {
        self.entries
            .get(key)
            .is_some_and(|entry| entry.binding.fd == fd)
    }

    /// The place in the order of the first key of the descriptor.
    fn place_of(&self, fd: Fd) -> Option<usize>
        ensures place { result ≡ position (is_of self.now fd.0) self.now.order.items }
        ensures bound { IfSome result (λ place. place < length self.now.order.items) }
    {
        self.order.iter().position(|key| self.is_of(*key, fd))
    }

    /// The first key of the descriptor.
    fn key_of(&self, fd: Fd) -> Option<usize>
        ensures found { IfSome result (λ key. IsKeyOf self.now fd.0 key) }
        ensures none { IfNone result (keys_without self.now fd.0 ≡ self.now.order.items) }
    {
        let place = self.place_of(fd)?;
        Some(self.order[place])
    }

    /// The descriptor is bound to no address any more. Takes no memory.
    pub(crate) fn remove(&mut self, fd: Fd)
        requires { IsChained self.old }
        ensures chained { IsChained self.new }
        ensures removed { bindings_of self.new ≡ bindings_without fd.0 self.old }
        ensures room { (n : ℕ) → HasRoom self.old n → HasRoom self.new n }
    {
        while let Some(key) = self.key_of(fd) {
            self.take_out(key);
        }
    }
}
