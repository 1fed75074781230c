//! The switch's table.

ghost use Rattle.std.specs.Prelude.{◌≡◌, ◌≤◌, ◌<◌, ◌+◌, [], true, false, IfOk, OnOk, OnErr, IfSome, IsOk, length, max, position};
ghost use Rattle.xti_model.specs.Switch.{chosen, free_place, give_address, give_up_address, is_free, listener, mark_closed, mark_open, numbered_address, place_at};
ghost use Rattle.xti_model.specs.World.{opening_switch, places};
ghost use Rattle.xti_registry.specs.Known.{bound_at, descriptor_at, number_of, switch_with};
ghost use Rattle.xti_registry.specs.Chains.{IsChained};
ghost use Rattle.xti_registry.specs.Links.{bindings_of};
ghost use Rattle.xti_registry.specs.declared.registry.TheConstants.{LONGEST};

use crate::addresses::Addresses;
use crate::binding::Binding;
use crate::place::Place;
use arrayvec::ArrayVec;
use itoa::Buffer;
use std::alloc::{AllocError, Global};
use std::marker::Model;
use xti_base::{Fd, Octets, Prov};
use xti_model::Providers;

/// The most bytes of a numbered address: `#` and the digits of a number of 64 bits.
const LONGEST: usize = 21;

/// The switch's table. Contracts see the switch, and how many more addresses can be given with no memory.
pub struct Registry {
    places: Vec<Place>,
    addresses: Addresses,
    spare: usize,
}

// Written out, so that a crate that lets one go proves a call of this, and nothing of what is in it.
impl Drop for Registry {
    fn drop(self) {
        let Registry {
            places: _,
            addresses: _,
            spare: _,
        } = self;
    }
}

impl Model for Registry {
    ghost use Rattle.xti_registry.specs.Kept.{IsKept};
    ghost use Rattle.xti_registry.specs.Links.{bindings_of};
    ghost use Rattle.xti_registry.specs.Known.{Known};

    ghost Value = { Known };

    ghost view = { λ r. record {
      switch = record { bindings = bindings_of r.addresses; places = r.places.items };
      spare = r.spare;
    } };

    ghost invariant = { λ r. IsKept r.places.items r.addresses r.spare };
}

/// Whether the place is closed and can be used.
fn is_free(p: &Providers, place: &Place) -> bool
    ensures { result ≡ is_free p.now place.now }
{
    !place.is_open && place.generation < p.last_generation()
}

fn least_free(p: &Providers, places: &[Place]) -> Option<usize>
    ensures place { result ≡ position (is_free p.now) places.now }
    ensures bound { IfSome result (λ place. place < length places.now) }
{
    places.iter().position(|place| is_free(p, place))
}

/// `#` and a number.
fn numbered_address(n: usize) -> ArrayVec<u8, LONGEST>
    ensures { result.items ≡ numbered_address n }
{
    let mut address = ArrayVec::new();
    let mut buffer = Buffer::new();
    address.push(b'#');
    address
        .try_extend_from_slice(buffer.format(n).as_bytes())
        .unwrap();
    address
}

/// The first number from 0 on whose address no endpoint of the provider is bound to.
fn free_number(addresses: &Addresses, prov: Prov) -> usize
    requires { IsChained addresses.now }
    ensures { chosen (switch_with (bindings_of addresses.now)) prov [] ≡ numbered_address result }
{
    for n in 0..addresses.len() {
        let address = numbered_address(n);
        if addresses
            .least_at(prov, address.as_slice(), false, None)
            .is_none()
        {
            return n;
        }
    }
    addresses.len()
}

impl Registry {
    /// The table in the opening world: no address is bound, and each place is closed and was never open.
    pub fn fresh(alloc: Global, p: &Providers) -> Result<Registry, AllocError>
        ensures { IfOk result (λ r. r.switch ≡ opening_switch (places p.now)) }
    {
        let mut places = Vec::with_capacity(alloc, p.places() as usize)?;
        for _ in 0..p.places() {
            places.push(Place {
                generation: 0,
                is_open: false,
            })?;
        }
        Ok(Registry {
            places,
            addresses: Addresses::new(alloc)?,
            spare: 0,
        })
    }

    /// The least descriptor that is bound to the address; with `listening`, of the endpoints with a queue alone. Takes no memory.
    /// The cost is in proportion to how many bindings stand in the address's chain.
    pub fn bound(&self, prov: Prov, addr: &[u8], listening: bool) -> Option<Fd>
        ensures { number_of result ≡ bound_at self.now.switch prov addr.now listening }
    {
        let least = self.addresses.least_at(prov, addr, listening, None)?;
        Some(Fd(least))
    }

    /// The least descriptor but this one that listens at the address. Takes no memory. The cost is that of `bound`.
    pub fn listener(&self, prov: Prov, addr: &[u8], except: Fd) -> Option<Fd>
        ensures { number_of result ≡ listener self.now.switch prov addr.now except.0 }
    {
        let least = self.addresses.least_at(prov, addr, true, Some(except))?;
        Some(Fd(least))
    }

    /// The first address `#n` that no endpoint of the provider is bound to. Only the address itself takes memory.
    pub fn free_address(&self, alloc: Global, prov: Prov) -> Result<Octets, AllocError>
        ensures address { IfOk result (λ address. address ≡ chosen self.now.switch prov []) }
        ensures short { IfOk result (λ address. length address ≤ LONGEST) }
        ensures sure { length (chosen self.now.switch prov []) ≤ 16 → IsOk result }
    {
        let n = free_number(&self.addresses, prov);
        Octets::copy_of(alloc, numbered_address(n).as_slice())
    }

    /// The least place that can be opened. Takes no memory.
    pub fn free_place(&self, p: &Providers) -> Option<u32>
        ensures place { result ≡ free_place p.now self.now.switch }
        ensures bound { IfSome result (λ place. place < length self.now.switch.places) }
    {
        let place = least_free(p, &self.places)?;
        Some(place as u32)
    }

    /// Makes room for one more address; where memory runs out the table is as before.
    pub fn reserve(&mut self) -> Result<(), AllocError>
        ensures switch { self.new.switch ≡ self.old.switch }
        ensures kept { self.old.spare ≤ self.new.spare }
        ensures spare { OnOk result (1 ≤ self.new.spare) }
        ensures most { self.new.spare ≤ max self.old.spare 1 }
        ensures err { OnErr result (self.new ≡ self.old) }
    {
        if self.spare == 0 {
            self.addresses.reserve()?;
            self.spare = 1;
        }
        Ok(())
    }

    /// An endpoint is bound to the address, for which there must be spare room. Takes no memory.
    pub fn put(&mut self, prov: Prov, addr: Octets, fd: Fd, listening: bool)
        requires { 1 ≤ self.old.spare }
        ensures switch { self.new.switch ≡ give_address prov addr fd.0 listening self.old.switch }
        ensures spare { self.old.spare ≤ self.new.spare + 1 }
    {
        self.addresses.add(Binding::new(prov, addr, fd, listening));
        self.spare -= 1;
    }

    /// The endpoint is bound to no address any more. Takes no memory.
    pub fn remove(&mut self, fd: Fd)
        ensures switch { self.new.switch ≡ give_up_address fd.0 self.old.switch }
        ensures spare { self.old.spare ≤ self.new.spare }
    {
        self.addresses.remove(fd);
    }

    /// The place opens, and the descriptor of its generation is answered. Takes no memory.
    pub fn open_place(&mut self, p: &Providers, place: u32) -> Fd
        requires place { place < length self.old.switch.places }
        requires number { place < places p.now }
        requires free { is_free p.now (place_at self.old.switch place) ≡ true }
        ensures descriptor { result.0 ≡ descriptor_at p.now place self.old.switch }
        ensures switch { self.new.switch ≡ mark_open place self.old.switch }
        ensures spare { self.new.spare ≡ self.old.spare }
    {
        let at = &mut self.places[place as usize];
        at.is_open = true;
        Fd(p.places() * at.generation + place)
    }

    /// The open place closes, and its generation rises. Takes no memory.
    pub fn close_place(&mut self, place: u32)
        requires { (place_at self.old.switch place).is_open ≡ true }
        ensures switch { self.new.switch ≡ mark_closed place self.old.switch }
        ensures spare { self.new.spare ≡ self.old.spare }
    {
        let at = &mut self.places[place as usize];
        at.generation += 1;
        at.is_open = false;
    }
}
