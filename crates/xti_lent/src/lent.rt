//! Lent cells.

ghost use Rattle.std.specs.Prelude.{◌≡◌, ◌<◌, true, false, None, Some, [], ◌==◌, length, is_some, option_map, IfNone, IfSome, position, nat_eq};
ghost use Rattle.std.specs.Borrow.{sem};
ghost use Rattle.std.specs.Option.{option_copied};
ghost use Rattle.xti_base.specs.declared.limits.TheConstants.{MOST_PLACES};
ghost use Rattle.xti_model.specs.Profile.{valid};
ghost use Rattle.xti_model.specs.World.{place_of, places};
ghost use Rattle.xti_end.specs.Held.{is_open_as};
ghost use Rattle.xti_lent.specs.Fit.{AtOwnPlaces};
ghost use Rattle.xti_lent.specs.Kept.{Distinct};
ghost use Rattle.xti_lent.specs.Lending.{held_at, is_lent, lending, open_at, seen, without_place};
ghost use Rattle.xti_lent.specs.Lends.{IsOpenAt, LendsEndpoint, LendsRegistry, StandsAt};

use crate::slot::Slot;
use arrayvec::ArrayVec;
use std::alloc::Global;
use std::marker::Model;
use xti_base::Fd;
use xti_base::limits::MOST_PLACES;
use xti_end::Endpoint;
use xti_model::Providers;
use xti_registry::Registry;

/// The cells that a step is lent: endpoints, each under the number of its place, and the switch's table.
pub struct Lent {
    alloc: Global,
    providers: Providers,
    numbers: ArrayVec<u32, MOST_PLACES>,
    endpoints: ArrayVec<Slot, MOST_PLACES>,
    registry: Option<Box<Registry>>,
    /// Memory for the bytes of the next receive, given back by the last one. Contracts don't see it.
    room: Option<Vec<u8>>,
}

// Written out, so that a crate that lets one go proves a call of this, and nothing of what is in it.
impl Drop for Lent {
    fn drop(self) {
        let Lent {
            alloc: _,
            providers: _,
            numbers: _,
            endpoints: _,
            registry: _,
            room: _,
        } = self;
    }
}

impl Model for Lent {
    ghost use Rattle.xti_lent.specs.Lending.{Lending};
    ghost use Rattle.std.specs.Prelude.{option_map};
    ghost use Rattle.xti_lent.specs.Kept.{AreKept, held_of};

    ghost Value = { Lending };

    ghost view = { λ l. record { providers = l.providers; numbers = l.numbers.items; held = held_of l.endpoints.items; registry = option_map (λ b. b.value) l.registry } };

    ghost invariant = { λ l. AreKept l.providers l.numbers.items l.endpoints.items };
}

impl Lent {
    /// Nothing is lent yet. Takes no memory.
    pub fn new(alloc: Global, p: &Providers) -> Lent
        requires { valid p.now ≡ true }
        ensures { result ≡ record { providers = p.now; numbers = []; held = []; registry = None } }
    {
        Lent {
            alloc,
            providers: *p,
            numbers: ArrayVec::new(),
            endpoints: ArrayVec::new(),
            registry: None,
            room: None,
        }
    }

    /// Keeps memory for the bytes of the next receives: of this and what was kept the larger.
    pub fn keep_room(&mut self, room: Vec<u8>)
        ensures { self.new ≡ self.old }
    {
        match &self.room {
            Some(kept) if kept.capacity() >= room.capacity() => {}
            _ => self.room = Some(room),
        }
    }

    /// Lends the kept memory to the endpoint of the descriptor, whose cell must be lent; whether some was kept. Takes no memory.
    pub fn lend_room(&mut self, fd: Fd) -> bool
        requires { is_some (held_at self.old (place_of self.old.providers fd.0)) ≡ true }
        ensures { self.new ≡ self.old }
    {
        let Some(room) = self.room.take() else {
            return false;
        };
        let place = self.place_of(fd);
        self.endpoint(place).lend_room(room);
        true
    }

    /// Takes back what a step has left of the memory that the endpoint was lent. Takes no memory.
    pub fn take_room(&mut self, fd: Fd)
        requires { is_some (held_at self.old (place_of self.old.providers fd.0)) ≡ true }
        ensures { self.new ≡ self.old }
    {
        let place = self.place_of(fd);
        let room = self.endpoint(place).take_room();
        self.room = Some(room);
    }

    /// The providers of the step.
    pub fn providers(&self) -> &Providers
        ensures providers { result.now ≡ self.now.providers }
        ensures valid { valid self.now.providers ≡ true }
    {
        &self.providers
    }

    /// Lends an endpoint under the number of its place. There must be room, and none may be lent under it. Takes no memory.
    pub fn lend(&mut self, place: u32, e: Box<Endpoint>)
        requires place { place < places self.old.providers }
        requires own { e.value.place ≡ place }
        requires apart { held_at self.old place ≡ None }
        requires room { length self.old.numbers < MOST_PLACES }
        ensures { self.new ≡ lending self.old place e.value }
    {
        self.numbers.push(place);
        self.endpoints.push(Slot::of(e));
    }

    /// Lends the switch's table, which may not be lent yet. Takes no memory.
    pub fn lend_registry(&mut self, r: Box<Registry>)
        requires { self.old.registry ≡ None }
        ensures { self.new ≡ record self.old { registry = Some r.value } }
    {
        self.registry = Some(r);
    }

    /// The places whose endpoints are lent, in the order in which they were.
    pub fn places(&self) -> &[u32]
        ensures { result.now ≡ self.now.numbers }
    {
        self.numbers.as_slice()
    }

    /// The place of a descriptor, which is the number of its cell.
    pub fn place_of(&self, fd: Fd) -> u32
        ensures place { result ≡ place_of self.now.providers fd.0 }
        ensures bound { result < places self.now.providers }
    {
        self.providers.place_of(fd)
    }

    /// Takes back the endpoint that is lent under this number; `None` exactly where none is. The others stay lent in their order.
    /// Takes no memory.
    pub fn take_back(&mut self, place: u32) -> Option<Box<Endpoint>>
        ensures endpoint { option_map (λ b. b.value) result ≡ held_at self.old place }
        ensures left { self.new ≡ without_place self.old place }
    {
        let i = index_of(self.numbers.as_slice(), place)?;
        self.numbers.remove(i);
        self.endpoints.remove(i).into_box()
    }

    /// Takes the switch's table back; `None` exactly where it is not lent. Takes no memory.
    pub fn take_registry(&mut self) -> Option<Box<Registry>>
        ensures registry { option_map (λ b. b.value) result ≡ self.old.registry }
        ensures left { self.new ≡ record self.old { registry = None } }
    {
        self.registry.take()
    }

    /// Whether the cell with this number is lent: that of a place, or that of the switch.
    pub fn has(&self, cell: u32) -> bool
        ensures { result ≡ is_lent self.now cell }
    {
        if cell == self.providers.switch_number() {
            self.registry.is_some()
        } else {
            index_of(self.numbers.as_slice(), cell).is_some()
        }
    }

    /// The endpoint that is lent under this number; `None` exactly where none is.
    pub fn find(&self, place: u32) -> Option<&Endpoint>
        ensures { option_copied result ≡ held_at self.now place }
    {
        let i = index_of(self.numbers.as_slice(), place)?;
        self.endpoints.as_slice()[i].endpoint()
    }

    /// The endpoint that is lent under this number, which must be there.
    pub fn endpoint_ref(&self, place: u32) -> &Endpoint
        requires { is_some (held_at self.now place) ≡ true }
        ensures { Some result.now ≡ held_at self.now place }
    {
        match self.find(place) {
            Some(e) => e,
            None => unreachable!(),
        }
    }

    /// The endpoint that is open with this descriptor, among those that are lent.
    pub fn open_endpoint(&self, fd: Fd) -> Option<&Endpoint>
        requires { AtOwnPlaces self.now }
        ensures endpoint { seen result ≡ open_at self.now fd.0 }
        ensures open { IfSome result (λ e. is_open_as self.now.providers fd.0 e.now ≡ true) }
        ensures held { IfSome result (λ e. StandsAt self.now fd.0 e.now) }
    {
        let e = self.find(self.place_of(fd))?;
        if e.is(&self.providers, fd) {
            Some(e)
        } else {
            None
        }
    }

    /// The place of the endpoint that is open with this descriptor, among those that are lent; `None` where none is.
    pub fn open_place(&self, fd: Fd) -> Option<u32>
        requires { AtOwnPlaces self.now }
        ensures place { IfSome result (λ place. IsOpenAt self.now fd.0 place) }
        ensures none { IfNone result (open_at self.now fd.0 ≡ None) }
    {
        let _endpoint = self.open_endpoint(fd)?;
        Some(self.place_of(fd))
    }

    /// The same to be changed.
    pub fn endpoint(&mut self, place: u32) -> &mut Endpoint
        requires { is_some (held_at self.old place) ≡ true }
        ensures* writes_back { sem 𝓛 (LendsEndpoint self.entry place result) }
        ensures now { Some result.now ≡ held_at self.old place }
    {
        match index_of(self.numbers.as_slice(), place) {
            Some(i) => match self.endpoints.get_mut(i) {
                Some(slot) => slot.endpoint_mut(),
                None => unreachable!(),
            },
            None => unreachable!(),
        }
    }

    /// The switch's table; `None` exactly where it is not lent.
    pub fn find_registry(&self) -> Option<&Registry>
        ensures { option_copied result ≡ self.now.registry }
    {
        match &self.registry {
            Some(r) => Some(r),
            None => None,
        }
    }

    /// The switch's table, which must be lent.
    pub fn registry_ref(&self) -> &Registry
        requires { is_some self.now.registry ≡ true }
        ensures { Some result.now ≡ self.now.registry }
    {
        match &self.registry {
            Some(r) => r,
            None => unreachable!(),
        }
    }

    /// The same to be changed.
    pub fn registry(&mut self) -> &mut Registry
        requires { is_some self.old.registry ≡ true }
        ensures* writes_back { sem 𝓛 (LendsRegistry self.entry result) }
        ensures now { Some result.now ≡ self.old.registry }
    {
        match &mut self.registry {
            Some(r) => r,
            None => unreachable!(),
        }
    }

    /// The allocator that the cells were lent with.
    pub fn alloc(&self) -> Global {
        self.alloc
    }
}

/// Where a number stands among numbers of which none stands twice. If all places are lent in their order, each stands at its own.
fn index_of(numbers: &[u32], number: u32) -> Option<usize>
    requires { Distinct numbers.now }
    ensures index { result ≡ position (λ n. n == number) numbers.now }
    ensures bound { IfSome result (λ i. i < length numbers.now) }
{
    let own = number as usize;
    if own < numbers.len() && numbers[own] == number {
        return Some(own);
    }
    numbers.iter().position(|n| *n == number)
}
