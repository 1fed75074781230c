//! Lists with spare room.

ghost use Rattle.std.specs.Prelude.{◌≡◌, ◌≤◌, ◌<◌, ◌+◌, ◌++◌, ◌∷◌, [], not, Some, OnOk, OnErr, length, slice_get, remove, max, vec_capacity};
ghost use Rattle.std.specs.Option.{option_copied};
ghost use Rattle.xti_model.specs.Events.{some_wait};

use std::alloc::{AllocError, Global};
use std::marker::Model;

/// A list of what waits.
#[derive(Drop)]
pub(crate) struct WaitingList<T> {
    held: Vec<T>,
    spare: usize,
}

impl<T> Model for WaitingList<T> {
    ghost use Rattle.std.specs.Prelude.{length, vec_capacity, ◌≤◌, ◌+◌};
    ghost use Rattle.xti_end.specs.WaitingList.{WaitingList as Listed};

    ghost Value = { Listed T };

    ghost view = { λ l. record { items = l.held.items; spare = l.spare } };

    ghost invariant = { λ l. length l.held.items + l.spare ≤ vec_capacity l.held };
}

impl<T: Drop> WaitingList<T> {
    /// The empty list. Takes no memory.
    pub(crate) fn new(alloc: Global) -> WaitingList<T>
        ensures { result ≡ record { items = []; spare = 0 } }
    {
        WaitingList {
            held: Vec::new(alloc),
            spare: 0,
        }
    }

    /// Makes room for one more member; where memory runs out the list is as before.
    pub(crate) fn reserve(&mut self) -> Result<(), AllocError>
        ensures items { self.new.items ≡ self.old.items }
        ensures kept { self.old.spare ≤ self.new.spare }
        ensures spare { OnOk result (1 ≤ self.new.spare) }
        ensures most { self.new.spare ≤ max self.old.spare 1 }
        ensures err { OnErr result (self.new ≡ self.old) }
    {
        if self.spare == 0 {
            self.held.reserve(1)?;
            self.spare = 1;
        }
        Ok(())
    }

    /// Makes room for one more member than before; where memory runs out the list is as before.
    pub(crate) fn add_room(&mut self) -> Result<(), AllocError>
        ensures items { self.new.items ≡ self.old.items }
        ensures spare { OnOk result (self.new.spare ≡ self.old.spare + 1) }
        ensures err { OnErr result (self.new ≡ self.old) }
    {
        let Some(spare) = self.spare.checked_add(1) else {
            return Err(AllocError);
        };
        self.held.reserve(spare)?;
        self.spare = spare;
        Ok(())
    }

    /// Adds a member at the end, for which there must be spare room. Takes no memory.
    pub(crate) fn push(&mut self, member: T)
        requires { 1 ≤ self.old.spare }
        ensures items { self.new.items ≡ self.old.items ++ member ∷ [] }
        ensures spare { self.old.spare ≡ self.new.spare + 1 }
    {
        self.spare -= 1;
        self.held.push_reserved(member);
    }

    /// Whether there are no members.
    pub(crate) fn is_empty(&self) -> bool
        ensures { result ≡ not (some_wait self.now.items) }
    {
        self.held.is_empty()
    }

    /// How many members there are.
    pub(crate) fn len(&self) -> usize
        ensures { result ≡ length self.now.items }
    {
        self.held.len()
    }

    /// The members in their order.
    pub(crate) fn as_slice(&self) -> &[T]
        ensures { result.now ≡ self.now.items }
    {
        self.held.as_slice()
    }

    /// The member at a place; `None` exactly past the end.
    pub(crate) fn get(&self, place: usize) -> Option<&T>
        ensures { option_copied result ≡ slice_get self.now.items place }
    {
        self.held.get(place)
    }

    /// Takes the member at a place out. Takes no memory.
    pub(crate) fn remove(&mut self, place: usize) -> T
        requires { place < length self.old.items }
        ensures taken { Some result ≡ slice_get self.old.items place }
        ensures items { self.new.items ≡ remove self.old.items place }
        ensures spare { self.new.spare ≡ self.old.spare }
    {
        self.held.remove(place)
    }

    /// The member at a place is gone. Takes no memory.
    pub(crate) fn discard(&mut self, place: usize)
        requires { place < length self.old.items }
        ensures items { self.new.items ≡ remove self.old.items place }
        ensures spare { self.new.spare ≡ self.old.spare }
    {
        let _member = self.held.remove(place);
    }

    /// Takes all members out. Takes no memory.
    pub(crate) fn clear(&mut self)
        ensures items { self.new.items ≡ [] }
        ensures spare { self.new.spare ≡ self.old.spare }
    {
        self.held.clear();
    }
}
