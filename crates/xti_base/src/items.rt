//! Lists, which contracts see as lists.

ghost use Rattle.std.specs.Prelude.{◌≡◌, ◌++◌, ◌∷◌, [], List, OnOk, OnErr, IfOk, length, slice_get, ◌==◌};
ghost use Rattle.std.specs.Option.{option_copied};

use crate::octets::Octets;
use std::alloc::{AllocError, Global};
use std::fmt;
use std::marker::Model;

/// A list of members that answers a reference to a member.
#[derive(Drop)]
pub struct Items<T> {
    members: Vec<T>,
}

impl<T> Model for Items<T> {
    ghost Value = { List T };

    ghost view = { λ o. o.members.items };
}

impl<T: fmt::Debug> fmt::Debug for Items<T> {
    fn fmt<W: fmt::Write>(&self, f: &mut fmt::Formatter<W>) -> fmt::Result {
        write!(f, "{:?}", self.members.as_slice())
    }
}

impl<T: Drop> Items<T> {
    /// The empty list. Takes no memory.
    pub fn new(alloc: Global) -> Items<T>
        ensures { result ≡ [] }
    {
        Items {
            members: Vec::new(alloc),
        }
    }

    /// The list of these members. Takes no memory.
    pub fn from_vec(members: Vec<T>) -> Items<T>
        ensures { result ≡ members.items }
    {
        Items { members }
    }

    /// The members, given back. Takes no memory.
    pub fn into_vec(self) -> Vec<T>
        ensures { result.items ≡ self }
    {
        let Items { members } = self;
        members
    }

    /// Adds a member at the end; where memory runs out the list is as before.
    pub fn push(&mut self, member: T) -> Result<(), AllocError>
        ensures ok { OnOk result (self.new ≡ self.old ++ member ∷ []) }
        ensures err { OnErr result (self.new ≡ self.old) }
    {
        self.members.push(member)?;
        Ok(())
    }

    /// The member at this place, from 0; `None` exactly past the end. Takes no memory.
    pub fn get(&self, place: usize) -> Option<&T>
        ensures { option_copied result ≡ slice_get self.now place }
    {
        self.members.get(place)
    }

    /// How many members there are.
    pub fn len(&self) -> usize
        ensures { result ≡ length self.now }
    {
        self.members.len()
    }

    /// Whether there are no members.
    pub fn is_empty(&self) -> bool
        ensures { result ≡ (length self.now == 0) }
    {
        self.members.is_empty()
    }

    /// The members in order. Takes no memory.
    pub fn as_slice(&self) -> &[T]
        ensures { result.now ≡ self.now }
    {
        self.members.as_slice()
    }
}

/// A list of plain values that answers a member itself.
#[derive(Drop)]
pub struct Numbers<T> {
    members: Vec<T>,
}

impl<T> Model for Numbers<T> {
    ghost Value = { List T };

    ghost view = { λ o. o.members.items };
}

impl<T: fmt::Debug> fmt::Debug for Numbers<T> {
    fn fmt<W: fmt::Write>(&self, f: &mut fmt::Formatter<W>) -> fmt::Result {
        write!(f, "{:?}", self.members.as_slice())
    }
}

impl<T: Copy> Numbers<T> {
    /// The empty list. Takes no memory.
    pub fn new(alloc: Global) -> Numbers<T>
        ensures { result ≡ [] }
    {
        Numbers {
            members: Vec::new(alloc),
        }
    }

    /// The list of these members. Takes no memory.
    pub fn from_vec(members: Vec<T>) -> Numbers<T>
        ensures { result ≡ members.items }
    {
        Numbers { members }
    }

    /// The members, given back. Takes no memory.
    pub fn into_vec(self) -> Vec<T>
        ensures { result.items ≡ self }
    {
        let Numbers { members } = self;
        members
    }

    /// Adds a member at the end; where memory runs out the list is as before.
    pub fn push(&mut self, member: T) -> Result<(), AllocError>
        ensures ok { OnOk result (self.new ≡ self.old ++ member ∷ []) }
        ensures err { OnErr result (self.new ≡ self.old) }
    {
        self.members.push(member)?;
        Ok(())
    }

    /// The member at this place, from 0; `None` exactly past the end. Takes no memory.
    pub fn get(&self, place: usize) -> Option<T>
        ensures { result ≡ slice_get self.now place }
    {
        self.members.get(place).copied()
    }

    /// The members in order. Takes no memory.
    pub fn as_slice(&self) -> &[T]
        ensures { result.now ≡ self.now }
    {
        self.members.as_slice()
    }
}

impl<T: Copy> Numbers<T> {
    /// The same members once more.
    pub fn copy(&self) -> Result<Numbers<T>, AllocError>
        ensures { IfOk result (λ copy. copy ≡ self.now) }
    {
        Ok(Numbers {
            members: Vec::from_slice(*self.members.allocator(), self.members.as_slice())?,
        })
    }
}

impl Items<Octets> {
    /// The same parts once more.
    pub fn copy(&self) -> Result<Parts, AllocError>
        ensures { IfOk result (λ copy. copy ≡ self.now) }
    {
        Ok(Items {
            members: copy_parts(*self.members.allocator(), self.members.as_slice())?,
        })
    }
}

fn copy_parts(alloc: Global, parts: &[Octets]) -> Result<Vec<Octets>, AllocError>
    ensures { IfOk result (λ copy. copy.items ≡ parts.now) }
{
    let mut copy = Vec::with_capacity(alloc, parts.len())?;
    for part in parts {
        copy.push(part.copy()?)?;
    }
    Ok(copy)
}

/// The parts of a vector form (XNS, t_iovec).
pub type Parts = Items<Octets>;

/// Numbers of calls.
pub type Calls = Numbers<u64>;

/// Sizes of the buffers of a vector form (XNS, t_iovec).
pub type Sizes = Numbers<u32>;
