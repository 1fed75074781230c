//! What the names of a script stand for.

ghost use Rattle.std.specs.Prelude.{◌≡◌, List, ℕ, [], Some, None, OnOk, OnErr};
ghost use Rattle.std.specs.Option.{option_copied};
ghost use Rattle.xti_model.specs.Resolve.{opened_fd, listened_number};
ghost use Rattle.xti_replay.specs.Known.{known_in, number_before, AddsName, HasLearnt, TellsSame, TellSame};

use std::alloc::{AllocError, Global};
use std::collections::HashMap;
use xti_base::limits::NO_NUMBER;
use xti_model::{NamedCall, Outcome, Reply};

/// An endpoint or an indication that a name stands for.
#[derive(Clone, Copy)]
pub struct Known {
    /// Where the line that defined it stands in the script.
    pub place: usize,
    /// The descriptor or the sequence number that its entry answered.
    pub number: u32,
}

/// What each name of a kind stands for.
pub type Table = HashMap<Vec<u8>, Known>;

/// What the names that a worker's lines defined stand for.
#[derive(Drop)]
pub struct Names {
    /// Of endpoints, defined by t_open.
    pub endpoints: Table,
    /// Of sequence numbers, defined by t_listen.
    pub sequences: Table,
}

/// So few names are compared one by one, which costs less than a hash.
const FEW: usize = 4;

// What the name stands for. Apart, since most workers define no names, which is soon told.
#[inline(never)]
fn known_among<'a>(table: &'a Table, name: &[u8]) -> Option<&'a Known>
    ensures { option_copied result ≡ known_in table.now name.now }
{
    if table.len() > FEW {
        return table.get(name);
    }
    for (text, known) in table.iter() {
        if name == text.as_slice() {
            return Some(known);
        }
    }
    None
}

/// What the name stands for.
#[inline(always)]
#[tactic(auto, using(crate::proofs::Tables::known_empty))]
fn known_in<'a>(table: &'a Table, name: &[u8]) -> Option<&'a Known>
    ensures { option_copied result ≡ known_in table.now name.now }
{
    if table.len() == 0 {
        return None;
    }
    known_among(table, name)
}

/// The number of the name, where the line that defined it stands before the place.
#[inline(always)]
pub(crate) fn number_before(place: usize, table: &Table, name: &[u8]) -> Option<u32>
    ensures { result ≡ number_before place (known_in table.now name.now) }
{
    let known = known_in(table, name)?;
    if known.place < place {
        Some(known.number)
    } else {
        None
    }
}

/// The descriptor that the entry of an open line answered.
fn opened_fd(outcome: &Outcome) -> u32
    ensures { result ≡ opened_fd (Some outcome.now) }
{
    match outcome {
        Outcome::Done(Reply::Opened { fd }) => fd.0,
        _ => NO_NUMBER,
    }
}

/// The sequence number that the entry of a listen line answered, also where what came with it was too long; else 0.
fn listened_number(outcome: &Outcome) -> u32
    ensures { result ≡ listened_number (Some outcome.now) }
{
    match outcome {
        Outcome::Done(Reply::Listened { seq, .. }) => seq.0,
        Outcome::Done(Reply::Overflow { seq }) => seq.0,
        _ => 0,
    }
}

/// The name stands for this, where it stands for nothing yet.
fn add(alloc: Global, table: &mut Table, name: &[u8], known: Known) -> Result<(), AllocError>
    ensures added { OnOk result (AddsName name.now known table.old table.new) }
    ensures err { OnErr result (TellsSame table.old table.new) }
{
    if table.get(name).is_none() {
        table.insert(Vec::from_slice(alloc, name)?, known)?;
    }
    Ok(())
}

impl Names {
    /// No names.
    pub fn new(alloc: Global) -> Names
        ensures endpoints { (name : List ℕ) → known_in result.endpoints name ≡ None }
        ensures sequences { (name : List ℕ) → known_in result.sequences name ≡ None }
    {
        Names {
            endpoints: Table::new(alloc),
            sequences: Table::new(alloc),
        }
    }

    /// Learns what the entry of a line at this place answered, where the line defines a name.
    /// After an error each name stands for what it did.
    pub fn learn(
        &mut self,
        alloc: Global,
        place: usize,
        call: &NamedCall,
        outcome: &Outcome,
    ) -> Result<(), AllocError>
        ensures learnt { OnOk result (HasLearnt place call.now outcome.now self.old self.new) }
        ensures err { OnErr result (TellSame self.old self.new) }
    {
        match call {
            NamedCall::TOpen { name, .. } => {
                let number = opened_fd(outcome);
                let known = Known { place, number };
                add(alloc, &mut self.endpoints, name.as_slice(), known)
            }
            NamedCall::TListen { name, .. } => {
                let number = listened_number(outcome);
                let known = Known { place, number };
                add(alloc, &mut self.sequences, name.as_slice(), known)
            }
            _ => Ok(()),
        }
    }
}
