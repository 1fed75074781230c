//! What a journal has of its history.

ghost use Rattle.std.specs.Prelude.{◌≡◌, ◌+◌, ◌<◌, ◌^◌, [], IfOk, true, is_some};
ghost use Rattle.xti_hall_rule.specs.Rule.{recorded};
ghost use Rattle.xti_hall.specs.Records.{kept_in, HasRoom, HasSameLog, KeepsMore};

use std::alloc::{AllocError, Global};
use xti_hall_rule::{Bells, Journal, Last, Mark};
use xti_model::Entry;

/// That of an empty history.
pub(crate) fn empty(
    alloc: Global,
    keeps: bool,
    marks: Vec<Mark>,
) -> Result<Box<Journal>, AllocError>
    ensures log { IfOk result (λ b. (b.value.length ≡ 0) × (kept_in b.value ≡ recorded keeps [])) }
    ensures marks { IfOk result (λ b. b.value.marks ≡ marks) }
{
    let kept = if keeps { Some(Vec::new(alloc)) } else { None };
    let journal = Journal {
        length: 0,
        kept,
        last: Last::of(&None),
        marks,
        bells: Bells::silent(),
    };
    Ok(Box::new(alloc, journal)?)
}

/// The length of the history.
pub(crate) fn length(journal: &Box<Journal>) -> u64
    ensures { result ≡ journal.now.value.length }
{
    journal.length
}

/// Takes the room of one entry, where entries are kept. It answers whether there is room, and whether the length can grow.
pub(crate) fn reserve(journal: &mut Journal) -> bool
    ensures log { HasSameLog journal.old journal.new }
    ensures marks { journal.new.marks ≡ journal.old.marks }
    ensures room { result ≡ true → HasRoom journal.new }
{
    if journal.length == u64::MAX {
        return false;
    }
    match &mut journal.kept {
        Some(entries) => entries.reserve(1).is_ok(),
        None => true,
    }
}

/// Adds this entry, of a hall that keeps its entries.
pub(crate) fn add(journal: &mut Journal, entry: Entry)
    requires room { HasRoom journal.old }
    requires kept { is_some journal.old.kept ≡ true }
    ensures length { journal.new.length ≡ journal.old.length + 1 }
    ensures kept { KeepsMore journal.old entry journal.new }
    ensures marks { journal.new.marks ≡ journal.old.marks }
{
    journal.length += 1;
    match &mut journal.kept {
        Some(entries) => entries.push_reserved(entry),
        None => unreachable!(),
    }
}
