//! The names that each worker's lines define.

ghost use Rattle.std.specs.Prelude.{◌≡◌, ◌<◌, ◌||◌, length, IfOk, OnOk, OnErr};
ghost use Rattle.xti_model.specs.Resolve.{opens, listens};
ghost use Rattle.xti_script_reader.specs.TextSets.{has, has_at, AreEmpty, HasMore, HasMoreAt, HasSame, HaveSame};
ghost use Rattle.xti_script_reader.specs.Known.{TakesName};

use std::alloc::{AllocError, Global};
use std::collections::HashSet;
use xti_base::limits::WORKERS;
use xti_model::{Line, NamedCall};

/// A set of names.
pub(crate) type TextSet = HashSet<Vec<u8>>;

/// So few names are compared one by one, which costs less than a hash.
const FEW: usize = 4;

fn add_text(alloc: Global, texts: &mut TextSet, text: &[u8]) -> Result<(), AllocError>
    ensures ok { OnOk result (HasMore text.now texts.old texts.new) }
    ensures err { OnErr result (HasSame texts.old texts.new) }
{
    texts.insert(Vec::from_slice(alloc, text)?)?;
    Ok(())
}

// Apart, since most workers define no names, which is soon told.
#[inline(never)]
fn has_among(texts: &TextSet, bytes: &[u8]) -> bool
    ensures { result ≡ has texts.now bytes.now }
{
    if texts.len() <= FEW {
        return texts.iter().any(|text| text.as_slice() == bytes);
    }
    texts.contains(bytes)
}

#[inline(always)]
#[tactic(auto, using(crate::proofs::TextSets::has_none))]
fn has(texts: &TextSet, bytes: &[u8]) -> bool
    ensures { result ≡ has texts.now bytes.now }
{
    if texts.len() == 0 {
        return false;
    }
    has_among(texts, bytes)
}

#[inline(always)]
fn has_at(sets: &[TextSet], place: usize, bytes: &[u8]) -> bool
    ensures { result ≡ has_at sets.now place bytes.now }
{
    match sets.get(place) {
        Some(texts) => has(texts, bytes),
        None => false,
    }
}

/// Whether the sets have the name for the worker, or for worker 0.
pub(crate) fn is_defined(sets: &[TextSet], worker: u32, name: &[u8]) -> bool
    ensures { result ≡ (has_at sets.now worker name.now || has_at sets.now 0 name.now) }
{
    has_at(sets, worker as usize, name) || has_at(sets, 0, name)
}

fn add_at(alloc: Global, sets: &mut [TextSet], place: usize, text: &[u8]) -> Result<(), AllocError>
    requires { place < length sets.old }
    ensures ok { OnOk result (HasMoreAt place text.now sets.old sets.new) }
    ensures err { OnErr result (HaveSame sets.old sets.new) }
{
    add_text(alloc, &mut sets[place], text)
}

/// A set without names for each worker.
pub(crate) fn empty_sets(alloc: Global) -> Result<Vec<TextSet>, AllocError>
    ensures workers { IfOk result (λ sets. length sets.items ≡ WORKERS) }
    ensures empty { IfOk result (λ sets. AreEmpty sets.items) }
{
    let mut sets = Vec::with_capacity(alloc, WORKERS)?;
    for _worker in 0..WORKERS {
        sets.push(HashSet::new(alloc))?;
    }
    Ok(sets)
}

/// Adds the name that the line defines, to those of endpoints or of sequence numbers; where memory runs out the names are
/// as before.
pub(crate) fn add_name(
    alloc: Global,
    opened: &mut [TextSet],
    listened: &mut [TextSet],
    line: &Line,
) -> Result<(), AllocError>
    requires endpoints { line.now.worker < length opened.old }
    requires sequences { line.now.worker < length listened.old }
    ensures opened { OnOk result (TakesName opens line.now opened.old opened.new) }
    ensures listened { OnOk result (TakesName listens line.now listened.old listened.new) }
    ensures opened_kept { OnErr result (HaveSame opened.old opened.new) }
    ensures listened_kept { OnErr result (HaveSame listened.old listened.new) }
{
    let worker = line.worker as usize;
    match &line.call {
        NamedCall::TOpen { name, .. } => add_at(alloc, opened, worker, name.as_slice()),
        NamedCall::TListen { name, .. } => add_at(alloc, listened, worker, name.as_slice()),
        _ => Ok(()),
    }
}
