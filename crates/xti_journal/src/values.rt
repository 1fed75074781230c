//! What words stand for: bytes, and several values.

ghost use Rattle.std.specs.Prelude.{◌≡◌, IfOk};
ghost use Rattle.xti_words.specs.Texts.{pieces_of, views};
ghost use Rattle.xti_words.specs.Values.{number_in, each_in};
ghost use Rattle.xti_journal.specs.Values.{octets_in, members_in};

use std::alloc::{AllocError, Global};
use xti_base::{Octets, Parts, Sizes};
use xti_words::{hex_bytes, number_in};

/// The bytes of a word: `x:`, and two hexadecimal digits for each.
#[tactic(auto, unfolding(crate::specs::Values::octets_in))]
pub(crate) fn octets_in(alloc: Global, word: &[u8]) -> Result<Option<Octets>, AllocError>
    ensures { IfOk result (λ bytes. bytes ≡ octets_in word.now) }
{
    if word.starts_with(b"x:".as_slice()) {
        hex_bytes(alloc, &word[2..])
    } else {
        Ok(None)
    }
}

/// The pieces of a word between its commas.
fn pieces_of(alloc: Global, word: &[u8]) -> Result<Vec<&[u8]>, AllocError>
    ensures { IfOk result (λ pieces. views pieces.items ≡ pieces_of 44 word.now) }
{
    let mut pieces = Vec::new(alloc);
    for piece in word.split(|c| *c == b',') {
        pieces.push(piece)?;
    }
    Ok(pieces)
}

fn each_octets(alloc: Global, pieces: &[&[u8]]) -> Result<Option<Parts>, AllocError>
    ensures { IfOk result (λ parts. parts ≡ each_in octets_in (views pieces.now)) }
{
    let mut parts = Parts::new(alloc);
    for piece in pieces {
        match octets_in(alloc, piece)? {
            Some(bytes) => parts.push(bytes)?,
            None => return Ok(None),
        }
    }
    Ok(Some(parts))
}

fn each_number(alloc: Global, pieces: &[&[u8]]) -> Result<Option<Sizes>, AllocError>
    ensures { IfOk result (λ sizes. sizes ≡ each_in number_in (views pieces.now)) }
{
    let mut sizes = Sizes::new(alloc);
    for piece in pieces {
        match number_in(piece) {
            Some(number) => sizes.push(number)?,
            None => return Ok(None),
        }
    }
    Ok(Some(sizes))
}

/// The parts of a word, separated by commas; `none` is the list without parts.
#[tactic(auto, unfolding(crate::specs::Values::members_in))]
pub(crate) fn parts_in(alloc: Global, word: &[u8]) -> Result<Option<Parts>, AllocError>
    ensures { IfOk result (λ parts. parts ≡ members_in octets_in word.now) }
{
    if word == b"none".as_slice() {
        return Ok(Some(Parts::new(alloc)));
    }
    each_octets(alloc, pieces_of(alloc, word)?.as_slice())
}

/// The numbers of a word, separated by commas; `none` is the list without numbers.
#[tactic(auto, unfolding(crate::specs::Values::members_in))]
pub(crate) fn sizes_in(alloc: Global, word: &[u8]) -> Result<Option<Sizes>, AllocError>
    ensures { IfOk result (λ sizes. sizes ≡ members_in number_in word.now) }
{
    if word == b"none".as_slice() {
        return Ok(Some(Sizes::new(alloc)));
    }
    each_number(alloc, pieces_of(alloc, word)?.as_slice())
}
