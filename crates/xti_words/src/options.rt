//! Options as scripts write them.

ghost use Rattle.std.specs.Prelude.{◌≡◌, IfOk};
ghost use Rattle.xti_words.specs.Values.{plain_option, option_with, option_in, options_in, each_in};
ghost use Rattle.xti_words.specs.Texts.{views};

use crate::texts::pieces_of;
use crate::values::{bytes_in, number_in};
use std::alloc::{AllocError, Global};
use xti_base::{Octets, Opt};
use xti_opt::{OptList, write_options};

fn plain_option(level: Option<u32>, name: Option<u32>, value: Octets) -> Option<Opt>
    ensures { result ≡ plain_option level name value }
{
    Some(Opt {
        level: level?,
        name: name?,
        status: 0,
        value,
    })
}

/// The option of this level whose name and value are written so, with a sign of equality between them.
fn option_at(alloc: Global, level: &[u8], others: &[u8]) -> Result<Option<Opt>, AllocError>
    ensures { IfOk result (λ option. option ≡ option_with level.now others.now) }
{
    let level = number_in(level);
    match pieces_of(alloc, b'=', others)?.as_slice() {
        [name] => Ok(plain_option(level, number_in(name), Octets::new(alloc))),
        [name, value] => match number_in(value) {
            Some(value) => {
                let value = Octets::copy_of(alloc, &value.to_be_bytes())?;
                Ok(plain_option(level, number_in(name), value))
            }
            None => Ok(None),
        },
        _ => Ok(None),
    }
}

/// The option that is written as level, slash and name, and then its value after a sign of equality, if it has one.
#[tactic(auto, unfolding(crate::specs::Values::option_in))]
fn option_in(alloc: Global, piece: &[u8]) -> Result<Option<Opt>, AllocError>
    ensures { IfOk result (λ option. option ≡ option_in piece.now) }
{
    match pieces_of(alloc, b'/', piece)?.as_slice() {
        [level, others] => option_at(alloc, level, others),
        _ => Ok(None),
    }
}

fn each_option(alloc: Global, pieces: &[&[u8]]) -> Result<Option<OptList>, AllocError>
    ensures { IfOk result (λ options. options ≡ each_in option_in (views pieces.now)) }
{
    let mut options = OptList::new(alloc);
    for piece in pieces {
        match option_in(alloc, piece)? {
            Some(option) => options.push(option)?,
            None => return Ok(None),
        }
    }
    Ok(Some(options))
}

/// The bytes of options that a word stands for: `o:` and options, separated by commas, or another byte word.
#[tactic(auto, unfolding(crate::specs::Values::options_in))]
pub fn options_in(alloc: Global, word: &[u8]) -> Result<Option<Octets>, AllocError>
    ensures { IfOk result (λ bytes. bytes ≡ options_in word.now) }
{
    if !word.starts_with(b"o:".as_slice()) {
        return bytes_in(alloc, word);
    }
    let pieces = pieces_of(alloc, b',', &word[2..])?;
    match each_option(alloc, pieces.as_slice())? {
        Some(options) => Ok(Some(write_options(alloc, &options)?)),
        None => Ok(None),
    }
}
