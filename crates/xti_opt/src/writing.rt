//! Writing lists of options.

ghost use Rattle.std.specs.Prelude.{◌≡◌, ◌≤◌, ◌^◌, ◌++◌, All, length, IfOk, IfNone, IfSome, OnOk};
ghost use Rattle.xti_base.specs.Options.{word_bytes, option_bytes, options_bytes, filling};
ghost use Rattle.xti_opt.specs.Written.{IsWritable};

use crate::OptList;
use std::alloc::{AllocError, Global};
use xti_base::{Octets, Opt};

/// The bytes of the options, one after the other, each filled up with zeros to a multiple of four. A value has at most
/// 4,294,967,279 bytes, so that its length with the header is a word.
pub fn write_options(alloc: Global, list: &OptList) -> Result<Octets, AllocError>
    requires { All IsWritable list.now }
    ensures { IfOk result (λ bytes. bytes ≡ options_bytes list.now) }
{
    let options = list.as_slice();
    let size = size_of_options(options).ok_or(AllocError)?;
    let mut bytes = Vec::with_capacity(alloc, size)?;
    for option in options {
        write_option(&mut bytes, option)?;
    }
    Ok(Octets::from_vec(bytes))
}

/// How many bytes the options take; `None` exactly if no memory has as many.
fn size_of_options(options: &[Opt]) -> Option<usize>
    requires { All IsWritable options.now }
    ensures size { IfSome result (λ size. size ≡ length (options_bytes options.now)) }
    ensures none { IfNone result (2 ^ 64 ≤ length (options_bytes options.now)) }
{
    let mut size = 0usize;
    for option in options {
        size = size.checked_add(size_of_option(option))?;
    }
    Some(size)
}

fn size_of_option(option: &Opt) -> usize
    requires { IsWritable option.now }
    ensures { result ≡ length (option_bytes option.now) }
{
    let length = option.value.as_slice().len();
    16 + length + filling(length)
}

/// How many bytes fill up to a multiple of four.
fn filling(length: usize) -> usize
    ensures { result ≡ filling length }
{
    (4 - length % 4) % 4
}

/// Adds the option's bytes at the end.
fn write_option(bytes: &mut Vec<u8>, option: &Opt) -> Result<(), AllocError>
    requires { IsWritable option.now }
    ensures { OnOk result (bytes.new.items ≡ bytes.old.items ++ option_bytes option.now) }
{
    let value = option.value.as_slice();
    write_word(bytes, 16 + value.len() as u32)?;
    write_word(bytes, option.level)?;
    write_word(bytes, option.name)?;
    write_word(bytes, option.status)?;
    bytes.extend_from_slice(value)?;
    bytes.extend_from_slice(&[0, 0, 0][..filling(value.len())])?;
    Ok(())
}

fn write_word(bytes: &mut Vec<u8>, word: u32) -> Result<(), AllocError>
    ensures { OnOk result (bytes.new.items ≡ bytes.old.items ++ word_bytes word) }
{
    bytes.extend_from_slice(&word.to_be_bytes())?;
    Ok(())
}
