//! Reading lists of options.

ghost use Rattle.std.specs.Prelude.{◌≡◌, ◌≤◌, ◌<◌, ◌↔◌, ℕ, All, true, not, length, Some, IfOk, IsErrOf, MatchOption};
ghost use Rattle.xti_base.specs.Options.{front_length, front_option, read_options, is_option_list, the_options, options_bytes, IsOption, IsFirstWrongOption};
ghost use Rattle.xti_opt.specs.Read.{is_bad, RefusesFirstWrong};

use crate::OptList;
use crate::first::word_at;
use std::alloc::{AllocError, Global};
use thiserror::Error;
use xti_base::{Octets, Opt, size_of_front};

/// Why bytes were not read as a list of options.
#[derive(Clone, Copy, Debug, PartialEq, Eq, Error)]
pub enum OptRead {
    /// The bytes are no list of options; the place where the first wrong option begins, from 0.
    #[error("the option at byte {at} is wrong")]
    BadOption { at: usize },
    /// Out of memory.
    #[error("out of memory")]
    OutOfMemory,
}

impl From<AllocError> for OptRead {
    ghost use Rattle.xti_opt.specs.declared.reading.OptRead.TheVariants.{OutOfMemory};

    ghost from_gives = { λ _ e. e ≡ OutOfMemory };

    fn from(_error: AllocError) -> OptRead {
        OptRead::OutOfMemory
    }
}

/// The options of the bytes. The form is looked at first, without memory, so being out of memory never hides a wrong option.
/// Errors: `BadOption` exactly where the bytes are no list of options; else `OutOfMemory` where memory runs out.
pub fn read_options(alloc: Global, bytes: &[u8]) -> Result<OptList, OptRead>
    ensures ok { IfOk result (λ list. read_options bytes.now ≡ Some list) }
    ensures bad { is_bad result ≡ not (is_option_list bytes.now) }
    ensures at { RefusesFirstWrong bytes.now result }

    // What is read has these bytes again, and may be written.
    ensures back { IfOk result (λ list. options_bytes list ≡ bytes.now) }
    ensures options { IfOk result (λ list. All IsOption list) }
{
    match first_wrong_option(bytes) {
        Some(at) => Err(OptRead::BadOption { at }),
        None => Ok(read_whole(alloc, bytes)?),
    }
}

/// The place where the first wrong option begins; `None` exactly if the bytes are a list of options.
fn first_wrong_option(bytes: &[u8]) -> Option<usize>
    ensures { MatchOption result (is_option_list bytes.now ≡ true) (IsFirstWrongOption bytes.now) }
{
    let mut at = 0;
    while at < bytes.len() {
        match size_of_front(&bytes[at..]) {
            Some(size) => at += size,
            None => return Some(at),
        }
    }
    None
}

/// The options of bytes that are a list of them.
fn read_whole(alloc: Global, bytes: &[u8]) -> Result<OptList, AllocError>
    requires { is_option_list bytes.now ≡ true }
    ensures { IfOk result (λ list. list ≡ the_options bytes.now) }
{
    let mut list = OptList::new(alloc);
    let mut rest = bytes;
    while let Some(size) = size_of_front(rest) {
        list.push(first_option(alloc, rest)?)?;
        rest = rest.split_at(size).1;
    }
    Ok(list)
}

/// The first option.
fn first_option(alloc: Global, bytes: &[u8]) -> Result<Opt, AllocError>
    requires header { 16 ≤ front_length bytes.now }
    requires value { front_length bytes.now ≤ length bytes.now }
    ensures { IfOk result (λ option. option ≡ front_option bytes.now) }
{
    let length = word_at(bytes, 0) as usize;
    Ok(Opt {
        level: word_at(bytes, 1),
        name: word_at(bytes, 2),
        status: word_at(bytes, 3),
        value: Octets::copy_of(alloc, &bytes[16..length])?,
    })
}
