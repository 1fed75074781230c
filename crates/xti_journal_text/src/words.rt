//! The words of a journal's lines, each written after the text that separates it from the word before.

ghost use Rattle.std.specs.Prelude.{◌≡◌, ◌++◌, OnOk};
ghost use Rattle.std.specs.List.{flat_map};
ghost use Rattle.xti_words.specs.WrittenWords.{hex_pair};
ghost use Rattle.xti_journal_text.specs.JournalText.{bit_word, mode_word, limit_word, parts_field, sizes_field, address_words, address_limits, most_words, state_end};

use std::alloc::AllocError;
use xti_base::{Limit, Octets, State};
use xti_words::{put_number, put_signed, put_text};

pub(crate) fn put_limit(out: &mut Vec<u8>, key: &str, l: Limit) -> Result<(), AllocError>
    ensures { OnOk result (out.new.items ≡ out.old.items ++ limit_word key.now l) }
{
    put_signed(out, key, l.number())
}

// Two hexadecimal digits for each byte, after a text that ends in `x:`.
#[inline(always)]
pub(crate) fn put_pairs(out: &mut Vec<u8>, key: &str, o: &Octets) -> Result<(), AllocError>
    ensures { OnOk result (out.new.items ≡ out.old.items ++ key.now ++ flat_map hex_pair o.now) }
{
    xti_words::put_pairs(out, key, o.as_slice())
}

pub(crate) fn put_bit(out: &mut Vec<u8>, key: &str, b: bool) -> Result<(), AllocError>
    ensures { OnOk result (out.new.items ≡ out.old.items ++ bit_word key.now b) }
{
    put_text(out, key).and(put_text(out, if b { "1" } else { "0" }))
}

pub(crate) fn put_mode(out: &mut Vec<u8>, key: &str, nonblock: bool) -> Result<(), AllocError>
    ensures { OnOk result (out.new.items ≡ out.old.items ++ mode_word key.now nonblock) }
{
    put_text(out, key).and(put_text(out, if nonblock { "nonblock" } else { "block" }))
}

pub(crate) fn put_parts(out: &mut Vec<u8>, parts: &[Octets]) -> Result<(), AllocError>
    ensures { OnOk result (out.new.items ≡ out.old.items ++ parts_field parts.now) }
{
    match parts.split_first() {
        None => put_text(out, " parts=none"),
        Some((first, others)) => {
            put_pairs(out, " parts=x:", first)?;
            for part in others {
                put_pairs(out, ",x:", part)?;
            }
            Ok(())
        }
    }
}

pub(crate) fn put_sizes(out: &mut Vec<u8>, sizes: &[u32]) -> Result<(), AllocError>
    ensures { OnOk result (out.new.items ≡ out.old.items ++ sizes_field sizes.now) }
{
    match sizes.split_first() {
        None => put_text(out, " sizes=none"),
        Some((first, others)) => {
            put_number(out, " sizes=", *first as u64)?;
            for size in others {
                put_number(out, ",", *size as u64)?;
            }
            Ok(())
        }
    }
}

// The most bytes that the caller takes of address and options.
#[inline(never)]
pub(crate) fn put_address_limits(out: &mut Vec<u8>, amax: u32, omax: u32) -> Result<(), AllocError>
    ensures { OnOk result (out.new.items ≡ out.old.items ++ address_limits amax omax) }
{
    put_number(out, " amax=", amax as u64).and(put_number(out, " omax=", omax as u64))
}

// The address and the options of a call.
#[inline(always)]
pub(crate) fn put_address_and_options(
    out: &mut Vec<u8>,
    addr: &Octets,
    opt: &Octets,
) -> Result<(), AllocError>
    ensures { OnOk result (out.new.items ≡ out.old.items ++ address_words addr.now opt.now) }
{
    put_pairs(out, " addr=x:", addr).and(put_pairs(out, " opt=x:", opt))
}

pub(crate) fn put_most(out: &mut Vec<u8>, amax: u32, omax: u32, umax: u32) -> Result<(), AllocError>
    ensures { OnOk result (out.new.items ≡ out.old.items ++ most_words amax omax umax) }
{
    put_address_limits(out, amax, omax).and(put_number(out, " umax=", umax as u64))
}

// The state after a call's answer, which ends the line. Each text's length is known here.
pub(crate) fn put_state(out: &mut Vec<u8>, state: State) -> Result<(), AllocError>
    ensures { OnOk result (out.new.items ≡ out.old.items ++ state_end state) }
{
    match state {
        State::T_UNINIT => put_text(out, " T_UNINIT\n"),
        State::T_UNBND => put_text(out, " T_UNBND\n"),
        State::T_IDLE => put_text(out, " T_IDLE\n"),
        State::T_OUTCON => put_text(out, " T_OUTCON\n"),
        State::T_INCON => put_text(out, " T_INCON\n"),
        State::T_DATAXFER => put_text(out, " T_DATAXFER\n"),
        State::T_OUTREL => put_text(out, " T_OUTREL\n"),
        State::T_INREL => put_text(out, " T_INREL\n"),
    }
}
