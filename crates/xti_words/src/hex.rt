//! Bytes that are written as hexadecimal digits.

ghost use Rattle.std.specs.Prelude.{◌≡◌, ◌≤◌, ◌-◌, ◌/◌, ◌%◌, length, take, drop, IfOk, Some, None, if◌then◌else◌, nat_lt, option_map};
ghost use Rattle.xti_words.specs.Values.{hex_digit, hex_bytes};

use std::alloc::{AllocError, Global};
use xti_base::Octets;

/// So many digits are read at once.
const DIGITS: usize = 32;

/// So many bytes are read at once. A list of no more takes no memory.
const BYTES: usize = 16;

/// What the digit is worth, or 16 where it is none.
#[inline(always)]
fn worth(c: u8) -> u8
    ensures { hex_digit c ≡ (if nat_lt result 16 then Some result else None) }
{
    match c {
        b'0'..=b'9' => c - b'0',
        b'a'..=b'f' => c - b'a' + 10,
        _ => 16,
    }
}

/// The bytes of many digits.
#[inline(always)]
fn bytes_at_once(digits: &[u8; DIGITS]) -> Option<[u8; BYTES]>
    ensures { result ≡ hex_bytes digits.now }
{
    let mut worths = [0; DIGITS];
    let mut most = 0;
    for i in 0..DIGITS {
        let value = worth(digits[i]);
        worths[i] = value;
        most = most.max(value);
    }
    if most >= 16 {
        return None;
    }
    let mut bytes = [0; BYTES];
    for i in 0..BYTES {
        bytes[i] = worths[2 * i] * 16 + worths[2 * i + 1];
    }
    Some(bytes)
}

/// The bytes of no more digits than are read at once, and zeros after them.
fn few_bytes(digits: &[u8]) -> Option<[u8; BYTES]>
    requires few { length digits.now ≤ DIGITS }
    requires pairs { length digits.now % 2 ≡ 0 }
    ensures { hex_bytes digits.now ≡ option_map (take (length digits.now / 2)) result }
{
    let mut bytes = [0; BYTES];
    for i in 0..digits.len() / 2 {
        let high = worth(digits[2 * i]);
        let low = worth(digits[2 * i + 1]);
        if high >= 16 || low >= 16 {
            return None;
        }
        bytes[i] = high * 16 + low;
    }
    Some(bytes)
}

/// The bytes of more digits than are read at once. The last so many are read whole, also where some of them were read before.
fn many_bytes(
    alloc: Global,
    digits: &[u8],
    last: &[u8; DIGITS],
) -> Result<Option<Octets>, AllocError>
    requires pairs { length digits.now % 2 ≡ 0 }
    requires last { last.now ≡ drop (length digits.now - DIGITS) digits.now }
    ensures { IfOk result (λ bytes. bytes ≡ hex_bytes digits.now) }
{
    let mut bytes = Vec::with_capacity(alloc, digits.len() / 2)?;
    let mut rest = digits;
    while let Some((first, others)) = rest.split_first_chunk::<DIGITS>() {
        match bytes_at_once(first) {
            Some(more) => bytes.extend_from_slice(&more)?,
            None => return Ok(None),
        }
        rest = others;
    }
    match bytes_at_once(last) {
        Some(more) => bytes.extend_from_slice(&more[BYTES - rest.len() / 2..])?,
        None => return Ok(None),
    }
    Ok(Some(Octets::from_vec(bytes)))
}

/// The bytes of pairs of hexadecimal digits; `None` where they are none, `Err` is out of memory.
// Apart, since most bytes of scripts are plain text.
#[inline(never)]
pub fn hex_bytes(alloc: Global, digits: &[u8]) -> Result<Option<Octets>, AllocError>
    ensures { IfOk result (λ bytes. bytes ≡ hex_bytes digits.now) }
{
    if digits.is_empty() {
        return Ok(Some(Octets::new(alloc)));
    }
    if digits.len() % 2 != 0 {
        return Ok(None);
    }
    match digits.split_last_chunk::<DIGITS>() {
        Some((others, last)) if !others.is_empty() => many_bytes(alloc, digits, last),
        _ => match few_bytes(digits) {
            Some(bytes) => Ok(Some(Octets::copy_of(alloc, &bytes[..digits.len() / 2])?)),
            None => Ok(None),
        },
    }
}
