//! What words stand for: numbers, bytes, and several of them.

ghost use Rattle.std.specs.Prelude.{◌≡◌, ◌==◌, ◌≤◌, ◌∷◌, [], length, IfOk, Some};
ghost use Rattle.xti_words.specs.Texts.{is_plain_text};
ghost use Rattle.xti_words.specs.Values.{number_in, plain_bytes, counted, counted_bytes, bytes_in, each_in, list_in};
ghost use Rattle.xti_words.specs.Numbers.{with_digit, can_begin};
ghost use Rattle.xti_words.specs.Texts.{views};

use crate::hex::hex_bytes;
use crate::texts::{is_digit, is_plain_text, pieces_of};
use std::alloc::{AllocError, Global};
use xti_base::limits::MOST_SEND;
use xti_base::{Octets, Parts, Sizes};

/// The most parts or sizes of a word.
pub const MOST_PIECES: usize = 32;

/// The bytes from 0 to 255, which come again and again where bytes are counted.
#[rattlefmt::skip]
static ROUND: [u8; 256] = [
      0,   1,   2,   3,   4,   5,   6,   7,   8,   9,  10,  11,  12,  13,  14,  15,
     16,  17,  18,  19,  20,  21,  22,  23,  24,  25,  26,  27,  28,  29,  30,  31,
     32,  33,  34,  35,  36,  37,  38,  39,  40,  41,  42,  43,  44,  45,  46,  47,
     48,  49,  50,  51,  52,  53,  54,  55,  56,  57,  58,  59,  60,  61,  62,  63,
     64,  65,  66,  67,  68,  69,  70,  71,  72,  73,  74,  75,  76,  77,  78,  79,
     80,  81,  82,  83,  84,  85,  86,  87,  88,  89,  90,  91,  92,  93,  94,  95,
     96,  97,  98,  99, 100, 101, 102, 103, 104, 105, 106, 107, 108, 109, 110, 111,
    112, 113, 114, 115, 116, 117, 118, 119, 120, 121, 122, 123, 124, 125, 126, 127,
    128, 129, 130, 131, 132, 133, 134, 135, 136, 137, 138, 139, 140, 141, 142, 143,
    144, 145, 146, 147, 148, 149, 150, 151, 152, 153, 154, 155, 156, 157, 158, 159,
    160, 161, 162, 163, 164, 165, 166, 167, 168, 169, 170, 171, 172, 173, 174, 175,
    176, 177, 178, 179, 180, 181, 182, 183, 184, 185, 186, 187, 188, 189, 190, 191,
    192, 193, 194, 195, 196, 197, 198, 199, 200, 201, 202, 203, 204, 205, 206, 207,
    208, 209, 210, 211, 212, 213, 214, 215, 216, 217, 218, 219, 220, 221, 222, 223,
    224, 225, 226, 227, 228, 229, 230, 231, 232, 233, 234, 235, 236, 237, 238, 239,
    240, 241, 242, 243, 244, 245, 246, 247, 248, 249, 250, 251, 252, 253, 254, 255,
];

fn with_digit(number: u32, c: u8) -> Option<u32>
    ensures { result ≡ with_digit number c }
{
    if !is_digit(c) {
        return None;
    }
    let longer = number as u64 * 10 + (c - b'0') as u64;
    if longer >= 1 << 32 {
        return None;
    }
    Some(longer as u32)
}

fn can_begin(word: &[u8]) -> bool
    ensures { result ≡ can_begin word.now }
{
    match word {
        [] => false,
        [_] => true,
        [c, ..] => *c != b'0',
    }
}

/// The number that a word is, decimal, without leading zeros, in 32 bits.
pub fn number_in(word: &[u8]) -> Option<u32>
    ensures { result ≡ number_in word.now }
{
    if !can_begin(word) {
        return None;
    }
    let mut number = 0;
    for c in word {
        number = with_digit(number, *c)?;
    }
    Some(number)
}

fn plain_bytes(alloc: Global, text: &[u8]) -> Result<Option<Octets>, AllocError>
    ensures { IfOk result (λ bytes. bytes ≡ plain_bytes text.now) }
{
    if !is_plain_text(text) {
        return Ok(None);
    }
    Ok(Some(Octets::copy_of(alloc, text)?))
}

/// The bytes i mod 256 for each i from 0 below the number; `Err` is out of memory.
pub fn counted(alloc: Global, count: usize) -> Result<Octets, AllocError>
    ensures { IfOk result (λ bytes. bytes ≡ counted count) }
{
    if count <= ROUND.len() {
        return Octets::copy_of(alloc, &ROUND[..count]);
    }
    let mut bytes = Vec::with_capacity(alloc, count)?;
    let mut left = count;
    while left >= ROUND.len() {
        bytes.extend_from_slice(ROUND.as_slice())?;
        left -= ROUND.len();
    }
    bytes.extend_from_slice(&ROUND[..left])?;
    Ok(Octets::from_vec(bytes))
}

// Apart, since most bytes are plain text.
#[inline(never)]
fn counted_bytes(alloc: Global, word: &[u8]) -> Result<Option<Octets>, AllocError>
    ensures { IfOk result (λ bytes. bytes ≡ counted_bytes (number_in word.now)) }
{
    match number_in(word) {
        Some(count) if count as usize <= MOST_SEND => Ok(Some(counted(alloc, count as usize)?)),
        _ => Ok(None),
    }
}

/// The bytes that a word stands for: `t:` and plain text, `x:` and pairs of hexadecimal digits, or `f:` and how many bytes
/// are counted up from 0.
#[tactic(auto, unfolding(crate::specs::Values::bytes_in))]
pub fn bytes_in(alloc: Global, word: &[u8]) -> Result<Option<Octets>, AllocError>
    ensures { IfOk result (λ bytes. bytes ≡ bytes_in word.now) }
{
    if word.starts_with(b"t:".as_slice()) {
        plain_bytes(alloc, &word[2..])
    } else if word.starts_with(b"x:".as_slice()) {
        hex_bytes(alloc, &word[2..])
    } else if word.starts_with(b"f:".as_slice()) {
        counted_bytes(alloc, &word[2..])
    } else {
        Ok(None)
    }
}

fn each_bytes(alloc: Global, pieces: &[&[u8]]) -> Result<Option<Parts>, AllocError>
    ensures { IfOk result (λ parts. parts ≡ each_in bytes_in (views pieces.now)) }
{
    let mut parts = Parts::new(alloc);
    for piece in pieces {
        match bytes_in(alloc, piece)? {
            Some(bytes) => parts.push(bytes)?,
            None => return Ok(None),
        }
    }
    Ok(Some(parts))
}

fn each_number(alloc: Global, pieces: &[&[u8]]) -> Result<Option<Sizes>, AllocError>
    ensures { IfOk result (λ sizes. sizes ≡ each_in number_in (views pieces.now)) }
{
    let mut sizes = Sizes::new(alloc);
    for piece in pieces {
        match number_in(piece) {
            Some(number) => sizes.push(number)?,
            None => return Ok(None),
        }
    }
    Ok(Some(sizes))
}

/// The byte words that a word has, separated by commas.
#[tactic(auto, unfolding(crate::specs::Values::list_in))]
pub fn parts_in(alloc: Global, word: &[u8]) -> Result<Option<Parts>, AllocError>
    ensures { IfOk result (λ parts. parts ≡ list_in bytes_in word.now) }
{
    let pieces = pieces_of(alloc, b',', word)?;
    if pieces.len() <= MOST_PIECES {
        each_bytes(alloc, pieces.as_slice())
    } else {
        Ok(None)
    }
}

/// The numbers that a word has, separated by commas.
#[tactic(auto, unfolding(crate::specs::Values::list_in))]
pub fn sizes_in(alloc: Global, word: &[u8]) -> Result<Option<Sizes>, AllocError>
    ensures { IfOk result (λ sizes. sizes ≡ list_in number_in word.now) }
{
    let pieces = pieces_of(alloc, b',', word)?;
    if pieces.len() <= MOST_PIECES {
        each_number(alloc, pieces.as_slice())
    } else {
        Ok(None)
    }
}
