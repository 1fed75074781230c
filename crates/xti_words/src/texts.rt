//! Lines, pieces of words, names and short texts.

ghost use Rattle.std.specs.Prelude.{◌≡◌, ◌∷◌, ◌<◌, ◌&&◌, [], if◌then◌else◌, length, nat_le, IfOk};
ghost use Rattle.std.specs.List.{list_all};
ghost use Rattle.xti_words.specs.Texts.{IsFirstLine, lines_of, pieces_of, is_ascii, is_lower, is_digit, is_name_byte, is_name, is_text_byte, is_plain_text};
ghost use Rattle.xti_words.specs.Texts.{views};

use memchr::memchr;
use std::alloc::{AllocError, Global};

/// 1 at each byte that may stand after `t:`: letters, digits, `_`, `.` and `-`.
#[rattlefmt::skip]
static TEXT_BYTES: [u8; 256] = [
    0, 0, 0, 0, 0, 0, 0, 0, 0, 0, 0, 0, 0, 0, 0, 0, 0, 0, 0, 0, 0, 0, 0, 0, 0, 0, 0, 0, 0, 0, 0, 0,
    0, 0, 0, 0, 0, 0, 0, 0, 0, 0, 0, 0, 0, 1, 1, 0, 1, 1, 1, 1, 1, 1, 1, 1, 1, 1, 0, 0, 0, 0, 0, 0,
    0, 1, 1, 1, 1, 1, 1, 1, 1, 1, 1, 1, 1, 1, 1, 1, 1, 1, 1, 1, 1, 1, 1, 1, 1, 1, 1, 0, 0, 0, 0, 1,
    0, 1, 1, 1, 1, 1, 1, 1, 1, 1, 1, 1, 1, 1, 1, 1, 1, 1, 1, 1, 1, 1, 1, 1, 1, 1, 1, 0, 0, 0, 0, 0,
    0, 0, 0, 0, 0, 0, 0, 0, 0, 0, 0, 0, 0, 0, 0, 0, 0, 0, 0, 0, 0, 0, 0, 0, 0, 0, 0, 0, 0, 0, 0, 0,
    0, 0, 0, 0, 0, 0, 0, 0, 0, 0, 0, 0, 0, 0, 0, 0, 0, 0, 0, 0, 0, 0, 0, 0, 0, 0, 0, 0, 0, 0, 0, 0,
    0, 0, 0, 0, 0, 0, 0, 0, 0, 0, 0, 0, 0, 0, 0, 0, 0, 0, 0, 0, 0, 0, 0, 0, 0, 0, 0, 0, 0, 0, 0, 0,
    0, 0, 0, 0, 0, 0, 0, 0, 0, 0, 0, 0, 0, 0, 0, 0, 0, 0, 0, 0, 0, 0, 0, 0, 0, 0, 0, 0, 0, 0, 0, 0,
];

/// The first line, and what is after its end.
pub fn first_line(text: &[u8]) -> (&[u8], &[u8])
    requires { 0 < length text.now }
    ensures lines { lines_of text.now ≡ result.0.now ∷ lines_of result.1.now }
    // The line ends with LF, or is the whole text.
    ensures end { IsFirstLine text.now result.0.now result.1.now }
    ensures shorter { length result.1.now < length text.now }
{
    match memchr(b'\n', text) {
        Some(end) => (&text[..end], &text[end + 1..]),
        None => (text, &[]),
    }
}

/// The pieces of a text that the separator parts.
pub fn pieces_of(alloc: Global, separator: u8, text: &[u8]) -> Result<Vec<&[u8]>, AllocError>
    ensures { IfOk result (λ pieces. views pieces.items ≡ pieces_of separator text.now) }
{
    let mut pieces = Vec::new(alloc);
    for piece in text.split(|c| *c == separator) {
        pieces.push(piece)?;
    }
    Ok(pieces)
}

/// Whether each byte is one of ASCII.
pub fn is_ascii(text: &[u8]) -> bool
    ensures { result ≡ is_ascii text.now }
{
    text.iter().all(|c| *c < 128)
}

fn is_lower(c: u8) -> bool
    ensures { result ≡ is_lower c }
{
    b'a' <= c && c <= b'z'
}

/// Whether the byte is a decimal digit.
pub fn is_digit(c: u8) -> bool
    ensures { result ≡ is_digit c }
{
    b'0' <= c && c <= b'9'
}

fn is_name_byte(c: u8) -> bool
    ensures { result ≡ is_name_byte c }
{
    is_lower(c) || is_digit(c) || c == b'_'
}

fn are_name_bytes(text: &[u8]) -> bool
    ensures { result ≡ list_all is_name_byte text.now }
{
    text.iter().all(|c| is_name_byte(*c))
}

/// Whether the text can be a name.
pub fn is_name(text: &[u8]) -> bool
    ensures { result ≡ is_name text.now }
{
    match text {
        [] => false,
        [first, rest @ ..] => is_lower(*first) && rest.len() <= 15 && are_name_bytes(rest),
    }
}

#[inline(always)]
fn mark(c: u8) -> u8
    ensures { result ≡ (if is_text_byte c then 1 else 0) }
{
    TEXT_BYTES[c as usize]
}

// Without a branch for each byte.
#[inline(always)]
fn are_marked(bytes: &[u8]) -> bool
    ensures { result ≡ list_all is_text_byte bytes.now }
{
    let mut all = 1;
    for c in bytes {
        all &= mark(*c);
    }
    all == 1
}

fn is_text_byte(c: u8) -> bool
    ensures { result ≡ is_text_byte c }
{
    mark(c) == 1
}

// One byte after the other, which takes least where they are few.
fn are_few_text_bytes(text: &[u8]) -> bool
    ensures { result ≡ list_all is_text_byte text.now }
{
    text.iter().all(|c| is_text_byte(*c))
}

fn are_text_bytes(text: &[u8]) -> bool
    ensures { result ≡ list_all is_text_byte text.now }
{
    let mut rest = text;
    while let Some((eight, others)) = rest.split_first_chunk::<8>() {
        if !are_marked(eight.as_slice()) {
            return false;
        }
        rest = others;
    }
    are_few_text_bytes(rest)
}

/// Whether the text may stand after `t:`.
pub fn is_plain_text(text: &[u8]) -> bool
    ensures { result ≡ is_plain_text text.now }
{
    !text.is_empty() && are_text_bytes(text)
}
