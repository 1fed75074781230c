ghost use Rattle.std.specs.Prelude.{◌≡◌, ◌*◌, ◌+◌, ◌/◌, ◌%◌, ◌∷◌, [], ◌++◌, ◌<◌, ◌≤◌, OnOk, OnErr, length, codes, decimal};
ghost use Rattle.std.specs.Io.{StartsWith};
ghost use Rattle.std.specs.List.{flat_map};
ghost use Rattle.std.specs.Vec.{vec_len, vec_capacity};
ghost use Rattle.xti_words.specs.WrittenWords.{number_word, signed_word, hex_digit, hex_pair, pairs_word, octets_word};

use itoa::Buffer;
use std::alloc::AllocError;

/// Fewer bytes are written without a call.
const FEW: usize = 8;

/// So many bytes are turned into their digits at once. Those of fewer are looked up one by one.
const SIXTEEN: usize = 16;

/// The room that the digits of so many bytes need.
const PAIRS_OF_SIXTEEN: usize = 2 * SIXTEEN;

/// The room that up to five digits need.
const FIVE: usize = 5;

/// The two digits of each number below 100.
static PAIRS: [u8; 200] =
    *b"00010203040506070809101112131415161718192021222324252627282930313233343536373839404142434445464748495051525354555657585960616263646566676869707172737475767778798081828384858687888990919293949596979899";

/// The two hexadecimal digits of each byte.
static HEX_PAIRS: [u8; 512] = *b"000102030405060708090a0b0c0d0e0f101112131415161718191a1b1c1d1e1f\
       202122232425262728292a2b2c2d2e2f303132333435363738393a3b3c3d3e3f\
       404142434445464748494a4b4c4d4e4f505152535455565758595a5b5c5d5e5f\
       606162636465666768696a6b6c6d6e6f707172737475767778797a7b7c7d7e7f\
       808182838485868788898a8b8c8d8e8f909192939495969798999a9b9c9d9e9f\
       a0a1a2a3a4a5a6a7a8a9aaabacadaeafb0b1b2b3b4b5b6b7b8b9babbbcbdbebf\
       c0c1c2c3c4c5c6c7c8c9cacbcccdcecfd0d1d2d3d4d5d6d7d8d9dadbdcdddedf\
       e0e1e2e3e4e5e6e7e8e9eaebecedeeeff0f1f2f3f4f5f6f7f8f9fafbfcfdfeff";

/// Appends a text. After an error the buffer is as before.
#[inline(always)]
pub fn put_text(out: &mut Vec<u8>, text: &str) -> Result<(), AllocError>
    ensures items { OnOk result (out.new.items ≡ out.old.items ++ text.now) }
    ensures err { OnErr result (out.new.items ≡ out.old.items) }
{
    out.extend_from_slice(text.as_bytes())
}

/// Appends a number in decimal digits, without leading zeros. After an error the buffer still begins with what it had.
// A key is short and known where it is written: it is copied there, and not by a call. The room for all is asked once.
#[inline(always)]
pub fn put_number(out: &mut Vec<u8>, key: &str, n: u64) -> Result<(), AllocError>
    ensures items { OnOk result (out.new.items ≡ out.old.items ++ number_word key.now n) }
    ensures kept { OnErr result (StartsWith out.new.items out.old.items) }
{
    if n >= 100_000 || out.capacity() - out.len() < key.len() + FIVE {
        return put_long(out, key, n);
    }
    out.extend_from_slice(key.as_bytes())?;
    if n < 10 {
        push_digit(out, n);
    } else {
        push_digits(out, n);
    }
    Ok(())
}

/// Appends a number in decimal digits, with `-` before it where it is below 0. After an error the buffer still begins with what it
/// had.
pub fn put_signed(out: &mut Vec<u8>, key: &str, n: i64) -> Result<(), AllocError>
    ensures items { OnOk result (out.new.items ≡ out.old.items ++ signed_word key.now n) }
    ensures kept { OnErr result (StartsWith out.new.items out.old.items) }
{
    let mut buffer = Buffer::new();
    put_text(out, key)?;
    put_text(out, buffer.format(n))
}

// A longer number, or one for which room is made.
#[inline(never)]
fn put_long(out: &mut Vec<u8>, key: &str, n: u64) -> Result<(), AllocError>
    ensures items { OnOk result (out.new.items ≡ out.old.items ++ key.now ++ decimal n) }
    ensures kept { OnErr result (StartsWith out.new.items out.old.items) }
{
    let mut buffer = Buffer::new();
    put_text(out, key)?;
    put_text(out, buffer.format(n))
}

fn digit(n: u64) -> u8
    requires { n < 10 }
    ensures { result ≡ 48 + n }
{
    b'0' + n as u8
}

#[inline(always)]
#[tactic(auto, using(std::proofs::lemmas::Fmt::decimal_digit))]
fn push_digit(out: &mut Vec<u8>, n: u64)
    requires { (n < 10) × (vec_len out.old < vec_capacity out.old) }
    ensures { out.new.items ≡ out.old.items ++ decimal n }
{
    out.push_reserved(digit(n));
}

// Two to five digits, for which there is room.
#[inline(never)]
#[tactic(auto, using(crate::proofs::Digits::two))]
fn push_digits(out: &mut Vec<u8>, n: u64)
    requires { (10 ≤ n) × (n < 100000) × (vec_len out.old + 5 ≤ vec_capacity out.old) }
    ensures { out.new.items ≡ out.old.items ++ decimal n }
{
    if n < 100 {
        return push_pair(out, n);
    }
    let hundreds = n / 100;
    if n < 1_000 {
        out.push_reserved(digit(hundreds));
        return push_pair(out, n % 100);
    }
    if n < 10_000 {
        push_pair(out, hundreds % 100);
        return push_pair(out, n % 100);
    }
    out.push_reserved(digit(hundreds / 100));
    push_pair(out, hundreds % 100);
    push_pair(out, n % 100);
}

#[inline(always)]
fn push_pair(out: &mut Vec<u8>, n: u64)
    requires { (n < 100) × (vec_len out.old + 2 ≤ vec_capacity out.old) }
    ensures items { out.new.items ≡ out.old.items ++ (48 + n / 10) ∷ (48 + n % 10) ∷ [] }
    ensures count { vec_len out.new ≡ vec_len out.old + 2 }
    ensures room { vec_capacity out.new ≡ vec_capacity out.old }
{
    let [ten, one] = pair(n);
    out.push_reserved(ten);
    out.push_reserved(one);
}

// The two digits of a number below 100.
#[inline(always)]
#[tactic(auto, using(crate::proofs::Pairs::pairs_at))]
fn pair(n: u64) -> [u8; 2]
    requires { n < 100 }
    ensures { result ≡ (48 + n / 10) ∷ (48 + n % 10) ∷ [] }
{
    let from = n as usize * 2;
    [PAIRS[from], PAIRS[from + 1]]
}

fn hex_digit(d: u8) -> u8
    requires { d < 16 }
    ensures { result ≡ hex_digit d }
{
    if d < 10 { b'0' + d } else { b'a' + (d - 10) }
}

/// Appends bytes as `x:` and two hexadecimal digits for each. After an error the buffer still begins with what it had.
#[inline(always)]
pub fn put_octets(out: &mut Vec<u8>, key: &str, bytes: &[u8]) -> Result<(), AllocError>
    ensures items { OnOk result (out.new.items ≡ out.old.items ++ octets_word key.now bytes.now) }
    ensures kept { OnErr result (StartsWith out.new.items out.old.items) }
{
    put_text(out, key)?;
    put_pairs(out, "x:", bytes)
}

/// Appends two hexadecimal digits for each byte, after a text that ends in `x:`, as " addr=x:". After an error the buffer still
/// begins with what it had.
#[inline(always)]
pub fn put_pairs(out: &mut Vec<u8>, key: &str, bytes: &[u8]) -> Result<(), AllocError>
    ensures items { OnOk result (out.new.items ≡ out.old.items ++ pairs_word key.now bytes.now) }
    ensures kept { OnErr result (StartsWith out.new.items out.old.items) }
{
    put_text(out, key)?;
    if bytes.is_empty() {
        Ok(())
    } else {
        put_hex(out, bytes)
    }
}

// Mostly the bytes are few, and there is room: nothing else is called then.
#[inline(never)]
fn put_hex(out: &mut Vec<u8>, bytes: &[u8]) -> Result<(), AllocError>
    ensures items { OnOk result (out.new.items ≡ out.old.items ++ flat_map hex_pair bytes.now) }
    ensures kept { OnErr result (StartsWith out.new.items out.old.items) }
{
    if bytes.len() >= FEW || out.capacity() - out.len() < PAIRS_OF_SIXTEEN {
        return put_many(out, bytes);
    }
    put_few(out, bytes)
}

// Room for the digits of sixteen bytes is taken at once, and what isn't filled is given back.
#[inline(always)]
fn put_few(out: &mut Vec<u8>, bytes: &[u8]) -> Result<(), AllocError>
    requires { length bytes.now < 16 }
    ensures items { OnOk result (out.new.items ≡ out.old.items ++ flat_map hex_pair bytes.now) }
    ensures err { OnErr result (out.new.items ≡ out.old.items) }
{
    let start = out.len();
    out.extend_from_slice(&[0; PAIRS_OF_SIXTEEN])?;
    let (_, room) = out.as_mut_slice().split_at_mut(start);
    let (pairs, _) = room.split_at_mut(2 * bytes.len());
    look_up_pairs(pairs, bytes);
    out.truncate(start + 2 * bytes.len());
    Ok(())
}

#[inline(always)]
fn look_up_pairs(out: &mut [u8], bytes: &[u8])
    requires { length out.old ≡ 2 * length bytes.now }
    ensures { out.new ≡ flat_map hex_pair bytes.now }
{
    for i in 0..bytes.len() {
        let [high, low] = pair_of(bytes[i]);
        out[2 * i] = high;
        out[2 * i + 1] = low;
    }
}

// The two digits of a byte.
#[inline(always)]
#[tactic(auto, using(crate::proofs::HexPairs::hex_pairs_at))]
fn pair_of(b: u8) -> [u8; 2]
    ensures { result ≡ hex_pair b }
{
    let from = 2 * b as usize;
    [HEX_PAIRS[from], HEX_PAIRS[from + 1]]
}

// Room for all the digits is asked once.
#[inline(never)]
fn put_many(out: &mut Vec<u8>, bytes: &[u8]) -> Result<(), AllocError>
    ensures items { OnOk result (out.new.items ≡ out.old.items ++ flat_map hex_pair bytes.now) }
    ensures kept { OnErr result (StartsWith out.new.items out.old.items) }
{
    out.reserve(2 * bytes.len())?;
    let mut rest = bytes;
    while let Some((sixteen, others)) = rest.split_first_chunk::<SIXTEEN>() {
        out.extend_from_slice(&pairs_of(sixteen))?;
        rest = others;
    }
    if rest.is_empty() {
        return Ok(());
    }
    put_few(out, rest)
}

#[inline(always)]
fn pairs_of(sixteen: &[u8; SIXTEEN]) -> [u8; PAIRS_OF_SIXTEEN]
    ensures { result ≡ flat_map hex_pair sixteen.now }
{
    let mut pairs = [0; PAIRS_OF_SIXTEEN];
    fill_pairs(&mut pairs, sixteen);
    pairs
}

// Two digits for each byte. Without a table, so that several bytes are turned at once.
#[inline(always)]
fn fill_pairs(out: &mut [u8], bytes: &[u8])
    requires { length out.old ≡ 2 * length bytes.now }
    ensures { out.new ≡ flat_map hex_pair bytes.now }
{
    for i in 0..bytes.len() {
        let b = bytes[i];
        out[2 * i] = hex_digit(b / 16);
        out[2 * i + 1] = hex_digit(b % 16);
    }
}
