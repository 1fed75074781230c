//! How much of an input is a frame.

ghost use Rattle.std.specs.Prelude.{◌≡◌, ◌≤◌, ◌<◌, ◌+◌, ◌^◌, ℕ, [], ◌∷◌, length, drop, IfSome};
ghost use Rattle.tpi_grammar.specs.Form.{scan};
ghost use Rattle.tpi_grammar.specs.Word.{after_word as later_word, ReadsWord};
ghost use Rattle.tpi_grammar.specs.Frame.{offset, part_range, count_form, tail, frame, rows_of_size};
ghost use Rattle.tpi_grammar.specs.Measuring.{behind_head, form_of_kind, form_of_lengths, form_of_number, form_of_slots, BeginsWith};
ghost use Rattle.tpi_grammar.specs.Kinds.{slots_view};
ghost use Rattle.tpi_grammar.specs.Measured.{MeansFrame, outcome_of};

use crate::kind::{Kind, Slot};
use crate::sizes::{Counts, PrimTypes, Sizes, kind_of, may_count, part_length};
use crate::word::{WordRead, between, front_word, read_word};

/// What is at the start of an input.
#[derive(Debug, Clone, Copy, PartialEq, Eq)]
pub enum Measure {
    /// A frame of so many bytes.
    Whole(usize),
    /// The start of a frame, which goes on after the input.
    Short,
    /// Neither. No frame begins with the bytes up to this place and with the byte there, and some frame begins with
    /// the bytes before it.
    Bad(usize),
}

/// How much of the input is a frame (the framing of this library: length of the control part, length of the user data,
/// control part, user data; each word of four bytes, high byte first). Takes no memory; the user data aren't looked at.
pub fn measure_frame(input: &[u8]) -> Measure
    ensures { MeansFrame input.now (outcome_of result) }
{
    scan_frame(input)
}

/// A primitive, and the two lengths before it.
#[derive(Clone, Copy)]
struct Head {
    size: u32,
    count: u32,
    kind: Kind,
}

/// The two lengths and PRIM_type, read at once; `None` if less than twelve bytes are there, or no frame begins with them.
fn read_head(input: &[u8]) -> Option<Head>
    ensures long { IfSome result (λ _. 12 ≤ length input.now) }
    ensures scans { IfSome result (BeginsWith input.now) }
{
    let size = front_word(input)?;
    let count = front_word(&input[4..])?;
    let number = front_word(&input[8..])?;
    let kind = Kind::of_number(number)?;
    if may_count(kind, size, 1, count) {
        Some(Head { size, count, kind })
    } else {
        None
    }
}

/// Reads a frame; its first three words at once if a frame begins with them, and else byte by byte.
fn scan_frame(input: &[u8]) -> Measure
    ensures { outcome_of result ≡ scan frame input.now }
{
    match read_head(input) {
        Some(head) => measure_behind(head, input),
        None => scan_bytes(input),
    }
}

/// Reads what stands after the first three words.
fn measure_behind(head: Head, input: &[u8]) -> Measure
    requires { 12 ≤ length input.now }
    ensures { outcome_of result ≡ behind_head head input.now }
{
    let behind = &input[12..];
    let body = measure_body(Some(head.kind), head.size, head.count, behind);
    let third = after_word(body, behind.len());
    let second = after_word(third, behind.len() + 4);
    after_word(second, behind.len() + 8)
}

/// Reads a frame byte by byte.
#[tactic(auto, unfolding(crate::specs::Frame::frame))]
fn scan_bytes(input: &[u8]) -> Measure
    ensures { outcome_of result ≡ scan frame input.now }
{
    match read_word(input, &Sizes) {
        WordRead::Short => Measure::Short,
        WordRead::Bad(at) => Measure::Bad(at),
        WordRead::Value(size) => after_word(after_size(size, &input[4..]), input.len() - 4),
    }
}

/// The same measure, told four bytes earlier.
fn after_word(rest: Measure, len: usize) -> Measure
    requires bound { len < 2 ^ 63 }
    requires within { (n : ℕ) → rest ≡ Measure.Whole n → n ≤ len }
    requires at { (n : ℕ) → rest ≡ Measure.Bad n → n ≤ len }
    ensures { outcome_of result ≡ later_word (outcome_of rest) }
{
    match rest {
        Measure::Whole(n) => Measure::Whole(n + 4),
        Measure::Short => Measure::Short,
        Measure::Bad(at) => Measure::Bad(at + 4),
    }
}

fn after_size(size: u32, bytes: &[u8]) -> Measure
    ensures scans { outcome_of result ≡ scan (count_form size (rows_of_size size)) bytes.now }
    ensures within { (n : ℕ) → result ≡ Measure.Whole n → n ≤ length bytes.now }
    ensures at { (n : ℕ) → result ≡ Measure.Bad n → n ≤ length bytes.now }
{
    match read_word(bytes, &Counts { size }) {
        WordRead::Short => Measure::Short,
        WordRead::Bad(at) => Measure::Bad(at),
        WordRead::Value(count) => after_word(
            after_count(size, count, &bytes[4..]),
            bytes.len() - 4,
        ),
    }
}

fn after_count(size: u32, count: u32, bytes: &[u8]) -> Measure
    ensures scans { outcome_of result ≡ scan (form_of_lengths size count) bytes.now }
    ensures within { (n : ℕ) → result ≡ Measure.Whole n → n ≤ length bytes.now }
    ensures at { (n : ℕ) → result ≡ Measure.Bad n → n ≤ length bytes.now }
{
    match read_word(bytes, &PrimTypes { size, count }) {
        WordRead::Short => Measure::Short,
        WordRead::Bad(at) => Measure::Bad(at),
        WordRead::Value(number) => after_word(
            after_number(size, count, number, &bytes[4..]),
            bytes.len() - 4,
        ),
    }
}

fn after_number(size: u32, count: u32, number: u32, bytes: &[u8]) -> Measure
    ensures scans { outcome_of result ≡ scan (form_of_number size count number) bytes.now }
    ensures within { (n : ℕ) → result ≡ Measure.Whole n → n ≤ length bytes.now }
    ensures at { (n : ℕ) → result ≡ Measure.Bad n → n ≤ length bytes.now }
{
    measure_body(kind_of(size, count, number), size, count, bytes)
}

/// What stands after PRIM_type: the words of the slots, the parts, and the user data.
fn measure_body(kind: Option<Kind>, size: u32, count: u32, bytes: &[u8]) -> Measure
    ensures scans { outcome_of result ≡ scan (form_of_kind size count kind) bytes.now }
    ensures within { (n : ℕ) → result ≡ Measure.Whole n → n ≤ length bytes.now }
    ensures at { (n : ℕ) → result ≡ Measure.Bad n → n ≤ length bytes.now }
{
    let Some(kind) = kind else {
        return Measure::Whole(0);
    };
    let head = kind.head();
    let left = size.saturating_sub(head);
    measure_slots(kind.slots(), head, left, left as u64 + count as u64, bytes)
}

/// The words of the slots, where parts lie from `place` on and have `left` bytes, and then `total` bytes of any value.
fn measure_slots(slots: &[Slot], place: u32, left: u32, total: u64, bytes: &[u8]) -> Measure
    requires { place + left < 2 ^ 32 }
    ensures scans { outcome_of result ≡ scan (form_of_slots slots.now place left total) bytes.now }
    ensures within { (n : ℕ) → result ≡ Measure.Whole n → n ≤ length bytes.now }
    ensures at { (n : ℕ) → result ≡ Measure.Bad n → n ≤ length bytes.now }
{
    let [first, others @ ..] = slots else {
        return measure_tail(bytes, total);
    };
    match *first {
        Slot::Upto(most) => match read_word(bytes, &between(0, most)) {
            WordRead::Short => Measure::Short,
            WordRead::Bad(at) => Measure::Bad(at),
            WordRead::Value(_) => after_word(
                measure_slots(others, place, left, total, &bytes[4..]),
                bytes.len() - 4,
            ),
        },
        Slot::Part => match read_length(bytes, others, left) {
            WordRead::Short => Measure::Short,
            WordRead::Bad(at) => Measure::Bad(at),
            WordRead::Value(n) => {
                let bytes = &bytes[4..];
                let offset = offset_of(n, place);
                match read_word(bytes, &between(offset, offset)) {
                    WordRead::Short => after_word(Measure::Short, bytes.len()),
                    WordRead::Bad(at) => after_word(Measure::Bad(at), bytes.len()),
                    WordRead::Value(_) => after_word(
                        after_word(
                            measure_slots(others, place + n, left - n, total, &bytes[4..]),
                            bytes.len() - 4,
                        ),
                        bytes.len(),
                    ),
                }
            }
        },
    }
}

/// Reads the length of a part, where so many bytes are left for it and the parts after it.
fn read_length(bytes: &[u8], others: &[Slot], left: u32) -> WordRead
    ensures scans { ReadsWord (part_range (slots_view others.now) left ∷ []) bytes.now result }
    ensures long { (v : ℕ) → result ≡ WordRead.Value v → 4 ≤ length bytes.now }
    ensures small { (v : ℕ) → result ≡ WordRead.Value v → v ≤ left }
    ensures at { (n : ℕ) → result ≡ WordRead.Bad n → n < length bytes.now }
{
    read_word(bytes, &part_length(others, left))
}

/// The offset of a part of `n` bytes that is due at this place.
fn offset_of(n: u32, place: u32) -> u32
    ensures { result ≡ offset n place }
{
    if n == 0 { 0 } else { place }
}

fn measure_tail(bytes: &[u8], total: u64) -> Measure
    ensures scans { outcome_of result ≡ scan (tail total) bytes.now }
    ensures within { (n : ℕ) → result ≡ Measure.Whole n → n ≤ length bytes.now }
    ensures at { (n : ℕ) → result ≡ Measure.Bad n → n ≤ length bytes.now }
{
    if (bytes.len() as u64) < total {
        Measure::Short
    } else {
        Measure::Whole(total as usize)
    }
}
