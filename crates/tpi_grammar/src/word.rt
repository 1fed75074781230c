//! Reading a word whose value lies in one of some ranges.

ghost use Rattle.std.specs.Prelude.{◌≡◌, ◌≤◌, ◌<◌, ℕ, List, [], ◌∷◌, ◌++◌, length, drop, true, IfSome};
ghost use Rattle.tpi_grammar.specs.Frame.{be};
ghost use Rattle.tpi_grammar.specs.Word.{meets, viable, ReadsWord};

/// The numbers from `low` to `high`.
#[derive(Debug, Clone, Copy, PartialEq, Eq)]
pub(crate) struct Range {
    pub(crate) low: u32,
    pub(crate) high: u32,
}

/// What the start of an input has of a word.
#[derive(Debug, Clone, Copy, PartialEq, Eq)]
pub(crate) enum WordRead {
    /// A word with this value.
    Value(u32),
    /// The start of one.
    Short,
    /// Neither, from this place on.
    Bad(usize),
}

/// Whether some number of the range lies among the `unit` numbers from `x * unit` on.
pub(crate) fn meets_range(unit: u64, x: u32, range: Range) -> bool
    requires { unit ≤ 16777216 }
    ensures { result ≡ meets unit x range }
{
    (range.low as u64) < (x as u64 + 1) * unit && x as u64 * unit <= range.high as u64
}

/// A choice of ranges for one word.
pub(crate) trait Choice {
    ghost use Rattle.std.specs.Prelude.{List};
    ghost use Rattle.tpi_grammar.specs.declared.word.Range.{Range};

    ghost ranges: { Self → List Range };

    fn is_viable(&self, unit: u64, x: u32) -> bool
        requires { unit ≤ 16777216 }
        ensures { result ≡ viable (ranges self.now) unit x };
}

/// One range.
#[derive(Clone, Copy)]
pub(crate) struct Within(pub(crate) Range);

impl Choice for Within {
    ghost ranges = { λ w. w.0 ∷ [] };

    fn is_viable(&self, unit: u64, x: u32) -> bool {
        meets_range(unit, x, self.0)
    }
}

pub(crate) fn between(low: u32, high: u32) -> Within
    ensures { result ≡ record { 0 = record { low = low; high = high } } }
{
    Within(Range { low, high })
}

/// The word at the start of the bytes, if four bytes are there.
pub(crate) fn front_word(bytes: &[u8]) -> Option<u32>
    ensures long { IfSome result (λ v. 4 ≤ length bytes.now) }
    ensures word { IfSome result (λ v. bytes.now ≡ be v ++ drop 4 bytes.now) }
{
    let [a, b, c, d, ..] = bytes else {
        return None;
    };
    Some(u32::from_be_bytes([*a, *b, *c, *d]))
}

/// Reads a word in the ranges at the start of the bytes: at once if its value is in them, and else byte by byte.
pub(crate) fn read_word<C: Choice>(bytes: &[u8], choice: &C) -> WordRead
    ensures scans { ReadsWord (C.ranges choice.now) bytes.now result }
    ensures long { (v : ℕ) → result ≡ WordRead.Value v → 4 ≤ length bytes.now }
    ensures met { (v : ℕ) → result ≡ WordRead.Value v → viable (C.ranges choice.now) 1 v ≡ true }
    ensures at { (n : ℕ) → result ≡ WordRead.Bad n → n < length bytes.now }
{
    if let Some(value) = front_word(bytes) {
        if choice.is_viable(1, value) {
            return WordRead::Value(value);
        }
    }
    read_bytes(bytes, choice)
}

/// Reads a word in the ranges byte by byte.
#[tactic(auto, unfolding(crate::specs::Word::word))]
fn read_bytes<C: Choice>(bytes: &[u8], choice: &C) -> WordRead
    ensures scans { ReadsWord (C.ranges choice.now) bytes.now result }
    ensures long { (v : ℕ) → result ≡ WordRead.Value v → 4 ≤ length bytes.now }
    ensures met { (v : ℕ) → result ≡ WordRead.Value v → viable (C.ranges choice.now) 1 v ≡ true }
    ensures at { (n : ℕ) → result ≡ WordRead.Bad n → n < length bytes.now }
{
    let [a, rest @ ..] = bytes else {
        return WordRead::Short;
    };
    let a = *a as u32;
    if !choice.is_viable(16777216, a) {
        return WordRead::Bad(0);
    }
    let [b, rest @ ..] = rest else {
        return WordRead::Short;
    };
    let ab = 256 * a + *b as u32;
    if !choice.is_viable(65536, ab) {
        return WordRead::Bad(1);
    }
    let [c, rest @ ..] = rest else {
        return WordRead::Short;
    };
    let abc = 256 * ab + *c as u32;
    if !choice.is_viable(256, abc) {
        return WordRead::Bad(2);
    }
    let [d, ..] = rest else {
        return WordRead::Short;
    };
    let value = 256 * abc + *d as u32;
    if !choice.is_viable(1, value) {
        return WordRead::Bad(3);
    }
    WordRead::Value(value)
}
