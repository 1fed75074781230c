//! Frames, and reading their fields.

ghost use Rattle.std.specs.Prelude.{◌≡◌, ◌≤◌, ◌+◌, length, take, drop, IsTrue, Some};
ghost use Rattle.std.specs.Int.{w32, from_be_bytes};
ghost use Rattle.std.specs.Option.{option_copied};
ghost use Rattle.tpi_grammar.specs.declared.kind.TheConstants.{MOST_DATA};
ghost use Rattle.tpi_grammar.specs.Frame.{AreBytes};
ghost use Rattle.tpi_grammar.specs.Kinds.{row_of};
ghost use Rattle.tpi_grammar.specs.Measured.{IsFrame};
ghost use Rattle.tpi_prim.specs.Primitive.{more_of, seq_of, reason_of, part_of, user_of, has_more, has_seq, has_reason, has_part};
ghost use Rattle.tpi_prim.specs.Fields.{word_in, part_in, user_in, kind_in, primitive_in, seq_place, reason_place, part_place, HasPartAt, LiesIn};

use crate::primitive::Part;
use smallvec::SmallVec;
use std::marker::Model;
use tpi_grammar::Kind;

/// How many bytes a frame holds in the value itself.
pub(crate) const INLINE: usize = 64;

/// The bytes of a frame, or of its beginning while it is written. Up to 64 bytes stand in the value itself and take no memory.
pub(crate) type FrameBytes = SmallVec<u8, INLINE>;

/// The bytes of one encoded primitive.
#[derive(Drop)]
pub struct Frame {
    bytes: FrameBytes,
}

impl Model for Frame {
    ghost use Rattle.std.specs.Prelude.{ℕ, List};
    ghost use Rattle.tpi_grammar.specs.Measured.{IsFrame};

    ghost Value = { List ℕ };

    ghost view = { λ f. f.bytes.items };

    ghost invariant = { λ f. IsFrame f.bytes.items };
}

impl Frame {
    pub(crate) fn of(bytes: FrameBytes) -> Frame
        requires { IsFrame bytes.items }
        ensures { result ≡ bytes.items }
    {
        Frame { bytes }
    }

    /// The bytes of the frame.
    pub fn bytes(&self) -> &[u8]
        ensures value { result.now ≡ self.now }
        ensures frame { IsFrame self.now }
    {
        self.bytes.as_slice()
    }

    /// The kind of the primitive, by its PRIM_type.
    pub fn kind(&self) -> Kind
        ensures { result ≡ kind_in self.now }
    {
        kind_at(self.bytes())
    }

    /// MORE_flag.
    pub fn more(&self) -> bool
        requires { IsTrue (has_more (kind_in self.now)) }
        ensures { more_of (primitive_in self.now) ≡ Some result }
    {
        word_at(self.bytes(), 12) != 0
    }

    /// SEQ_number.
    pub fn seq(&self) -> u32
        requires { IsTrue (has_seq (kind_in self.now)) }
        ensures { seq_of (primitive_in self.now) ≡ Some result }
    {
        word_at(self.bytes(), seq_place(self.kind()))
    }

    /// DISCON_reason, or the ERROR_type of a T_UDERROR_IND.
    pub fn reason(&self) -> u32
        requires { IsTrue (has_reason (kind_in self.now)) }
        ensures { reason_of (primitive_in self.now) ≡ Some result }
    {
        word_at(self.bytes(), reason_place(self.kind()))
    }

    /// A variable part.
    pub fn part(&self, which: Part) -> &[u8]
        requires { IsTrue (has_part which (kind_in self.now)) }
        ensures { part_of which (primitive_in self.now) ≡ Some result.now }
    {
        part_at(self.bytes(), part_place(which, self.kind()))
    }

    /// The user data; none where the primitive has no place for them.
    pub fn user(&self) -> &[u8]
        ensures value { user_of (primitive_in self.now) ≡ result.now }
        ensures bytes { AreBytes result.now }
        ensures most { length result.now ≤ MOST_DATA }
    {
        user_at(self.bytes())
    }
}

/// The word at a place.
#[tactic(auto, using(crate::proofs::Words::four_at), unfolding(crate::specs::Fields::word_in))]
pub(crate) fn word_at(bytes: &[u8], place: usize) -> u32
    requires { place + 4 ≤ length bytes.now }
    ensures { result ≡ word_in bytes.now place }
{
    let word = &bytes[place..place + 4];
    u32::from_be_bytes([word[0], word[1], word[2], word[3]])
}

/// The part whose length stands at a place, and its offset after it.
#[tactic(auto, unfolding(crate::specs::Fields::part_in))]
pub(crate) fn part_at(bytes: &[u8], place: usize) -> &[u8]
    requires words { place + 8 ≤ length bytes.now }
    requires bytes { HasPartAt bytes.now place }
    ensures { result.now ≡ part_in bytes.now place }
{
    let start = 8 + word_at(bytes, place + 4) as usize;
    let len = word_at(bytes, place) as usize;
    &bytes[start..][..len]
}

/// What stands after the control part.
#[tactic(auto, unfolding(crate::specs::Fields::user_in))]
pub(crate) fn user_at(bytes: &[u8]) -> &[u8]
    requires { IsFrame bytes.now }
    ensures { result.now ≡ user_in bytes.now }
{
    let start = 8 + word_at(bytes, 0) as usize;
    &bytes[start..]
}

/// The kind of a frame.
pub(crate) fn kind_at(bytes: &[u8]) -> Kind
    requires { IsFrame bytes.now }
    ensures value { result ≡ kind_in bytes.now }
    ensures lies { LiesIn (row_of result).slots 12 bytes.now }
{
    match Kind::of_number(word_at(bytes, 8)) {
        Some(kind) => kind,
        None => unreachable!(),
    }
}

fn seq_place(kind: Kind) -> usize
    ensures { result ≡ seq_place kind }
{
    match kind {
        Kind::T_CONN_RES => 24,
        Kind::T_CONN_IND => 28,
        Kind::T_DISCON_IND => 16,
        _ => 12,
    }
}

fn reason_place(kind: Kind) -> usize
    ensures { result ≡ reason_place kind }
{
    match kind {
        Kind::T_UDERROR_IND => 28,
        _ => 12,
    }
}

fn part_place(which: Part, kind: Kind) -> usize
    ensures { result ≡ part_place which kind }
{
    match (which, kind) {
        (Part::Opt, Kind::T_CONN_RES) => 16,
        (Part::Opt, _) => 20,
        _ => 12,
    }
}
