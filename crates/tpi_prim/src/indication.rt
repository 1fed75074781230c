//! Making a data indication whose user data come in pieces.

ghost use Rattle.std.specs.Prelude.{◌≡◌, ◌≤◌, ◌+◌, [], ◌++◌, length, IfOk};
ghost use Rattle.tpi_grammar.specs.declared.kind.TheConstants.{MOST_DATA};
ghost use Rattle.tpi_prim.specs.Fields.{primitive_in};
ghost use Rattle.tpi_prim.specs.Indication.{begun_with, data_ind, heading, kind_for};

use crate::encoding::{Front, put_word};
use crate::frames::{Frame, FrameBytes};
use std::alloc::{AllocError, Global};
use std::marker::Model;
use tpi_grammar::Kind;

/// The length of the control part: PRIM_type and MORE_flag.
const CONTROL: u32 = 8;

/// How many bytes stand before the user data.
const HEADING: usize = 16;

/// A T_DATA_IND or a T_EXDATA_IND that is being written. Its user data come in pieces, and each byte is copied once. Up to 48 of
/// them take no memory.
#[derive(Drop)]
pub struct IndicationWriter {
    expedited: bool,
    more: bool,
    len: u32,
    bytes: FrameBytes,
}

impl Model for IndicationWriter {
    ghost use Rattle.std.specs.Prelude.{drop};
    ghost use Rattle.tpi_prim.specs.Indication.{PartIndication, IsPartIndication};

    ghost Value = { PartIndication };

    ghost view = { λ g. record { expedited = g.expedited; more = g.more; length = g.len; bytes = drop 16 g.bytes.items } };

    ghost invariant = { λ g. IsPartIndication g.expedited g.more g.len g.bytes.items g.bytes.capacity };
}

impl IndicationWriter {
    /// Begins a T_EXDATA_IND or a T_DATA_IND with this MORE_flag, and takes the memory for so many bytes of user data.
    pub fn begin(
        alloc: Global,
        expedited: bool,
        more: bool,
        len: usize,
    ) -> Result<IndicationWriter, AllocError>
        requires { len ≤ MOST_DATA }
        ensures { IfOk result (λ g. g ≡ begun_with expedited more len) }
    {
        let mut bytes = FrameBytes::with_capacity(alloc, HEADING + len)?;
        put_heading(&mut bytes, expedited, more, len as u32);
        Ok(IndicationWriter {
            expedited,
            more,
            len: len as u32,
            bytes,
        })
    }

    /// Writes a piece of the user data, for which there must be room. Takes no memory.
    pub fn put(&mut self, piece: &[u8])
        requires { length self.old.bytes + length piece.now ≤ self.old.length }
        ensures { self.new ≡ record self.old { bytes = self.old.bytes ++ piece.now } }
    {
        self.bytes.extend_from_slice(piece).unwrap();
    }

    /// The frame, once all its user data were written. Takes no memory.
    pub fn finish(self) -> Frame
        requires { length self.bytes ≡ self.length }
        ensures { primitive_in result ≡ data_ind self.expedited self.more self.bytes }
    {
        let IndicationWriter { bytes, .. } = self;
        Frame::of(bytes)
    }
}

/// The kind of normal or of expedited data.
fn kind_for(expedited: bool) -> Kind
    ensures { result ≡ kind_for expedited }
{
    if expedited {
        Kind::T_EXDATA_IND
    } else {
        Kind::T_DATA_IND
    }
}

/// Writes what stands before the user data, for which there must be room.
fn put_heading(out: &mut FrameBytes, expedited: bool, more: bool, len: u32)
    requires empty { out.old.items ≡ [] }
    requires room { 16 ≤ out.old.capacity }
    ensures items { out.new.items ≡ heading expedited more len }
    ensures capacity { out.old.capacity ≤ out.new.capacity }
{
    let mut front = Front::new();
    put_word(&mut front, CONTROL);
    put_word(&mut front, len);
    put_word(&mut front, kind_for(expedited).number());
    put_word(&mut front, u32::from(more));
    out.extend_from_slice(front.as_slice()).unwrap();
}
