//! Making frames of primitives.

ghost use Rattle.std.specs.Prelude.{◌≡◌, ◌≤◌, ◌<◌, ◌+◌, ◌-◌, ◌*◌, ◌^◌, [], ◌∷◌, ◌++◌, ◌↔◌, length, IfOk, IfErr, OnOk, IsErrOf};
ghost use Rattle.std.specs.Option.{SomeIff};
ghost use Rattle.arrayvec.specs.ArrayVec.{array_vec_len};
ghost use Rattle.tpi_grammar.specs.declared.kind.TheConstants.{MOST_CONTROL, MOST_DATA};
ghost use Rattle.tpi_grammar.specs.Kinds.{row_of};
ghost use Rattle.tpi_grammar.specs.Frame.{text, AreBytes, IsFilled, spelling, words, parts, offset, head, control_size, be};
ghost use Rattle.tpi_prim.specs.Primitive.{filled, Spells};
ghost use Rattle.tpi_prim.specs.Fields.{primitive_in};
ghost use Rattle.tpi_prim.specs.declared.frames.TheConstants.{INLINE};
ghost use Rattle.tpi_prim.specs.declared.primitive.Prim.TheVariants.{T_CONN_IND, T_CONN_CON, T_DISCON_IND, T_UNITDATA_IND, T_UDERROR_IND, T_ORDREL_IND};
ghost use Rattle.tpi_prim.specs.Lent.{control_of, filled_by, frame_of, front_of, parts_size, value_of, values_of, FailsWhereTooBig, FitsRow, HasShape, IsSpelled, IsTooBig, ReadsBack};

use crate::frames::{Frame, FrameBytes, INLINE};
use crate::primitive::Prim;
use arrayvec::ArrayVec;
use bytes::Bytes;
use std::alloc::{AllocError, AllocFailed, Global};
use thiserror::Error;
use tpi_grammar::{Kind, MOST_CONTROL, MOST_DATA};

/// Why a primitive gets no frame.
#[derive(Debug, Drop, Clone, Copy, PartialEq, Eq, Error)]
pub enum EncodeFail {
    /// Memory ran out.
    #[error("out of memory")]
    OutOfMemory,
    /// The control part is over 1,024 bytes, or the user data over 65,536.
    #[error("the frame is too big")]
    TooBig,
}

impl From<AllocError> for EncodeFail {
    ghost use Rattle.std.specs.Prelude.{◌≡◌};
    ghost use Rattle.tpi_prim.specs.declared.encoding.EncodeFail.TheVariants.{OutOfMemory};

    ghost from_gives = { λ _ e. e ≡ OutOfMemory };

    fn from(_error: AllocError) -> EncodeFail {
        EncodeFail::OutOfMemory
    }
}

impl<T: Drop> From<AllocFailed<T>> for EncodeFail {
    ghost use Rattle.std.specs.Prelude.{◌≡◌};
    ghost use Rattle.tpi_prim.specs.declared.encoding.EncodeFail.TheVariants.{OutOfMemory};

    ghost from_gives = { λ _ e. e ≡ OutOfMemory };

    fn from(_error: AllocFailed<T>) -> EncodeFail {
        EncodeFail::OutOfMemory
    }
}

/// The frame of a primitive. The limits are looked at before memory is taken.
pub fn encode(alloc: Global, prim: &Prim) -> Result<Frame, EncodeFail>
    ensures spelled { IsSpelled prim.now result }
    ensures read { ReadsBack prim.now result }
    ensures too_big { FailsWhereTooBig prim.now result }
{
    Lent::of(prim).frame(alloc)
}

/// The frame of a T_CONN_IND with these fields. They are lent, so that none is copied on the way to the frame.
pub fn encode_conn_ind<'a>(
    alloc: Global,
    src: &'a [u8],
    opt: &'a [u8],
    seq: u32,
    user: &'a [u8],
) -> Result<Frame, EncodeFail>
    ensures spelled { IsSpelled (T_CONN_IND src.now opt.now seq user.now) result }
    ensures read { ReadsBack (T_CONN_IND src.now opt.now seq user.now) result }
    ensures too_big { FailsWhereTooBig (T_CONN_IND src.now opt.now seq user.now) result }
{
    let lent = Lent {
        kind: Kind::T_CONN_IND,
        fields: [Field::Bytes(src), Field::Bytes(opt), Field::Number(seq)],
        user,
    };
    lent.frame(alloc)
}

/// The frame of a T_CONN_CON with these fields. They are lent, so that none is copied on the way to the frame.
pub fn encode_conn_con<'a>(
    alloc: Global,
    res: &'a [u8],
    opt: &'a [u8],
    user: &'a [u8],
) -> Result<Frame, EncodeFail>
    ensures spelled { IsSpelled (T_CONN_CON res.now opt.now user.now) result }
    ensures read { ReadsBack (T_CONN_CON res.now opt.now user.now) result }
    ensures too_big { FailsWhereTooBig (T_CONN_CON res.now opt.now user.now) result }
{
    let lent = Lent {
        kind: Kind::T_CONN_CON,
        fields: [Field::Bytes(res), Field::Bytes(opt), Field::Nothing],
        user,
    };
    lent.frame(alloc)
}

/// The frame of a T_DISCON_IND with these fields. They are lent, so that none is copied on the way to the frame.
pub fn encode_discon_ind<'a>(
    alloc: Global,
    reason: u32,
    seq: u32,
    user: &'a [u8],
) -> Result<Frame, EncodeFail>
    ensures spelled { IsSpelled (T_DISCON_IND reason seq user.now) result }
    ensures read { ReadsBack (T_DISCON_IND reason seq user.now) result }
    ensures too_big { FailsWhereTooBig (T_DISCON_IND reason seq user.now) result }
{
    let lent = Lent {
        kind: Kind::T_DISCON_IND,
        fields: [Field::Number(reason), Field::Number(seq), Field::Nothing],
        user,
    };
    lent.frame(alloc)
}

/// The frame of a T_UNITDATA_IND with these fields. They are lent, so that none is copied on the way to the frame.
pub fn encode_unitdata_ind<'a>(
    alloc: Global,
    src: &'a [u8],
    opt: &'a [u8],
    user: &'a [u8],
) -> Result<Frame, EncodeFail>
    ensures spelled { IsSpelled (T_UNITDATA_IND src.now opt.now user.now) result }
    ensures read { ReadsBack (T_UNITDATA_IND src.now opt.now user.now) result }
    ensures too_big { FailsWhereTooBig (T_UNITDATA_IND src.now opt.now user.now) result }
{
    let lent = Lent {
        kind: Kind::T_UNITDATA_IND,
        fields: [Field::Bytes(src), Field::Bytes(opt), Field::Nothing],
        user,
    };
    lent.frame(alloc)
}

/// The frame of a T_UDERROR_IND with these fields. They are lent, so that none is copied on the way to the frame.
pub fn encode_uderror_ind<'a>(
    alloc: Global,
    dest: &'a [u8],
    opt: &'a [u8],
    error_type: u32,
) -> Result<Frame, EncodeFail>
    ensures spelled { IsSpelled (T_UDERROR_IND dest.now opt.now error_type) result }
    ensures read { ReadsBack (T_UDERROR_IND dest.now opt.now error_type) result }
    ensures too_big { FailsWhereTooBig (T_UDERROR_IND dest.now opt.now error_type) result }
{
    let lent = Lent {
        kind: Kind::T_UDERROR_IND,
        fields: [
            Field::Bytes(dest),
            Field::Bytes(opt),
            Field::Number(error_type),
        ],
        user: &[],
    };
    lent.frame(alloc)
}

/// The frame of a T_ORDREL_IND with this user data. It is lent, so that none is copied on the way to the frame.
pub fn encode_ordrel_ind(alloc: Global, user: &[u8]) -> Result<Frame, EncodeFail>
    ensures spelled { IsSpelled (T_ORDREL_IND user.now) result }
    ensures read { ReadsBack (T_ORDREL_IND user.now) result }
    ensures too_big { FailsWhereTooBig (T_ORDREL_IND user.now) result }
{
    let lent = Lent {
        kind: Kind::T_ORDREL_IND,
        fields: [Field::Nothing, Field::Nothing, Field::Nothing],
        user,
    };
    lent.frame(alloc)
}

/// What stands at a slot, lent.
#[derive(Clone, Copy)]
enum Field<'a> {
    Number(u32),
    Bytes(&'a [u8]),
    Nothing,
}

/// The start of a frame: at least what stands before the parts, and all of a frame that takes no memory.
pub(crate) type Front = ArrayVec<u8, INLINE>;

/// A primitive whose fields are lent.
#[derive(Clone, Copy)]
struct Lent<'a> {
    kind: Kind,
    fields: [Field<'a>; 3],
    user: &'a [u8],
}

impl Lent<'_> {
    #[tactic(auto, using(crate::proofs::FrameReads::of_its_kind))]
    fn of(prim: &Prim) -> Lent<'_>
        ensures same { filled_by result ≡ filled prim.now }
        ensures shape { HasShape (row_of result.kind).slots (values_of result.fields) }
        ensures room { FitsRow result.user.now (row_of result.kind) }
    {
        Lent {
            kind: prim.kind(),
            fields: fields_of(prim),
            user: user_of(prim),
        }
    }

    /// The frame of the primitive. The limits are looked at before memory is taken. It is a part of each caller, so that a caller
    /// with fields of known kinds does without the choices among these.
    #[inline(always)]
    fn frame(&self, alloc: Global) -> Result<Frame, EncodeFail>
        requires shape { HasShape (row_of self.now.kind).slots (values_of self.now.fields) }
        requires room { FitsRow self.now.user.now (row_of self.now.kind) }
        ensures spelled { IfOk result (λ frame. frame ≡ frame_of self.now) }
        ensures filled { OnOk result (IsFilled (filled_by self.now)) }
        ensures too_big { IsErrOf result EncodeFail.TooBig ↔ IsTooBig (filled_by self.now) }
    {
        let control = self.control_len().ok_or(EncodeFail::TooBig)?;
        if self.user.len() > MOST_DATA as usize {
            return Err(EncodeFail::TooBig);
        }
        let frame = self.encode(alloc, control)?;
        Ok(frame)
    }

    /// How long the control part is; `None` over 1,024 bytes.
    fn control_len(&self) -> Option<u32>
        ensures { SomeIff result (control_of self.now ≤ MOST_CONTROL) (control_of self.now) }
    {
        let left = room_left(
            MOST_CONTROL as usize - self.kind.head() as usize,
            &self.fields,
        )?;
        Some(MOST_CONTROL - left as u32)
    }

    #[inline(always)]
    fn encode(&self, alloc: Global, control: u32) -> Result<Frame, EncodeFail>
        requires shape { HasShape (row_of self.now.kind).slots (values_of self.now.fields) }
        requires data { length self.now.user.now ≤ (row_of self.now.kind).most_data }
        requires control { control ≡ control_of self.now }
        requires small { control ≤ MOST_CONTROL }
        ensures spelled { IfOk result (λ frame. frame ≡ frame_of self.now) }
        ensures filled { OnOk result (IsFilled (filled_by self.now)) }
        ensures memory { IfErr result (λ e. e ≡ EncodeFail.OutOfMemory) }
    {
        let len = 8 + control as usize + self.user.len();
        let mut out = FrameBytes::with_capacity(alloc, len)?;
        self.write(&mut out, control)?;
        Ok(Frame::of(out))
    }

    /// Writes the frame: a short one in one go.
    #[inline(always)]
    #[tactic(auto, using(crate::proofs::Words::head_length))]
    fn write(&self, out: &mut FrameBytes, control: u32) -> Result<(), AllocError>
        requires shape { HasShape (row_of self.now.kind).slots (values_of self.now.fields) }
        requires data { length self.now.user.now ≤ MOST_DATA }
        requires control { control ≡ control_of self.now }
        requires small { control ≤ MOST_CONTROL }
        ensures items { OnOk result (out.new.items ≡ out.old.items ++ frame_of self.now) }
        ensures part_bytes { OnOk result (AreBytes (parts (values_of self.now.fields))) }
        ensures user_bytes { OnOk result (AreBytes self.now.user.now) }
    {
        let mut front = self.head(control);
        if 8 + control as usize + self.user.len() <= INLINE {
            put_parts(&mut front, &self.fields);
            put_bytes(&mut front, self.user);
            out.extend_from_slice(front.as_slice())?;
        } else {
            out.extend_from_slice(front.as_slice())?;
            put_long_parts(out, &self.fields)?;
            put_long(out, self.user)?;
        }
        Ok(())
    }

    /// The two lengths, PRIM_type and the words, which stand before the parts.
    #[inline(always)]
    fn head(&self, control: u32) -> Front
        requires small { control_size (filled_by self.now) ≤ MOST_CONTROL }
        requires data { length self.now.user.now ≤ MOST_DATA }
        ensures { result.items ≡ front_of control self.now }
    {
        let mut out = Front::new();
        put_word(&mut out, control);
        put_word(&mut out, self.user.len() as u32);
        put_word(&mut out, self.kind.number());
        put_words(&mut out, self.kind.head(), &self.fields);
        out
    }
}

fn part_of<'a>(field: &Field<'a>) -> &'a [u8]
    ensures { result.now ≡ parts (value_of field.now) }
{
    match field {
        Field::Bytes(part) => part,
        _ => &[],
    }
}

/// What is left of a room when the parts are in it; `None` where they don't fit.
#[inline(always)]
fn room_left(room: usize, fields: &[Field<'_>; 3]) -> Option<usize>
    ensures { SomeIff result (parts_size fields.now ≤ room) (room - parts_size fields.now) }
{
    let [first, second, third] = fields;
    let room = room.checked_sub(part_of(first).len())?;
    let room = room.checked_sub(part_of(second).len())?;
    room.checked_sub(part_of(third).len())
}

fn offset_of(len: u32, place: u32) -> u32
    ensures { result ≡ offset len place }
{
    if len == 0 { 0 } else { place }
}

/// Writes a word, high byte first.
#[inline(always)]
pub(crate) fn put_word(out: &mut Front, word: u32)
    requires { array_vec_len out.old + 4 ≤ INLINE }
    ensures items { out.new.items ≡ out.old.items ++ be word }
    ensures len { array_vec_len out.new ≡ array_vec_len out.old + 4 }
{
    out.try_extend_from_slice(&word.to_be_bytes()).unwrap();
}

/// Writes the words of a field, whose part lies at this place of the control part; gives the place after that part.
#[inline(always)]
fn put_field(out: &mut Front, place: u32, field: &Field<'_>) -> u32
    requires room { array_vec_len out.old + 8 ≤ INLINE }
    requires part { place + length (parts (value_of field.now)) < 2 ^ 32 }
    ensures items { out.new.items ≡ out.old.items ++ words place (value_of field.now) }
    ensures len { array_vec_len out.new ≤ array_vec_len out.old + 8 }
    ensures place { result ≡ place + length (parts (value_of field.now)) }
{
    match field {
        Field::Number(n) => {
            put_word(out, *n);
            place
        }
        Field::Bytes(bytes) => {
            let len = bytes.len() as u32;
            put_word(out, len);
            put_word(out, offset_of(len, place));
            place + len
        }
        Field::Nothing => place,
    }
}

/// Writes the words of the fields, whose parts lie from this place of the control part on.
#[inline(always)]
fn put_words(out: &mut Front, place: u32, fields: &[Field<'_>; 3])
    requires room { array_vec_len out.old + 24 ≤ INLINE }
    requires parts { place + parts_size fields.now < 2 ^ 32 }
    ensures { out.new.items ≡ out.old.items ++ words place (values_of fields.now) }
{
    let [first, second, third] = fields;
    let place = put_field(out, place, first);
    let place = put_field(out, place, second);
    put_field(out, place, third);
}

/// Writes bytes for which there is room.
#[inline(always)]
fn put_bytes(out: &mut Front, bytes: &[u8])
    requires { array_vec_len out.old + length bytes.now ≤ INLINE }
    ensures items { out.new.items ≡ out.old.items ++ bytes.now }
    ensures len { array_vec_len out.new ≡ array_vec_len out.old + length bytes.now }
    ensures bytes { AreBytes bytes.now }
{
    if !bytes.is_empty() {
        out.try_extend_from_slice(bytes).unwrap();
    }
}

/// Writes the parts of the fields, for which there is room.
#[inline(always)]
#[tactic(auto, using(crate::proofs::Words::bytes_three))]
fn put_parts(out: &mut Front, fields: &[Field<'_>; 3])
    requires { array_vec_len out.old + parts_size fields.now ≤ INLINE }
    ensures items { out.new.items ≡ out.old.items ++ parts (values_of fields.now) }
    ensures bytes { AreBytes (parts (values_of fields.now)) }
{
    let [first, second, third] = fields;
    put_bytes(out, part_of(first));
    put_bytes(out, part_of(second));
    put_bytes(out, part_of(third));
}

/// Writes bytes into a frame that may be long.
fn put_long(out: &mut FrameBytes, bytes: &[u8]) -> Result<(), AllocError>
    ensures items { OnOk result (out.new.items ≡ out.old.items ++ bytes.now) }
    ensures bytes { AreBytes bytes.now }
{
    if bytes.is_empty() {
        return Ok(());
    }
    out.extend_from_slice(bytes)
}

/// Writes the parts of the fields into a frame that may be long.
#[tactic(auto, using(crate::proofs::Words::parts_three, crate::proofs::Words::bytes_three))]
fn put_long_parts(out: &mut FrameBytes, fields: &[Field<'_>; 3]) -> Result<(), AllocError>
    ensures items { OnOk result (out.new.items ≡ out.old.items ++ parts (values_of fields.now)) }
    ensures bytes { OnOk result (AreBytes (parts (values_of fields.now))) }
{
    let [first, second, third] = fields;
    put_long(out, part_of(first))?;
    put_long(out, part_of(second))?;
    put_long(out, part_of(third))?;
    Ok(())
}

fn fields_of(prim: &Prim) -> [Field<'_>; 3]
    ensures values { values_of result ≡ (filled prim.now).values }
    ensures shape { HasShape (filled prim.now).row.slots (values_of result) }
{
    match prim {
        Prim::T_CONN_REQ {
            dest: first,
            opt: second,
            ..
        }
        | Prim::T_UNITDATA_REQ {
            dest: first,
            opt: second,
            ..
        }
        | Prim::T_CONN_CON {
            res: first,
            opt: second,
            ..
        }
        | Prim::T_UNITDATA_IND {
            src: first,
            opt: second,
            ..
        } => [part(first), part(second), Field::Nothing],
        Prim::T_CONN_IND {
            src: first,
            opt: second,
            seq_number: last,
            ..
        }
        | Prim::T_UDERROR_IND {
            dest: first,
            opt: second,
            error_type: last,
        } => [part(first), part(second), Field::Number(*last)],
        Prim::T_CONN_RES {
            acceptor_id,
            opt,
            seq_number,
            ..
        } => [
            Field::Number(*acceptor_id),
            part(opt),
            Field::Number(*seq_number),
        ],
        Prim::T_BIND_REQ {
            addr,
            conind_number,
        }
        | Prim::T_BIND_ACK {
            addr,
            conind_number,
        } => [part(addr), Field::Number(*conind_number), Field::Nothing],
        Prim::T_DATA_REQ { more, .. }
        | Prim::T_EXDATA_REQ { more, .. }
        | Prim::T_DATA_IND { more, .. }
        | Prim::T_EXDATA_IND { more, .. } => [
            Field::Number(*more as u32),
            Field::Nothing,
            Field::Nothing,
        ],
        Prim::T_DISCON_REQ {
            seq_number: only,
            ..
        }
        | Prim::T_OK_ACK { correct_prim: only } => [
            Field::Number(*only),
            Field::Nothing,
            Field::Nothing,
        ],
        Prim::T_DISCON_IND {
            reason,
            seq_number,
            ..
        } => [
            Field::Number(*reason),
            Field::Number(*seq_number),
            Field::Nothing,
        ],
        Prim::T_ERROR_ACK {
            error_prim,
            tli_error,
            unix_error,
        } => [
            Field::Number(*error_prim),
            Field::Number(*tli_error),
            Field::Number(*unix_error),
        ],
        Prim::T_UNBIND_REQ | Prim::T_ORDREL_REQ { .. } | Prim::T_ORDREL_IND { .. } => [
            Field::Nothing,
            Field::Nothing,
            Field::Nothing,
        ],
    }
}

fn part(bytes: &Bytes) -> Field<'_>
    ensures { value_of result ≡ text bytes.now ∷ [] }
{
    Field::Bytes(bytes.as_slice())
}

fn user_of(prim: &Prim) -> &[u8]
    ensures user { result.now ≡ (filled prim.now).user }
    ensures room { FitsRow result.now (filled prim.now).row }
{
    match prim {
        Prim::T_CONN_REQ { user, .. }
        | Prim::T_CONN_RES { user, .. }
        | Prim::T_DISCON_REQ { user, .. }
        | Prim::T_DATA_REQ { user, .. }
        | Prim::T_EXDATA_REQ { user, .. }
        | Prim::T_UNITDATA_REQ { user, .. }
        | Prim::T_ORDREL_REQ { user }
        | Prim::T_CONN_IND { user, .. }
        | Prim::T_CONN_CON { user, .. }
        | Prim::T_DISCON_IND { user, .. }
        | Prim::T_DATA_IND { user, .. }
        | Prim::T_EXDATA_IND { user, .. }
        | Prim::T_UNITDATA_IND { user, .. }
        | Prim::T_ORDREL_IND { user } => user.as_slice(),
        _ => &[],
    }
}
