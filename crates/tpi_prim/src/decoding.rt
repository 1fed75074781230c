//! Reading a primitive from the start of an input.

ghost use Rattle.std.specs.Prelude.{◌≡◌, ◌≤◌, ◌+◌, ◌++◌, List, ℕ, true, length, IfOk};
ghost use Rattle.tpi_grammar.specs.Frame.{IsFilled, spelling};
ghost use Rattle.tpi_grammar.specs.Kinds.{row_of};
ghost use Rattle.tpi_grammar.specs.Measured.{IsFrame};
ghost use Rattle.tpi_prim.specs.declared.primitive.Prim.{Prim};
ghost use Rattle.tpi_prim.specs.Primitive.{filled};
ghost use Rattle.tpi_prim.specs.Fields.{address_options_user, part_in, user_in, read_as, primitive_in, HasPartAt, LiesIn, has_no_part, has_numbers_alone, is_addressed, is_binding};
ghost use Rattle.tpi_prim.specs.Decoding.{MeansDecoded, GivesBack};

use crate::frames::{kind_at, part_at, user_at, word_at};
use crate::primitive::Prim;
use bytes::Bytes;
use std::alloc::{AllocError, Global};
use tpi_grammar::{Kind, Measure, measure_frame};

/// What stands at the start of an input.
#[derive(Debug, Drop)]
pub enum Decoded {
    /// The first `used` bytes are the frame of `prim`.
    Value { prim: Prim, used: usize },
    /// The input is a proper prefix of a frame.
    Short,
    /// Neither: `at` is the least place such that the bytes up to and with it begin no frame.
    Bad { at: usize },
    /// A frame stands at the start, and memory for its primitive ran out.
    OutOfMemory,
}

/// Reads a primitive from the start of the input. Memory is taken only for the fields of a whole frame.
pub fn decode(alloc: Global, input: &[u8]) -> Decoded
    ensures means { MeansDecoded input.now result }
    ensures back { (p : Prim) (rest : List ℕ) → IsFilled (filled p) →
        input.now ≡ spelling (filled p) ++ rest → GivesBack p result }
{
    match measure_frame(input) {
        Measure::Short => Decoded::Short,
        Measure::Bad(at) => Decoded::Bad { at },
        Measure::Whole(used) => match read_prim(alloc, &input[..used]) {
            Ok(prim) => Decoded::Value { prim, used },
            Err(AllocError) => Decoded::OutOfMemory,
        },
    }
}

#[tactic(auto, unfolding(crate::specs::Fields::primitive_in))]
fn read_prim(alloc: Global, bytes: &[u8]) -> Result<Prim, AllocError>
    requires { IsFrame bytes.now }
    ensures { IfOk result (λ prim. prim ≡ primitive_in bytes.now) }
{
    let prim = read_as(alloc, kind_at(bytes), bytes)?;
    Ok(prim)
}

/// A primitive of numbers alone, or of none.
fn read_numbers(kind: Kind, bytes: &[u8]) -> Prim
    requires family { has_numbers_alone kind ≡ true }
    requires lies { LiesIn (row_of kind).slots 12 bytes.now }
    ensures { result ≡ read_as kind bytes.now }
{
    match kind {
        Kind::T_UNBIND_REQ => Prim::T_UNBIND_REQ,
        Kind::T_ERROR_ACK => Prim::T_ERROR_ACK {
            error_prim: word_at(bytes, 12),
            tli_error: word_at(bytes, 16),
            unix_error: word_at(bytes, 20),
        },
        Kind::T_OK_ACK => Prim::T_OK_ACK {
            correct_prim: word_at(bytes, 12),
        },
        _ => unreachable!(),
    }
}

/// A primitive of an address, which is this one, and a number.
fn read_binding(kind: Kind, addr: Bytes, bytes: &[u8]) -> Prim
    requires family { is_binding kind ≡ true }
    requires lies { LiesIn (row_of kind).slots 12 bytes.now }
    requires addr { addr ≡ part_in bytes.now 12 }
    ensures { result ≡ read_as kind bytes.now }
{
    let conind_number = word_at(bytes, 20);
    match kind {
        Kind::T_BIND_REQ => Prim::T_BIND_REQ {
            addr,
            conind_number,
        },
        Kind::T_BIND_ACK => Prim::T_BIND_ACK {
            addr,
            conind_number,
        },
        _ => unreachable!(),
    }
}

/// A primitive of numbers and user data, which are these.
fn read_sent(kind: Kind, user: Bytes, bytes: &[u8]) -> Prim
    requires family { has_no_part kind ≡ true }
    requires lies { LiesIn (row_of kind).slots 12 bytes.now }
    requires user { user ≡ user_in bytes.now }
    ensures { result ≡ read_as kind bytes.now }
{
    let word = word_at(bytes, 12);
    match kind {
        Kind::T_DISCON_REQ => Prim::T_DISCON_REQ {
            seq_number: word,
            user,
        },
        Kind::T_DATA_REQ => Prim::T_DATA_REQ {
            more: word != 0,
            user,
        },
        Kind::T_EXDATA_REQ => Prim::T_EXDATA_REQ {
            more: word != 0,
            user,
        },
        Kind::T_DISCON_IND => Prim::T_DISCON_IND {
            reason: word,
            seq_number: word_at(bytes, 16),
            user,
        },
        Kind::T_DATA_IND => Prim::T_DATA_IND {
            more: word != 0,
            user,
        },
        Kind::T_EXDATA_IND => Prim::T_EXDATA_IND {
            more: word != 0,
            user,
        },
        _ => unreachable!(),
    }
}

/// A primitive of an address, options and user data, which are these.
fn read_addressed(kind: Kind, parts: (Bytes, Bytes, Bytes), bytes: &[u8]) -> Prim
    requires family { is_addressed kind ≡ true }
    requires lies { LiesIn (row_of kind).slots 12 bytes.now }
    requires parts { parts ≡ address_options_user bytes.now }
    ensures { result ≡ read_as kind bytes.now }
{
    let (first, opt, user) = parts;
    match kind {
        Kind::T_CONN_REQ => Prim::T_CONN_REQ {
            dest: first,
            opt,
            user,
        },
        Kind::T_UNITDATA_REQ => Prim::T_UNITDATA_REQ {
            dest: first,
            opt,
            user,
        },
        Kind::T_CONN_IND => Prim::T_CONN_IND {
            src: first,
            opt,
            seq_number: word_at(bytes, 28),
            user,
        },
        Kind::T_CONN_CON => Prim::T_CONN_CON {
            res: first,
            opt,
            user,
        },
        Kind::T_UNITDATA_IND => Prim::T_UNITDATA_IND {
            src: first,
            opt,
            user,
        },
        _ => unreachable!(),
    }
}

fn read_as(alloc: Global, kind: Kind, bytes: &[u8]) -> Result<Prim, AllocError>
    requires frame { IsFrame bytes.now }
    requires lies { LiesIn (row_of kind).slots 12 bytes.now }
    ensures { IfOk result (λ prim. prim ≡ read_as kind bytes.now) }
{
    match kind {
        Kind::T_CONN_REQ
        | Kind::T_UNITDATA_REQ
        | Kind::T_CONN_IND
        | Kind::T_CONN_CON
        | Kind::T_UNITDATA_IND => Ok(read_addressed(kind, copy_all(alloc, bytes)?, bytes)),
        Kind::T_DISCON_REQ
        | Kind::T_DATA_REQ
        | Kind::T_EXDATA_REQ
        | Kind::T_DISCON_IND
        | Kind::T_DATA_IND
        | Kind::T_EXDATA_IND => Ok(read_sent(kind, copy_user(alloc, bytes)?, bytes)),
        Kind::T_BIND_REQ | Kind::T_BIND_ACK => {
            Ok(read_binding(kind, copy_part(alloc, bytes, 12)?, bytes))
        }
        Kind::T_CONN_RES => {
            let (opt, user) = copy_part_and_user(alloc, bytes, 16)?;
            Ok(Prim::T_CONN_RES {
                acceptor_id: word_at(bytes, 12),
                opt,
                seq_number: word_at(bytes, 24),
                user,
            })
        }
        Kind::T_UDERROR_IND => {
            let (dest, opt) = copy_two(alloc, bytes)?;
            Ok(Prim::T_UDERROR_IND {
                dest,
                opt,
                error_type: word_at(bytes, 28),
            })
        }
        Kind::T_ORDREL_REQ => Ok(Prim::T_ORDREL_REQ {
            user: copy_user(alloc, bytes)?,
        }),
        Kind::T_ORDREL_IND => Ok(Prim::T_ORDREL_IND {
            user: copy_user(alloc, bytes)?,
        }),
        _ => Ok(read_numbers(kind, bytes)),
    }
}

/// The two parts whose words stand first, and the user data.
fn copy_all(alloc: Global, bytes: &[u8]) -> Result<(Bytes, Bytes, Bytes), AllocError>
    requires frame { IsFrame bytes.now }
    requires words { 28 ≤ length bytes.now }
    requires first { HasPartAt bytes.now 12 }
    requires second { HasPartAt bytes.now 20 }
    ensures { IfOk result (λ parts. parts ≡ address_options_user bytes.now) }
{
    let (first, second) = copy_two(alloc, bytes)?;
    match copy_user(alloc, bytes) {
        Ok(user) => Ok((first, second, user)),
        Err(fail) => {
            drop(first);
            drop(second);
            Err(fail)
        }
    }
}

/// The two parts whose words stand first.
fn copy_two(alloc: Global, bytes: &[u8]) -> Result<(Bytes, Bytes), AllocError>
    requires words { 28 ≤ length bytes.now }
    requires first { HasPartAt bytes.now 12 }
    requires second { HasPartAt bytes.now 20 }
    ensures { IfOk result (λ parts. parts ≡ (part_in bytes.now 12, part_in bytes.now 20)) }
{
    let first = copy_part(alloc, bytes, 12)?;
    match copy_part(alloc, bytes, 20) {
        Ok(second) => Ok((first, second)),
        Err(fail) => {
            drop(first);
            Err(fail)
        }
    }
}

/// The part whose words stand at this place, and the user data.
fn copy_part_and_user(
    alloc: Global,
    bytes: &[u8],
    place: usize,
) -> Result<(Bytes, Bytes), AllocError>
    requires frame { IsFrame bytes.now }
    requires words { place + 8 ≤ length bytes.now }
    requires part { HasPartAt bytes.now place }
    ensures { IfOk result (λ it. it ≡ (part_in bytes.now place, user_in bytes.now)) }
{
    let part = copy_part(alloc, bytes, place)?;
    match copy_user(alloc, bytes) {
        Ok(user) => Ok((part, user)),
        Err(fail) => {
            drop(part);
            Err(fail)
        }
    }
}

fn copy_part(alloc: Global, bytes: &[u8], place: usize) -> Result<Bytes, AllocError>
    requires words { place + 8 ≤ length bytes.now }
    requires bytes { HasPartAt bytes.now place }
    ensures { IfOk result (λ part. part ≡ part_in bytes.now place) }
{
    Bytes::copy_from_slice(alloc, part_at(bytes, place))
}

fn copy_user(alloc: Global, bytes: &[u8]) -> Result<Bytes, AllocError>
    requires { IsFrame bytes.now }
    ensures { IfOk result (λ user. user ≡ user_in bytes.now) }
{
    Bytes::copy_from_slice(alloc, user_at(bytes))
}
